//! Well-typed terms: made of operands and operations, read, copied, compared, counted and valued.
ghost use Rattle.std.specs.Prelude.{◌≡◌, ◌↔◌, ◌^◌, ◌-◌, min, map, IfOk, OnOk, IsErrOf, IsTrue, false};
ghost use Rattle.std.specs.Option.{ok_or};
ghost use Rattle.pm_wide.specs.Typing.{well_typed_operation};
ghost use Rattle.pm_term.specs.declared.fault.BuildFault.TheVariants.{IllTyped};
ghost use Rattle.pm_term.specs.Environments.{assigned, HasNames};
ghost use Rattle.pm_term.specs.Terms.{term_value};
ghost use Rattle.pm_term.specs.TermTrees.{tree_of};
ghost use Rattle.pm_term.specs.Trees.{leaf, node, trees, type_of, operations, IsWellTyped, AreWellTyped};

use crate::environment::Env;
use crate::fault::BuildFault;
use crate::term::Term;
use crate::{count, value};
use pm_items::Items;
use pm_ops::{Code, OutOfMemory};
use pm_wide::{IntType, Operand, Undefined, Wide, well_typed};
use std::alloc::Global;
use std::marker::Model;

/// A well-typed term. Contracts see its plain tree.
#[derive(Debug, PartialEq, Eq, Drop)]
pub struct Typed {
    term: Term,
}

impl Model for Typed {
    ghost use Rattle.pm_term.specs.Trees.{Tree, IsWellTyped};
    ghost use Rattle.pm_term.specs.TermTrees.{tree_of};
    ghost use Rattle.pm_term.specs.TreeCodes.{tree_code, term_of, term_of-tree_of};

    ghost Value = { Tree };

    ghost coded = { tree_code };

    ghost view = { λ t. tree_of t.term };

    ghost invariant = { λ t. IsWellTyped (tree_of t.term) };

    ghost inverse = { λ t. record { term = term_of t } };

    ghost inverse_ok = { λ t h. λ i. record { term = term_of-tree_of t.term i } };
}

impl Typed {
    /// The term of an operand. Takes no memory.
    pub fn leaf(operand: Operand) -> Typed
        ensures { result ≡ leaf operand }
    {
        match operand {
            Operand::Name(version, ty) => {
                let _known = ty.bits();
                Typed {
                    term: Term::Name(version, ty),
                }
            }
            Operand::Const(word) => {
                let _known = word.bits();
                Typed {
                    term: Term::Const(word),
                }
            }
        }
    }

    /// The operation on these terms, with a result of that type, or a refusal where it isn't well
    /// typed. After a refusal the terms are dropped.
    pub fn build(
        alloc: Global,
        code: Code,
        ty: IntType,
        args: Items<Typed>,
    ) -> Result<Typed, BuildFault>
        ensures ok { IfOk result (λ t. t ≡ node code ty (trees args)) }
        ensures ill_typed { IsErrOf result BuildFault.IllTyped ↔
            (well_typed_operation code ty (map type_of args) ≡ false) }
    {
        if !are_operands(code, ty, args.as_slice()) {
            return Err(BuildFault::IllTyped);
        }
        let _known = ty.bits();
        let args = terms(alloc, args)?;
        Ok(Typed {
            term: Term::Node(code, ty, args),
        })
    }

    /// The term itself.
    pub fn term(&self) -> &Term
        ensures value { tree_of result.now ≡ self.now }
        ensures well_typed { IsWellTyped self.now }
    {
        &self.term
    }

    /// The type of its value.
    pub fn ty(&self) -> IntType
        ensures { result ≡ type_of self.now }
    {
        match &self.term {
            Term::Name(_, ty) | Term::Node(_, ty, _) => *ty,
            Term::Const(word) => word.ty(),
        }
    }

    /// A term equal to this one, which shares nothing with it.
    pub fn copy(&self, alloc: Global) -> Result<Typed, OutOfMemory>
        ensures { IfOk result (λ t. t ≡ self.now) }
    {
        Ok(Typed {
            term: self.term.copy(alloc)?,
        })
    }

    /// The typed term of a well-typed one, as a copy that shares nothing with it.
    pub fn of(alloc: Global, term: &Term) -> Result<Typed, OutOfMemory>
        requires { IsWellTyped (tree_of term.now) }
        ensures { IfOk result (λ t. t ≡ tree_of term.now) }
    {
        Ok(Typed {
            term: term.copy(alloc)?,
        })
    }

    /// Whether two terms are one and the same: equal codes, types, versions and words everywhere.
    #[tactic(auto, using(crate::specs::TreeCodes::tree_of_injective))]
    pub fn same(&self, other: &Typed) -> bool
        ensures { IsTrue result ↔ (self.now ≡ other.now) }
    {
        self.term.same(&other.term)
    }

    /// How many operations it has, conversions too. 2 to the 64 less 1 stands for all that are
    /// more, which no memory holds. Takes no memory.
    pub fn operators(&self) -> usize
        ensures { result ≡ min (operations self.now) (2 ^ 64 - 1) }
    {
        count::operators_of(&self.term)
    }

    /// Whether the environment has each of its names, with its type.
    pub fn names_are_in(&self, env: &Env) -> bool
        ensures { IsTrue result ↔ HasNames env.now.words self.now }
    {
        value::has_names(env, &self.term)
    }

    /// Its value where the environment gives the words of its names, or `Undefined` where any of
    /// its operations has none, also in the part of a `cond` that isn't chosen. Takes no memory.
    pub fn value(&self, env: &Env) -> Result<Wide, Undefined>
        requires { HasNames env.now.words self.now }
        ensures value { result ≡ ok_or (term_value (assigned env.now.words) self.now) (record {}) }
        ensures typed { IfOk result (λ w. w.ty ≡ type_of self.now) }
    {
        value::value_of(&self.term, env)
    }
}

/// Whether an operation on these terms is well typed.
#[tactic(auto, unfolding(pm_wide::specs::Typing::well_typed_operation))]
fn are_operands(code: Code, ty: IntType, args: &[Typed]) -> bool
    ensures { result ≡ well_typed_operation code ty (map type_of args.now) }
{
    match args {
        [a] => well_typed(code, ty, &[a.ty()]),
        [a, b] => well_typed(code, ty, &[a.ty(), b.ty()]),
        [a, b, c] => well_typed(code, ty, &[a.ty(), b.ty(), c.ty()]),
        _ => false,
    }
}

/// The terms themselves.
fn terms(alloc: Global, args: Items<Typed>) -> Result<Items<Term>, OutOfMemory>
    ensures trees { IfOk result (λ terms. map tree_of terms ≡ args) }
    ensures well_typed { OnOk result (AreWellTyped (trees args)) }
{
    let mut terms = Items::new(alloc);
    for typed in args.into_vec() {
        let Typed { term } = typed;
        terms.push(term)?;
    }
    Ok(terms)
}
