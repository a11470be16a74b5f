//! The value of a term, and whether an environment has its names.
ghost use Rattle.std.specs.Prelude.{◌≡◌, ◌↔◌, IfOk, IsTrue};
ghost use Rattle.std.specs.Option.{ok_or};
ghost use Rattle.pm_wide.specs.Typing.{well_typed_operation};
ghost use Rattle.pm_term.specs.Environments.{assigned, HasNames, HaveNames};
ghost use Rattle.pm_term.specs.Terms.{operation_on, term_value, term_values};
ghost use Rattle.pm_term.specs.TermTrees.{tree_of, trees_of};
ghost use Rattle.pm_term.specs.Trees.{type_of, types_of, IsWellTyped, AreWellTyped};

use crate::environment::Env;
use crate::term::Term;
use pm_ops::Code;
use pm_wide::{IntType, Undefined, Wide, op_value};

#[cycle(names)]
pub(crate) fn has_names(env: &Env, term: &Term) -> bool
    ensures { IsTrue result ↔ HasNames env.now.words (tree_of term.now) }
{
    match term {
        Term::Name(version, ty) => env.word(*version, *ty).is_some(),
        Term::Const(_) => true,
        Term::Node(_, _, args) => have_names(env, args.as_slice()),
    }
}

#[cycle(names)]
fn have_names(env: &Env, terms: &[Term]) -> bool
    ensures { IsTrue result ↔ HaveNames env.now.words (trees_of terms.now) }
{
    for term in terms {
        if !has_names(env, term) {
            return false;
        }
    }
    true
}

#[cycle(value)]
pub(crate) fn value_of(term: &Term, env: &Env) -> Result<Wide, Undefined>
    requires well_typed { IsWellTyped (tree_of term.now) }
    requires has_names { HasNames env.now.words (tree_of term.now) }
    ensures value { result ≡
        ok_or (term_value (assigned env.now.words) (tree_of term.now)) (record {}) }
    ensures typed { IfOk result (λ w. w.ty ≡ type_of (tree_of term.now)) }
{
    match term {
        Term::Name(version, ty) => Ok(env.assigned(*version, *ty)),
        Term::Const(word) => Ok(*word),
        Term::Node(code, ty, args) => value_on(*code, *ty, args.as_slice(), env),
    }
}

/// The value of an operation on these terms; none has fewer than one or more than three.
#[cycle(value)]
fn value_on(code: Code, ty: IntType, args: &[Term], env: &Env) -> Result<Wide, Undefined>
    requires operation { IsTrue (well_typed_operation code ty (types_of (trees_of args.now))) }
    requires well_typed { AreWellTyped (trees_of args.now) }
    requires has_names { HaveNames env.now.words (trees_of args.now) }
    ensures value { result ≡
        ok_or (operation_on code ty (term_values (assigned env.now.words) (trees_of args.now))) (record {}) }
    ensures typed { IfOk result (λ w. w.ty ≡ ty) }
{
    match args {
        [a] => {
            let a = value_of(a, env)?;
            op_value(code, ty, &[a])
        }
        [a, b] => {
            let a = value_of(a, env)?;
            let b = value_of(b, env)?;
            op_value(code, ty, &[a, b])
        }
        [a, b, c] => {
            let a = value_of(a, env)?;
            let b = value_of(b, env)?;
            let c = value_of(c, env)?;
            op_value(code, ty, &[a, b, c])
        }
        _ => Err(Undefined),
    }
}
