//! What a part of a form may name.

ghost use Rattle.std.specs.Prelude.{◌≡◌, ◌++◌, map, IfOk};
ghost use Rattle.cond_subset.specs.Declarations.{value_of, decl_of};
ghost use Rattle.cond_subset.specs.Names.{set_flag, flags_of, declared_by};
ghost use Rattle.pd_names.specs.Blocks.{declared_in, below};

use cond_subset::{DeclText, Declared, ValueText};
use pm_items::Items;
use pm_ops::OutOfMemory;
use pm_places::Span;
use std::alloc::Global;

/// What a part of a form may name, beside what the file knows.
#[derive(Drop)]
pub struct Sight {
    /// The captures of the pattern.
    pub captures: Items<Span>,
    /// What the blocks round the part declare, in their order.
    pub locals: Items<Declared>,
    /// It stands in the tail of a case, where `t` is an operand.
    pub in_match: bool,
}

/// The flag that a value sets.
fn flag_of(value: &ValueText) -> Option<Span>
    ensures { flags_of result ≡ set_flag (value_of value.now) }
{
    match value {
        ValueText::Plain(_) => None,
        ValueText::Flagged(_, _, flag) => Some(*flag),
    }
}

/// The block with what a declaration declares.
#[tactic(auto, using(std::proofs::lemmas::List::append_assoc))]
pub(crate) fn declare(block: &mut Items<Declared>, decl: &DeclText) -> Result<(), OutOfMemory>
    ensures { IfOk result (λ _. block.new ≡ block.old ++ declared_by (decl_of decl.now)) }
{
    match decl {
        DeclText::Valued(_, name, value) => {
            if let Some(flag) = flag_of(value) {
                block.push(Declared {
                    name: flag,
                    ready: true,
                })?;
            }
            block.push(Declared {
                name: *name,
                ready: true,
            })?;
        }
        DeclText::Overflow(name) => block.push(Declared {
            name: *name,
            ready: false,
        })?,
    }
    Ok(())
}

/// The block with what these declarations declare.
#[tactic(auto, using(std::proofs::lemmas::List::append_assoc))]
fn declare_all(block: &mut Items<Declared>, decls: &[DeclText]) -> Result<(), OutOfMemory>
    ensures { IfOk result (λ _. block.new ≡ block.old ++ declared_in (map decl_of decls.now)) }
{
    for decl in decls {
        declare(block, decl)?;
    }
    Ok(())
}

/// What a part below these declarations may name.
pub(crate) fn below(alloc: Global, sight: &Sight, decls: &[DeclText]) -> Result<Sight, OutOfMemory>
    ensures { IfOk result (λ x. x ≡ below sight.now (map decl_of decls.now)) }
{
    let captures = Items::from_slice(alloc, sight.captures.as_slice())?;
    let mut locals = Items::from_slice(alloc, sight.locals.as_slice())?;
    declare_all(&mut locals, decls)?;
    Ok(Sight {
        captures,
        locals,
        in_match: sight.in_match,
    })
}
