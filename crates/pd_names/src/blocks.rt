//! The declarations of `with` blocks.

ghost use Rattle.std.specs.Prelude.{◌≡◌, [], map};
ghost use Rattle.cond_subset.specs.Declarations.{value_of, decl_of};
ghost use Rattle.cond_subset.specs.Names.{Judges};
ghost use Rattle.pd_names.specs.Blocks as block_rules;

use crate::parts::{check_flag, check_part, check_parts};
use crate::sight::{Sight, declare};
use cond_subset::{DeclText, Declared, ValueText};
use pd_pattern_names::Known;
use pm_items::Items;
use pm_ops::PatternFault;
use std::alloc::Global;

/// Each capture, name and call of a value is known.
fn check_value(
    alloc: Global,
    source: &[u8],
    known: &Known,
    sight: &Sight,
    block: &[Declared],
    value: &ValueText,
) -> Result<(), PatternFault>
    ensures { Judges (block_rules.value_fault source.now known.now sight.now block.now (value_of value.now)) result }
{
    match value {
        ValueText::Plain(expr) => check_part(alloc, source, known, sight, block, expr),
        ValueText::Flagged(_, args, flag) => {
            check_parts(alloc, source, known, sight, block, args.as_slice())?;
            check_flag(source, known, sight, block, *flag)
        }
    }
}

/// Each capture, name and call of a declaration is known.
fn check_decl(
    alloc: Global,
    source: &[u8],
    known: &Known,
    sight: &Sight,
    block: &[Declared],
    decl: &DeclText,
) -> Result<(), PatternFault>
    ensures { Judges (block_rules.decl_fault source.now known.now sight.now block.now (decl_of decl.now)) result }
{
    match decl {
        DeclText::Valued(_, _, value) => check_value(alloc, source, known, sight, block, value),
        DeclText::Overflow(_) => Ok(()),
    }
}

/// Each capture, name and call of the declarations of a block is known.
pub(crate) fn check_block(
    alloc: Global,
    source: &[u8],
    known: &Known,
    sight: &Sight,
    decls: &[DeclText],
) -> Result<(), PatternFault>
    ensures { Judges (block_rules.block_fault source.now known.now sight.now [] (map decl_of decls.now)) result }
{
    let mut block = Items::new(alloc);
    for decl in decls {
        check_decl(alloc, source, known, sight, block.as_slice(), decl)?;
        declare(&mut block, decl)?;
    }
    Ok(())
}
