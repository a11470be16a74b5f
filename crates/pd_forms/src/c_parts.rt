//! C parts between their parentheses or braces. From what opens one to what closes it each fault
//! is one of C parts.

ghost use Rattle.std.specs.Prelude.{◌≡◌, ◌<◌, ◌≤◌, length, map, IfOk};
ghost use Rattle.grammar.specs.Gives.{GivesInMemory};
ghost use Rattle.cond_subset.specs.Trees.{expr_of};
ghost use Rattle.cond_subset.specs.Declarations.{decl_of};
ghost use Rattle.pd_forms.specs.PartReaders as readers;

use crate::tokens::{read_closing, read_mark};
use cond_subset::{DeclText, ExprText, read_block, read_brace, read_expression};
use pd_text::{Mark, Symbol, SymbolStop};
use pm_items::Items;
use std::alloc::Global;

/// A condition in its parentheses.
pub fn read_condition(
    alloc: Global,
    symbols: &[Symbol],
) -> Result<(ExprText, &[Symbol]), SymbolStop<'_>>
    ensures reads { GivesInMemory (λ x. (expr_of x.0, x.1.now)) result (readers.condition_at symbols.now) }
    ensures shorter { IfOk result (λ x. length x.1.now < length symbols.now) }
{
    let (_, rest) = read_mark(Mark::Open, symbols)?;
    let (condition, rest) = read_expression(alloc, rest)?;
    let (_, rest) = read_closing(Mark::Close, rest)?;
    Ok((condition, rest))
}

/// Declarations in their braces.
pub(crate) fn read_declarations(
    alloc: Global,
    symbols: &[Symbol],
) -> Result<(Items<DeclText>, &[Symbol]), SymbolStop<'_>>
    ensures reads { GivesInMemory (λ x. (map decl_of x.0, x.1.now)) result (readers.declarations_at symbols.now) }
    ensures shorter { IfOk result (λ x. length x.1.now < length symbols.now) }
{
    let (_, rest) = read_mark(Mark::OpenBrace, symbols)?;
    let (declarations, rest) = read_block(alloc, rest)?;
    let (_, rest) = read_closing(Mark::CloseBrace, rest)?;
    Ok((declarations, rest))
}

/// An operand in braces after its `{`.
pub(crate) fn read_braced(
    alloc: Global,
    symbols: &[Symbol],
) -> Result<(ExprText, &[Symbol]), SymbolStop<'_>>
    ensures reads { GivesInMemory (λ x. (expr_of x.0, x.1.now)) result (readers.braced_at symbols.now) }
    ensures shorter { IfOk result (λ x. length x.1.now < length symbols.now) }
{
    let (value, rest) = read_brace(alloc, symbols)?;
    let (_, rest) = read_closing(Mark::CloseBrace, rest)?;
    Ok((value, rest))
}
