//! Whole C parts: what their tokens spell, or the first fault of syntax.

ghost use Rattle.std.specs.Prelude.{◌≡◌, ◌<◌, ◌≤◌, List, length, map, IfOk, IfErr};
ghost use Rattle.grammar.specs.Gives.{GivesInMemory};
ghost use Rattle.grammar.specs.Exact.{IsExact};
ghost use Rattle.grammar.specs.Whole.{whole_of};
ghost use Rattle.pm_ops.specs.declared.fault.PatternKind.TheVariants.{CSyntax};
ghost use Rattle.cond_subset.specs.GoesOn.{GoesOn};
ghost use Rattle.cond_subset.specs.Trees.{Expr, expr_of};
ghost use Rattle.cond_subset.specs.Declarations.{Decl, decl_of, SpellsBlock};
ghost use Rattle.cond_subset.specs.Grammar.{Spells};
ghost use Rattle.cond_subset.specs.DeclarationReaders.{IsInBlock, expression_at, block_at};
ghost use Rattle.cond_subset.specs.WholeReaders.{brace_at, InSource};
ghost use Rattle.cond_subset.specs.Syntax.{symbols_of, SpellsBrace, end_of, fault_at, syntax_fault, IsRefused, ReadsOrMemory};

use crate::declaration::read_decls;
use crate::expression::read_within;
use crate::tokens::offends;
use crate::tree::{DeclText, ExprText};
use grammar::Stop;
use pd_lexer::Token;
use pd_text::{Mark, Symbol, SymbolStop, meanings};
use pm_items::Items;
use pm_ops::{OutOfMemory, PatternFault, PatternKind};
use pm_places::Span;
use std::alloc::Global;

/// The expression that the symbols begin with, and what is after it.
pub fn read_expression(
    alloc: Global,
    symbols: &[Symbol],
) -> Result<(ExprText, &[Symbol]), SymbolStop<'_>>
    ensures reads { GivesInMemory (λ x. (expr_of x.0, x.1.now)) result (expression_at symbols.now) }
    // What is read is spelled so, as far as an expression goes, and a fault is the first.
    ensures exact { IsExact Spells (GoesOn 10) symbols.now (expression_at symbols.now) }
    ensures shorter { IfOk result (λ x. length x.1.now < length symbols.now) }
{
    read_within(alloc, symbols.len() + 1, 10, symbols)
}

/// The declarations that the symbols begin with, up to a `}` or the end, and what is after them.
pub fn read_block(
    alloc: Global,
    symbols: &[Symbol],
) -> Result<(Items<DeclText>, &[Symbol]), SymbolStop<'_>>
    ensures reads { GivesInMemory (λ x. (map decl_of x.0, x.1.now)) result (block_at symbols.now) }
    // What is read is spelled so, as far as declarations go, and a fault is the first.
    ensures exact { IsExact SpellsBlock IsInBlock symbols.now (block_at symbols.now) }
    ensures no_longer { IfOk result (λ x. length x.1.now ≤ length symbols.now) }
{
    read_decls(alloc, symbols)
}

/// The expression that the symbols begin with, with the `;` after it, if there is one, and what is
/// after them.
pub fn read_brace(
    alloc: Global,
    symbols: &[Symbol],
) -> Result<(ExprText, &[Symbol]), SymbolStop<'_>>
    ensures reads { GivesInMemory (λ x. (expr_of x.0, x.1.now)) result (brace_at symbols.now) }
    ensures shorter { IfOk result (λ x. length x.1.now < length symbols.now) }
{
    let (value, rest) = read_expression(alloc, symbols)?;
    match rest {
        [Symbol::Mark(Mark::Semicolon, _), rest @ ..] => Ok((value, rest)),
        _ => Ok((value, rest)),
    }
}

/// An expression, up to the end.
fn whole_expression(alloc: Global, symbols: &[Symbol]) -> Result<ExprText, SymbolStop<'_>>
    ensures { GivesInMemory expr_of result (whole_of CSyntax (expression_at symbols.now)) }
{
    let (value, rest) = read_expression(alloc, symbols)?;
    match rest {
        [] => Ok(value),
        _ => Err(offends(rest).into()),
    }
}

/// The inside of braces, up to the end.
fn whole_brace(alloc: Global, symbols: &[Symbol]) -> Result<ExprText, SymbolStop<'_>>
    ensures { GivesInMemory expr_of result (whole_of CSyntax (brace_at symbols.now)) }
{
    let (value, rest) = read_brace(alloc, symbols)?;
    match rest {
        [] => Ok(value),
        _ => Err(offends(rest).into()),
    }
}

/// Declarations, up to the end.
fn whole_block(alloc: Global, symbols: &[Symbol]) -> Result<Items<DeclText>, SymbolStop<'_>>
    ensures { GivesInMemory (map decl_of) result (whole_of CSyntax (block_at symbols.now)) }
{
    let (decls, rest) = read_block(alloc, symbols)?;
    match rest {
        [] => Ok(decls),
        _ => Err(offends(rest).into()),
    }
}

/// Just after the last of the symbols; the start of the source where there are none.
fn end_of(symbols: &[Symbol]) -> usize
    ensures { result ≡ end_of symbols.now }
{
    match symbols.last() {
        Some(last) => last.span().to,
        None => 0,
    }
}

/// A fault of this kind at a place.
pub(crate) fn fault_at(kind: PatternKind, at: Span) -> PatternFault
    ensures { result ≡ fault_at kind at }
{
    PatternFault {
        kind,
        at: at.from,
        len: at.to.saturating_sub(at.from),
    }
}

/// The fault at the first of `rest`, or just after the last symbol where there is none.
fn syntax_fault(symbols: &[Symbol], rest: &[Symbol]) -> PatternFault
    ensures { result ≡ syntax_fault symbols.now rest.now }
{
    match rest {
        [first, ..] => fault_at(PatternKind::CSyntax, first.span()),
        [] => PatternFault {
            kind: PatternKind::CSyntax,
            at: end_of(symbols),
            len: 0,
        },
    }
}

/// What was read, with its fault as one of the source.
fn in_source<X: Drop>(
    symbols: &[Symbol],
    read: Result<X, SymbolStop<'_>>,
) -> Result<X, PatternFault>
    ensures { InSource symbols.now read.entry result }
{
    match read {
        Ok(value) => Ok(value),
        Err(Stop::Memory) => Err(OutOfMemory.into()),
        Err(Stop::Fault(fault)) => Err(syntax_fault(symbols, fault.rest)),
    }
}

/// The expression that these symbols spell, all of them.
fn cond_of(alloc: Global, symbols: &[Symbol]) -> Result<ExprText, PatternFault>
    ensures found { IfOk result (λ e. Spells (expr_of e) symbols.now) }
    ensures only { (e : Expr) → Spells e symbols.now → ReadsOrMemory expr_of result e }
    ensures fault { IfErr result (λ fault. IsRefused Spells symbols.now fault fault.kind) }
{
    in_source(symbols, whole_expression(alloc, symbols))
}

/// The expression that the tokens of a condition spell, all of them.
pub fn cond_syntax(alloc: Global, tokens: &[Token], source: &[u8]) -> Result<ExprText, PatternFault>
    // What is read is spelled so.
    ensures found { IfOk result (λ e. Spells (expr_of e) (symbols_of source.now tokens.now)) }
    // What is spelled so is read, unless memory runs out.
    ensures only { (e : Expr) → Spells e (symbols_of source.now tokens.now) → ReadsOrMemory expr_of result e }
    // A fault is that of the first offending token, or of the end.
    ensures fault { IfErr result (λ fault. IsRefused Spells (symbols_of source.now tokens.now) fault fault.kind) }
{
    let symbols = meanings(alloc, tokens, source)?;
    cond_of(alloc, &symbols)
}

/// The inside of braces that these symbols spell, all of them.
fn brace_of(alloc: Global, symbols: &[Symbol]) -> Result<ExprText, PatternFault>
    ensures found { IfOk result (λ e. SpellsBrace (expr_of e) symbols.now) }
    ensures only { (e : Expr) → SpellsBrace e symbols.now → ReadsOrMemory expr_of result e }
    ensures fault { IfErr result (λ fault. IsRefused SpellsBrace symbols.now fault fault.kind) }
{
    in_source(symbols, whole_brace(alloc, symbols))
}

/// The expression that the tokens of a result operand in braces spell, all of them.
pub fn brace_syntax(
    alloc: Global,
    tokens: &[Token],
    source: &[u8],
) -> Result<ExprText, PatternFault>
    // What is read is spelled so.
    ensures found { IfOk result (λ e. SpellsBrace (expr_of e) (symbols_of source.now tokens.now)) }
    // What is spelled so is read, unless memory runs out.
    ensures only { (e : Expr) → SpellsBrace e (symbols_of source.now tokens.now) → ReadsOrMemory expr_of result e }
    // A fault is that of the first offending token, or of the end.
    ensures fault { IfErr result (λ fault. IsRefused SpellsBrace (symbols_of source.now tokens.now) fault fault.kind) }
{
    let symbols = meanings(alloc, tokens, source)?;
    brace_of(alloc, &symbols)
}

/// The declarations that these symbols spell, all of them.
fn block_of(alloc: Global, symbols: &[Symbol]) -> Result<Items<DeclText>, PatternFault>
    ensures found { IfOk result (λ x. SpellsBlock (map decl_of x) symbols.now) }
    ensures only { (x : List Decl) → SpellsBlock x symbols.now → ReadsOrMemory (map decl_of) result x }
    ensures fault { IfErr result (λ fault. IsRefused SpellsBlock symbols.now fault fault.kind) }
{
    in_source(symbols, whole_block(alloc, symbols))
}

/// The declarations that the tokens of a `with` block spell, all of them.
pub fn block_syntax(
    alloc: Global,
    tokens: &[Token],
    source: &[u8],
) -> Result<Items<DeclText>, PatternFault>
    // What is read is spelled so.
    ensures found { IfOk result (λ x. SpellsBlock (map decl_of x) (symbols_of source.now tokens.now)) }
    // What is spelled so is read, unless memory runs out.
    ensures only { (x : List Decl) → SpellsBlock x (symbols_of source.now tokens.now) → ReadsOrMemory (map decl_of) result x }
    // A fault is that of the first offending token, or of the end.
    ensures fault { IfErr result (λ fault. IsRefused SpellsBlock (symbols_of source.now tokens.now) fault fault.kind) }
{
    let symbols = meanings(alloc, tokens, source)?;
    block_of(alloc, &symbols)
}
