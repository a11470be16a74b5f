//! Declarations of `with` blocks.
//!
//! The value of a `wide_int` may be a call whose last argument is a flag. After `wi::add (` and
//! its like one argument is read after the other, until the `)`, the flag or one argument too many
//! says which it is.

ghost use Rattle.std.specs.Prelude.{◌≡◌, ◌<◌, ◌≤◌, length, map, IfOk};
ghost use Rattle.grammar.specs.Gives.{Gives, GivesInMemory};
ghost use Rattle.grammar.specs.Reading.{first_is, more_at};
ghost use Rattle.cond_subset.specs.Trees.{expr_of};
ghost use Rattle.cond_subset.specs.Declarations.{value_of, decl_of};
ghost use Rattle.cond_subset.specs.Words as words;
ghost use Rattle.cond_subset.specs.Readers as expressions;
ghost use Rattle.cond_subset.specs.DeclarationReaders as readers;

use crate::expression::{begins_further, read_further, read_links, read_within};
use crate::tokens::{offends, read_identifier, read_mark, read_word};
use crate::tree::{Arithmetic, Callee, DeclText, DeclWord, ExprText, FlaggedCall, ValueText};
use pd_text::{Mark, Symbol, SymbolStop, Word};
use pm_items::Items;
use pm_places::Span;
use std::alloc::Global;

/// The word of a declaration that a symbol is.
fn decl_word(symbol: Symbol) -> Option<DeclWord>
    ensures { result ≡ words.decl_word symbol }
{
    match symbol {
        Symbol::Word(Word::Tree, _) => Some(DeclWord::Tree),
        Symbol::Word(Word::WideInt, _) => Some(DeclWord::WideInt),
        Symbol::Word(Word::Boolean, _) => Some(DeclWord::Boolean),
        Symbol::Word(Word::Int, _) => Some(DeclWord::Int),
        Symbol::Word(Word::Unsigned, _) => Some(DeclWord::Unsigned),
        Symbol::Word(Word::Signop, _) => Some(DeclWord::Signop),
        Symbol::Word(Word::TreeCode, _) => Some(DeclWord::TreeCode),
        _ => None,
    }
}

/// The arithmetic that may have a flag, with its place.
fn arithmetic(symbol: Symbol) -> Option<(Arithmetic, Span)>
    ensures { result ≡ words.arithmetic symbol }
{
    match symbol {
        Symbol::Word(Word::Add, at) => Some((Arithmetic::Add, at)),
        Symbol::Word(Word::Subtract, at) => Some((Arithmetic::Subtract, at)),
        Symbol::Word(Word::Multiply, at) => Some((Arithmetic::Multiply, at)),
        Symbol::Word(Word::Negate, at) => Some((Arithmetic::Negate, at)),
        _ => None,
    }
}

/// An expression as a value.
fn read_plain(
    alloc: Global,
    room: usize,
    symbols: &[Symbol],
) -> Result<(ValueText, &[Symbol]), SymbolStop<'_>>
    requires roomy { length symbols.now < room }
    ensures reads { GivesInMemory (λ x. (value_of x.0, x.1.now)) result (readers.plain_at (expressions.readers room) symbols.now) }
    ensures shorter { IfOk result (λ x. length x.1.now < length symbols.now) }
{
    let (value, rest) = read_within(alloc, room, 10, symbols)?;
    Ok((ValueText::Plain(value), rest))
}

/// The `)` of a call without a flag, and what goes on the call.
fn read_called(
    alloc: Global,
    room: usize,
    call: FlaggedCall,
    args: Items<ExprText>,
    symbols: &[Symbol],
) -> Result<(ValueText, &[Symbol]), SymbolStop<'_>>
    requires roomy { length symbols.now < room }
    ensures reads { GivesInMemory (λ x. (value_of x.0, x.1.now)) result (readers.called_at (expressions.readers room) call (map expr_of args) symbols.now) }
    ensures shorter { IfOk result (λ x. length x.1.now < length symbols.now) }
{
    let (_, rest) = read_mark(Mark::Close, symbols)?;
    let callee = Callee {
        wide: Some(call.wide),
        name: call.name,
    };
    let (value, rest) = read_links(alloc, room, 10, ExprText::Call(callee, args), rest)?;
    Ok((ValueText::Plain(value), rest))
}

/// Further arguments, as many as there are.
fn read_more(
    alloc: Global,
    room: usize,
    args: Items<ExprText>,
    symbols: &[Symbol],
) -> Result<(Items<ExprText>, &[Symbol]), SymbolStop<'_>>
    requires roomy { length symbols.now < room }
    ensures reads { GivesInMemory (λ x. (map expr_of x.0, x.1.now)) result (more_at expressions.is_comma (expressions.further_at (expressions.readers room)) (map expr_of args) symbols.now) }
    ensures no_longer { IfOk result (λ x. length x.1.now ≤ length symbols.now) }
{
    let mut args = args;
    let mut rest = symbols;
    while begins_further(rest) {
        let (arg, after) = read_further(alloc, room, rest)?;
        args.push(arg)?;
        rest = after;
    }
    Ok((args, rest))
}

/// Further arguments, behind which no flag may stand, and the rest of the value.
fn read_others(
    alloc: Global,
    room: usize,
    call: FlaggedCall,
    args: Items<ExprText>,
    symbols: &[Symbol],
) -> Result<(ValueText, &[Symbol]), SymbolStop<'_>>
    requires roomy { length symbols.now < room }
    ensures reads { GivesInMemory (λ x. (value_of x.0, x.1.now)) result (readers.others_at (expressions.readers room) call (map expr_of args) symbols.now) }
    ensures shorter { IfOk result (λ x. length x.1.now < length symbols.now) }
{
    let (args, rest) = read_more(alloc, room, args, symbols)?;
    read_called(alloc, room, call, args, rest)
}

/// What stands after `, &`: the flag and the `)`.
fn read_flag(
    call: FlaggedCall,
    args: Items<ExprText>,
    symbols: &[Symbol],
) -> Result<(ValueText, &[Symbol]), SymbolStop<'_>>
    ensures reads { GivesInMemory (λ x. (value_of x.0, x.1.now)) result (readers.flag_at call (map expr_of args) symbols.now) }
    ensures shorter { IfOk result (λ x. length x.1.now < length symbols.now) }
{
    let (flag, rest) = read_identifier(symbols)?;
    let (_, rest) = read_mark(Mark::Close, rest)?;
    Ok((ValueText::Flagged(call, args, flag), rest))
}

/// What stands after a `,` behind which a flag may stand.
fn read_flag_or_other(
    alloc: Global,
    room: usize,
    call: FlaggedCall,
    args: Items<ExprText>,
    symbols: &[Symbol],
) -> Result<(ValueText, &[Symbol]), SymbolStop<'_>>
    requires roomy { length symbols.now < room }
    ensures reads { GivesInMemory (λ x. (value_of x.0, x.1.now)) result (readers.flag_or_other_at (expressions.readers room) call (map expr_of args) symbols.now) }
    ensures shorter { IfOk result (λ x. length x.1.now < length symbols.now) }
{
    match symbols {
        [Symbol::Mark(Mark::Ampersand, _), rest @ ..] => read_flag(call, args, rest),
        _ => {
            let mut args = args;
            let (arg, rest) = read_within(alloc, room, 10, symbols)?;
            args.push(arg)?;
            read_others(alloc, room, call, args, rest)
        }
    }
}

/// What stands after the last argument before a flag.
fn read_after_last(
    alloc: Global,
    room: usize,
    call: FlaggedCall,
    args: Items<ExprText>,
    symbols: &[Symbol],
) -> Result<(ValueText, &[Symbol]), SymbolStop<'_>>
    requires roomy { length symbols.now < room }
    ensures reads { GivesInMemory (λ x. (value_of x.0, x.1.now)) result (readers.last_at (expressions.readers room) call (map expr_of args) symbols.now) }
    ensures shorter { IfOk result (λ x. length x.1.now < length symbols.now) }
{
    match symbols {
        [Symbol::Mark(Mark::Comma, _), rest @ ..] => {
            read_flag_or_other(alloc, room, call, args, rest)
        }
        _ => read_called(alloc, room, call, args, symbols),
    }
}

/// What stands after the second of three arguments before a flag.
fn read_after_second(
    alloc: Global,
    room: usize,
    call: FlaggedCall,
    args: Items<ExprText>,
    symbols: &[Symbol],
) -> Result<(ValueText, &[Symbol]), SymbolStop<'_>>
    requires roomy { length symbols.now < room }
    ensures reads { GivesInMemory (λ x. (value_of x.0, x.1.now)) result (readers.second_at (expressions.readers room) call (map expr_of args) symbols.now) }
    ensures shorter { IfOk result (λ x. length x.1.now < length symbols.now) }
{
    match symbols {
        [Symbol::Mark(Mark::Comma, _), rest @ ..] => {
            let mut args = args;
            let (arg, rest) = read_within(alloc, room, 10, rest)?;
            args.push(arg)?;
            read_after_last(alloc, room, call, args, rest)
        }
        _ => read_called(alloc, room, call, args, symbols),
    }
}

/// What stands after the first of three arguments before a flag.
fn read_after_first(
    alloc: Global,
    room: usize,
    call: FlaggedCall,
    args: Items<ExprText>,
    symbols: &[Symbol],
) -> Result<(ValueText, &[Symbol]), SymbolStop<'_>>
    requires roomy { length symbols.now < room }
    ensures reads { GivesInMemory (λ x. (value_of x.0, x.1.now)) result (readers.first_at (expressions.readers room) call (map expr_of args) symbols.now) }
    ensures shorter { IfOk result (λ x. length x.1.now < length symbols.now) }
{
    match symbols {
        [Symbol::Mark(Mark::Comma, _), rest @ ..] => {
            let mut args = args;
            let (arg, rest) = read_within(alloc, room, 10, rest)?;
            args.push(arg)?;
            read_after_second(alloc, room, call, args, rest)
        }
        _ => read_called(alloc, room, call, args, symbols),
    }
}

/// What stands after the first argument of a call that may have a flag.
fn read_after_argument(
    alloc: Global,
    room: usize,
    call: FlaggedCall,
    args: Items<ExprText>,
    symbols: &[Symbol],
) -> Result<(ValueText, &[Symbol]), SymbolStop<'_>>
    requires roomy { length symbols.now < room }
    ensures reads { GivesInMemory (λ x. (value_of x.0, x.1.now)) result (readers.after_first_at (expressions.readers room) call call.operation (map expr_of args) symbols.now) }
    ensures shorter { IfOk result (λ x. length x.1.now < length symbols.now) }
{
    match call.operation {
        Arithmetic::Negate => read_after_last(alloc, room, call, args, symbols),
        Arithmetic::Add | Arithmetic::Subtract | Arithmetic::Multiply => {
            read_after_first(alloc, room, call, args, symbols)
        }
    }
}

/// What stands after the `(` of a call that may have a flag.
fn read_opened(
    alloc: Global,
    room: usize,
    call: FlaggedCall,
    symbols: &[Symbol],
) -> Result<(ValueText, &[Symbol]), SymbolStop<'_>>
    requires roomy { length symbols.now < room }
    ensures reads { GivesInMemory (λ x. (value_of x.0, x.1.now)) result (readers.opened_at (expressions.readers room) call symbols.now) }
    ensures shorter { IfOk result (λ x. length x.1.now < length symbols.now) }
{
    let mut args = Items::new(alloc);
    match symbols {
        [Symbol::Mark(Mark::Close, _), ..] => read_called(alloc, room, call, args, symbols),
        _ => {
            let (first, rest) = read_within(alloc, room, 10, symbols)?;
            args.push(first)?;
            read_after_argument(alloc, room, call, args, rest)
        }
    }
}

/// A value of a `wide_int`.
fn read_wide_value(
    alloc: Global,
    room: usize,
    symbols: &[Symbol],
) -> Result<(ValueText, &[Symbol]), SymbolStop<'_>>
    requires roomy { length symbols.now < room }
    ensures reads { GivesInMemory (λ x. (value_of x.0, x.1.now)) result (readers.value_at (expressions.readers room) symbols.now) }
    ensures shorter { IfOk result (λ x. length x.1.now < length symbols.now) }
{
    match symbols {
        [
            Symbol::Word(Word::Wide, wide),
            Symbol::Mark(Mark::DoubleColon, _),
            word,
            Symbol::Mark(Mark::Open, _),
            rest @ ..,
        ] => {
            match arithmetic(*word) {
                Some((operation, name)) => {
                    let call = FlaggedCall {
                        operation,
                        wide: *wide,
                        name,
                    };
                    read_opened(alloc, room, call, rest)
                }
                None => read_plain(alloc, room, symbols),
            }
        }
        _ => read_plain(alloc, room, symbols),
    }
}

/// The value of a declaration with this word.
fn read_value(
    alloc: Global,
    word: DeclWord,
    symbols: &[Symbol],
) -> Result<(ValueText, &[Symbol]), SymbolStop<'_>>
    ensures reads { GivesInMemory (λ x. (value_of x.0, x.1.now)) result (readers.value_of_at word symbols.now) }
    ensures shorter { IfOk result (λ x. length x.1.now < length symbols.now) }
{
    let room = symbols.len() + 1;
    match word {
        DeclWord::WideInt => read_wide_value(alloc, room, symbols),
        _ => read_plain(alloc, room, symbols),
    }
}

/// What stands after the word of a declaration.
fn read_valued(
    alloc: Global,
    word: DeclWord,
    symbols: &[Symbol],
) -> Result<(DeclText, &[Symbol]), SymbolStop<'_>>
    ensures reads { GivesInMemory (λ x. (decl_of x.0, x.1.now)) result (readers.valued_at word symbols.now) }
    ensures shorter { IfOk result (λ x. length x.1.now < length symbols.now) }
{
    let (name, rest) = read_identifier(symbols)?;
    let (_, rest) = read_mark(Mark::Assign, rest)?;
    let (value, rest) = read_value(alloc, word, rest)?;
    let (_, rest) = read_mark(Mark::Semicolon, rest)?;
    Ok((DeclText::Valued(word, name, value), rest))
}

/// What stands after `wi` where a declaration begins.
fn read_overflow(symbols: &[Symbol]) -> Result<(DeclText, &[Symbol]), SymbolStop<'_>>
    ensures reads { GivesInMemory (λ x. (decl_of x.0, x.1.now)) result (readers.overflow_at symbols.now) }
    ensures shorter { IfOk result (λ x. length x.1.now < length symbols.now) }
{
    let (_, rest) = read_mark(Mark::DoubleColon, symbols)?;
    let (_, rest) = read_word(Word::OverflowType, rest)?;
    let (name, rest) = read_identifier(rest)?;
    let (_, rest) = read_mark(Mark::Semicolon, rest)?;
    Ok((DeclText::Overflow(name), rest))
}

/// A declaration.
fn read_decl(alloc: Global, symbols: &[Symbol]) -> Result<(DeclText, &[Symbol]), SymbolStop<'_>>
    ensures reads { GivesInMemory (λ x. (decl_of x.0, x.1.now)) result (readers.decl_at symbols.now) }
    ensures shorter { IfOk result (λ x. length x.1.now < length symbols.now) }
{
    match symbols {
        [] => Err(offends(symbols).into()),
        [Symbol::Word(Word::Wide, _), rest @ ..] => read_overflow(rest),
        [first, rest @ ..] => match decl_word(*first) {
            Some(word) => read_valued(alloc, word, rest),
            None => Err(offends(symbols).into()),
        },
    }
}

/// Whether a declaration is looked for here: at every symbol but `}`.
fn begins_decl(symbols: &[Symbol]) -> bool
    ensures { result ≡ first_is readers.begins_decl symbols.now }
{
    match symbols {
        [] | [Symbol::Mark(Mark::CloseBrace, _), ..] => false,
        _ => true,
    }
}

/// Declarations, up to a `}` or the end.
pub(crate) fn read_decls(
    alloc: Global,
    symbols: &[Symbol],
) -> Result<(Items<DeclText>, &[Symbol]), SymbolStop<'_>>
    ensures reads { GivesInMemory (λ x. (map decl_of x.0, x.1.now)) result (readers.block_at symbols.now) }
    ensures no_longer { IfOk result (λ x. length x.1.now ≤ length symbols.now) }
{
    let mut decls = Items::new(alloc);
    let mut rest = symbols;
    while begins_decl(rest) {
        let (decl, after) = read_decl(alloc, rest)?;
        decls.push(decl)?;
        rest = after;
    }
    Ok((decls, rest))
}
