//! Names and lists of names, and the head of a case.

ghost use Rattle.std.specs.Prelude.{◌≡◌, ◌<◌, ◌≤◌, length, IfOk};
ghost use Rattle.grammar.specs.Gives.{Gives, GivesInMemory};
ghost use Rattle.grammar.specs.Reading.{first_is, more_at};
ghost use Rattle.pd_files.specs.FormReaders as readers;

use crate::tree::{CaseHeadText, ListText};
use pd_forms::{offends, read_identifier, read_mark};
use pd_text::{Mark, Symbol, SymbolFault, SymbolStop};
use pm_items::Items;
use pm_places::Span;
use std::alloc::Global;

/// Whether a name stands here.
fn begins_name(symbols: &[Symbol]) -> bool
    ensures { result ≡ first_is readers.is_name symbols.now }
{
    match symbols {
        [Symbol::Identifier(_) | Symbol::Word(_, _), ..] => true,
        _ => false,
    }
}

/// Names, as many as there are.
pub(crate) fn read_names(
    alloc: Global,
    symbols: &[Symbol],
) -> Result<(Items<Span>, &[Symbol]), SymbolStop<'_>>
    ensures reads { GivesInMemory (λ x. (x.0, x.1.now)) result (readers.names_at symbols.now) }
    ensures no_longer { IfOk result (λ x. length x.1.now ≤ length symbols.now) }
{
    let mut names = Items::new(alloc);
    let mut rest = symbols;
    while begins_name(rest) {
        let (name, after) = read_identifier(rest)?;
        names.push(name)?;
        rest = after;
    }
    Ok((names, rest))
}

/// A list: its name, and its entries in parentheses.
fn read_list(alloc: Global, symbols: &[Symbol]) -> Result<(ListText, &[Symbol]), SymbolStop<'_>>
    ensures reads { GivesInMemory (λ x. (x.0, x.1.now)) result (readers.list_at symbols.now) }
    ensures shorter { IfOk result (λ x. length x.1.now < length symbols.now) }
{
    let (name, rest) = read_identifier(symbols)?;
    let (_, rest) = read_mark(Mark::Open, rest)?;
    let (entries, rest) = read_names(alloc, rest)?;
    let (_, rest) = read_mark(Mark::Close, rest)?;
    Ok((ListText { name, entries }, rest))
}

/// Further lists, as long as a name stands here.
fn read_further_lists(
    alloc: Global,
    first: Items<ListText>,
    symbols: &[Symbol],
) -> Result<(Items<ListText>, &[Symbol]), SymbolStop<'_>>
    ensures reads { GivesInMemory (λ x. (x.0, x.1.now)) result (more_at readers.is_name readers.list_at first symbols.now) }
    ensures no_longer { IfOk result (λ x. length x.1.now ≤ length symbols.now) }
{
    let mut lists = first;
    let mut rest = symbols;
    while begins_name(rest) {
        let (list, after) = read_list(alloc, rest)?;
        lists.push(list)?;
        rest = after;
    }
    Ok((lists, rest))
}

/// At least one list.
pub(crate) fn read_lists(
    alloc: Global,
    symbols: &[Symbol],
) -> Result<(Items<ListText>, &[Symbol]), SymbolStop<'_>>
    ensures reads { GivesInMemory (λ x. (x.0, x.1.now)) result (readers.lists_at symbols.now) }
    ensures shorter { IfOk result (λ x. length x.1.now < length symbols.now) }
{
    let (first, rest) = read_list(alloc, symbols)?;
    let mut lists = Items::new(alloc);
    lists.push(first)?;
    read_further_lists(alloc, lists, rest)
}

/// Whether a parameter stands here: a capture with one `@` that isn't joined to what stands before.
fn begins_parameter(symbols: &[Symbol]) -> bool
    ensures { result ≡ first_is readers.is_parameter symbols.now }
{
    match symbols {
        [Symbol::Capture(capture), ..] => !(capture.joined || capture.by_value),
        _ => false,
    }
}

/// A parameter.
fn read_parameter(symbols: &[Symbol]) -> Result<(Span, &[Symbol]), SymbolFault<'_>>
    ensures reads { Gives (λ x. (x.0, x.1.now)) result (readers.parameter_at symbols.now) }
    ensures shorter { IfOk result (λ x. length x.1.now < length symbols.now) }
{
    match symbols {
        [Symbol::Capture(capture), rest @ ..] if !(capture.joined || capture.by_value) => {
            Ok((capture.at, rest))
        }
        _ => Err(offends(symbols)),
    }
}

/// Further parameters, as many as there are.
fn read_further_parameters(
    first: Items<Span>,
    symbols: &[Symbol],
) -> Result<(Items<Span>, &[Symbol]), SymbolStop<'_>>
    ensures reads { GivesInMemory (λ x. (x.0, x.1.now)) result (more_at readers.is_parameter readers.parameter_at first symbols.now) }
    ensures no_longer { IfOk result (λ x. length x.1.now ≤ length symbols.now) }
{
    let mut parameters = first;
    let mut rest = symbols;
    while begins_parameter(rest) {
        let (parameter, after) = read_parameter(rest)?;
        parameters.push(parameter)?;
        rest = after;
    }
    Ok((parameters, rest))
}

/// At least one parameter.
fn read_parameters(
    alloc: Global,
    symbols: &[Symbol],
) -> Result<(Items<Span>, &[Symbol]), SymbolStop<'_>>
    ensures reads { GivesInMemory (λ x. (x.0, x.1.now)) result (readers.parameters_at symbols.now) }
    ensures shorter { IfOk result (λ x. length x.1.now < length symbols.now) }
{
    let (first, rest) = read_parameter(symbols)?;
    let mut parameters = Items::new(alloc);
    parameters.push(first)?;
    read_further_parameters(parameters, rest)
}

/// The head of a case with parameters, after its `(`.
fn read_called(
    alloc: Global,
    symbols: &[Symbol],
) -> Result<(CaseHeadText, &[Symbol]), SymbolStop<'_>>
    ensures reads { GivesInMemory (λ x. (x.0, x.1.now)) result (readers.called_at symbols.now) }
    ensures shorter { IfOk result (λ x. length x.1.now < length symbols.now) }
{
    let (name, rest) = read_identifier(symbols)?;
    let (parameters, rest) = read_parameters(alloc, rest)?;
    let (_, rest) = read_mark(Mark::Close, rest)?;
    let head = CaseHeadText { name, parameters };
    Ok((head, rest))
}

/// The head of a case.
pub(crate) fn read_case_head(
    alloc: Global,
    symbols: &[Symbol],
) -> Result<(CaseHeadText, &[Symbol]), SymbolStop<'_>>
    ensures reads { GivesInMemory (λ x. (x.0, x.1.now)) result (readers.case_head_at symbols.now) }
    ensures shorter { IfOk result (λ x. length x.1.now < length symbols.now) }
{
    match symbols {
        [Symbol::Mark(Mark::Open, _), rest @ ..] => read_called(alloc, rest),
        [Symbol::Identifier(at) | Symbol::Word(_, at), rest @ ..] => {
            let head = CaseHeadText {
                name: *at,
                parameters: Items::new(alloc),
            };
            Ok((head, rest))
        }
        _ => Err(offends(symbols).into()),
    }
}
