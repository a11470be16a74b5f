//! Patterns, results and tails. A row is a text, and where reading it came to an end.

use grammar::Stop;
use pd_forms::{read_leaf, read_pattern, read_result, read_tail};
use pd_lexer::lex;
use pd_text::{Symbol, SymbolStop, meanings};
use pm_ops::PatternFault;
use std::alloc::Global;
use std::process::Abort;
use std::test::Fail;

/// A pattern goes as far as it can: a joined capture goes on a name alone.
const PATTERNS: &str = "\
(plus:c@2 @0 (convert? integer_zerop@1)) x => Read 41
@0@1 => Read 2
type@1@2 => Read 6
(if match for@1 @@0) => Read 20
(plus ? : c @0) => Read 15
(plus @0 => Syntax 8
(@0) => Syntax 1
(plus:@0) => Syntax 6
(plus:c? @0) => Syntax 7
(plus! @0) => Syntax 5
(plus @0@1) => Syntax 8
(plus { 1; }) => Syntax 6
) => Syntax 0";

/// Within braces each fault is one of C parts, the end too.
const LEAVES: &str = "\
(plus! @0 { 1; } (convert:type @1)) x => Read 36
{ @0 } @1 => Read 7
(if (1) @0) => Syntax 1
(plus (with { } @0)) => Syntax 7
(plus @@0) => Syntax 6
(plus @0@1) => Syntax 8
(plus? @0) => Syntax 5
(plus type) => Syntax 6
{ 1 + } => CSyntax 6
{ 1 ; ; } => CSyntax 6
(plus { 1 ) }) => CSyntax 10
{ 1 => CSyntax 3";

/// A `switch` begins with a case, and ends after the first item that is none. The `(` of a
/// condition and the `{` of a `with` are outside its C part, what closes them is within.
const RESULTS: &str = "\
(if (1) (if (2) @0) { 3; }) x => Read 28
(switch (if (1) @0) (if (2) @1)) x => Read 33
(switch (if (1) @0) (if (2) @1 @2)) x => Read 36
(with { int n = 1; } (plus! @0 @1)) x => Read 36
(switch (if (1) @0 @1)) => Syntax 19
(switch @0) => Syntax 8
(switch (if (1) @0) @1 @2) => Syntax 23
(switch (if (1) @0) (if (2) @1 @2) @3) => Syntax 35
(if @0) => Syntax 4
(if (1) @0 @1 @2) => Syntax 14
(if (1)) => Syntax 7
(with @0) => Syntax 6
(if () @0) => CSyntax 5
(if (1 +) @0) => CSyntax 8
(if (1 2) @0) => CSyntax 7
(with { int n = 1 } @0) => CSyntax 18
(with { @0 } @0) => CSyntax 8";

/// A tail may be empty, and goes on at a `(` alone.
const TAILS: &str = "\
) => Read 0
(if (1) (with { } )) x => Read 21
(if (1) @0) => Syntax 8
(if (1)) (if (2)) => Read 9
(switch (if (1))) => Syntax 1
(with { 1; }) => CSyntax 8";

/// What is read.
#[derive(Clone, Copy, PartialEq, Eq)]
enum Kind {
    Pattern,
    Leaf,
    Result,
    Tail,
}

/// Where the symbols begin in a source of this length.
fn place(len: usize, symbols: &[Symbol]) -> usize {
    match symbols {
        [first, ..] => first.span().from,
        [] => len,
    }
}

/// The symbols behind a pattern.
fn behind_pattern(alloc: Global, symbols: &[Symbol]) -> Result<&[Symbol], SymbolStop<'_>> {
    let (_pattern, rest) = read_pattern(alloc, symbols)?;
    Ok(rest)
}

/// The symbols behind a result that no condition stands round.
fn behind_leaf(alloc: Global, symbols: &[Symbol]) -> Result<&[Symbol], SymbolStop<'_>> {
    let (_leaf, rest) = read_leaf(alloc, symbols)?;
    Ok(rest)
}

/// The symbols behind a result.
fn behind_result(alloc: Global, symbols: &[Symbol]) -> Result<&[Symbol], SymbolStop<'_>> {
    let (_result, rest) = read_result(alloc, symbols)?;
    Ok(rest)
}

/// The symbols behind a tail.
fn behind_tail(alloc: Global, symbols: &[Symbol]) -> Result<&[Symbol], SymbolStop<'_>> {
    let (_tail, rest) = read_tail(alloc, symbols)?;
    Ok(rest)
}

/// The symbols behind what is read.
fn behind(alloc: Global, kind: Kind, symbols: &[Symbol]) -> Result<&[Symbol], SymbolStop<'_>> {
    match kind {
        Kind::Pattern => behind_pattern(alloc, symbols),
        Kind::Leaf => behind_leaf(alloc, symbols),
        Kind::Result => behind_result(alloc, symbols),
        Kind::Tail => behind_tail(alloc, symbols),
    }
}

/// Where reading came to an end: `Read`, or the kind of the fault, and the place.
fn told(
    alloc: Global,
    len: usize,
    read: Result<&[Symbol], SymbolStop<'_>>,
) -> Result<String, PatternFault> {
    match read {
        Ok(rest) => Ok(format!(in alloc; "Read {}", place(len, rest))?),
        Err(Stop::Fault(fault)) => {
            let at = place(len, fault.rest);
            Ok(format!(in alloc; "{} {at}", fault.kind.name())?)
        }
        Err(Stop::Memory) => Ok(String::from_str(alloc, "Memory")?),
    }
}

/// Where reading a text comes to an end.
fn end_of(alloc: Global, kind: Kind, text: &str) -> Result<String, PatternFault> {
    let tokens = lex(alloc, text.as_bytes())?;
    let symbols = meanings(alloc, &tokens, text.as_bytes())?;
    told(alloc, text.len(), behind(alloc, kind, &symbols))
}

/// Each row has its end.
fn judge(rt: &impl Abort, alloc: Global, kind: Kind, rows: &str) -> Result<(), PatternFault> {
    for row in rows.split('\n') {
        let (text, answer) = row.split_once(" => ").unwrap_or((row, ""));
        let found = end_of(alloc, kind, text)?;
        assert_eq!(rt; found.as_str(), answer, "{text}");
    }
    Ok(())
}

#[test]
fn patterns(rt: HostRuntime) -> Result<(), Fail> {
    Ok(judge(&rt, rt.alloc(), Kind::Pattern, PATTERNS)?)
}

#[test]
fn results_without_conditions(rt: HostRuntime) -> Result<(), Fail> {
    Ok(judge(&rt, rt.alloc(), Kind::Leaf, LEAVES)?)
}

#[test]
fn results(rt: HostRuntime) -> Result<(), Fail> {
    Ok(judge(&rt, rt.alloc(), Kind::Result, RESULTS)?)
}

#[test]
fn tails(rt: HostRuntime) -> Result<(), Fail> {
    Ok(judge(&rt, rt.alloc(), Kind::Tail, TAILS)?)
}
