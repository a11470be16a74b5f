//! The first fault of a text.

use grammar::Fault;
use pd_files::read_file;
use pd_forms::check_depth;
use pd_lexer::lex;
use pd_names::check_names;
use pd_text::{Symbol, SymbolFault, meanings};
use pm_ops::{PatternFault, PatternKind};
use std::alloc::Global;

/// Where the symbols begin in the source.
fn place(source: &[u8], symbols: &[Symbol]) -> usize {
    match symbols {
        [first, ..] => first.span().from,
        [] => source.len(),
    }
}

/// A fault of depth as one of the source.
fn in_source(source: &[u8], fault: SymbolFault<'_>) -> PatternFault {
    let Fault { kind, rest } = fault;
    PatternFault {
        kind,
        at: place(source, rest),
        len: 0,
    }
}

/// The forms of a text keep the rules of depth, syntax and names, or the first fault.
fn judge(alloc: Global, source: &[u8]) -> Result<(), PatternFault> {
    let tokens = lex(alloc, source)?;
    let symbols = meanings(alloc, &tokens, source)?;
    match check_depth(&symbols) {
        Ok(()) => {}
        Err(fault) => return Err(in_source(source, fault)),
    }
    let forms = read_file(alloc, source.len(), &symbols)?;
    check_names(alloc, source, forms.as_slice())
}

/// The kind and the place of the first fault of a text.
pub(crate) fn first_fault(alloc: Global, source: &[u8]) -> Option<(PatternKind, usize)> {
    match judge(alloc, source) {
        Ok(()) => None,
        Err(fault) => Some((fault.kind, fault.at)),
    }
}

/// A text without its mark, and the place of the mark, which a text has once.
pub(crate) fn unmarked(alloc: Global, text: &[u8]) -> Result<(Vec<u8>, usize), PatternFault> {
    let mut source = Vec::new(alloc);
    let mut at = text.len();
    for place in 0..text.len() {
        let byte = text[place];
        if byte == b'`' {
            at = place;
        } else {
            source.push(byte)?;
        }
    }
    Ok((source, at))
}

/// A case whose pattern is so many operations of one operand, one in the other.
pub(crate) fn nested(alloc: Global, count: usize) -> Result<Vec<u8>, PatternFault> {
    let mut source = Vec::from_slice(alloc, b"(match p ")?;
    for _ in 0..count {
        source.extend_from_slice(b"(abs ")?;
    }
    source.extend_from_slice(b"@0")?;
    for _ in 0..count {
        source.push(b')')?;
    }
    source.push(b')')?;
    Ok(source)
}

/// A case of so many `cond`, one in the other, each with two captures, and one capture more.
pub(crate) fn captured(alloc: Global, count: u8) -> Result<Vec<u8>, PatternFault> {
    let mut source = Vec::from_slice(alloc, b"(match p ")?;
    for letter in 0..count {
        let name = b'a' + letter % 26;
        source.extend_from_slice(b"(cond @")?;
        source.push(name)?;
        source.extend_from_slice(b"1 @")?;
        source.push(name)?;
        source.extend_from_slice(b"2 ")?;
    }
    source.extend_from_slice(b"@0")?;
    for _ in 0..count {
        source.push(b')')?;
    }
    source.push(b')')?;
    Ok(source)
}
