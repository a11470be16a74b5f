//! What is too deep or too long.

use pd_forms::check_depth;
use pd_lexer::lex;
use pd_text::{Symbol, SymbolFault, meanings};
use pm_ops::PatternFault;
use std::alloc::{AllocError, Global};
use std::process::Abort;
use std::test::Fail;

/// A text, a byte that stands so many times behind it, and the answer. 64 may be open, 1,024 tokens
/// may a form or a condition have; what closes nothing is passed over.
const LIMITS: [(&str, u8, usize, &str); 9] = [
    ("", b'(', 64, "ok"),
    ("", b'(', 65, "TooDeep 64"),
    (")}", b'{', 65, "TooDeep 66"),
    ("({})", b'(', 65, "TooDeep 68"),
    ("(simplify", b',', 1022, "ok"),
    ("x (match ", b',', 1023, "TooManyTokens 2"),
    ("(if (", b',', 1024, "TooManyTokens 4"),
    ("(for (", b',', 1024, "ok"),
    ("(simplify } ", b',', 1024, "ok"),
];

/// The text, with this byte so many times behind it.
fn with_many(alloc: Global, text: &str, byte: u8, count: usize) -> Result<Vec<u8>, AllocError> {
    let mut source = Vec::from_slice(alloc, text.as_bytes())?;
    for _ in 0..count {
        source.push(byte)?;
    }
    Ok(source)
}

/// Where the symbols begin, of which there is one.
fn place(symbols: &[Symbol]) -> usize {
    match symbols {
        [first, ..] => first.span().from,
        [] => 0,
    }
}

/// A fault and its place, and else `ok`.
fn told(alloc: Global, depth: Result<(), SymbolFault<'_>>) -> Result<String, AllocError> {
    match depth {
        Ok(()) => String::from_str(alloc, "ok"),
        Err(fault) => {
            let at = place(fault.rest);
            format!(in alloc; "{} {at}", fault.kind.name())
        }
    }
}

/// What the depth of a source comes to.
fn depth_of(alloc: Global, source: &[u8]) -> Result<String, PatternFault> {
    let tokens = lex(alloc, source)?;
    let symbols = meanings(alloc, &tokens, source)?;
    Ok(told(alloc, check_depth(&symbols))?)
}

/// A row has its answer.
fn judge(rt: &impl Abort, alloc: Global, row: (&str, u8, usize, &str)) -> Result<(), PatternFault> {
    let (text, byte, count, answer) = row;
    let source = with_many(alloc, text, byte, count)?;
    let found = depth_of(alloc, &source)?;
    assert_eq!(rt; found.as_str(), answer, "{text} {byte} {count}");
    Ok(())
}

#[test]
fn limits_of_depth(rt: HostRuntime) -> Result<(), Fail> {
    for row in &LIMITS {
        judge(&rt, rt.alloc(), *row)?;
    }
    Ok(())
}
