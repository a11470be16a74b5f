//! The stage of depth: how many parentheses and braces are open at once, and how long a form or a
//! condition is.

ghost use Rattle.std.specs.Prelude.{◌≡◌, ◌+◌, ◌<◌, ◌≤◌, take, drop, length};
ghost use Rattle.pd_forms.specs.Depth as depth;

use grammar::Fault;
use pd_text::{Mark, Symbol, SymbolFault, Word};
use pm_ops::PatternKind;

/// How many parentheses and braces may be open at once.
const MAX_OPEN: usize = 64;

/// How many tokens a form or a condition may have.
const MAX_TOKENS: usize = 1024;

/// Whether a symbol opens a parenthesis or a brace.
fn opens(symbol: Symbol) -> bool
    ensures { result ≡ depth.opens symbol }
{
    match symbol {
        Symbol::Mark(Mark::Open | Mark::OpenBrace, _) => true,
        _ => false,
    }
}

/// Whether a symbol closes a parenthesis or a brace.
fn closes(symbol: Symbol) -> bool
    ensures { result ≡ depth.closes symbol }
{
    match symbol {
        Symbol::Mark(Mark::Close | Mark::CloseBrace, _) => true,
        _ => false,
    }
}

/// How many are open after a symbol. What closes with nothing open is passed over.
fn open_after(level: usize, symbol: Symbol) -> usize
    requires { level < 2000 }
    ensures { result ≡ depth.open_after level symbol }
{
    if opens(symbol) {
        level + 1
    } else if closes(symbol) {
        level.saturating_sub(1)
    } else {
        level
    }
}

/// Whether more tokens than may be run from this `(` to what closes it, or to the end.
fn is_long(symbols: &[Symbol]) -> bool
    ensures { result ≡ depth.is_long symbols.now }
{
    let mut level = 0;
    let mut count = 0;
    let mut rest = symbols;
    while let [first, after @ ..] = rest {
        if count == MAX_TOKENS {
            return true;
        }
        if closes(*first) && level <= 1 {
            return false;
        }
        level = open_after(level, *first);
        count += 1;
        rest = after;
    }
    false
}

/// Whether a `(` of a form stands here, whose tokens are counted.
fn is_form(symbols: &[Symbol]) -> bool
    ensures { result ≡ depth.is_form symbols.now }
{
    match symbols {
        [
            Symbol::Mark(Mark::Open, _),
            Symbol::Word(Word::Simplify | Word::Match, _),
            ..
        ] => true,
        _ => false,
    }
}

/// Whether `(if (` stands here.
fn is_if(symbols: &[Symbol]) -> bool
    ensures { result ≡ depth.is_if symbols.now }
{
    match symbols {
        [
            Symbol::Mark(Mark::Open, _),
            Symbol::Word(Word::If, _),
            Symbol::Mark(Mark::Open, _),
            ..
        ] => { true }
        _ => false,
    }
}

/// Whether the tokens from this place on are counted.
fn is_counted(symbols: &[Symbol], at: usize) -> bool
    requires { at ≤ length symbols.now }
    ensures { result ≡ depth.is_counted symbols.now at }
{
    is_form(&symbols[at..]) || at >= 2 && is_if(&symbols[at - 2..])
}

/// The fault at this place, where so many are open.
fn fault_at(symbols: &[Symbol], at: usize, level: usize) -> Option<PatternKind>
    requires inside { at < length symbols.now }
    requires so_many { level ≡ depth.open_before symbols.now at }
    ensures { result ≡ depth.fault_at symbols.now at }
{
    if opens(symbols[at]) && level >= MAX_OPEN {
        Some(PatternKind::TooDeep)
    } else if is_counted(symbols, at) && is_long(&symbols[at..]) {
        Some(PatternKind::TooManyTokens)
    } else {
        None
    }
}

/// Whether no place of a file is too deep, and no form or condition too long; else the first place
/// that is.
///
/// `TooDeep` stands at the 65th parenthesis or brace that is open at once, `TooManyTokens` at the
/// `(` of a `simplify`, a `match` or a condition of more than 1,024 tokens.
pub fn check_depth(symbols: &[Symbol]) -> Result<(), SymbolFault<'_>>
    ensures { depth.IsChecked symbols.now result }
{
    let mut level = 0;
    for at in 0..symbols.len() {
        if let Some(kind) = fault_at(symbols, at, level) {
            return Err(Fault {
                kind,
                rest: &symbols[at..],
            });
        }
        level = open_after(level, symbols[at]);
    }
    Ok(())
}
