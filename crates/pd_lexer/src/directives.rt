//! Directive lines.

ghost use Rattle.std.specs.Prelude.{◌≡◌, ◌≤◌, ◌<◌, length, IfSome};
ghost use Rattle.std.specs.List.{prefix_len};
ghost use Rattle.pd_lexer.specs.Directives.{is_blank, line_begins, blanks_before_hash, hash_at};
ghost use Rattle.pd_lexer.specs.Directives.{directive_of};

use lexing::{Row, beside, line_len};

/// A directive.
#[derive(Clone, Copy)]
pub(crate) enum Directive {
    /// `#if`, with whether its condition holds.
    If(bool),
    Else,
    EndIf,
}

/// The directives. GIMPLE holds, and GENERIC doesn't.
const DIRECTIVES: [Row<Directive>; 6] = [
    ("#if GIMPLE", Directive::If(true)),
    ("#if\tGIMPLE", Directive::If(true)),
    ("#if GENERIC", Directive::If(false)),
    ("#if\tGENERIC", Directive::If(false)),
    ("#else", Directive::Else),
    ("#endif", Directive::EndIf),
];

/// Whether a line begins at the place.
#[tactic(auto, unfolding(crate::specs::Directives::line_begins))]
fn line_begins(source: &[u8], at: usize) -> bool
    requires { at ≤ length source.now }
    ensures { result ≡ line_begins source.now at }
{
    at == 0 || source[at - 1] == b'\n'
}

/// How many blanks there are at the front.
fn blanks_len(text: &[u8]) -> usize
    ensures run { result ≡ prefix_len is_blank text.now }
    ensures within { result ≤ length text.now }
{
    text.iter()
        .take_while(|byte| **byte == b' ' || **byte == b'\t')
        .count()
}

/// How many blanks there are before a `#` at the front.
#[tactic(auto, unfolding(crate::specs::Directives::blanks_before_hash))]
fn blanks_before_hash(text: &[u8]) -> Option<usize>
    ensures run { result ≡ blanks_before_hash text.now }
    ensures within { IfSome result (λ n. n < length text.now) }
{
    let len = blanks_len(text);
    let (_, rest) = text.split_at(len);
    if rest.starts_with(b"#") {
        Some(len)
    } else {
        None
    }
}

/// Where the `#` of a directive line stands, if one begins at the place.
#[tactic(auto, unfolding(crate::specs::Directives::hash_at))]
pub(crate) fn hash_at(source: &[u8], at: usize) -> Option<usize>
    requires { at ≤ length source.now }
    ensures run { result ≡ hash_at source.now at }
    ensures within { IfSome result (λ hash. hash < length source.now) }
{
    if !line_begins(source, at) {
        return None;
    }
    let (_, text) = source.split_at(at);
    let blanks = blanks_before_hash(text)?;
    Some(at + blanks)
}

/// The directive that the line at the front is.
#[tactic(auto, unfolding(crate::specs::Directives::directive_of))]
pub(crate) fn directive_of(text: &[u8]) -> Option<Directive>
    ensures { result ≡ directive_of text.now }
{
    let (line, _) = text.split_at(line_len(text));
    beside(&DIRECTIVES, line)
}
