//! The tokens of the first form, each read from the front of some bytes, with the bytes behind it.
ghost use Rattle.std.specs.Prelude.{◌≡◌, codes};
ghost use Rattle.first_patterns.specs.FirstForm.{is_white, is_first_code};
ghost use Rattle.first_patterns.specs.Reading.{Gives, past, strip, token_at};
ghost use Rattle.first_patterns.specs.Reading.{code_at, capture_at, apart_capture_at};

use crate::kind::{Kind, run};
use pm_ops::Code;

/// What stands behind white space.
pub fn after_gap(bytes: &[u8]) -> &[u8]
    ensures { result.now ≡ past is_white bytes.now }
{
    let (_, rest) = run(Kind::White, bytes);
    rest
}

/// What stands behind the token.
#[tactic(auto, unfolding(crate::specs::Reading::strip))]
pub fn strip<'a>(token: &[u8], bytes: &'a [u8]) -> Option<&'a [u8]>
    ensures { Gives (λ rest. rest.now) result (strip token.now bytes.now) }
{
    bytes.strip_prefix(token)
}

/// What stands behind the token, before which white space may stand.
#[tactic(auto, unfolding(crate::specs::Reading::token_at))]
pub fn token_at<'a>(token: &[u8], bytes: &'a [u8]) -> Option<&'a [u8]>
    ensures { Gives (λ rest. rest.now) result (token_at token.now bytes.now) }
{
    strip(token, after_gap(bytes))
}

/// Whether the first form has the operation.
fn is_first(code: Code) -> bool
    ensures { result ≡ is_first_code code }
{
    match code {
        Code::Plus | Code::Minus | Code::Mult => true,
        Code::BitAnd | Code::BitIor | Code::BitXor => true,
        _ => false,
    }
}

/// An operation of the first form, by its name.
#[tactic(auto, unfolding(crate::specs::Reading::code_at))]
pub fn code_at(bytes: &[u8]) -> Option<(Code, &[u8])>
    ensures { Gives (λ x. (x.0, x.1.now)) result (code_at bytes.now) }
{
    let (word, rest) = run(Kind::Word, bytes);
    let code = Code::from_name(word)?;
    if is_first(code) {
        Some((code, rest))
    } else {
        None
    }
}

/// The digits of a capture.
#[tactic(auto, unfolding(crate::specs::Reading::capture_at))]
pub fn capture_at(bytes: &[u8]) -> Option<(&[u8], &[u8])>
    ensures { Gives (λ x. (x.0.now, x.1.now)) result (capture_at bytes.now) }
{
    let behind = strip(b"@", bytes)?;
    let (digits, rest) = run(Kind::Digit, behind);
    if digits.is_empty() {
        None
    } else {
        Some((digits, rest))
    }
}

/// The digits of a capture behind white space, which keeps it apart from the word or the capture
/// before it.
#[tactic(auto, unfolding(crate::specs::Reading::apart_capture_at))]
pub fn apart_capture_at(bytes: &[u8]) -> Option<(&[u8], &[u8])>
    ensures { Gives (λ x. (x.0.now, x.1.now)) result (apart_capture_at bytes.now) }
{
    let (gap, rest) = run(Kind::White, bytes);
    if gap.is_empty() {
        None
    } else {
        capture_at(rest)
    }
}
