//! Numbers and names in tokens.

ghost use Rattle.std.specs.Prelude.{◌≡◌, ◌≤◌, ◌<◌, ◌-◌, ◌^◌, length, drop, option_map, slice_index, ℕ, true, false};
ghost use Rattle.std.specs.List.{list_all};
ghost use Rattle.lexing.specs.Bytes.{is_digit};
ghost use Rattle.lexing.specs.Numbers.{is_number_text, capped, number_below};
ghost use Rattle.gim_ast.specs.Numbers.{name_below};
ghost use Rattle.first_gimple.specs.Reading.{literal_of};

use crate::tokens::is_digit;

/// One more than the greatest version and the greatest block number.
pub(crate) const VERSIONS: u64 = 1_000_000_000;

/// One more than the greatest number.
const WORDS: u64 = 4_294_967_296;

/// Whether each byte is a digit.
pub(crate) fn are_digits(bytes: &[u8]) -> bool
    ensures { result ≡ list_all is_digit bytes.now }
{
    bytes.iter().all(|byte| is_digit(*byte))
}

/// Whether the bytes are digits without a leading zero, one at least.
pub(crate) fn is_number_text(bytes: &[u8]) -> bool
    ensures { result ≡ is_number_text bytes.now }
{
    match bytes {
        [] => false,
        [byte] => is_digit(*byte),
        [first, rest @ ..] => is_digit(*first) && *first != b'0' && are_digits(rest),
    }
}

/// The number that digits write, or the limit where it is as great.
fn capped(limit: u64, digits: &[u8]) -> u64
    requires { limit ≤ 2 ^ 32 }
    ensures value { result ≡ capped limit 0 digits.now }
    ensures bound { result ≤ limit }
{
    let mut value = 0;
    for digit in digits {
        let next = 10 * value + u64::from(digit.saturating_sub(b'0'));
        value = next.min(limit);
    }
    value
}

/// The number below the limit that the bytes write, without a leading zero.
#[tactic(auto, unfolding(lexing::specs::Numbers::number_below))]
pub(crate) fn number_below(limit: u64, bytes: &[u8]) -> Option<u32>
    requires { limit ≤ 2 ^ 32 }
    ensures { result ≡ number_below limit bytes.now }
{
    if !is_number_text(bytes) {
        return None;
    }
    let value = capped(limit, bytes);
    if value < limit {
        Some(value as u32)
    } else {
        None
    }
}

/// Where the digits begin that the bytes end in.
fn last_digits(bytes: &[u8]) -> usize
    ensures within { result ≤ length bytes.now }
    ensures digits { list_all is_digit (drop result bytes.now) ≡ true }
    ensures first { 0 < result → is_digit (slice_index bytes.now (result - 1)) ≡ false }
{
    let mut at = bytes.len();
    while at > 0 && is_digit(bytes[at - 1]) {
        at -= 1;
    }
    at
}

/// The base and the version of a name.
pub(crate) fn name(token: &[u8]) -> Option<(&[u8], u32)>
    ensures { option_map (λ x. (x.0.now, x.1)) result ≡ name_below VERSIONS token.now }
{
    let at = last_digits(token);
    if at == 0 || token[at - 1] != b'_' {
        return None;
    }
    let (_, digits) = token.split_at(at);
    let version = number_below(VERSIONS, digits)?;
    Some((&token[..at - 1], version))
}

/// The value of a number with the suffix `u` or `U`.
#[tactic(auto, unfolding(crate::specs::Reading::literal_of))]
pub(crate) fn literal(token: &[u8]) -> Option<u32>
    ensures { result ≡ literal_of token.now }
{
    if token.is_empty() {
        return None;
    }
    let last = token.len() - 1;
    if token[last] != b'u' && token[last] != b'U' {
        return None;
    }
    number_below(WORDS, &token[..last])
}
