//! Numbers in decimal digits.

ghost use Rattle.std.specs.Prelude.{◌≡◌, ◌≤◌, ◌^◌, ◌+◌, ◌*◌, ◌-◌, MatchOption};
ghost use Rattle.std.specs.List.{list_all};
ghost use Rattle.lexing.specs.Bytes.{is_digit};
ghost use Rattle.lexing.specs.Numbers.{is_number_text, leading_digits, number_after, capped, number_below, IsSize};

use crate::bytes::{digits_len, is_digit};

/// Whether each byte is a digit.
fn are_digits(bytes: &[u8]) -> bool
    ensures { result ≡ list_all is_digit bytes.now }
{
    bytes.iter().all(|byte| is_digit(*byte))
}

/// Whether the bytes are digits without a leading zero, one at least.
pub fn is_number_text(bytes: &[u8]) -> bool
    ensures { result ≡ is_number_text bytes.now }
{
    match bytes {
        [] => false,
        [byte] => is_digit(*byte),
        [first, rest @ ..] => is_digit(*first) && *first != b'0' && are_digits(rest),
    }
}

/// The digits at the front.
#[tactic(auto, using(crate::proofs::Runs::leading_digits_are_a_run))]
pub fn leading_digits(bytes: &[u8]) -> &[u8]
    ensures { result.now ≡ leading_digits bytes.now }
{
    let (digits, _) = bytes.split_at(digits_len(bytes));
    digits
}

/// The number that digits write, or the limit where it is as great.
fn capped(limit: u64, digits: &[u8]) -> u64
    requires { limit ≤ 2 ^ 32 }
    ensures value { result ≡ capped limit 0 digits.now }
    ensures bound { result ≤ limit }
{
    let mut value = 0;
    for digit in digits {
        let next = 10 * value + u64::from(digit.saturating_sub(b'0'));
        value = next.min(limit);
    }
    value
}

/// The number below the limit that the bytes write, without a leading zero.
#[tactic(auto, unfolding(crate::specs::Numbers::number_below))]
pub fn number_below(limit: u64, bytes: &[u8]) -> Option<u32>
    requires { limit ≤ 2 ^ 32 }
    ensures { result ≡ number_below limit bytes.now }
{
    if !is_number_text(bytes) {
        return None;
    }
    let value = capped(limit, bytes);
    if value < limit {
        Some(value as u32)
    } else {
        None
    }
}

/// A number with one digit more; none from 2 to the 128th on.
fn with_digit(number: u128, digit: u8) -> Option<u128>
    ensures { MatchOption result (2 ^ 128 ≤ 10 * number + (digit - 48)) (λ n. n ≡ 10 * number + (digit - 48)) }
{
    let value = u128::from(digit.saturating_sub(b'0'));
    match number.checked_mul(10) {
        Some(tens) => tens.checked_add(value),
        None => None,
    }
}

/// The number that digits write; none from 2 to the 128th on.
#[tactic(auto, using(crate::proofs::DigitLemmas::stays_great))]
pub fn size(digits: &[u8]) -> Option<u128>
    ensures { IsSize result (number_after 0 digits.now) }
{
    let mut number = 0u128;
    for digit in digits {
        match with_digit(number, *digit) {
            Some(longer) => number = longer,
            None => return None,
        }
    }
    Some(number)
}
