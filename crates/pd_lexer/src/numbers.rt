//! Numbers: how long they are, and what they are.

ghost use Rattle.std.specs.Prelude.{◌≡◌, ◌≤◌, ◌<◌, ◌^◌, ◌+◌, ◌*◌, length, MatchOption};
ghost use Rattle.std.specs.List.{prefix_len};
ghost use Rattle.pd_lexer.specs.Numbers.{is_hex_digit, hex_length, digits_length, number_length};
ghost use Rattle.pd_lexer.specs.Numbers.{digit_value, value_after, number_value};

use lexing::{digits_len, is_digit, suffix_len};

/// The greatest number.
const GREATEST: u128 = 9_223_372_036_854_775_807;

/// Whether the byte is a hexadecimal digit.
fn is_hex_digit(byte: u8) -> bool
    ensures { result ≡ is_hex_digit byte }
{
    is_digit(byte) || byte >= b'A' && byte <= b'F' || byte >= b'a' && byte <= b'f'
}

/// How many hexadecimal digits there are at the front.
fn hex_run(text: &[u8]) -> usize
    ensures run { result ≡ prefix_len is_hex_digit text.now }
    ensures within { result ≤ length text.now }
{
    text.iter().take_while(|byte| is_hex_digit(**byte)).count()
}

/// How many hexadecimal digits there are behind a `0x` at the front.
#[tactic(auto, unfolding(crate::specs::Numbers::hex_length))]
fn hex_len(text: &[u8]) -> usize
    ensures run { result ≡ hex_length text.now }
    ensures within { 0 < result → 2 + result ≤ length text.now }
{
    if !text.starts_with(b"0x") {
        return 0;
    }
    let (_, rest) = text.split_at(2);
    hex_run(rest)
}

/// How many bytes the digits at the front have, with the `0x` where digits follow it.
#[tactic(auto, unfolding(crate::specs::Numbers::digits_length))]
fn all_digits_len(text: &[u8]) -> usize
    ensures run { result ≡ digits_length text.now }
    ensures within { result ≤ length text.now }
{
    let hex = hex_len(text);
    if hex == 0 { digits_len(text) } else { 2 + hex }
}

/// How many bytes the number at the front has.
#[tactic(auto, unfolding(crate::specs::Numbers::number_length))]
pub(crate) fn number_len(text: &[u8]) -> usize
    ensures { result ≡ number_length text.now }
{
    let digits = all_digits_len(text);
    let (_, rest) = text.split_at(digits);
    digits + suffix_len(rest)
}

/// What a digit counts.
fn digit_value(byte: u8) -> u8
    ensures { result ≡ digit_value byte }
{
    if byte >= b'a' {
        byte - 87
    } else if byte >= b'A' {
        byte - 55
    } else {
        byte.saturating_sub(b'0')
    }
}

/// A number with one digit more; none from 2 to the 63rd on.
fn with_digit(base: u64, number: u64, digit: u8) -> Option<u64>
    requires { base ≤ 16 }
    ensures { MatchOption result (2 ^ 63 ≤ base * number + digit_value digit)
        (λ n. (n ≡ base * number + digit_value digit) × (n < 2 ^ 63)) }
{
    let longer = u128::from(base) * u128::from(number) + u128::from(digit_value(digit));
    if longer > GREATEST {
        return None;
    }
    Some(longer as u64)
}

/// The number that digits write in a base; none from 2 to the 63rd on.
#[tactic(auto, using(crate::proofs::NumberLemmas::stays_great))]
fn value(base: u64, digits: &[u8]) -> Option<u64>
    requires at_least { 1 ≤ base }
    requires at_most { base ≤ 16 }
    ensures { MatchOption result (2 ^ 63 ≤ value_after base 0 digits.now)
        (λ n. (n ≡ value_after base 0 digits.now) × (n < 2 ^ 63)) }
{
    let mut number = 0u64;
    for digit in digits {
        match with_digit(base, number, *digit) {
            Some(longer) => number = longer,
            None => return None,
        }
    }
    Some(number)
}

/// The value of the number at the front of a text, in decimal digits or behind `0x` in hexadecimal
/// ones. `None` exactly where it is above 2^63 - 1, which no token is. Takes no memory.
#[tactic(auto, unfolding(crate::specs::Numbers::number_value))]
pub fn number_value(text: &[u8]) -> Option<u64>
    ensures { MatchOption result (2 ^ 63 ≤ number_value text.now)
        (λ n. (n ≡ number_value text.now) × (n < 2 ^ 63)) }
{
    let hex = hex_len(text);
    if hex == 0 {
        let (digits, _) = text.split_at(digits_len(text));
        return value(10, digits);
    }
    let (_, rest) = text.split_at(2);
    let (digits, _) = rest.split_at(hex);
    value(16, digits)
}
