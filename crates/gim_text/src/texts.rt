//! Names by their bytes.

ghost use Rattle.std.specs.Prelude.{◌≡◌, ◌≤◌, ◌<◌, ◌-◌, length, drop};
ghost use Rattle.std.specs.Prelude.{option_map, slice_index, true, false};
ghost use Rattle.std.specs.List.{list_all};
ghost use Rattle.lexing.specs.Bytes.{is_digit};
ghost use Rattle.gim_text.specs.Texts.{name_parts};

use lexing::{is_digit, is_number_text};

/// Where the digits begin that the bytes end in.
fn last_digits(bytes: &[u8]) -> usize
    ensures within { result ≤ length bytes.now }
    ensures digits { list_all is_digit (drop result bytes.now) ≡ true }
    ensures first { 0 < result → is_digit (slice_index bytes.now (result - 1)) ≡ false }
{
    let mut at = bytes.len();
    while at > 0 && is_digit(bytes[at - 1]) {
        at -= 1;
    }
    at
}

/// The base and the version of a name: what stands before its last underscore, and the digits after
/// it.
///
/// None where the text does not end in an underscore and a number without a leading zero.
pub fn name_parts(text: &[u8]) -> Option<(&[u8], &[u8])>
    ensures { option_map (λ x. (x.0.now, x.1.now)) result ≡ name_parts text.now }
{
    let at = last_digits(text);
    if at == 0 || text[at - 1] != b'_' {
        return None;
    }
    let (_, digits) = text.split_at(at);
    if !is_number_text(digits) {
        return None;
    }
    Some((&text[..at - 1], digits))
}
