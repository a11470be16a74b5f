//! How numbers are written.

ghost use Rattle.std.specs.Prelude.{◌≡◌};
ghost use Rattle.gim_lexer.specs.Numbers.{suffix_kind, number_kind};

use gim_text::NumberKind;
use lexing::{Row, beside_in_any_case, is_number_text};

/// The suffixes that numbers may have, in small letters.
const SUFFIXES: [Row<NumberKind>; 8] = [
    ("", NumberKind::Plain),
    ("u", NumberKind::Unsigned),
    ("l", NumberKind::Long),
    ("ll", NumberKind::Long),
    ("ul", NumberKind::UnsignedLong),
    ("ull", NumberKind::UnsignedLong),
    ("lu", NumberKind::UnsignedLong),
    ("llu", NumberKind::UnsignedLong),
];

/// What a suffix says.
fn suffix_kind(suffix: &[u8]) -> NumberKind
    ensures { result ≡ suffix_kind suffix.now }
{
    match beside_in_any_case(&SUFFIXES, suffix) {
        Some(kind) => kind,
        None => NumberKind::Wrong,
    }
}

/// How a number of these digits and this suffix is written.
#[tactic(auto, unfolding(crate::specs::Numbers::number_kind))]
pub(crate) fn number_kind(digits: &[u8], suffix: &[u8]) -> NumberKind
    ensures { result ≡ number_kind digits.now suffix.now }
{
    if is_number_text(digits) {
        suffix_kind(suffix)
    } else {
        NumberKind::Wrong
    }
}
