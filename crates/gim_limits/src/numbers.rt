//! Numbers of versions and blocks by their digits.

ghost use Rattle.std.specs.Prelude.{◌≡◌};
ghost use Rattle.gim_limits.specs.Limits.{is_above};

use gim_text::NUMBER_LIMIT;
use lexing::{is_number_text, number_below};

/// Whether the digits write a number above the greatest.
pub(crate) fn is_above(digits: &[u8]) -> bool
    ensures { result ≡ is_above digits.now }
{
    is_number_text(digits) && number_below(NUMBER_LIMIT, digits).is_none()
}
