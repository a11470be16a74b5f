//! Versions and block numbers.

ghost use Rattle.std.specs.Prelude.{◌≡◌};
ghost use Rattle.gim_typing.specs.Declarations.{number_of};

use gim_text::NUMBER_LIMIT;
use lexing::number_below;

/// The number that a text writes, or 0 where it writes none below the limit.
pub fn number(text: &[u8]) -> u32
    ensures { result ≡ number_of text.now }
{
    number_below(NUMBER_LIMIT, text).unwrap_or(0)
}
