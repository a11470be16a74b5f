//! Numbers as they stand in a text.
ghost use Rattle.std.specs.Prelude.{◌≡◌, ◌++◌, OnOk, OnErr, decimal};
ghost use Rattle.std.specs.Fmt.{signed_decimal};
ghost use Rattle.pm_wide.specs.Types.{value};

use itoa::Buffer;
use pm_items::Items;
use pm_ops::OutOfMemory;
use pm_wide::Wide;

/// Appends the digits of a number. An `Err` changes nothing.
pub fn push_number(out: &mut Items<u8>, number: u128) -> Result<(), OutOfMemory>
    ensures ok { OnOk result (out.new ≡ out.old ++ decimal number) }
    ensures err { OnErr result (out.new ≡ out.old) }
{
    let mut buffer = Buffer::new();
    out.extend_from_slice(buffer.format(number).as_bytes())?;
    Ok(())
}

/// Appends the value of a word, with a minus where it is below 0. An `Err` changes nothing.
pub fn push_value(out: &mut Items<u8>, word: &Wide) -> Result<(), OutOfMemory>
    ensures ok { OnOk result (out.new ≡ out.old ++ signed_decimal (value word.now)) }
    ensures err { OnErr result (out.new ≡ out.old) }
{
    let (sign, size) = sign_and_size(word);
    let before = out.len();
    out.extend_from_slice(sign.as_bytes())?;
    match push_number(out, size) {
        Ok(()) => Ok(()),
        Err(fault) => {
            out.truncate(before);
            Err(fault)
        }
    }
}

/// The sign of a word's value, and how far it is from 0.
#[tactic(auto, using(crate::proofs::SignedNumbers::below_zero))]
fn sign_and_size(word: &Wide) -> (&'static str, u128)
    ensures { result.0.now ++ decimal result.1 ≡ signed_decimal (value word.now) }
{
    let bits = word.bits();
    let ty = word.ty();
    let half = 1 << (ty.bits() - 1);
    if ty.unsigned() || bits < half {
        ("", bits)
    } else {
        // By halves of the range, since the whole doesn't fit.
        ("-", half - (bits - half))
    }
}
