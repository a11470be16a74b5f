//! Bytes and numbers put at the end of a text.
ghost use Rattle.std.specs.Prelude.{◌≡◌, ◌++◌, OnOk, decimal};
ghost use Rattle.std.specs.Fmt.{signed_decimal};

use itoa::Buffer;
use pm_items::Items;
use pm_ops::OutOfMemory;

/// Appends bytes.
pub fn push_bytes(out: &mut Items<u8>, bytes: &[u8]) -> Result<(), OutOfMemory>
    ensures { OnOk result (out.new ≡ out.old ++ bytes.now) }
{
    Ok(out.extend_from_slice(bytes)?)
}

/// Appends the digits of a number.
pub fn push_number(out: &mut Items<u8>, number: u64) -> Result<(), OutOfMemory>
    ensures { OnOk result (out.new ≡ out.old ++ decimal number) }
{
    let mut buffer = Buffer::new();
    push_bytes(out, buffer.format(number).as_bytes())
}

/// Appends the digits of a number, with a minus where it is below 0.
pub fn push_signed(out: &mut Items<u8>, number: i64) -> Result<(), OutOfMemory>
    ensures { OnOk result (out.new ≡ out.old ++ signed_decimal number) }
{
    let mut buffer = Buffer::new();
    push_bytes(out, buffer.format(number).as_bytes())
}
