//! Reading one file that a command needs.
ghost use Rattle.std.specs.Prelude.{◌<◌, ◌^◌, length, IfOk};
ghost use Rattle.match_top.specs.Given.{Asked, EndsUnread, given_by_fault};

use crate::answer::Stop;
use crate::needs::Kind;
use crate::refusals::{faulty, refused};
use crate::status::Cause;
use pm_io::{Inputs, ReadFault, read_all};
use pm_items::Items;
use std::alloc::Global;

/// The bytes of the file of this kind and name, or the refusal of the command.
pub fn read<I: Inputs>(
    alloc: Global,
    inputs: &mut I,
    kind: Kind,
    name: &str,
) -> Result<Items<u8>, Stop>
    ensures asked { Asked (record { kind = kind; name = name.now }) (I.state inputs.old) (I.state inputs.new) result }
    ensures short { IfOk result (λ source. length source < 2 ^ 31) }
{
    match read_all(alloc, inputs, name, kind.limit()) {
        Ok(bytes) => Ok(Items::from_vec(bytes)),
        Err(fault) => Err(unread(alloc, kind, name, fault)),
    }
}

/// The refusal for a file that wasn't read.
fn unread(alloc: Global, kind: Kind, name: &str, fault: ReadFault) -> Stop
    ensures { EndsUnread (record { kind = kind; name = name.now }) (given_by_fault fault) result }
{
    match fault {
        ReadFault::TooLong => faulty(alloc, kind, Some((1, 1)), kind.too_long(), None),
        ReadFault::Missing => refused(alloc, Cause::NoFile, "missing: ", name),
        ReadFault::Read => refused(alloc, Cause::NoFile, "read: ", name),
        ReadFault::Memory => Stop::Memory,
    }
}
