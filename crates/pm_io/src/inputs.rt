//! Inputs that are read by name.
ghost use Rattle.std.specs.Prelude.{◌≡◌, ◌∷◌, [], ◌≤◌, true, length, IfOk, IfSome, IsErrOf};
ghost use Rattle.pm_io.specs.Causes.{HasCause, Rose};
ghost use Rattle.pm_io.specs.InputState.{InputState};
ghost use Rattle.pm_io.specs.Reading.{is_begun_by, Starts, Reads, ReadsWhole, LeavesBegun};
ghost use Rattle.pm_io.specs.Taking.{followed_by};

use crate::faults::{Failed, ReadFault};
use std::alloc::Global;

/// Files that are read by name, one at a time.
pub trait Inputs {
    /// What contracts see: the files where they are told, the names asked for where they are told, what is left of the
    /// begun file, and a count of faults.
    ghost state: { Self → InputState };

    /// Begins the file of this name at its first byte, and answers true; or answers that there is none.
    /// After false and after `Failed` no file is begun.
    fn start(&mut self, name: &str) -> Result<bool, Failed>
        ensures begun { (state self.new).begun ≡ is_begun_by result }
        ensures asked { (state self.new).asked ≡ followed_by (state self.old).asked (name.now ∷ []) }
        ensures holds { (state self.new).holds ≡ (state self.old).holds }
        ensures cause { HasCause (state self.old).faults (state self.new).faults result }
        ensures told { IfSome (state self.old).holds (λ held. Starts (held name.now) (state self.new).left result) };

    /// Fills a front of `buffer` with the next bytes of the begun file, and answers its length. The
    /// rest of `buffer` may change. 0 says that the file ends here, where `buffer` isn't empty. After
    /// `Failed` the place in the file is as before.
    fn read(&mut self, buffer: &mut [u8]) -> Result<usize, Failed>
        requires { (state self.old).begun ≡ true }
        ensures bound { IfOk result (λ count. count ≤ length buffer.new) }
        ensures begun { (state self.new).begun ≡ true }
        ensures asked { (state self.new).asked ≡ (state self.old).asked }
        ensures holds { (state self.new).holds ≡ (state self.old).holds }
        ensures cause { HasCause (state self.old).faults (state self.new).faults result }
        ensures told { IfSome (state self.old).holds (λ _. Reads (state self.old).left (state self.new).left buffer.new result) };
}

/// How many bytes `read_all` asks for at once.
const PIECE: usize = 8192;

/// Reads the whole file of this name, of at most `limit` bytes.
///
/// `Missing` says that there is no such file, `Read` that the inputs failed, `TooLong` that the file has
/// more than `limit` bytes, and `Memory` that there was none for its bytes.
pub fn read_all<I: Inputs>(
    alloc: Global,
    inputs: &mut I,
    name: &str,
    limit: usize,
) -> Result<Vec<u8>, ReadFault>
    ensures told { IfSome (I.state inputs.old).holds (λ held. ReadsWhole (held name.now) limit (I.state inputs.new).left result) }
    ensures within { IfOk result (λ bytes. length bytes.items ≤ limit) }
    ensures begun { LeavesBegun (I.state inputs.new).begun result }
    ensures holds { (I.state inputs.new).holds ≡ (I.state inputs.old).holds }

    // This name alone is asked for.
    ensures asked { (I.state inputs.new).asked ≡ followed_by (I.state inputs.old).asked (name.now ∷ []) }

    // The inputs' count never falls, and `Read` comes only where it rose.
    ensures later { (I.state inputs.old).faults ≤ (I.state inputs.new).faults }
    ensures rose { IsErrOf result ReadFault.Read → Rose (I.state inputs.old).faults (I.state inputs.new).faults }
{
    if !inputs.start(name)? {
        return Err(ReadFault::Missing);
    }
    let mut bytes = Vec::new(alloc);
    let mut piece = [0u8; PIECE];
    loop {
        let count = inputs.read(&mut piece)?;
        if count == 0 {
            return Ok(bytes);
        }
        if limit - bytes.len() < count {
            return Err(ReadFault::TooLong);
        }
        bytes.extend_from_slice(&piece[..count])?;
    }
}
