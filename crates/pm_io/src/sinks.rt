//! Sinks that take bytes.
ghost use Rattle.std.specs.Prelude.{◌≡◌, ◌<◌, ◌≤◌, [], length, IfOk, OnErr};
ghost use Rattle.pm_io.specs.Causes.{HasCause};
ghost use Rattle.pm_io.specs.SinkState.{SinkState};
ghost use Rattle.pm_io.specs.Taking.{Takes, TakesAll, IsFull};

use crate::faults::Failed;

/// A place for bytes, as a file or a terminal.
pub trait Sink {
    /// What contracts see: the bytes taken where they are told, the room where it is promised, and a count of faults.
    ghost state: { Self → SinkState };

    /// Takes a front of `bytes` and answers its length, at least 1 where `bytes` isn't empty. After
    /// `Failed` nothing was taken.
    fn write(&mut self, bytes: &[u8]) -> Result<usize, Failed>
        ensures bound { IfOk result (λ count. count ≤ length bytes.now) }
        ensures some { IfOk result (λ count. 0 < length bytes.now → 0 < count) }
        ensures taken { Takes (state self.old).taken (state self.new).taken bytes.now result }
        ensures cause { HasCause (state self.old).faults (state self.new).faults result }
        ensures room { (state self.new).room ≡ (state self.old).room }
        ensures full { OnErr result (IsFull (state self.old).room (state self.old).taken) };
}

/// Writes all of `bytes`, piece by piece as the sink takes them. Where it fails, the bytes before the
/// piece that failed were taken.
#[tactic(auto, using(crate::proofs::Followed::followed_by_take))]
pub fn write_all<S: Sink>(sink: &mut S, bytes: &[u8]) -> Result<(), Failed>
    ensures taken { TakesAll (S.state sink.old).taken (S.state sink.new).taken bytes.now result }
    ensures cause { HasCause (S.state sink.old).faults (S.state sink.new).faults result }
    ensures room { (S.state sink.new).room ≡ (S.state sink.old).room }
    ensures full { OnErr result (IsFull (S.state sink.old).room (S.state sink.new).taken) }

    // Where there is nothing to write the sink isn't touched.
    ensures untouched { bytes.now ≡ [] → sink.new ≡ sink.old }
{
    let mut start = 0;
    while start < bytes.len() {
        start += sink.write(&bytes[start..])?;
    }
    Ok(())
}
