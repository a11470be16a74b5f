//! A writer of the system as a sink.
ghost use Rattle.std.specs.Prelude.{◌≡◌, ◌<◌, ◌≤◌, None, length, IfOk};
ghost use Rattle.pm_io.specs.Causes.{HasCause, count_after};

use crate::faults::Failed;
use crate::sinks::Sink;
use std::io::Write;
use std::marker::Model;

/// A writer as a sink. Each write is flushed. It tells nothing of what the writer does with the bytes.
#[derive(Drop)]
pub struct StdSink<W> {
    writer: W,
    faults: u64,
}

impl<W> Model for StdSink<W> {
    ghost use Rattle.std.specs.Prelude.{ℕ};

    ghost Value = { ℕ };

    ghost view = { λ sink. sink.faults };
}

impl<W> StdSink<W> {
    /// A sink over this writer, which has not failed as yet.
    pub fn new(writer: W) -> StdSink<W>
        ensures { result ≡ 0 }
    {
        StdSink { writer, faults: 0 }
    }
}

impl<W: Write + Drop> Sink for StdSink<W> {
    ghost state = { λ faults. record { taken = None; room = None; faults = faults } };

    // A writer that takes nothing has failed, and so has one that doesn't flush.
    fn write(&mut self, bytes: &[u8]) -> Result<usize, Failed>
        ensures bound { IfOk result (λ count. count ≤ length bytes.now) }
        ensures some { IfOk result (λ count. 0 < length bytes.now → 0 < count) }
        ensures cause { HasCause self.old self.new result }
        ensures count { self.new ≡ count_after self.old result }
    {
        if bytes.is_empty() {
            return Ok(0);
        }
        match self.writer.write(bytes) {
            Ok(count) if count > 0 && self.writer.flush().is_ok() => Ok(count),
            _ => {
                self.faults = self.faults.saturating_add(1);
                Err(Failed)
            }
        }
    }
}
