//! A sink in memory.
ghost use Rattle.std.specs.Prelude.{◌≡◌, ℕ, [], ◌<◌, ◌≤◌, Some, length, IfOk};
ghost use Rattle.pm_io.specs.BoundedSink.{TakesWhatFits};
ghost use Rattle.pm_io.specs.Causes.{HasCause};

use crate::faults::Failed;
use crate::sinks::Sink;
use std::alloc::{AllocError, Global};
use std::marker::Model;

/// A sink in memory, with room for so many bytes. It fails only where all its room is taken.
#[derive(Drop)]
pub struct SureSink {
    bytes: Vec<u8>,
    room: usize,
    faults: u64,
}

impl Model for SureSink {
    ghost use Rattle.std.specs.Prelude.{◌≡◌, ◌<◌, ◌≤◌, vec_len, vec_capacity};
    ghost use Rattle.pm_io.specs.BoundedSink.{BoundedSink};

    ghost Value = { BoundedSink };

    ghost view = { λ sink. record { room = sink.room; taken = sink.bytes.items; faults = sink.faults } };

    ghost invariant = { λ sink. (sink.room ≤ vec_capacity sink.bytes) × (vec_len sink.bytes ≤ sink.room)
        × (0 < sink.faults → vec_len sink.bytes ≡ sink.room) };
}

impl SureSink {
    /// An empty sink that has room for `size` bytes. It takes the memory for them now, and none later.
    pub fn with_room(alloc: Global, size: usize) -> Result<SureSink, AllocError>
        ensures { IfOk result (λ sink. sink ≡ record { room = size; taken = []; faults = 0 }) }
    {
        Ok(SureSink {
            bytes: Vec::with_capacity(alloc, size)?,
            room: size,
            faults: 0,
        })
    }

    /// The bytes that were taken. The sink failed only where they fill its room.
    pub fn taken(&self) -> &[u8]
        ensures value { result.now ≡ self.now.taken }
        ensures within { length self.now.taken ≤ self.now.room }
        ensures full { 0 < self.now.faults → length self.now.taken ≡ self.now.room }
    {
        &self.bytes
    }
}

impl Sink for SureSink {
    ghost state = { λ sink. record { taken = Some sink.taken; room = Some sink.room; faults = sink.faults } };

    fn write(&mut self, bytes: &[u8]) -> Result<usize, Failed>
        ensures fits { TakesWhatFits self.old self.new bytes.now result }
        ensures cause { HasCause self.old.faults self.new.faults result }
    {
        let count = bytes.len().min(self.room - self.bytes.len());
        if count == 0 && !bytes.is_empty() {
            self.faults = self.faults.saturating_add(1);
            return Err(Failed);
        }
        self.bytes.extend_from_slice(&bytes[..count]).unwrap();
        Ok(count)
    }
}
