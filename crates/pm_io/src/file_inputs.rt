//! Files of the system.
ghost use Rattle.std.specs.Prelude.{◌≡◌, ◌≤◌, [], true, false, None, length, IfOk};
ghost use Rattle.pm_io.specs.Causes.{HasCause, count_after};
ghost use Rattle.pm_io.specs.Reading.{is_begun_by};

use crate::faults::Failed;
use crate::inputs::Inputs;
use std::fs::File;
use std::io::{ErrorKind, Read};
use std::marker::Model;
use std::rt::Files;

/// The files of a runtime. It tells nothing of what they hold.
#[derive(Drop)]
pub struct FileInputs<'r, R: Files> {
    runtime: &'r R,
    file: Option<R::File>,
    faults: u64,
}

impl<'r, R: Files> Model for FileInputs<'r, R> {
    ghost use Rattle.std.specs.Prelude.{is_some};
    ghost use Rattle.pm_io.specs.FileState.{FileState};

    ghost Value = { FileState };

    ghost view = { λ inputs. record { begun = is_some inputs.file; faults = inputs.faults } };
}

impl<'r, R: Files> FileInputs<'r, R> {
    /// The files of this runtime. None is begun, and no call has failed as yet.
    pub fn new(runtime: &'r R) -> FileInputs<'r, R>
        ensures { result ≡ record { begun = false; faults = 0 } }
    {
        FileInputs {
            runtime,
            file: None,
            faults: 0,
        }
    }
}

impl<R: Files> Inputs for FileInputs<'_, R> {
    ghost state = { λ inputs. record { holds = None; asked = None; begun = inputs.begun; left = []; faults = inputs.faults } };

    // The runtime's word for a file that is missing is the kind `NotFound`.
    fn start(&mut self, name: &str) -> Result<bool, Failed>
        ensures begun { self.new.begun ≡ is_begun_by result }
        ensures cause { HasCause self.old.faults self.new.faults result }
        ensures count { self.new.faults ≡ count_after self.old.faults result }
    {
        self.file = None;
        match File::open(self.runtime, name) {
            Ok(file) => {
                self.file = Some(file);
                Ok(true)
            }
            Err(error) if error.kind() == ErrorKind::NotFound => Ok(false),
            Err(_) => {
                self.faults = self.faults.saturating_add(1);
                Err(Failed)
            }
        }
    }

    fn read(&mut self, buffer: &mut [u8]) -> Result<usize, Failed>
        requires { self.old.begun ≡ true }
        ensures bound { IfOk result (λ count. count ≤ length buffer.new) }
        ensures begun { self.new.begun ≡ true }
        ensures cause { HasCause self.old.faults self.new.faults result }
        ensures count { self.new.faults ≡ count_after self.old.faults result }
    {
        let Some(file) = &mut self.file else {
            unreachable!()
        };
        match file.read(buffer) {
            Ok(count) => Ok(count),
            Err(_) => {
                self.faults = self.faults.saturating_add(1);
                Err(Failed)
            }
        }
    }
}
