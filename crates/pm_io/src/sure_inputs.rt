//! Files in memory that are always there and never fail.
ghost use Rattle.std.specs.Prelude.{◌≡◌, ◌<◌, min, [], None, Some, IfSome, is_some, unwrap_or, length, take, position, bytes_eq, string_bytes};
ghost use Rattle.pm_io.specs.NamedFiles.{files_of, file_named};

use crate::faults::Failed;
use crate::inputs::Inputs;
use std::marker::Model;

/// Files in memory. No call on them fails.
#[derive(Drop)]
pub struct SureInputs {
    files: Vec<(String, Vec<u8>)>,
    begun: Option<Begun>,
}

/// The place of the begun file among the files, and how many of its bytes were given.
#[derive(Clone, Copy)]
struct Begun {
    file: usize,
    given: usize,
}

impl Model for SureInputs {
    ghost use Rattle.pm_io.specs.NamedFiles.{OpenFiles};

    ghost Value = { OpenFiles };

    ghost use Rattle.pm_io.specs.SureInputs.{open_files, IsWithin};

    ghost view = { open_files };

    ghost invariant = { IsWithin };
}

impl SureInputs {
    /// These files, each a name and its bytes. Of two of one name the first counts.
    pub fn new(files: Vec<(String, Vec<u8>)>) -> SureInputs
        ensures { result ≡ record { files = files_of files.items; left = None } }
    {
        SureInputs { files, begun: None }
    }
}

/// The place of the first file of that name.
fn place_of(files: &[(String, Vec<u8>)], name: &str) -> Option<usize>
    ensures within { IfSome result (λ place. place < length files.now) }
    ensures place { result ≡ position (λ file. bytes_eq (string_bytes file.0) name.now) files.now }
{
    files.iter().position(|file| file.0.as_str() == name)
}

/// Copies a front of `bytes` to the front of `buffer`, as long as both allow.
fn copy_front(bytes: &[u8], buffer: &mut [u8]) -> usize
    ensures len { result ≡ min (length buffer.old) (length bytes.now) }
    ensures front { take result buffer.new ≡ take result bytes.now }
{
    let count = buffer.len().min(bytes.len());
    buffer[..count].copy_from_slice(&bytes[..count]);
    count
}

impl Inputs for SureInputs {
    ghost state = { λ inputs. record {
      holds = Some (file_named inputs.files);
      asked = None;
      begun = is_some inputs.left;
      left = unwrap_or inputs.left [];
      faults = 0;
    } };

    fn start(&mut self, name: &str) -> Result<bool, Failed> {
        match place_of(&self.files, name) {
            Some(file) => {
                self.begun = Some(Begun { file, given: 0 });
                Ok(true)
            }
            None => {
                self.begun = None;
                Ok(false)
            }
        }
    }

    fn read(&mut self, buffer: &mut [u8]) -> Result<usize, Failed> {
        let Some(begun) = self.begun else {
            unreachable!()
        };
        let (_, bytes) = &self.files[begun.file];
        let count = copy_front(&bytes[begun.given..], buffer);
        self.begun = Some(Begun {
            file: begun.file,
            given: begun.given + count,
        });
        Ok(count)
    }
}
