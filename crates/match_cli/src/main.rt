//! Simplifies GIMPLE functions by patterns. `main` only: all that the program does is `match_top::run`.
#![tactic(auto)]

use pm_io::{FileInputs, StdSink};
use std::env;
use std::env::Env;
use std::io::ErrorKind;
use std::process::ExitCode;

/// The status for want of memory.
const NO_MEMORY: u8 = 8;

fn main(rt: HostRuntime) -> ExitCode {
    let Some(words) = words(&rt) else {
        return ExitCode::from(NO_MEMORY);
    };
    let mut inputs = FileInputs::new(&rt);
    let mut out = StdSink::new(rt.stdout());
    let mut report = StdSink::new(rt.stderr());
    ExitCode::from(match_top::run(rt.alloc(), &words, &mut inputs, &mut out, &mut report))
}

/// The words of the command line without the program's name, or nothing for want of memory. Where some word isn't
/// UTF-8 one empty word stands for all of them, which spells no command.
fn words(rt: &(impl Env + AllocGlobal)) -> Option<Vec<String>> {
    match env::args(rt) {
        Ok(mut all) => {
            let _name = all.next();
            all.collect(rt.alloc()).ok()
        }
        Err(error) if error.kind() == ErrorKind::OutOfMemory => None,
        Err(_) => {
            let mut none = Vec::new(rt.alloc());
            none.push(String::new(rt.alloc())).ok()?;
            Some(none)
        }
    }
}
