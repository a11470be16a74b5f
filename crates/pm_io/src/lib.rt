//! Inputs that are read by name and sinks that take bytes: what a program's devices promise, and the
//! ways to read a whole file and to write a whole text.
//!
//! A device that fails counts its failures, and callers see that count: a body that says `Failed`
//! where the count didn't rise meets no contract here. What inputs hold and what a sink took is told
//! by some devices (those in memory) and not by others (real files), so one contract serves both.
#![tactic(auto)]

mod faults;
mod file_inputs;
mod inputs;
mod sinks;
mod std_sink;
mod sure_inputs;
mod sure_sink;

pub use faults::{Failed, ReadFault};
pub use file_inputs::FileInputs;
pub use inputs::{Inputs, read_all};
pub use sinks::{Sink, write_all};
pub use std_sink::StdSink;
pub use sure_inputs::SureInputs;
pub use sure_sink::SureSink;
