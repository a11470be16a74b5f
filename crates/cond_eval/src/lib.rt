//! The values of C text.
#![tactic(auto)]

mod absent;
mod calls;
mod constants;
mod declaration;
mod environment;
mod evaluation;
mod flagged;
mod integers;
mod operators;
mod pair;
mod reading;
mod value;
mod words;

pub use declaration::declare;
pub use environment::CEnv;
pub use evaluation::eval;
pub use value::CValue;
