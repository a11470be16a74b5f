//! What work gives, and why it ends early.
ghost use Rattle.std.specs.Prelude.{◌≡◌};
ghost use Rattle.match_top.specs.Answer.{status_of, status_of_output};

use crate::status::{Cause, Status};
use pm_items::Items;
use pm_ops::OutOfMemory;

/// What work gives that came to its end.
#[derive(Drop)]
pub struct Output {
    /// Whether a budget was spent and a further step exists.
    pub exhausted: bool,
    /// What is written to `out`.
    pub out: Items<u8>,
    /// What is written to `report`.
    pub report: Items<u8>,
}

/// Why work ends before its end. It has no text for `out`.
#[derive(Drop)]
pub enum Stop {
    /// Memory ran out.
    Memory,
    /// The command is refused: why, and the line of the report with its end.
    Refusal(Cause, Items<u8>),
}

impl From<OutOfMemory> for Stop {
    ghost use Rattle.std.specs.Prelude.{◌≡◌};
    ghost use Rattle.match_top.specs.declared.answer.Stop.TheVariants.{Memory};

    ghost from_gives = { λ _ stop. stop ≡ Memory };

    fn from(_error: OutOfMemory) -> Stop {
        Stop::Memory
    }
}

/// The status of an answer.
pub fn status(answer: &Result<Output, Stop>) -> Status
    ensures { result ≡ status_of answer.now }
{
    match answer {
        Ok(output) => output_status(output),
        Err(Stop::Refusal(cause, _)) => Status::Refused(*cause),
        Err(Stop::Memory) => Status::NoMemory,
    }
}

/// The status of work that came to its end.
fn output_status(output: &Output) -> Status
    ensures { result ≡ status_of_output output.now }
{
    if output.exhausted {
        Status::Exhausted
    } else {
        Status::Done
    }
}
