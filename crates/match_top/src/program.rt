//! The top call.
ghost use Rattle.std.specs.Prelude.{◌≡◌, ◌⊎◌, ◌≤◌, None, map, string_bytes, IfSome};
ghost use Rattle.pm_io.specs.Causes.{Rose};
ghost use Rattle.match_top.specs.Commands.{command_of, needs_of, work_of};
ghost use Rattle.match_top.specs.Given.{Answered};
ghost use Rattle.match_top.specs.Program.{Serves, ServesHeld, IsSilent};
ghost use Rattle.match_top.specs.Says.{StatusSays};
ghost use Rattle.match_top.specs.Status.{code};
ghost use Rattle.match_top.specs.declared.status.Status.{Status};
ghost use Rattle.match_top.specs.declared.status.Status.TheVariants.{Refused, WriteFailed, NoMemory};
ghost use Rattle.match_top.specs.declared.status.Cause.TheVariants.{NoCommand};

use crate::answer::{Output, Stop};
use crate::commands;
use crate::writing::write;
use pm_io::{Inputs, Sink};
use std::alloc::Global;

/// Does all that the program does: reads what the words ask for, writes the answer to `out` and then to `report`, and answers the
/// status.
pub fn run<I: Inputs, O: Sink, E: Sink>(
    alloc: Global,
    words: &[String],
    inputs: &mut I,
    out: &mut O,
    report: &mut E,
) -> u8
    // There is an answer to the words and to what the files gave, and it was written.
    ensures answer { Serves (command_of (map string_bytes words.now)) (I.state inputs.old) (I.state inputs.new)
        (record { old = O.state out.old; new = O.state out.new }) (record { old = E.state report.old; new = E.state report.new }) result }

    // Where no count rose and the inputs tell what they hold, it is the one to the words and the held files: each status comes exactly
    // where they ask for it, but for want of memory.
    ensures held { ¬ Rose (I.state inputs.old).faults (I.state inputs.new).faults → ¬ Rose (O.state out.old).faults (O.state out.new).faults
        → ¬ Rose (E.state report.old).faults (E.state report.new).faults
        → IfSome (I.state inputs.old).holds (λ held. ServesHeld (command_of (map string_bytes words.now)) held
        (record { old = O.state out.old; new = O.state out.new }) (record { old = E.state report.old; new = E.state report.new }) result) }

    // What each status says of the held files, where the inputs tell them.
    ensures says { (status : Status) → result ≡ code status → IfSome (I.state inputs.old).holds
        (λ held. StatusSays held (command_of (map string_bytes words.now)) (Rose (I.state inputs.old).faults (I.state inputs.new).faults) status) }

    // No other number is answered.
    ensures numbers { (status : Status) × (result ≡ code status) }

    // Words without a command leave the inputs as they were, and such a refusal comes only for them.
    ensures untouched { command_of (map string_bytes words.now) ≡ None → inputs.new ≡ inputs.old }
    ensures refused { result ≡ code (Refused NoCommand) → command_of (map string_bytes words.now) ≡ None }

    // A write failed only where a sink's count rose.
    ensures failed { result ≡ code WriteFailed →
        Rose (O.state out.old).faults (O.state out.new).faults ⊎ Rose (E.state report.old).faults (E.state report.new).faults }

    // With a refusal `out` isn't touched, and with want of memory `report` isn't either.
    ensures silent { IsSilent result → out.new ≡ out.old }
    ensures memory { result ≡ code NoMemory → report.new ≡ report.old }

    // Counts of faults never fall.
    ensures inputs_later { (I.state inputs.old).faults ≤ (I.state inputs.new).faults }
    ensures out_later { (O.state out.old).faults ≤ (O.state out.new).faults }
    ensures report_later { (E.state report.old).faults ≤ (E.state report.new).faults }
{
    let answer = answer(alloc, words, inputs);
    write(&answer, out, report)
}

/// The answer to the words over these inputs.
fn answer<I: Inputs>(alloc: Global, words: &[String], inputs: &mut I) -> Result<Output, Stop>
    ensures answered { Answered (needs_of (command_of (map string_bytes words.now))) (work_of (command_of (map string_bytes words.now)))
        (I.state inputs.old) (I.state inputs.new) result }
    ensures untouched { command_of (map string_bytes words.now) ≡ None → inputs.new ≡ inputs.old }
{
    match commands::settings(alloc, words) {
        Ok(command) => commands::answer(alloc, inputs, command),
        Err(_) => Err(Stop::Memory),
    }
}
