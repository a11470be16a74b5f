//! Writing an answer.
ghost use Rattle.std.specs.Prelude.{◌≡◌, ◌≤◌, []};
ghost use Rattle.match_top.specs.Answer.{out_of, report_of};
ghost use Rattle.match_top.specs.Writing.{Writes};

use crate::answer::{Output, Stop, status};
use crate::status::Status;
use pm_io::{Sink, write_all};

/// Writes the answer's text for `out`, and then the one for `report`. Where a write fails nothing more is written.
pub fn write<O: Sink, E: Sink>(answer: &Result<Output, Stop>, out: &mut O, report: &mut E) -> u8
    ensures writes { Writes answer.now (record { old = O.state out.old; new = O.state out.new })
        (record { old = E.state report.old; new = E.state report.new }) result }
    ensures no_out { out_of answer.now ≡ [] → out.new ≡ out.old }
    ensures no_report { report_of answer.now ≡ [] → report.new ≡ report.old }
    ensures out_later { (O.state out.old).faults ≤ (O.state out.new).faults }
    ensures report_later { (E.state report.old).faults ≤ (E.state report.new).faults }
{
    if write_all(out, out_text(answer)).is_err() {
        return Status::WriteFailed.code();
    }
    if write_all(report, report_text(answer)).is_err() {
        return Status::WriteFailed.code();
    }
    status(answer).code()
}

/// What is written to `out`.
fn out_text(answer: &Result<Output, Stop>) -> &[u8]
    ensures { result.now ≡ out_of answer.now }
{
    match answer {
        Ok(output) => output.out.as_slice(),
        Err(_) => &[],
    }
}

/// What is written to `report`.
fn report_text(answer: &Result<Output, Stop>) -> &[u8]
    ensures { result.now ≡ report_of answer.now }
{
    match answer {
        Ok(output) => output.report.as_slice(),
        Err(Stop::Refusal(_, text)) => text.as_slice(),
        Err(Stop::Memory) => &[],
    }
}
