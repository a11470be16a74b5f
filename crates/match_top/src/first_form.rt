//! GIMPLE files of the first form.
ghost use Rattle.std.specs.Prelude.{IfOk, IsTrue};
ghost use Rattle.gim_ast.specs.WellFormed.{names_rise};
ghost use Rattle.first_rewriting.specs.Typed.{IsTyped};
ghost use Rattle.match_top.specs.Given.{Judges, Staged};
ghost use Rattle.match_top.specs.declared.needs.Kind.TheVariants.{FirstForm};

use crate::answer::Stop;
use crate::given::read;
use crate::needs::Kind;
use crate::refusals::faulty;
use first_gimple::FirstFault;
use gim_ast::Function;
use pm_io::Inputs;
use std::alloc::Global;

/// The function of the file of this name.
pub fn read_function<I: Inputs>(alloc: Global, inputs: &mut I, name: &str) -> Result<Function, Stop>
    ensures staged { Staged (record { kind = FirstForm; name = name.now }) (I.state inputs.old) (I.state inputs.new) result }
    ensures typed { IfOk result IsTyped }
    ensures rise { IfOk result (λ f. IsTrue (names_rise f)) }
{
    match read(alloc, inputs, Kind::FirstForm, name) {
        Ok(source) => judged(alloc, source.as_slice()),
        Err(stop) => Err(stop),
    }
}

/// What these bytes stand for.
#[tactic(auto, using(crate::proofs::FirstFormLemmas::first_form_typed, crate::proofs::FirstFormLemmas::first_form_rises))]
fn judged(alloc: Global, source: &[u8]) -> Result<Function, Stop>
    ensures judges { Judges FirstForm source.now result }
    ensures typed { IfOk result IsTyped }
    ensures rise { IfOk result (λ f. IsTrue (names_rise f)) }
{
    match first_gimple::read(alloc, source) {
        Ok(function) => Ok(function),
        Err(FirstFault::NotFirst) => Err(faulty(alloc, Kind::FirstForm, None, "NotYet", None)),
        Err(FirstFault::Memory) => Err(Stop::Memory),
    }
}
