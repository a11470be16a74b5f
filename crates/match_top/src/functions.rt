//! Whole GIMPLE files: the functions that they stand for, each of them valid, or the line of a refusal.
ghost use Rattle.std.specs.Prelude.{◌≡◌, ◌++◌, ◌≤◌, ◌<◌, ◌^◌, ℕ, List, length, IfOk, IfErr, OnOk};
ghost use Rattle.std.specs.List.{AllByRecursion};
ghost use Rattle.gim_ast.specs.Readable.{IsValid};
ghost use Rattle.gim_ast.specs.WellFormed.{IsWellFormed};
ghost use Rattle.match_top.specs.Given.{Judges, Staged};
ghost use Rattle.match_top.specs.Invalid.{IsInvalid, IsInvalidOne};
ghost use Rattle.match_top.specs.declared.needs.Kind.TheVariants.{Functions};

use crate::answer::Stop;
use crate::function_lines::{at_fault, unreadable};
use crate::given::read;
use crate::needs::Kind;
use gim_ast::Function;
use gim_ssa::CheckFault;
use pm_io::Inputs;
use pm_items::Items;
use std::alloc::Global;

/// The functions of the file of this name.
pub fn read_functions<I: Inputs>(
    alloc: Global,
    inputs: &mut I,
    name: &str,
) -> Result<Items<Function>, Stop>
    ensures staged { Staged (record { kind = Functions; name = name.now }) (I.state inputs.old) (I.state inputs.new) result }
    ensures valid { IfOk result (λ fs. AllByRecursion IsValid fs) }
{
    match read(alloc, inputs, Kind::Functions, name) {
        Ok(source) => judged(alloc, source.as_slice()),
        Err(stop) => Err(stop),
    }
}

/// What these bytes stand for.
fn judged(alloc: Global, source: &[u8]) -> Result<Items<Function>, Stop>
    requires { length source.now < 2 ^ 31 }
    ensures judges { Judges Functions source.now result }
    ensures valid { IfOk result (λ fs. AllByRecursion IsValid fs) }
{
    match gim_reader::read(alloc, source) {
        Ok(functions) => match all_valid(alloc, functions.as_slice()) {
            Ok(()) => Ok(Items::from_vec(functions)),
            Err(stop) => Err(stop),
        },
        Err(fault) => Err(at_fault(alloc, source, &fault)),
    }
}

/// Whether each function is valid.
fn all_valid(alloc: Global, functions: &[Function]) -> Result<(), Stop>
    requires { AllByRecursion IsWellFormed functions.now }
    ensures valid { OnOk result (AllByRecursion IsValid functions.now) }
    ensures invalid { IfErr result (λ stop. IsInvalid functions.now stop) }
{
    let mut rest = functions;
    while let [function, after @ ..] = rest {
        judge(alloc, function)?;
        rest = after;
    }
    Ok(())
}

/// Whether a function is valid.
fn judge(alloc: Global, function: &Function) -> Result<(), Stop>
    requires { IsWellFormed function.now }
    ensures valid { OnOk result (IsValid function.now) }
    ensures invalid { IfErr result (λ stop. IsInvalidOne function.now stop) }
{
    match gim_ssa::check(alloc, function) {
        Ok(()) => Ok(()),
        Err(CheckFault::Memory) => Err(Stop::Memory),
        Err(CheckFault::NotReadable { block, item, name }) => {
            Err(unreadable(alloc, function, block, item, name))
        }
    }
}
