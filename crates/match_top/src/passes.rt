//! Passes: the functions of a GIMPLE file, changed one by one and printed, with lines that say what was changed.
ghost use Rattle.std.specs.Prelude.{All, IfOk, IsTrue};
ghost use Rattle.std.specs.List.{AllByRecursion};
ghost use Rattle.gim_ast.specs.Readable.{IsValid};
ghost use Rattle.gim_ast.specs.WellFormed.{names_rise};
ghost use Rattle.match_top.specs.Answer.{RightOrMemory};
ghost use Rattle.match_top.specs.Given.{Answered};
ghost use Rattle.match_top.specs.Needs.{functions_named};
ghost use Rattle.match_top.specs.Passes.{AllBecome, Appends, Passes};

use crate::answer::{Output, Stop};
use crate::commands::{number, tidy};
use crate::functions::read_functions;
use crate::printing::printed;
use crate::words::Word;
use gim_ast::Function;
use pm_io::Inputs;
use pm_items::Items;
use pm_ops::OutOfMemory;
use std::alloc::Global;

/// What is made of each function by itself.
#[derive(Clone, Copy, Debug, PartialEq, Eq)]
pub enum Pass {
    /// Its control flow is tidied.
    Tidying,
    /// Its values are numbered.
    Numbering,
}

/// Functions as a pass left them, and the lines of the report.
#[derive(Drop)]
struct Passed {
    functions: Items<Function>,
    report: Items<u8>,
}

/// Prints what the pass makes of the functions of the file of this name.
pub fn answer<I: Inputs>(
    alloc: Global,
    inputs: &mut I,
    pass: Pass,
    name: &Word,
) -> Result<Output, Stop>
    ensures { Answered (functions_named name.now) (Passes pass) (I.state inputs.old) (I.state inputs.new) result }
{
    let functions = read_functions(alloc, inputs, name.as_str())?;
    through(alloc, pass, functions.as_slice())
}

/// What the pass makes of these functions, printed.
fn through(alloc: Global, pass: Pass, functions: &[Function]) -> Result<Output, Stop>
    requires { AllByRecursion IsValid functions.now }
    ensures { RightOrMemory (Passes pass functions.now) result }
{
    match pass_through(alloc, pass, functions) {
        Ok(Passed { functions, report }) => printed(alloc, functions.as_slice(), report),
        Err(_) => Err(Stop::Memory),
    }
}

/// What the pass makes of these functions, one by one.
fn pass_through(alloc: Global, pass: Pass, functions: &[Function]) -> Result<Passed, OutOfMemory>
    requires { AllByRecursion IsValid functions.now }
    ensures passed { IfOk result (λ passed. AllBecome pass functions.now passed.functions passed.report) }
    ensures rise { IfOk result (λ passed. All (λ f. IsTrue (names_rise f)) passed.functions) }
{
    let mut changed = Items::new(alloc);
    let mut report = Items::new(alloc);
    for function in functions {
        let next = change(alloc, pass, function, &mut report)?;
        changed.push(next)?;
    }
    Ok(Passed {
        functions: changed,
        report,
    })
}

/// What the pass makes of a function. Its lines are appended to the report.
fn change(
    alloc: Global,
    pass: Pass,
    function: &Function,
    report: &mut Items<u8>,
) -> Result<Function, OutOfMemory>
    requires { IsValid function.now }
    ensures appends { IfOk result (λ changed. Appends pass function.now changed report.old report.new) }
    ensures rises { IfOk result (λ changed. IsTrue (names_rise changed)) }
{
    match pass {
        Pass::Tidying => tidy::tidy_function(alloc, function, report),
        Pass::Numbering => number::number_function(alloc, function, report),
    }
}
