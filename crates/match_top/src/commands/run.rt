//! `run G F V.. [--fuel N]`: a function of a GIMPLE file, run on values.
ghost use Rattle.std.specs.Prelude.{◌≡◌, ◌++◌, [], false, codes, IfOk, map, option_map, option_copied, string_bytes, Ok};
ghost use Rattle.std.specs.Fmt.{signed_decimal};
ghost use Rattle.std.specs.List.{AllByRecursion, list_all};
ghost use Rattle.gim_printer.specs.Printing.{assigned_text};
ghost use Rattle.gim_ast.specs.Readable.{IsValid};
ghost use Rattle.gim_ast.specs.Runs.{run_of};
ghost use Rattle.gim_run.specs.Arguments.{AreArguments};
ghost use Rattle.gim_text.specs.Literals.{word_in};
ghost use Rattle.match_top.specs.Answer.{IsOrMemory, OrMemory, refusal};
ghost use Rattle.match_top.specs.Given.{Answered};
ghost use Rattle.match_top.specs.Refusals.{line};
ghost use Rattle.match_top.specs.Run.{run_of_words, run_needs, Runs, ran, is_size, is_value, number_of_value, arguments_of, function_named, is_named, outcome_answer};
ghost use Rattle.match_top.specs.declared.status.Cause.TheVariants as causes;
ghost use Rattle.pm_wide.specs.Types.{value};

use crate::answer::{Output, Stop};
use crate::functions::read_functions;
use crate::options::{Flag, number_or, settings_in};
use crate::refusals::refused;
use crate::status::Cause;
use crate::words::{Word, copies, cut, is_name};
use gim_ast::{Decl, Function};
use gim_printer::{push_assigned, push_value};
use gim_run::{Outcome, prepare};
use gim_text::constant;
use lexing::is_number_text;
use pm_io::Inputs;
use pm_items::Items;
use pm_ops::OutOfMemory;
use pm_wide::{IntType, Wide};
use std::alloc::Global;

/// How many blocks a function may enter where the words don't say.
const DEFAULT_FUEL: u32 = 1_000_000;

/// The words behind `run`: the names of the GIMPLE file and of a function, the values for its parameters, and how many blocks it
/// may enter.
#[derive(Debug, Drop)]
pub struct Run {
    pub functions: Word,
    pub name: Word,
    pub values: Items<Word>,
    pub fuel: u32,
}

/// The command that these words spell.
pub fn spelled(alloc: Global, words: &[String]) -> Result<Option<Run>, OutOfMemory>
    ensures { IfOk result (λ command. command ≡ run_of_words (map string_bytes words.now)) }
{
    let (positional, options) = cut(words);
    let Some(settings) = settings_in(alloc, &[Flag::Fuel], options)? else {
        return Ok(None);
    };
    let [functions, name, values @ ..] = positional else {
        return Ok(None);
    };
    if !is_name(functions) || !is_name(name) || !are_values(values) {
        return Ok(None);
    }
    let functions = Word::copy(alloc, functions)?;
    let name = Word::copy(alloc, name)?;
    let values = copies(alloc, values)?;
    let fuel = number_or(Flag::Fuel, DEFAULT_FUEL, settings.as_slice());
    Ok(Some(Run {
        functions,
        name,
        values,
        fuel,
    }))
}

/// Whether each word is a value.
fn are_values(words: &[String]) -> bool
    ensures { result ≡ list_all is_value (map string_bytes words.now) }
{
    for word in words {
        if !is_value(word) {
            return false;
        }
    }
    true
}

/// Whether the word is a value.
fn is_value(word: &String) -> bool
    ensures { result ≡ is_value (string_bytes word.now) }
{
    match word.as_bytes() {
        [] => false,
        [b'-', rest @ ..] => is_size(rest) && rest != b"0".as_slice(),
        bytes => is_size(bytes),
    }
}

/// Whether the bytes are digits without a leading zero, 39 at most.
fn is_size(digits: &[u8]) -> bool
    ensures { result ≡ is_size digits.now }
{
    is_number_text(digits) && digits.len() <= 39
}

/// Runs the function of a file on the values.
pub fn answer<I: Inputs>(alloc: Global, inputs: &mut I, command: &Run) -> Result<Output, Stop>
    ensures { Answered (run_needs command.now) (Runs command.now) (I.state inputs.old) (I.state inputs.new) result }
{
    let functions = read_functions(alloc, inputs, command.functions.as_str())?;
    run_named(alloc, functions.as_slice(), command)
}

/// Runs the function of the command's name.
#[tactic(auto, using(crate::proofs::RunLemmas::are_arguments), unfolding(crate::specs::Run::ran))]
fn run_named(alloc: Global, functions: &[Function], command: &Run) -> Result<Output, Stop>
    requires { AllByRecursion IsValid functions.now }
    ensures { IsOrMemory (ran command.now functions.now) result }
{
    let name = command.name.as_str();
    let Some(function) = function_named(functions, name) else {
        return Err(no_run(alloc, name));
    };
    match arguments(alloc, function.params.as_slice(), command.values.as_slice()) {
        Ok(Some(args)) => outcome(alloc, function, args.as_slice(), command.fuel),
        Ok(None) => Err(no_run(alloc, name)),
        Err(_) => Err(Stop::Memory),
    }
}

/// The refusal where there is no function of that name, or the values don't suit it.
fn no_run(alloc: Global, name: &str) -> Stop
    ensures { OrMemory (refusal causes.NoRun (codes "no run " ++ name.now)) result }
{
    refused(alloc, Cause::NoRun, "no run ", name)
}

/// The function of that name.
fn function_named<'a>(functions: &'a [Function], name: &str) -> Option<&'a Function>
    ensures { option_copied result ≡ function_named name.now functions.now }
{
    for function in functions {
        if function.name.bytes() == name.as_bytes() {
            return Some(function);
        }
    }
    None
}

/// A word for each parameter, if there are as many values and each suits.
fn arguments(
    alloc: Global,
    params: &[Decl],
    values: &[Word],
) -> Result<Option<Vec<Wide>>, OutOfMemory>
    ensures { IfOk result (λ args. option_map (λ words. words.items) args ≡ arguments_of params.now values.now) }
{
    let mut args = Vec::new(alloc);
    if params.len() != values.len() {
        return Ok(None);
    }
    for at in 0..params.len() {
        match argument(params[at].ty, values[at].bytes()) {
            Some(word) => args.push(word)?,
            None => return Ok(None),
        }
    }
    Ok(Some(args))
}

/// The word of a value, if it is in the range of the type.
fn argument(ty: IntType, value: &[u8]) -> Option<Wide>
    ensures { result ≡ word_in ty (number_of_value value.now) }
{
    match value {
        [b'-', digits @ ..] => constant(true, digits, ty),
        _ => constant(false, value, ty),
    }
}

/// What a run of the function gives.
fn outcome(alloc: Global, function: &Function, args: &[Wide], fuel: u32) -> Result<Output, Stop>
    requires valid { IsValid function.now }
    requires suit { AreArguments function.now args.now }
    ensures { IsOrMemory (outcome_answer function.now (run_of function.now args.now fuel)) result }
{
    let Ok(mut machine) = prepare(alloc, function) else {
        return Err(Stop::Memory);
    };
    match machine.run(args, fuel) {
        Outcome::Returned(word) => returned(alloc, &word),
        Outcome::Undefined { name } => Err(undefined(alloc, function, name)),
        Outcome::Running => Err(refused(alloc, Cause::OutOfFuel, "out of fuel", "")),
    }
}

/// The returned value.
fn returned(alloc: Global, word: &Wide) -> Result<Output, Stop>
    ensures { IsOrMemory (Ok (record { exhausted = false; out = line (signed_decimal (value word.now)); report = [] })) result }
{
    match value_line(alloc, word) {
        Ok(out) => Ok(Output {
            exhausted: false,
            out,
            report: Items::new(alloc),
        }),
        Err(_) => Err(Stop::Memory),
    }
}

/// The value as a line.
fn value_line(alloc: Global, word: &Wide) -> Result<Items<u8>, OutOfMemory>
    ensures { IfOk result (λ text. text ≡ line (signed_decimal (value word.now))) }
{
    let mut out = Items::new(alloc);
    push_value(&mut out, word)?;
    out.extend_from_slice(b"\n")?;
    Ok(out)
}

/// The refusal of a run whose statement of a name has no value.
fn undefined(alloc: Global, function: &Function, name: u32) -> Stop
    requires { IsValid function.now }
    ensures { OrMemory (refusal causes.Undefined (codes "undefined " ++ function.now.name ++ codes " " ++ assigned_text function.now name)) result }
{
    match undefined_line(alloc, function, name) {
        Ok(text) => Stop::Refusal(Cause::Undefined, text),
        Err(_) => Stop::Memory,
    }
}

/// The line of a statement without a value.
#[tactic(auto, using(gim_ast::proofs::RisingNames::names_rise_where_valid))]
fn undefined_line(alloc: Global, function: &Function, name: u32) -> Result<Items<u8>, OutOfMemory>
    requires { IsValid function.now }
    ensures { IfOk result (λ text. text ≡ line (codes "undefined " ++ function.now.name ++ codes " " ++ assigned_text function.now name)) }
{
    let mut out = Items::new(alloc);
    out.extend_from_slice(b"undefined ")?;
    out.extend_from_slice(function.name.bytes())?;
    out.extend_from_slice(b" ")?;
    push_assigned(&mut out, function, name)?;
    out.extend_from_slice(b"\n")?;
    Ok(out)
}
