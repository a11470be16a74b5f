//! `simplify P G`: the function of one file, rewritten by the rows of the other.
ghost use Rattle.std.specs.Prelude.{◌≡◌, ◌∷◌, [], ◌<◌, ◌≤◌, ◌^◌, length, map, string_bytes, All, IfOk, IsTrue, Ok};
ghost use Rattle.gim_ast.specs.WellFormed.{names_rise};
ghost use Rattle.gim_printer.specs.Printing.{text};
ghost use Rattle.first_patterns.specs.FirstForm.{SpellsFile};
ghost use Rattle.first_rewriting.specs.Typed.{IsTyped};
ghost use Rattle.first_rewriting.specs.Views.{rewritten};
ghost use Rattle.match_top.specs.Answer.{IsOrMemory};
ghost use Rattle.match_top.specs.Given.{Answered};
ghost use Rattle.match_top.specs.Simplify.{simplify_of, simplify_needs, Simplifies, simplified, written};

use crate::answer::{Output, Stop};
use crate::first_form::read_function;
use crate::options::settings_in;
use crate::patterns::{PatternFile, read_patterns};
use crate::report::report;
use crate::words::{Word, cut, is_name};
use first_rewriting::Simplified;
use gim_ast::Function;
use pm_io::Inputs;
use pm_items::Items;
use pm_ops::OutOfMemory;
use std::alloc::Global;
use std::slice;

/// How many steps a function may take.
const BUDGET: u32 = 10_000;

/// The words behind `simplify`: the names of the pattern file and of the GIMPLE file.
#[derive(Debug, Drop)]
pub struct Simplify {
    pub patterns: Word,
    pub functions: Word,
}

/// The command that these words spell.
pub fn spelled(alloc: Global, words: &[String]) -> Result<Option<Simplify>, OutOfMemory>
    ensures { IfOk result (λ command. command ≡ simplify_of (map string_bytes words.now)) }
{
    let (positional, options) = cut(words);
    let Some(_none) = settings_in(alloc, &[], options)? else {
        return Ok(None);
    };
    let [patterns, functions] = positional else {
        return Ok(None);
    };
    if !is_name(patterns) || !is_name(functions) {
        return Ok(None);
    }
    let patterns = Word::copy(alloc, patterns)?;
    let functions = Word::copy(alloc, functions)?;
    Ok(Some(Simplify {
        patterns,
        functions,
    }))
}

/// Rewrites the function of one file by the rows of the other.
pub fn answer<I: Inputs>(alloc: Global, inputs: &mut I, command: &Simplify) -> Result<Output, Stop>
    ensures { Answered (simplify_needs command.now) Simplifies (I.state inputs.old) (I.state inputs.new) result }
{
    let patterns = read_patterns(alloc, inputs, command.patterns.as_str())?;
    let function = read_function(alloc, inputs, command.functions.as_str())?;
    rewrite(alloc, &patterns, function)
}

/// The answer to a function under the rows of a pattern file.
fn rewrite(alloc: Global, patterns: &PatternFile, function: Function) -> Result<Output, Stop>
    requires spelled { SpellsFile patterns.now.rows patterns.now.source }
    requires short { length patterns.now.source < 2 ^ 31 }
    requires typed { IsTyped function }
    requires rise { IsTrue (names_rise function) }
    ensures { IsOrMemory (simplified patterns.now function) result }
{
    match rewriting(alloc, patterns, function) {
        Ok(output) => Ok(output),
        Err(_) => Err(Stop::Memory),
    }
}

/// What is written of the function's rewriting.
#[tactic(auto, using(crate::proofs::RowLemmas::rows_within, crate::proofs::RowLemmas::rows_keep_types, crate::proofs::NameLemmas::rise_rewriting), unfolding(crate::specs::Simplify::simplified))]
fn rewriting(
    alloc: Global,
    patterns: &PatternFile,
    function: Function,
) -> Result<Output, OutOfMemory>
    requires spelled { SpellsFile patterns.now.rows patterns.now.source }
    requires short { length patterns.now.source < 2 ^ 31 }
    requires typed { IsTyped function }
    requires rise { IsTrue (names_rise function) }
    ensures { IfOk result (λ output. Ok output ≡ simplified patterns.now function) }
{
    let name = function.name.copy(alloc)?;
    let done = first_rewriting::simplify(alloc, patterns.rows.as_slice(), function, BUDGET)?;
    output(alloc, patterns, name.bytes(), &done)
}

/// What is written of a rewriting of the function of that name.
fn output(
    alloc: Global,
    patterns: &PatternFile,
    name: &[u8],
    done: &Simplified,
) -> Result<Output, OutOfMemory>
    requires within { All (λ row. row.at ≤ length patterns.now.source) patterns.now.rows }
    requires short { length patterns.now.source < 2 ^ 31 }
    requires rise { IsTrue (names_rise done.now.function) }
    ensures { IfOk result (λ output. output ≡ written patterns.now name.now (rewritten done.now)) }
{
    let out = print_one(alloc, &done.function)?;
    let source = patterns.source.as_slice();
    let report = report(alloc, source, patterns.rows.as_slice(), name, done)?;
    Ok(Output {
        exhausted: done.exhausted,
        out,
        report,
    })
}

/// The text of one function.
fn print_one(alloc: Global, function: &Function) -> Result<Items<u8>, OutOfMemory>
    requires { IsTrue (names_rise function.now) }
    ensures { IfOk result (λ out. out ≡ text (function.now ∷ [])) }
{
    let out = gim_printer::print(alloc, slice::from_ref(function))?;
    Ok(Items::from_vec(out))
}
