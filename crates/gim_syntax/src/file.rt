//! The reader of a whole file.

ghost use Rattle.std.specs.Prelude.{◌≡◌, List, ◌≤◌, length, IfOk, IfErr};
ghost use Rattle.grammar.specs.Gives.{GivesInMemory};
ghost use Rattle.grammar.specs.Whole.{StopsFirst};
ghost use Rattle.gim_text.specs.declared.tree.FunctionText.{FunctionText};
ghost use Rattle.gim_syntax.specs.Grammar.{SpellsFile};
ghost use Rattle.grammar.specs.Reading.{first_is};
ghost use Rattle.gim_syntax.specs.Readers.{any_token, file_at};

use crate::function::take_function;
use gim_text::{FunctionText, Token, TokenStop};
use grammar::whole_in_memory;
use pm_items::Items;
use std::alloc::Global;

/// Whether a token is left.
fn begins_function(tokens: &[Token]) -> bool
    ensures { result ≡ first_is any_token tokens.now }
{
    match tokens {
        [_, ..] => true,
        [] => false,
    }
}

/// Functions, as long as a token is left.
fn read_functions(
    alloc: Global,
    tokens: &[Token],
) -> Result<(Items<FunctionText>, &[Token]), TokenStop<'_>>
    ensures reads { GivesInMemory (λ x. (x.0, x.1.now)) result (file_at tokens.now) }
    ensures no_longer { IfOk result (λ x. length x.1.now ≤ length tokens.now) }
{
    let mut functions = Items::new(alloc);
    let mut rest = tokens;
    while begins_function(rest) {
        rest = take_function(alloc, &mut functions, rest)?;
    }
    Ok((functions, rest))
}

/// The functions that the tokens of a file spell, all of them.
pub fn parse(alloc: Global, tokens: &[Token]) -> Result<Items<FunctionText>, TokenStop<'_>>
    // What is read is spelled so.
    ensures found { IfOk result (λ x. SpellsFile x tokens.now) }
    // What is spelled so is read, unless memory runs out.
    ensures only { (x : List FunctionText) → SpellsFile x tokens.now → GivesInMemory (λ y. y) result (Ok x) }
    // A fault is the first.
    ensures fault { IfErr result (StopsFirst SpellsFile tokens.now) }
{
    whole_in_memory(read_functions(alloc, tokens), ())
}
