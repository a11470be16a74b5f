//! Two terms of few names, under all words of these.
ghost use Rattle.std.specs.Prelude.{◌≡◌, ◌↔◌, ◌≤◌, ◌<◌, ◌^◌, ◌/◌, ℕ, Some, IsTrue, IfOk};
ghost use Rattle.std.specs.Bool.{MatchBool};
ghost use Rattle.pm_term.specs.Environments.{assigned, HasNames};
ghost use Rattle.pm_term.specs.Terms.{term_value};
ghost use Rattle.justify.specs.Enumeration.{AreEnumerated};
ghost use Rattle.justify.specs.Choices.{chosen, HoldsAt, FailsAt, AreNamed};

use crate::names::{bits_of, names_of_both};
use pm_items::Items;
use pm_ops::OutOfMemory;
use pm_term::{Env, Typed};
use pm_wide::{IntType, Wide};
use std::alloc::Global;

/// Whether the names of two terms have at most 12 bits together, and whichever words they have: where
/// the first term has a value, the second has it too, and so has each of its nodes.
pub(crate) fn are_enumerated(
    alloc: Global,
    left: &Typed,
    right: &Typed,
) -> Result<bool, OutOfMemory>
    ensures { IfOk result (λ b. IsTrue b ↔ AreEnumerated left.now right.now) }
{
    let _left_typed = left.term();
    let _right_typed = right.term();
    let names = names_of_both(alloc, left, right)?;
    let bits = bits_of(names.as_slice());
    if bits > 12 {
        return Ok(false);
    }
    holds_everywhere(alloc, left, right, names.as_slice(), bits)
}

/// Whether that is so under all words of these names, which have so many bits together.
fn holds_everywhere(
    alloc: Global,
    left: &Typed,
    right: &Typed,
    names: &[(u32, IntType)],
    bits: usize,
) -> Result<bool, OutOfMemory>
    requires few { bits ≤ 12 }
    requires named { AreNamed names.now left.now right.now }
    ensures { IfOk result (λ b. MatchBool b
        ((choice : ℕ) → choice < 2 ^ bits → HoldsAt left.now right.now (chosen names.now choice))
        ((choice : ℕ) × FailsAt left.now right.now (chosen names.now choice))) }
{
    let choices: u32 = 1 << bits;
    for choice in 0..choices {
        let env = words_of(alloc, names, u128::from(choice))?;
        if !holds_at(left, right, &env) {
            return Ok(false);
        }
    }
    Ok(true)
}

/// Whether that is so where names have these words.
fn holds_at(left: &Typed, right: &Typed, env: &Env) -> bool
    requires left { HasNames env.now.words left.now }
    requires right { HasNames env.now.words right.now }
    ensures { MatchBool result
        (HoldsAt left.now right.now env.now.words)
        (FailsAt left.now right.now env.now.words) }
{
    match left.value(env) {
        Ok(word) => has_value(right, env, word),
        Err(_) => true,
    }
}

/// Whether a term has that value.
fn has_value(term: &Typed, env: &Env, word: Wide) -> bool
    requires { HasNames env.now.words term.now }
    ensures { IsTrue result ↔ (term_value (assigned env.now.words) term.now ≡ Some word) }
{
    match term.value(env) {
        Ok(value) => value == word,
        Err(_) => false,
    }
}

/// The words of these names that a number chooses, the lowest bits for the first name.
fn words_of(alloc: Global, names: &[(u32, IntType)], choice: u128) -> Result<Env, OutOfMemory>
    ensures { IfOk result (λ env. env.words ≡ chosen names.now choice) }
{
    let mut words = Items::new(alloc);
    let mut rest = choice;
    for (version, ty) in names {
        words.push((*version, Wide::reduce(rest, *ty)))?;
        rest = without_lowest(rest, *ty);
    }
    Ok(Env { words })
}

/// What is left of a number without its lowest bits, as many as the type has.
fn without_lowest(number: u128, ty: IntType) -> u128
    ensures { result ≡ number / 2 ^ ty.width }
{
    if ty.bits() < 128 {
        number >> ty.bits()
    } else {
        0
    }
}
