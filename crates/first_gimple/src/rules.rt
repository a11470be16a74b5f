//! The rules on identifiers and default definitions.

ghost use Rattle.std.specs.Prelude.{◌≡◌, ◌&&◌, List, ℕ, true, false, IfOk, MatchOption, map};
ghost use Rattle.std.specs.List.{list_all, list_any};
ghost use Rattle.std.specs.HashSet.{contains_by};
ghost use Rattle.std.specs.Str.{bytes_eq};
ghost use Rattle.gim_ast.specs.Identifiers.{is_identifier};
ghost use Rattle.gim_ast.specs.WellFormed.{same_text, all_distinct, initial_bases};
ghost use Rattle.first_gimple.specs.Rules.{is_param};
ghost use Rattle.first_gimple.specs.Tests.{defaults_hold};

use crate::draft::Draft;
use crate::identifiers::{are_params, is_identifier};
use gim_ast::NameRow;
use pm_ops::{OutOfMemory, Text};
use std::alloc::Global;
use std::collections::HashSet;

/// Whether the function and its parameters have identifiers.
pub(crate) fn identifiers_hold(draft: &Draft) -> bool
    ensures { result ≡ (is_identifier draft.now.name && list_all is_param draft.now.params) }
{
    is_identifier(draft.name.bytes()) && are_params(draft.params.as_slice())
}

/// The texts as a set, unless one of them comes again.
pub(crate) fn distinct_texts<'a>(
    alloc: Global,
    texts: &'a [Text],
) -> Result<Option<HashSet<&'a [u8]>>, OutOfMemory>
    ensures { IfOk result (λ found. MatchOption found (all_distinct same_text texts.now ≡ false) (λ set. (all_distinct same_text texts.now ≡ true) × ((q : List ℕ) → contains_by (λ k. bytes_eq q k.now) set ≡ list_any (same_text q) texts.now))) }
{
    let mut set = HashSet::new(alloc);
    let mut at = texts.len();
    while at > 0 {
        at -= 1;
        if !set.insert(texts[at].bytes())? {
            return Ok(None);
        }
    }
    Ok(Some(set))
}

/// The bases of the default definitions.
fn initial_bases(alloc: Global, names: &[NameRow]) -> Result<Vec<Text>, OutOfMemory>
    ensures { IfOk result (λ bases. bases.items ≡ initial_bases names.now) }
{
    let mut bases = Vec::new(alloc);
    for row in names {
        if row.initial {
            bases.push(row.base.copy(alloc)?)?;
        }
    }
    Ok(bases)
}

/// Whether each text is in the set.
fn are_among(set: &HashSet<&[u8]>, texts: &[Text]) -> bool
    ensures { (known : List (List ℕ)) → ((q : List ℕ) → contains_by (λ k. bytes_eq q k.now) set.now ≡ list_any (same_text q) known) → result ≡ list_all (λ text. list_any (same_text text) known) texts.now }
{
    for text in texts {
        let bytes = text.bytes();
        if !(&*set).contains(&bytes) {
            return false;
        }
    }
    true
}

/// Whether each default definition is that of a parameter, and each parameter has one at most.
pub(crate) fn defaults_hold(
    alloc: Global,
    params: &HashSet<&[u8]>,
    names: &[NameRow],
) -> Result<bool, OutOfMemory>
    ensures { (known : List (List ℕ)) → ((q : List ℕ) → contains_by (λ k. bytes_eq q k.now) params.now ≡ list_any (same_text q) known) → IfOk result (λ holds. holds ≡ defaults_hold known names.now) }
{
    let bases = initial_bases(alloc, names)?;
    let known = are_among(params, bases.as_slice());
    Ok(known && distinct_texts(alloc, bases.as_slice())?.is_some())
}
