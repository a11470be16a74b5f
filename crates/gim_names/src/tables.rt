//! Tables of texts of the source.

ghost use Rattle.std.specs.Prelude.{◌≡◌, ℕ, List, option_map, OnOk, true};
ghost use Rattle.std.specs.List.{cons_option};
ghost use Rattle.gim_names.specs.Rules.{stands, differs};
ghost use Rattle.gim_names.specs.Tables.{HasTexts, HasPairs, have_one_each};

use pm_ops::OutOfMemory;
use std::collections::{HashMap, HashSet};

/// Whether the text is there, and in the set.
pub(crate) fn stands(set: &HashSet<&[u8]>, text: Option<&[u8]>) -> bool
    ensures { (texts : List (List ℕ)) → HasTexts set.now texts →
        result ≡ stands (option_map (λ t. t.now) text.entry) texts }
{
    match text {
        Some(text) => set.contains(&text),
        None => false,
    }
}

/// Puts the text into the set, if it is there.
pub(crate) fn put<'a>(
    set: &mut HashSet<&'a [u8]>,
    text: Option<&'a [u8]>,
) -> Result<(), OutOfMemory>
    ensures { (texts : List (List ℕ)) → HasTexts set.old texts →
        OnOk result (HasTexts set.new (cons_option (option_map (λ t. t.now) text.entry) texts)) }
{
    if let Some(text) = text {
        set.insert(text)?;
    }
    Ok(())
}

/// Whether the map has the first part of the pair with another second part.
fn has_other(map: &HashMap<&[u8], &[u8]>, key: &[u8], value: &[u8]) -> bool
    ensures { (pairs : List (List ℕ × List ℕ)) → HasPairs map.now pairs →
        have_one_each pairs ≡ true → result ≡ differs (Some (key.now, value.now)) pairs }
{
    match map.get(&key) {
        Some(found) => *found != value,
        None => false,
    }
}

/// Whether the pair is there, and the map has its first part with another second part.
pub(crate) fn differs(map: &HashMap<&[u8], &[u8]>, pair: Option<(&[u8], &[u8])>) -> bool
    ensures { (pairs : List (List ℕ × List ℕ)) → HasPairs map.now pairs →
        have_one_each pairs ≡ true →
        result ≡ differs (option_map (λ p. (p.0.now, p.1.now)) pair.entry) pairs }
{
    match pair {
        Some((key, value)) => has_other(map, key, value),
        None => false,
    }
}

/// Puts the pair into the map, if it is there.
pub(crate) fn put_pair<'a>(
    map: &mut HashMap<&'a [u8], &'a [u8]>,
    pair: Option<(&'a [u8], &'a [u8])>,
) -> Result<(), OutOfMemory>
    ensures { (pairs : List (List ℕ × List ℕ)) → HasPairs map.old pairs →
        OnOk result (HasPairs map.new
        (cons_option (option_map (λ p. (p.0.now, p.1.now)) pair.entry) pairs)) }
{
    if let Some((key, value)) = pair {
        map.insert(key, value)?;
    }
    Ok(())
}
