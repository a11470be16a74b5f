//! The names of a function, by rising version.

ghost use Rattle.std.specs.Prelude.{◌≡◌, ℕ, ◌++◌, IfOk, OnOk};
ghost use Rattle.std.specs.BTreeMap as tree;
ghost use Rattle.std.specs.List.{flat_map};
ghost use Rattle.std.specs.Option.{option_or};
ghost use Rattle.std.specs.Ordering.{nat_cmp};
ghost use Rattle.gim_making.specs.Names.{AreNames, first_of, rows_of_place};

use crate::places::NamePlace;
use gim_ast::NameRow;
use gim_text::name_parts;
use gim_typing::{Scope, number};
use pm_items::Items;
use pm_ops::{OutOfMemory, Text};
use pm_places::text;
use std::alloc::Global;
use std::collections::BTreeMap;

/// Puts the row of a name into the table, unless its version has one.
fn put_row(
    alloc: Global,
    rows: &mut BTreeMap<u32, NameRow>,
    scope: &Scope,
    place: &NamePlace,
) -> Result<(), OutOfMemory>
    ensures { OnOk result ((v : ℕ) → tree.get nat_cmp rows.new v ≡
        option_or (tree.get nat_cmp rows.old v) (first_of v (rows_of_place scope.now place.now))) }
{
    if let Some((base, digits)) = name_parts(text(scope.source(), place.at)) {
        let version = number(digits);
        if !rows.contains_key(&version) {
            let row = NameRow {
                version,
                base: Text::new(alloc, base)?,
                ty: scope.type_of_name(place.at),
                initial: place.initial,
            };
            rows.insert(version, row)?;
        }
    }
    Ok(())
}

/// The row of each version where it first stands.
fn gather(
    alloc: Global,
    scope: &Scope,
    places: &[NamePlace],
) -> Result<BTreeMap<u32, NameRow>, OutOfMemory>
    ensures { IfOk result (λ rows. (v : ℕ) →
        tree.get nat_cmp rows v ≡ first_of v (flat_map (rows_of_place scope.now) places.now)) }
{
    let mut rows = BTreeMap::new(alloc);
    for place in places {
        put_row(alloc, &mut rows, scope, place)?;
    }
    Ok(rows)
}

/// The rows of a table by rising version.
fn in_order(alloc: Global, rows: BTreeMap<u32, NameRow>) -> Result<Items<NameRow>, OutOfMemory>
    ensures list { IfOk result (λ names. names ≡ tree.values rows) }
    ensures ordered { tree.IsOrdered nat_cmp rows }
{
    let mut names = Items::with_capacity(alloc, rows.len())?;
    for row in rows.into_values() {
        names.push(row)?;
    }
    Ok(names)
}

/// The names that stand at these places.
pub(crate) fn names(
    alloc: Global,
    scope: &Scope,
    places: &[NamePlace],
) -> Result<Items<NameRow>, OutOfMemory>
    ensures { IfOk result (AreNames (flat_map (rows_of_place scope.now) places.now)) }
{
    let rows = gather(alloc, scope, places)?;
    in_order(alloc, rows)
}
