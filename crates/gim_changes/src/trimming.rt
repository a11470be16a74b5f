//! Trimming: the rows of `names` whose names stand nowhere go.
ghost use Rattle.std.specs.Prelude.{◌≡◌, ◌<◌, remove, length};
ghost use Rattle.gim_changes.specs.Trimming as trimming;
ghost use Rattle.gim_changes.specs.Trimming.{row_stays};

use crate::removal::prune;
use gim_ast::{Function, NameRow};
use pm_items::Items;

/// Removes what is unused, and its rows of `names` with it.
pub fn tidy(function: &mut Function)
    ensures { function.new ≡ trimming.tidied function.old }
{
    prune(function);
    trim(function);
}

/// Keeps only the rows of `names` whose names stand somewhere, and those of anonymous names.
#[tactic(auto, unfolding(crate::specs::Trimming::trimmed))]
pub fn trim(function: &mut Function)
    ensures { function.new ≡ trimming.trimmed function.old }
{
    for i in (0..function.names.len()).rev() {
        if !row_stands(function, function.names.at(i)) {
            remove_row(&mut function.names, i);
        }
    }
}

/// Removes the row at a place.
fn remove_row(rows: &mut Items<NameRow>, at: usize)
    requires { at < length rows.old }
    ensures { rows.new ≡ remove rows.old at }
{
    rows.remove(at);
}

/// Whether a row of `names` is kept.
fn row_stands(function: &Function, row: &NameRow) -> bool
    ensures { result ≡ row_stays function.now row.now }
{
    stands(function, row.version) || row.base.bytes().is_empty()
}

/// Whether a phi or a statement assigns the name, or an operand is it.
fn stands(function: &Function, name: u32) -> bool
    ensures { result ≡ trimming.stands_in function.now name }
{
    function.assigns(name) || function.uses(name)
}
