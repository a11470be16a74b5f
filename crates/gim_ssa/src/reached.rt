//! What is reached from place to place: the supports of names are.
ghost use Rattle.std.specs.Prelude.{◌≡◌, ◌<◌, length, OnOk};
ghost use Rattle.gim_ssa.specs.Search.{remaining, IsBlank};
ghost use Rattle.gim_ssa.specs.Reach.{AreTable, HasReached};

use crate::search::Search;
use pm_items::Items;
use pm_ops::OutOfMemory;

/// Finds all that a place leads to, in one step or more, where `nexts` says what each place leads to at once.
pub fn reach(search: &mut Search, nexts: &[Items<usize>], first: usize) -> Result<(), OutOfMemory>
    requires blank { IsBlank (length nexts.now) search.old }
    requires table { AreTable nexts.now }
    requires within { first < length nexts.now }
    ensures reached { OnOk result (HasReached nexts.now first search.new) }
{
    search.add_all(nexts[first].as_slice())?;
    while let Some(place) = search.take() {
        search.add_all(nexts[place].as_slice())?;
    }
    Ok(())
}
