//! What stands at the places of a function that were gone through.

ghost use Rattle.std.specs.Prelude.{◌≤◌};
ghost use Rattle.gim_text.specs.declared.limits.TheConstants.{BLOCK_LIMIT, NAME_LIMIT};

use std::collections::HashSet;

/// The names and blocks at the places of a function so far.
#[derive(Drop)]
pub struct Seen<'a> {
    /// The versions of names.
    pub(crate) versions: HashSet<&'a [u8]>,
    /// How many names there are; they are told apart by their versions.
    pub(crate) names: usize,
    /// How many blocks there are.
    pub(crate) blocks: usize,
    ghost names_in_range: { names ≤ NAME_LIMIT },
    ghost blocks_in_range: { blocks ≤ BLOCK_LIMIT },
}
