//! The places of numbers in a list, and whether names are default definitions, as tables.
ghost use Rattle.std.specs.Prelude.{◌≡◌, ℕ, IfOk};
ghost use Rattle.std.specs.List.{filter_map};
ghost use Rattle.gim_ssa.specs.Places.{place_of, place_in, tells_initial, initial_among};

use gim_ast::NameRow;
use pm_items::Items;
use pm_ops::OutOfMemory;
use std::alloc::Global;
use std::collections::HashMap;

/// For each number of a list the place where it stands first.
#[derive(Drop)]
pub struct Places {
    table: HashMap<u32, usize>,
}

impl Places {
    /// The table of a list.
    pub fn new(alloc: Global, numbers: &[u32]) -> Result<Places, OutOfMemory>
        ensures { IfOk result (λ places. (q : ℕ) → place_in places q ≡ place_of numbers.now q) }
    {
        let mut table = HashMap::new(alloc);
        for at in (0..numbers.len()).rev() {
            table.insert(numbers[at], at)?;
        }
        Ok(Places { table })
    }

    /// The place of a number, if it is in the list.
    pub fn of(&self, number: u32) -> Option<usize>
        ensures { result ≡ place_in self.now number }
    {
        self.table.get(&number).copied()
    }

    /// The places of those of the numbers that are in the list.
    pub fn of_all(&self, alloc: Global, numbers: &[u32]) -> Result<Items<usize>, OutOfMemory>
        ensures { IfOk result (λ found. found ≡ filter_map (place_in self.now) numbers.now) }
    {
        let mut found = Items::new(alloc);
        for number in numbers {
            if let Some(place) = self.of(*number) {
                found.push(place)?;
            }
        }
        Ok(found)
    }
}

/// Which names are default definitions.
#[derive(Drop)]
pub struct Initials {
    table: HashMap<u32, bool>,
}

impl Initials {
    /// The table of a list.
    pub fn new(alloc: Global, rows: &[NameRow]) -> Result<Initials, OutOfMemory>
        ensures { IfOk result (λ initials. (q : ℕ) → tells_initial initials q ≡ initial_among rows.now q) }
    {
        let mut table = HashMap::new(alloc);
        for at in (0..rows.len()).rev() {
            let row = &rows[at];
            table.insert(row.version, row.initial)?;
        }
        Ok(Initials { table })
    }

    /// Whether the name is a default definition.
    pub fn has(&self, name: u32) -> bool
        ensures { result ≡ tells_initial self.now name }
    {
        self.table.get(&name).copied().unwrap_or(false)
    }
}
