//! A counter of tests.
ghost use Rattle.std.specs.Prelude.{◌≡◌};
ghost use Rattle.pattern_rows.specs.Counting.{ticked};

use std::marker::Model;

/// What a counter of tests is opened with. It has no calls: only who has a type of this kind can
/// make a counter.
pub trait Ledger {}

/// A counter of tests, which stands still at 2 ^ 64 - 1. Contracts see the count.
#[derive(Drop)]
pub struct Steps<L> {
    ledger: L,
    made: u64,
}

impl<L> Model for Steps<L> {
    ghost use Rattle.std.specs.Prelude.{ℕ};

    ghost Value = { ℕ };

    ghost view = { λ steps. steps.made };
}

impl<L: Ledger> Steps<L> {
    /// A counter at 0, which keeps the ledger. Takes no memory.
    pub fn new(ledger: L) -> Steps<L>
        ensures { result ≡ 0 }
    {
        Steps { ledger, made: 0 }
    }
}

impl<L> Steps<L> {
    /// Counts one more test.
    pub fn tick(&mut self)
        ensures { self.new ≡ ticked self.old }
    {
        self.made = self.made.saturating_add(1);
    }

    /// How many tests were counted.
    pub fn made(&self) -> u64
        ensures { result ≡ self.now }
    {
        self.made
    }
}
