//! What holds of pattern files of the first form. A call here does nothing: its contract is a law,
//! which its check proves.
ghost use Rattle.std.specs.Prelude.{◌≡◌, ℕ, List};
ghost use Rattle.first_patterns.specs.declared.row.Row.{Row};
ghost use Rattle.first_patterns.specs.FirstForm.{SpellsFile};

/// A file spells one list of rows at most.
pub fn rows_are_one()
    ensures { (source : List ℕ) (a b : List Row) → SpellsFile a source → SpellsFile b source → a ≡ b }
{}
