//! What equality under all words implies, for every term. The function does nothing: its contract is
//! the law.
ghost use Rattle.std.specs.Prelude.{◌≡◌, ℕ, Some};
ghost use Rattle.pm_wide.specs.Types.{Ty, Word};
ghost use Rattle.pm_term.specs.Environments.{GivesWords};
ghost use Rattle.pm_term.specs.Terms.{term_value};
ghost use Rattle.pm_term.specs.Trees.{Tree, IsWellTyped};
ghost use Rattle.bit_tables.specs.TableEqual.{AreTableEqual};

/// Table-equal terms have one word wherever both have a value.
pub fn equal_tables_give_equal_words()
    ensures { (words : ℕ → Ty → Word) (left right : Tree) (r s : Word) →
        GivesWords words → IsWellTyped left → IsWellTyped right → AreTableEqual left right →
        term_value words left ≡ Some r → term_value words right ≡ Some s → r ≡ s }
{}
