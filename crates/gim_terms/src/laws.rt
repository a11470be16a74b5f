//! What holds of matching. Each call here does nothing: its contract is a law, which its check proves.
ghost use Rattle.std.specs.Prelude.{◌≡◌, IsTrue};
ghost use Rattle.pattern_rows.specs.Patterns.{Pattern, is_expanded};
ghost use Rattle.pattern_rows.specs.TestRows.{test_row_of};
ghost use Rattle.pattern_rows.specs.Found.{found};
ghost use Rattle.gim_terms.specs.Views.{View};
ghost use Rattle.gim_terms.specs.Targets.{Target};
ghost use Rattle.gim_terms.specs.Reached.{holds_at, operand_at};
ghost use Rattle.gim_terms.specs.Matching.{matched};

/// A pattern without choices matches a target exactly where all tests of its row hold there and each
/// of its captures has an operand, and the captures stand for these operands.
pub fn matched_by_tests()
    ensures { (view : View) (p : Pattern) (target : Target) → IsTrue (is_expanded p) →
        matched view p target ≡
        found (holds_at view target.on) (operand_at view target.on) (test_row_of p) }
{}
