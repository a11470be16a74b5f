//! What holds of scans. Each call here does nothing: its contract is a law, which its check proves.
ghost use Rattle.std.specs.Prelude.{◌≡◌, ℕ, suc, ◌<◌, Bool, Some, None, Option, List, slice_get};
ghost use Rattle.pm_wide.specs.declared.operand.Operand.{Operand};
ghost use Rattle.pattern_rows.specs.declared.row.Place.{Place};
ghost use Rattle.pattern_rows.specs.declared.row.ProbeAt.{ProbeAt};
ghost use Rattle.pattern_rows.specs.declared.row.TestRow.{TestRow};
ghost use Rattle.pattern_rows.specs.declared.caps.Caps.{Caps};
ghost use Rattle.pattern_rows.specs.Found.{found};
ghost use Rattle.tree_matcher.specs.Scanning.{scanned, passed_by, IsLeast};

/// A scan finds the least row that holds above a number, and where it finds none, no row above the
/// number holds.
pub fn scans_find_the_least()
    ensures least { (holds : ProbeAt → Bool) (operand_at : Place → Option Operand)
        (rows : List TestRow) (after : Option ℕ) (number : ℕ) (caps : Caps) →
        scanned holds operand_at rows after ≡ Some (number, caps) →
        IsLeast holds operand_at rows (passed_by after) number caps }
    ensures none { (holds : ProbeAt → Bool) (operand_at : Place → Option Operand)
        (rows : List TestRow) (after : Option ℕ) →
        scanned holds operand_at rows after ≡ None →
        (place : ℕ) (row : TestRow) → passed_by after < suc place →
        slice_get rows place ≡ Some row → found holds operand_at row ≡ None }
{}
