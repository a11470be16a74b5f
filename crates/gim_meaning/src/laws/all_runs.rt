//! Which changes keep every run, also where it is undefined.
ghost use Rattle.std.specs.Prelude.{◌≡◌, ℕ, false};
ghost use Rattle.std.specs.List.{AllByRecursion};
ghost use Rattle.pm_wide.specs.declared.operand.Operand.{Operand};
ghost use Rattle.gim_ast.specs.declared.function.Function.{Function};
ghost use Rattle.gim_ast.specs.Functions.{is_used};
ghost use Rattle.gim_ast.specs.Readable.{uses_in};
ghost use Rattle.gim_ast.specs.WellFormed.{IsWellFormed};
ghost use Rattle.gim_changes.specs.Removal.{without};
ghost use Rattle.gim_changes.specs.Substitution.{put_in_all};
ghost use Rattle.gim_changes.specs.Trimming.{trimmed};
ghost use Rattle.gim_meaning.specs.AllRuns.{KeepsAllRuns, IsNeverStuckAt};
ghost use Rattle.gim_meaning.specs.KeptRuns.{KeepsDefinedRuns};
ghost use Rattle.gim_meaning.specs.SameReading.{ReadsAlike, AlwaysReadsAlike};

/// A function keeps its own runs, and what two changes keep one after the other, both together
/// keep. What keeps every run keeps every defined run.
pub fn all_runs_are_kept_in_a_row()
    ensures itself { (f : Function) → KeepsAllRuns f f }
    ensures through { (f g h : Function) → KeepsAllRuns f g → KeepsAllRuns g h →
        KeepsAllRuns f h }
    ensures defined { (f g : Function) → KeepsAllRuns f g → KeepsDefinedRuns f g }
{}

/// An operand put for a name keeps every run where, at each use of the name, it has the name's word
/// whenever a run comes there, or whatever words names may have there.
pub fn substitution_keeps_all_runs()
    ensures reached { (f : Function) (x : ℕ) (by : Operand) → IsWellFormed f →
        AllByRecursion (ReadsAlike f x by) (uses_in f) → KeepsAllRuns f (put_in_all x by f) }
    ensures always { (f : Function) (x : ℕ) (by : Operand) → IsWellFormed f →
        AllByRecursion (AlwaysReadsAlike f x by) (uses_in f) → KeepsAllRuns f (put_in_all x by f) }
{}

/// Removal of a name that nothing uses keeps every run where no run is undefined at the name.
pub fn removal_keeps_all_runs()
    ensures { (f : Function) (x : ℕ) → is_used f x ≡ false → IsNeverStuckAt f x →
        KeepsAllRuns f (without x f) }
{}

/// So does trimming.
pub fn trimming_keeps_all_runs()
    ensures { (f : Function) → KeepsAllRuns f (trimmed f) }
{}
