//! Which changes keep every defined run, by what holds where runs come.
ghost use Rattle.std.specs.Prelude.{◌≡◌, ℕ, false, drop};
ghost use Rattle.std.specs.List.{AllByRecursion};
ghost use Rattle.pm_ops.specs.declared.code.Code.{Code};
ghost use Rattle.pm_wide.specs.declared.operand.Operand.{Operand};
ghost use Rattle.gim_ast.specs.declared.function.Decl.{Decl};
ghost use Rattle.gim_ast.specs.declared.function.Function.{Function};
ghost use Rattle.gim_ast.specs.declared.function.Rhs.{Rhs};
ghost use Rattle.gim_ast.specs.declared.function.Stmt.{Stmt};
ghost use Rattle.gim_ast.specs.Functions.{is_used};
ghost use Rattle.gim_ast.specs.Readable.{uses_in};
ghost use Rattle.gim_ast.specs.WellFormed.{IsWellFormed};
ghost use Rattle.gim_changes.specs.Insertion.{with_stmt, MayBeInserted};
ghost use Rattle.gim_changes.specs.Removal.{without, pruned};
ghost use Rattle.gim_changes.specs.Substitution.{put_in_all, with_rhs, with_condition};
ghost use Rattle.gim_changes.specs.Trimming.{trimmed, tidied};
ghost use Rattle.gim_meaning.specs.KeptRuns.{KeepsDefinedRuns};
ghost use Rattle.gim_meaning.specs.SameReading.{ReadsAlike, GivesAlike, DecidesAlike};
ghost use Rattle.gim_meaning.specs.SameReading.{HasValueThere};

/// A function keeps its own runs, and what two changes keep one after the other, both together
/// keep.
pub fn runs_are_kept_in_a_row()
    ensures itself { (f : Function) → KeepsDefinedRuns f f }
    ensures through { (f g h : Function) → KeepsDefinedRuns f g → KeepsDefinedRuns g h →
        KeepsDefinedRuns f h }
{}

/// Removal of a name that nothing uses, and so of all that is unused, keeps every defined run. A
/// run that was undefined may become defined.
pub fn removal_keeps_runs()
    ensures one { (f : Function) (x : ℕ) → is_used f x ≡ false → KeepsDefinedRuns f (without x f) }
    ensures all { (f : Function) → KeepsDefinedRuns f (pruned f) }
{}

/// So does trimming, and removal with trimming behind it.
pub fn trimming_keeps_runs()
    ensures rows { (f : Function) → KeepsDefinedRuns f (trimmed f) }
    ensures all { (f : Function) → KeepsDefinedRuns f (tidied f) }
{}

/// An operand put for a name keeps every defined run where, at each use of the name, it has the
/// name's word whenever a run comes there.
pub fn substitution_keeps_runs()
    ensures { (f : Function) (x : ℕ) (by : Operand) → IsWellFormed f →
        AllByRecursion (ReadsAlike f x by) (uses_in f) → KeepsDefinedRuns f (put_in_all x by f) }
{}

/// A new right side keeps every defined run where it has the old one's value whenever a run comes
/// to the statement.
pub fn right_side_keeps_runs()
    ensures { (f : Function) (x : ℕ) (rhs : Rhs) → GivesAlike f x rhs →
        KeepsDefinedRuns f (with_rhs x rhs f) }
{}

/// So does a new condition where it holds as the old one does whenever a run comes to the end of
/// the block.
pub fn condition_keeps_runs()
    ensures { (f : Function) (n : ℕ) (code : Code) (a b : Operand) → DecidesAlike f n code a b →
        KeepsDefinedRuns f (with_condition n code a b f) }
{}

/// A statement that may be inserted keeps every defined run where its operation has a value
/// whenever a run comes to its place and goes on from there.
pub fn insertion_keeps_runs()
    ensures { (f : Function) (place before : ℕ) (stmt : Stmt) (decl : Decl)
        (allowed : MayBeInserted f place before stmt decl) → IsWellFormed f →
        HasValueThere f allowed.home (drop before allowed.home.stmts) decl.ty stmt.rhs →
        KeepsDefinedRuns f (with_stmt place before stmt decl f) }
{}
