//! Laws of the rewriting. Each call here does nothing: its contract is a law, which its check
//! proves.
ghost use Rattle.std.specs.Prelude.{◌≡◌, ◌≤◌, ℕ, Bool, true, false, List, Option, None};
ghost use Rattle.std.specs.Prelude.{Some, IsSome, Contains, length, slice_get};
ghost use Rattle.pm_wide.specs.declared.operand.Operand.{Operand};
ghost use Rattle.gim_ast.specs.declared.function.Function.{Function};
ghost use Rattle.gim_ast.specs.declared.function.Rhs.{Rhs};
ghost use Rattle.gim_changes.specs.Trimming.{tidied};
ghost use Rattle.first_patterns.specs.Subjects.{Subject, View, subjects, view_of};
ghost use Rattle.first_rewriting.specs.Rewriting.{Choice, Firing, choice_at};
ghost use Rattle.first_rewriting.specs.Rewriting.{first_choice, rewriting_of, stepped};
ghost use Rattle.gim_ast.specs.WellFormed.{IsWellFormed};
ghost use Rattle.first_patterns.specs.declared.row.Row.{Row};
ghost use Rattle.first_patterns.specs.Matching.{result_of, row_at};
ghost use Rattle.first_rewriting.specs.Reaches.{Reaches};
ghost use Rattle.first_rewriting.specs.Rows.{AppliesFirst};
ghost use Rattle.first_rewriting.specs.Typed.{IsTyped, KeepTypes};

/// The chosen row applies, and no row before it does; where none is chosen, none applies.
pub fn chosen_row_is_the_first()
    ensures found { (rows : List Row) (view : View) (s : Subject) (n : ℕ) (operand : Operand) →
        row_at rows view s ≡ Some (n, operand) → AppliesFirst rows s.rhs n operand }
    ensures only { (rows : List Row) (view : View) (s : Subject) (n : ℕ) (operand : Operand) →
        AppliesFirst rows s.rhs n operand → row_at rows view s ≡ Some (n, operand) }
    ensures none { (rows : List Row) (view : View) (s : Subject) (k : ℕ) (row : Row) →
        row_at rows view s ≡ None → slice_get rows k ≡ Some row → result_of row s.rhs ≡ None }
{}

/// Where the rewriting isn't exhausted, no subject of its function has a choice. Where it is, one
/// has.
pub fn rewriting_goes_to_the_end()
    ensures ended { (rows : List Row) (budget : ℕ) (f : Function) (s : Subject) →
        (rewriting_of (row_at rows) budget f).exhausted ≡ false →
        Contains (subjects (rewriting_of (row_at rows) budget f).function) s →
        choice_at (row_at rows) (view_of (rewriting_of (row_at rows) budget f).function) s ≡ None }
    ensures exhausted { (rows : List Row) (budget : ℕ) (f : Function) →
        (rewriting_of (row_at rows) budget f).exhausted ≡ true →
        IsSome (first_choice (row_at rows) (rewriting_of (row_at rows) budget f).function) }
{}

/// There is a firing for each step: at most as many as the budget, and just as many where the
/// rewriting is exhausted.
pub fn firings_keep_the_budget()
    ensures within { (rows : List Row) (budget : ℕ) (f : Function) →
        length (rewriting_of (row_at rows) budget f).firings ≤ budget }
    ensures spent { (rows : List Row) (budget : ℕ) (f : Function) →
        (rewriting_of (row_at rows) budget f).exhausted ≡ true →
        length (rewriting_of (row_at rows) budget f).firings ≡ budget }
{}

/// The rewriting is what the function without what is unused comes to by steps, and nothing else
/// is.
pub fn rewriting_is_by_steps()
    ensures reaches { (rows : List Row) (budget : ℕ) (f : Function) →
        Reaches (row_at rows) budget (tidied f) (rewriting_of (row_at rows) budget f).function
        (rewriting_of (row_at rows) budget f).firings
        (rewriting_of (row_at rows) budget f).exhausted }
    ensures only { (rows : List Row) (budget : ℕ) (f end : Function) (firings : List Firing)
        (exhausted : Bool) → Reaches (row_at rows) budget (tidied f) end firings exhausted →
        record { function = end; firings = firings; exhausted = exhausted } ≡
        rewriting_of (row_at rows) budget f }
{}

/// A well-formed function may be rewritten: it is typed.
pub fn well_formed_is_typed()
    ensures { (f : Function) → IsWellFormed f → IsTyped f }
{}

/// Removal keeps a function well typed.
pub fn removal_keeps_types()
    ensures { (f : Function) → IsTyped f → IsTyped (tidied f) }
{}

/// A step keeps a function well typed.
pub fn steps_keep_types()
    ensures { (rows : List Row) (f : Function) (found : Subject × Choice) → KeepTypes rows →
        IsTyped f → first_choice (row_at rows) f ≡ Some found →
        IsTyped (stepped (row_at rows) f found) }
{}
