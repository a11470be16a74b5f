//! A phi of one operand goes, and the function stays valid and runs as before.
ghost use Rattle.std.specs.Prelude.{◌≡◌, ℕ, Some};
ghost use Rattle.pm_wide.specs.declared.operand.Operand.{Operand};
ghost use Rattle.gim_ast.specs.declared.function.Function.{Function};
ghost use Rattle.gim_ast.specs.Readable.{IsValid};
ghost use Rattle.gim_changes.specs.Trimming.{trimmed};
ghost use Rattle.gim_meaning.specs.KeptRuns.{KeepsDefinedRuns};
ghost use Rattle.cfg_tidy.specs.Phis.{first_copy, replaced};
ghost use Rattle.cfg_tidy.specs.SameRuns.{RunAlike};
ghost use Rattle.cfg_tidy.specs.Tidying.{AllReached};

/// In a valid function whose blocks are all reached the first phi that has one operand can go, that operand put for
/// its name.
pub fn phi_keeps_validity()
    ensures { (f : Function) (x : ℕ) (by : Operand) → IsValid f → AllReached f.blocks f.blocks →
        first_copy f.blocks ≡ Some (x, by) → IsValid (trimmed (replaced x by f)) }
{}

/// That leaves each run as it is: on all arguments, with each fuel, also where it is undefined.
pub fn phi_keeps_runs()
    ensures { (f : Function) (x : ℕ) (by : Operand) → IsValid f → AllReached f.blocks f.blocks →
        first_copy f.blocks ≡ Some (x, by) → RunAlike f (replaced x by f) }
{}

/// So it keeps every defined run.
pub fn phi_keeps_defined_runs()
    ensures { (f : Function) (x : ℕ) (by : Operand) → IsValid f → AllReached f.blocks f.blocks →
        first_copy f.blocks ≡ Some (x, by) → KeepsDefinedRuns f (trimmed (replaced x by f)) }
{}
