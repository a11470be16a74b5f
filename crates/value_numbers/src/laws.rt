//! What holds of value numbering. Each call does nothing: its contract is a law, which its check
//! proves.
ghost use Rattle.std.specs.Prelude.{◌≡◌, ℕ, List};
ghost use Rattle.gim_ast.specs.Readable.{IsValid};
ghost use Rattle.gim_ast.specs.declared.function.Function.{Function};
ghost use Rattle.gim_meaning.specs.AllRuns.{KeepsAllRuns};
ghost use Rattle.gim_meaning.specs.KeptRuns.{KeepsDefinedRuns};
ghost use Rattle.value_numbers.specs.Merges.{IsMerge, Numbers, merged};

/// The merges of a function, and the function that they leave, are determined.
pub fn merges_are_determined()
    ensures { (f g h : Function) (merges others : List (ℕ × ℕ)) → Numbers f merges g →
        Numbers f others h → (merges ≡ others) × (g ≡ h) }
{}

/// One merge keeps a function valid, and keeps every run, undefined ones too.
pub fn a_merge_keeps_validity_and_runs()
    ensures valid { (f : Function) (x y : ℕ) → IsValid f → IsMerge f x y → IsValid (merged x y f) }
    ensures runs { (f : Function) (x y : ℕ) → IsValid f → IsMerge f x y →
        KeepsDefinedRuns f (merged x y f) }
    ensures all { (f : Function) (x y : ℕ) → IsValid f → IsMerge f x y →
        KeepsAllRuns f (merged x y f) }
{}
