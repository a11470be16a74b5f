//! What functions without a fault of limits keep.

ghost use Rattle.std.specs.Prelude.{◌≡◌, ◌≤◌, ℕ, true, List, None, length};
ghost use Rattle.std.specs.List.{AllByRecursion, list_all};
ghost use Rattle.gim_ast.specs.WellFormed.{same_text, all_distinct};
ghost use Rattle.gim_text.specs.declared.tree.FunctionText.{FunctionText};
ghost use Rattle.gim_shape.specs.Blocks.{is_among};
ghost use Rattle.gim_limits.specs.Limits.{different, limits_fault};
ghost use Rattle.gim_limits.specs.KeepsLimits.{KeepsLimits};

/// Functions without a fault of limits have no more blocks and names than the limits allow, and no
/// version or block number that is too large.
pub fn limits_are_kept()
    ensures { (source : List ℕ) (functions : List FunctionText) →
        limits_fault source functions ≡ None → AllByRecursion (KeepsLimits source) functions }
{}

/// No more texts, of which no two are the same, can be chosen from a list than it is said to have
/// different ones.
pub fn different_texts_are_counted()
    ensures { (texts chosen : List (List ℕ)) → all_distinct same_text chosen ≡ true →
        list_all (is_among texts) chosen ≡ true → length chosen ≤ different texts }
{}
