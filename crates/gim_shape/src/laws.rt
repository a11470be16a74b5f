//! What functions without a fault of shape keep.

ghost use Rattle.std.specs.Prelude.{◌≡◌, ℕ, List, None};
ghost use Rattle.std.specs.List.{AllByRecursion};
ghost use Rattle.gim_text.specs.declared.tree.FunctionText.{FunctionText};
ghost use Rattle.gim_shape.specs.Shape.{shape_fault};
ghost use Rattle.gim_shape.specs.HasShape.{HasShape};

/// Functions without a fault of shape have an entry without phis; each block has an end, jumps that
/// lead to blocks, and phis before its statements, each with exactly one argument for each block
/// that jumps to it.
pub fn shape_is_kept()
    ensures { (source : List ℕ) (functions : List FunctionText) →
        shape_fault source functions ≡ None → AllByRecursion (HasShape source) functions }
{}
