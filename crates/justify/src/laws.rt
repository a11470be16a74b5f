//! What a justification means, for every two terms. The function does nothing: its contract is the
//! law.
ghost use Rattle.std.specs.Prelude.{Some};
ghost use Rattle.pm_term.specs.Refines.{Refines};
ghost use Rattle.pm_term.specs.Trees.{Tree, IsWellTyped};
ghost use Rattle.justify.specs.Methods.{IsMethod};
ghost use Rattle.justify.specs.declared.method.Method.{Method};

/// Where a method holds, the right side has the value and the type of the left one wherever that has
/// a value, and adds no undefined operation.
pub fn what_is_justified_refines()
    ensures { (left right : Tree) (m : Method) → IsWellTyped left → IsWellTyped right →
        IsMethod left right (Some m) → Refines left right }
{}
