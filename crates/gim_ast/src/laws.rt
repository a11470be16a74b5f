//! What the test of the rules says.

ghost use Rattle.std.specs.Prelude.{◌↔◌, IsTrue};
ghost use Rattle.gim_ast.specs.declared.function.Function.{Function};
ghost use Rattle.gim_ast.specs.WellFormed.{IsWellFormed, is_well_formed};

/// The test passes where each rule holds, and nowhere else.
pub fn test_says_the_rules()
    ensures { (f : Function) → IsTrue (is_well_formed f) ↔ IsWellFormed f }
{}
