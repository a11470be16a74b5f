//! Laws of the first form.

ghost use Rattle.std.specs.Prelude.{◌≡◌, ℕ, List};
ghost use Rattle.gim_ast.specs.declared.function.Function.{Function};
ghost use Rattle.first_gimple.specs.Meaning.{IsFirstForm};
ghost use Rattle.first_gimple.specs.Uniform.{IsUniform};

/// A text stands for one function at most.
pub fn one_function()
    ensures { (bytes : List ℕ) (f g : Function) → IsFirstForm bytes f → IsFirstForm bytes g → f ≡ g }
{}

/// A function of the first form has one block that returns, and every type in it is `unsigned int`.
pub fn one_kind()
    ensures { (bytes : List ℕ) (f : Function) → IsFirstForm bytes f → IsUniform f }
{}
