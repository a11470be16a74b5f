//! Uses of the laws: an operand is put for a name, through loops as elsewhere, and what is unused
//! then goes.
ghost use Rattle.std.specs.Prelude.{◌≡◌, ℕ, Some, [], ◌∷◌};
ghost use Rattle.pm_ops.specs.declared.code.Code.TheVariants.{Plus, Minus};
ghost use Rattle.pm_wide.specs.Types.{Ty};
ghost use Rattle.pm_wide.specs.declared.operand.Operand.{Operand};
ghost use Rattle.pm_wide.specs.declared.operand.Operand.TheVariants.{Name};
ghost use Rattle.gim_ast.specs.declared.function.Function.{Function};
ghost use Rattle.gim_ast.specs.declared.function.Rhs.TheVariants.{Copy, Op};
ghost use Rattle.gim_ast.specs.Functions.{right_of};
ghost use Rattle.gim_ast.specs.Readable.{IsValid};
ghost use Rattle.gim_changes.specs.Substitution.{put_in_all};
ghost use Rattle.gim_changes.specs.Trimming.{tidied};
ghost use Rattle.gim_meaning.specs.KeptRuns.{KeepsDefinedRuns};

/// What a statement copies is put for its name: by the values of names. The function stays valid.
pub fn copies_may_go()
    ensures valid { (f : Function) (x : ℕ) (by : Operand) → IsValid f →
        right_of f x ≡ Some (Copy by) → IsValid (tidied (put_in_all x by f)) }
    ensures runs { (f : Function) (x : ℕ) (by : Operand) → IsValid f →
        right_of f x ≡ Some (Copy by) → KeepsDefinedRuns f (tidied (put_in_all x by f)) }
{}

/// For `y = x - b`, where `x = a + b`, a is put: by terms.
pub fn differences_of_sums_may_go()
    ensures { (f : Function) (x y : ℕ) (t : Ty) (a b : Operand) → IsValid f →
        right_of f x ≡ Some (Op Plus (a ∷ b ∷ [])) →
        right_of f y ≡ Some (Op Minus (Name x t ∷ b ∷ [])) →
        KeepsDefinedRuns f (tidied (put_in_all y a f)) }
{}
