//! Where names are readable in a valid function, and which names may be read in place of another.
ghost use Rattle.std.specs.Prelude.{◌≡◌, ◌↔◌, ◌++◌, ◌∷◌, ◌||◌, ℕ, IsTrue, Some, List, slice_get};
ghost use Rattle.std.specs.List.{AllByRecursion, list_all};
ghost use Rattle.pm_wide.specs.declared.operand.Operand.{Operand};
ghost use Rattle.gim_ast.specs.declared.function.Block.{Block};
ghost use Rattle.gim_ast.specs.declared.function.Function.{Function};
ghost use Rattle.gim_ast.specs.declared.function.Phi.{Phi};
ghost use Rattle.gim_ast.specs.Functions.{assigned_in, is_name, right_of};
ghost use Rattle.gim_ast.specs.Paths.{flow_of, Path};
ghost use Rattle.gim_ast.specs.Readable.{read_for, Supports, uses_in, IsReadable, IsValid};
ghost use Rattle.gim_ast.specs.WellFormed.{is_assigned, IsWellFormed};
ghost use Rattle.gim_changes.specs.Trimming.{stands_in};
ghost use Rattle.gim_changes.specs.Validity.{IsAlwaysAssigned, IsAlwaysAssignedUse};
ghost use Rattle.gim_changes.specs.Validity.{ComesBefore, IsReadableOperand, OperandComesBefore};

/// A well-formed function is valid exactly where each path to a use assigns the name that is read there, and the
/// name isn't in its own support. That its support isn't assigned since then follows.
pub fn valid_where_uses_are_assigned()
    ensures { (f : Function) → IsWellFormed f →
        IsValid f ↔ AllByRecursion (IsAlwaysAssignedUse f) (uses_in f) }
{}

/// So is a name readable in a valid function exactly where each path assigns it.
pub fn readable_where_assigned()
    ensures { (f : Function) (x n : ℕ) (left : List ℕ) → IsValid f →
        IsReadable f x n left ↔ IsAlwaysAssigned f x n left }
{}

/// Where a name is readable, each name of its support is.
pub fn support_is_readable()
    ensures { (f : Function) (x y n : ℕ) (left : List ℕ) → IsValid f → IsReadable f x n left →
        Supports (read_for f) x y → IsReadable f y n left }
{}

/// A name that comes before another is readable wherever the other one is.
pub fn what_comes_before_is_readable()
    ensures { (f : Function) (x y n : ℕ) (left : List ℕ) → IsValid f → IsTrue (is_assigned f x) →
        ComesBefore f y x →
        IsReadable f x n left → IsReadable f y n left }
{}

/// So may an operand be read where the name that it comes before is about to be assigned.
pub fn what_comes_before_may_be_read_there()
    ensures { (f : Function) (x n : ℕ) (left : List ℕ) (a : Operand) → OperandComesBefore f a x →
        IsReadableOperand f n (x ∷ left) a }
{}

/// Each name of the support of a name comes before it.
pub fn support_comes_before()
    ensures { (f : Function) (x y : ℕ) → IsValid f → Supports (read_for f) x y → ComesBefore f y x }
{}

/// So does another name with the same right side that is readable wherever it is assigned.
pub fn same_right_side_comes_before()
    ensures { (f : Function) (x y : ℕ) → IsValid f → right_of f y ≡ right_of f x → (y ≡ x → ⊥) →
        IsTrue (stands_in f y) →
        ((n : ℕ) (left : List ℕ) → IsReadable f y n (x ∷ left)) → ComesBefore f y x }
{}

/// So does the only name among the arguments of a phi, but for the phi's own, where the phi isn't in its support.
pub fn argument_comes_before_its_phi()
    ensures { (f : Function) (place k : ℕ) (home : Block) (phi : Phi) (y : ℕ) → IsValid f →
        slice_get f.blocks place ≡ Some home →
        slice_get home.phis k ≡ Some phi →
        IsTrue (list_all (λ (arg : ℕ × Operand). is_name y arg.1 || is_name phi.name arg.1) phi.args) →
        IsTrue (stands_in f y) → (y ≡ phi.name → ⊥) → (Supports (read_for f) y phi.name → ⊥) →
        ComesBefore f y phi.name }
{}

/// That holds where some path assigns the phi, or any other name: then it is in the support of no name that is
/// readable wherever it is assigned.
pub fn what_is_reached_is_apart()
    ensures { (f : Function) (x y n : ℕ) (left past : List ℕ) → IsValid f →
        Path (flow_of f) n (x ∷ left) past →
        ((m : ℕ) (rest : List ℕ) → IsReadable f y m (x ∷ rest)) → Supports (read_for f) y x → ⊥ }
{}

/// A name is assigned at one point: what is readable there is readable wherever the name is assigned.
pub fn a_name_is_assigned_at_one_point()
    ensures { (f : Function) (x y place : ℕ) (home : Block) (front left : List ℕ) → IsValid f →
        slice_get f.blocks place ≡ Some home → assigned_in home ≡ front ++ x ∷ left →
        IsReadable f y home.number (x ∷ left) → (n : ℕ) (rest : List ℕ) →
        IsReadable f y n (x ∷ rest) }
{}
