//! Which changes keep a function valid, and under which conditions.
ghost use Rattle.std.specs.Prelude.{◌≡◌, ℕ, false, IsTrue, Some, []};
ghost use Rattle.std.specs.List.{AllByRecursion, list_all};
ghost use Rattle.pm_ops.specs.Codes.{is_comparison_code};
ghost use Rattle.pm_ops.specs.declared.code.Code.{Code};
ghost use Rattle.pm_wide.specs.Types.{same_type};
ghost use Rattle.pm_wide.specs.declared.operand.Operand.{Operand};
ghost use Rattle.gim_ast.specs.declared.function.Function.{Function};
ghost use Rattle.gim_ast.specs.declared.function.Rhs.{Rhs};
ghost use Rattle.gim_ast.specs.declared.function.Rhs.TheVariants.{Copy};
ghost use Rattle.gim_ast.specs.Functions.{is_used, operands_of_rhs, right_of};
ghost use Rattle.gim_ast.specs.Readable.{IsValid};
ghost use Rattle.gim_ast.specs.WellFormed.{bounds_hold, is_assigned, operand_holds, stmt_fits, type_of, IsWellFormed};
ghost use Rattle.gim_changes.specs.Removal.{without};
ghost use Rattle.gim_changes.specs.Substitution.{put_in_all, with_rhs, with_condition};
ghost use Rattle.gim_changes.specs.Trimming.{trimmed, tidied};
ghost use Rattle.gim_changes.specs.Validity.{has_type_of, IsReadableOperand, OperandComesBefore};

/// Each row of `names` of a well-formed function stays: trimming changes nothing.
pub fn trimming_leaves_well_formed_functions()
    ensures { (f : Function) → IsWellFormed f → trimmed f ≡ f }
{}

/// A name that nothing uses can go, and its row with it.
pub fn removal_keeps_validity()
    ensures { (f : Function) (x : ℕ) → IsValid f → is_used f x ≡ false →
        IsValid (trimmed (without x f)) }
{}

/// So can all that is unused, until nothing unused is left.
pub fn tidying_keeps_validity()
    ensures { (f : Function) → IsValid f → IsValid (tidied f) }
{}

/// An operand can be put for an assigned name in every use, where it has the name's type and comes before it.
pub fn substitution_keeps_validity()
    ensures { (f : Function) (x : ℕ) (by : Operand) → IsValid f → IsTrue (is_assigned f x) →
        IsTrue (operand_holds f by) →
        IsTrue (has_type_of f x by) → OperandComesBefore f by x → IsValid (put_in_all x by f) }
{}

/// So a copy can go: its operand is put for it, and what is unused goes.
pub fn copies_can_go()
    ensures { (f : Function) (x : ℕ) (a : Operand) → IsValid f → right_of f x ≡ Some (Copy a) →
        IsValid (tidied (put_in_all x a f)) }
{}

/// A name can get another right side of its type each of whose operands comes before it, as long as the function
/// stays within the bounds of the machine.
pub fn right_side_keeps_validity()
    ensures { (f : Function) (x : ℕ) (rhs : Rhs) → IsValid f →
        IsTrue (stmt_fits f (record { name = x; rhs = rhs })) →
        IsTrue (list_all (operand_holds f) (operands_of_rhs rhs)) →
        AllByRecursion (λ a. OperandComesBefore f a x) (operands_of_rhs rhs) →
        IsTrue (bounds_hold (with_rhs x rhs f)) → IsValid (trimmed (with_rhs x rhs f)) }
{}

/// A block can end in another comparison, of operands of one type that are readable at its end.
pub fn condition_keeps_validity()
    ensures { (f : Function) (n : ℕ) (code : Code) (a b : Operand) → IsValid f →
        IsTrue (is_comparison_code code) →
        IsTrue (same_type (type_of a) (type_of b)) → IsTrue (operand_holds f a) →
        IsTrue (operand_holds f b) →
        IsReadableOperand f n [] a → IsReadableOperand f n [] b →
        IsValid (trimmed (with_condition n code a b f)) }
{}
