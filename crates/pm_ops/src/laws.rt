//! What holds of the operations, the predicates, the kinds of fault and their names. Each call here
//! does nothing: its contract is a law, which its check proves.
ghost use Rattle.std.specs.Prelude.{◌≡◌, ◌≢◌, ◌↔◌, Some, None, Contains, codes};
ghost use Rattle.pm_ops.specs.declared.code.Code.{Code};
ghost use Rattle.pm_ops.specs.declared.code.Code.TheVariants.{Convert};
ghost use Rattle.pm_ops.specs.declared.predicate.Pred.{Pred};
ghost use Rattle.pm_ops.specs.declared.fault.PatternKind.{PatternKind};
ghost use Rattle.pm_ops.specs.Codes.{arity_of, swapped_code};
ghost use Rattle.pm_ops.specs.Codes.{is_commutative_code, is_comparison_code};
ghost use Rattle.pm_ops.specs.Names.{Name, code_name, code_named};
ghost use Rattle.pm_ops.specs.Names.{code_c_name, code_c_names, code_c_named};
ghost use Rattle.pm_ops.specs.Predicates.{pred_name, pred_named};
ghost use Rattle.pm_ops.specs.Faults.{kind_name};

/// A name in patterns is read as an operation exactly where it is that operation's name.
pub fn code_is_read_from_its_name()
    ensures { (name : Name) (code : Code) →
        (code_named name ≡ Some code) ↔ (name ≡ code_name code) }
{}

/// No operation is read exactly from the names that no operation has.
pub fn no_code_is_read_from_other_names()
    ensures { (name : Name) → (code_named name ≡ None) ↔ ((code : Code) → name ≢ code_name code) }
{}

/// No two operations have one name in patterns.
pub fn code_names_are_distinct()
    ensures { (a b : Code) → code_name a ≡ code_name b → a ≡ b }
{}

/// A name in C text is read as an operation exactly where it is among that operation's C names.
pub fn code_is_read_from_its_c_names()
    ensures { (name : Name) (code : Code) →
        (code_c_named name ≡ Some code) ↔ Contains (code_c_names code) name }
{}

/// An operation is read from the C name that is written for it.
pub fn code_is_read_from_its_first_c_name()
    ensures { (code : Code) → code_c_named (code_c_name code) ≡ Some code }
{}

/// The one C name that is read and never written is a conversion's.
pub fn conversion_has_a_second_c_name()
    ensures { code_c_named (codes "NOP_EXPR") ≡ Some Convert }
{}

/// No operation is read exactly from the names that no operation has in C text.
pub fn no_code_is_read_from_other_c_names()
    ensures { (name : Name) →
        (code_c_named name ≡ None) ↔ ((code : Code) → ¬ (Contains (code_c_names code) name)) }
{}

/// No two operations are written alike in C text.
pub fn code_c_names_are_distinct()
    ensures { (a b : Code) → code_c_name a ≡ code_c_name b → a ≡ b }
{}

/// A name is read as a predicate exactly where it is that predicate's name.
pub fn predicate_is_read_from_its_name()
    ensures { (name : Name) (pred : Pred) →
        (pred_named name ≡ Some pred) ↔ (name ≡ pred_name pred) }
{}

/// No predicate is read exactly from the names that no predicate has.
pub fn no_predicate_is_read_from_other_names()
    ensures { (name : Name) → (pred_named name ≡ None) ↔ ((pred : Pred) → name ≢ pred_name pred) }
{}

/// No two predicates have one name.
pub fn predicate_names_are_distinct()
    ensures { (a b : Pred) → pred_name a ≡ pred_name b → a ≡ b }
{}

/// No predicate's name is an operation's, in patterns or in C text.
pub fn predicates_name_no_operation()
    ensures patterns { (pred : Pred) → code_named (pred_name pred) ≡ None }
    ensures c_text { (pred : Pred) → code_c_named (pred_name pred) ≡ None }
{}

/// No two kinds of fault have one word.
pub fn kind_names_are_distinct()
    ensures { (a b : PatternKind) → kind_name a ≡ kind_name b → a ≡ b }
{}

/// Exchanging the operands twice leaves the operation.
pub fn swapped_twice_is_the_same()
    ensures { (code : Code) → swapped_code (swapped_code code) ≡ code }
{}

/// Exchanging the operands keeps how many they are, and whether the operation compares or commutes.
pub fn swapped_keeps_the_class()
    ensures arity { (code : Code) → arity_of (swapped_code code) ≡ arity_of code }
    ensures comparison { (code : Code) → is_comparison_code (swapped_code code) ≡ is_comparison_code code }
    ensures commutative { (code : Code) → is_commutative_code (swapped_code code) ≡ is_commutative_code code }
{}
