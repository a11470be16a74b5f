//! What the insertion of a statement keeps, and where its name is readable.
ghost use Rattle.std.specs.Prelude.{◌≡◌, ◌∷◌, ℕ, IsTrue, List, drop, map};
ghost use Rattle.std.specs.List.{AllByRecursion};
ghost use Rattle.gim_ast.specs.declared.function.Decl.{Decl};
ghost use Rattle.gim_ast.specs.declared.function.Function.{Function};
ghost use Rattle.gim_ast.specs.declared.function.Stmt.{Stmt};
ghost use Rattle.gim_ast.specs.Functions.{operands_of_rhs, stmt_name};
ghost use Rattle.gim_ast.specs.Readable.{IsReadable, IsValid};
ghost use Rattle.gim_ast.specs.WellFormed.{is_assigned};
ghost use Rattle.gim_changes.specs.Insertion.{names_but, with_stmt, MayBeInserted};
ghost use Rattle.gim_changes.specs.Validity.{ComesBefore, OperandComesBefore};

/// A statement that may be inserted keeps the function valid.
pub fn insertion_keeps_validity()
    ensures { (f : Function) (place before : ℕ) (stmt : Stmt) (decl : Decl) → IsValid f →
        MayBeInserted f place before stmt decl →
        IsValid (with_stmt place before stmt decl f) }
{}

/// What was readable at a point stays so at the points that it became: those where the new name may be left as well.
pub fn insertion_keeps_readability()
    ensures { (f : Function) (place before : ℕ) (stmt : Stmt) (decl : Decl) (y n : ℕ) (left : List ℕ) →
        IsValid f →
        MayBeInserted f place before stmt decl → IsReadable f y n (names_but stmt.name left) →
        IsReadable (with_stmt place before stmt decl f) y n left }
{}

/// What comes before an assigned name still does.
pub fn insertion_keeps_what_comes_before()
    ensures { (f : Function) (place before : ℕ) (stmt : Stmt) (decl : Decl) (x y : ℕ) → IsValid f →
        MayBeInserted f place before stmt decl →
        IsTrue (is_assigned f x) → ComesBefore f y x →
        ComesBefore (with_stmt place before stmt decl f) y x }
{}

/// The new name is readable right behind its statement, so at the end of the block where nothing follows it.
pub fn what_is_inserted_is_readable()
    ensures { (f : Function) (place before : ℕ) (stmt : Stmt) (decl : Decl) → IsValid f →
        (may : MayBeInserted f place before stmt decl) →
        IsReadable (with_stmt place before stmt decl f) stmt.name may.home.number (map stmt_name (drop before may.home.stmts)) }
{}

/// It comes before the name that is assigned next, where its operands do.
pub fn what_is_inserted_comes_before_the_next()
    ensures { (f : Function) (place before : ℕ) (stmt : Stmt) (decl : Decl) (x : ℕ) (left : List ℕ) →
        IsValid f →
        (may : MayBeInserted f place before stmt decl) →
        map stmt_name (drop before may.home.stmts) ≡ x ∷ left → IsTrue (is_assigned f x) →
        AllByRecursion (λ a. OperandComesBefore f a x) (operands_of_rhs stmt.rhs) →
        ComesBefore (with_stmt place before stmt decl f) stmt.name x }
{}
