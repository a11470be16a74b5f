//! Which changes keep every defined run, by what holds of terms: what stands there stands for one
//! term, what comes for another, and the second has the first one's value wherever that has one,
//! whatever words the names of both have.
ghost use Rattle.std.specs.Prelude.{◌≡◌, ℕ, IsTrue, Some, List, [], ◌∷◌, drop, map};
ghost use Rattle.std.specs.List.{AllByRecursion};
ghost use Rattle.pm_ops.specs.declared.code.Code.{Code};
ghost use Rattle.pm_term.specs.Terms.{term_value};
ghost use Rattle.pm_term.specs.Trees.{Tree};
ghost use Rattle.pm_wide.specs.Types.{Ty, bool_type};
ghost use Rattle.pm_wide.specs.declared.operand.Operand.{Operand};
ghost use Rattle.pm_wide.specs.declared.operand.Operand.TheVariants.{Name};
ghost use Rattle.gim_ast.specs.declared.function.Block.{Block};
ghost use Rattle.gim_ast.specs.declared.function.Decl.{Decl};
ghost use Rattle.gim_ast.specs.declared.function.End.TheVariants.{If};
ghost use Rattle.gim_ast.specs.declared.function.Function.{Function};
ghost use Rattle.gim_ast.specs.declared.function.Rhs.{Rhs};
ghost use Rattle.gim_ast.specs.declared.function.Rhs.TheVariants.{Op};
ghost use Rattle.gim_ast.specs.declared.function.Stmt.{Stmt};
ghost use Rattle.gim_ast.specs.Functions.{block_of, stmt_name, operands_of_rhs, operands_of_stmt};
ghost use Rattle.gim_ast.specs.Readable.{Use, uses_in, IsValid};
ghost use Rattle.gim_ast.specs.Runs.{Env, name_type, rhs_value, word_of_operand};
ghost use Rattle.gim_ast.specs.WellFormed.{IsWellFormed, is_assigned};
ghost use Rattle.gim_changes.specs.Insertion.{with_stmt, MayBeInserted};
ghost use Rattle.gim_changes.specs.Substitution.{put_in_all, with_rhs, with_condition};
ghost use Rattle.gim_changes.specs.Validity.{OperandComesBefore};
ghost use Rattle.gim_meaning.specs.KeptRuns.{KeepsDefinedRuns};
ghost use Rattle.gim_meaning.specs.PresentValues.{AreTyped, ArePossible};
ghost use Rattle.gim_meaning.specs.ReachedPoints.{Lies};
ghost use Rattle.gim_meaning.specs.Unfolding.{Unfolds, UnfoldsRight, MayRead, IsOfSupport};
ghost use Rattle.gim_meaning.specs.Unfolding.{IsPartOf};
ghost use Rattle.gim_meaning.specs.Unfolding.{words_in, AreWordsOfNames, Refines, IsDefinedWith};

/// Where operands are readable, a term that stands for one has its word, and a term that stands for
/// a right side its value, whatever words names may have there.
pub fn terms_have_the_values_that_they_stand_for()
    ensures typed { (f : Function) (env : Env) → AreTyped f env → AreWordsOfNames (words_in env) }
    ensures operand { (f : Function) (n : ℕ) (left : List ℕ) (env : Env) (a : Operand)
        (term : Tree) → IsValid f → ArePossible f n left env → MayRead f n left a →
        Unfolds f a term → term_value (words_in env) term ≡ Some (word_of_operand env a) }
    ensures right { (f : Function) (n : ℕ) (left : List ℕ) (env : Env) (t : Ty) (rhs : Rhs)
        (term : Tree) → IsValid f → ArePossible f n left env →
        AllByRecursion (MayRead f n left) (operands_of_rhs rhs) → UnfoldsRight f t rhs term →
        term_value (words_in env) term ≡ rhs_value t env rhs }
{}

/// An operand put for a name: it is of the name's support, or comes before the name, or else is
/// readable at each use of it.
pub fn substitution_keeps_runs()
    ensures of_support { (f : Function) (x : ℕ) (t : Ty) (by : Operand) (before after : Tree) →
        IsValid f → IsOfSupport f x by → Unfolds f (Name x t) before → Unfolds f by after →
        Refines before after → KeepsDefinedRuns f (put_in_all x by f) }
    ensures comes_before { (f : Function) (x : ℕ) (t : Ty) (by : Operand) (before after : Tree) →
        IsValid f → IsTrue (is_assigned f x) → OperandComesBefore f by x →
        Unfolds f (Name x t) before → Unfolds f by after → Refines before after →
        KeepsDefinedRuns f (put_in_all x by f) }
    ensures readable { (f : Function) (x : ℕ) (t : Ty) (by : Operand) (before after : Tree) →
        IsValid f → AllByRecursion (λ (place : Use). place.name ≡ x →
        MayRead f place.at place.left by) (uses_in f) → Unfolds f (Name x t) before →
        Unfolds f by after → Refines before after → KeepsDefinedRuns f (put_in_all x by f) }
{}

/// A right side whose operands are readable before the statement.
pub fn right_side_keeps_runs()
    ensures { (f : Function) (block : Block) (stmt : Stmt) (stmts : List Stmt) (rhs : Rhs)
        (before after : Tree) → IsValid f → Lies f block (stmt ∷ stmts) →
        AllByRecursion (MayRead f block.number (map stmt_name (stmt ∷ stmts)))
        (operands_of_rhs rhs) → UnfoldsRight f (name_type f stmt.name) stmt.rhs before →
        UnfoldsRight f (name_type f stmt.name) rhs after → Refines before after →
        KeepsDefinedRuns f (with_rhs stmt.name rhs f) }
{}

/// A condition whose operands are readable at the end of the block.
pub fn condition_keeps_runs()
    ensures { (f : Function) (block : Block) (old : Code) (left right : Operand) (yes_to no_to : ℕ)
        (code : Code) (a b : Operand) (before after : Tree) → IsValid f →
        block_of f block.number ≡ Some block → block.end ≡ If old left right yes_to no_to →
        AllByRecursion (MayRead f block.number []) (a ∷ b ∷ []) →
        UnfoldsRight f bool_type (Op old (left ∷ right ∷ [])) before →
        UnfoldsRight f bool_type (Op code (a ∷ b ∷ [])) after → Refines before after →
        KeepsDefinedRuns f (with_condition block.number code a b f) }
{}

/// A statement that may be inserted, and has a value wherever the statement or the condition has
/// one before which it is put.
pub fn insertion_keeps_runs()
    ensures before_stmt { (f : Function) (place before : ℕ) (stmt : Stmt) (decl : Decl)
        (allowed : MayBeInserted f place before stmt decl) (next : Stmt) (rest : List Stmt)
        (old part : Tree) → IsValid f → drop before allowed.home.stmts ≡ next ∷ rest →
        UnfoldsRight f (name_type f next.name) next.rhs old → UnfoldsRight f decl.ty stmt.rhs part →
        IsDefinedWith old part → KeepsDefinedRuns f (with_stmt place before stmt decl f) }
    ensures before_end { (f : Function) (place before : ℕ) (stmt : Stmt) (decl : Decl)
        (allowed : MayBeInserted f place before stmt decl) (code : Code) (a b : Operand)
        (yes_to no_to : ℕ) (old part : Tree) → IsValid f → drop before allowed.home.stmts ≡ [] →
        allowed.home.end ≡ If code a b yes_to no_to →
        UnfoldsRight f bool_type (Op code (a ∷ b ∷ [])) old → UnfoldsRight f decl.ty stmt.rhs part →
        IsDefinedWith old part → KeepsDefinedRuns f (with_stmt place before stmt decl f) }
{}

/// Each part of a term that has a value wherever another has one, has one there too: so the
/// operations inside of a result may be inserted before the result is put.
pub fn parts_are_defined_with_the_whole()
    ensures { (old whole part : Tree) → Refines old whole → IsPartOf part whole →
        IsDefinedWith old part }
{}

/// Past such a statement terms stand for what they stood for, and the new name stands for what its
/// right side does.
pub fn insertion_keeps_terms()
    ensures operands { (f : Function) (place before : ℕ) (stmt : Stmt) (decl : Decl) (a : Operand)
        (term : Tree) → IsWellFormed f → MayBeInserted f place before stmt decl → Unfolds f a term →
        Unfolds (with_stmt place before stmt decl f) a term }
    ensures right_sides { (f : Function) (place before : ℕ) (stmt : Stmt) (decl : Decl) (t : Ty)
        (rhs : Rhs) (term : Tree) → IsWellFormed f → MayBeInserted f place before stmt decl →
        UnfoldsRight f t rhs term → UnfoldsRight (with_stmt place before stmt decl f) t rhs term }
    ensures new { (f : Function) (place before : ℕ) (stmt : Stmt) (decl : Decl) (t : Ty)
        (term : Tree) → IsWellFormed f → MayBeInserted f place before stmt decl →
        UnfoldsRight f decl.ty stmt.rhs term →
        Unfolds (with_stmt place before stmt decl f) (Name stmt.name t) term }
{}
