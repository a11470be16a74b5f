//! Which changes keep every defined run, by what holds of all words that names may have at a point:
//! words of their types with which each readable name has the value of its operation.
ghost use Rattle.std.specs.Prelude.{◌≡◌, ℕ, Some, List, ◌∷◌, ◌++◌, drop};
ghost use Rattle.std.specs.List.{AllByRecursion};
ghost use Rattle.pm_ops.specs.declared.code.Code.{Code};
ghost use Rattle.pm_wide.specs.declared.operand.Operand.{Operand};
ghost use Rattle.gim_ast.specs.declared.function.Block.{Block};
ghost use Rattle.gim_ast.specs.declared.function.Decl.{Decl};
ghost use Rattle.gim_ast.specs.declared.function.End.TheVariants.{If};
ghost use Rattle.gim_ast.specs.declared.function.Function.{Function};
ghost use Rattle.gim_ast.specs.declared.function.Phi.{Phi};
ghost use Rattle.gim_ast.specs.declared.function.Rhs.{Rhs};
ghost use Rattle.gim_ast.specs.declared.function.Stmt.{Stmt};
ghost use Rattle.gim_ast.specs.Functions.{block_of};
ghost use Rattle.gim_ast.specs.Readable.{uses_in, IsValid};
ghost use Rattle.gim_ast.specs.WellFormed.{IsWellFormed};
ghost use Rattle.gim_changes.specs.Insertion.{with_stmt, MayBeInserted};
ghost use Rattle.gim_changes.specs.Substitution.{put_in_all, with_rhs, with_condition};
ghost use Rattle.gim_changes.specs.Validity.{OperandComesBefore};
ghost use Rattle.gim_meaning.specs.KeptRuns.{KeepsDefinedRuns};
ghost use Rattle.gim_meaning.specs.PhiArguments.{ReadsOnly};
ghost use Rattle.gim_meaning.specs.ReachedPoints.{Lies};
ghost use Rattle.gim_meaning.specs.SameReading.{AlwaysReadsAlike, AlwaysGivesAlike};
ghost use Rattle.gim_meaning.specs.SameReading.{AlwaysDecidesAlike, AlwaysHasValueThere};
ghost use Rattle.gim_meaning.specs.SameReading.{FollowsFrom};

/// An operand put for a name: it has the name's word at each use, or, in a valid function, it
/// follows from the values of the name and of its support.
pub fn substitution_keeps_runs()
    ensures at_uses { (f : Function) (x : ℕ) (by : Operand) → IsWellFormed f →
        AllByRecursion (AlwaysReadsAlike f x by) (uses_in f) →
        KeepsDefinedRuns f (put_in_all x by f) }
    ensures by_support { (f : Function) (x : ℕ) (by : Operand) → IsValid f → FollowsFrom f x by →
        KeepsDefinedRuns f (put_in_all x by f) }
{}

/// An operand put for the name of a phi that reads nothing else, beside its own name, and comes
/// before it.
pub fn one_operand_keeps_runs()
    ensures { (f : Function) (block : Block) (front : List Phi) (phi : Phi) (rest : List Phi)
        (by : Operand) → IsValid f → block_of f block.number ≡ Some block →
        block.phis ≡ front ++ phi ∷ rest → ReadsOnly by phi → OperandComesBefore f by phi.name →
        KeepsDefinedRuns f (put_in_all phi.name by f) }
{}

/// A right side that has the old one's value before the statement.
pub fn right_side_keeps_runs()
    ensures { (f : Function) (block : Block) (stmt : Stmt) (stmts : List Stmt) (rhs : Rhs) →
        IsWellFormed f → Lies f block (stmt ∷ stmts) → AlwaysGivesAlike f block stmt stmts rhs →
        KeepsDefinedRuns f (with_rhs stmt.name rhs f) }
{}

/// A condition that holds as the old one does at the end of the block.
pub fn condition_keeps_runs()
    ensures { (f : Function) (block : Block) (old : Code) (left right : Operand) (yes_to no_to : ℕ)
        (code : Code) (a b : Operand) → IsWellFormed f → block_of f block.number ≡ Some block →
        block.end ≡ If old left right yes_to no_to →
        AlwaysDecidesAlike f block.number old left right code a b →
        KeepsDefinedRuns f (with_condition block.number code a b f) }
{}

/// A statement that may be inserted and has a value at its place wherever what stands there has
/// one.
pub fn insertion_keeps_runs()
    ensures { (f : Function) (place before : ℕ) (stmt : Stmt) (decl : Decl)
        (allowed : MayBeInserted f place before stmt decl) → IsWellFormed f →
        AlwaysHasValueThere f allowed.home (drop before allowed.home.stmts) decl.ty stmt.rhs →
        KeepsDefinedRuns f (with_stmt place before stmt decl f) }
{}
