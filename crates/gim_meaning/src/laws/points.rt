//! Where runs come, and which words names have there.
ghost use Rattle.std.specs.Prelude.{◌≡◌, ℕ, List, map};
ghost use Rattle.pm_wide.specs.Types.{Word};
ghost use Rattle.gim_ast.specs.declared.function.Block.{Block};
ghost use Rattle.gim_ast.specs.declared.function.Function.{Function};
ghost use Rattle.gim_ast.specs.declared.function.Stmt.{Stmt};
ghost use Rattle.gim_ast.specs.Functions.{stmt_name};
ghost use Rattle.gim_ast.specs.Runs.{Env, Returned, Undefined, run_of};
ghost use Rattle.gim_ast.specs.WellFormed.{IsWellFormed};
ghost use Rattle.gim_meaning.specs.KeptRuns.{AreArgumentWords};
ghost use Rattle.gim_meaning.specs.PresentValues.{ArePossible};
ghost use Rattle.gim_meaning.specs.ReachedPoints.{Inside, Reaches, Lies, LeadsOut, IsStuckAt};

/// A run returns a word where it comes to the end of a block that leads out with it, and nowhere
/// else.
pub fn runs_return_where_blocks_lead_out()
    ensures comes { (f : Function) (args : List Word) (fuel : ℕ) (w : Word) →
        run_of f args fuel ≡ Returned w → LeadsOut f args w }
    ensures returns { (f : Function) (args : List Word) (w : Word) → LeadsOut f args w →
        (fuel : ℕ) × (run_of f args fuel ≡ Returned w) }
{}

/// A run is undefined at a name where it comes to a statement of the name that has no value, and
/// nowhere else.
pub fn runs_are_undefined_where_statements_are()
    ensures comes { (f : Function) (args : List Word) (fuel x : ℕ) →
        run_of f args fuel ≡ Undefined x → IsStuckAt f args x }
    ensures is_undefined { (f : Function) (args : List Word) (x : ℕ) → IsStuckAt f args x →
        (fuel : ℕ) × (run_of f args fuel ≡ Undefined x) }
{}

/// Where a run comes it is inside of a block of the function, before its last statements.
pub fn runs_stay_in_blocks()
    ensures { (f : Function) (args : List Word) (block : Block) (stmts : List Stmt) (env : Env) →
        Reaches f args (Inside block stmts env) → Lies f block stmts }
{}

/// Whenever a run of a well-formed function comes to a point, each name has a word of its type, and
/// each name that is readable there has the value that its operation gives on the present words of
/// its operands.
pub fn readable_names_have_their_values()
    ensures { (f : Function) (args : List Word) (block : Block) (stmts : List Stmt) (env : Env) →
        IsWellFormed f → AreArgumentWords f args → Reaches f args (Inside block stmts env) →
        ArePossible f block.number (map stmt_name stmts) env }
{}
