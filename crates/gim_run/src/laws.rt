//! What holds of every run. Each call here does nothing: its contract is a law, which its check proves.
ghost use Rattle.std.specs.Prelude.{◌≡◌, ◌≢◌, ◌≤◌, ℕ, List};
ghost use Rattle.pm_wide.specs.Types.{Word};
ghost use Rattle.gim_ast.specs.declared.function.Function.{Function};
ghost use Rattle.gim_ast.specs.Runs.{run_of, Running};

/// Without fuel no block is entered.
pub fn without_fuel_it_is_running()
    ensures { (f : Function) (args : List Word) → run_of f args 0 ≡ Running }
{}

/// More fuel changes no outcome but `Running`.
pub fn more_fuel_keeps_an_outcome()
    ensures { (f : Function) (args : List Word) (less more : ℕ) → less ≤ more →
        run_of f args less ≢ Running → run_of f args more ≡ run_of f args less }
{}

/// What is running still with some fuel is so with less.
pub fn less_fuel_keeps_it_running()
    ensures { (f : Function) (args : List Word) (less more : ℕ) → less ≤ more →
        run_of f args more ≡ Running → run_of f args less ≡ Running }
{}
