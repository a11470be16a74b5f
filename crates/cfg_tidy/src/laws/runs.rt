//! Functions run as before after a change of their blocks: on all arguments, with each fuel, also where a run is undefined.
ghost use Rattle.std.specs.Prelude.{◌≡◌, ℕ, IsTrue, Some};
ghost use Rattle.gim_ast.specs.declared.function.Block.{Block};
ghost use Rattle.gim_ast.specs.declared.function.Function.{Function};
ghost use Rattle.gim_ast.specs.Functions.{block_of};
ghost use Rattle.gim_ast.specs.WellFormed.{entry_has_no_phi};
ghost use Rattle.gim_changes.specs.Trimming.{trimmed};
ghost use Rattle.cfg_tidy.specs.Branches.{known_target, branched};
ghost use Rattle.cfg_tidy.specs.Reached.{IsReached};
ghost use Rattle.cfg_tidy.specs.Removal.{dropped};
ghost use Rattle.cfg_tidy.specs.SameRuns.{RunAlike};

/// A branch whose way is known becomes a jump. The entry has to be without phis, as in each well-formed function.
pub fn branch_keeps_runs()
    ensures { (f : Function) (block : Block) (to : ℕ) → IsTrue (entry_has_no_phi f.blocks) →
        block_of f block.number ≡ Some block → known_target block.end ≡ Some to →
        RunAlike f (branched block.number block.end to f) }
{}

/// A block that jumps don't reach from the entry goes.
pub fn dropping_keeps_runs()
    ensures { (f : Function) (n : ℕ) → IsTrue (entry_has_no_phi f.blocks) →
        (IsReached f.blocks n → ⊥) → RunAlike f (dropped n f) }
{}

/// The rows of `names` whose names stand nowhere go.
pub fn trimming_keeps_runs()
    ensures { (f : Function) → RunAlike f (trimmed f) }
{}
