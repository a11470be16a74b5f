//! What is left of a function without its unreached blocks is valid at each moment of tidying.
ghost use Rattle.std.specs.Prelude.{List};
ghost use Rattle.gim_ast.specs.declared.function.Function.{Function};
ghost use Rattle.gim_ast.specs.Readable.{IsValid};
ghost use Rattle.cfg_tidy.specs.declared.change.Change.{Change};
ghost use Rattle.cfg_tidy.specs.Kept.{IsReachedPart};
ghost use Rattle.cfg_tidy.specs.Tidying.{Becomes};

/// After any of the changes that tidying makes of a valid function, what is left without the blocks that nothing reaches
/// is valid. The whole needn't be: such a block may have a phi without arguments, or use a name whose assignment is gone.
pub fn changes_keep_what_is_reached_valid()
    ensures { (f g part : Function) (changes : List Change) → IsValid f → Becomes f changes g →
        IsReachedPart g part → IsValid part }
{}
