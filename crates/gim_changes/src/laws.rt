//! What changes of a function keep. Each call here does nothing: its contract is a law, which its check proves.
pub mod insertion;
pub mod readability;
pub mod validity;

ghost use Rattle.std.specs.Prelude.{◌≡◌, ℕ, None, map};
ghost use Rattle.std.specs.List.{count_by};
ghost use Rattle.pm_ops.specs.declared.code.Code.{Code};
ghost use Rattle.pm_wide.specs.declared.operand.Operand.{Operand};
ghost use Rattle.gim_ast.specs.declared.function.Block.{Block};
ghost use Rattle.gim_ast.specs.declared.function.Function.{Function};
ghost use Rattle.gim_ast.specs.declared.function.Rhs.{Rhs};
ghost use Rattle.gim_ast.specs.Functions.{uses_of};
ghost use Rattle.gim_ast.specs.Paths.{flow_of};
ghost use Rattle.gim_ast.specs.Readable.{uses_in_block};
ghost use Rattle.gim_changes.specs.Removal.{last_unused, pruned};
ghost use Rattle.gim_changes.specs.Substitution.{put_in_all, with_rhs, with_condition};
ghost use Rattle.gim_changes.specs.Trimming.{trimmed, tidied};
ghost use Rattle.gim_changes.specs.UsePlaces.{is_place_of, item_and_name, item_and_name_read, places_in_block, use_places};

/// An operand that is put for a name leaves all that paths see of a function.
pub fn substitution_keeps_flow()
    ensures { (f : Function) (x : ℕ) (by : Operand) → flow_of (put_in_all x by f) ≡ flow_of f }
{}

/// So does another right side.
pub fn right_side_keeps_flow()
    ensures { (f : Function) (x : ℕ) (rhs : Rhs) → flow_of (with_rhs x rhs f) ≡ flow_of f }
{}

/// So does another condition.
pub fn condition_keeps_flow()
    ensures { (f : Function) (n : ℕ) (code : Code) (a b : Operand) → flow_of (with_condition n code a b f) ≡ flow_of f }
{}

/// So does trimming.
pub fn trimming_keeps_flow()
    ensures { (f : Function) → flow_of (trimmed f) ≡ flow_of f }
{}

/// After the removal nothing unused is left.
pub fn nothing_unused_is_left()
    ensures { (f : Function) → last_unused (pruned f) ≡ None }
{}

/// Removal and trimming go together: rows that were trimmed before would have gone behind it.
pub fn trimming_may_come_first()
    ensures { (f : Function) → tidied (trimmed f) ≡ tidied f }
{}

/// A name has as many use places as operands of the function are the name.
pub fn places_are_uses()
    ensures { (f : Function) (x : ℕ) → count_by (is_place_of x) (use_places f) ≡ uses_of f x }
{}

/// The use places of a block are its uses as the check for readability counts them: the same names in the same items.
pub fn places_are_counted_as_by_the_check()
    ensures { (block : Block) (at : ℕ) → map item_and_name (places_in_block (at, block)) ≡ map item_and_name_read (uses_in_block block) }
{}
