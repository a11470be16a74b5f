//! Where operations stand in a function.
ghost use Rattle.std.specs.Prelude.{◌≡◌, is_some};
ghost use Rattle.gim_terms.specs.Targets.{operation_at_stmt, target_at_if};

use crate::reach::stmt_there;
use gim_ast::{End, Function, Rhs};

/// Whether a statement stands at a place of a block, both from 0, and assigns an operation.
pub fn has_operation(function: &Function, block: usize, stmt: usize) -> bool
    ensures { result ≡ is_some (operation_at_stmt function.now block stmt) }
{
    match stmt_there(function, block, stmt) {
        Some(found) => match &found.rhs {
            Rhs::Copy(_) => false,
            Rhs::Op(_, _) => true,
        },
        None => false,
    }
}

/// Whether there is a block at a place, from 0, and it ends in an `if`.
pub fn has_condition(function: &Function, block: usize) -> bool
    ensures { result ≡ is_some (target_at_if function.now block) }
{
    match function.blocks.get(block) {
        Some(home) => match home.end {
            End::Goto(_) | End::Return(_) => false,
            End::If(_, _, _, _, _) => true,
        },
        None => false,
    }
}
