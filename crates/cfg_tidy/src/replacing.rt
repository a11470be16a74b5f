//! An operand takes the place of a name, and what assigned the name goes.
ghost use Rattle.std.specs.Prelude.{◌≡◌};
ghost use Rattle.cfg_tidy.specs.Phis.{replaced};

use gim_ast::Function;
use gim_changes::{put_in_all, remove_name};
use pm_wide::Operand;

/// Puts an operand for a name in each use, and takes out what assigns the name.
pub(crate) fn replace(function: &mut Function, name: u32, by: &Operand)
    ensures { function.new ≡ replaced name by.now function.old }
{
    put_in_all(function, name, by);
    remove_name(function, name);
}
