//! Functions, printed.
ghost use Rattle.std.specs.Prelude.{All, IsTrue};
ghost use Rattle.gim_ast.specs.WellFormed.{names_rise};
ghost use Rattle.match_top.specs.Answer.{IsOrMemory, printed};

use crate::answer::{Output, Stop};
use gim_ast::Function;
use pm_items::Items;
use std::alloc::Global;

/// The text of the functions, and a text for `report`.
pub fn printed(alloc: Global, functions: &[Function], report: Items<u8>) -> Result<Output, Stop>
    requires { All (λ f. IsTrue (names_rise f)) functions.now }
    ensures { IsOrMemory (printed functions.now report) result }
{
    match gim_printer::print(alloc, functions) {
        Ok(out) => Ok(Output {
            exhausted: false,
            out: Items::from_vec(out),
            report,
        }),
        Err(_) => Err(Stop::Memory),
    }
}
