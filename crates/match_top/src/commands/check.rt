//! `check G`: the functions of a GIMPLE file, printed.
ghost use Rattle.match_top.specs.Check.{Checks};
ghost use Rattle.match_top.specs.Given.{Answered};
ghost use Rattle.match_top.specs.Needs.{functions_named};

use crate::answer::{Output, Stop};
use crate::functions::read_functions;
use crate::printing::printed;
use crate::words::Word;
use pm_io::Inputs;
use pm_items::Items;
use std::alloc::Global;

/// Prints the functions of the file of this name.
#[tactic(auto, using(gim_ast::proofs::RisingNames::all_rise_where_valid))]
pub fn answer<I: Inputs>(alloc: Global, inputs: &mut I, name: &Word) -> Result<Output, Stop>
    ensures { Answered (functions_named name.now) Checks (I.state inputs.old) (I.state inputs.new) result }
{
    let functions = read_functions(alloc, inputs, name.as_str())?;
    printed(alloc, functions.as_slice(), Items::new(alloc))
}
