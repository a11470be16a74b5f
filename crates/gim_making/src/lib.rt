//! The functions that a GIMPLE file stands for.
//!
//! Trees are made into functions (`making`): the names of a function are gathered where they stand
//! in its text (`places`) and put in order (`rows`). What they mean is looked up in the
//! declarations of the function (`gim_typing`). It is run by the tests of gim_reader.
#![tactic(auto)]

pub mod laws;
mod making;
mod places;
mod rows;

ghost use Rattle.std.specs.Prelude.{IfOk};
ghost use Rattle.std.specs.List.{AllZip};
ghost use Rattle.gim_making.specs.Standing.{StandsFor};

use gim_ast::Function;
use gim_text::FunctionText;
pub use places::NamePlace;
use pm_items::Items;
use pm_ops::OutOfMemory;
use std::alloc::Global;

/// The functions of a file, each the one that its tree stands for.
///
/// It makes a function of any tree. The rules on names, shape, types and limits are judged before.
pub fn make(
    alloc: Global,
    source: &[u8],
    functions: &[FunctionText],
) -> Result<Items<Function>, OutOfMemory>
    ensures { IfOk result (AllZip (StandsFor source.now) functions.now) }
{
    let mut made = Items::new(alloc);
    for tree in functions {
        made.push(making::function(alloc, source, tree)?)?;
    }
    Ok(made)
}
