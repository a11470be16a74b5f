//! Functions as GIMPLE text, as GCC's front end reads it under `-fgimple`.
//!
//! `print` gives the text of whole functions. The other calls append a part to a text, for reports:
//! a number, and a name as it stands where it is assigned.
#![tactic(auto)]

ghost use Rattle.std.specs.Prelude.{◌≡◌, IfOk, IsTrue, All};
ghost use Rattle.gim_printer.specs.Printing.{text};
ghost use Rattle.gim_ast.specs.WellFormed.{names_rise};

mod functions;
mod names;
mod numbers;
mod operands;
mod rhs;
mod statements;

use gim_ast::Function;
pub use names::{push_assigned, push_name};
pub use numbers::{push_number, push_value};
use pm_items::Items;
use pm_ops::OutOfMemory;
use std::alloc::Global;

/// The text of the functions in order, with an empty line between two.
///
/// The rows of each function's `names` rise by version, so that names are found by binary search.
#[tactic(auto, unfolding(crate::specs::Printing::text))]
pub fn print(alloc: Global, functions: &[Function]) -> Result<Vec<u8>, OutOfMemory>
    requires { All (λ f. IsTrue (names_rise f)) functions.now }
    ensures { IfOk result (λ bytes. bytes.items ≡ text functions.now) }
{
    let mut out = Items::new(alloc);
    if let [first, rest @ ..] = functions {
        functions::push_function(&mut out, first)?;
        for function in rest {
            out.extend_from_slice(b"\n")?;
            functions::push_function(&mut out, function)?;
        }
    }
    Ok(out.into_vec())
}
