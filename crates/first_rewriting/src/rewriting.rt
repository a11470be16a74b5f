//! The rewriting of a function.
ghost use Rattle.std.specs.Prelude.{◌≡◌, ◌<◌, ◌^◌, length, IfOk};
ghost use Rattle.first_rewriting.specs.Rewriting.{rewriting_of};
ghost use Rattle.first_patterns.specs.Matching.{row_at};
ghost use Rattle.first_rewriting.specs.Typed.{IsTyped, KeepTypes};
ghost use Rattle.first_rewriting.specs.Views.{rewritten};

use crate::choice::next;
use crate::firing::Firing;
use crate::step::{carry_out, firing_at};
use first_patterns::Row;
use gim_ast::Function;
use gim_changes::tidy;
use pm_items::Items;
use pm_ops::OutOfMemory;
use std::alloc::Global;

/// A rewritten function.
#[derive(Drop)]
pub struct Simplified {
    pub function: Function,
    /// What the steps told, in order.
    pub firings: Items<Firing>,
    /// Whether the budget was spent and a further step exists.
    pub exhausted: bool,
}

/// Rewrites a function by the rows, by at most `budget` steps. First what is unused goes.
///
/// Each step is the first choice at the first subject in program order that has one: a copy, a
/// swap, a fold or the first row that applies. The function is typed, as each well-formed one is,
/// and the rows keep types. The one error is want of memory, after which the function is gone.
pub fn simplify(
    alloc: Global,
    rows: &[Row],
    function: Function,
    budget: u32,
) -> Result<Simplified, OutOfMemory>
    requires few { length rows.now < 2 ^ 32 }
    requires keep { KeepTypes rows.now }
    requires typed { IsTyped function }
    ensures { IfOk result (λ done. rewritten done ≡
        rewriting_of (row_at rows.now) budget function) }
{
    let mut function = function;
    tidy(&mut function);
    let mut firings = Items::new(alloc);
    for _ in 0..budget {
        let Some(found) = next(rows, &function) else {
            return Ok(Simplified {
                function,
                firings,
                exhausted: false,
            });
        };
        firings.push(firing_at(alloc, &function, &found)?)?;
        carry_out(alloc, &mut function, &found);
    }
    let exhausted = next(rows, &function).is_some();
    Ok(Simplified {
        function,
        firings,
        exhausted,
    })
}
