//! The test of the rules that each function of a GIMPLE file keeps, a module for each kind of rule.

ghost use Rattle.std.specs.Prelude.{◌≡◌};
ghost use Rattle.gim_ast.specs.RulesByPart.{well_formed_by_part};
ghost use Rattle.gim_ast.specs.WellFormed.{is_well_formed};

mod blocks;
mod bounds;
mod declarations;
mod identifiers;
mod operands;
mod rows;
mod uses;

use crate::Function;
pub use identifiers::{is_anonymous, is_block_word};

impl Function {
    /// Whether the function keeps the rules of a GIMPLE file, but for readability and limits. Takes no memory.
    #[tactic(auto, using(crate::proofs::WellFormedTest::whole_parts))]
    pub fn well_formed(&self) -> bool
        ensures { result ≡ is_well_formed self.now }
    {
        parts_hold(self)
    }
}

/// The rules, one after another.
fn parts_hold(function: &Function) -> bool
    ensures { result ≡ well_formed_by_part function.now }
{
    declarations::declarations_hold(function)
        && declarations::types_hold(function)
        && rows::names_hold(function)
        && blocks::blocks_hold(function)
        && operands::operands_hold(function)
        && bounds::bounds_hold(function)
}
