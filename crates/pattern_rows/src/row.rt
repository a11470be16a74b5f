//! Test rows and their parts.
ghost use Rattle.std.specs.Prelude.{◌≡◌, IfOk};
ghost use Rattle.pattern_rows.specs.Places.{below};

use pm_items::Items;
use pm_ops::{Code, OutOfMemory, Pred, Text};
use std::alloc::Global;

/// A place of a right side or a pattern: the positions of operands, from 0, on the way down to it.
/// The outermost place has none.
#[derive(Debug, Drop)]
pub struct Place {
    pub steps: Items<u8>,
}

/// What is asked of a place.
#[derive(Debug, Drop)]
pub enum Probe {
    /// The operation there has this code.
    IsCode(Code),
    /// The predicate holds of the operand there.
    Holds(Pred),
    /// The operand there is that of the other place: one name, or one constant of one type.
    SameAs(Place),
    /// The operand there has the number of that of the other place, or is the same name.
    SameNumberAs(Place),
}

/// What is asked, and of which place.
#[derive(Debug, Drop)]
pub struct ProbeAt {
    pub place: Place,
    pub probe: Probe,
}

/// What has to hold where a pattern matches, in preorder, and the place of each capture in the order
/// of first occurrences.
#[derive(Debug, Drop)]
pub struct TestRow {
    pub tests: Items<ProbeAt>,
    pub holes: Items<(Text, Place)>,
}

impl Place {
    /// An equal place.
    pub fn copy(&self, alloc: Global) -> Result<Place, OutOfMemory>
        ensures { IfOk result (λ place. place ≡ self.now) }
    {
        Ok(Place {
            steps: copied_steps(alloc, self.steps.as_slice())?,
        })
    }

    /// The place of the operand at a position below this one.
    pub fn below(&self, alloc: Global, position: u8) -> Result<Place, OutOfMemory>
        ensures { IfOk result (λ place. place ≡ below self.now position) }
    {
        let mut steps = copied_steps(alloc, self.steps.as_slice())?;
        steps.push(position)?;
        Ok(Place { steps })
    }
}

fn copied_steps(alloc: Global, steps: &[u8]) -> Result<Items<u8>, OutOfMemory>
    ensures { IfOk result (λ copied. copied ≡ steps.now) }
{
    Ok(Items::from_vec(Vec::from_slice(alloc, steps)?))
}
