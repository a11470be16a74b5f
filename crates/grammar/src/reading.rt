//! From a reader of a production to one of a whole input.

ghost use Rattle.grammar.specs.Reading.{Answer};
ghost use Rattle.grammar.specs.Gives.{GivesInMemory};
ghost use Rattle.grammar.specs.Whole.{whole_of};

use crate::stop::{Fault, Stop};

/// What was read, if it is the whole input; else a fault of this kind at the first token after it.
pub fn whole_in_memory<'a, T, E: Copy, X: Drop>(
    read: Result<(X, &'a [T]), Stop<'a, T, E>>,
    kind: E,
) -> Result<X, Stop<'a, T, E>>
    ensures { (answer : Answer T E X) → GivesInMemory (λ x. (x.0, x.1.now)) read.entry answer → GivesInMemory (λ x. x) result (whole_of kind answer) }
{
    let (value, rest) = read?;
    match rest {
        [] => Ok(value),
        _ => Err(Stop::Fault(Fault { kind, rest })),
    }
}
