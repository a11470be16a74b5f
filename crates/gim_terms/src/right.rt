//! The operands of a right side where they stand.
ghost use Rattle.std.specs.Prelude.{◌≡◌, slice_get};

use pm_wide::Operand;

/// The operands of a right side: those of an operation, or the two sides of a condition.
#[derive(Clone, Copy)]
pub(crate) enum Right<'f> {
    Listed(&'f [Operand]),
    Pair(Operand, Operand),
}

impl Right<'_> {
    ghost use Rattle.gim_terms.specs.Rights.{operands_in};

    /// The operand at a position, if it is there.
    pub fn get(&self, position: u8) -> Option<Operand>
        ensures { result ≡ slice_get (operands_in self.now) position }
    {
        match self {
            Right::Listed(operands) => operands.get(position as usize).copied(),
            Right::Pair(left, right) => match position {
                0 => Some(*left),
                1 => Some(*right),
                _ => None,
            },
        }
    }
}
