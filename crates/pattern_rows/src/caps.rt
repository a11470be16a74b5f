//! What the captures of a row stand for.
ghost use Rattle.std.specs.Prelude.{◌≡◌};
ghost use Rattle.pattern_rows.specs.Found.{held};

use pm_wide::Operand;

/// The operands of captures, in the order of the row's holes. A slot past the last hole holds
/// nothing.
#[derive(Clone, Copy, Debug)]
pub struct Caps {
    pub slots: [Option<Operand>; 32],
}

impl Caps {
    /// What a slot holds: `None` exactly where it holds nothing or isn't there.
    pub fn get(&self, slot: usize) -> Option<Operand>
        ensures { result ≡ held self.now slot }
    {
        match self.slots.get(slot) {
            Some(held) => *held,
            None => None,
        }
    }
}
