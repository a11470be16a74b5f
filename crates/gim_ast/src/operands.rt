//! The operands of an operation.
ghost use Rattle.std.specs.Prelude.{◌≡◌, ◌<◌, ◌≤◌, [], ◌∷◌, ◌++◌, length, slice_get, slice_set, IfOk, IsOk};

use pm_ops::OutOfMemory;
use pm_wide::Operand;
use smallvec::SmallVec;
use std::alloc::Global;
use std::marker::Model;

/// The operands of an operation, in order. Up to three take no memory.
///
/// Contracts see the list of operands.
#[derive(Drop)]
pub struct Operands {
    list: SmallVec<Operand, 3>,
}

impl Model for Operands {
    ghost use Rattle.std.specs.Prelude.{List};
    ghost use Rattle.std.specs.Coded.{coded_list};
    ghost use Rattle.pm_wide.specs.declared.operand.Operand.{Operand};

    ghost Value = { List Operand };

    ghost view = { λ a. a.list.items };
}

impl Operands {
    /// These operands. Up to three take no memory.
    pub fn from_slice(alloc: Global, operands: &[Operand]) -> Result<Operands, OutOfMemory>
        ensures same { IfOk result (λ a. a ≡ operands.now) }
        ensures succeeds { length operands.now ≤ 3 → IsOk result }
    {
        let list = SmallVec::from_slice(alloc, operands)?;
        Ok(Operands { list })
    }

    /// One operand. Takes no memory.
    pub fn one(alloc: Global, operand: Operand) -> Operands
        ensures { result ≡ operand ∷ [] }
    {
        let mut list = SmallVec::new(alloc);
        list.push_reserved(operand);
        Operands { list }
    }

    /// Two operands. Takes no memory.
    pub fn two(alloc: Global, left: Operand, right: Operand) -> Operands
        ensures { result ≡ left ∷ right ∷ [] }
    {
        let mut list = SmallVec::new(alloc);
        list.push_reserved(left);
        list.push_reserved(right);
        Operands { list }
    }

    /// Three operands. Takes no memory.
    pub fn three(alloc: Global, first: Operand, second: Operand, third: Operand) -> Operands
        ensures { result ≡ first ∷ second ∷ third ∷ [] }
    {
        let mut list = SmallVec::new(alloc);
        list.push_reserved(first);
        list.push_reserved(second);
        list.push_reserved(third);
        Operands { list }
    }

    /// The operands, in order.
    pub fn as_slice(&self) -> &[Operand]
        ensures { result.now ≡ self.now }
    {
        self.list.as_slice()
    }

    /// How many operands there are.
    pub fn len(&self) -> usize
        ensures { result ≡ length self.now }
    {
        self.list.len()
    }

    /// Writes over the operand at a place. Takes no memory.
    pub fn set(&mut self, at: usize, operand: Operand)
        requires { at < length self.old }
        ensures { self.new ≡ slice_set self.old at operand }
    {
        self.list[at] = operand;
    }

    /// An equal list.
    pub fn copy(&self, alloc: Global) -> Result<Operands, OutOfMemory>
        ensures same { IfOk result (λ a. a ≡ self.now) }
        ensures succeeds { length self.now ≤ 3 → IsOk result }
    {
        Operands::from_slice(alloc, self.as_slice())
    }
}
