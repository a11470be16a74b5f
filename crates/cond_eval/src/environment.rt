//! What names stand for.
ghost use Rattle.std.specs.Prelude.{◌≡◌, IfOk, IfSome, OnSome};
ghost use Rattle.cond_eval.specs.Environments.{named, uses_of, is_single, AreValues};
ghost use Rattle.cond_eval.specs.Values.{IsValue};

use crate::value::CValue;
use pm_items::Items;
use pm_ops::{OutOfMemory, Text};
use pm_wide::{IntType, Operand};
use std::alloc::Global;

/// What the names of C text stand for. The last local of a name counts, and so does the last
/// capture and the last count.
#[derive(Debug, Drop)]
pub struct CEnv {
    /// The operands of captures.
    pub captures: Items<(Text, Operand)>,
    pub locals: Items<(Text, CValue)>,
    /// The type that `type` stands for.
    pub ty: IntType,
    /// How often names are used: their versions, and the counts.
    pub uses: Items<(u32, u32)>,
}

impl CEnv {
    /// An equal environment, which shares nothing with this one.
    pub fn copy(&self, alloc: Global) -> Result<CEnv, OutOfMemory>
        ensures { IfOk result (λ env. env ≡ self.now) }
    {
        Ok(CEnv {
            captures: copied_captures(alloc, self.captures.as_slice())?,
            locals: copied_locals(alloc, self.locals.as_slice())?,
            ty: self.ty,
            uses: Items::from_slice(alloc, self.uses.as_slice())?,
        })
    }

    /// The operand of a capture.
    #[tactic(auto, using(crate::proofs::Lookups::one_further, crate::proofs::Lookups::none_before))]
    pub(crate) fn capture(&self, name: &Text) -> Option<Operand>
        ensures { result ≡ named self.now.captures name.now }
    {
        let mut found = None;
        for (key, operand) in self.captures.as_slice() {
            if key.bytes() == name.bytes() {
                found = Some(*operand);
            }
        }
        found
    }

    /// The value of a local.
    #[tactic(auto, using(crate::proofs::Lookups::named_value))]
    pub(crate) fn local(&self, name: &Text) -> Option<CValue>
        requires { AreValues self.now.locals }
        ensures value { result ≡ named self.now.locals name.now }
        ensures is_value { IfSome result IsValue }
    {
        self.last_local(name)
    }

    /// The last local of a name.
    #[tactic(auto, using(crate::proofs::Lookups::one_further, crate::proofs::Lookups::none_before))]
    fn last_local(&self, name: &Text) -> Option<CValue>
        ensures { result ≡ named self.now.locals name.now }
    {
        let mut found = None;
        for (key, value) in self.locals.as_slice() {
            if key.bytes() == name.bytes() {
                found = Some(*value);
            }
        }
        found
    }

    /// How often a name is used.
    #[tactic(auto, using(crate::proofs::Lookups::one_further, crate::proofs::Lookups::none_before))]
    fn uses_of(&self, version: u32) -> Option<u32>
        ensures { result ≡ uses_of self.now.uses version }
    {
        let mut found = None;
        for (key, count) in self.uses.as_slice() {
            if *key == version {
                found = Some(*count);
            }
        }
        found
    }

    /// Whether an operand is a constant, or a name that is used at most once.
    pub(crate) fn is_single(&self, operand: Operand) -> Option<bool>
        ensures { result ≡ is_single self.now.uses operand }
    {
        match operand {
            Operand::Name(version, _) => match self.uses_of(version) {
                Some(count) => Some(count <= 1),
                None => None,
            },
            Operand::Const(_) => Some(true),
        }
    }
}

/// Equal captures.
fn copied_captures(
    alloc: Global,
    captures: &[(Text, Operand)],
) -> Result<Items<(Text, Operand)>, OutOfMemory>
    ensures { IfOk result (λ made. made ≡ captures.now) }
{
    let mut made = Items::new(alloc);
    for (name, operand) in captures {
        made.push((name.copy(alloc)?, *operand))?;
    }
    Ok(made)
}

/// Equal locals.
fn copied_locals(
    alloc: Global,
    locals: &[(Text, CValue)],
) -> Result<Items<(Text, CValue)>, OutOfMemory>
    ensures { IfOk result (λ made. made ≡ locals.now) }
{
    let mut made = Items::new(alloc);
    for (name, value) in locals {
        made.push((name.copy(alloc)?, *value))?;
    }
    Ok(made)
}
