//! What the names of a result stand for.
ghost use Rattle.std.specs.Prelude.{◌≡◌};
ghost use Rattle.cond_eval.specs.Environments.{named};
ghost use Rattle.result_build.specs.Names.{captured, named_type, operand_in_value};
ghost use Rattle.result_build.specs.Names.{type_in_value, written_type};

use cond_eval::{CEnv, CValue};
use pattern_rows::Caps;
use pm_ops::Text;
use pm_wide::{IntType, Operand};

/// The operand of a capture, where the captures stand in the order of their slots.
pub(crate) fn operand_of(name: &Text, caps: &Caps, captures: &[(Text, Operand)]) -> Option<Operand>
    ensures { result ≡ captured caps.now captures.now name.now }
{
    for (slot, pair) in captures.iter().enumerate() {
        if pair.0.bytes() == name.bytes() {
            return caps.get(slot);
        }
    }
    None
}

/// The operand that a value is.
pub(crate) fn operand_in(value: &Option<CValue>) -> Option<Operand>
    ensures { result ≡ operand_in_value value.now }
{
    match value {
        Some(CValue::Oper(operand)) => Some(*operand),
        _ => None,
    }
}

/// The type after `:`, where one is written; `None` where its name is no type.
pub(crate) fn type_written(name: &Option<Text>, env: &CEnv) -> Option<Option<IntType>>
    ensures { result ≡ written_type env.now name.now }
{
    match name {
        None => Some(None),
        Some(name) => match type_named(name, env) {
            Some(ty) => Some(Some(ty)),
            None => None,
        },
    }
}

/// The type of a name after `:`.
fn type_named(name: &Text, env: &CEnv) -> Option<IntType>
    ensures { result ≡ named_type env.now name.now }
{
    if name.bytes() == b"type".as_slice() {
        Some(env.ty)
    } else {
        type_in(&last_local(env.locals.as_slice(), name))
    }
}

/// The type that a value is.
fn type_in(value: &Option<CValue>) -> Option<IntType>
    ensures { result ≡ type_in_value value.now }
{
    match value {
        Some(CValue::TypeRef(ty)) => Some(*ty),
        _ => None,
    }
}

/// The last local of a name.
#[tactic(auto, using(cond_eval::proofs::Lookups::one_further, cond_eval::proofs::Lookups::none_before))]
fn last_local(locals: &[(Text, CValue)], name: &Text) -> Option<CValue>
    ensures { result ≡ named locals.now name.now }
{
    let mut found = None;
    for (key, value) in locals {
        if key.bytes() == name.bytes() {
            found = Some(*value);
        }
    }
    found
}
