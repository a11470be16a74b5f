//! The locals that declarations add.
ghost use Rattle.std.specs.Prelude.{◌≡◌, [], ◌∷◌, IfOk, IfSome};
ghost use Rattle.std.specs.Option.{option_map};
ghost use Rattle.cond_eval.specs.Declarations.{after_one, flag_and_word, locals_after};
ghost use Rattle.cond_eval.specs.Declarations.{with_locals, IsFlagged};
ghost use Rattle.cond_eval.specs.Environments.{AreValues};
ghost use Rattle.cond_eval.specs.Values.{IsValue};

use crate::environment::CEnv;
use crate::evaluation::eval;
use crate::flagged::{Flagged, flagged_value};
use crate::value::CValue;
use pd_ast::CDecl;
use pm_ops::{OutOfMemory, Text};
use std::alloc::Global;

/// The environment after these declarations, in order; `Ok(None)` exactly where one of them has no
/// value. The environment is dropped where it isn't answered.
pub fn declare(alloc: Global, decls: &[CDecl], env: CEnv) -> Result<Option<CEnv>, OutOfMemory>
    requires { AreValues env.locals }
    ensures value { IfOk result (λ after. after ≡ locals_after decls.now env) }
    ensures are_values { IfOk result (λ after. IfSome after (λ e. AreValues e.locals)) }
{
    let mut env = env;
    for decl in decls {
        env = match after_one(alloc, decl, env)? {
            Some(after) => after,
            None => return Ok(None),
        };
    }
    Ok(Some(env))
}

/// The environment after one declaration.
fn after_one(alloc: Global, decl: &CDecl, env: CEnv) -> Result<Option<CEnv>, OutOfMemory>
    requires { AreValues env.locals }
    ensures value { IfOk result (λ after. after ≡ after_one env decl.now) }
    ensures are_values { IfOk result (λ after. IfSome after (λ e. AreValues e.locals)) }
{
    match (&decl.value, &decl.overflow) {
        (None, _) => Ok(Some(env)),
        (Some(expr), None) => {
            let value = eval(expr, &env);
            with_value(alloc, env, &decl.name, value)
        }
        (Some(expr), Some(flag)) => {
            let value = flagged_value(expr, &env);
            with_flag(alloc, env, &decl.name, flag, value)
        }
    }
}

/// The environment with one local more, if its value is there.
fn with_value(
    alloc: Global,
    env: CEnv,
    name: &Text,
    value: Option<CValue>,
) -> Result<Option<CEnv>, OutOfMemory>
    requires are_values { AreValues env.locals }
    requires is_value { IfSome value IsValue }
    ensures value { IfOk result (λ after. after ≡
        option_map (λ v. with_locals env ((name.now, v) ∷ [])) value) }
    ensures are_values { IfOk result (λ after. IfSome after (λ e. AreValues e.locals)) }
{
    match value {
        Some(value) => Ok(Some(with_local(alloc, env, name, value)?)),
        None => Ok(None),
    }
}

/// The environment with a flag and a word more, if they are there.
fn with_flag(
    alloc: Global,
    env: CEnv,
    name: &Text,
    flag: &Text,
    value: Option<Flagged>,
) -> Result<Option<CEnv>, OutOfMemory>
    requires are_values { AreValues env.locals }
    requires is_flagged { IfSome value IsFlagged }
    ensures value { IfOk result (λ after. after ≡
        option_map (λ r. with_locals env (flag_and_word flag.now name.now r)) value) }
    ensures are_values { IfOk result (λ after. IfSome after (λ e. AreValues e.locals)) }
{
    match value {
        Some(
            Flagged {
                precision,
                bits,
                overflow,
            },
        ) => {
            let env = with_local(alloc, env, flag, CValue::Truth(overflow))?;
            let env = with_local(alloc, env, name, CValue::WideRef(precision, bits))?;
            Ok(Some(env))
        }
        None => Ok(None),
    }
}

/// The environment with one local more.
#[tactic(auto, using(crate::proofs::Lookups::one_more))]
fn with_local(alloc: Global, env: CEnv, name: &Text, value: CValue) -> Result<CEnv, OutOfMemory>
    requires are_values { AreValues env.locals }
    requires is_value { IsValue value }
    ensures value { IfOk result (λ after. after ≡ with_locals env ((name.now, value) ∷ [])) }
    ensures are_values { IfOk result (λ after. AreValues after.locals) }
{
    let mut env = env;
    env.locals.push((name.copy(alloc)?, value))?;
    Ok(env)
}
