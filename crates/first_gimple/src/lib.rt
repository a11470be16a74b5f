//! The first form of GIMPLE files: one function of one block, all of it `unsigned int`. It goes once whole GIMPLE files are read.
//!
//! A text is cut into tokens (`tokens`), read line by line into a draft (`reading`), judged (`rules`, `order`, `rows`) and made
//! into a function (`making`).
#![tactic(auto)]

mod draft;
mod fault;
mod identifiers;
pub mod laws;
mod making;
mod numbers;
mod order;
mod reading;
mod rows;
mod rules;
mod tokens;

ghost use Rattle.std.specs.Prelude.{◌≡◌, IfOk, MatchResult};
ghost use Rattle.gim_ast.specs.declared.function.Function.{Function};
ghost use Rattle.first_gimple.specs.declared.fault.FirstFault.TheVariants.{NotFirst, Memory};
ghost use Rattle.first_gimple.specs.Meaning.{IsFirstForm, StandsFor};
ghost use Rattle.first_gimple.specs.Rules.{KeepsRules};
ghost use Rattle.first_gimple.specs.Tests.{Finds};
ghost use Rattle.first_gimple.specs.Uniform.{IsUniform};

pub use draft::{Draft, Line, Taken};
pub use fault::FirstFault;
use gim_ast::Function;
use std::alloc::Global;

/// The most names that a function has that is read.
const NAMES: usize = 20_000;

/// The function of a draft that keeps the rules.
fn judged(alloc: Global, draft: &Draft) -> Result<Function, FirstFault>
    ensures { Finds (λ f. KeepsRules draft.now × StandsFor draft.now f) result }
{
    if !rules::identifiers_hold(draft) {
        return Err(FirstFault::NotFirst);
    }
    let Some(params) = rules::distinct_texts(alloc, draft.params.as_slice())? else {
        return Err(FirstFault::NotFirst);
    };
    let Some(declared) = order::distinct_numbers(alloc, draft.locals.as_slice())? else {
        return Err(FirstFault::NotFirst);
    };
    if !order::is_in_order(alloc, &declared, draft.lines.as_slice(), &draft.end)? {
        return Err(FirstFault::NotFirst);
    }
    let names = rows::names(alloc, draft)?;
    if names.len() > NAMES || !rules::defaults_hold(alloc, &params, names.as_slice())? {
        return Err(FirstFault::NotFirst);
    }
    Ok(making::function(alloc, draft, names)?)
}

/// The function that a text of the first form stands for.
pub fn read(alloc: Global, source: &[u8]) -> Result<Function, FirstFault>
    // What is read is what the text stands for.
    ensures found { IfOk result (IsFirstForm source.now) }
    // It has one block that returns, and every type in it is `unsigned int`.
    ensures uniform { IfOk result IsUniform }
    // What the text stands for is read, unless memory runs out.
    ensures only { (f : Function) → IsFirstForm source.now f → MatchResult result (λ g. g ≡ f) (λ fault. fault ≡ Memory) }
    // A text is refused only where it stands for no function.
    ensures refused { result ≡ Err NotFirst → (f : Function) → IsFirstForm source.now f → ⊥ }
{
    let draft = reading::draft(alloc, source)?;
    judged(alloc, &draft)
}
