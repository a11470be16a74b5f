//! Choices from lists of patterns.
ghost use Rattle.std.specs.Prelude.{◌≡◌, [], ◌∷◌, IfOk};
ghost use Rattle.commute_expand.specs.Choices.{followed, one_followed};

use crate::sharing::shared_patterns;
use pd_ast::Pat;
use pm_items::{Items, Shared};
use pm_ops::OutOfMemory;
use std::alloc::Global;

/// Each of these lists, followed by each of these patterns.
pub fn followed(
    alloc: Global,
    fronts: &[Items<Shared<Pat>>],
    patterns: &[Shared<Pat>],
) -> Result<Items<Items<Shared<Pat>>>, OutOfMemory>
    ensures { IfOk result (λ made. made ≡ followed fronts.now patterns.now) }
{
    let mut made = Items::new(alloc);
    for front in fronts {
        made.append(one_followed(alloc, front.as_slice(), patterns)?)?;
    }
    Ok(made)
}

/// This list, followed by each of these patterns.
fn one_followed(
    alloc: Global,
    front: &[Shared<Pat>],
    patterns: &[Shared<Pat>],
) -> Result<Items<Items<Shared<Pat>>>, OutOfMemory>
    ensures { IfOk result (λ made. made ≡ one_followed front.now patterns.now) }
{
    let mut made = Items::new(alloc);
    for pattern in patterns {
        let mut chosen = shared_patterns(alloc, front)?;
        chosen.push(pattern.share()?)?;
        made.push(chosen)?;
    }
    Ok(made)
}

/// The list without a choice.
pub fn no_choice(alloc: Global) -> Result<Items<Items<Shared<Pat>>>, OutOfMemory>
    ensures { IfOk result (λ made. made ≡ [] ∷ []) }
{
    let mut made = Items::new(alloc);
    made.push(Items::new(alloc))?;
    Ok(made)
}
