//! The orders of operands.
ghost use Rattle.std.specs.Prelude.{◌≡◌, [], ◌∷◌, map, unwrap_or, IfOk};
ghost use Rattle.commute_expand.specs.Choices.{choices};
ghost use Rattle.commute_expand.specs.Faults.{commute_fault, Judges};
ghost use Rattle.pd_ast.specs.declared.pattern.Pat.TheVariants as pat;
ghost use Rattle.commute_expand.specs.Orders.{exchanged, exchanged_op, node_orders, on_each, orders};
ghost use Rattle.commute_expand.specs.Orders.{orders_on, swapped_op, unmarked};

use crate::choices::{followed, no_choice};
use crate::faults::commute_fault;
use crate::marks::marks;
use crate::sharing::{copied_cap, shared_patterns};
use pd_ast::{Cap, Commute, Flags, OpRef, Pat, PatNode};
use pm_items::{Items, Shared};
use pm_ops::{OutOfMemory, PatternFault, Text};
use std::alloc::Global;

/// The patterns that stand for this one where the operands of marked operations stand in both
/// orders: as written before exchanged, an operation slower than those in its operands, an earlier
/// operand slower than a later one. A comparison exchanged by `c` has the exchanged code.
///
/// `NotCommutative` is at the first operation marked `c` that neither commutes nor compares. Then
/// comes `TooManyRows`, exactly where there would be more than 65,536 patterns; it has no place,
/// since that of the form isn't known here. What has no mark is shared.
pub fn commute(alloc: Global, pattern: &Shared<Pat>) -> Result<Items<Shared<Pat>>, PatternFault>
    ensures fault { Judges (commute_fault pattern.now) result }
    ensures value { IfOk result (λ made. made ≡ orders pattern.now) }
{
    match commute_fault(pattern.get()) {
        Some(fault) => Err(fault),
        None => Ok(orders(alloc, pattern)?),
    }
}

/// A pattern in all its orders: the pattern itself, shared, where it has no mark.
fn orders(alloc: Global, pattern: &Shared<Pat>) -> Result<Items<Shared<Pat>>, OutOfMemory>
    ensures { IfOk result (λ made. made ≡ orders pattern.now) }
{
    let anew = orders_anew(alloc, pattern.get())?;
    or_alone(alloc, anew, pattern)
}

/// The orders made anew, or else this pattern alone, shared.
fn or_alone(
    alloc: Global,
    anew: Option<Items<Shared<Pat>>>,
    pattern: &Shared<Pat>,
) -> Result<Items<Shared<Pat>>, OutOfMemory>
    ensures { IfOk result (λ made. made ≡ unwrap_or anew (pattern.now ∷ [])) }
{
    match anew {
        Some(anew) => Ok(anew),
        None => alone(alloc, pattern.share()?),
    }
}

/// A pattern in all its orders; none where it has no mark and is its only order.
#[tactic(auto, using(crate::proofs::Alone::alone))]
#[cycle(orders)]
fn orders_anew(alloc: Global, pattern: &Pat) -> Result<Option<Items<Shared<Pat>>>, OutOfMemory>
    ensures { IfOk result (λ made. unwrap_or made (pattern.now ∷ []) ≡ orders pattern.now) }
{
    if marks(pattern) == 0 {
        return Ok(None);
    }
    Ok(Some(new_orders(alloc, pattern)?))
}

/// A pattern in all its orders, made anew.
#[cycle(orders)]
fn new_orders(alloc: Global, pattern: &Pat) -> Result<Items<Shared<Pat>>, OutOfMemory>
    ensures { IfOk result (λ made. made ≡ orders pattern.now) }
{
    match pattern {
        Pat::Hole(_) | Pat::Test(_, _) => alone(alloc, Shared::new(alloc, pattern.copy(alloc)?)?),
        Pat::Call(name, args, cap) => {
            let lists = choices(alloc, args.as_slice())?;
            uses(alloc, name, cap, lists.as_slice())
        }
        Pat::Node(node) => node_orders(alloc, node),
    }
}

#[cycle(orders)]
fn node_orders(alloc: Global, node: &PatNode) -> Result<Items<Shared<Pat>>, OutOfMemory>
    ensures { IfOk result (λ made. made ≡ node_orders node.now) }
{
    let lists = choices(alloc, node.args.as_slice())?;
    orders_on(alloc, node, lists.as_slice())
}

/// A choice from the orders of each of these patterns.
#[cycle(orders)]
fn choices(
    alloc: Global,
    patterns: &[Shared<Pat>],
) -> Result<Items<Items<Shared<Pat>>>, OutOfMemory>
    ensures { IfOk result (λ made. made ≡ choices (map orders patterns.now)) }
{
    let mut made = no_choice(alloc)?;
    for pattern in patterns {
        let anew = orders_anew(alloc, pattern.get())?;
        let in_orders = or_alone(alloc, anew, pattern)?;
        made = followed(alloc, made.as_slice(), in_orders.as_slice())?;
    }
    Ok(made)
}

/// One pattern alone.
fn alone(alloc: Global, pattern: Shared<Pat>) -> Result<Items<Shared<Pat>>, OutOfMemory>
    ensures { IfOk result (λ made. made ≡ pattern ∷ []) }
{
    let mut made = Items::new(alloc);
    made.push(pattern)?;
    Ok(made)
}

/// The use of a predicate on each of these lists of arguments.
fn uses(
    alloc: Global,
    name: &Text,
    cap: &Option<Cap>,
    lists: &[Items<Shared<Pat>>],
) -> Result<Items<Shared<Pat>>, OutOfMemory>
    ensures { IfOk result (λ made. made ≡ map (λ args. pat.Call name.now args cap.now) lists.now) }
{
    let mut made = Items::new(alloc);
    for args in lists {
        let args = shared_patterns(alloc, args.as_slice())?;
        let pattern = Pat::Call(name.copy(alloc)?, args, copied_cap(alloc, cap)?);
        made.push(Shared::new(alloc, pattern)?)?;
    }
    Ok(made)
}

/// An operation in its orders, where its operands are one of these lists.
fn orders_on(
    alloc: Global,
    node: &PatNode,
    lists: &[Items<Shared<Pat>>],
) -> Result<Items<Shared<Pat>>, OutOfMemory>
    ensures { IfOk result (λ made. made ≡
        orders_on node.now.op node.now.flags node.now.cap node.now.at node.now.len lists.now) }
{
    let written = on_each(alloc, node, &node.op, lists)?;
    match exchanged_op(alloc, node)? {
        None => Ok(written),
        Some(op) => {
            let lists = all_exchanged(alloc, lists)?;
            let mut made = written;
            made.append(on_each(alloc, node, &op, lists.as_slice())?)?;
            Ok(made)
        }
    }
}

/// This operation on exchanged operands, where both orders are tried.
fn exchanged_op(alloc: Global, node: &PatNode) -> Result<Option<OpRef>, OutOfMemory>
    ensures { IfOk result (λ op. op ≡ exchanged_op node.now.flags.commute node.now.op) }
{
    match node.flags.commute {
        Commute::No => Ok(None),
        Commute::Checked => Ok(Some(swapped_op(alloc, &node.op)?)),
        Commute::Forced => Ok(Some(node.op.copy(alloc)?)),
    }
}

/// The operation of the same value on exchanged operands.
fn swapped_op(alloc: Global, op: &OpRef) -> Result<OpRef, OutOfMemory>
    ensures { IfOk result (λ made. made ≡ swapped_op op.now) }
{
    match op {
        OpRef::Fixed(code) => Ok(OpRef::Fixed(code.swapped())),
        OpRef::Chosen(_) | OpRef::Listed(_) | OpRef::Null => op.copy(alloc),
    }
}

/// Each of these lists of operands in the other order.
fn all_exchanged(
    alloc: Global,
    lists: &[Items<Shared<Pat>>],
) -> Result<Items<Items<Shared<Pat>>>, OutOfMemory>
    ensures { IfOk result (λ made. made ≡ map exchanged lists.now) }
{
    let mut made = Items::new(alloc);
    for args in lists {
        made.push(exchanged(alloc, args.as_slice())?)?;
    }
    Ok(made)
}

/// Two operands in the other order.
fn exchanged(alloc: Global, args: &[Shared<Pat>]) -> Result<Items<Shared<Pat>>, OutOfMemory>
    ensures { IfOk result (λ made. made ≡ exchanged args.now) }
{
    match args {
        [first, second] => {
            let mut made = Items::new(alloc);
            made.push(second.share()?)?;
            made.push(first.share()?)?;
            Ok(made)
        }
        _ => shared_patterns(alloc, args),
    }
}

/// The operation, without its mark, on each of these lists of operands.
fn on_each(
    alloc: Global,
    node: &PatNode,
    op: &OpRef,
    lists: &[Items<Shared<Pat>>],
) -> Result<Items<Shared<Pat>>, OutOfMemory>
    ensures { IfOk result (λ made. made ≡
        on_each op.now node.now.flags node.now.cap node.now.at node.now.len lists.now) }
{
    let mut made = Items::new(alloc);
    for args in lists {
        let args = shared_patterns(alloc, args.as_slice())?;
        let pattern = Pat::Node(PatNode {
            op: op.copy(alloc)?,
            flags: unmarked(node.flags),
            cap: copied_cap(alloc, &node.cap)?,
            args,
            at: node.at,
            len: node.len,
        });
        made.push(Shared::new(alloc, pattern)?)?;
    }
    Ok(made)
}

/// The flags of an operation without its mark.
fn unmarked(flags: Flags) -> Flags
    ensures { result ≡ unmarked flags }
{
    Flags {
        commute: Commute::No,
        single: flags.single,
        optional: flags.optional,
    }
}
