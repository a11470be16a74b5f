//! The spots of a pattern: what stands at each of its places, in preorder.
ghost use Rattle.std.specs.Prelude.{◌≡◌, ◌≤◌, ◌++◌, ◌∷◌, [], map, length, IsTrue, IfOk, OnOk};
ghost use Rattle.pattern_rows.specs.Patterns.{node_of, pattern_of, patterns as plain};
ghost use Rattle.pattern_rows.specs.Patterns.{is_expanded, are_expanded};
ghost use Rattle.pattern_rows.specs.Spots.{spot_at, spots as spots_in, spots_below, spots_of};

use crate::row::Place;
use pd_ast::{Cap, OpRef, Pat, PatNode};
use pm_items::{Items, Shared};
use pm_ops::{Code, OutOfMemory, Pred};
use std::alloc::Global;

/// What a pattern asks at a place.
#[derive(Clone, Copy, Debug)]
pub enum Head {
    /// Nothing: a capture alone stands there.
    Anything,
    /// An operation of this code.
    Code(Code),
    /// That the predicate holds.
    Pred(Pred),
}

/// A place of a pattern, with what stands there.
#[derive(Debug, Drop)]
pub struct Spot {
    pub place: Place,
    pub head: Head,
    pub cap: Option<Cap>,
}

/// The spots of a pattern without choices.
pub(crate) fn spots_of_pattern(alloc: Global, pattern: &Pat) -> Result<Items<Spot>, OutOfMemory>
    requires { IsTrue (is_expanded (pattern_of pattern.now)) }
    ensures { IfOk result (λ spots. spots ≡ spots_of (pattern_of pattern.now)) }
{
    let outermost = Place {
        steps: Items::new(alloc),
    };
    let mut spots = Items::new(alloc);
    list_spots(alloc, pattern, &outermost, &mut spots)?;
    Ok(spots)
}

/// Adds the spots of a pattern that stands at a place.
#[cycle(spots)]
fn list_spots(
    alloc: Global,
    pattern: &Pat,
    at: &Place,
    spots: &mut Items<Spot>,
) -> Result<(), OutOfMemory>
    requires { IsTrue (is_expanded (pattern_of pattern.now)) }
    ensures { OnOk result (spots.new ≡ spots.old ++ spots_in at.now (pattern_of pattern.now)) }
{
    match pattern {
        Pat::Hole(cap) => push_capture(alloc, at, cap, spots),
        Pat::Test(pred, cap) => push_spot(alloc, at, Head::Pred(*pred), cap, spots),
        Pat::Call(_, _, _) => Ok(()),
        Pat::Node(node) => list_node(alloc, node, at, spots),
    }
}

/// Adds the spots of an operation that stands at a place.
#[cycle(spots)]
fn list_node(
    alloc: Global,
    node: &PatNode,
    at: &Place,
    spots: &mut Items<Spot>,
) -> Result<(), OutOfMemory>
    requires { IsTrue (is_expanded (node_of node.now)) }
    ensures { OnOk result (spots.new ≡ spots.old ++ spots_in at.now (node_of node.now)) }
{
    match &node.op {
        OpRef::Fixed(code) => {
            push_spot(alloc, at, Head::Code(*code), &node.cap, spots)?;
            list_operands(alloc, node.args.as_slice(), at, spots)
        }
        OpRef::Chosen(_) | OpRef::Listed(_) | OpRef::Null => Ok(()),
    }
}

/// Adds the spots of the operands of an operation at a place.
#[cycle(spots)]
fn list_operands(
    alloc: Global,
    operands: &[Shared<Pat>],
    at: &Place,
    spots: &mut Items<Spot>,
) -> Result<(), OutOfMemory>
    requires few { length operands.now ≤ 3 }
    requires expanded { IsTrue (are_expanded (plain (map pattern_of operands.now))) }
    ensures { OnOk result (spots.new ≡
        spots.old ++ spots_below at.now 0 (plain (map pattern_of operands.now))) }
{
    for (position, operand) in operands.iter().enumerate() {
        let place = at.below(alloc, position as u8)?;
        list_spots(alloc, operand.get(), &place, spots)?;
    }
    Ok(())
}

/// Adds the spot of a capture alone.
fn push_capture(
    alloc: Global,
    at: &Place,
    cap: &Cap,
    spots: &mut Items<Spot>,
) -> Result<(), OutOfMemory>
    ensures { OnOk result (spots.new ≡
        spots.old ++ spot_at at.now Head.Anything (Some cap.now) ∷ []) }
{
    let place = at.copy(alloc)?;
    let cap = Some(cap.copy(alloc)?);
    spots.push(Spot {
        place,
        head: Head::Anything,
        cap,
    })?;
    Ok(())
}

/// Adds a spot.
fn push_spot(
    alloc: Global,
    at: &Place,
    head: Head,
    cap: &Option<Cap>,
    spots: &mut Items<Spot>,
) -> Result<(), OutOfMemory>
    ensures { OnOk result (spots.new ≡ spots.old ++ spot_at at.now head cap.now ∷ []) }
{
    let place = at.copy(alloc)?;
    let cap = copied_cap(alloc, cap)?;
    spots.push(Spot { place, head, cap })?;
    Ok(())
}

/// A copy of a capture that may be absent.
fn copied_cap(alloc: Global, cap: &Option<Cap>) -> Result<Option<Cap>, OutOfMemory>
    ensures { IfOk result (λ c. c ≡ cap.now) }
{
    match cap {
        Some(cap) => Ok(Some(cap.copy(alloc)?)),
        None => Ok(None),
    }
}
