//! Marked operations: how many there are, and the first one that may not be exchanged.
ghost use Rattle.std.specs.Prelude.{◌≡◌, ◌-◌, ◌^◌, map, min};
ghost use Rattle.pm_places.specs.FirstFaults.{first_fault};
ghost use Rattle.commute_expand.specs.Marks.{first_wrong_mark, mark_count, marks, may_exchange};
ghost use Rattle.commute_expand.specs.Marks.{node_marks, node_wrong_mark, total, wrong_mark};

use pd_ast::{Commute, OpRef, Pat, PatNode};
use pm_items::Shared;
use pm_ops::{PatternFault, PatternKind};

/// How many marked operations a pattern has. Stands still at 2^64 - 1.
#[cycle(marks)]
pub fn marks(pattern: &Pat) -> u64
    ensures { result ≡ min (marks pattern.now) (2 ^ 64 - 1) }
{
    match pattern {
        Pat::Hole(_) | Pat::Test(_, _) => 0,
        Pat::Call(_, args, _) => marks_among(args.as_slice()),
        Pat::Node(node) => node_marks(node),
    }
}

#[cycle(marks)]
fn node_marks(node: &PatNode) -> u64
    ensures { result ≡ min (node_marks node.now) (2 ^ 64 - 1) }
{
    mark_count(node.flags.commute).saturating_add(marks_among(node.args.as_slice()))
}

#[cycle(marks)]
fn marks_among(patterns: &[Shared<Pat>]) -> u64
    ensures { result ≡ min (total (map marks patterns.now)) (2 ^ 64 - 1) }
{
    let mut count: u64 = 0;
    for pattern in patterns {
        count = count.saturating_add(marks(pattern.get()));
    }
    count
}

fn mark_count(commute: Commute) -> u64
    ensures { result ≡ mark_count commute }
{
    match commute {
        Commute::No => 0,
        Commute::Checked | Commute::Forced => 1,
    }
}

/// The first operation, an operation before its operands, that is marked `c` and neither commutes
/// nor compares.
#[cycle(first_wrong_mark)]
pub fn first_wrong_mark(pattern: &Pat) -> Option<PatternFault>
    ensures { result ≡ first_wrong_mark pattern.now }
{
    match pattern {
        Pat::Hole(_) | Pat::Test(_, _) => None,
        Pat::Call(_, args, _) => wrong_mark_among(args.as_slice()),
        Pat::Node(node) => node_wrong_mark(node),
    }
}

#[cycle(first_wrong_mark)]
fn node_wrong_mark(node: &PatNode) -> Option<PatternFault>
    ensures { result ≡ node_wrong_mark node.now }
{
    match wrong_mark(node) {
        Some(fault) => Some(fault),
        None => wrong_mark_among(node.args.as_slice()),
    }
}

#[cycle(first_wrong_mark)]
fn wrong_mark_among(patterns: &[Shared<Pat>]) -> Option<PatternFault>
    ensures { result ≡ first_fault (map first_wrong_mark patterns.now) }
{
    for pattern in patterns {
        if let Some(fault) = first_wrong_mark(pattern.get()) {
            return Some(fault);
        }
    }
    None
}

/// What is wrong with the mark of an operation, at its name.
fn wrong_mark(node: &PatNode) -> Option<PatternFault>
    ensures { result ≡ wrong_mark node.now.flags.commute node.now.op node.now.at node.now.len }
{
    match node.flags.commute {
        Commute::No | Commute::Forced => None,
        Commute::Checked => {
            if may_exchange(&node.op) {
                return None;
            }
            Some(PatternFault {
                kind: PatternKind::NotCommutative,
                at: node.at,
                len: node.len,
            })
        }
    }
}

/// Whether an operation commutes or compares.
fn may_exchange(op: &OpRef) -> bool
    ensures { result ≡ may_exchange op.now }
{
    match op {
        OpRef::Fixed(code) => code.is_commutative() || code.is_comparison(),
        OpRef::Chosen(_) | OpRef::Listed(_) | OpRef::Null => false,
    }
}
