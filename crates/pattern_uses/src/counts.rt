//! How many captures and operations a pattern has.
ghost use Rattle.std.specs.Prelude.{◌≡◌, ◌-◌, ◌^◌, map, min, IfOk};
ghost use Rattle.std.specs.List.{list_any};
ghost use Rattle.std.specs.Str.{bytes_eq};
ghost use Rattle.pattern_uses.specs.Counts.{capture_count, distinct};
ghost use Rattle.pattern_uses.specs.Counts.{node_operations, operations, total};

use crate::captures::capture_names;
use pd_ast::{Pat, PatNode};
use pm_items::Shared;
use pm_ops::{OutOfMemory, Text};
use std::alloc::Global;

/// How many captures a pattern has, each name counted once.
pub fn capture_count(alloc: Global, pattern: &Pat) -> Result<usize, OutOfMemory>
    ensures { IfOk result (λ count. count ≡ capture_count pattern.now) }
{
    let names = capture_names(alloc, pattern)?;
    Ok(distinct(names.as_slice()))
}

/// How many different names there are.
fn distinct(names: &[Text]) -> usize
    ensures { result ≡ distinct names.now }
{
    let mut count: usize = 0;
    for i in 0..names.len() {
        if !is_among(&names[i], &names[i + 1..]) {
            count += 1;
        }
    }
    count
}

/// Whether a name is one of these.
pub fn is_among(name: &Text, names: &[Text]) -> bool
    ensures { result ≡ list_any (bytes_eq name.now) names.now }
{
    for other in names {
        if name.bytes() == other.bytes() {
            return true;
        }
    }
    false
}

/// How many operations a pattern has. Stands still at 2^64 - 1.
#[cycle(operations)]
pub fn operations(pattern: &Pat) -> u64
    ensures { result ≡ min (operations pattern.now) (2 ^ 64 - 1) }
{
    match pattern {
        Pat::Hole(_) | Pat::Test(_, _) => 0,
        Pat::Call(_, args, _) => operations_among(args.as_slice()),
        Pat::Node(node) => node_operations(node),
    }
}

#[cycle(operations)]
fn node_operations(node: &PatNode) -> u64
    ensures { result ≡ min (node_operations node.now) (2 ^ 64 - 1) }
{
    operations_among(node.args.as_slice()).saturating_add(1)
}

#[cycle(operations)]
fn operations_among(patterns: &[Shared<Pat>]) -> u64
    ensures { result ≡ min (total (map operations patterns.now)) (2 ^ 64 - 1) }
{
    let mut count: u64 = 0;
    for pattern in patterns {
        count = count.saturating_add(operations(pattern.get()));
    }
    count
}
