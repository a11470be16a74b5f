//! Whether a pattern is one of a row, without choices left.
ghost use Rattle.std.specs.Prelude.{◌≡◌, map};
ghost use Rattle.pattern_rows.specs.Patterns.{node_of, pattern_of, patterns as plain};
ghost use Rattle.pattern_rows.specs.Patterns.{is_expanded as expanded, are_expanded as all_expanded};

use pd_ast::{OpRef, Pat, PatNode};
use pm_items::Shared;

/// Whether no choice is left in a pattern, and each operation has as many operands as its code takes.
#[cycle(expanded)]
pub fn is_expanded(pattern: &Pat) -> bool
    ensures { result ≡ expanded (pattern_of pattern.now) }
{
    match pattern {
        Pat::Hole(_) | Pat::Test(_, _) => true,
        Pat::Call(_, _, _) => false,
        Pat::Node(node) => is_expanded_node(node),
    }
}

/// The same of an operation.
#[cycle(expanded)]
fn is_expanded_node(node: &PatNode) -> bool
    ensures { result ≡ expanded (node_of node.now) }
{
    match &node.op {
        OpRef::Fixed(code) => {
            node.args.len() == code.arity() as usize && are_expanded(node.args.as_slice())
        }
        OpRef::Chosen(_) | OpRef::Listed(_) | OpRef::Null => false,
    }
}

/// The same of each pattern of a list.
#[cycle(expanded)]
fn are_expanded(patterns: &[Shared<Pat>]) -> bool
    ensures { result ≡ all_expanded (plain (map pattern_of patterns.now)) }
{
    for pattern in patterns {
        if !is_expanded(pattern.get()) {
            return false;
        }
    }
    true
}
