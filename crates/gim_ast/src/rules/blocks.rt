//! The rules on blocks, jumps and phis.

ghost use Rattle.std.specs.Prelude.{◌≡◌};
ghost use Rattle.std.specs.List.{list_all, list_any};
ghost use Rattle.gim_ast.specs.WellFormed.{is_empty, entry_has_no_phi};
ghost use Rattle.gim_ast.specs.RulesByPart.{has_number, distinct_numbers, stays_in, jumps_stay_in, leads_to, is_way, comes_from, distinct_args, arg_has_way, way_has_arg, phi_by_part, phis_by_part, blocks_by_part};

use crate::{Block, End, Function, Phi};
use pm_wide::Operand;

/// Whether there are no phis.
fn no_phis(phis: &[Phi]) -> bool
    ensures { result ≡ is_empty phis.now }
{
    match phis {
        [] => true,
        _ => false,
    }
}

/// Whether there are no arguments.
fn no_args(args: &[(u32, Operand)]) -> bool
    ensures { result ≡ is_empty args.now }
{
    match args {
        [] => true,
        _ => false,
    }
}

/// Whether there is an entry, without phis.
fn entry_has_no_phi(blocks: &[Block]) -> bool
    ensures { result ≡ entry_has_no_phi blocks.now }
{
    match blocks {
        [] => false,
        [entry, ..] => no_phis(entry.phis.as_slice()),
    }
}

/// Whether a block has the number.
fn have_number(blocks: &[Block], number: u32) -> bool
    ensures { result ≡ list_any (has_number number) blocks.now }
{
    blocks.iter().any(|block| block.number == number)
}

/// Whether no two blocks have one number.
fn distinct_numbers(blocks: &[Block]) -> bool
    ensures { result ≡ distinct_numbers blocks.now }
{
    let mut rest = blocks;
    while let [block, more @ ..] = rest {
        if have_number(more, block.number) {
            return false;
        }
        rest = more;
    }
    true
}

/// Whether the jumps of an end lead to blocks of the list.
fn stays_in(blocks: &[Block], end: &End) -> bool
    ensures { result ≡ stays_in blocks.now end.now }
{
    match end {
        End::Goto(to) => have_number(blocks, *to),
        End::If(_, _, _, yes_to, no_to) => {
            have_number(blocks, *yes_to) && have_number(blocks, *no_to)
        }
        End::Return(_) => true,
    }
}

/// Whether each jump leads to a block.
fn jumps_stay(blocks: &[Block]) -> bool
    ensures { result ≡ list_all (jumps_stay_in blocks.now) blocks.now }
{
    blocks.iter().all(|block| stays_in(blocks, &block.end))
}

/// Whether a jump of the end leads to the block of that number.
fn leads_to(end: &End, number: u32) -> bool
    ensures { result ≡ leads_to number end.now }
{
    match end {
        End::Goto(to) => *to == number,
        End::If(_, _, _, yes_to, no_to) => *yes_to == number || *no_to == number,
        End::Return(_) => false,
    }
}

/// Whether the block is that of number `from` and jumps to the block of number `to`.
fn is_way(block: &Block, from: u32, to: u32) -> bool
    ensures { result ≡ is_way from to block.now }
{
    leads_to(&block.end, to) && block.number == from
}

/// Whether the block of number `from` jumps to that of number `to`.
fn have_way(blocks: &[Block], from: u32, to: u32) -> bool
    ensures { result ≡ list_any (is_way from to) blocks.now }
{
    blocks.iter().any(|block| is_way(block, from, to))
}

/// Whether an argument comes from the block of that number.
fn any_comes_from(args: &[(u32, Operand)], from: u32) -> bool
    ensures { result ≡ list_any (comes_from from) args.now }
{
    args.iter().any(|arg| arg.0 == from)
}

/// Whether no two arguments come from one block.
fn distinct_args(args: &[(u32, Operand)]) -> bool
    ensures { result ≡ distinct_args args.now }
{
    let mut rest = args;
    while let [arg, more @ ..] = rest {
        if any_comes_from(more, arg.0) {
            return false;
        }
        rest = more;
    }
    true
}

/// Whether each argument comes from a block that jumps to the block of that number.
fn args_have_ways(blocks: &[Block], number: u32, args: &[(u32, Operand)]) -> bool
    ensures { result ≡ list_all (arg_has_way blocks.now number) args.now }
{
    args.iter().all(|arg| have_way(blocks, arg.0, number))
}

/// Whether the block has an argument, if it jumps to the block of that number.
fn way_has_arg(args: &[(u32, Operand)], number: u32, block: &Block) -> bool
    ensures { result ≡ way_has_arg args.now number block.now }
{
    if leads_to(&block.end, number) {
        any_comes_from(args, block.number)
    } else {
        true
    }
}

/// Whether each block that jumps to the block of that number has an argument.
fn ways_have_args(args: &[(u32, Operand)], number: u32, blocks: &[Block]) -> bool
    ensures { result ≡ list_all (way_has_arg args.now number) blocks.now }
{
    blocks.iter().all(|block| way_has_arg(args, number, block))
}

/// Whether the phi of the block of that number has one argument for each block that jumps there, and no other.
fn phi_holds(blocks: &[Block], number: u32, phi: &Phi) -> bool
    ensures { result ≡ phi_by_part blocks.now number phi.now }
{
    let args = phi.args.as_slice();
    distinct_args(args)
        && args_have_ways(blocks, number, args)
        && ways_have_args(args, number, blocks)
        && !no_args(args)
}

/// Whether each phi of the block of that number keeps the rule.
fn phis_hold(blocks: &[Block], number: u32, phis: &[Phi]) -> bool
    ensures { result ≡ list_all (phi_by_part blocks.now number) phis.now }
{
    phis.iter().all(|phi| phi_holds(blocks, number, phi))
}

/// Whether each phi keeps the rule.
fn all_phis_hold(blocks: &[Block]) -> bool
    ensures { result ≡ list_all (phis_by_part blocks.now) blocks.now }
{
    blocks.iter().all(|block| phis_hold(blocks, block.number, block.phis.as_slice()))
}

/// Whether the rules on blocks, jumps and phis hold.
pub(crate) fn blocks_hold(function: &Function) -> bool
    ensures { result ≡ blocks_by_part function.now }
{
    let blocks = function.blocks.as_slice();
    entry_has_no_phi(blocks)
        && distinct_numbers(blocks)
        && jumps_stay(blocks)
        && all_phis_hold(blocks)
}
