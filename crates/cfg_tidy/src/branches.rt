//! An `if` whose way is known becomes a jump.
ghost use Rattle.std.specs.Prelude.{◌≡◌, ◌∷◌, [], ◌<◌, IsTrue, length, map, filter, not, remove};
ghost use Rattle.pm_wide.specs.Types.{bool_type};
ghost use Rattle.pm_wide.specs.Typing.{well_typed_operation};
ghost use Rattle.gim_ast.specs.Functions.{targets_of};
ghost use Rattle.gim_ast.specs.WellFormed.{is_among};
ghost use Rattle.cfg_tidy.specs.Branches as branches;
ghost use Rattle.cfg_tidy.specs.Branches.{holds_of, compared, without_arg, arg_stays};

use gim_ast::{Block, End, Function, Phi};
use pm_items::Items;
use pm_ops::Code;
use pm_wide::{IntType, Operand, Wide, op_value, well_typed};

/// Whether a comparison of words holds.
fn holds(code: Code, left: Wide, right: Wide) -> bool
    requires { IsTrue (well_typed_operation code bool_type (left.ty ∷ right.ty ∷ [])) }
    ensures { result ≡ holds_of code left right }
{
    match op_value(code, IntType::boolean(), &[left, right]) {
        Ok(word) => word.bits() == 1,
        Err(_) => false,
    }
}

/// Whether a comparison of words holds, where it is well typed.
#[tactic(auto, unfolding(crate::specs::Branches::compared))]
fn compared(code: Code, left: Wide, right: Wide) -> Option<bool>
    ensures { result ≡ branches.compared code left right }
{
    if well_typed(code, IntType::boolean(), &[left.ty(), right.ty()]) {
        Some(holds(code, left, right))
    } else {
        None
    }
}

/// Whether a comparison of two constants holds.
fn decided(code: Code, left: &Operand, right: &Operand) -> Option<bool>
    ensures { result ≡ branches.decided code left.now right.now }
{
    match left {
        Operand::Name(_, _) => None,
        Operand::Const(v) => match right {
            Operand::Name(_, _) => None,
            Operand::Const(w) => compared(code, *v, *w),
        },
    }
}

/// Where an `if` always leads.
fn known_target(end: &End) -> Option<u32>
    ensures { result ≡ branches.known_target end.now }
{
    match end {
        End::Goto(_) | End::Return(_) => None,
        End::If(code, left, right, yes_to, no_to) => {
            if *yes_to == *no_to {
                return Some(*yes_to);
            }
            let holds = decided(*code, left, right)?;
            Some(if holds { *yes_to } else { *no_to })
        }
    }
}

/// The first block that ends in an `if` whose way is known: its number, its end, and where it leads.
pub(crate) fn first_branch(blocks: &[Block]) -> Option<(u32, End, u32)>
    ensures { result ≡ branches.first_branch blocks.now }
{
    let mut rest = blocks;
    while let [block, more @ ..] = rest {
        if let Some(to) = known_target(&block.end) {
            return Some((block.number, block.end, to));
        }
        rest = more;
    }
    None
}

/// Makes a block that ended so jump to one target alone.
#[tactic(auto, unfolding(crate::specs::Branches::branched))]
pub(crate) fn branch(function: &mut Function, number: u32, end: &End, to: u32)
    ensures { function.new ≡ branches.branched number end.now to function.old }
{
    branch_in_blocks(&mut function.blocks, number, end, to);
}

/// The same in blocks.
fn branch_in_blocks(blocks: &mut Items<Block>, number: u32, end: &End, to: u32)
    ensures { blocks.new ≡ map (branches.branched_in_block number end.now to) blocks.old }
{
    for i in 0..blocks.len() {
        branch_in_block(blocks.at_mut(i), number, end, to);
    }
}

/// The same in one block.
fn branch_in_block(block: &mut Block, number: u32, end: &End, to: u32)
    ensures { block.new ≡ branches.branched_in_block number end.now to block.old }
{
    if is_lost(end, to, block.number) {
        remove_args(&mut block.phis, number);
    }
    if block.number == number {
        block.end = End::Goto(to);
    }
}

/// Whether an end led to the block, and doesn't any more where it leads to one target alone.
fn is_lost(end: &End, to: u32, number: u32) -> bool
    ensures { result ≡ branches.is_lost end.now to number }
{
    leads_to(end, number) && number != to
}

/// Whether an end leads to the block.
fn leads_to(end: &End, number: u32) -> bool
    ensures { result ≡ is_among number (targets_of end.now) }
{
    match end {
        End::Goto(to) => *to == number,
        End::If(_, _, _, yes_to, no_to) => *yes_to == number || *no_to == number,
        End::Return(_) => false,
    }
}

/// Takes the arguments for a block out of phis.
pub(crate) fn remove_args(phis: &mut Items<Phi>, from: u32)
    ensures { phis.new ≡ map (without_arg from) phis.old }
{
    for i in 0..phis.len() {
        remove_args_of(phis.at_mut(i), from);
    }
}

/// Takes the arguments for a block out of a phi.
fn remove_args_of(phi: &mut Phi, from: u32)
    ensures { phi.new ≡ without_arg from phi.old }
{
    keep_args(&mut phi.args, from);
}

/// Keeps the arguments for other blocks.
fn keep_args(args: &mut Items<(u32, Operand)>, from: u32)
    ensures { args.new ≡ filter (arg_stays from) args.old }
{
    for i in (0..args.len()).rev() {
        if args.at(i).0 == from {
            remove_arg(args, i);
        }
    }
}

/// Takes the argument at a place out.
fn remove_arg(args: &mut Items<(u32, Operand)>, at: usize)
    requires { at < length args.old }
    ensures { args.new ≡ remove args.old at }
{
    args.remove(at);
}
