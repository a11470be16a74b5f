//! Phis that have one operand.
ghost use Rattle.std.specs.Prelude.{◌≡◌, ◌&&◌};
ghost use Rattle.pm_wide.specs.Types.{same_type as is_same_type};
ghost use Rattle.gim_ast.specs.Functions.{is_name as is_this_name, same_operand as is_same_operand};
ghost use Rattle.cfg_tidy.specs.Branches.{first_some};
ghost use Rattle.cfg_tidy.specs.Phis as phis_spec;

use gim_ast::{Block, Phi};
use pm_wide::{IntType, Operand};

/// Whether an operand is the name.
fn is_name(operand: &Operand, name: u32) -> bool
    ensures { result ≡ is_this_name name operand.now }
{
    match operand {
        Operand::Name(version, _) => *version == name,
        Operand::Const(_) => false,
    }
}

/// Whether two operands are one name, or one constant.
fn same_operand(a: &Operand, b: &Operand) -> bool
    ensures { result ≡ is_same_operand a.now b.now }
{
    match (a, b) {
        (Operand::Name(x, t), Operand::Name(y, u)) => *x == *y && same_type(*t, *u),
        (Operand::Const(v), Operand::Const(w)) => v.bits() == w.bits() && same_type(v.ty(), w.ty()),
        _ => false,
    }
}

/// Whether two types are one.
fn same_type(a: IntType, b: IntType) -> bool
    ensures { result ≡ is_same_type a b }
{
    a.bits() == b.bits() && a.unsigned() == b.unsigned()
}

/// The operand of the first argument that is not the name.
fn first_other(args: &[(u32, Operand)], name: u32) -> Option<Operand>
    ensures { result ≡ first_some (phis_spec.other_operand name) args.now }
{
    let mut rest = args;
    while let [arg, more @ ..] = rest {
        if !is_name(&arg.1, name) {
            return Some(arg.1);
        }
        rest = more;
    }
    None
}

/// Whether each argument is the operand, or the name.
fn all_are(args: &[(u32, Operand)], name: u32, operand: &Operand) -> bool
    ensures { result ≡ phis_spec.all_are name operand.now args.now }
{
    args.iter().all(|arg| is_name(&arg.1, name) || same_operand(operand, &arg.1))
}

/// The one operand that the arguments are, but for those that are the name of the phi.
fn only_operand(phi: &Phi) -> Option<Operand>
    ensures { result ≡ phis_spec.only_operand phi.now }
{
    let operand = first_other(phi.args.as_slice(), phi.name)?;
    if all_are(phi.args.as_slice(), phi.name, &operand) {
        Some(operand)
    } else {
        None
    }
}

/// The first of these phis that has such an operand: its name, and the operand.
fn first_copy_among(phis: &[Phi]) -> Option<(u32, Operand)>
    ensures { result ≡ first_some phis_spec.copy_of phis.now }
{
    let mut rest = phis;
    while let [phi, more @ ..] = rest {
        if let Some(operand) = only_operand(phi) {
            return Some((phi.name, operand));
        }
        rest = more;
    }
    None
}

/// The first phi in program order that has such an operand: its name, and the operand.
pub(crate) fn first_copy(blocks: &[Block]) -> Option<(u32, Operand)>
    ensures { result ≡ phis_spec.first_copy blocks.now }
{
    let mut rest = blocks;
    while let [block, more @ ..] = rest {
        if let Some(copy) = first_copy_among(block.phis.as_slice()) {
            return Some(copy);
        }
        rest = more;
    }
    None
}
