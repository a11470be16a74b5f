//! Which names are assigned and used, and that none is assigned twice.

ghost use Rattle.std.specs.Prelude.{◌≡◌, ◌||◌};
ghost use Rattle.std.specs.List.{list_any};
ghost use Rattle.gim_ast.specs.Functions.{is_name, is_used, operands_of_rhs, operands_of_end};
ghost use Rattle.gim_ast.specs.WellFormed.{is_assigned};
ghost use Rattle.gim_ast.specs.RulesByPart.{arg_is, uses_in_phi, uses_in_stmt, uses_in_block, phi_assigns, stmt_assigns, block_assigns, distinct_phis, distinct_stmts, distinct_names, is_new, is_apart};

use crate::{Block, End, Function, Phi, Rhs, Stmt};
use pm_wide::Operand;

impl Function {
    /// Whether some operand of the function is the name. Takes no memory.
    #[tactic(auto, using(crate::proofs::NameParts::used_by_block))]
    pub fn uses(&self, name: u32) -> bool
        ensures { result ≡ is_used self.now name }
    {
        are_using(self.blocks.as_slice(), name)
    }

    /// Whether a phi or a statement assigns the name. Takes no memory.
    #[tactic(auto, using(crate::proofs::NameParts::assigned_by_block))]
    pub fn assigns(&self, name: u32) -> bool
        ensures { result ≡ is_assigned self.now name }
    {
        are_assigning(self.blocks.as_slice(), name)
    }
}

/// Whether the operand is the name.
fn is_name(operand: &Operand, name: u32) -> bool
    ensures { result ≡ is_name name operand.now }
{
    match operand {
        Operand::Name(version, _) => *version == name,
        Operand::Const(_) => false,
    }
}

/// Whether one of the operands is the name.
fn any_is_name(operands: &[Operand], name: u32) -> bool
    ensures { result ≡ list_any (is_name name) operands.now }
{
    operands.iter().any(|operand| is_name(operand, name))
}

/// Whether an argument is the name.
fn any_arg_is(args: &[(u32, Operand)], name: u32) -> bool
    ensures { result ≡ list_any (arg_is name) args.now }
{
    args.iter().any(|arg| is_name(&arg.1, name))
}

/// Whether one of the phis uses the name.
fn any_phi_uses(phis: &[Phi], name: u32) -> bool
    ensures { result ≡ list_any (uses_in_phi name) phis.now }
{
    phis.iter().any(|phi| any_arg_is(phi.args.as_slice(), name))
}

/// Whether a right side uses the name.
fn rhs_uses(rhs: &Rhs, name: u32) -> bool
    ensures { result ≡ list_any (is_name name) (operands_of_rhs rhs.now) }
{
    match rhs {
        Rhs::Copy(operand) => is_name(operand, name),
        Rhs::Op(_, operands) => any_is_name(operands.as_slice(), name),
    }
}

/// Whether one of the statements uses the name.
fn any_stmt_uses(stmts: &[Stmt], name: u32) -> bool
    ensures { result ≡ list_any (uses_in_stmt name) stmts.now }
{
    stmts.iter().any(|stmt| rhs_uses(&stmt.rhs, name))
}

/// Whether an end uses the name.
fn end_uses(end: &End, name: u32) -> bool
    ensures { result ≡ list_any (is_name name) (operands_of_end end.now) }
{
    match end {
        End::Goto(_) => false,
        End::If(_, left, right, _, _) => is_name(left, name) || is_name(right, name),
        End::Return(operand) => is_name(operand, name),
    }
}

/// Whether a phi or a statement of the block uses the name.
fn body_uses(block: &Block, name: u32) -> bool
    ensures { result ≡ (list_any (uses_in_phi name) block.now.phis || list_any (uses_in_stmt name) block.now.stmts) }
{
    any_phi_uses(block.phis.as_slice(), name) || any_stmt_uses(block.stmts.as_slice(), name)
}

/// Whether the block uses the name.
fn block_uses(block: &Block, name: u32) -> bool
    ensures { result ≡ uses_in_block name block.now }
{
    let in_body = body_uses(block, name);
    let in_end = end_uses(&block.end, name);
    in_body || in_end
}

/// Whether a block uses the name.
pub(crate) fn are_using(blocks: &[Block], name: u32) -> bool
    ensures { result ≡ list_any (uses_in_block name) blocks.now }
{
    blocks.iter().any(|block| block_uses(block, name))
}

/// Whether one of the phis assigns the name.
fn any_phi_assigns(phis: &[Phi], name: u32) -> bool
    ensures { result ≡ list_any (phi_assigns name) phis.now }
{
    phis.iter().any(|phi| phi.name == name)
}

/// Whether one of the statements assigns the name.
fn any_stmt_assigns(stmts: &[Stmt], name: u32) -> bool
    ensures { result ≡ list_any (stmt_assigns name) stmts.now }
{
    stmts.iter().any(|stmt| stmt.name == name)
}

/// Whether the block assigns the name.
fn block_assigns(block: &Block, name: u32) -> bool
    ensures { result ≡ block_assigns name block.now }
{
    any_phi_assigns(block.phis.as_slice(), name) || any_stmt_assigns(block.stmts.as_slice(), name)
}

/// Whether a block assigns the name.
pub(crate) fn are_assigning(blocks: &[Block], name: u32) -> bool
    ensures { result ≡ list_any (block_assigns name) blocks.now }
{
    blocks.iter().any(|block| block_assigns(block, name))
}

/// Whether no statement assigns the name of a later one, nor one that the blocks behind assign.
fn distinct_stmts(stmts: &[Stmt], after: &[Block]) -> bool
    ensures { result ≡ distinct_stmts stmts.now after.now }
{
    let mut rest = stmts;
    while let [stmt, more @ ..] = rest {
        if any_stmt_assigns(more, stmt.name) || are_assigning(after, stmt.name) {
            return false;
        }
        rest = more;
    }
    true
}

/// Whether the name is assigned by none of these.
fn is_new(name: u32, phis: &[Phi], stmts: &[Stmt], after: &[Block]) -> bool
    ensures { result ≡ is_new name phis.now stmts.now after.now }
{
    !any_phi_assigns(phis, name) && !any_stmt_assigns(stmts, name) && !are_assigning(after, name)
}

/// Whether no phi assigns the name of a later one, of a statement, nor one that the blocks behind assign.
fn distinct_phis(phis: &[Phi], stmts: &[Stmt], after: &[Block]) -> bool
    ensures { result ≡ distinct_phis phis.now stmts.now after.now }
{
    let mut rest = phis;
    while let [phi, more @ ..] = rest {
        if !is_new(phi.name, more, stmts, after) {
            return false;
        }
        rest = more;
    }
    true
}

/// Whether the block assigns no name twice, nor one that the blocks behind assign.
fn is_apart(block: &Block, after: &[Block]) -> bool
    ensures { result ≡ is_apart block.now after.now }
{
    distinct_phis(block.phis.as_slice(), block.stmts.as_slice(), after)
        && distinct_stmts(block.stmts.as_slice(), after)
}

/// Whether no name is assigned twice.
pub(crate) fn distinct_names(blocks: &[Block]) -> bool
    ensures { result ≡ distinct_names blocks.now }
{
    let mut rest = blocks;
    while let [block, more @ ..] = rest {
        if !is_apart(block, more) {
            return false;
        }
        rest = more;
    }
    true
}
