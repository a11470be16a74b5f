//! One block: its phis, its statements and its end.
ghost use Rattle.std.specs.Prelude.{◌≡◌, ◌≤◌, length, take, List, [], ◌∷◌, IsTrue, OnOk, OnErr, map};
ghost use Rattle.std.specs.List.{list_all};
ghost use Rattle.std.specs.Option.{ok_or};
ghost use Rattle.pm_wide.specs.Operations.{operation_value};
ghost use Rattle.pm_wide.specs.Typing.{well_typed_operation};
ghost use Rattle.pm_wide.specs.Types.{bool_type};
ghost use Rattle.gim_ast.specs.declared.function.Stmt.{Stmt};
ghost use Rattle.gim_ast.specs.Functions.{operands_of_end, operands_of_rhs};
ghost use Rattle.gim_ast.specs.WellFormed.{end_fits, operand_holds, rhs_fits, type_of};
ghost use Rattle.gim_ast.specs.Runs.{assign_each, holds, lead_of, pass_block, phi_word, word_of_operand, rhs_value, pass_stmts, Stuck};
ghost use Rattle.gim_run.specs.Slots.{env_of, AreSlots, stmt_holds, passage_of};
ghost use Rattle.gim_run.specs.Ways.{lead_of_way};
ghost use Rattle.gim_run.specs.Blocks.{block_holds, pair_fits, phi_pair};

use crate::indexed::Indexed;
use crate::slots;
use gim_ast::{Block, End, Phi, Rhs, Stmt};
use pm_ops::Code;
use pm_wide::{IntType, Operand, Undefined, Wide, op_value};

/// The value of an operation on operands.
#[tactic(auto, unfolding(pm_wide::specs::Operations::operation_value, pm_wide::specs::Typing::well_typed_operation))]
fn operation(
    function: &Indexed,
    slots: &[Wide],
    code: Code,
    ty: IntType,
    operands: &[Operand],
) -> Result<Wide, Undefined>
    requires slots { AreSlots function.now slots.now }
    requires known { IsTrue (list_all (operand_holds function.now) operands.now) }
    requires typed { IsTrue (well_typed_operation code ty (map type_of operands.now)) }
    ensures { result ≡ ok_or (operation_value code ty (map (word_of_operand (env_of function.now.names slots.now)) operands.now)) (record {}) }
{
    match operands {
        [a] => one(function, slots, code, ty, *a),
        [a, b] => two(function, slots, code, ty, *a, *b),
        [a, b, c] => three(function, slots, code, ty, *a, *b, *c),
        _ => Err(Undefined),
    }
}

/// The value of an operation on one operand.
fn one(
    function: &Indexed,
    slots: &[Wide],
    code: Code,
    ty: IntType,
    a: Operand,
) -> Result<Wide, Undefined>
    requires slots { AreSlots function.now slots.now }
    requires known { IsTrue (list_all (operand_holds function.now) (a ∷ [])) }
    requires typed { IsTrue (well_typed_operation code ty (map type_of (a ∷ []))) }
    ensures { result ≡ ok_or (operation_value code ty (map (word_of_operand (env_of function.now.names slots.now)) (a ∷ []))) (record {}) }
{
    op_value(code, ty, &[slots::word(function, slots, a)])
}

/// The value of an operation on two operands.
fn two(
    function: &Indexed,
    slots: &[Wide],
    code: Code,
    ty: IntType,
    a: Operand,
    b: Operand,
) -> Result<Wide, Undefined>
    requires slots { AreSlots function.now slots.now }
    requires known { IsTrue (list_all (operand_holds function.now) (a ∷ b ∷ [])) }
    requires typed { IsTrue (well_typed_operation code ty (map type_of (a ∷ b ∷ []))) }
    ensures { result ≡ ok_or (operation_value code ty (map (word_of_operand (env_of function.now.names slots.now)) (a ∷ b ∷ []))) (record {}) }
{
    let a = slots::word(function, slots, a);
    let b = slots::word(function, slots, b);
    op_value(code, ty, &[a, b])
}

/// The value of an operation on three operands.
fn three(
    function: &Indexed,
    slots: &[Wide],
    code: Code,
    ty: IntType,
    a: Operand,
    b: Operand,
    c: Operand,
) -> Result<Wide, Undefined>
    requires slots { AreSlots function.now slots.now }
    requires known { IsTrue (list_all (operand_holds function.now) (a ∷ b ∷ c ∷ [])) }
    requires typed { IsTrue (well_typed_operation code ty (map type_of (a ∷ b ∷ c ∷ []))) }
    ensures { result ≡ ok_or (operation_value code ty (map (word_of_operand (env_of function.now.names slots.now)) (a ∷ b ∷ c ∷ []))) (record {}) }
{
    let a = slots::word(function, slots, a);
    let b = slots::word(function, slots, b);
    let c = slots::word(function, slots, c);
    op_value(code, ty, &[a, b, c])
}

/// The value of a right side.
fn right(function: &Indexed, slots: &[Wide], ty: IntType, rhs: &Rhs) -> Result<Wide, Undefined>
    requires slots { AreSlots function.now slots.now }
    requires known { IsTrue (list_all (operand_holds function.now) (operands_of_rhs rhs.now)) }
    requires typed { IsTrue (rhs_fits ty rhs.now) }
    ensures { result ≡ ok_or (rhs_value ty (env_of function.now.names slots.now) rhs.now) (record {}) }
{
    match rhs {
        Rhs::Copy(a) => Ok(slots::word(function, slots, *a)),
        Rhs::Op(code, operands) => operation(function, slots, *code, ty, operands.as_slice()),
    }
}

/// Carries a statement out.
fn pass_one(function: &Indexed, slots: &mut [Wide], stmt: &Stmt) -> Result<(), Undefined>
    requires slots { AreSlots function.now slots.old }
    requires holds { IsTrue (stmt_holds function.now stmt.now) }
    ensures on { OnOk result ((rest : List Stmt) → pass_stmts function.now (stmt.now ∷ rest) (env_of function.now.names slots.old)
        ≡ pass_stmts function.now rest (env_of function.now.names slots.new)) }
    ensures stuck { OnErr result ((rest : List Stmt) → pass_stmts function.now (stmt.now ∷ rest) (env_of function.now.names slots.old)
        ≡ Stuck stmt.now.name) }
    ensures slots { AreSlots function.now slots.new }
{
    let ty = slots::type_of_name(function, stmt.name);
    let word = right(function, slots, ty, &stmt.rhs)?;
    slots::put(function, slots, stmt.name, word);
    Ok(())
}

/// Carries statements out, and tells the first that has no value.
#[tactic(auto, using(std::proofs::lemmas::List::at_drop_more, crate::proofs::SlotLemmas::each_holds))]
pub(crate) fn pass(function: &Indexed, slots: &mut [Wide], stmts: &[Stmt]) -> Option<u32>
    requires slots { AreSlots function.now slots.old }
    requires hold { IsTrue (list_all (stmt_holds function.now) stmts.now) }
    ensures passage { pass_stmts function.now stmts.now (env_of function.now.names slots.old) ≡ passage_of result (env_of function.now.names slots.new) }
    ensures slots { AreSlots function.now slots.new }
{
    for at in 0..stmts.len() {
        match pass_one(function, slots, &stmts[at]) {
            Ok(()) => {}
            Err(Undefined) => return Some(stmts[at].name),
        }
    }
    None
}

/// Whether a comparison holds.
fn compares(function: &Indexed, slots: &[Wide], code: Code, left: Operand, right: Operand) -> bool
    requires slots { AreSlots function.now slots.now }
    requires known { IsTrue (list_all (operand_holds function.now) (left ∷ right ∷ [])) }
    requires typed { IsTrue (well_typed_operation code bool_type (map type_of (left ∷ right ∷ []))) }
    ensures { result ≡ holds (env_of function.now.names slots.now) code left right }
{
    match two(function, slots, code, IntType::boolean(), left, right) {
        Ok(word) => word.bits() == 1,
        Err(Undefined) => false,
    }
}

/// Where an end leads: to the block of a number, or out with a word.
pub(crate) enum Way {
    To(u32),
    Out(Wide),
}

/// Follows an end.
#[tactic(auto, using(crate::proofs::SlotLemmas::comparison_typed))]
pub(crate) fn leave(function: &Indexed, slots: &[Wide], end: End) -> Way
    requires slots { AreSlots function.now slots.now }
    requires known { IsTrue (list_all (operand_holds function.now) (operands_of_end end)) }
    requires fits { IsTrue (end_fits function.now end) }
    ensures { lead_of (env_of function.now.names slots.now) end ≡ lead_of_way result }
{
    match end {
        End::Goto(to) => Way::To(to),
        End::If(code, left, right, yes, no) => {
            if compares(function, slots, code, left, right) {
                Way::To(yes)
            } else {
                Way::To(no)
            }
        }
        End::Return(a) => Way::Out(slots::word(function, slots, a)),
    }
}

/// What a phi reads where the block of the number `from` was left.
#[tactic(auto, using(std::proofs::lemmas::List::at_drop_more))]
fn phi(function: &Indexed, slots: &[Wide], from: u32, phi: &Phi) -> Wide
    requires slots { AreSlots function.now slots.now }
    ensures { result ≡ phi_word function.now from (env_of function.now.names slots.now) phi.now }
{
    let args = phi.args.as_slice();
    for at in 0..args.len() {
        if args[at].0 == from {
            return slots::word(function, slots, args[at].1);
        }
    }
    Wide::reduce(0, slots::type_of_name(function, phi.name))
}

/// Reads phis, each with its name into its place of the scratch room.
#[tactic(auto, using(std::proofs::lemmas::List::at_drop_more))]
fn read_phis(
    function: &Indexed,
    slots: &[Wide],
    scratch: &mut [(u32, Wide)],
    from: u32,
    phis: &[Phi],
)
    requires slots { AreSlots function.now slots.now }
    requires room { length phis.now ≤ length scratch.old }
    ensures read { take (length phis.now) scratch.new ≡ map (phi_pair function.now from (env_of function.now.names slots.now)) phis.now }
    ensures room { length scratch.new ≡ length scratch.old }
{
    for at in 0..phis.len() {
        scratch[at] = (phis[at].name, phi(function, slots, from, &phis[at]));
    }
}

/// Writes what phis have read.
#[tactic(auto, using(std::proofs::lemmas::List::at_drop_more, crate::proofs::SlotLemmas::each_holds, crate::proofs::PhiLemmas::pair_within, crate::proofs::PhiLemmas::pair_typed))]
fn write_phis(function: &Indexed, slots: &mut [Wide], read: &[(u32, Wide)])
    requires slots { AreSlots function.now slots.old }
    requires fit { IsTrue (list_all (pair_fits function.now) read.now) }
    ensures words { assign_each read.now (env_of function.now.names slots.old) ≡ env_of function.now.names slots.new }
    ensures slots { AreSlots function.now slots.new }
{
    for at in 0..read.len() {
        slots::put(function, slots, read[at].0, read[at].1);
    }
}

/// Carries a block out that is entered from the block of the number `from`: its phis and its statements. Tells the first
/// statement that has no value.
#[tactic(auto, using(crate::proofs::PhiLemmas::phis_fit, crate::proofs::PhiLemmas::block_stmts, crate::proofs::PhiLemmas::block_phis), unfolding(gim_ast::specs::Runs::pass_block))]
pub(crate) fn pass_block(
    function: &Indexed,
    slots: &mut [Wide],
    scratch: &mut [(u32, Wide)],
    from: u32,
    block: &Block,
) -> Option<u32>
    requires slots { AreSlots function.now slots.old }
    requires holds { IsTrue (block_holds function.now block.now) }
    requires room { length block.now.phis ≤ length scratch.old }
    ensures passage { pass_block function.now from block.now (env_of function.now.names slots.old) ≡ passage_of result (env_of function.now.names slots.new) }
    ensures slots { AreSlots function.now slots.new }
    ensures room { length scratch.new ≡ length scratch.old }
{
    let phis = block.phis.as_slice();
    read_phis(function, slots, scratch, from, phis);
    write_phis(function, slots, &scratch[..phis.len()]);
    pass(function, slots, block.stmts.as_slice())
}
