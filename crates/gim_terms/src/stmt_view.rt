//! What a row is matched on: a statement, the condition of an `if`, or an inner operation of a
//! result.
ghost use Rattle.std.specs.Prelude.{◌≡◌, ◌<◌, [], Some, IsSome, IsTrue, length};
ghost use Rattle.pm_ops.specs.Codes.{arity_of};
ghost use Rattle.gim_ast.specs.WellFormed.{is_well_formed, stmt_fits};
ghost use Rattle.gim_terms.specs.Reached.{operand_at as operand_there, operation_at, holds_at, has_code};
ghost use Rattle.gim_terms.specs.Rights.{operands_in};
ghost use Rattle.gim_terms.specs.Targets.{target, target_of_stmt, target_at_if};
ghost use Rattle.gim_terms.specs.Targets.{operation_at_stmt, target_at_stmt};
ghost use Rattle.gim_terms.specs.Views.{view_of, operation, operation_of_rhs};
ghost use Rattle.gim_terms.specs.FullOperations.{operand_is_there};

use crate::lookup::name_type;
use crate::reach::{has_code_behind, reach, stmt_there};
use crate::right::Right;
use crate::sameness::{both_same, both_same_number};
use gim_ast::{End, Function, Rhs, Stmt};
use pattern_rows::{Place, Probe, ProbeAt, Steps, Subject};
use pd_ast::holds as predicate_holds;
use pm_ops::Code;
use pm_wide::{IntType, Operand};

/// An operation in a function, with the type of its value and what stands behind its operands.
///
/// A subject of matching for every ledger. Its tests go by the places of its operands: names that
/// statements assign are looked through, copies and phis aren't. An absent place fails every test.
#[derive(Clone, Copy)]
pub struct StmtView<'f> {
    function: &'f Function,
    ty: IntType,
    code: Code,
    operands: Right<'f>,
    ghost well_formed: { IsTrue (is_well_formed function.now) },
    ghost full: { length (operands_in operands) ≡ arity_of code },
}

impl<'f> StmtView<'f> {
    /// The statement at a place of a block, both from 0: an operation stands there.
    #[tactic(auto, using(crate::proofs::Constructed::stmt_found_fits, crate::proofs::Constructed::operation_found, crate::proofs::Constructed::target_found, crate::proofs::Constructed::no_stmt_found))]
    pub fn of_stmt(function: &'f Function, block: usize, stmt: usize) -> StmtView<'f>
        requires well_formed { IsTrue (is_well_formed function.now) }
        requires there { IsSome (operation_at_stmt function.now block stmt) }
        ensures function { result.function.now ≡ function.now }
        ensures target { target_at_stmt function.now block stmt ≡
            Some (target result.ty result.code (operands_in result.operands)) }
    {
        match stmt_there(function, block, stmt) {
            Some(found) => StmtView::of_fitting(function, found),
            None => unreachable!(),
        }
    }

    /// A statement of the function that assigns an operation.
    #[tactic(auto, using(crate::proofs::Constructed::has_row, crate::proofs::Constructed::fitting_full, crate::proofs::Constructed::fitting_target))]
    fn of_fitting(function: &'f Function, stmt: &'f Stmt) -> StmtView<'f>
        requires well_formed { IsTrue (is_well_formed function.now) }
        requires fits { IsTrue (stmt_fits function.now stmt.now) }
        requires there { IsSome (operation_of_rhs stmt.now.rhs) }
        ensures function { result.function.now ≡ function.now }
        ensures target { target_of_stmt function.now stmt.now ≡
            Some (target result.ty result.code (operands_in result.operands)) }
    {
        let Some(ty) = name_type(function, stmt.name) else {
            unreachable!()
        };
        match &stmt.rhs {
            Rhs::Op(code, operands) => StmtView {
                function,
                ty,
                code: *code,
                operands: Right::Listed(operands.as_slice()),
            },
            Rhs::Copy(_) => unreachable!(),
        }
    }

    /// The condition at the end of a block, which is an `if`.
    #[tactic(auto, using(crate::proofs::Constructed::condition_full))]
    pub fn of_if(function: &'f Function, block: usize) -> StmtView<'f>
        requires well_formed { IsTrue (is_well_formed function.now) }
        requires there { IsSome (target_at_if function.now block) }
        ensures function { result.function.now ≡ function.now }
        ensures target { target_at_if function.now block ≡
            Some (target result.ty result.code (operands_in result.operands)) }
    {
        match function.blocks.get(block) {
            Some(home) => match home.end {
                End::If(code, left, right, _, _) => StmtView {
                    function,
                    ty: IntType::boolean(),
                    code,
                    operands: Right::Pair(left, right),
                },
                End::Goto(_) | End::Return(_) => unreachable!(),
            },
            None => unreachable!(),
        }
    }

    /// An operation that doesn't stand in the function, with as many operands as its code takes.
    pub fn of_node(
        function: &'f Function,
        code: Code,
        ty: IntType,
        args: &'f [Operand],
    ) -> StmtView<'f>
        requires well_formed { IsTrue (is_well_formed function.now) }
        requires full { length args.now ≡ arity_of code }
        ensures function { result.function.now ≡ function.now }
        ensures target { target result.ty result.code (operands_in result.operands) ≡
            target ty code args.now }
    {
        StmtView {
            function,
            ty,
            code,
            operands: Right::Listed(args),
        }
    }

    /// The type of the operation's value.
    pub fn ty(&self) -> IntType
        ensures { result ≡ self.now.ty }
    {
        self.ty
    }

    /// The operand at a place.
    fn operand_below(&self, place: &Place) -> Option<Operand>
        ensures { result ≡ operand_there (view_of self.now.function.now)
            (operation self.now.code (operands_in self.now.operands)) place.now }
    {
        match place.steps.as_slice() {
            [] => None,
            [first, rest @ ..] => reach(self.function, self.operands.get(*first)?, rest),
        }
    }

    /// Whether the operation at a place has this code.
    fn has_code_below(&self, place: &Place, code: Code) -> bool
        ensures { result ≡ has_code code (operation_at (view_of self.now.function.now)
            (operation self.now.code (operands_in self.now.operands)) place.now) }
    {
        if place.steps.is_empty() {
            return code.same(self.code);
        }
        match self.operand_below(place) {
            Some(operand) => has_code_behind(self.function, operand, code),
            None => false,
        }
    }

    /// Whether a test holds.
    fn passes(&self, at: &ProbeAt) -> bool
        ensures { result ≡ holds_at (view_of self.now.function.now)
            (operation self.now.code (operands_in self.now.operands)) at.now }
    {
        match &at.probe {
            Probe::IsCode(code) => self.has_code_below(&at.place, *code),
            Probe::Holds(pred) => match self.operand_below(&at.place) {
                Some(operand) => predicate_holds(*pred, operand),
                None => false,
            },
            Probe::SameAs(first) => both_same(
                self.operand_below(first),
                self.operand_below(&at.place),
            ),
            Probe::SameNumberAs(first) => both_same_number(
                self.operand_below(first),
                self.operand_below(&at.place),
            ),
        }
    }
}

impl<L> Subject<L> for StmtView<'_> {
    ghost holds = { λ s at. holds_at (view_of s.function.now) (operation s.code (operands_in s.operands)) at };

    ghost operand_at = { λ s at. operand_there (view_of s.function.now) (operation s.code (operands_in s.operands)) at };

    fn test(&self, at: &ProbeAt, steps: &mut Steps<L>) -> bool {
        steps.tick();
        self.passes(at)
    }

    fn operand(&self, place: &Place, steps: &mut Steps<L>) -> Option<Operand> {
        steps.tick();
        self.operand_below(place)
    }

    ghost operands_are_there = { λ s at code has position below. operand_is_there s.function.now s.code (operands_in s.operands) s.well_formed s.full at code has position below };
}
