//! Operations as subjects of matching, over the tables.
ghost use Rattle.std.specs.Prelude.{◌≡◌, IsTrue, length, slice_get};
ghost use Rattle.std.specs.Option.{option_and_then, option_copied};
ghost use Rattle.pm_ops.specs.Codes.{arity_of};
ghost use Rattle.gim_ast.specs.WellFormed.{is_well_formed};
ghost use Rattle.gim_terms.specs.FullOperations.{operand_is_there};
ghost use Rattle.gim_terms.specs.Lookups.{rhs_behind};
ghost use Rattle.gim_terms.specs.Reached.{has_code, holds_at, operand_at as operand_there};
ghost use Rattle.gim_terms.specs.Reached.{operand_of, operation_at, reached};
ghost use Rattle.gim_terms.specs.Views.{operation, operation_behind, operation_of_rhs, view_of};

use crate::tables::Tables;
use gim_ast::Rhs;
use gim_terms::{both_same, both_same_number};
use pattern_rows::{Place, Probe, ProbeAt, Steps, Subject};
use pd_ast::holds as predicate_holds;
use pm_ops::Code;
use pm_wide::Operand;

/// An operation with as many operands as its code takes, and what stands behind its operands in a
/// function.
///
/// A subject of matching for every ledger. Names that statements assign are looked through, copies
/// and phis aren't. An absent place fails every test.
#[derive(Clone, Copy)]
pub struct OperationView<'t, 'f, 'a> {
    tables: &'t Tables<'f>,
    code: Code,
    operands: &'a [Operand],
    ghost well_formed: { IsTrue (is_well_formed tables.now) },
    ghost full: { length operands.now ≡ arity_of code },
}

impl<'t, 'f, 'a> OperationView<'t, 'f, 'a> {
    /// An operation on operands.
    pub fn new(
        tables: &'t Tables<'f>,
        code: Code,
        operands: &'a [Operand],
    ) -> OperationView<'t, 'f, 'a>
        requires { length operands.now ≡ arity_of code }
        ensures tables { result.tables.now ≡ tables.now }
        ensures code { result.code ≡ code }
        ensures operands { result.operands.now ≡ operands.now }
    {
        let _known = tables.function();
        OperationView {
            tables,
            code,
            operands,
        }
    }

    /// The operand at a place.
    fn operand_below(&self, place: &Place) -> Option<Operand>
        ensures { result ≡ operand_there (view_of self.now.tables.now)
            (operation self.now.code self.now.operands.now) place.now }
    {
        match place.steps.as_slice() {
            [] => None,
            [first, rest @ ..] => reach(
                self.tables,
                self.operands.get(*first as usize).copied()?,
                rest,
            ),
        }
    }

    /// Whether the operation at a place has this code.
    fn has_code_below(&self, place: &Place, code: Code) -> bool
        ensures { result ≡ has_code code (operation_at (view_of self.now.tables.now)
            (operation self.now.code self.now.operands.now) place.now) }
    {
        if place.steps.is_empty() {
            return code.same(self.code);
        }
        match self.operand_below(place) {
            Some(operand) => has_code_behind(self.tables, operand, code),
            None => false,
        }
    }

    /// Whether a test holds.
    fn passes(&self, at: &ProbeAt) -> bool
        ensures { result ≡ holds_at (view_of self.now.tables.now)
            (operation self.now.code self.now.operands.now) at.now }
    {
        match &at.probe {
            Probe::IsCode(code) => self.has_code_below(&at.place, *code),
            Probe::Holds(pred) => match self.operand_below(&at.place) {
                Some(operand) => predicate_holds(*pred, operand),
                None => false,
            },
            Probe::SameAs(first) => both_same(
                self.operand_below(first),
                self.operand_below(&at.place),
            ),
            Probe::SameNumberAs(first) => both_same_number(
                self.operand_below(first),
                self.operand_below(&at.place),
            ),
        }
    }
}

impl<L> Subject<L> for OperationView<'_, '_, '_> {
    ghost holds = { λ s at. holds_at (view_of s.tables.now) (operation s.code s.operands.now) at };

    ghost operand_at = { λ s at.
        operand_there (view_of s.tables.now) (operation s.code s.operands.now) at };

    fn test(&self, at: &ProbeAt, steps: &mut Steps<L>) -> bool {
        steps.tick();
        self.passes(at)
    }

    fn operand(&self, place: &Place, steps: &mut Steps<L>) -> Option<Operand> {
        steps.tick();
        self.operand_below(place)
    }

    ghost operands_are_there = { λ s at code has position below.
        operand_is_there s.tables.now s.code s.operands.now s.well_formed s.full
        at code has position below };
}

/// The operand to which the positions lead from an operand on.
fn reach(tables: &Tables<'_>, from: Operand, positions: &[u8]) -> Option<Operand>
    ensures { result ≡ reached (view_of tables.now) from positions.now }
{
    let mut operand = from;
    for position in positions {
        operand = operand_behind(tables, operand, *position)?;
    }
    Some(operand)
}

/// The operand at a position of the operation behind an operand.
fn operand_behind(tables: &Tables<'_>, operand: Operand, position: u8) -> Option<Operand>
    ensures { result ≡ option_and_then (operand_of position)
        (operation_behind (view_of tables.now) operand) }
{
    operand_in(right_behind(tables, operand)?, position)
}

/// The operand at a position of a right side that is an operation.
fn operand_in(rhs: &Rhs, position: u8) -> Option<Operand>
    ensures { result ≡ option_and_then (operand_of position) (operation_of_rhs rhs.now) }
{
    match rhs {
        Rhs::Copy(_) => None,
        Rhs::Op(_, operands) => operands.as_slice().get(position as usize).copied(),
    }
}

/// Whether the operation behind an operand has this code.
fn has_code_behind(tables: &Tables<'_>, operand: Operand, code: Code) -> bool
    ensures { result ≡ has_code code (operation_behind (view_of tables.now) operand) }
{
    match right_behind(tables, operand) {
        Some(Rhs::Op(other, _)) => code.same(*other),
        Some(Rhs::Copy(_)) => false,
        None => false,
    }
}

/// The right side of the statement that assigns an operand.
fn right_behind<'f>(tables: &Tables<'f>, operand: Operand) -> Option<&'f Rhs>
    ensures { option_copied result ≡ rhs_behind (view_of tables.now) operand }
{
    match operand {
        Operand::Name(version, _) => tables.right_side(version),
        Operand::Const(_) => None,
    }
}
