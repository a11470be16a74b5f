//! The choice at a subject, and the first subject that has one.
ghost use Rattle.std.specs.Prelude.{◌≡◌, ◌<◌, ◌^◌, [], ◌∷◌, IsTrue, length, map};
ghost use Rattle.std.specs.List.{flat_map};
ghost use Rattle.std.specs.Option.{option_and_then, option_map, ForSome};
ghost use Rattle.pm_wide.specs.Typing.{well_typed_operation};
ghost use Rattle.pm_wide.specs.Operations.{operation_value};
ghost use Rattle.gim_ast.specs.declared.function.Rhs.TheVariants.{Op};
ghost use Rattle.first_patterns.specs.Subjects.{subjects, subjects_of_end, subjects_of_block};
ghost use Rattle.first_rewriting.specs.Rewriting.{bool_zero as zero_operand, words_of, swap_at};
ghost use Rattle.first_rewriting.specs.Rewriting.{fold_at, first_choice, gives_same_condition};
ghost use Rattle.gim_ast.specs.WellFormed.{type_of};
ghost use Rattle.first_patterns.specs.Matching.{row_at};
ghost use Rattle.first_rewriting.specs.Choices.{EachFolds, choice_of, found_of, by_site};
ghost use Rattle.first_rewriting.specs.Choices.{first_found, kind_at, result_of, row_kind};
ghost use Rattle.first_rewriting.specs.Choices.{stmt_subjects};

use crate::firing::{Site, What};
use crate::lookup::name_type;
use crate::matching::{first_row, same_operand};
use first_patterns::Row;
use gim_ast::{Block, End, Function, Rhs, Stmt};
use pm_ops::Code;
use pm_wide::{IntType, Operand, Wide, op_value};

/// What comes in the place of a right side: an operand for each use of its name, or the operation
/// with its operands exchanged.
#[derive(Clone, Copy)]
pub(crate) enum Outcome {
    Operand(Operand),
    Exchanged(Code, Operand, Operand),
}

/// Why a step is made, and what it makes.
#[derive(Clone, Copy)]
pub(crate) struct Choice {
    pub what: What,
    pub outcome: Outcome,
}

/// A subject that has a choice.
#[derive(Clone, Copy)]
pub(crate) struct Found {
    pub site: Site,
    pub choice: Choice,
}

/// A constant before a name, under a code that may exchange them.
fn exchanged(code: Code, operands: &[Operand]) -> Option<Choice>
    ensures { option_map choice_of result ≡ swap_at (Op code operands.now) }
{
    match operands {
        [Operand::Const(w), Operand::Name(x, t)] if code.is_commutative() || code.is_comparison() =>
            {
                let outcome = Outcome::Exchanged(
                    code.swapped(),
                    Operand::Name(*x, *t),
                    Operand::Const(*w),
                );
                Some(Choice {
                    what: What::Swap,
                    outcome,
                })
            }
        _ => None,
    }
}

/// The value of an operation whose operands are all constants.
#[tactic(auto, using(crate::proofs::Folding::no_value), unfolding(pm_wide::specs::Operations::operation_value, pm_wide::specs::Typing::well_typed_operation))]
fn value(code: Code, ty: IntType, operands: &[Operand]) -> Option<Wide>
    requires { IsTrue (well_typed_operation code ty (map type_of operands.now)) }
    ensures { result ≡ option_and_then (operation_value code ty) (words_of operands.now) }
{
    match operands {
        [] => None,
        [a] => unary_value(code, ty, a),
        [a, b] => binary_value(code, ty, a, b),
        [a, b, c] => ternary_value(code, ty, a, b, c),
        [_, _, _, _, ..] => None,
    }
}

fn unary_value(code: Code, ty: IntType, a: &Operand) -> Option<Wide>
    requires { IsTrue (well_typed_operation code ty (type_of a.now ∷ [])) }
    ensures { result ≡ option_and_then (operation_value code ty) (words_of (a.now ∷ [])) }
{
    match a {
        Operand::Const(a) => op_value(code, ty, &[*a]).ok(),
        Operand::Name(_, _) => None,
    }
}

fn binary_value(code: Code, ty: IntType, a: &Operand, b: &Operand) -> Option<Wide>
    requires { IsTrue (well_typed_operation code ty (type_of a.now ∷ type_of b.now ∷ [])) }
    ensures { result ≡ option_and_then (operation_value code ty) (words_of (a.now ∷ b.now ∷ [])) }
{
    match (a, b) {
        (Operand::Const(a), Operand::Const(b)) => op_value(code, ty, &[*a, *b]).ok(),
        (Operand::Const(_), Operand::Name(_, _)) => None,
        (Operand::Name(_, _), _) => None,
    }
}

fn ternary_value(code: Code, ty: IntType, a: &Operand, b: &Operand, c: &Operand) -> Option<Wide>
    requires { IsTrue (well_typed_operation code ty
        (type_of a.now ∷ type_of b.now ∷ type_of c.now ∷ [])) }
    ensures { result ≡ option_and_then (operation_value code ty)
        (words_of (a.now ∷ b.now ∷ c.now ∷ [])) }
{
    match (a, b, c) {
        (Operand::Const(a), Operand::Const(b), Operand::Const(c)) => op_value(
            code,
            ty,
            &[*a, *b, *c],
        ).ok(),
        (Operand::Const(_), Operand::Const(_), Operand::Name(_, _)) => None,
        (Operand::Const(_), Operand::Name(_, _), _) => None,
        (Operand::Name(_, _), _, _) => None,
    }
}

/// An operation on constants that has a value.
fn folded(code: Code, ty: Option<IntType>, operands: &[Operand]) -> Option<Choice>
    requires { ForSome ty (λ t. IsTrue (well_typed_operation code t (map type_of operands.now))) }
    ensures { option_map choice_of result ≡ fold_at ty (Op code operands.now) }
{
    let word = value(code, ty?, operands)?;
    Some(Choice {
        what: What::Fold,
        outcome: Outcome::Operand(Operand::Const(word)),
    })
}

/// The first row that applies.
fn by_row(rows: &[Row], code: Code, operands: &[Operand]) -> Option<Choice>
    requires { length rows.now < 2 ^ 32 }
    ensures { option_map choice_of result ≡ row_kind rows.now (Op code operands.now) }
{
    let (number, operand) = first_row(rows, code, operands)?;
    Some(Choice {
        what: What::Row(number),
        outcome: Outcome::Operand(operand),
    })
}

/// The first of swap, fold and row at an operation.
fn operation_choice(
    rows: &[Row],
    code: Code,
    ty: Option<IntType>,
    operands: &[Operand],
) -> Option<Choice>
    requires few { length rows.now < 2 ^ 32 }
    requires typed { ForSome ty (λ t. IsTrue (well_typed_operation code t
        (map type_of operands.now))) }
    ensures { option_map choice_of result ≡ kind_at rows.now ty (Op code operands.now) }
{
    if let Some(choice) = exchanged(code, operands) {
        return Some(choice);
    }
    if let Some(choice) = folded(code, ty, operands) {
        return Some(choice);
    }
    by_row(rows, code, operands)
}

/// The choice at a statement.
fn stmt_choice(rows: &[Row], function: &Function, stmt: &Stmt) -> Option<Found>
    requires few { length rows.now < 2 ^ 32 }
    requires typed { EachFolds function.now (stmt_subjects stmt.now) }
    ensures { option_map found_of result ≡
        first_found rows.now function.now (stmt_subjects stmt.now) }
{
    let site = Site::Stmt(stmt.name);
    match &stmt.rhs {
        Rhs::Copy(operand) => {
            let choice = Choice {
                what: What::Copy,
                outcome: Outcome::Operand(*operand),
            };
            Some(Found { site, choice })
        }
        Rhs::Op(code, operands) => {
            let ty = name_type(function, stmt.name);
            let choice = operation_choice(rows, *code, ty, operands.as_slice())?;
            Some(Found { site, choice })
        }
    }
}

/// The choice at the condition of a block.
fn end_choice(rows: &[Row], function: &Function, number: u32, end: &End) -> Option<Found>
    requires few { length rows.now < 2 ^ 32 }
    requires typed { EachFolds function.now (subjects_of_end number end.now) }
    ensures { option_map found_of result ≡
        first_found rows.now function.now (subjects_of_end number end.now) }
{
    match end {
        End::If(code, left, right, _, _) => {
            let choice = operation_choice(rows, *code, Some(IntType::boolean()), &[*left, *right])?;
            if stays(&choice.outcome, *code, left, right) {
                None
            } else {
                Some(Found {
                    site: Site::Cond(number),
                    choice,
                })
            }
        }
        _ => None,
    }
}

/// Whether the outcome would make the same condition again: an operand that is compared with the
/// `_Bool` 0 already.
fn stays(outcome: &Outcome, code: Code, left: &Operand, right: &Operand) -> bool
    ensures { result ≡ gives_same_condition (result_of outcome.now)
        (Op code (left.now ∷ right.now ∷ [])) }
{
    match outcome {
        Outcome::Operand(a) => code.same(Code::Ne)
            && same_operand(left, a)
            && same_operand(right, &bool_zero()),
        Outcome::Exchanged(_, _, _) => false,
    }
}

/// The `_Bool` 0.
pub(crate) fn bool_zero() -> Operand
    ensures { result ≡ zero_operand }
{
    Operand::Const(Wide::reduce(0, IntType::boolean()))
}

/// The first subject in program order that has a choice.
#[tactic(auto, unfolding(crate::specs::Rewriting::first_choice, first_patterns::specs::Subjects::subjects))]
pub(crate) fn next(rows: &[Row], function: &Function) -> Option<Found>
    requires few { length rows.now < 2 ^ 32 }
    requires typed { EachFolds function.now (subjects function.now) }
    ensures { option_map found_of result ≡
        option_map by_site (first_choice (row_at rows.now) function.now) }
{
    next_among(rows, function, function.blocks.as_slice())
}

fn next_among(rows: &[Row], function: &Function, blocks: &[Block]) -> Option<Found>
    requires few { length rows.now < 2 ^ 32 }
    requires typed { EachFolds function.now (flat_map subjects_of_block blocks.now) }
    ensures { option_map found_of result ≡
        first_found rows.now function.now (flat_map subjects_of_block blocks.now) }
{
    for block in blocks {
        if let Some(found) = next_in_block(rows, function, block) {
            return Some(found);
        }
    }
    None
}

#[tactic(auto, using(crate::proofs::Choosing::found_in_block))]
fn next_in_block(rows: &[Row], function: &Function, block: &Block) -> Option<Found>
    requires few { length rows.now < 2 ^ 32 }
    requires typed { EachFolds function.now (subjects_of_block block.now) }
    ensures { option_map found_of result ≡
        first_found rows.now function.now (subjects_of_block block.now) }
{
    if let Some(found) = next_stmt(rows, function, block.stmts.as_slice()) {
        return Some(found);
    }
    end_choice(rows, function, block.number, &block.end)
}

fn next_stmt(rows: &[Row], function: &Function, stmts: &[Stmt]) -> Option<Found>
    requires few { length rows.now < 2 ^ 32 }
    requires typed { EachFolds function.now (flat_map stmt_subjects stmts.now) }
    ensures { option_map found_of result ≡
        first_found rows.now function.now (flat_map stmt_subjects stmts.now) }
{
    for stmt in stmts {
        if let Some(found) = stmt_choice(rows, function, stmt) {
            return Some(found);
        }
    }
    None
}
