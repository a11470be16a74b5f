//! The rules on types.

ghost use Rattle.std.specs.Prelude.{◌≡◌, [], ◌∷◌, map};
ghost use Rattle.std.specs.List.{flat_map};
ghost use Rattle.gim_text.specs.Faults.{Judges};
ghost use Rattle.pm_places.specs.FirstFaults.{first_fault};
ghost use Rattle.gim_typing.specs.Declarations.{declarations_of};
ghost use Rattle.gim_typing.specs.Types.{form_fits, mismatch, place_of_arg, places_of_block};
ghost use Rattle.gim_typing.specs.Types.{places_of_end, places_of_function, places_of_item};
ghost use Rattle.gim_typing.specs.Types.{start_of, type_of_operand, types_fault};

use crate::scope::Scope;
use gim_text::{
    ArgText, BlockText, EndText, FunctionText, GimpleFault, GimpleKind, ItemText, OperandText,
    RightForm, literal,
};
use pm_ops::Code;
use pm_places::Span;
use pm_wide::{IntType, Wide, well_typed};
use std::alloc::Global;

fn type_of_operand(scope: &Scope, operand: &OperandText) -> IntType
    ensures { result ≡ type_of_operand scope.now operand.now }
{
    match operand {
        OperandText::Name(at) | OperandText::Default(at) => scope.type_of_name(*at),
        OperandText::Literal(text) => literal(scope.source(), text)
            .unwrap_or(Wide::default())
            .ty(),
    }
}

/// Whether a right side is well typed for a name of this type.
fn form_fits(scope: &Scope, ty: IntType, form: &RightForm) -> bool
    ensures { result ≡ form_fits scope.now ty form.now }
{
    match form {
        RightForm::Copy(a) => type_of_operand(scope, a) == ty,
        RightForm::Unary(code, a) => well_typed(*code, ty, &[type_of_operand(scope, a)]),
        RightForm::Cast(to, a) => {
            *to == ty && well_typed(Code::Convert, ty, &[type_of_operand(scope, a)])
        }
        RightForm::Binary(code, a, b) => {
            let types = [type_of_operand(scope, a), type_of_operand(scope, b)];
            well_typed(*code, ty, &types)
        }
        RightForm::Choice(a, b, c) => {
            let types = [
                type_of_operand(scope, a),
                type_of_operand(scope, b),
                type_of_operand(scope, c),
            ];
            well_typed(Code::Cond, ty, &types)
        }
    }
}

/// The first token of an operand.
fn start_of(operand: &OperandText) -> Span
    ensures { result ≡ start_of operand.now }
{
    match operand {
        OperandText::Name(at) | OperandText::Default(at) => *at,
        OperandText::Literal(literal) => literal.start,
    }
}

/// A mismatch at the place, unless the types fit.
fn expect_fit(fits: bool, at: Span) -> Result<(), GimpleFault>
    ensures { Judges (first_fault (mismatch fits at ∷ [])) result }
{
    if fits {
        Ok(())
    } else {
        Err(GimpleFault::at(GimpleKind::TypeMismatch, at))
    }
}

fn check_args(scope: &Scope, ty: IntType, args: &[ArgText]) -> Result<(), GimpleFault>
    ensures { Judges (first_fault (map (place_of_arg scope.now ty) args.now)) result }
{
    for arg in args {
        expect_fit(type_of_operand(scope, &arg.operand) == ty, arg.from)?;
    }
    Ok(())
}

fn check_item(scope: &Scope, item: &ItemText) -> Result<(), GimpleFault>
    ensures { Judges (first_fault (places_of_item scope.now item.now)) result }
{
    match item {
        ItemText::Phi(name, args) => check_args(scope, scope.type_of_name(*name), args.as_slice()),
        ItemText::Stmt(name, right) => expect_fit(
            form_fits(scope, scope.type_of_name(*name), &right.form),
            right.start,
        ),
    }
}

fn check_items(scope: &Scope, items: &[ItemText]) -> Result<(), GimpleFault>
    ensures { Judges (first_fault (flat_map (places_of_item scope.now) items.now)) result }
{
    for item in items {
        check_item(scope, item)?;
    }
    Ok(())
}

fn check_end(scope: &Scope, ty: IntType, end: &Option<EndText>) -> Result<(), GimpleFault>
    ensures { Judges (first_fault (places_of_end scope.now ty end.now)) result }
{
    match end {
        Some(EndText::If(code, left, right, _, _)) => expect_fit(
            code.is_comparison() && type_of_operand(scope, left) == type_of_operand(scope, right),
            start_of(left),
        ),
        Some(EndText::Return(a)) => expect_fit(type_of_operand(scope, a) == ty, start_of(a)),
        Some(EndText::Goto(_)) | None => Ok(()),
    }
}

fn check_block(scope: &Scope, ty: IntType, block: &BlockText) -> Result<(), GimpleFault>
    ensures { Judges (first_fault (places_of_block scope.now ty block.now)) result }
{
    check_items(scope, block.items.as_slice())?;
    check_end(scope, ty, &block.end)
}

fn check_blocks(scope: &Scope, ty: IntType, blocks: &[BlockText]) -> Result<(), GimpleFault>
    ensures { Judges (first_fault (flat_map (places_of_block scope.now ty) blocks.now)) result }
{
    for block in blocks {
        check_block(scope, ty, block)?;
    }
    Ok(())
}

fn check_function(alloc: Global, source: &[u8], tree: &FunctionText) -> Result<(), GimpleFault>
    ensures { Judges (first_fault (places_of_function source.now tree.now)) result }
{
    let scope = Scope::new(alloc, source, tree)?;
    check_blocks(&scope, tree.result, tree.blocks.as_slice())
}

/// Judges the types of functions: that right sides, arguments of phis, conditions and returned
/// operands are well typed.
///
/// It takes names by their declarations, so the rules on names are judged before.
#[tactic(auto, unfolding(crate::specs::Types::types_fault))]
pub fn check_types(
    alloc: Global,
    source: &[u8],
    functions: &[FunctionText],
) -> Result<(), GimpleFault>
    // the first place at which a rule on types is broken
    ensures { Judges (types_fault source.now functions.now) result }
{
    for tree in functions {
        check_function(alloc, source, tree)?;
    }
    Ok(())
}
