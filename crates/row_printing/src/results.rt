//! Results.
ghost use Rattle.std.specs.Prelude.{◌≡◌, ◌++◌, OnOk, map};
ghost use Rattle.std.specs.Option.{option_map};
ghost use Rattle.row_printing.specs.Results.{brace_text, condition_text, mark_text, type_text};
ghost use Rattle.row_printing.specs.Results.{case_text, operation_text, result_text};
ghost use Rattle.row_printing.specs.Texts.{all_spaced, maybe_spaced};

use crate::c_text::{push_capture, push_expr};
use crate::declarations::push_block;
use crate::patterns::op_name;
use crate::texts::push_bytes;
use pd_ast::{CExpr, Out, OutNode, SwitchCase};
use pm_items::{Items, Shared};
use pm_ops::{OutOfMemory, Text};

/// Appends a result.
#[cycle(result)]
pub fn push_result(out: &mut Items<u8>, gives: &Out) -> Result<(), OutOfMemory>
    ensures { OnOk result (out.new ≡ out.old ++ result_text gives.now) }
{
    match gives {
        Out::Hole(name) => push_capture(out, name),
        Out::Brace(expr) => push_brace(out, expr),
        Out::Node(node) => push_operation(out, node),
        Out::If(when, gives, otherwise) => {
            push_bytes(out, b"(")?;
            push_condition(out, when)?;
            push_result(out, gives.get())?;
            push_otherwise(out, otherwise)?;
            push_bytes(out, b")")
        }
        Out::Switch(cases, otherwise) => {
            push_bytes(out, b"(switch")?;
            push_cases(out, cases.as_slice())?;
            push_otherwise(out, otherwise)?;
            push_bytes(out, b")")
        }
        Out::With(decls, gives) => {
            push_bytes(out, b"(with ")?;
            push_block(out, decls.as_slice())?;
            push_result(out, gives.get())?;
            push_bytes(out, b")")
        }
    }
}

/// Appends an operation.
#[cycle(result)]
fn push_operation(out: &mut Items<u8>, node: &OutNode) -> Result<(), OutOfMemory>
    ensures { OnOk result (out.new ≡ out.old ++ operation_text node.now) }
{
    push_bytes(out, b"(")?;
    push_bytes(out, op_name(&node.op))?;
    push_bytes(out, mark(node.must_fold).as_bytes())?;
    push_type(out, &node.ty)?;
    push_results(out, node.args.as_slice())?;
    push_bytes(out, b")")
}

/// Appends results, each behind a space.
#[cycle(result)]
fn push_results(out: &mut Items<u8>, results: &[Shared<Out>]) -> Result<(), OutOfMemory>
    ensures { OnOk result (out.new ≡ out.old ++ all_spaced (map result_text results.now)) }
{
    for gives in results {
        push_bytes(out, b" ")?;
        push_result(out, gives.get())?;
    }
    Ok(())
}

/// Appends cases, each behind a space.
#[cycle(result)]
fn push_cases(out: &mut Items<u8>, cases: &[SwitchCase]) -> Result<(), OutOfMemory>
    ensures { OnOk result (out.new ≡ out.old ++ all_spaced (map case_text cases.now)) }
{
    for case in cases {
        push_bytes(out, b" ")?;
        push_case(out, case)?;
    }
    Ok(())
}

/// Appends a case.
#[cycle(result)]
fn push_case(out: &mut Items<u8>, case: &SwitchCase) -> Result<(), OutOfMemory>
    ensures { OnOk result (out.new ≡ out.old ++ case_text case.now) }
{
    push_bytes(out, b"(")?;
    push_condition(out, &case.when)?;
    push_result(out, case.gives.get())?;
    push_bytes(out, b")")
}

/// Appends the last result, where there is one, behind a space.
#[cycle(result)]
fn push_otherwise(out: &mut Items<u8>, otherwise: &Option<Shared<Out>>) -> Result<(), OutOfMemory>
    ensures { OnOk result
        (out.new ≡ out.old ++ maybe_spaced (option_map result_text otherwise.now)) }
{
    match otherwise {
        Some(gives) => {
            push_bytes(out, b" ")?;
            push_result(out, gives.get())
        }
        None => Ok(()),
    }
}

/// Appends C text in braces.
fn push_brace(out: &mut Items<u8>, expr: &CExpr) -> Result<(), OutOfMemory>
    ensures { OnOk result (out.new ≡ out.old ++ brace_text expr.now) }
{
    push_bytes(out, b"{ ")?;
    push_expr(out, expr)?;
    push_bytes(out, b"; }")
}

/// Appends the head of an `if`.
fn push_condition(out: &mut Items<u8>, when: &CExpr) -> Result<(), OutOfMemory>
    ensures { OnOk result (out.new ≡ out.old ++ condition_text when.now) }
{
    push_bytes(out, b"if (")?;
    push_expr(out, when)?;
    push_bytes(out, b") ")
}

/// Appends the name of a type, where there is one.
fn push_type(out: &mut Items<u8>, ty: &Option<Text>) -> Result<(), OutOfMemory>
    ensures { OnOk result (out.new ≡ out.old ++ type_text ty.now) }
{
    match ty {
        Some(name) => {
            push_bytes(out, b":")?;
            push_bytes(out, name.bytes())
        }
        None => Ok(()),
    }
}

/// What stands behind the name of an operation that must become an operand.
fn mark(must_fold: bool) -> &'static str
    ensures { result.now ≡ mark_text must_fold }
{
    if must_fold { "!" } else { "" }
}
