//! Expressions of C text.
ghost use Rattle.std.specs.Prelude.{◌≡◌, ◌++◌, OnOk, map};
ghost use Rattle.std.specs.List.{flat_map};
ghost use Rattle.row_printing.specs.CText.{c_text, capture_text, flagged_call_text, infix_text, operand};
ghost use Rattle.row_printing.specs.CText.{piece_of, piece_of_node, sign_word, tested_text, texts, truth_word};
ghost use Rattle.row_printing.specs.Texts.{before_comma, listed};

use crate::texts::{push_bytes, push_signed};
use pd_ast::{BinaryOperator, CExpr, CNode};
use pm_items::Items;
use pm_ops::{OutOfMemory, Pred, Text};

/// Appends an expression.
pub fn push_expr(out: &mut Items<u8>, expr: &CExpr) -> Result<(), OutOfMemory>
    ensures { OnOk result (out.new ≡ out.old ++ c_text expr.now) }
{
    push_node(out, &expr.node)
}

/// Appends a call with `&flag` as its last argument.
pub fn push_flagged_call(
    out: &mut Items<u8>,
    name: &Text,
    args: &[CExpr],
    flag: &Text,
) -> Result<(), OutOfMemory>
    ensures { OnOk result
        (out.new ≡ out.old ++ flagged_call_text name.now (map c_text args.now) flag.now) }
{
    push_bytes(out, name.bytes())?;
    push_bytes(out, b" (")?;
    push_before_commas(out, args)?;
    push_bytes(out, b"&")?;
    push_bytes(out, flag.bytes())?;
    push_bytes(out, b")")
}

/// Appends expressions, each with a comma behind it.
fn push_before_commas(out: &mut Items<u8>, exprs: &[CExpr]) -> Result<(), OutOfMemory>
    ensures { OnOk result (out.new ≡ out.old ++ flat_map before_comma (map c_text exprs.now)) }
{
    for expr in exprs {
        push_expr(out, expr)?;
        push_bytes(out, b", ")?;
    }
    Ok(())
}

/// Appends what an expression is.
#[cycle(node)]
fn push_node(out: &mut Items<u8>, node: &CNode) -> Result<(), OutOfMemory>
    ensures { OnOk result (out.new ≡ out.old ++ (piece_of_node node.now).text) }
{
    match node {
        CNode::Number(number) => push_signed(out, *number),
        CNode::Truth(truth) => push_bytes(out, truth_word(*truth).as_bytes()),
        CNode::Sign(unsigned) => push_bytes(out, sign_word(*unsigned).as_bytes()),
        CNode::OfCode(code) => push_bytes(out, code.c_name().as_bytes()),
        CNode::Choice(name) | CNode::Local(name) => push_bytes(out, name.bytes()),
        CNode::Capture(name) => push_capture(out, name),
        CNode::Subject => push_bytes(out, b"t"),
        CNode::SubjectType => push_bytes(out, b"type"),
        CNode::Unary(name, a) => {
            push_bytes(out, name.bytes())?;
            push_operand(out, a.get())
        }
        CNode::Binary(name, a, b) => {
            push_operand(out, a.get())?;
            push_infix(out, name.bytes())?;
            push_operand(out, b.get())
        }
        CNode::Choose(a, b, c) => {
            push_operand(out, a.get())?;
            push_infix(out, b"?")?;
            push_operand(out, b.get())?;
            push_infix(out, b":")?;
            push_operand(out, c.get())
        }
        CNode::CodeTest(a, equal, constant) => {
            push_bytes(out, b"TREE_CODE (")?;
            push_node(out, &a.get().node)?;
            push_bytes(out, b")")?;
            push_tested(out, *equal, *constant)
        }
        CNode::Call(name, args) => {
            push_bytes(out, name.bytes())?;
            push_bytes(out, b" (")?;
            push_arguments(out, args.as_slice())?;
            push_bytes(out, b")")
        }
    }
}

/// Appends an expression as an operand.
#[cycle(node)]
fn push_operand(out: &mut Items<u8>, expr: &CExpr) -> Result<(), OutOfMemory>
    ensures { OnOk result (out.new ≡ out.old ++ operand (piece_of expr.now)) }
{
    if !is_compound(&expr.node) {
        return push_node(out, &expr.node);
    }
    push_bytes(out, b"(")?;
    push_node(out, &expr.node)?;
    push_bytes(out, b")")
}

/// Appends expressions with a comma between two.
#[cycle(node)]
fn push_arguments(out: &mut Items<u8>, args: &[CExpr]) -> Result<(), OutOfMemory>
    ensures { OnOk result (out.new ≡ out.old ++ listed (texts (map piece_of args.now))) }
{
    if let [first, rest @ ..] = args {
        push_node(out, &first.node)?;
        for arg in rest {
            push_bytes(out, b", ")?;
            push_node(out, &arg.node)?;
        }
    }
    Ok(())
}

/// Whether an expression that is this has parentheses round it where it is an operand.
fn is_compound(node: &CNode) -> bool
    ensures { result ≡ (piece_of_node node.now).is_compound }
{
    match node {
        CNode::Binary(_, _, _) | CNode::Choose(_, _, _) | CNode::CodeTest(_, _, _) => true,
        _ => false,
    }
}

/// Appends a capture.
pub fn push_capture(out: &mut Items<u8>, name: &Text) -> Result<(), OutOfMemory>
    ensures { OnOk result (out.new ≡ out.old ++ capture_text name.now) }
{
    push_bytes(out, b"@")?;
    push_bytes(out, name.bytes())
}

/// Appends what stands between two operands, with its spaces.
fn push_infix(out: &mut Items<u8>, sign: &[u8]) -> Result<(), OutOfMemory>
    ensures { OnOk result (out.new ≡ out.old ++ infix_text sign.now) }
{
    push_bytes(out, b" ")?;
    push_bytes(out, sign)?;
    push_bytes(out, b" ")
}

/// Appends what stands behind the operand of a test of `TREE_CODE`.
fn push_tested(out: &mut Items<u8>, equal: bool, constant: bool) -> Result<(), OutOfMemory>
    ensures { OnOk result (out.new ≡ out.old ++ tested_text equal constant) }
{
    let sign = if equal {
        BinaryOperator::Eq
    } else {
        BinaryOperator::Ne
    };
    let code = if constant { Pred::Cst } else { Pred::Ssa };
    push_infix(out, sign.name().as_bytes())?;
    push_bytes(out, code.name().as_bytes())
}

/// The word for a truth value.
fn truth_word(truth: bool) -> &'static str
    ensures { result.now ≡ truth_word truth }
{
    if truth { "true" } else { "false" }
}

/// The word for a sign.
fn sign_word(unsigned: bool) -> &'static str
    ensures { result.now ≡ sign_word unsigned }
{
    if unsigned { "UNSIGNED" } else { "SIGNED" }
}
