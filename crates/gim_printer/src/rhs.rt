//! Right sides.
ghost use Rattle.std.specs.Prelude.{◌≡◌, ◌++◌, OnOk, IsTrue};
ghost use Rattle.gim_ast.specs.WellFormed.{names_rise};
ghost use Rattle.gim_printer.specs.Printing.{prefix_text, unary_text, sign_text, infix_text, binary_text, ternary_text, operation_text, rhs_text};

use crate::operands::{push_negated, push_operand, type_name};
use gim_ast::{Function, Rhs};
use pm_items::Items;
use pm_ops::{Code, OutOfMemory};
use pm_wide::{IntType, Operand};

/// Appends a right side, whose type is `ty`.
#[tactic(auto, unfolding(crate::specs::Printing::rhs_text))]
pub fn push_rhs(
    out: &mut Items<u8>,
    function: &Function,
    ty: IntType,
    rhs: &Rhs,
) -> Result<(), OutOfMemory>
    requires { IsTrue (names_rise function.now) }
    ensures { OnOk result (out.new ≡ out.old ++ rhs_text function.now ty rhs.now) }
{
    match rhs {
        Rhs::Copy(operand) => push_operand(out, function, operand),
        Rhs::Op(code, operands) => push_operation(out, function, ty, *code, operands.as_slice()),
    }
}

/// Appends an operation, whose type is `ty`.
#[tactic(auto, unfolding(crate::specs::Printing::operation_text))]
fn push_operation(
    out: &mut Items<u8>,
    function: &Function,
    ty: IntType,
    code: Code,
    operands: &[Operand],
) -> Result<(), OutOfMemory>
    requires { IsTrue (names_rise function.now) }
    ensures { OnOk result (out.new ≡ out.old ++ operation_text function.now ty code operands.now) }
{
    match operands {
        [a] => push_unary(out, function, ty, code, a),
        [a, b] => push_binary(out, function, code, a, b),
        [a, b, c] => push_ternary(out, function, a, b, c),
        _ => Ok(()),
    }
}

/// Appends an operation on one operand.
fn push_unary(
    out: &mut Items<u8>,
    function: &Function,
    ty: IntType,
    code: Code,
    operand: &Operand,
) -> Result<(), OutOfMemory>
    requires { IsTrue (names_rise function.now) }
    ensures { OnOk result (out.new ≡ out.old ++ unary_text function.now ty code operand.now) }
{
    push_prefix(out, ty, code)?;
    match code {
        Code::Negate => push_negated(out, function, operand),
        _ => push_operand(out, function, operand),
    }
}

/// Appends what stands before the operand of an operation on one.
#[tactic(auto, unfolding(crate::specs::Printing::prefix_text))]
fn push_prefix(out: &mut Items<u8>, ty: IntType, code: Code) -> Result<(), OutOfMemory>
    ensures { OnOk result (out.new ≡ out.old ++ prefix_text ty code) }
{
    match code {
        Code::Convert => {
            out.extend_from_slice(b"(")?;
            out.extend_from_slice(type_name(ty).as_bytes())?;
            out.extend_from_slice(b") ")?;
        }
        Code::Negate => out.extend_from_slice(b"-")?,
        Code::BitNot => out.extend_from_slice(b"~")?,
        Code::Abs => out.extend_from_slice(b"__ABS ")?,
        Code::Absu => out.extend_from_slice(b"__ABSU ")?,
        _ => {}
    }
    Ok(())
}

/// Appends an operation on two operands.
fn push_binary(
    out: &mut Items<u8>,
    function: &Function,
    code: Code,
    left: &Operand,
    right: &Operand,
) -> Result<(), OutOfMemory>
    requires { IsTrue (names_rise function.now) }
    ensures { OnOk result (out.new ≡ out.old ++ binary_text function.now code left.now right.now) }
{
    let call = match code {
        Code::Min => "__MIN (",
        Code::Max => "__MAX (",
        _ => return push_infix(out, function, code, left, right),
    };
    out.extend_from_slice(call.as_bytes())?;
    push_operand(out, function, left)?;
    out.extend_from_slice(b", ")?;
    push_operand(out, function, right)?;
    out.extend_from_slice(b")")?;
    Ok(())
}

/// Appends two operands with the sign of the operation between them.
pub fn push_infix(
    out: &mut Items<u8>,
    function: &Function,
    code: Code,
    left: &Operand,
    right: &Operand,
) -> Result<(), OutOfMemory>
    requires { IsTrue (names_rise function.now) }
    ensures { OnOk result (out.new ≡ out.old ++ infix_text function.now code left.now right.now) }
{
    push_operand(out, function, left)?;
    out.extend_from_slice(b" ")?;
    out.extend_from_slice(sign(code).as_bytes())?;
    out.extend_from_slice(b" ")?;
    push_operand(out, function, right)
}

/// The sign between two operands.
#[tactic(auto, unfolding(crate::specs::Printing::sign_text))]
fn sign(code: Code) -> &'static str
    ensures { result.now ≡ sign_text code }
{
    match code {
        Code::Plus => "+",
        Code::Minus => "-",
        Code::Mult => "*",
        Code::TruncDiv => "/",
        Code::TruncMod => "%",
        Code::BitAnd => "&",
        Code::BitIor => "|",
        Code::BitXor => "^",
        Code::Lshift => "<<",
        Code::Rshift => ">>",
        Code::Eq => "==",
        Code::Ne => "!=",
        Code::Lt => "<",
        Code::Le => "<=",
        Code::Gt => ">",
        Code::Ge => ">=",
        _ => "",
    }
}

/// Appends the operation on three operands.
fn push_ternary(
    out: &mut Items<u8>,
    function: &Function,
    condition: &Operand,
    chosen: &Operand,
    other: &Operand,
) -> Result<(), OutOfMemory>
    requires { IsTrue (names_rise function.now) }
    ensures { OnOk result
        (out.new ≡ out.old ++ ternary_text function.now condition.now chosen.now other.now) }
{
    push_operand(out, function, condition)?;
    out.extend_from_slice(b" ? ")?;
    push_operand(out, function, chosen)?;
    out.extend_from_slice(b" : ")?;
    push_operand(out, function, other)
}
