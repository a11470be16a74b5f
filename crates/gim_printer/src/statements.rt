//! The lines of a block: phis, statements and ends.
ghost use Rattle.std.specs.Prelude.{◌≡◌, ◌++◌, OnOk, IsTrue};
ghost use Rattle.gim_ast.specs.WellFormed.{names_rise};
ghost use Rattle.gim_printer.specs.Printing.{listed, phi_argument_text, phi_line, stmt_line, condition_line, jump_text, end_lines, line};

use crate::names::{push_assigned, type_of_name};
use crate::numbers::push_number;
use crate::operands::push_operand;
use crate::rhs::{push_infix, push_rhs};
use gim_ast::{End, Function, Phi, Stmt};
use pm_items::Items;
use pm_ops::{Code, OutOfMemory};
use pm_wide::Operand;

/// Appends the line of a phi.
#[tactic(auto, unfolding(crate::specs::Printing::phi_line))]
pub fn push_phi(out: &mut Items<u8>, function: &Function, phi: &Phi) -> Result<(), OutOfMemory>
    requires { IsTrue (names_rise function.now) }
    ensures { OnOk result (out.new ≡ out.old ++ phi_line function.now phi.now) }
{
    out.extend_from_slice(b"  ")?;
    push_assigned(out, function, phi.name)?;
    out.extend_from_slice(b" = __PHI (")?;
    push_phi_arguments(out, function, phi.args.as_slice())?;
    out.extend_from_slice(b");\n")?;
    Ok(())
}

/// Appends the arguments of a phi.
fn push_phi_arguments(
    out: &mut Items<u8>,
    function: &Function,
    arguments: &[(u32, Operand)],
) -> Result<(), OutOfMemory>
    requires { IsTrue (names_rise function.now) }
    ensures { OnOk result
        (out.new ≡ out.old ++ listed (phi_argument_text function.now) arguments.now) }
{
    if let [first, rest @ ..] = arguments {
        push_phi_argument(out, function, first)?;
        for argument in rest {
            out.extend_from_slice(b", ")?;
            push_phi_argument(out, function, argument)?;
        }
    }
    Ok(())
}

/// Appends an argument of a phi.
fn push_phi_argument(
    out: &mut Items<u8>,
    function: &Function,
    argument: &(u32, Operand),
) -> Result<(), OutOfMemory>
    requires { IsTrue (names_rise function.now) }
    ensures { OnOk result (out.new ≡ out.old ++ phi_argument_text function.now argument.now) }
{
    out.extend_from_slice(b"__BB")?;
    push_number(out, argument.0 as u128)?;
    out.extend_from_slice(b": ")?;
    push_operand(out, function, &argument.1)
}

/// Appends the line of a statement.
#[tactic(auto, unfolding(crate::specs::Printing::stmt_line))]
pub fn push_stmt(out: &mut Items<u8>, function: &Function, stmt: &Stmt) -> Result<(), OutOfMemory>
    requires { IsTrue (names_rise function.now) }
    ensures { OnOk result (out.new ≡ out.old ++ stmt_line function.now stmt.now) }
{
    out.extend_from_slice(b"  ")?;
    push_assigned(out, function, stmt.name)?;
    out.extend_from_slice(b" = ")?;
    push_rhs(out, function, type_of_name(function, stmt.name), &stmt.rhs)?;
    out.extend_from_slice(b";\n")?;
    Ok(())
}

/// Appends the lines of an end.
#[tactic(auto, unfolding(crate::specs::Printing::end_lines))]
pub fn push_end(out: &mut Items<u8>, function: &Function, end: &End) -> Result<(), OutOfMemory>
    requires { IsTrue (names_rise function.now) }
    ensures { OnOk result (out.new ≡ out.old ++ end_lines function.now end.now) }
{
    match end {
        End::Goto(to) => push_jump(out, b"  ", *to),
        End::If(code, left, right, yes_to, no_to) => {
            push_condition(out, function, *code, left, right)?;
            push_jump(out, b"    ", *yes_to)?;
            out.extend_from_slice(b"  else\n")?;
            push_jump(out, b"    ", *no_to)
        }
        End::Return(operand) => {
            out.extend_from_slice(b"  return ")?;
            push_operand(out, function, operand)?;
            out.extend_from_slice(b";\n")?;
            Ok(())
        }
    }
}

/// Appends the line of a condition.
fn push_condition(
    out: &mut Items<u8>,
    function: &Function,
    code: Code,
    left: &Operand,
    right: &Operand,
) -> Result<(), OutOfMemory>
    requires { IsTrue (names_rise function.now) }
    ensures { OnOk result
        (out.new ≡ out.old ++ condition_line function.now code left.now right.now) }
{
    out.extend_from_slice(b"  if (")?;
    push_infix(out, function, code, left, right)?;
    out.extend_from_slice(b")\n")?;
    Ok(())
}

/// Appends the line of a jump, after blanks.
fn push_jump(out: &mut Items<u8>, blanks: &[u8], to: u32) -> Result<(), OutOfMemory>
    ensures { OnOk result (out.new ≡ out.old ++ line (blanks.now ++ jump_text to)) }
{
    out.extend_from_slice(blanks)?;
    out.extend_from_slice(b"goto __BB")?;
    push_number(out, to as u128)?;
    out.extend_from_slice(b";\n")?;
    Ok(())
}
