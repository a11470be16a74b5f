//! Types, constants and operands.
ghost use Rattle.std.specs.Prelude.{◌≡◌, ◌++◌, OnOk, IsTrue, option_copied};
ghost use Rattle.gim_ast.specs.WellFormed.{names_rise};
ghost use Rattle.gim_printer.specs.Printing.{type_text, suffix_of, literal_text, constant_text, operand_text, negated_text};

use crate::names::push_used;
use crate::numbers::push_value;
use gim_ast::Function;
use pm_items::Items;
use pm_ops::OutOfMemory;
use pm_wide::{IntType, Operand, Wide};

/// The name of a type.
#[tactic(auto, unfolding(crate::specs::Printing::type_text))]
pub fn type_name(ty: IntType) -> &'static str
    ensures { result.now ≡ type_text ty }
{
    match (ty.unsigned(), ty.bits()) {
        (true, 1) => "_Bool",
        (true, 8) => "unsigned char",
        (true, 16) => "unsigned short",
        (true, 32) => "unsigned int",
        (true, 64) => "unsigned long",
        (true, _) => "unsigned __int128",
        (false, 8) => "signed char",
        (false, 16) => "short",
        (false, 32) => "int",
        (false, 64) => "long",
        (false, _) => "__int128",
    }
}

/// What follows the digits of a constant, for the four types that show by it.
#[tactic(auto, unfolding(crate::specs::Printing::suffix_of))]
fn suffix(ty: IntType) -> Option<&'static str>
    ensures { option_copied result ≡ suffix_of ty }
{
    match (ty.unsigned(), ty.bits()) {
        (false, 32) => Some(""),
        (true, 32) => Some("u"),
        (false, 64) => Some("l"),
        (true, 64) => Some("ul"),
        _ => None,
    }
}

/// Appends a constant with its type written out.
fn push_literal(out: &mut Items<u8>, word: &Wide) -> Result<(), OutOfMemory>
    ensures { OnOk result (out.new ≡ out.old ++ literal_text word.now) }
{
    out.extend_from_slice(b"_Literal (")?;
    out.extend_from_slice(type_name(word.ty()).as_bytes())?;
    out.extend_from_slice(b") ")?;
    push_value(out, word)
}

/// Appends a constant.
#[tactic(auto, unfolding(crate::specs::Printing::constant_text))]
fn push_constant(out: &mut Items<u8>, word: &Wide) -> Result<(), OutOfMemory>
    ensures { OnOk result (out.new ≡ out.old ++ constant_text word.now) }
{
    match suffix(word.ty()) {
        Some(suffix) => {
            push_value(out, word)?;
            out.extend_from_slice(suffix.as_bytes())?;
            Ok(())
        }
        None => push_literal(out, word),
    }
}

/// Appends an operand.
#[tactic(auto, unfolding(crate::specs::Printing::operand_text))]
pub fn push_operand(
    out: &mut Items<u8>,
    function: &Function,
    operand: &Operand,
) -> Result<(), OutOfMemory>
    requires { IsTrue (names_rise function.now) }
    ensures { OnOk result (out.new ≡ out.old ++ operand_text function.now operand.now) }
{
    match operand {
        Operand::Name(version, _) => push_used(out, function, *version),
        Operand::Const(word) => push_constant(out, word),
    }
}

/// Appends the operand of a unary minus.
#[tactic(auto, unfolding(crate::specs::Printing::negated_text))]
pub fn push_negated(
    out: &mut Items<u8>,
    function: &Function,
    operand: &Operand,
) -> Result<(), OutOfMemory>
    requires { IsTrue (names_rise function.now) }
    ensures { OnOk result (out.new ≡ out.old ++ negated_text function.now operand.now) }
{
    match operand {
        Operand::Name(version, _) => push_used(out, function, *version),
        Operand::Const(word) => push_literal(out, word),
    }
}
