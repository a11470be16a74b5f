//! Patterns, captures and operators.
ghost use Rattle.std.specs.Prelude.{◌≡◌, ◌++◌, OnOk, map};
ghost use Rattle.row_printing.specs.Patterns.{cap_text, flag_text, marks_text, op_text};
ghost use Rattle.row_printing.specs.Patterns.{operation_text, own_cap_text, pattern_text, use_text};
ghost use Rattle.row_printing.specs.Texts.{all_spaced};

use crate::texts::push_bytes;
use pd_ast::{Cap, OpRef, Pat, PatNode};
use pm_items::{Items, Shared};
use pm_ops::{OutOfMemory, Text};

/// Appends a pattern.
#[cycle(pattern)]
pub fn push_pattern(out: &mut Items<u8>, pattern: &Pat) -> Result<(), OutOfMemory>
    ensures { OnOk result (out.new ≡ out.old ++ pattern_text pattern.now) }
{
    match pattern {
        Pat::Hole(cap) => push_cap(out, cap),
        Pat::Test(pred, cap) => {
            push_bytes(out, pred.name().as_bytes())?;
            push_own_cap(out, cap)
        }
        Pat::Call(name, args, cap) => push_use(out, name, args.as_slice(), cap),
        Pat::Node(node) => push_operation(out, node),
    }
}

/// Appends an operation.
#[cycle(pattern)]
fn push_operation(out: &mut Items<u8>, node: &PatNode) -> Result<(), OutOfMemory>
    ensures { OnOk result (out.new ≡ out.old ++ operation_text node.now) }
{
    push_bytes(out, b"(")?;
    push_bytes(out, op_name(&node.op))?;
    push_bytes(out, flag_word(node.flags.single).as_bytes())?;
    push_own_cap(out, &node.cap)?;
    push_patterns(out, node.args.as_slice())?;
    push_bytes(out, b")")
}

/// Appends the use of a predicate.
#[cycle(pattern)]
fn push_use(
    out: &mut Items<u8>,
    name: &Text,
    args: &[Shared<Pat>],
    cap: &Option<Cap>,
) -> Result<(), OutOfMemory>
    ensures { OnOk result
        (out.new ≡ out.old ++ use_text name.now (map pattern_text args.now) cap.now) }
{
    match args {
        [] => {
            push_bytes(out, name.bytes())?;
            push_own_cap(out, cap)
        }
        _ => {
            push_bytes(out, b"(")?;
            push_bytes(out, name.bytes())?;
            push_own_cap(out, cap)?;
            push_patterns(out, args)?;
            push_bytes(out, b")")
        }
    }
}

/// Appends patterns, each behind a space.
#[cycle(pattern)]
fn push_patterns(out: &mut Items<u8>, patterns: &[Shared<Pat>]) -> Result<(), OutOfMemory>
    ensures { OnOk result (out.new ≡ out.old ++ all_spaced (map pattern_text patterns.now)) }
{
    for pattern in patterns {
        push_bytes(out, b" ")?;
        push_pattern(out, pattern.get())?;
    }
    Ok(())
}

/// Appends a capture with its marks.
fn push_cap(out: &mut Items<u8>, cap: &Cap) -> Result<(), OutOfMemory>
    ensures { OnOk result (out.new ≡ out.old ++ cap_text cap.now) }
{
    push_bytes(out, marks(cap.by_value).as_bytes())?;
    push_bytes(out, cap.name.bytes())
}

/// Appends a capture with its marks, where there is one.
fn push_own_cap(out: &mut Items<u8>, cap: &Option<Cap>) -> Result<(), OutOfMemory>
    ensures { OnOk result (out.new ≡ out.old ++ own_cap_text cap.now) }
{
    match cap {
        Some(cap) => push_cap(out, cap),
        None => Ok(()),
    }
}

/// The name of an operator.
pub fn op_name(op: &OpRef) -> &[u8]
    ensures { result.now ≡ op_text op.now }
{
    match op {
        OpRef::Fixed(code) => code.name().as_bytes(),
        OpRef::Chosen(name) | OpRef::Listed(name) => name.bytes(),
        OpRef::Null => b"null",
    }
}

/// What stands before the name of a capture.
fn marks(by_value: bool) -> &'static str
    ensures { result.now ≡ marks_text by_value }
{
    if by_value { "@@" } else { "@" }
}

/// What stands behind the name of an operation.
fn flag_word(single: bool) -> &'static str
    ensures { result.now ≡ flag_text single }
{
    if single { ":s" } else { "" }
}
