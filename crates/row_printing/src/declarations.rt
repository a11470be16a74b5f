//! Declarations of C text.
ghost use Rattle.std.specs.Prelude.{◌≡◌, ◌++◌, OnOk};
ghost use Rattle.std.specs.List.{flat_map};
ghost use Rattle.row_printing.specs.CText.{decl_text, flagged_text, kind_word, value_text, with_flag};
ghost use Rattle.row_printing.specs.Results.{block_text, decl_before_space};

use crate::c_text::{push_expr, push_flagged_call};
use crate::texts::push_bytes;
use pd_ast::{CDecl, CExpr, CNode, DeclKind};
use pm_items::Items;
use pm_ops::{OutOfMemory, Text};

/// Appends declarations in braces.
pub fn push_block(out: &mut Items<u8>, decls: &[CDecl]) -> Result<(), OutOfMemory>
    ensures { OnOk result (out.new ≡ out.old ++ block_text decls.now) }
{
    push_bytes(out, b"{ ")?;
    push_decls(out, decls)?;
    push_bytes(out, b"} ")
}

/// Appends declarations, each with a space behind it.
fn push_decls(out: &mut Items<u8>, decls: &[CDecl]) -> Result<(), OutOfMemory>
    ensures { OnOk result (out.new ≡ out.old ++ flat_map decl_before_space decls.now) }
{
    for decl in decls {
        push_decl(out, decl)?;
        push_bytes(out, b" ")?;
    }
    Ok(())
}

/// Appends a declaration.
fn push_decl(out: &mut Items<u8>, decl: &CDecl) -> Result<(), OutOfMemory>
    ensures { OnOk result (out.new ≡ out.old ++ decl_text decl.now) }
{
    push_bytes(out, kind_word(decl.kind).as_bytes())?;
    push_bytes(out, b" ")?;
    push_bytes(out, decl.name.bytes())?;
    push_value(out, &decl.value, &decl.overflow)?;
    push_bytes(out, b";")
}

/// Appends the value of a declaration, where it has one.
fn push_value(
    out: &mut Items<u8>,
    value: &Option<CExpr>,
    flag: &Option<Text>,
) -> Result<(), OutOfMemory>
    ensures { OnOk result (out.new ≡ out.old ++ value_text value.now flag.now) }
{
    match value {
        Some(expr) => {
            push_bytes(out, b" = ")?;
            push_with_flag(out, expr, flag)
        }
        None => Ok(()),
    }
}

/// Appends an expression, with its overflow flag where it has one.
fn push_with_flag(out: &mut Items<u8>, expr: &CExpr, flag: &Option<Text>) -> Result<(), OutOfMemory>
    ensures { OnOk result (out.new ≡ out.old ++ with_flag expr.now flag.now) }
{
    match flag {
        Some(flag) => push_flagged(out, expr, flag),
        None => push_expr(out, expr),
    }
}

/// Appends an expression with its overflow flag.
fn push_flagged(out: &mut Items<u8>, expr: &CExpr, flag: &Text) -> Result<(), OutOfMemory>
    ensures { OnOk result (out.new ≡ out.old ++ flagged_text expr.now flag.now) }
{
    match &expr.node {
        CNode::Call(name, args) => push_flagged_call(out, name, args.as_slice(), flag),
        _ => push_expr(out, expr),
    }
}

/// The word of a declaration.
fn kind_word(kind: DeclKind) -> &'static str
    ensures { result.now ≡ kind_word kind }
{
    match kind {
        DeclKind::Tree => "tree",
        DeclKind::WideInt => "wide_int",
        DeclKind::Truth => "bool",
        DeclKind::Int => "int",
        DeclKind::Unsigned => "unsigned",
        DeclKind::Sign => "signop",
        DeclKind::TreeCode => "tree_code",
        DeclKind::Overflow => "wi::overflow_type",
    }
}
