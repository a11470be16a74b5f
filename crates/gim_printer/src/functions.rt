//! Whole functions: their heads, their declarations and their blocks.
ghost use Rattle.std.specs.Prelude.{◌≡◌, ◌++◌, OnOk, IsTrue, flat_map};
ghost use Rattle.gim_ast.specs.WellFormed.{names_rise};
ghost use Rattle.gim_printer.specs.Printing.{line, listed, declared_text, decl_line, signature_line, head_text, phi_line, stmt_line, block_text, function_text};

use crate::numbers::push_number;
use crate::operands::type_name;
use crate::statements::{push_end, push_phi, push_stmt};
use gim_ast::{Block, Decl, Function, Phi, Stmt};
use pm_items::Items;
use pm_ops::OutOfMemory;

/// Appends the lines of a function.
#[tactic(auto, unfolding(crate::specs::Printing::function_text))]
pub fn push_function(out: &mut Items<u8>, function: &Function) -> Result<(), OutOfMemory>
    requires { IsTrue (names_rise function.now) }
    ensures { OnOk result (out.new ≡ out.old ++ function_text function.now) }
{
    push_head(out, function)?;
    push_decls(out, function.decls.as_slice())?;
    push_blocks(out, function, function.blocks.as_slice())?;
    out.extend_from_slice(b"}\n")?;
    Ok(())
}

/// Appends the lines up to the brace.
#[tactic(auto, unfolding(crate::specs::Printing::head_text))]
fn push_head(out: &mut Items<u8>, function: &Function) -> Result<(), OutOfMemory>
    ensures { OnOk result (out.new ≡ out.old ++ head_text function.now) }
{
    out.extend_from_slice(type_name(function.result).as_bytes())?;
    out.extend_from_slice(b" __GIMPLE (ssa)\n")?;
    push_signature(out, function)?;
    out.extend_from_slice(b"{\n")?;
    Ok(())
}

/// Appends the line of the name and the parameters.
fn push_signature(out: &mut Items<u8>, function: &Function) -> Result<(), OutOfMemory>
    ensures { OnOk result (out.new ≡ out.old ++ signature_line function.now) }
{
    out.extend_from_slice(function.name.bytes())?;
    out.extend_from_slice(b" (")?;
    push_params(out, function.params.as_slice())?;
    out.extend_from_slice(b")\n")?;
    Ok(())
}

/// Appends the parameters.
fn push_params(out: &mut Items<u8>, params: &[Decl]) -> Result<(), OutOfMemory>
    ensures { OnOk result (out.new ≡ out.old ++ listed declared_text params.now) }
{
    if let [first, rest @ ..] = params {
        push_declared(out, first)?;
        for param in rest {
            out.extend_from_slice(b", ")?;
            push_declared(out, param)?;
        }
    }
    Ok(())
}

/// Appends a type and the identifier that has it.
fn push_declared(out: &mut Items<u8>, decl: &Decl) -> Result<(), OutOfMemory>
    ensures { OnOk result (out.new ≡ out.old ++ declared_text decl.now) }
{
    out.extend_from_slice(type_name(decl.ty).as_bytes())?;
    out.extend_from_slice(b" ")?;
    out.extend_from_slice(decl.ident.bytes())?;
    Ok(())
}

/// Appends a line for each declaration.
fn push_decls(out: &mut Items<u8>, decls: &[Decl]) -> Result<(), OutOfMemory>
    ensures { OnOk result (out.new ≡ out.old ++ flat_map decl_line decls.now) }
{
    for decl in decls {
        push_decl(out, decl)?;
    }
    Ok(())
}

/// Appends the line of a declaration.
#[tactic(auto, unfolding(crate::specs::Printing::decl_line))]
fn push_decl(out: &mut Items<u8>, decl: &Decl) -> Result<(), OutOfMemory>
    ensures { OnOk result (out.new ≡ out.old ++ decl_line decl.now) }
{
    out.extend_from_slice(b"  ")?;
    push_declared(out, decl)?;
    out.extend_from_slice(b";\n")?;
    Ok(())
}

/// Appends the lines of the blocks.
fn push_blocks(
    out: &mut Items<u8>,
    function: &Function,
    blocks: &[Block],
) -> Result<(), OutOfMemory>
    requires { IsTrue (names_rise function.now) }
    ensures { OnOk result (out.new ≡ out.old ++ flat_map (block_text function.now) blocks.now) }
{
    for block in blocks {
        push_block(out, function, block)?;
    }
    Ok(())
}

/// Appends the lines of a block.
#[tactic(auto, unfolding(crate::specs::Printing::block_text))]
fn push_block(out: &mut Items<u8>, function: &Function, block: &Block) -> Result<(), OutOfMemory>
    requires { IsTrue (names_rise function.now) }
    ensures { OnOk result (out.new ≡ out.old ++ block_text function.now block.now) }
{
    out.extend_from_slice(b"\n  __BB(")?;
    push_number(out, block.number as u128)?;
    out.extend_from_slice(b"):\n")?;
    push_phis(out, function, block.phis.as_slice())?;
    push_stmts(out, function, block.stmts.as_slice())?;
    push_end(out, function, &block.end)
}

/// Appends a line for each phi.
fn push_phis(out: &mut Items<u8>, function: &Function, phis: &[Phi]) -> Result<(), OutOfMemory>
    requires { IsTrue (names_rise function.now) }
    ensures { OnOk result (out.new ≡ out.old ++ flat_map (phi_line function.now) phis.now) }
{
    for phi in phis {
        push_phi(out, function, phi)?;
    }
    Ok(())
}

/// Appends a line for each statement.
fn push_stmts(out: &mut Items<u8>, function: &Function, stmts: &[Stmt]) -> Result<(), OutOfMemory>
    requires { IsTrue (names_rise function.now) }
    ensures { OnOk result (out.new ≡ out.old ++ flat_map (stmt_line function.now) stmts.now) }
{
    for stmt in stmts {
        push_stmt(out, function, stmt)?;
    }
    Ok(())
}
