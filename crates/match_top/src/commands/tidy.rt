//! `tidy G`: the functions of a GIMPLE file, the control flow of each tidied.
ghost use Rattle.std.specs.Prelude.{◌≡◌, ◌++◌, IfOk, IsTrue, OnOk};
ghost use Rattle.std.specs.List.{flat_map};
ghost use Rattle.gim_ast.specs.Readable.{IsValid};
ghost use Rattle.gim_ast.specs.WellFormed.{names_rise};
ghost use Rattle.match_top.specs.Passes.{Appends};
ghost use Rattle.match_top.specs.Tidy.{block_text, change_text, change_line};
ghost use Rattle.match_top.specs.declared.passes.Pass.TheVariants.{Tidying};

use cfg_tidy::{Change, Tidied};
use gim_ast::Function;
use gim_printer::{push_assigned, push_number};
use pm_items::Items;
use pm_ops::OutOfMemory;
use std::alloc::Global;

/// The function, tidied. The lines of its changes are appended to the report.
#[tactic(auto, using(gim_ast::proofs::RisingNames::names_rise_where_valid))]
pub fn tidy_function(
    alloc: Global,
    function: &Function,
    report: &mut Items<u8>,
) -> Result<Function, OutOfMemory>
    requires { IsValid function.now }
    ensures appends { IfOk result (λ tidied. Appends Tidying function.now tidied report.old report.new) }
    ensures rises { IfOk result (λ tidied. IsTrue (names_rise tidied)) }
{
    let Tidied {
        function: tidied,
        changes,
    } = cfg_tidy::tidy(alloc, function.copy(alloc)?)?;
    push_changes(report, function, changes.as_slice())?;
    Ok(tidied)
}

/// Appends a line for each change of the function.
fn push_changes(
    out: &mut Items<u8>,
    function: &Function,
    changes: &[Change],
) -> Result<(), OutOfMemory>
    requires { IsTrue (names_rise function.now) }
    ensures { OnOk result (out.new ≡ out.old ++ flat_map (change_line function.now) changes.now) }
{
    for change in changes {
        push_change(out, function, *change)?;
    }
    Ok(())
}

/// Appends the line of a change of the function.
fn push_change(out: &mut Items<u8>, function: &Function, change: Change) -> Result<(), OutOfMemory>
    requires { IsTrue (names_rise function.now) }
    ensures { OnOk result (out.new ≡ out.old ++ change_line function.now change) }
{
    out.extend_from_slice(function.name.bytes())?;
    out.extend_from_slice(b": ")?;
    push_what(out, function, change)?;
    Ok(out.extend_from_slice(b"\n")?)
}

/// Appends what a change did.
fn push_what(out: &mut Items<u8>, function: &Function, change: Change) -> Result<(), OutOfMemory>
    requires { IsTrue (names_rise function.now) }
    ensures { OnOk result (out.new ≡ out.old ++ change_text function.now change) }
{
    match change {
        Change::Branch(block) => {
            out.extend_from_slice(b"branch ")?;
            push_block(out, block)
        }
        Change::Dropped(block) => {
            out.extend_from_slice(b"dropped ")?;
            push_block(out, block)
        }
        Change::Phi(name) => {
            out.extend_from_slice(b"phi ")?;
            push_assigned(out, function, name)
        }
    }
}

/// Appends the name of a block.
fn push_block(out: &mut Items<u8>, number: u32) -> Result<(), OutOfMemory>
    ensures { OnOk result (out.new ≡ out.old ++ block_text number) }
{
    out.extend_from_slice(b"__BB")?;
    push_number(out, number as u128)
}
