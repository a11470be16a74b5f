//! `number G`: the functions of a GIMPLE file, the values of each numbered.
ghost use Rattle.std.specs.Prelude.{◌≡◌, ◌++◌, IfOk, IsTrue, OnOk};
ghost use Rattle.std.specs.List.{flat_map};
ghost use Rattle.gim_ast.specs.Readable.{IsValid};
ghost use Rattle.gim_ast.specs.WellFormed.{names_rise};
ghost use Rattle.match_top.specs.Number.{merge_line};
ghost use Rattle.match_top.specs.Passes.{Appends};
ghost use Rattle.match_top.specs.declared.passes.Pass.TheVariants.{Numbering};

use gim_ast::Function;
use gim_printer::push_assigned;
use pm_items::Items;
use pm_ops::OutOfMemory;
use std::alloc::Global;
use value_numbers::Numbered;

/// The function, its values numbered. The lines of its merges are appended to the report.
#[tactic(auto, using(gim_ast::proofs::RisingNames::names_rise_where_valid))]
pub fn number_function(
    alloc: Global,
    function: &Function,
    report: &mut Items<u8>,
) -> Result<Function, OutOfMemory>
    requires { IsValid function.now }
    ensures appends { IfOk result (λ numbered. Appends Numbering function.now numbered report.old report.new) }
    ensures rises { IfOk result (λ numbered. IsTrue (names_rise numbered)) }
{
    let Numbered {
        function: numbered,
        merges,
    } = value_numbers::number(alloc, function.copy(alloc)?)?;
    push_merges(report, function, merges.as_slice())?;
    Ok(numbered)
}

/// Appends a line for each merge of the function.
fn push_merges(
    out: &mut Items<u8>,
    function: &Function,
    merges: &[(u32, u32)],
) -> Result<(), OutOfMemory>
    requires { IsTrue (names_rise function.now) }
    ensures { OnOk result (out.new ≡ out.old ++ flat_map (merge_line function.now) merges.now) }
{
    for merge in merges {
        push_merge(out, function, *merge)?;
    }
    Ok(())
}

/// Appends the line of a merge of the function: the name that went, and the one that stands for it.
fn push_merge(
    out: &mut Items<u8>,
    function: &Function,
    merge: (u32, u32),
) -> Result<(), OutOfMemory>
    requires { IsTrue (names_rise function.now) }
    ensures { OnOk result (out.new ≡ out.old ++ merge_line function.now merge) }
{
    out.extend_from_slice(function.name.bytes())?;
    out.extend_from_slice(b": ")?;
    push_assigned(out, function, merge.0)?;
    out.extend_from_slice(b" = ")?;
    push_assigned(out, function, merge.1)?;
    Ok(out.extend_from_slice(b"\n")?)
}
