//! The lines of the report.
ghost use Rattle.std.specs.Prelude.{◌≡◌, ◌++◌, ◌<◌, ◌≤◌, ◌^◌, length, All, IfOk, OnOk};
ghost use Rattle.match_top.specs.Report.{site_text, place_text, row_text, what_text, firing_line, report_of};
ghost use Rattle.first_rewriting.specs.Views.{site_of, what_of, firing_told, rewritten};

use first_patterns::Row;
use first_rewriting::{Firing, Simplified, Site, What};
use gim_printer::{push_name, push_number};
use pm_items::Items;
use pm_ops::OutOfMemory;
use pm_places::line_column;
use std::alloc::Global;

/// The report on the rewriting of the function of that name, by the rows of a pattern file: a line for each step, and one
/// where the budget was spent.
pub fn report(
    alloc: Global,
    source: &[u8],
    rows: &[Row],
    name: &[u8],
    done: &Simplified,
) -> Result<Items<u8>, OutOfMemory>
    requires within { All (λ row. row.at ≤ length source.now) rows.now }
    requires short { length source.now < 2 ^ 31 }
    ensures { IfOk result (λ text. text ≡ report_of source.now rows.now name.now (rewritten done.now)) }
{
    let mut out = Items::new(alloc);
    for firing in done.firings.as_slice() {
        push_firing(&mut out, source, rows, name, firing)?;
    }
    if done.exhausted {
        out.extend_from_slice(name)?;
        out.extend_from_slice(b": budget\n")?;
    }
    Ok(out)
}

/// Appends the line of a step.
fn push_firing(
    out: &mut Items<u8>,
    source: &[u8],
    rows: &[Row],
    name: &[u8],
    firing: &Firing,
) -> Result<(), OutOfMemory>
    requires within { All (λ row. row.at ≤ length source.now) rows.now }
    requires short { length source.now < 2 ^ 31 }
    ensures { OnOk result (out.new ≡ out.old ++ firing_line source.now rows.now name.now (firing_told firing.now)) }
{
    out.extend_from_slice(name)?;
    out.extend_from_slice(b": ")?;
    push_site(out, firing.subject, firing.base.bytes())?;
    out.extend_from_slice(b" ")?;
    push_what(out, source, rows, firing.what)?;
    out.extend_from_slice(b"\n")?;
    Ok(())
}

/// Appends the subject of a step.
fn push_site(out: &mut Items<u8>, site: Site, base: &[u8]) -> Result<(), OutOfMemory>
    ensures { OnOk result (out.new ≡ out.old ++ site_text (site_of site) base.now) }
{
    match site {
        Site::Stmt(version) => push_name(out, base, version),
        Site::Cond(block) => {
            out.extend_from_slice(b"__BB")?;
            push_number(out, block as u128)
        }
    }
}

/// Appends why a step was made.
fn push_what(
    out: &mut Items<u8>,
    source: &[u8],
    rows: &[Row],
    what: What,
) -> Result<(), OutOfMemory>
    requires within { All (λ row. row.at ≤ length source.now) rows.now }
    requires short { length source.now < 2 ^ 31 }
    ensures { OnOk result (out.new ≡ out.old ++ what_text source.now rows.now (what_of what)) }
{
    match what {
        What::Copy => Ok(out.extend_from_slice(b"copy")?),
        What::Swap => Ok(out.extend_from_slice(b"swap")?),
        What::Fold => Ok(out.extend_from_slice(b"fold")?),
        What::Row(number) => {
            push_row(out, source, rows, number)?;
            Ok(out.extend_from_slice(b" -")?)
        }
    }
}

/// Appends where the pattern of a row begins, and the row's number.
fn push_row(
    out: &mut Items<u8>,
    source: &[u8],
    rows: &[Row],
    number: u32,
) -> Result<(), OutOfMemory>
    requires within { All (λ row. row.at ≤ length source.now) rows.now }
    requires short { length source.now < 2 ^ 31 }
    ensures { OnOk result (out.new ≡ out.old ++ row_text source.now rows.now number) }
{
    push_place(out, source, rows, number)?;
    out.extend_from_slice(b"#")?;
    push_number(out, number as u128)
}

/// Appends the line and the column at which the pattern of a row begins.
fn push_place(
    out: &mut Items<u8>,
    source: &[u8],
    rows: &[Row],
    number: u32,
) -> Result<(), OutOfMemory>
    requires within { All (λ row. row.at ≤ length source.now) rows.now }
    requires short { length source.now < 2 ^ 31 }
    ensures { OnOk result (out.new ≡ out.old ++ place_text source.now rows.now number) }
{
    let Some(row) = rows.get((number as usize).saturating_sub(1)) else {
        return Ok(());
    };
    let (line, column) = line_column(source, row.at);
    push_number(out, line as u128)?;
    out.extend_from_slice(b":")?;
    push_number(out, column as u128)
}
