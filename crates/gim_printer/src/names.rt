//! Names of a function as they stand in its text, and their types.
ghost use Rattle.std.specs.Prelude.{◌≡◌, ◌++◌, OnOk, OnErr, IsTrue, codes, option_copied};
ghost use Rattle.gim_ast.specs.Functions.{row_of};
ghost use Rattle.gim_ast.specs.WellFormed.{names_rise};
ghost use Rattle.gim_printer.specs.Printing.{name_text, assigned_text, used_text, type_of_name};

use crate::numbers::push_number;
use gim_ast::{Function, NameRow};
use pm_items::Items;
use pm_ops::OutOfMemory;
use pm_wide::IntType;

/// Appends the name `BASE_VERSION`, as it stands where it is assigned. An `Err` changes nothing.
pub fn push_name(out: &mut Items<u8>, base: &[u8], version: u32) -> Result<(), OutOfMemory>
    ensures ok { OnOk result (out.new ≡ out.old ++ name_text base.now version) }
    ensures err { OnErr result (out.new ≡ out.old) }
{
    let before = out.len();
    push_stem(out, base)?;
    match push_number(out, version as u128) {
        Ok(()) => Ok(()),
        Err(fault) => {
            out.truncate(before);
            Err(fault)
        }
    }
}

/// Appends the base of a name and an underscore. An `Err` changes nothing.
fn push_stem(out: &mut Items<u8>, base: &[u8]) -> Result<(), OutOfMemory>
    ensures ok { OnOk result (out.new ≡ out.old ++ (base.now ++ codes "_")) }
    ensures err { OnErr result (out.new ≡ out.old) }
{
    let before = out.len();
    out.extend_from_slice(base)?;
    match out.push(b'_') {
        Ok(()) => Ok(()),
        Err(fault) => {
            out.truncate(before);
            Err(OutOfMemory::from(fault))
        }
    }
}

/// Appends a name of the function, as it stands where it is assigned. An `Err` changes nothing.
#[tactic(auto, unfolding(crate::specs::Printing::base_of))]
pub fn push_assigned(
    out: &mut Items<u8>,
    function: &Function,
    version: u32,
) -> Result<(), OutOfMemory>
    requires { IsTrue (names_rise function.now) }
    ensures ok { OnOk result (out.new ≡ out.old ++ assigned_text function.now version) }
    ensures err { OnErr result (out.new ≡ out.old) }
{
    match row(function, version) {
        Some(row) => push_name(out, row.base.bytes(), version),
        None => push_name(out, b"", version),
    }
}

/// Appends a name of the function, as it stands where it is used.
#[tactic(auto, unfolding(gim_ast::specs::Readable::is_initial))]
pub fn push_used(out: &mut Items<u8>, function: &Function, version: u32) -> Result<(), OutOfMemory>
    requires { IsTrue (names_rise function.now) }
    ensures { OnOk result (out.new ≡ out.old ++ used_text function.now version) }
{
    push_assigned(out, function, version)?;
    if row(function, version).is_some_and(|row| row.initial) {
        out.extend_from_slice(b"(D)")?;
    }
    Ok(())
}

/// The type of a name of the function.
#[tactic(auto, unfolding(crate::specs::Printing::type_of_name))]
pub fn type_of_name(function: &Function, version: u32) -> IntType
    requires { IsTrue (names_rise function.now) }
    ensures { result ≡ type_of_name function.now version }
{
    match row(function, version) {
        Some(row) => row.ty,
        None => function.result,
    }
}

/// What `names` says of a version.
#[tactic(auto, unfolding(gim_ast::specs::Functions::row_of))]
fn row(function: &Function, version: u32) -> Option<&NameRow>
    requires { IsTrue (names_rise function.now) }
    ensures { option_copied result ≡ row_of function.now version }
{
    let rows = function.names.as_slice();
    match rows.binary_search_by_key(&version, |row| row.version) {
        Ok(at) => Some(&rows[at]),
        Err(_) => None,
    }
}
