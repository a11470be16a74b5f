//! What `names` says of a name.
ghost use Rattle.std.specs.Prelude.{◌≡◌, find};
ghost use Rattle.std.specs.Option.{option_copied, option_map};
ghost use Rattle.gim_ast.specs.declared.function.NameRow.{NameRow};
ghost use Rattle.gim_ast.specs.Functions.{row_of};
ghost use Rattle.first_rewriting.specs.Rows.{row_is};

use gim_ast::{Function, NameRow};
use pm_wide::IntType;

/// The row of a version.
#[tactic(auto, using(crate::proofs::Lists::row_by_find))]
pub(crate) fn name_row(function: &Function, version: u32) -> Option<&NameRow>
    ensures { option_copied result ≡ row_of function.now version }
{
    row_among(function.names.as_slice(), version)
}

fn row_among(rows: &[NameRow], version: u32) -> Option<&NameRow>
    ensures { option_copied result ≡ find (row_is version) rows.now }
{
    rows.iter().find(|row| row.version == version)
}

/// The type of a name.
pub(crate) fn name_type(function: &Function, version: u32) -> Option<IntType>
    ensures { result ≡ option_map (λ (row : NameRow). row.ty) (row_of function.now version) }
{
    Some(name_row(function, version)?.ty)
}
