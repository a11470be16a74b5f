//! The rules on the rows of `names`.

ghost use Rattle.std.specs.Prelude.{◌≡◌, ◌&&◌};
ghost use Rattle.std.specs.List.{list_all, list_any};
ghost use Rattle.pm_wide.specs.Types.{same_type};
ghost use Rattle.gim_ast.specs.Identifiers.{anonymous};
ghost use Rattle.gim_ast.specs.WellFormed.{same_text, declares_as, base_holds};
ghost use Rattle.gim_ast.specs.RulesByPart.{is_later, rows_rise, is_initial_of, is_last_initial, distinct_initials, local_base_holds, is_idle, row_stands_in, row_holds, is_row_of, local_holds, names_by_part};

use crate::rules::identifiers::{anonymous_is, is_anonymous, is_anonymous_of, is_empty, same_text};
use crate::rules::operands::same_type;
use crate::rules::uses::{are_assigning, are_using, distinct_names};
use crate::{Block, Decl, Function, NameRow};
use pm_wide::IntType;

/// Whether each row has a greater version.
fn are_later(rows: &[NameRow], version: u32) -> bool
    ensures { result ≡ list_all (is_later version) rows.now }
{
    rows.iter().all(|row| version < row.version)
}

/// Whether the rows rise by version.
fn rows_rise(rows: &[NameRow]) -> bool
    ensures { result ≡ rows_rise rows.now }
{
    let mut rest = rows;
    while let [row, more @ ..] = rest {
        if !are_later(more, row.version) {
            return false;
        }
        rest = more;
    }
    true
}

/// Whether the declaration is of that identifier and that type.
fn is_declaration(decl: &Decl, ident: &[u8], ty: IntType) -> bool
    ensures { result ≡ (same_text decl.now.ident ident.now && same_type decl.now.ty ty) }
{
    same_text(decl.ident.bytes(), ident) && same_type(decl.ty, ty)
}

/// Whether the identifier is declared in the list, with that type.
fn declares_as(decls: &[Decl], ident: &[u8], ty: IntType) -> bool
    ensures { result ≡ declares_as ident.now ty decls.now }
{
    decls.iter().any(|decl| is_declaration(decl, ident, ty))
}

/// Whether the declaration is of the anonymous name of the version, with that type.
fn is_declaration_of(decl: &Decl, version: u32, ty: IntType) -> bool
    ensures { result ≡ (same_text decl.now.ident (anonymous version) && same_type decl.now.ty ty) }
{
    is_anonymous_of(decl.ident.bytes(), version) && same_type(decl.ty, ty)
}

/// Whether the anonymous name of the version is declared in the list, with that type.
fn declares_anonymous(decls: &[Decl], version: u32, ty: IntType) -> bool
    ensures { result ≡ declares_as (anonymous version) ty decls.now }
{
    decls
        .iter()
        .any(|decl| is_declaration_of(decl, version, ty))
}

/// Whether the row's base is a local of its type, and the row no default definition.
fn local_base_holds(function: &Function, row: &NameRow) -> bool
    ensures { result ≡ local_base_holds function.now row.now }
{
    !row.initial && declares_as(function.decls.as_slice(), row.base.bytes(), row.ty)
}

/// Whether the row's base is declared as it must be.
fn base_holds(function: &Function, row: &NameRow) -> bool
    ensures { result ≡ base_holds function.now row.now }
{
    if is_empty(row.base.bytes()) {
        return !row.initial && declares_anonymous(function.decls.as_slice(), row.version, row.ty);
    }
    declares_as(function.params.as_slice(), row.base.bytes(), row.ty)
        || local_base_holds(function, row)
}

/// Whether the row is of an anonymous name that no block uses.
fn is_idle(blocks: &[Block], row: &NameRow) -> bool
    ensures { result ≡ is_idle blocks.now row.now }
{
    is_empty(row.base.bytes()) && !are_using(blocks, row.version)
}

/// Whether the row's name is assigned and used as it must be.
fn row_stands(blocks: &[Block], row: &NameRow) -> bool
    ensures { result ≡ row_stands_in blocks.now row.now }
{
    let assigned = are_assigning(blocks, row.version);
    if row.initial {
        return !assigned && are_using(blocks, row.version);
    }
    assigned || is_idle(blocks, row)
}

/// Whether the row's base is declared, and its name assigned and used, as they must be.
fn row_holds(function: &Function, row: &NameRow) -> bool
    ensures { result ≡ row_holds function.now row.now }
{
    base_holds(function, row) && row_stands(function.blocks.as_slice(), row)
}

/// Whether each row holds.
fn rows_hold(function: &Function, rows: &[NameRow]) -> bool
    ensures { result ≡ list_all (row_holds function.now) rows.now }
{
    rows.iter().all(|row| row_holds(function, row))
}

/// Whether the row is a default definition of that base.
fn is_initial_of(row: &NameRow, base: &[u8]) -> bool
    ensures { result ≡ is_initial_of base.now row.now }
{
    row.initial && same_text(base, row.base.bytes())
}

/// Whether a row is a default definition of that base.
fn any_initial_of(rows: &[NameRow], base: &[u8]) -> bool
    ensures { result ≡ list_any (is_initial_of base.now) rows.now }
{
    rows.iter().any(|row| is_initial_of(row, base))
}

/// Whether no later row is a default definition of the same base, if this row is one.
fn is_last_initial(row: &NameRow, after: &[NameRow]) -> bool
    ensures { result ≡ is_last_initial row.now after.now }
{
    if row.initial {
        !any_initial_of(after, row.base.bytes())
    } else {
        true
    }
}

/// Whether no parameter has two default definitions.
fn distinct_initials(rows: &[NameRow]) -> bool
    ensures { result ≡ distinct_initials rows.now }
{
    let mut rest = rows;
    while let [row, more @ ..] = rest {
        if !is_last_initial(row, more) {
            return false;
        }
        rest = more;
    }
    true
}

/// Whether the row is that of the anonymous name.
fn is_row_of(row: &NameRow, ident: &[u8]) -> bool
    ensures { result ≡ is_row_of ident.now row.now }
{
    is_empty(row.base.bytes()) && anonymous_is(row.version, ident)
}

/// Whether a row is that of the anonymous name.
fn have_row_of(rows: &[NameRow], ident: &[u8]) -> bool
    ensures { result ≡ list_any (is_row_of ident.now) rows.now }
{
    rows.iter().any(|row| is_row_of(row, ident))
}

/// Whether the local has its row, if it is an anonymous name.
fn local_holds(rows: &[NameRow], decl: &Decl) -> bool
    ensures { result ≡ local_holds rows.now decl.now }
{
    !is_anonymous(decl.ident.bytes()) || have_row_of(rows, decl.ident.bytes())
}

/// Whether each local that is an anonymous name has its row.
fn locals_hold(rows: &[NameRow], decls: &[Decl]) -> bool
    ensures { result ≡ list_all (local_holds rows.now) decls.now }
{
    decls.iter().all(|decl| local_holds(rows, decl))
}

/// Whether the rules on names hold.
pub(crate) fn names_hold(function: &Function) -> bool
    ensures { result ≡ names_by_part function.now }
{
    let rows = function.names.as_slice();
    rows_rise(rows)
        && rows_hold(function, rows)
        && distinct_initials(rows)
        && locals_hold(rows, function.decls.as_slice())
        && distinct_names(function.blocks.as_slice())
}
