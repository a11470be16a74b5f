//! What a function says of a name.
ghost use Rattle.std.specs.Prelude.{◌≡◌};
ghost use Rattle.std.specs.List.{flat_map};
ghost use Rattle.std.specs.Option.{option_copied};
ghost use Rattle.gim_ast.specs.Functions.{first_where, right_of};
ghost use Rattle.gim_terms.specs.Lookups.{assigns, is_row_of, stmts_in};
ghost use Rattle.gim_terms.specs.Targets.{type_of_name};

use gim_ast::{Block, Function, NameRow, Rhs, Stmt};
use pm_wide::IntType;

/// The right side of the statement that assigns a name.
#[tactic(auto, unfolding(gim_ast::specs::Functions::right_of))]
pub(crate) fn right_side(function: &Function, version: u32) -> Option<&Rhs>
    ensures { option_copied result ≡ right_of function.now version }
{
    Some(&stmt_among(function.blocks.as_slice(), version)?.rhs)
}

/// The first statement of these blocks that assigns a name.
fn stmt_among(blocks: &[Block], version: u32) -> Option<&Stmt>
    ensures { option_copied result ≡ first_where (assigns version) (flat_map stmts_in blocks.now) }
{
    for block in blocks {
        match stmt_in(block.stmts.as_slice(), version) {
            Some(stmt) => return Some(stmt),
            None => {}
        }
    }
    None
}

/// The first of these statements that assigns a name.
fn stmt_in(stmts: &[Stmt], version: u32) -> Option<&Stmt>
    ensures { option_copied result ≡ first_where (assigns version) stmts.now }
{
    for stmt in stmts {
        if stmt.name == version {
            return Some(stmt);
        }
    }
    None
}

/// The type of a name.
#[tactic(auto, unfolding(gim_ast::specs::Functions::row_of))]
pub(crate) fn name_type(function: &Function, version: u32) -> Option<IntType>
    ensures { result ≡ type_of_name function.now version }
{
    Some(row_among(function.names.as_slice(), version)?.ty)
}

/// The first of these rows that is that of a version.
fn row_among(rows: &[NameRow], version: u32) -> Option<&NameRow>
    ensures { option_copied result ≡ first_where (is_row_of version) rows.now }
{
    for row in rows {
        if row.version == version {
            return Some(row);
        }
    }
    None
}
