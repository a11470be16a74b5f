//! The rules on declarations and their types.

ghost use Rattle.std.specs.Prelude.{◌≡◌};
ghost use Rattle.std.specs.List.{list_all, list_any};
ghost use Rattle.gim_ast.specs.WellFormed.{is_type_of};
ghost use Rattle.gim_ast.specs.RulesByPart.{has_identifier, has_anonymous, has_ident, has_type, distinct_idents, declarations_by_part, types_by_part};

use crate::rules::identifiers::{is_anonymous, is_identifier, same_text};
use crate::{Decl, Function};
use pm_wide::IntType;

/// Whether each is declared by an identifier.
fn are_identifiers(decls: &[Decl]) -> bool
    ensures { result ≡ list_all has_identifier decls.now }
{
    decls.iter().all(|decl| is_identifier(decl.ident.bytes()))
}

/// Whether one is declared as an anonymous name.
fn any_anonymous(decls: &[Decl]) -> bool
    ensures { result ≡ list_any has_anonymous decls.now }
{
    decls.iter().any(|decl| is_anonymous(decl.ident.bytes()))
}

/// Whether one has the identifier.
fn has_ident(decls: &[Decl], ident: &[u8]) -> bool
    ensures { result ≡ list_any (has_ident ident.now) decls.now }
{
    decls
        .iter()
        .any(|decl| same_text(ident, decl.ident.bytes()))
}

/// Whether none has the identifier of a later one, nor one of those told.
fn distinct_idents(decls: &[Decl], after: &[Decl]) -> bool
    ensures { result ≡ distinct_idents decls.now after.now }
{
    let mut rest = decls;
    while let [decl, more @ ..] = rest {
        if has_ident(more, decl.ident.bytes()) || has_ident(after, decl.ident.bytes()) {
            return false;
        }
        rest = more;
    }
    true
}

/// Whether the rules on declarations hold.
pub(crate) fn declarations_hold(function: &Function) -> bool
    ensures { result ≡ declarations_by_part function.now }
{
    let params = function.params.as_slice();
    let decls = function.decls.as_slice();
    is_identifier(function.name.bytes())
        && are_identifiers(params)
        && are_identifiers(decls)
        && distinct_idents(params, decls)
        && distinct_idents(decls, &[])
        && !any_anonymous(params)
}

/// Each type is one of the eleven.
pub(crate) fn is_type(ty: IntType) -> bool
    ensures { result ≡ is_type_of ty }
{
    let _width = ty.bits();
    true
}

/// Whether each has one of the eleven types.
fn have_types(decls: &[Decl]) -> bool
    ensures { result ≡ list_all has_type decls.now }
{
    decls.iter().all(|decl| is_type(decl.ty))
}

/// Whether the rules on types that are written hold.
pub(crate) fn types_hold(function: &Function) -> bool
    ensures { result ≡ types_by_part function.now }
{
    is_type(function.result)
        && have_types(function.params.as_slice())
        && have_types(function.decls.as_slice())
}
