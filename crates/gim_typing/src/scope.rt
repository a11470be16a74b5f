//! What the names of a function mean: the types that its declarations give them, and their
//! versions.

ghost use Rattle.std.specs.Prelude.{◌≡◌, ℕ, List, [], IfOk, Option, option_map};
ghost use Rattle.std.specs.HashMap.{get_by};
ghost use Rattle.std.specs.Str.{bytes_eq};
ghost use Rattle.gim_typing.specs.Declarations.{Declarations, declarations_of, declared_type};
ghost use Rattle.gim_typing.specs.Declarations.{type_by_base, type_of_name, version_of_name};

use crate::numbers::number;
use gim_text::{DeclText, FunctionText, name_parts};
use pm_ops::OutOfMemory;
use pm_places::{Span, text};
use pm_wide::IntType;
use std::alloc::Global;
use std::collections::HashMap;
use std::marker::Model;

/// The declarations of a function, with tables in which they are looked up. Contracts see the
/// declarations.
#[derive(Drop)]
pub struct Scope<'a> {
    source: &'a [u8],
    params: &'a [DeclText],
    locals: &'a [DeclText],
    types_of_params: HashMap<&'a [u8], IntType>,
    types_of_locals: HashMap<&'a [u8], IntType>,
}

impl<'a> Model for Scope<'a> {
    ghost use Rattle.std.specs.Prelude.{◌≡◌, ℕ, List};
    ghost use Rattle.std.specs.HashMap.{get_by};
    ghost use Rattle.std.specs.Str.{bytes_eq};
    ghost use Rattle.gim_typing.specs.Declarations.{Declarations, declared_type};

    ghost Value = { Declarations };

    ghost view = { λ s. record {
      source = s.source.now;
      params = s.params.now;
      locals = s.locals.now;
    } };

    ghost invariant = { λ s. ((q : List ℕ) → get_by (λ k. bytes_eq q k.now) s.types_of_params ≡
        declared_type s.source.now q s.params.now) ×
        ((q : List ℕ) → get_by (λ k. bytes_eq q k.now) s.types_of_locals ≡
        declared_type s.source.now q s.locals.now) };
}

/// The type that each identifier is first declared with.
fn types<'a>(
    alloc: Global,
    source: &'a [u8],
    decls: &'a [DeclText],
) -> Result<HashMap<&'a [u8], IntType>, OutOfMemory>
    ensures { IfOk result (λ types. (q : List ℕ) →
        get_by (λ k. bytes_eq q k.now) types ≡ declared_type source.now q decls.now) }
{
    let mut types = HashMap::new(alloc);
    let mut at = decls.len();
    while at > 0 {
        at -= 1;
        let decl = &decls[at];
        let Ok(_) = types.insert(text(source, decl.ident), decl.ty) else {
            return Err(OutOfMemory);
        };
    }
    Ok(types)
}

impl<'a> Scope<'a> {
    /// The declarations of a function.
    pub fn new(
        alloc: Global,
        source: &'a [u8],
        tree: &'a FunctionText,
    ) -> Result<Scope<'a>, OutOfMemory>
        ensures { IfOk result (λ scope. scope ≡ declarations_of source.now tree.now) }
    {
        let params = tree.params.as_slice();
        let locals = tree.decls.as_slice();
        Ok(Scope {
            source,
            params,
            locals,
            types_of_params: types(alloc, source, params)?,
            types_of_locals: types(alloc, source, locals)?,
        })
    }

    /// The bytes of the source.
    pub fn source(&self) -> &'a [u8]
        ensures { result.now ≡ self.now.source }
    {
        self.source
    }

    /// The declared type of a name of this base, which is the whole identifier where the base is
    /// empty.
    fn type_by_base(&self, ident: &[u8], base: &[u8]) -> Option<IntType>
        ensures { result ≡ type_by_base self.now ident.now base.now }
    {
        if base.is_empty() {
            return self.types_of_locals.get(&ident).copied();
        }
        match self.types_of_params.get(&base) {
            Some(ty) => Some(*ty),
            None => self.types_of_locals.get(&base).copied(),
        }
    }

    /// The type of the name at a place.
    pub fn type_of_name(&self, at: Span) -> IntType
        ensures { result ≡ type_of_name self.now at }
    {
        let ident = text(self.source(), at);
        match name_parts(ident) {
            Some((base, _)) => self.type_by_base(ident, base).unwrap_or(IntType::boolean()),
            None => IntType::boolean(),
        }
    }

    /// The version of the name at a place.
    pub fn version_of_name(&self, at: Span) -> u32
        ensures { result ≡ version_of_name self.now.source at }
    {
        match name_parts(text(self.source(), at)) {
            Some((_, digits)) => number(digits),
            None => 0,
        }
    }
}
