//! Parameters and locals.

ghost use Rattle.std.specs.Prelude.{◌≡◌, ◌<◌, ◌≤◌, length, IfOk};
ghost use Rattle.grammar.specs.Gives.{GivesInMemory};
ghost use Rattle.grammar.specs.Reading.{and_item, first_is};
ghost use Rattle.gim_words.specs.TokenReaders.{is_comma};
ghost use Rattle.gim_syntax.specs.Readers.{begins_type, typed_at, decl_at, decls_at, further_at, param_list_at, params_at};

use gim_text::{DeclText, Keyword, Mark, Token, TokenStop};
use gim_words::{read_mark, read_name, read_type};
use grammar::Stop;
use pm_items::Items;
use std::alloc::Global;

/// A type and the identifier that it declares, put at the end of `decls`; the tokens after them.
fn take_typed<'a>(
    decls: &mut Items<DeclText>,
    tokens: &'a [Token],
) -> Result<&'a [Token], TokenStop<'a>>
    ensures reads { GivesInMemory (λ x. (decls.new, x.now)) result (and_item decls.old (typed_at tokens.now)) }
    ensures shorter { IfOk result (λ x. length x.now < length tokens.now) }
{
    // A result with an `IntType` beside a slice is matched: the borrow checker has no rule for `?` on it.
    let (ty, rest) = match read_type(tokens) {
        Ok(read) => read,
        Err(fault) => return Err(Stop::Fault(fault)),
    };
    let (ident, rest) = read_name(rest)?;
    decls.push(DeclText { ty, ident })?;
    Ok(rest)
}

/// A local, put at the end of `decls`; the tokens after it.
fn take_decl<'a>(
    decls: &mut Items<DeclText>,
    tokens: &'a [Token],
) -> Result<&'a [Token], TokenStop<'a>>
    ensures reads { GivesInMemory (λ x. (decls.new, x.now)) result (and_item decls.old (decl_at tokens.now)) }
    ensures shorter { IfOk result (λ x. length x.now < length tokens.now) }
{
    let rest = take_typed(decls, tokens)?;
    let (_, rest) = read_mark(Mark::Semicolon, rest)?;
    Ok(rest)
}

/// Whether a type begins here.
fn begins_decl(tokens: &[Token]) -> bool
    ensures { result ≡ first_is begins_type tokens.now }
{
    match tokens {
        [Token::TypeWord(..), ..] => true,
        _ => false,
    }
}

/// The locals: as many as begin with a word of a type.
pub(crate) fn read_decls(
    alloc: Global,
    tokens: &[Token],
) -> Result<(Items<DeclText>, &[Token]), TokenStop<'_>>
    ensures reads { GivesInMemory (λ x. (x.0, x.1.now)) result (decls_at tokens.now) }
    ensures no_longer { IfOk result (λ x. length x.1.now ≤ length tokens.now) }
{
    let mut decls = Items::new(alloc);
    let mut rest = tokens;
    while begins_decl(rest) {
        rest = take_decl(&mut decls, rest)?;
    }
    Ok((decls, rest))
}

/// A comma and a parameter, put at the end of `params`; the tokens after them.
fn take_further<'a>(
    params: &mut Items<DeclText>,
    tokens: &'a [Token],
) -> Result<&'a [Token], TokenStop<'a>>
    ensures reads { GivesInMemory (λ x. (params.new, x.now)) result (and_item params.old (further_at tokens.now)) }
    ensures shorter { IfOk result (λ x. length x.now < length tokens.now) }
{
    let (_, rest) = read_mark(Mark::Comma, tokens)?;
    take_typed(params, rest)
}

/// Whether a comma stands here.
fn begins_further(tokens: &[Token]) -> bool
    ensures { result ≡ first_is is_comma tokens.now }
{
    match tokens {
        [Token::Mark(Mark::Comma, _), ..] => true,
        _ => false,
    }
}

/// One parameter or several, with commas between them.
fn read_param_list(
    alloc: Global,
    tokens: &[Token],
) -> Result<(Items<DeclText>, &[Token]), TokenStop<'_>>
    ensures reads { GivesInMemory (λ x. (x.0, x.1.now)) result (param_list_at tokens.now) }
    ensures no_longer { IfOk result (λ x. length x.1.now ≤ length tokens.now) }
{
    let mut params = Items::new(alloc);
    let mut rest = take_typed(&mut params, tokens)?;
    while begins_further(rest) {
        rest = take_further(&mut params, rest)?;
    }
    Ok((params, rest))
}

/// The parameters, between their parentheses.
pub(crate) fn read_params(
    alloc: Global,
    tokens: &[Token],
) -> Result<(Items<DeclText>, &[Token]), TokenStop<'_>>
    ensures reads { GivesInMemory (λ x. (x.0, x.1.now)) result (params_at tokens.now) }
    ensures no_longer { IfOk result (λ x. length x.1.now ≤ length tokens.now) }
{
    match tokens {
        [Token::Keyword(Keyword::Void, _), rest @ ..] => Ok((Items::new(alloc), rest)),
        [Token::TypeWord(..), ..] => read_param_list(alloc, tokens),
        _ => Ok((Items::new(alloc), tokens)),
    }
}
