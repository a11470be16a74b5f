//! The lines of a function, read from the front of a text on.

ghost use Rattle.std.specs.Prelude.{◌≡◌, ◌∷◌, [], codes, option_map, length};
ghost use Rattle.first_gimple.specs.Pieces.{tokens_of};
ghost use Rattle.first_gimple.specs.Reading.{Gives, fixed, token_at, local_of, code_of, meant_at, type_at, mark_at, taken_at, line_at, lines_at, local_at, locals_at, param_at, further_param_at, params_behind, params_at, head_at, number_at, end_at, signature_at, draft_at};

use crate::draft::{Draft, Line, Taken};
use crate::fault::FirstFault;
use crate::numbers;
use crate::tokens::next_token;
use pm_items::Items;
use pm_ops::{Code, Text};
use std::alloc::Global;

/// The first token and the text behind it.
#[tactic(auto, unfolding(crate::specs::Reading::token_at))]
fn take_token(text: &[u8]) -> Result<(&[u8], &[u8]), FirstFault>
    ensures { Gives (λ x. (x.0.now, tokens_of x.1.now)) result (token_at (tokens_of text.now)) }
{
    match next_token(text) {
        Some(found) => Ok(found),
        None => Err(FirstFault::NotFirst),
    }
}

/// The text behind this token.
#[tactic(auto, unfolding(crate::specs::Reading::fixed))]
fn take_fixed<'a>(text: &'a [u8], word: &str) -> Result<&'a [u8], FirstFault>
    ensures { Gives (λ x. tokens_of x.now) result (fixed word.now (tokens_of text.now)) }
{
    match next_token(text) {
        Some((token, rest)) => {
            if token == word.as_bytes() {
                Ok(rest)
            } else {
                Err(FirstFault::NotFirst)
            }
        }
        None => Err(FirstFault::NotFirst),
    }
}

/// `unsigned int`
#[tactic(auto, unfolding(crate::specs::Reading::type_at, crate::specs::Reading::then_read))]
fn take_type(text: &[u8]) -> Result<&[u8], FirstFault>
    ensures { Gives (λ x. tokens_of x.now) result (type_at (tokens_of text.now)) }
{
    take_fixed(take_fixed(text, "unsigned")?, "int")
}

/// `(D)`
#[tactic(auto, unfolding(crate::specs::Reading::mark_at, crate::specs::Reading::then_read))]
fn take_mark(text: &[u8]) -> Result<&[u8], FirstFault>
    ensures { Gives (λ x. tokens_of x.now) result (mark_at (tokens_of text.now)) }
{
    let text = take_fixed(text, "(")?;
    let text = take_fixed(text, "D")?;
    take_fixed(text, ")")
}

/// The version of a name without a base.
#[tactic(auto, unfolding(crate::specs::Reading::local_of))]
fn local(token: &[u8]) -> Option<u32>
    ensures { result ≡ local_of token.now }
{
    match numbers::name(token) {
        Some(([], version)) => Some(version),
        _ => None,
    }
}

/// A name without a base.
#[tactic(auto, unfolding(crate::specs::Reading::meant_at, crate::specs::Reading::then_read))]
fn take_local(text: &[u8]) -> Result<(u32, &[u8]), FirstFault>
    ensures { Gives (λ x. (x.0, tokens_of x.1.now)) result (meant_at local_of (tokens_of text.now)) }
{
    let (token, text) = take_token(text)?;
    match local(token) {
        Some(version) => Ok((version, text)),
        None => Err(FirstFault::NotFirst),
    }
}

/// The operation that the token writes.
fn code(token: &[u8]) -> Option<Code>
    ensures { result ≡ code_of token.now }
{
    if token == b"+".as_slice() {
        Some(Code::Plus)
    } else if token == b"-".as_slice() {
        Some(Code::Minus)
    } else if token == b"*".as_slice() {
        Some(Code::Mult)
    } else if token == b"&".as_slice() {
        Some(Code::BitAnd)
    } else if token == b"|".as_slice() {
        Some(Code::BitIor)
    } else if token == b"^".as_slice() {
        Some(Code::BitXor)
    } else {
        None
    }
}

#[tactic(auto, unfolding(crate::specs::Reading::meant_at, crate::specs::Reading::then_read))]
fn take_code(text: &[u8]) -> Result<(Code, &[u8]), FirstFault>
    ensures { Gives (λ x. (x.0, tokens_of x.1.now)) result (meant_at code_of (tokens_of text.now)) }
{
    let (token, text) = take_token(text)?;
    match code(token) {
        Some(code) => Ok((code, text)),
        None => Err(FirstFault::NotFirst),
    }
}

/// A name, a default definition or a number.
#[tactic(auto, unfolding(crate::specs::Reading::taken_at, crate::specs::Reading::then_read))]
fn take_operand(alloc: Global, text: &[u8]) -> Result<(Taken, &[u8]), FirstFault>
    ensures { Gives (λ x. (x.0, tokens_of x.1.now)) result (taken_at (tokens_of text.now)) }
{
    let (token, text) = take_token(text)?;
    if let Some(value) = numbers::literal(token) {
        return Ok((Taken::Literal(value), text));
    }
    match numbers::name(token) {
        None => Err(FirstFault::NotFirst),
        Some(([], version)) => Ok((Taken::Local(version), text)),
        Some((base, version)) => {
            let text = take_mark(text)?;
            Ok((Taken::Initial(Text::new(alloc, base)?, version), text))
        }
    }
}

/// `_3 = left + right;`
#[tactic(auto, unfolding(crate::specs::Reading::line_at, crate::specs::Reading::then_read))]
fn take_line(alloc: Global, text: &[u8]) -> Result<(Line, &[u8]), FirstFault>
    ensures { Gives (λ x. (x.0, tokens_of x.1.now)) result (line_at (tokens_of text.now)) }
{
    let (name, text) = take_local(text)?;
    let text = take_fixed(text, "=")?;
    let (left, text) = take_operand(alloc, text)?;
    let (code, text) = take_code(text)?;
    let (right, text) = take_operand(alloc, text)?;
    let text = take_fixed(text, ";")?;
    let line = Line {
        name,
        code,
        left,
        right,
    };
    Ok((line, text))
}

/// Whether the text begins with this token, and then the text behind it.
#[tactic(auto, unfolding(crate::specs::Reading::fixed))]
fn after_fixed<'a>(text: &'a [u8], word: &str) -> Option<&'a [u8]>
    ensures { option_map (λ x. tokens_of x.now) result ≡ fixed word.now (tokens_of text.now) }
{
    match next_token(text) {
        Some((token, rest)) => {
            if token == word.as_bytes() {
                Some(rest)
            } else {
                None
            }
        }
        None => None,
    }
}

/// The statements, at most `count`, and the text behind `return`.
fn take_lines(alloc: Global, count: usize, text: &[u8]) -> Result<(Items<Line>, &[u8]), FirstFault>
    ensures { Gives (λ x. (x.0, tokens_of x.1.now)) result (lines_at count (tokens_of text.now)) }
{
    let mut lines = Items::new(alloc);
    let mut rest = text;
    for _ in 0..count {
        match after_fixed(rest, "return") {
            Some(end) => return Ok((lines, end)),
            None => {
                let (line, after) = take_line(alloc, rest)?;
                lines.push(line)?;
                rest = after;
            }
        }
    }
    Err(FirstFault::NotFirst)
}

/// `unsigned int _3;`
#[tactic(auto, unfolding(crate::specs::Reading::local_at, crate::specs::Reading::then_read))]
fn take_declared(text: &[u8]) -> Result<(u32, &[u8]), FirstFault>
    ensures { Gives (λ x. (x.0, tokens_of x.1.now)) result (local_at (tokens_of text.now)) }
{
    let text = take_type(text)?;
    let (version, text) = take_local(text)?;
    let text = take_fixed(text, ";")?;
    Ok((version, text))
}

/// The declared names, at most `count`, and the text behind `__BB`.
fn take_locals(alloc: Global, count: usize, text: &[u8]) -> Result<(Items<u32>, &[u8]), FirstFault>
    ensures { Gives (λ x. (x.0, tokens_of x.1.now)) result (locals_at count (tokens_of text.now)) }
{
    let mut locals = Items::new(alloc);
    let mut rest = text;
    for _ in 0..count {
        match after_fixed(rest, "__BB") {
            Some(end) => return Ok((locals, end)),
            None => {
                let (version, after) = take_declared(rest)?;
                locals.push(version)?;
                rest = after;
            }
        }
    }
    Err(FirstFault::NotFirst)
}

/// `unsigned int x`
#[tactic(auto, unfolding(crate::specs::Reading::param_at, crate::specs::Reading::then_read))]
fn take_param(alloc: Global, text: &[u8]) -> Result<(Text, &[u8]), FirstFault>
    ensures { Gives (λ x. (x.0, tokens_of x.1.now)) result (param_at (tokens_of text.now)) }
{
    let text = take_type(text)?;
    let (token, text) = take_token(text)?;
    Ok((Text::new(alloc, token)?, text))
}

/// `, unsigned int x`
#[tactic(auto, unfolding(crate::specs::Reading::further_param_at, crate::specs::Reading::then_read))]
fn take_further_param(alloc: Global, text: &[u8]) -> Result<(Text, &[u8]), FirstFault>
    ensures { Gives (λ x. (x.0, tokens_of x.1.now)) result (further_param_at (tokens_of text.now)) }
{
    let text = take_fixed(text, ",")?;
    take_param(alloc, text)
}

/// The parameters from the first on, at most `count` behind it, and the text behind `)`.
fn take_params_behind(
    alloc: Global,
    first: Text,
    count: usize,
    text: &[u8],
) -> Result<(Items<Text>, &[u8]), FirstFault>
    ensures { Gives (λ x. (x.0, tokens_of x.1.now)) result (params_behind first count (tokens_of text.now)) }
{
    let mut params = Items::new(alloc);
    params.push(first)?;
    let mut rest = text;
    for _ in 0..count {
        match after_fixed(rest, ")") {
            Some(end) => return Ok((params, end)),
            None => {
                let (param, after) = take_further_param(alloc, rest)?;
                params.push(param)?;
                rest = after;
            }
        }
    }
    Err(FirstFault::NotFirst)
}

/// The parameters, at most `count` behind the first, and the text behind `)`.
#[tactic(auto, unfolding(crate::specs::Reading::params_at, crate::specs::Reading::then_read, crate::specs::Reading::or_read))]
fn take_params(alloc: Global, count: usize, text: &[u8]) -> Result<(Items<Text>, &[u8]), FirstFault>
    ensures { Gives (λ x. (x.0, tokens_of x.1.now)) result (params_at count (tokens_of text.now)) }
{
    if let Some(rest) = after_fixed(text, ")") {
        return Ok((Items::new(alloc), rest));
    }
    if let Some(rest) = after_fixed(text, "void") {
        return Ok((Items::new(alloc), take_fixed(rest, ")")?));
    }
    let (first, text) = take_param(alloc, text)?;
    take_params_behind(alloc, first, count, text)
}

/// `unsigned int __GIMPLE (ssa)`
#[tactic(auto, unfolding(crate::specs::Reading::head_at, crate::specs::Reading::then_read))]
fn take_head(text: &[u8]) -> Result<&[u8], FirstFault>
    ensures { Gives (λ x. tokens_of x.now) result (head_at (tokens_of text.now)) }
{
    let text = take_type(text)?;
    let text = take_fixed(text, "__GIMPLE")?;
    let text = take_fixed(text, "(")?;
    let text = take_fixed(text, "ssa")?;
    take_fixed(text, ")")
}

/// The function's name and its parameters, and the text behind `{`.
#[tactic(auto, unfolding(crate::specs::Reading::signature_at, crate::specs::Reading::then_read))]
fn take_signature(
    alloc: Global,
    count: usize,
    text: &[u8],
) -> Result<((Text, Items<Text>), &[u8]), FirstFault>
    ensures { Gives (λ x. (x.0, tokens_of x.1.now)) result (signature_at count (tokens_of text.now)) }
{
    let text = take_head(text)?;
    let (token, text) = take_token(text)?;
    let name = Text::new(alloc, token)?;
    let text = take_fixed(text, "(")?;
    let (params, text) = take_params(alloc, count, text)?;
    let text = take_fixed(text, "{")?;
    Ok(((name, params), text))
}

/// The number of the block, behind `__BB`.
#[tactic(auto, unfolding(crate::specs::Reading::number_at, crate::specs::Reading::meant_at, crate::specs::Reading::then_read))]
fn take_number(text: &[u8]) -> Result<(u32, &[u8]), FirstFault>
    ensures { Gives (λ x. (x.0, tokens_of x.1.now)) result (number_at (tokens_of text.now)) }
{
    let text = take_fixed(text, "(")?;
    let (token, text) = take_token(text)?;
    let Some(number) = numbers::number_below(numbers::VERSIONS, token) else {
        return Err(FirstFault::NotFirst);
    };
    let text = take_fixed(text, ")")?;
    let text = take_fixed(text, ":")?;
    Ok((number, text))
}

/// What is returned, behind `return`, and the end of the text.
#[tactic(auto, unfolding(crate::specs::Reading::end_at, crate::specs::Reading::then_read))]
fn take_end(alloc: Global, text: &[u8]) -> Result<Taken, FirstFault>
    ensures { Gives (λ x. x) result (end_at (tokens_of text.now)) }
{
    let (end, text) = take_operand(alloc, text)?;
    let text = take_fixed(text, ";")?;
    let text = take_fixed(text, "}")?;
    match next_token(text) {
        Some(_) => Err(FirstFault::NotFirst),
        None => Ok(end),
    }
}

/// The function that the text writes, line by line.
#[tactic(auto, unfolding(crate::specs::Reading::draft_at, crate::specs::Reading::then_read))]
pub(crate) fn draft(alloc: Global, source: &[u8]) -> Result<Draft, FirstFault>
    ensures { Gives (λ x. x) result (draft_at (length source.now) (tokens_of source.now)) }
{
    // No list has more items than the text has bytes.
    let count = source.len();
    let ((name, params), text) = take_signature(alloc, count, source)?;
    let (locals, text) = take_locals(alloc, count, text)?;
    let (number, text) = take_number(text)?;
    let (lines, text) = take_lines(alloc, count, text)?;
    let end = take_end(alloc, text)?;
    Ok(Draft {
        name,
        params,
        locals,
        number,
        lines,
        end,
    })
}
