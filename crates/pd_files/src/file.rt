//! Whole pattern files: their forms, or the first fault of syntax.

ghost use Rattle.std.specs.Prelude.{◌≡◌, ◌≤◌, List, length, map, IfOk, IfErr};
ghost use Rattle.grammar.specs.Gives.{GivesInMemory};
ghost use Rattle.grammar.specs.Reading.{first_is};
ghost use Rattle.grammar.specs.Whole.{whole_of};
ghost use Rattle.pm_ops.specs.declared.fault.PatternKind.TheVariants.{Syntax};
ghost use Rattle.cond_subset.specs.Syntax.{fault_at, ReadsOrMemory};
ghost use Rattle.pd_files.specs.Forms.{Form, form_of, SpellsFile};
ghost use Rattle.pd_files.specs.FormReaders.{any_symbol, file_at};
ghost use Rattle.pd_files.specs.Files as files;

use crate::form::read_top;
use crate::tree::FormText;
use grammar::Stop;
use pd_forms::offends;
use pd_text::{Symbol, SymbolStop};
use pm_items::Items;
use pm_ops::{OutOfMemory, PatternFault, PatternKind};
use pm_places::Span;
use std::alloc::Global;

/// Whether a symbol is left.
fn begins_top(symbols: &[Symbol]) -> bool
    ensures { result ≡ first_is any_symbol symbols.now }
{
    match symbols {
        [_, ..] => true,
        [] => false,
    }
}

/// Forms, as long as a symbol is left.
fn read_forms(
    alloc: Global,
    symbols: &[Symbol],
) -> Result<(Items<FormText>, &[Symbol]), SymbolStop<'_>>
    ensures reads { GivesInMemory (λ x. (map form_of x.0, x.1.now)) result (file_at symbols.now) }
    ensures no_longer { IfOk result (λ x. length x.1.now ≤ length symbols.now) }
{
    let mut forms = Items::new(alloc);
    let mut rest = symbols;
    while begins_top(rest) {
        let (form, after) = read_top(alloc, rest)?;
        forms.push(form)?;
        rest = after;
    }
    Ok((forms, rest))
}

/// The forms up to the end.
fn whole_file(alloc: Global, symbols: &[Symbol]) -> Result<Items<FormText>, SymbolStop<'_>>
    ensures { GivesInMemory (map form_of) result (whole_of Syntax (file_at symbols.now)) }
{
    let (forms, rest) = read_forms(alloc, symbols)?;
    match rest {
        [] => Ok(forms),
        _ => Err(offends(rest).into()),
    }
}

/// The fault of syntax that this is: within a C part, or elsewhere.
fn syntax_kind(kind: PatternKind) -> PatternKind
    ensures { result ≡ files.syntax_kind kind }
{
    match kind {
        PatternKind::CSyntax => PatternKind::CSyntax,
        _ => PatternKind::Syntax,
    }
}

/// A fault of this kind at a place.
fn fault_at(kind: PatternKind, at: Span) -> PatternFault
    ensures { result ≡ fault_at kind at }
{
    PatternFault {
        kind,
        at: at.from,
        len: at.to.saturating_sub(at.from),
    }
}

/// The fault at the first of these symbols, or at the end of the source where there is none.
fn syntax_fault(source_len: usize, kind: PatternKind, rest: &[Symbol]) -> PatternFault
    ensures { result ≡ files.syntax_fault source_len kind rest.now }
{
    let kind = syntax_kind(kind);
    match rest {
        [first, ..] => fault_at(kind, first.span()),
        [] => PatternFault {
            kind,
            at: source_len,
            len: 0,
        },
    }
}

/// What was read, with its fault as one of the source.
fn in_source<X: Drop>(source_len: usize, read: Result<X, SymbolStop<'_>>) -> Result<X, PatternFault>
    ensures { files.InSource source_len read.entry result }
{
    match read {
        Ok(value) => Ok(value),
        Err(Stop::Memory) => Err(OutOfMemory.into()),
        Err(Stop::Fault(fault)) => Err(syntax_fault(source_len, fault.kind, fault.rest)),
    }
}

/// The forms that the symbols of a file of `source_len` bytes spell, all of them, or the fault of
/// syntax: `CSyntax` within a C part, `Syntax` elsewhere.
pub fn read_file(
    alloc: Global,
    source_len: usize,
    symbols: &[Symbol],
) -> Result<Items<FormText>, PatternFault>
    // What is read is spelled so.
    ensures found { IfOk result (λ x. SpellsFile (map form_of x) symbols.now) }
    // What is spelled so is read, unless memory runs out.
    ensures only { (x : List Form) → SpellsFile x symbols.now → ReadsOrMemory (map form_of) result x }
    // A fault is that of the first offending symbol, or of the end.
    ensures fault { IfErr result (λ fault. files.IsRefused source_len symbols.now fault fault.kind) }
{
    in_source(source_len, whole_file(alloc, symbols))
}
