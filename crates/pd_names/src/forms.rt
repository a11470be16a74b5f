//! Forms, one after the other, and what each makes known.

ghost use Rattle.std.specs.Prelude.{◌≡◌, [], ◌++◌, ◌∷◌, map, IfOk};
ghost use Rattle.cond_subset.specs.Names.{Judges};
ghost use Rattle.pd_forms.specs.Trees.{pattern_of};
ghost use Rattle.pd_forms.specs.Results.{result_of};
ghost use Rattle.pd_forms.specs.Tails.{tail_of};
ghost use Rattle.pd_files.specs.Forms.{form_of, forms};
ghost use Rattle.pd_pattern_names.specs.Uses.{uses_of, is_free_in};
ghost use Rattle.cond_subset.specs.Trees.{expr_of};
ghost use Rattle.pd_names.specs.Lists.{list_fault};
ghost use Rattle.pd_names.specs.Forms as form_rules;

use crate::lists::{add_list, check_list, check_lists};
use crate::parts::{check_capture, check_part};
use crate::results::{check_result, has_large};
use crate::sight::Sight;
use crate::tails::check_tail;
use cond_subset::ExprText;
use pd_files::{CaseHeadText, FormText, ListText};
use pd_forms::{PatternText, ResultText, TailText};
use pd_pattern_names::{
    Case, Known, Own, Stand, broken, captures_of, check_pattern, count_names, differs,
    has_many_nodes, is_bound, is_free_in, is_taken, is_used, note_uses, parameters_of,
};
use pm_items::Items;
use pm_ops::{OutOfMemory, PatternFault, PatternKind};
use pm_places::{Span, text};
use std::alloc::Global;

/// How many captures a form may have.
const MAX_CAPTURES: usize = 32;

/// What a form sees of its pattern.
fn sight_of(alloc: Global, pattern: &PatternText, in_match: bool) -> Result<Sight, OutOfMemory>
    ensures { IfOk result (λ x. x ≡ form_rules.sight_of (pattern_of pattern.now) in_match) }
{
    let captures = captures_of(alloc, pattern)?;
    Ok(Sight {
        captures,
        locals: Items::new(alloc),
        in_match,
    })
}

/// A form has no more captures and operations than it may have.
fn check_limits(
    source: &[u8],
    known: &Known,
    own: Option<Own>,
    at: Span,
    captures: &[Span],
    pattern: &PatternText,
    large: bool,
) -> Result<(), PatternFault>
    ensures { Judges (form_rules.limits_fault source.now known.now own at captures.now (pattern_of pattern.now) large) result }
{
    let many = count_names(source, captures) > MAX_CAPTURES;
    broken(many, PatternKind::TooManyCaptures, at)?;
    let is = has_many_nodes(source, known, own, pattern) || large;
    broken(is, PatternKind::TooManyNodes, at)
}

/// Uses of predicates are known from here on.
fn add_uses(known: &mut Known, uses: Items<Span>) -> Result<(), OutOfMemory>
    ensures { IfOk result (λ _. known.new ≡ form_rules.with_used known.old uses) }
{
    known.used.append(uses)?;
    Ok(())
}

/// Where a pattern uses predicates.
fn uses_in(
    alloc: Global,
    source: &[u8],
    known: &Known,
    own: Option<Own>,
    pattern: &PatternText,
) -> Result<Items<Span>, OutOfMemory>
    ensures { IfOk result (λ x. x ≡ uses_of source.now known.now own (pattern_of pattern.now)) }
{
    let mut uses = Items::new(alloc);
    note_uses(source, known, own, pattern, &mut uses)?;
    Ok(uses)
}

/// The rules on a rewriting.
fn judge_simplify(
    alloc: Global,
    source: &[u8],
    known: &Known,
    at: Span,
    pattern: &PatternText,
    result_text: &ResultText,
) -> Result<(), PatternFault>
    ensures { Judges (form_rules.simplify_fault source.now known.now at (pattern_of pattern.now) (result_of result_text.now)) result }
{
    let sight = sight_of(alloc, pattern, false)?;
    let large = has_large(result_text);
    check_limits(
        source,
        known,
        None,
        at,
        sight.captures.as_slice(),
        pattern,
        large,
    )?;
    check_pattern(source, known, None, Stand::OfSimplify, pattern)?;
    check_result(alloc, source, known, &sight, result_text)
}

/// A rewriting.
fn check_simplify(
    alloc: Global,
    source: &[u8],
    known: &mut Known,
    at: Span,
    pattern: &PatternText,
    result_text: &ResultText,
) -> Result<(), PatternFault>
    ensures judges { Judges (form_rules.simplify_fault source.now known.old at (pattern_of pattern.now) (result_of result_text.now)) result }
    ensures after { IfOk result (λ _. known.new ≡ form_rules.with_used known.old (uses_of source.now known.old None (pattern_of pattern.now))) }
{
    judge_simplify(alloc, source, known, at, pattern, result_text)?;
    let uses = uses_in(alloc, source, known, None, pattern)?;
    add_uses(known, uses)?;
    Ok(())
}

/// The predicate of a case.
fn own_of(head: &CaseHeadText) -> Option<Own>
    ensures { result ≡ form_rules.own_of head.now }
{
    Some(Own {
        name: head.name,
        called: head.parameters.len() > 0,
    })
}

/// The parameters of a case are captures of its pattern, each named once.
fn check_parameters(source: &[u8], sight: &Sight, parameters: &[Span]) -> Result<(), PatternFault>
    ensures { Judges (form_rules.parameters_fault source.now sight.now [] parameters.now) result }
{
    for (place, at) in parameters.iter().enumerate() {
        let is = is_bound(source, &parameters[..place], *at);
        broken(is, PatternKind::DuplicateName, *at)?;
        check_capture(source, sight, *at)?;
    }
    Ok(())
}

/// The name of a case is free, or is that of a predicate that no form above uses and whose cases
/// have so many parameters.
fn check_case_name(source: &[u8], known: &Known, head: &CaseHeadText) -> Result<(), PatternFault>
    ensures { Judges (form_rules.case_name_fault source.now known.now head.now) result }
{
    let name = text(source, head.name);
    broken(
        is_taken(source, known, name, true),
        PatternKind::DuplicateName,
        head.name,
    )?;
    broken(
        is_used(source, known, name),
        PatternKind::LateCase,
        head.name,
    )?;
    let before = parameters_of(source, known.cases.as_slice(), name);
    let is = differs(before, head.parameters.len());
    broken(is, PatternKind::BadArity, head.name)
}

/// The rules on a case.
fn judge_case(
    alloc: Global,
    source: &[u8],
    known: &Known,
    at: Span,
    head: &CaseHeadText,
    pattern: &PatternText,
    tail: &TailText,
) -> Result<(), PatternFault>
    ensures { Judges (form_rules.case_fault source.now known.now at head.now (pattern_of pattern.now) (tail_of tail.now)) result }
{
    let own = own_of(head);
    let sight = sight_of(alloc, pattern, true)?;
    check_limits(
        source,
        known,
        own,
        at,
        sight.captures.as_slice(),
        pattern,
        false,
    )?;
    check_case_name(source, known, head)?;
    check_parameters(source, &sight, head.parameters.as_slice())?;
    check_pattern(source, known, own, Stand::OfMatch, pattern)?;
    check_tail(alloc, source, known, &sight, tail)
}

/// Which parameters of a case are free in it.
fn freedom(
    alloc: Global,
    source: &[u8],
    known: &Known,
    own: Option<Own>,
    parameters: &[Span],
    pattern: &PatternText,
) -> Result<Items<bool>, OutOfMemory>
    ensures { IfOk result (λ x. x ≡ map (λ at. is_free_in source.now known.now own at (pattern_of pattern.now)) parameters.now) }
{
    let mut free = Items::new(alloc);
    for at in parameters {
        free.push(is_free_in(source, known, own, *at, pattern))?;
    }
    Ok(free)
}

/// A case is known from here on.
fn add_case(known: &mut Known, uses: Items<Span>, one: Case) -> Result<(), OutOfMemory>
    ensures { IfOk result (λ _. known.new ≡ form_rules.with_case known.old uses one) }
{
    known.used.append(uses)?;
    known.cases.push(one)?;
    Ok(())
}

/// A case of a predicate.
fn check_case(
    alloc: Global,
    source: &[u8],
    known: &mut Known,
    at: Span,
    head: &CaseHeadText,
    pattern: &PatternText,
    tail: &TailText,
) -> Result<(), PatternFault>
    ensures judges { Judges (form_rules.case_fault source.now known.old at head.now (pattern_of pattern.now) (tail_of tail.now)) result }
    ensures after { IfOk result (λ _. known.new ≡ form_rules.after_case source.now known.old head.now (pattern_of pattern.now)) }
{
    judge_case(alloc, source, known, at, head, pattern, tail)?;
    let own = own_of(head);
    let uses = uses_in(alloc, source, known, own, pattern)?;
    let free = freedom(
        alloc,
        source,
        known,
        own,
        head.parameters.as_slice(),
        pattern,
    )?;
    let one = Case {
        name: head.name,
        free,
    };
    add_case(known, uses, one)?;
    Ok(())
}

/// The condition of an `if` round forms, which has no captures.
fn check_condition(
    alloc: Global,
    source: &[u8],
    known: &Known,
    condition: &ExprText,
) -> Result<(), PatternFault>
    ensures { Judges (form_rules.condition_fault source.now known.now (expr_of condition.now)) result }
{
    let sight = Sight {
        captures: Items::new(alloc),
        locals: Items::new(alloc),
        in_match: false,
    };
    check_part(alloc, source, known, &sight, &[], condition)
}

/// An operator list.
fn check_operators(source: &[u8], known: &mut Known, list: &ListText) -> Result<(), PatternFault>
    ensures judges { Judges (list_fault source.now known.old list.now) result }
    ensures after { IfOk result (λ _. known.new ≡ form_rules.after_list source.now known.old list.now) }
{
    let one = check_list(source, known, list)?;
    add_list(known, one)?;
    Ok(())
}

/// The forms of a `for`.
#[cycle(forms)]
fn check_for(
    alloc: Global,
    source: &[u8],
    known: &mut Known,
    lists: &[ListText],
    body: &[FormText],
) -> Result<(), PatternFault>
    ensures judges { Judges (form_rules.for_fault source.now known.old lists.now (forms (map form_of body.now))) result }
    ensures after { IfOk result (λ _. known.new ≡ form_rules.after_for source.now known.old lists.now (forms (map form_of body.now))) }
{
    let outside = known.choices.len();
    check_lists(source, known, lists)?;
    check_forms(alloc, source, known, body)?;
    known.choices.truncate(outside);
    Ok(())
}

/// A form.
#[cycle(forms)]
fn check_form(
    alloc: Global,
    source: &[u8],
    known: &mut Known,
    form: &FormText,
) -> Result<(), PatternFault>
    ensures judges { Judges (form_rules.form_fault source.now known.old (form_of form.now)) result }
    ensures after { IfOk result (λ _. known.new ≡ form_rules.known_after source.now known.old (form_of form.now)) }
{
    match form {
        FormText::Simplify(at, pattern, result_text) => {
            check_simplify(alloc, source, known, *at, pattern, result_text)
        }
        FormText::Match(at, head, pattern, tail) => {
            check_case(alloc, source, known, *at, head, pattern, tail)
        }
        FormText::For(_, lists, body) => {
            check_for(alloc, source, known, lists.as_slice(), body.as_slice())
        }
        FormText::If(condition, body) => {
            check_condition(alloc, source, known, condition)?;
            check_forms(alloc, source, known, body.as_slice())
        }
        FormText::OperatorList(list) => check_operators(source, known, list),
        FormText::Predicates(_) => Ok(()),
    }
}

/// Forms, each after those before it.
#[cycle(forms)]
fn check_forms(
    alloc: Global,
    source: &[u8],
    known: &mut Known,
    all: &[FormText],
) -> Result<(), PatternFault>
    ensures judges { Judges (form_rules.forms_fault source.now known.old (forms (map form_of all.now))) result }
    ensures after { IfOk result (λ _. known.new ≡ form_rules.known_after_all source.now known.old (forms (map form_of all.now))) }
{
    for form in all {
        check_form(alloc, source, known, form)?;
    }
    Ok(())
}

/// The stage of names: the first place, in the order of the file, at which a rule on names is
/// broken.
///
/// Its faults are DuplicateName, LateCase, UnknownOperator, UnknownPredicate, BadArity, BadFlag,
/// BadArgument, UnboundCapture, TooManyCaptures, TooManyNodes, CName and Memory.
pub fn check_names(alloc: Global, source: &[u8], file: &[FormText]) -> Result<(), PatternFault>
    ensures { Judges (form_rules.names_fault source.now (map form_of file.now)) result }
{
    let mut known = Known {
        lists: Items::new(alloc),
        choices: Items::new(alloc),
        cases: Items::new(alloc),
        used: Items::new(alloc),
    };
    check_forms(alloc, source, &mut known, file)
}
