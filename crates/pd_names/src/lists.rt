//! Lists of operators: `define_operator_list`, and the identifiers of `for`s.

ghost use Rattle.std.specs.Prelude.{◌≡◌, IfOk};
ghost use Rattle.pd_pattern_names.specs.Known.{or_else};
ghost use Rattle.cond_subset.specs.Names.{Judges};
ghost use Rattle.pd_names.specs.Lists as list_rules;

use pd_files::ListText;
use pd_pattern_names::{Chosen, Known, broken, entry_arity, is_taken};
use pm_items::Items;
use pm_ops::{OutOfMemory, PatternFault, PatternKind};
use pm_places::{Span, text};

/// The number of operands that an entry asks for, if it asks for one.
fn number_asked(entry: Option<Option<usize>>) -> Option<usize>
    ensures { result ≡ list_rules.number_asked entry }
{
    match entry {
        Some(arity) => arity,
        None => None,
    }
}

/// Whether two numbers are there and are not the same.
fn disagree(first: Option<usize>, second: Option<usize>) -> bool
    ensures { result ≡ list_rules.disagree first second }
{
    match first {
        Some(m) => match second {
            Some(n) => m != n,
            None => false,
        },
        None => false,
    }
}

/// An entry is known, and asks for the number that those before it ask for.
fn check_entry(
    entry: Option<Option<usize>>,
    before: Option<usize>,
    at: Span,
) -> Result<(), PatternFault>
    ensures { Judges (list_rules.entry_fault entry before at) result }
{
    broken(entry.is_none(), PatternKind::UnknownOperator, at)?;
    let is_other = disagree(before, number_asked(entry));
    broken(is_other, PatternKind::BadArity, at)
}

/// The first of two numbers that is there.
fn first_of(first: Option<usize>, second: Option<usize>) -> Option<usize>
    ensures { result ≡ or_else first second }
{
    match first {
        Some(n) => Some(n),
        None => second,
    }
}

/// The entries of a list, and the number of operands for which they ask.
#[tactic(auto, using(crate::proofs::Firsts::or_none, crate::proofs::Firsts::or_or))]
fn check_entries(
    source: &[u8],
    lists: &[Chosen],
    entries: &[Span],
) -> Result<Option<usize>, PatternFault>
    ensures judges { Judges (list_rules.entries_fault source.now lists.now None entries.now) result }
    ensures asked { IfOk result (λ n. n ≡ list_rules.first_asked source.now lists.now entries.now) }
{
    let mut before = None;
    for at in entries {
        let entry = entry_arity(source, lists, text(source, *at));
        check_entry(entry, before, *at)?;
        before = first_of(before, number_asked(entry));
    }
    Ok(before)
}

/// A list, and what it makes known.
pub(crate) fn check_list(
    source: &[u8],
    known: &Known,
    list: &ListText,
) -> Result<Chosen, PatternFault>
    ensures judges { Judges (list_rules.list_fault source.now known.now list.now) result }
    ensures makes { IfOk result (λ x. x ≡ list_rules.chosen_of source.now known.now.lists list.now) }
{
    let is = is_taken(source, known, text(source, list.name), false);
    broken(is, PatternKind::DuplicateName, list.name)?;
    let arity = check_entries(source, known.lists.as_slice(), list.entries.as_slice())?;
    Ok(Chosen {
        name: list.name,
        arity,
    })
}

/// An operator list is known from here on.
pub(crate) fn add_list(known: &mut Known, one: Chosen) -> Result<(), OutOfMemory>
    ensures { IfOk result (λ _. known.new ≡ list_rules.with_list known.old one) }
{
    known.lists.push(one)?;
    Ok(())
}

/// An identifier of a `for` is known from here on.
fn add_choice(known: &mut Known, one: Chosen) -> Result<(), OutOfMemory>
    ensures { IfOk result (λ _. known.new ≡ list_rules.with_choice known.old one) }
{
    known.choices.push(one)?;
    Ok(())
}

/// The lists of a `for`, each after those before it.
pub(crate) fn check_lists(
    source: &[u8],
    known: &mut Known,
    lists: &[ListText],
) -> Result<(), PatternFault>
    ensures judges { Judges (list_rules.lists_fault source.now known.old lists.now) result }
    ensures after { IfOk result (λ _. known.new ≡ list_rules.under source.now known.old lists.now) }
{
    for list in lists {
        let one = check_list(source, known, list)?;
        add_choice(known, one)?;
    }
    Ok(())
}
