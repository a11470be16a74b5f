//! What stands in the place of names.
ghost use Rattle.std.specs.Prelude.{◌≡◌, option_copied, unwrap_or};
ghost use Rattle.pd_substitution.specs.Chosen.{entry_of, is_null, new_op, null_op, op_of, place_of};
ghost use Rattle.pd_substitution.specs.Chosen.{renaming};

use pd_ast::OpRef;
use pm_items::{Items, Shared};
use pm_ops::{Code, Text};

/// What an identifier of a `for` or a list of operators stands for.
#[derive(Clone, Copy, Debug, PartialEq, Eq)]
pub enum Entry {
    /// An operation.
    Of(Code),
    /// `null`, which leaves its row out.
    Null,
}

/// A capture that gets another name.
#[derive(Debug, Drop)]
pub struct Renamed {
    pub from: Text,
    pub to: Text,
    /// Whether it is then written with `@@`, where that is told; else as it was.
    pub by_value: Option<bool>,
}

/// What stands in the place of names. A name that isn't told stays.
#[derive(Debug, Drop)]
pub struct Substitution {
    /// Identifiers of `for` and lists of operators.
    pub names: Shared<Items<Text>>,
    /// The entry for each of these names.
    pub entries: Items<Entry>,
    /// Captures that get other names. Of two that tell of one capture the first counts.
    pub captures: Items<Renamed>,
    /// What is put before the name of every other capture.
    pub prefix: Option<Text>,
    /// The capture that stands for `t`, and whose type stands for `type`.
    pub subject: Option<Text>,
}

/// The entry beside a name.
pub fn entry_of(by: &Substitution, name: &Text) -> Option<Entry>
    ensures { result ≡ entry_of by.now name.now }
{
    let at = place_of(by.names.get().as_slice(), name);
    by.entries.get(at).copied()
}

/// Where a name stands first among these, or else how many they are.
pub fn place_of(names: &[Text], name: &Text) -> usize
    ensures { result ≡ place_of names.now name.now }
{
    for i in 0..names.len() {
        if names[i].bytes() == name.bytes() {
            return i;
        }
    }
    names.len()
}

/// Whether an operator stands for `null`.
pub fn null_op(by: &Substitution, op: &OpRef) -> bool
    ensures { result ≡ null_op by.now op.now }
{
    match op {
        OpRef::Fixed(_) => false,
        OpRef::Chosen(name) | OpRef::Listed(name) => is_null(entry_of(by, name)),
        OpRef::Null => true,
    }
}

fn is_null(entry: Option<Entry>) -> bool
    ensures { result ≡ is_null entry }
{
    match entry {
        Some(Entry::Null) => true,
        Some(Entry::Of(_)) | None => false,
    }
}

/// The operator in the place of another, where it is another one.
pub fn new_op(by: &Substitution, op: &OpRef) -> Option<OpRef>
    ensures { result ≡ new_op by.now op.now }
{
    match op {
        OpRef::Fixed(_) | OpRef::Null => None,
        OpRef::Chosen(name) | OpRef::Listed(name) => op_of(entry_of(by, name)),
    }
}

fn op_of(entry: Option<Entry>) -> Option<OpRef>
    ensures { result ≡ op_of entry }
{
    match entry {
        Some(Entry::Of(code)) => Some(OpRef::Fixed(code)),
        Some(Entry::Null) => Some(OpRef::Null),
        None => None,
    }
}

/// The first of these that tells of a capture.
pub fn renaming<'a>(captures: &'a [Renamed], name: &Text) -> Option<&'a Renamed>
    ensures { option_copied result ≡ renaming captures.now name.now }
{
    captures.iter().find(|one| one.from.bytes() == name.bytes())
}

/// The mark that a capture gets with its name, or else its own.
pub fn mark_of(by_value: Option<bool>, own: bool) -> bool
    ensures { result ≡ unwrap_or by_value own }
{
    match by_value {
        Some(mark) => mark,
        None => own,
    }
}
