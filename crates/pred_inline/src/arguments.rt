//! The arguments of a use in a case of its predicate.
ghost use Rattle.std.specs.Prelude.{◌≡◌, IfOk};
ghost use Rattle.std.specs.List.{filter_map};
ghost use Rattle.std.specs.Option.{option_copied};
ghost use Rattle.pred_inline.specs.Arguments.{argument_for, capture_of_argument, moved, naming};
ghost use Rattle.pred_inline.specs.Arguments.{occurs_again, place_of, pointed, renamed_param};
ghost use Rattle.pred_inline.specs.Arguments.{renamed_to, stands_twice};

use crate::case::Case;
use pattern_uses::{capture_names, capture_of, captures_of_tail, is_among, is_hole};
use pd_ast::{Cap, Pat};
use pd_substitution::{Renamed, Substitution};
use pm_items::{Items, Shared};
use pm_ops::{OutOfMemory, Text};
use std::alloc::Global;

/// Where a parameter stands among these, or else how many they are.
pub fn place_of(params: &[Text], name: &Text) -> usize
    ensures { result ≡ place_of params.now name.now }
{
    for i in 0..params.len() {
        if params[i].bytes() == name.bytes() {
            return i;
        }
    }
    params.len()
}

/// The argument for a parameter.
pub fn argument_for<'a>(
    params: &[Text],
    args: &'a [Shared<Pat>],
    name: &Text,
) -> Option<&'a Shared<Pat>>
    ensures { option_copied result ≡ argument_for params.now args.now name.now }
{
    args.get(place_of(params, name))
}

/// The capture of an argument.
pub fn capture_of_argument(
    alloc: Global,
    arg: Option<&Shared<Pat>>,
) -> Result<Option<Cap>, OutOfMemory>
    ensures { IfOk result (λ cap. cap ≡ capture_of_argument (option_copied arg.entry)) }
{
    match arg {
        Some(arg) => capture_of(alloc, arg.get()),
        None => Ok(None),
    }
}

/// What the captures of a case are called at a use with these arguments.
pub fn naming(
    alloc: Global,
    label: &Text,
    case: &Case,
    args: &[Shared<Pat>],
    subject: Option<Text>,
) -> Result<Substitution, OutOfMemory>
    ensures { IfOk result (λ made. made ≡ naming label.now case.now args.now subject) }
{
    let captures = renamed_params(alloc, case.params.as_slice(), args)?;
    Ok(Substitution {
        names: Shared::new(alloc, Items::new(alloc))?,
        entries: Items::new(alloc),
        captures,
        prefix: Some(pointed(alloc, label)?),
        subject,
    })
}

/// The number of a use and a point.
pub fn pointed(alloc: Global, label: &Text) -> Result<Text, OutOfMemory>
    ensures { IfOk result (λ made. made ≡ pointed label.now) }
{
    let mut bytes: Items<u8> = Items::from_slice(alloc, label.bytes())?;
    bytes.extend_from_slice(b".")?;
    Text::new(alloc, bytes.as_slice())
}

fn renamed_params(
    alloc: Global,
    params: &[Text],
    args: &[Shared<Pat>],
) -> Result<Items<Renamed>, OutOfMemory>
    ensures { IfOk result (λ made. made ≡
        filter_map (renamed_param params.now args.now) params.now) }
{
    let mut made = Items::new(alloc);
    for name in params {
        let cap = capture_of_argument(alloc, argument_for(params, args, name))?;
        if let Some(one) = renamed_to(alloc, name, cap)? {
            made.push(one)?;
        }
    }
    Ok(made)
}

fn renamed_to(alloc: Global, name: &Text, cap: Option<Cap>) -> Result<Option<Renamed>, OutOfMemory>
    ensures { IfOk result (λ made. made ≡ renamed_to name.now cap) }
{
    match cap {
        Some(cap) => Ok(Some(Renamed {
            from: name.copy(alloc)?,
            to: cap.name,
            by_value: Some(cap.by_value),
        })),
        None => Ok(None),
    }
}

/// Whether a name occurs more than once in a case, its end included.
pub fn occurs_again(alloc: Global, case: &Case, name: &Text) -> Result<bool, OutOfMemory>
    ensures { IfOk result (λ again. again ≡ occurs_again case.now name.now) }
{
    let mut names = capture_names(alloc, case.row.pattern.get())?;
    names.append(captures_of_tail(alloc, case.row.tail.get())?)?;
    Ok(stands_twice(name, names.as_slice()))
}

/// Whether a name stands among these, and again behind that place.
fn stands_twice(name: &Text, names: &[Text]) -> bool
    ensures { result ≡ stands_twice name.now names.now }
{
    for i in 0..names.len() {
        if name.bytes() == names[i].bytes() {
            return is_among(name, &names[i + 1..]);
        }
    }
    false
}

/// An argument that is no capture alone.
pub fn moved<'a>(arg: Option<&'a Shared<Pat>>) -> Option<&'a Shared<Pat>>
    ensures { option_copied result ≡ moved (option_copied arg.entry) }
{
    match arg {
        Some(arg) => {
            if is_hole(arg.get()) {
                return None;
            }
            Some(arg)
        }
        None => None,
    }
}
