//! The labels of uses: their numbers, counted from 1.
ghost use Rattle.std.specs.Prelude.{◌≡◌, drop, IfOk};
ghost use Rattle.pattern_uses.specs.Uses.{first_label, label, labels};

use itoa::Buffer;
use pm_items::Items;
use pm_ops::{OutOfMemory, Text};
use std::alloc::Global;

/// The label of the use with so many before it.
pub fn label(alloc: Global, before: usize) -> Result<Text, OutOfMemory>
    ensures { IfOk result (λ made. made ≡ label before) }
{
    let mut buffer = Buffer::new();
    Text::new(alloc, buffer.format(before as u128 + 1).as_bytes())
}

/// A label for the use of each of these predicates.
pub fn labels(alloc: Global, names: &[Text]) -> Result<Items<Text>, OutOfMemory>
    ensures { IfOk result (λ made. made ≡ labels names.now) }
{
    let mut made = Items::new(alloc);
    for i in 0..names.len() {
        made.push(label(alloc, i)?)?;
    }
    Ok(made)
}

/// The first of these labels.
pub fn first_label(alloc: Global, names: &[Text]) -> Result<Text, OutOfMemory>
    ensures { IfOk result (λ made. made ≡ first_label names.now) }
{
    match names {
        [] => Ok(Text::empty(alloc)),
        [own, ..] => own.copy(alloc),
    }
}

/// The labels behind so many.
pub fn behind(names: &[Text], count: usize) -> &[Text]
    ensures { result.now ≡ drop count names.now }
{
    if count < names.len() {
        return &names[count..];
    }
    &[]
}
