//! Options: a table of names and greatest numbers, and what words say by them.
ghost use Rattle.std.specs.Prelude.{◌≡◌, map, string_bytes, option_map, IfOk};
ghost use Rattle.std.specs.List.{list_any};
ghost use Rattle.match_top.specs.Options.{flag_named, greatest_of, number_in, is_same, is_set, suit, settings_of, if_suited, number_or, file_named};

use crate::words::{Word, cut, is_name};
use lexing::number_below;
use pm_items::Items;
use pm_ops::OutOfMemory;
use std::alloc::Global;

/// An option.
#[derive(Clone, Copy, Debug, PartialEq, Eq)]
pub enum Flag {
    /// How many blocks a run may enter.
    Fuel,
}

/// An option that words say, with its number; 0 for one that takes none.
#[derive(Clone, Copy, Debug)]
pub struct Setting {
    pub flag: Flag,
    pub number: u32,
}

/// The option of this name.
fn flag_named(word: &String) -> Option<Flag>
    ensures { result ≡ flag_named (string_bytes word.now) }
{
    match word.as_str() {
        "--fuel" => Some(Flag::Fuel),
        _ => None,
    }
}

/// The greatest number that an option takes; none for an option that takes no number.
fn greatest(flag: Flag) -> Option<u32>
    ensures { result ≡ greatest_of flag }
{
    match flag {
        Flag::Fuel => Some(100_000_000),
    }
}

/// Whether two options are one.
fn is_same(one: Flag, other: Flag) -> bool
    ensures { result ≡ is_same one other }
{
    match (one, other) {
        (Flag::Fuel, Flag::Fuel) => true,
    }
}

/// The settings that these words say, where the command takes such options.
pub fn settings_in(
    alloc: Global,
    allowed: &[Flag],
    words: &[String],
) -> Result<Option<Items<Setting>>, OutOfMemory>
    ensures { IfOk result (λ settings. settings ≡ if_suited allowed.now (settings_of (map string_bytes words.now))) }
{
    let Some(settings) = settings(alloc, words)? else {
        return Ok(None);
    };
    if suit(allowed, settings.as_slice()) {
        Ok(Some(settings))
    } else {
        Ok(None)
    }
}

/// The settings that these words say.
fn settings(alloc: Global, words: &[String]) -> Result<Option<Items<Setting>>, OutOfMemory>
    ensures { IfOk result (λ settings. settings ≡ settings_of (map string_bytes words.now)) }
{
    let mut settings = Items::new(alloc);
    let mut rest = words;
    while let [option, after @ ..] = rest {
        let Some(flag) = flag_named(option) else {
            return Ok(None);
        };
        let Some((number, behind)) = number_of(flag, after) else {
            return Ok(None);
        };
        settings.push(Setting { flag, number })?;
        rest = behind;
    }
    Ok(Some(settings))
}

/// The number that stands behind an option, and the words behind it.
fn number_of(flag: Flag, words: &[String]) -> Option<(u32, &[String])>
    ensures { option_map (λ said. (said.0, map string_bytes said.1.now)) result ≡ number_in (greatest_of flag) (map string_bytes words.now) }
{
    let Some(greatest) = greatest(flag) else {
        return Some((0, words));
    };
    let [word, behind @ ..] = words else {
        return None;
    };
    let number = number_below(u64::from(greatest) + 1, word.as_bytes())?;
    Some((number, behind))
}

/// Whether an option is among these.
fn is_among(flag: Flag, allowed: &[Flag]) -> bool
    ensures { result ≡ list_any (λ other. is_same other flag) allowed.now }
{
    for other in allowed {
        if is_same(*other, flag) {
            return true;
        }
    }
    false
}

/// Whether the settings set an option.
fn is_set(flag: Flag, settings: &[Setting]) -> bool
    ensures { result ≡ is_set flag settings.now }
{
    for setting in settings {
        if is_same(setting.flag, flag) {
            return true;
        }
    }
    false
}

/// Whether each setting is of an allowed option, and none stands twice.
fn suit(allowed: &[Flag], settings: &[Setting]) -> bool
    ensures { result ≡ suit allowed.now settings.now }
{
    match settings {
        [] => true,
        [first, rest @ ..] => {
            is_among(first.flag, allowed) && !is_set(first.flag, rest) && suit(allowed, rest)
        }
    }
}

/// The number of an option, or another where it isn't set.
pub fn number_or(flag: Flag, other: u32, settings: &[Setting]) -> u32
    ensures { result ≡ number_or flag other settings.now }
{
    for setting in settings {
        if is_same(setting.flag, flag) {
            return setting.number;
        }
    }
    other
}

/// The name that these words give to a command of one file and no options.
pub fn file_named(alloc: Global, words: &[String]) -> Result<Option<Word>, OutOfMemory>
    ensures { IfOk result (λ name. name ≡ file_named (map string_bytes words.now)) }
{
    let (positional, options) = cut(words);
    let Some(_none) = settings_in(alloc, &[], options)? else {
        return Ok(None);
    };
    let [name] = positional else {
        return Ok(None);
    };
    if is_name(name) {
        Ok(Some(Word::copy(alloc, name)?))
    } else {
        Ok(None)
    }
}
