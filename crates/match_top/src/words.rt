//! The words of a command line.
ghost use Rattle.std.specs.Prelude.{◌≡◌, ◌≤◌, length, map, string_bytes, IfOk};
ghost use Rattle.match_top.specs.Words.{is_option, is_name, first_option, positional, option_words};

use pm_items::Items;
use pm_ops::OutOfMemory;
use std::alloc::Global;
use std::marker::Model;

/// A word, which contracts see as its bytes.
#[derive(Debug, Drop)]
pub struct Word {
    text: String,
}

impl Model for Word {
    ghost use Rattle.std.specs.Prelude.{List, ℕ, string_bytes};

    ghost Value = { List ℕ };

    ghost view = { λ word. string_bytes word.text };
}

impl Word {
    /// An equal word.
    pub fn copy(alloc: Global, word: &String) -> Result<Word, OutOfMemory>
        ensures { IfOk result (λ copy. copy ≡ string_bytes word.now) }
    {
        let text = String::from_str(alloc, word.as_str())?;
        Ok(Word { text })
    }

    /// The word as a text.
    pub fn as_str(&self) -> &str
        ensures { result.now ≡ self.now }
    {
        self.text.as_str()
    }

    /// The bytes of the word.
    pub fn bytes(&self) -> &[u8]
        ensures { result.now ≡ self.now }
    {
        self.text.as_bytes()
    }
}

/// Equal words.
pub fn copies(alloc: Global, words: &[String]) -> Result<Items<Word>, OutOfMemory>
    ensures { IfOk result (λ copies. copies ≡ map string_bytes words.now) }
{
    let mut copies = Items::new(alloc);
    for word in words {
        copies.push(Word::copy(alloc, word)?)?;
    }
    Ok(copies)
}

/// The positional words, and the options behind them.
pub fn cut(words: &[String]) -> (&[String], &[String])
    ensures positional { map string_bytes result.0.now ≡ positional (map string_bytes words.now) }
    ensures options { map string_bytes result.1.now ≡ option_words (map string_bytes words.now) }
{
    words.split_at(first_option(words))
}

/// How many words stand before the first option.
fn first_option(words: &[String]) -> usize
    ensures first { result ≡ first_option (map string_bytes words.now) }
    ensures within { result ≤ length words.now }
{
    let mut before = 0;
    for word in words {
        if is_option(word) {
            return before;
        }
        before += 1;
    }
    before
}

/// Whether the word is an option.
fn is_option(word: &String) -> bool
    ensures { result ≡ is_option (string_bytes word.now) }
{
    match word.as_bytes() {
        [first, second, ..] => *first == b'-' && *second == b'-',
        _ => false,
    }
}

/// Whether a positional word may name a file or a function.
pub fn is_name(word: &String) -> bool
    ensures { result ≡ is_name (string_bytes word.now) }
{
    match word.as_bytes() {
        [] => false,
        [_, ..] => true,
    }
}
