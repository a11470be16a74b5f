//! The reader of a type.

ghost use Rattle.std.specs.Prelude.{◌≡◌, ◌≤◌, length, IfOk};
ghost use Rattle.grammar.specs.Exact.{IsExact};
ghost use Rattle.grammar.specs.Gives.{Gives};
ghost use Rattle.grammar.specs.Reading.{run};
ghost use Rattle.gim_words.specs.Types.{SpellsType, GoesOnType};
ghost use Rattle.gim_words.specs.TypeReaders.{type_words_after, type_at};
ghost use Rattle.gim_words.specs.declared.type_words.TypeWords.TheVariants.{SaysInteger};
ghost use Rattle.gim_words.specs.declared.type_words.SignWords.TheVariants.{NoSign};
ghost use Rattle.gim_words.specs.declared.type_words.SizeWords.TheVariants.{NoSize};

use crate::type_words::{SignWords, SizeWords, TypeWords, type_of, words_after};
use gim_text::{Token, TokenFault};
use grammar::Fault;
use pm_wide::IntType;

/// The words from here on that make up a type, as many as can, and the tokens after them.
fn read_type_words(tokens: &[Token]) -> (TypeWords, &[Token])
    ensures reads { run type_words_after (SaysInteger NoSign NoSize) tokens.now ≡ (result.0, result.1.now) }
    ensures no_longer { length result.1.now ≤ length tokens.now }
{
    let mut words = TypeWords::SaysInteger(SignWords::NoSign, SizeWords::NoSize);
    let mut rest = tokens;
    while let [Token::TypeWord(word, _), after @ ..] = rest {
        let Some(longer) = words_after(words, *word) else {
            break;
        };
        words = longer;
        rest = after;
    }
    (words, rest)
}

/// A type at the front of the tokens, of as many words as can, and the tokens after it; a fault where there is no
/// word of a type.
pub fn read_type(tokens: &[Token]) -> Result<(IntType, &[Token]), TokenFault<'_>>
    ensures reads { Gives (λ x. (x.0, x.1.now)) result (type_at tokens.now) }
    // What is read is the longest type there, and a fault stands at the first token that offends.
    ensures exact { IsExact SpellsType GoesOnType tokens.now (type_at tokens.now) }
    ensures no_longer { IfOk result (λ x. length x.1.now ≤ length tokens.now) }
{
    let (words, rest) = read_type_words(tokens);
    match type_of(words) {
        Some(int_type) => Ok((int_type, rest)),
        None => Err(Fault { kind: (), rest }),
    }
}
