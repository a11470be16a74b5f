//! Marks of one byte and of two.

ghost use Rattle.std.specs.Prelude.{◌≡◌};
ghost use Rattle.std.specs.List.{list_any};
ghost use Rattle.std.specs.Str.{bytes_eq};
ghost use Rattle.pd_lexer.specs.Marks.{is_mark, mark_length};

/// Every mark, once.
const MARKS: [&str; 30] = [
    "(", ")", "{", "}", ",", ";", ":", "::", "?", "!", "~", "&", "&&", "|", "||", "^", "+", "-",
    "*", "/", "%", "=", "==", "!=", "<", "<=", ">", ">=", "<<", ">>",
];

/// Whether the bytes are one of these words.
fn is_among(words: &[&str], bytes: &[u8]) -> bool
    ensures { result ≡ list_any (λ word. bytes_eq word.now bytes.now) words.now }
{
    words.iter().any(|word| word.as_bytes() == bytes)
}

/// Whether the bytes are a mark.
#[tactic(auto, unfolding(crate::specs::Marks::is_mark))]
fn is_mark(bytes: &[u8]) -> bool
    ensures { result ≡ is_mark bytes.now }
{
    is_among(&MARKS, bytes)
}

/// How many bytes the mark at the front has: two, or else one.
#[tactic(auto, unfolding(crate::specs::Marks::mark_length))]
pub(crate) fn mark_len(text: &[u8]) -> Option<usize>
    ensures { result ≡ mark_length text.now }
{
    let (two, _) = text.split_at(text.len().min(2));
    if is_mark(two) {
        return Some(two.len());
    }
    let (one, _) = text.split_at(text.len().min(1));
    if is_mark(one) { Some(1) } else { None }
}
