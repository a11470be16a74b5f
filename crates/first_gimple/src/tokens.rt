//! Tokens, cut off the front of a text.

ghost use Rattle.std.specs.Prelude.{◌≡◌, ◌∷◌, [], ◌<◌, ◌≤◌, length, drop, slice_index, true, false, MatchOption, ℕ};
ghost use Rattle.lexing.specs.Bytes.{is_digit, is_letter, is_word_byte};
ghost use Rattle.first_gimple.specs.Tokens.{is_space};
ghost use Rattle.first_gimple.specs.Pieces.{tokens_of};

/// Whether the byte is white space.
fn is_space(byte: u8) -> bool
    ensures { result ≡ is_space byte }
{
    byte >= 9 && byte <= 13 || byte == 32
}

/// Whether the byte is a digit.
pub(crate) fn is_digit(byte: u8) -> bool
    ensures { result ≡ is_digit byte }
{
    byte >= b'0' && byte <= b'9'
}

/// Whether the byte is a letter or an underscore.
pub(crate) fn is_letter(byte: u8) -> bool
    ensures { result ≡ is_letter byte }
{
    byte >= b'A' && byte <= b'Z' || byte >= b'a' && byte <= b'z' || byte == b'_'
}

/// Whether the byte is a letter, a digit or an underscore.
pub(crate) fn is_word_byte(byte: u8) -> bool
    ensures { result ≡ is_word_byte byte }
{
    is_letter(byte) || is_digit(byte)
}

/// How many bytes of white space there are at the front.
fn gap_len(text: &[u8]) -> usize
    ensures within { result ≤ length text.now }
    ensures rest { tokens_of (drop result text.now) ≡ tokens_of text.now }
    ensures stops { result < length text.now → is_space (slice_index text.now result) ≡ false }
{
    for (at, byte) in text.iter().enumerate() {
        if !is_space(*byte) {
            return at;
        }
    }
    text.len()
}

/// How many word bytes there are at the front.
fn run_len(text: &[u8]) -> usize
    ensures within { result ≤ length text.now }
    ensures run { (k : ℕ) → k < result → is_word_byte (slice_index text.now k) ≡ true }
    ensures stops { result < length text.now → is_word_byte (slice_index text.now result) ≡ false }
{
    for (at, byte) in text.iter().enumerate() {
        if !is_word_byte(*byte) {
            return at;
        }
    }
    text.len()
}

/// The text from its first byte on that is no white space.
fn after_gap(text: &[u8]) -> &[u8]
    ensures tokens { tokens_of result.now ≡ tokens_of text.now }
    ensures stops { 0 < length result.now → is_space (slice_index result.now 0) ≡ false }
{
    let (_, rest) = text.split_at(gap_len(text));
    rest
}

/// The first token, and the text behind it. `None` where there is white space alone.
pub(crate) fn next_token(text: &[u8]) -> Option<(&[u8], &[u8])>
    ensures { MatchOption result (tokens_of text.now ≡ []) (λ x. tokens_of text.now ≡ x.0.now ∷ tokens_of x.1.now) }
{
    let text = after_gap(text);
    if text.is_empty() {
        return None;
    }
    let len = run_len(text).max(1);
    Some(text.split_at(len))
}
