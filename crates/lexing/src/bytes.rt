//! Kinds of bytes, of which a whole run is read at once.

ghost use Rattle.std.specs.Prelude.{◌≡◌, ◌≤◌, length};
ghost use Rattle.std.specs.List.{prefix_len};
ghost use Rattle.lexing.specs.Bytes.{is_digit, is_letter, is_word_byte, is_suffix_letter, is_inner};
ghost use Rattle.lexing.specs.Separators.{is_space, is_no_line_feed};

/// Whether the byte is white space.
pub fn is_space(byte: u8) -> bool
    ensures { result ≡ is_space byte }
{
    byte >= 9 && byte <= 13 || byte == b' '
}

/// Whether the byte is a digit.
pub fn is_digit(byte: u8) -> bool
    ensures { result ≡ is_digit byte }
{
    byte >= b'0' && byte <= b'9'
}

/// Whether the byte is a letter or an underscore.
pub fn is_letter(byte: u8) -> bool
    ensures { result ≡ is_letter byte }
{
    byte >= b'A' && byte <= b'Z' || byte >= b'a' && byte <= b'z' || byte == b'_'
}

/// Whether the byte is a letter, a digit or an underscore.
pub fn is_word_byte(byte: u8) -> bool
    ensures { result ≡ is_word_byte byte }
{
    is_letter(byte) || is_digit(byte)
}

/// Whether the byte is a letter of suffixes.
pub fn is_suffix_letter(byte: u8) -> bool
    ensures { result ≡ is_suffix_letter byte }
{
    byte == b'u' || byte == b'U' || byte == b'l' || byte == b'L'
}

/// How many word bytes there are at the front.
pub fn word_len(text: &[u8]) -> usize
    ensures run { result ≡ prefix_len is_word_byte text.now }
    ensures within { result ≤ length text.now }
{
    text.iter().take_while(|byte| is_word_byte(**byte)).count()
}

/// How many digits there are at the front.
pub fn digits_len(text: &[u8]) -> usize
    ensures run { result ≡ prefix_len is_digit text.now }
    ensures within { result ≤ length text.now }
{
    text.iter().take_while(|byte| is_digit(**byte)).count()
}

/// How many letters of suffixes there are at the front.
pub fn suffix_len(text: &[u8]) -> usize
    ensures run { result ≡ prefix_len is_suffix_letter text.now }
    ensures within { result ≤ length text.now }
{
    text.iter()
        .take_while(|byte| is_suffix_letter(**byte))
        .count()
}

/// How many bytes a line has at the front.
pub fn line_len(text: &[u8]) -> usize
    ensures run { result ≡ prefix_len is_no_line_feed text.now }
    ensures within { result ≤ length text.now }
{
    text.iter().take_while(|byte| **byte != b'\n').count()
}

/// How many bytes there are at the front before a `"` and before the end of the line.
pub(crate) fn inner_len(text: &[u8]) -> usize
    ensures run { result ≡ prefix_len is_inner text.now }
    ensures within { result ≤ length text.now }
{
    text.iter()
        .take_while(|byte| **byte != b'"' && **byte != b'\n')
        .count()
}
