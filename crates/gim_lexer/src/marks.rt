//! Marks of one byte and of two.

ghost use Rattle.std.specs.Prelude.{◌≡◌};
ghost use Rattle.gim_lexer.specs.Marks.{short_mark, long_mark};

use gim_text::Mark;

/// The mark of one byte.
pub(crate) fn short_mark(byte: u8) -> Option<Mark>
    ensures { result ≡ short_mark byte }
{
    match byte {
        b'(' => Some(Mark::Open),
        b')' => Some(Mark::Close),
        b'{' => Some(Mark::OpenBrace),
        b'}' => Some(Mark::CloseBrace),
        b',' => Some(Mark::Comma),
        b';' => Some(Mark::Semicolon),
        b':' => Some(Mark::Colon),
        b'?' => Some(Mark::Question),
        b'=' => Some(Mark::Assign),
        b'+' => Some(Mark::Plus),
        b'-' => Some(Mark::Minus),
        b'*' => Some(Mark::Star),
        b'/' => Some(Mark::Slash),
        b'%' => Some(Mark::Percent),
        b'&' => Some(Mark::Ampersand),
        b'|' => Some(Mark::Bar),
        b'^' => Some(Mark::Caret),
        b'~' => Some(Mark::Tilde),
        b'<' => Some(Mark::Less),
        b'>' => Some(Mark::Greater),
        _ => None,
    }
}

/// The mark of two bytes.
pub(crate) fn long_mark(first: u8, second: u8) -> Option<Mark>
    ensures { result ≡ long_mark first second }
{
    match (first, second) {
        (b'<', b'<') => Some(Mark::ShiftLeft),
        (b'>', b'>') => Some(Mark::ShiftRight),
        (b'=', b'=') => Some(Mark::Equal),
        (b'!', b'=') => Some(Mark::NotEqual),
        (b'<', b'=') => Some(Mark::LessEqual),
        (b'>', b'=') => Some(Mark::GreaterEqual),
        _ => None,
    }
}
