//! Kinds of bytes, of which a whole run is read at once.
ghost use Rattle.std.specs.Prelude.{◌≡◌};
ghost use Rattle.std.specs.List.{prefix_len};
ghost use Rattle.first_patterns.specs.Reading.{of_kind, front, past};

#[derive(Clone, Copy)]
pub enum Kind {
    /// The bytes 9 to 13, and a space.
    White,
    /// `0` to `9`.
    Digit,
    /// Letters, digits and `_`.
    Word,
}

/// Whether the byte is of the kind.
fn has(kind: Kind, byte: u8) -> bool
    ensures { result ≡ of_kind kind byte }
{
    match kind {
        Kind::White => matches!(byte, 9..=13 | b' '),
        Kind::Digit => byte.is_ascii_digit(),
        Kind::Word => byte.is_ascii_alphanumeric() || byte == b'_',
    }
}

/// How many bytes from the front on are of the kind.
fn run_len(kind: Kind, bytes: &[u8]) -> usize
    ensures { result ≡ prefix_len (of_kind kind) bytes.now }
{
    bytes.iter().take_while(|byte| has(kind, **byte)).count()
}

/// The longest front of bytes of the kind, and what stands behind it.
#[tactic(auto, unfolding(crate::specs::Reading::front, crate::specs::Reading::past))]
pub fn run(kind: Kind, bytes: &[u8]) -> (&[u8], &[u8])
    ensures front { result.0.now ≡ front (of_kind kind) bytes.now }
    ensures rest { result.1.now ≡ past (of_kind kind) bytes.now }
{
    bytes.split_at(run_len(kind, bytes))
}
