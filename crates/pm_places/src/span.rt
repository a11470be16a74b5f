//! Spans of a source, and their bytes.

ghost use Rattle.std.specs.Prelude.{◌≡◌, ◌<◌, ◌+◌, ◌^◌};
ghost use Rattle.pm_places.specs.Spans.{place, text_of};

/// The bytes of the source from `from` up to `to`.
#[derive(Clone, Copy, Debug, PartialEq, Eq)]
pub struct Span {
    pub from: usize,
    pub to: usize,
}

/// The place of some bytes from `at` on.
pub fn place(at: usize, len: usize) -> Span
    requires { at + len < 2 ^ 64 }
    ensures { result ≡ place at len }
{
    Span {
        from: at,
        to: at + len,
    }
}

/// The bytes of a place in the source: as many of them as there are.
pub fn text(source: &[u8], span: Span) -> &[u8]
    ensures { result.now ≡ text_of source.now span }
{
    let (_, rest) = source.split_at(span.from.min(source.len()));
    let len = span.to.saturating_sub(span.from);
    let (bytes, _) = rest.split_at(len.min(rest.len()));
    bytes
}
