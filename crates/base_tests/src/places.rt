//! Places and spans of small texts.

use pm_places::{Span, line_column, place, text};
use std::test::Fail;

/// Lines and columns of each place of a text.
#[test]
fn places(rt: HostRuntime) -> Result<(), Fail> {
    let text = b"ab\n\n\tc\r\nd".as_slice();
    let expected = [
        (0, 1, 1),
        (1, 1, 2),
        (2, 1, 3),
        (3, 2, 1),
        (4, 3, 1),
        (5, 3, 2),
        (6, 3, 3),
        (7, 3, 4),
        (8, 4, 1),
        (9, 4, 2),
    ];
    assert!(rt; text.len() == 9);
    for (at, line, column) in expected {
        assert!(rt; at <= 9);
        assert_eq!(rt; line_column(text, at), (line, column), "at {at}");
    }
    assert_eq!(rt; line_column(b"", 0), (1, 1));
    Ok(())
}

/// A span that goes past the end has the bytes that are there.
#[test]
fn spans_past_the_end_have_what_is_there(rt: HostRuntime) -> Result<(), Fail> {
    let source = "int f".as_bytes();
    assert!(rt; text(source, place(4, 1)) == "f".as_bytes());
    assert!(rt; text(source, Span { from: 4, to: 9 }) == "f".as_bytes());
    assert!(rt; text(source, Span { from: 7, to: 9 }).is_empty());
    assert!(rt; text(source, Span { from: 3, to: 2 }).is_empty());
    Ok(())
}
