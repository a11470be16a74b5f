//! Lexing of small texts.

use lexing::{
    Row, begins_with_space, beside, beside_in_any_case, comment_len, digits_len, is_word_text,
    leading_digits, line_len, number_below, quoted_len, size, suffix_len, word_len,
};
use std::test::Fail;

/// Numbers below a limit, and their sizes.
#[test]
fn numbers(rt: HostRuntime) {
    assert_eq!(rt; number_below(300, b"299"), Some(299));
    assert_eq!(rt; number_below(300, b"300"), None);
    assert_eq!(rt; number_below(300, b"029"), None);
    assert_eq!(rt; leading_digits(b"12u"), b"12".as_slice());
    assert_eq!(rt; size(b"12"), Some(12));
    let greatest = b"340282366920938463463374607431768211455";
    assert_eq!(rt; size(greatest), Some(u128::MAX));
    assert_eq!(rt; size(b"340282366920938463463374607431768211456"), None);
}

/// Comments with their ends and without.
#[test]
fn comments(rt: HostRuntime) {
    assert_eq!(rt; comment_len(b"/***/ */"), Some(5));
    assert_eq!(rt; comment_len(b"/*/"), None);
    assert_eq!(rt; comment_len(b"a/**/"), None);
    assert!(rt; begins_with_space(b"\x0b") && !begins_with_space(b""));
}

/// Runs of bytes at the front, words and quoted texts.
#[test]
fn runs(rt: HostRuntime) {
    assert_eq!(rt; word_len(b"a_1-"), 3);
    assert_eq!(rt; digits_len(b"12a"), 2);
    assert_eq!(rt; suffix_len(b"uLx"), 2);
    assert_eq!(rt; line_len(b"ab\nc"), 2);
    assert_eq!(rt; quoted_len(b"ab\"c"), Some(4));
    assert_eq!(rt; quoted_len(b"ab\nc\""), None);
    assert!(rt; is_word_text(b"_1") && !is_word_text(b"1_") && !is_word_text(b""));
}

/// Rows that are found by their texts.
#[test]
fn tables(rt: HostRuntime) -> Result<(), Fail> {
    let table: [Row<u8>; 2] = [("ul", 1), ("l", 2)];
    assert_eq!(rt; beside(&table, b"l"), Some(2));
    assert_eq!(rt; beside(&table, b"L"), None);
    assert_eq!(rt; beside_in_any_case(&table, b"uL"), Some(1));
    Ok(())
}
