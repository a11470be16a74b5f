//! Constants, names and faults of small texts.

use gim_text::{GimpleFault, GimpleKind, LiteralText, LiteralType, literal, name_parts};
use pm_places::Span;
use pm_wide::IntType;
use std::test::Fail;

/// The constant that the whole text writes, with the words that say its type taken from `ty`.
fn constant(written: &str, ty: LiteralType, negative: bool) -> Option<u128> {
    let number = Span {
        from: 0,
        to: written.len(),
    };
    let constant = LiteralText {
        start: number,
        ty,
        negative,
        number,
    };
    literal(written.as_bytes(), &constant).map(|word| word.bits())
}

/// How many bits the type of the constant has that the whole text writes.
fn width(written: &str, ty: LiteralType, negative: bool) -> Option<u8> {
    let number = Span {
        from: 0,
        to: written.len(),
    };
    let constant = LiteralText {
        start: number,
        ty,
        negative,
        number,
    };
    literal(written.as_bytes(), &constant).map(|word| word.ty().bits())
}

/// Without a suffix the number says the type.
#[test]
fn a_plain_constant_is_int_or_long(rt: HostRuntime) -> Result<(), Fail> {
    assert!(rt; width("2147483647", LiteralType::Plain, false) == Some(32));
    assert!(rt; width("2147483648", LiteralType::Plain, false) == Some(64));
    assert!(rt; width("2147483648", LiteralType::Plain, true) == Some(32));
    assert!(rt; width("2147483649", LiteralType::Plain, true) == Some(64));
    assert!(rt; constant("5", LiteralType::Plain, true) == Some(4294967291));
    assert!(rt; constant("0", LiteralType::Plain, true) == Some(0));
    assert!(rt; constant("9223372036854775808", LiteralType::Plain, false).is_none());
    assert!(rt;
        constant("9223372036854775808", LiteralType::Plain, true) == Some(9223372036854775808)
    );
    Ok(())
}

/// A suffix bounds its constant.
#[test]
fn suffixes_say_the_type(rt: HostRuntime) -> Result<(), Fail> {
    assert!(rt; width("4294967295u", LiteralType::Unsigned, false) == Some(32));
    assert!(rt; width("4294967296U", LiteralType::Unsigned, false) == Some(64));
    assert!(rt; constant("5u", LiteralType::Unsigned, true).is_none());
    assert!(rt; constant("0u", LiteralType::Unsigned, true) == Some(0));
    assert!(rt; width("5l", LiteralType::Long, false) == Some(64));
    assert!(rt;
        constant("18446744073709551615ull", LiteralType::UnsignedLong, false)
            == Some(18446744073709551615)
    );
    assert!(rt; constant("18446744073709551616ull", LiteralType::UnsignedLong, false).is_none());
    Ok(())
}

/// A type in parentheses bounds its constant.
#[test]
fn a_written_type_bounds_its_constant(rt: HostRuntime) -> Result<(), Fail> {
    assert!(rt;
        constant(
            "340282366920938463463374607431768211455",
            LiteralType::Written(IntType::unsigned_int128()),
            false
        ) == Some(340282366920938463463374607431768211455)
    );
    assert!(rt;
        constant(
            "340282366920938463463374607431768211456",
            LiteralType::Written(IntType::unsigned_int128()),
            false
        )
        .is_none()
    );
    assert!(rt;
        constant(
            "3402823669209384634633746074317682114550",
            LiteralType::Written(IntType::unsigned_int128()),
            false
        )
        .is_none()
    );
    assert!(rt; constant("128", LiteralType::Written(IntType::signed_char()), true) == Some(128));
    assert!(rt; constant("128", LiteralType::Written(IntType::signed_char()), false).is_none());
    assert!(rt; constant("1", LiteralType::Written(IntType::boolean()), false) == Some(1));
    assert!(rt; constant("2", LiteralType::Written(IntType::boolean()), false).is_none());
    Ok(())
}

/// The lengths of the base and of the version.
fn lengths(name: &str) -> Option<(usize, usize)> {
    name_parts(name.as_bytes()).map(|parts| (parts.0.len(), parts.1.len()))
}

/// Names with their bases and versions.
#[test]
fn names_end_in_a_version(rt: HostRuntime) -> Result<(), Fail> {
    assert!(rt; lengths("x_1") == Some((1, 1)));
    assert!(rt; lengths("_12") == Some((0, 2)));
    assert!(rt; lengths("_5_7") == Some((2, 1)));
    assert!(rt; lengths("x_0") == Some((1, 1)));
    assert!(rt; lengths("x_01").is_none());
    assert!(rt; lengths("x_").is_none());
    assert!(rt; lengths("x1").is_none());
    assert!(rt; lengths("12").is_none());
    assert!(rt; lengths("").is_none());
    Ok(())
}

/// A fault has the place and the length of its token.
#[test]
fn a_fault_stands_at_its_token(rt: HostRuntime) -> Result<(), Fail> {
    let fault = GimpleFault::at(GimpleKind::Syntax, Span { from: 4, to: 5 });
    assert!(rt; fault.at == 4 && fault.len == 1 && fault.kind == GimpleKind::Syntax);
    Ok(())
}
