//! Exact forms of terms of signed types, and terms that have none.

use crate::terms::term;
use pm_term::{BuildFault, Term};
use pm_wide::IntType;
use ring_forms::exact_form;
use std::alloc::Global;
use std::process::Abort;

/// Texts, how many terms their exact forms have, and their coefficients in order.
const ROWS: [(&str, usize, [i64; 3]); 16] = [
    ("x1+x1-*", 2, [-1, 1, 0]),
    ("xy+xy+*", 3, [2, 1, 1]),
    ("xy+xy-*", 2, [1, -1, 0]),
    ("xx-", 0, [0, 0, 0]),
    ("x~", 2, [-1, -1, 0]),
    ("xn", 1, [-1, 0, 0]),
    ("xy+z&yx+z&-", 0, [0, 0, 0]),
    ("xy&yx&-", 2, [1, -1, 0]),
    ("x1<xx+-", 2, [1, -2, 0]),
    ("xsx-", 2, [1, -1, 0]),
    ("7", 1, [7, 0, 0]),
    ("0", 0, [0, 0, 0]),
    ("x0*", 0, [0, 0, 0]),
    ("x2*3+y-", 3, [3, 2, -1]),
    ("xx*xx**xx*xx***", 1, [1, 0, 0]),
    (
        "x8*8*8*8*8*8*8*8*8*8*8*8*8*8*8*8*8*8*",
        1,
        [18_014_398_509_481_984, 0, 0],
    ),
];

/// Texts without an exact form: a ninth power, a coefficient of 2 to the 57th, 72 products, and an
/// operand of an atom without a ring form.
const NONE: [&str; 4] = [
    "xx*xx**xx*xx***x*",
    "x8*8*8*8*8*8*8*8*8*8*8*8*8*8*8*8*8*8*8*",
    "abcdefgh+++++++ijklmopqr++++++++*",
    "xx*xx**xx*xx***x*y&",
];

/// Looks at the coefficients of a text's exact form.
fn judge(
    rt: &impl Abort,
    alloc: Global,
    text: &str,
    ty: IntType,
    count: usize,
    coefficients: &[i64],
) -> Result<(), BuildFault> {
    let found = exact_form(alloc, &term(alloc, text, ty)?)?;
    assert!(rt; found.is_some(), "{text} {ty:?}");
    if let Some(poly) = found {
        assert_eq!(rt; poly.terms.len(), count, "{text} {ty:?}");
        for (i, term) in poly.terms.as_slice().iter().enumerate() {
            assert_eq!(rt; Some(&term.1), coefficients.get(i), "{text} {ty:?}");
        }
    }
    Ok(())
}

#[test]
fn coefficients_in_order(rt: HostRuntime) -> Result<(), BuildFault> {
    for (text, count, coefficients) in ROWS {
        for ty in [IntType::int(), IntType::long(), IntType::int128()] {
            judge(&rt, rt.alloc(), text, ty, count, &coefficients)?;
        }
    }
    Ok(())
}

#[test]
fn terms_without_one(rt: HostRuntime) -> Result<(), BuildFault> {
    for text in NONE {
        let none = exact_form(rt.alloc(), &term(rt.alloc(), text, IntType::long())?)?;
        assert!(rt; none.is_none(), "{text}");
    }
    for ty in [IntType::boolean(), IntType::unsigned_int()] {
        assert!(rt; exact_form(rt.alloc(), &term(rt.alloc(), "x1+", ty)?)?.is_none());
    }
    Ok(())
}

/// `y * x + y * y`: y is met first, so the product of y and x comes before the square of y.
#[test]
fn atoms_as_they_are_met(rt: HostRuntime) -> Result<(), BuildFault> {
    let alloc = rt.alloc();
    let Some(poly) = exact_form(alloc, &term(alloc, "yx*yy*+", IntType::int())?)? else {
        return Err(BuildFault::IllTyped);
    };
    let expected = [(b'y', 1), (b'x', 1), (b'y', 2)];
    let mut place: usize = 0;
    for (monomial, _) in poly.terms.as_slice() {
        for (atom, power) in monomial.factors.as_slice() {
            let (letter, exponent) = expected.get(place).copied().unwrap_or((b'?', 0));
            assert!(rt; is_name(atom.node.term(), letter) && *power == exponent);
            place = place.saturating_add(1);
        }
    }
    assert_eq!(rt; place, expected.len());
    Ok(())
}

fn is_name(term: &Term, letter: u8) -> bool {
    matches!(term, Term::Name(version, _) if *version == u32::from(letter))
}
