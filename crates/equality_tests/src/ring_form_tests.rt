//! Terms of one ring form and others, at every width and sign.

use crate::terms::{term, two, types};
use pm_items::Items;
use pm_ops::Code;
use pm_term::{BuildFault, Typed};
use pm_wide::IntType;
use ring_forms::ring_equal;
use std::alloc::Global;
use std::process::Abort;

/// Looks whether two texts have one ring form at this type.
fn judge(
    rt: &impl Abort,
    alloc: Global,
    left: &str,
    right: &str,
    ty: IntType,
    answer: bool,
) -> Result<(), BuildFault> {
    let l = term(alloc, left, ty)?;
    let r = term(alloc, right, ty)?;
    assert_eq!(rt; ring_equal(alloc, &l, &r)?, answer, "{left} {right} {ty:?}");
    Ok(())
}

/// Two texts, and whether they have one ring form in every type.
const EVERYWHERE: [(&str, &str, bool); 34] = [
    ("x1+x1-*", "xx*1-", true),
    ("xy*", "yx*", true),
    ("xx-", "0", true),
    ("x~", "xn1-", true),
    ("x~1+", "xn", true),
    ("xnn", "x", true),
    ("xy-", "yx-n", true),
    ("xy+z+", "zyx++", true),
    ("xy+z*", "xz*yz*+", true),
    ("xy+xy+*", "xx*xy*+yx*+yy*+", true),
    ("xy+xy-*", "xx*yy*-", true),
    ("xy+z+xy+z+*", "xx*yy*+zz*+xy*+xz*+yz*+xy*+xz*+yz*+", true),
    ("x0*", "0", true),
    ("x1*", "x", true),
    ("x0<", "x", true),
    ("xy&", "xy&", true),
    ("xy&", "yx&", false),
    ("xy&", "xy|", false),
    ("xx*y&", "xx+x-x*y&", true),
    ("xy+z&1+", "yx+z&1+", true),
    ("xy+z&xy-z&-", "yx+z&yx-nz&-", true),
    ("xy/", "xy/", true),
    ("xy/", "xz/", false),
    ("xs", "xs", true),
    ("x~y~&", "xn1-yn1-&", true),
    ("xx*xx**xx*xx***", "xx*x*x*x*x*x*x*", true),
    ("xx*xx**xx*xx***x*", "xx*xx**xx*xx***x*", false),
    ("xx*xx**xx*xx***x*y&", "xx*xx**xx*xx***x*y&", false),
    ("ab+cd+*ef+gh+**", "fe+ab+*dc+hg+**", true),
    (
        "abcdefgh+++++++ijklmopq+++++++*",
        "ijklmopq+++++++abcdefgh+++++++*",
        true,
    ),
    (
        "abcdefgh+++++++ijklmopqr++++++++*",
        "abcdefgh+++++++ijklmopqr++++++++*",
        false,
    ),
    ("xy+2*", "xy+xy++", true),
    ("x", "y", false),
    ("x1+", "x", false),
];

#[test]
fn rows_of_every_type(rt: HostRuntime) -> Result<(), BuildFault> {
    for (left, right, answer) in EVERYWHERE {
        for ty in types() {
            judge(&rt, rt.alloc(), left, right, ty, answer)?;
        }
    }
    Ok(())
}

#[test]
fn rows_of_some_types(rt: HostRuntime) -> Result<(), BuildFault> {
    let alloc = rt.alloc();
    let byte = IntType::unsigned_char();
    let small = IntType::signed_char();
    let wide = IntType::unsigned_int128();
    judge(&rt, alloc, "x8*8*4*", "0", byte, true)?;
    judge(&rt, alloc, "x8*8*4*", "0", wide, false)?;
    judge(&rt, alloc, "x3<", "x8*", byte, true)?;
    judge(&rt, alloc, "x7<2*", "0", small, true)?;
    judge(&rt, alloc, "x8<", "0", byte, false)?;
    judge(&rt, alloc, "x8<", "x8<", byte, true)?;
    judge(&rt, alloc, "x8<", "x8*8*4*", wide, true)?;
    judge(&rt, alloc, "xx+", "0", IntType::boolean(), true)?;
    judge(&rt, alloc, "xx*", "x", IntType::boolean(), false)?;
    judge(&rt, alloc, "xs1+s", "xss1+", small, true)
}

/// The term of a text as one of another type.
fn narrowed_text(
    alloc: Global,
    text: &str,
    from: IntType,
    to: IntType,
) -> Result<Typed, BuildFault> {
    narrowed(alloc, term(alloc, text, from)?, to)
}

/// The sum of two names that are converted each.
fn sum_of_narrowed(alloc: Global, from: IntType, to: IntType) -> Result<Typed, BuildFault> {
    let mut parts = Vec::new(alloc);
    parts.push(narrowed_text(alloc, "x", from, to)?)?;
    parts.push(narrowed_text(alloc, "y", from, to)?)?;
    two(alloc, Code::Plus, to, &mut parts)
}

#[test]
fn a_sum_is_narrowed_by_parts(rt: HostRuntime) -> Result<(), BuildFault> {
    let sum = narrowed_text(rt.alloc(), "xy+", IntType::long(), IntType::int())?;
    let parts = sum_of_narrowed(rt.alloc(), IntType::long(), IntType::int())?;
    assert!(rt; ring_equal(rt.alloc(), &sum, &parts)?);
    Ok(())
}

#[test]
fn a_sum_is_not_widened_by_parts(rt: HostRuntime) -> Result<(), BuildFault> {
    let sum = narrowed_text(rt.alloc(), "xy+", IntType::int(), IntType::long())?;
    let parts = sum_of_narrowed(rt.alloc(), IntType::int(), IntType::long())?;
    assert!(rt; !ring_equal(rt.alloc(), &sum, &parts)?);
    Ok(())
}

#[test]
fn narrowing_twice_is_narrowing(rt: HostRuntime) -> Result<(), BuildFault> {
    let byte = IntType::unsigned_char();
    let half = narrowed_text(rt.alloc(), "xy+", IntType::long(), IntType::int())?;
    let twice = narrowed(rt.alloc(), half, byte)?;
    let once = narrowed_text(rt.alloc(), "yx+", IntType::long(), byte)?;
    assert!(rt; ring_equal(rt.alloc(), &twice, &once)?);
    Ok(())
}

#[test]
fn terms_of_two_types_are_not_one(rt: HostRuntime) -> Result<(), BuildFault> {
    let left = term(rt.alloc(), "x", IntType::int())?;
    let right = term(rt.alloc(), "x", IntType::long())?;
    assert!(rt; !ring_equal(rt.alloc(), &left, &right)?);
    Ok(())
}

/// The term as one of another type.
fn narrowed(alloc: Global, a: Typed, ty: IntType) -> Result<Typed, BuildFault> {
    Typed::build(
        alloc,
        Code::Convert,
        ty,
        Items::from_vec(vec![in alloc; a]?),
    )
}

#[test]
fn atoms_within_atoms(rt: HostRuntime) -> Result<(), BuildFault> {
    let alloc = rt.alloc();
    let ty = IntType::int();
    let mut left = term(alloc, "x", ty)?;
    let mut right = term(alloc, "x", ty)?;
    for _ in 0..800 {
        left = deeper(alloc, left, "yz+", ty)?;
        right = deeper(alloc, right, "zy+", ty)?;
    }
    assert_eq!(rt; left.operators(), 2400);
    assert!(rt; ring_equal(alloc, &left, &right)?);
    Ok(())
}

/// A quotient of the product of a term with another by a name.
fn deeper(alloc: Global, a: Typed, text: &str, ty: IntType) -> Result<Typed, BuildFault> {
    let mut made = vec![in alloc; a, term(alloc, text, ty)?]?;
    let product = two(alloc, Code::Mult, ty, &mut made)?;
    made.push(product)?;
    made.push(term(alloc, "w", ty)?)?;
    two(alloc, Code::TruncDiv, ty, &mut made)
}
