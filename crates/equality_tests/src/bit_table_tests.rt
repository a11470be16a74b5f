//! Terms of the class of bit tables and others, at every width and sign.

use crate::terms::{popped, term, two, types};
use bit_tables::table_equal;
use pm_items::Items;
use pm_ops::Code;
use pm_term::{BuildFault, Typed};
use pm_wide::IntType;
use std::alloc::Global;
use std::process::Abort;

/// Looks that two texts have that answer at this type.
fn judge(
    rt: &impl Abort,
    alloc: Global,
    left: &str,
    right: &str,
    ty: IntType,
    answer: Option<bool>,
) -> Result<(), BuildFault> {
    let l = term(alloc, left, ty)?;
    let r = term(alloc, right, ty)?;
    assert_eq!(rt; table_equal(&l, &r), answer, "{left} {right} {ty:?}");
    Ok(())
}

/// Two texts, and whether they are equal in every type.
const EVERYWHERE: [(&str, &str, Option<bool>); 30] = [
    ("xy^2xy&*+", "xy+", Some(true)),
    ("xy|", "xy+", Some(false)),
    ("xy*", "yx*", None),
    ("xy|xy&+", "xy+", Some(true)),
    ("xy|xy&-", "xy^", Some(true)),
    ("xxy&-", "xy~&", Some(true)),
    ("xy+xy|-", "xy&", Some(true)),
    ("x~", "xn1-", Some(true)),
    ("x~1+", "xn", Some(true)),
    ("x~", "xn", Some(false)),
    ("xx^", "0", Some(true)),
    ("xx-", "0", Some(true)),
    ("xx~|", "0~", Some(true)),
    ("xx~&", "0", Some(true)),
    ("x0*", "0", Some(true)),
    ("3x*", "xx+x+", Some(true)),
    ("x3s*", "xx+x+", Some(true)),
    ("xs", "x", Some(true)),
    ("xsys&", "xy&", Some(true)),
    ("x~~", "x", Some(true)),
    ("xn", "0x-", Some(true)),
    ("xy-", "yx-n", Some(true)),
    ("xy&z|", "xz|yz|&", Some(true)),
    ("xy^z^", "xyz^^", Some(true)),
    ("abcdef+++++", "fedcba+++++", Some(true)),
    ("abcdef|||||", "abcdef+++++", Some(false)),
    ("abcdefg++++++", "gfedcba++++++", None),
    ("xy+x&", "x", None),
    ("x1<", "xx+", None),
    ("xy/", "xy/", None),
];

#[test]
fn rows_of_every_type(rt: HostRuntime) -> Result<(), BuildFault> {
    for (left, right, answer) in EVERYWHERE {
        for ty in types() {
            judge(&rt, rt.alloc(), left, right, ty, answer)?;
        }
    }
    Ok(())
}

#[test]
fn rows_of_some_types(rt: HostRuntime) -> Result<(), BuildFault> {
    let alloc = rt.alloc();
    let byte = IntType::unsigned_char();
    let small = IntType::signed_char();
    let wide = IntType::unsigned_int128();
    judge(&rt, alloc, "x8*8*4*", "0", byte, Some(true))?;
    judge(&rt, alloc, "x8*8*4*", "0", small, Some(true))?;
    judge(&rt, alloc, "x8*8*2*", "0", byte, Some(false))?;
    judge(&rt, alloc, "x8*8*4*", "0", wide, Some(false))?;
    judge(&rt, alloc, "xx+", "0", IntType::boolean(), Some(true))?;
    judge(&rt, alloc, "xx+", "0", byte, Some(false))?;
    judge(&rt, alloc, "x7&x8&+", "x", byte, Some(false))?;
    judge(&rt, alloc, "x7&x8&+", "x78+&", byte, None)?;
    judge(&rt, alloc, "x7&x8&+", "x78|&", byte, Some(true))
}

#[test]
fn widths_and_types(rt: HostRuntime) -> Result<(), BuildFault> {
    let alloc = rt.alloc();
    let int = IntType::int();
    let unsigned = IntType::unsigned_int();
    let left = term(alloc, "x", int)?;
    let right = term(alloc, "x", unsigned)?;
    assert_eq!(rt; table_equal(&left, &right), None);
    let wider = Typed::build(
        alloc,
        Code::Convert,
        IntType::long(),
        Items::from_vec(vec![in alloc; right]?),
    )?;
    let name = term(alloc, "x", IntType::long())?;
    assert_eq!(rt; table_equal(&wider, &name), None);
    let same_width = Typed::build(
        alloc,
        Code::Convert,
        unsigned,
        Items::from_vec(vec![in alloc; left]?),
    )?;
    let other = term(alloc, "x", unsigned)?;
    assert_eq!(rt; table_equal(&same_width, &other), Some(false));
    Ok(())
}

/// The sum of so many bitwise terms of six names.
fn sum(alloc: Global, parts: usize, ty: IntType) -> Result<Typed, BuildFault> {
    let mut made = vec![in alloc; term(alloc, "abcdef|&^|&", ty)?]?;
    for _ in 0..parts {
        let part = term(alloc, "abcdef&^|&^", ty)?;
        made.push(part)?;
        let all = two(alloc, Code::Plus, ty, &mut made)?;
        made.push(all)?;
    }
    popped(&mut made)
}

#[test]
fn long_sums(rt: HostRuntime) -> Result<(), BuildFault> {
    let ty = IntType::int128();
    let left = sum(rt.alloc(), 680, ty)?;
    let right = sum(rt.alloc(), 680, ty)?;
    assert_eq!(rt; left.operators(), 4085);
    assert_eq!(rt; table_equal(&left, &right), Some(true));
    Ok(())
}
