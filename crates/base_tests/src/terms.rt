//! Values of terms worked by hand after C's rules, refusals, and a deep term in the real build.
use pm_items::Items;
use pm_ops::Code;
use pm_term::{BuildFault, Env, Typed};
use pm_wide::{IntType, Operand, Undefined, Wide};
use std::alloc::{AllocError, Global};
use std::process::Abort;
use std::test::Fail;

/// An operation on one operand, and its value.
#[derive(Clone, Copy)]
struct Unary(Code, IntType, Operand, Option<i128>);

/// An operation on two operands, and its value.
#[derive(Clone, Copy)]
struct Binary(Code, IntType, Operand, Operand, Option<i128>);

fn word(number: i128, ty: IntType) -> Wide {
    Wide::reduce(number.cast_unsigned(), ty)
}

fn name(version: u32, ty: IntType) -> Operand {
    Operand::Name(version, ty)
}

fn constant(number: i128, ty: IntType) -> Operand {
    Operand::Const(word(number, ty))
}

fn one(alloc: Global, code: Code, ty: IntType, a: Typed) -> Result<Typed, BuildFault> {
    Typed::build(alloc, code, ty, Items::from_vec(vec![in alloc; a]?))
}

fn two(alloc: Global, code: Code, ty: IntType, a: Typed, b: Typed) -> Result<Typed, BuildFault> {
    Typed::build(alloc, code, ty, Items::from_vec(vec![in alloc; a, b]?))
}

fn choice(alloc: Global, ty: IntType, a: Typed, b: Typed, c: Typed) -> Result<Typed, BuildFault> {
    Typed::build(
        alloc,
        Code::Cond,
        ty,
        Items::from_vec(vec![in alloc; a, b, c]?),
    )
}

fn of_names(alloc: Global, code: Code) -> Result<Typed, BuildFault> {
    let int = IntType::int();
    two(
        alloc,
        code,
        int,
        Typed::leaf(name(1, int)),
        Typed::leaf(name(2, int)),
    )
}

/// Version 1 is 7 as an `int` and 250 as an `unsigned char`, 2 is -3, 3 is 1 as a `_Bool`, and 4 the
/// least `long`. The second pair of version 1 as an `int` never counts.
fn words(alloc: Global) -> Result<Env, AllocError> {
    let words = [
        (1, word(250, IntType::unsigned_char())),
        (1, word(7, IntType::int())),
        (2, word(-3, IntType::int())),
        (3, word(1, IntType::boolean())),
        (4, word(i128::from(i64::MIN), IntType::long())),
        (1, word(8, IntType::int())),
    ];
    Ok(Env {
        words: Items::from_slice(alloc, &words)?,
    })
}

fn unary_cases() -> [Unary; 6] {
    let (int, long, char) = (IntType::int(), IntType::long(), IntType::unsigned_char());
    [
        Unary(Code::BitNot, int, name(1, int), Some(-8)),
        Unary(
            Code::Convert,
            IntType::unsigned_int(),
            name(2, int),
            Some(4_294_967_293),
        ),
        Unary(
            Code::Convert,
            IntType::signed_char(),
            name(1, char),
            Some(-6),
        ),
        Unary(
            Code::Absu,
            IntType::unsigned_long(),
            name(4, long),
            Some(9_223_372_036_854_775_808),
        ),
        Unary(Code::Abs, long, name(4, long), None),
        Unary(Code::Negate, long, name(4, long), None),
    ]
}

fn binary_cases() -> [Binary; 13] {
    let (int, char, boolean) = (IntType::int(), IntType::unsigned_char(), IntType::boolean());
    let unsigned = IntType::unsigned_int();
    [
        Binary(Code::Plus, int, name(1, int), constant(5, int), Some(12)),
        Binary(Code::Minus, int, name(1, int), name(2, int), Some(10)),
        Binary(Code::Mult, int, name(1, int), name(2, int), Some(-21)),
        Binary(
            Code::TruncDiv,
            int,
            name(2, int),
            constant(2, int),
            Some(-1),
        ),
        Binary(
            Code::TruncMod,
            int,
            name(2, int),
            constant(2, int),
            Some(-1),
        ),
        Binary(Code::Rshift, int, name(2, int), constant(1, int), Some(-2)),
        Binary(Code::Max, int, name(2, int), name(1, int), Some(7)),
        Binary(Code::Plus, char, name(1, char), constant(10, char), Some(4)),
        Binary(
            Code::Plus,
            unsigned,
            constant(4_294_967_295, unsigned),
            constant(1, unsigned),
            Some(0),
        ),
        Binary(
            Code::Plus,
            boolean,
            name(3, boolean),
            name(3, boolean),
            Some(0),
        ),
        Binary(Code::Lt, boolean, name(2, int), name(1, int), Some(1)),
        Binary(
            Code::Plus,
            int,
            constant(2_147_483_647, int),
            constant(1, int),
            None,
        ),
        Binary(Code::Lshift, int, name(1, int), constant(32, int), None),
    ]
}

fn check(rt: &impl Abort, env: &Env, term: &Typed, gives: Option<i128>) {
    assert!(rt; term.names_are_in(env));
    let expected = match gives {
        Some(number) => Ok(word(number, term.ty())),
        None => Err(Undefined),
    };
    assert_eq!(rt; term.value(env), expected);
}

#[test]
fn operations_on_leaves(rt: HostRuntime) -> Result<(), Fail> {
    let alloc = rt.alloc();
    let env = words(alloc)?;
    for Unary(code, ty, a, gives) in &unary_cases() {
        let term = one(alloc, *code, *ty, Typed::leaf(*a))?;
        check(&rt, &env, &term, *gives);
    }
    for Binary(code, ty, a, b, gives) in &binary_cases() {
        let term = two(alloc, *code, *ty, Typed::leaf(*a), Typed::leaf(*b))?;
        check(&rt, &env, &term, *gives);
    }
    Ok(())
}

#[test]
fn operations_on_operations(rt: HostRuntime) -> Result<(), Fail> {
    let alloc = rt.alloc();
    let env = words(alloc)?;
    let int = IntType::int();
    let sum = of_names(alloc, Code::Plus)?;
    let product = two(alloc, Code::Mult, int, sum, of_names(alloc, Code::Minus)?)?;
    check(&rt, &env, &product, Some(40));
    assert_eq!(rt; product.operators(), 3);
    Ok(())
}

/// The part of a `cond` that isn't chosen counts: `1 ? 5 : 1 / 0` has no value.
#[test]
fn choices(rt: HostRuntime) -> Result<(), Fail> {
    let alloc = rt.alloc();
    let env = words(alloc)?;
    let int = IntType::int();
    for (code, divisor, gives) in [(Code::TruncDiv, 1, Some(5)), (Code::TruncDiv, 0, None)] {
        let quotient = two(
            alloc,
            code,
            int,
            Typed::leaf(constant(1, int)),
            Typed::leaf(constant(divisor, int)),
        )?;
        let holds = Typed::leaf(constant(1, IntType::boolean()));
        let term = choice(alloc, int, holds, Typed::leaf(constant(5, int)), quotient)?;
        check(&rt, &env, &term, gives);
    }
    Ok(())
}

#[test]
fn refusals(rt: HostRuntime) -> Result<(), Fail> {
    let alloc = rt.alloc();
    let int = IntType::int();
    for (code, ty) in [(Code::Plus, int), (Code::Abs, IntType::unsigned_int())] {
        let lone = one(alloc, code, ty, Typed::leaf(constant(1, ty)));
        assert!(rt; matches!(lone, Err(BuildFault::IllTyped)));
    }
    let none = Typed::build(alloc, Code::Plus, int, Items::new(alloc));
    assert!(rt; matches!(none, Err(BuildFault::IllTyped)));
    assert!(rt; !Typed::leaf(name(2, IntType::long())).names_are_in(&words(alloc)?));
    Ok(())
}

#[test]
fn a_chain_of_4096_operations(rt: HostRuntime) -> Result<(), Fail> {
    let alloc = rt.alloc();
    let env = words(alloc)?;
    let int = IntType::int();
    let mut term = Typed::leaf(name(1, int));
    for _ in 0..4096 {
        term = one(alloc, Code::BitNot, int, term)?;
    }
    let copy = term.copy(alloc)?;
    assert!(rt; copy.same(&term));
    assert_eq!(rt; copy.operators(), 4096);
    check(&rt, &env, &copy, Some(7));
    let longer = one(alloc, Code::BitNot, int, copy)?;
    assert!(rt; !longer.same(&term));
    check(&rt, &env, &longer, Some(-8));
    Ok(())
}
