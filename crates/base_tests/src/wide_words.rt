//! Values of the operation table from outside: worked by hand, and checked against whole numbers
//! of another language.
ghost use Rattle.std.specs.Prelude.{◌≡◌, ◌↔◌, IsTrue};

use pm_ops::Code;
use pm_wide::{
    IntType, Operand, Undefined, Wide, add_overflow, mul_overflow, neg_overflow, op_value,
    sub_overflow, well_typed,
};
use std::process::Abort;

/// What an operation gives at the ends of a type: an end, the word of a number, or nothing.
#[derive(Clone, Copy)]
enum Gives {
    Least,
    LeastPlusOne,
    Greatest,
    Word(i128),
    Nothing,
}

use Gives::{Greatest, Least, LeastPlusOne, Nothing, Word};

/// The word of a number.
fn word(number: i128, ty: IntType) -> Wide
    ensures { result.ty ≡ ty }
{
    Wide::reduce(number.cast_unsigned(), ty)
}

fn expected(gives: Gives, ty: IntType, least: Wide, greatest: Wide) -> Result<Wide, Undefined> {
    match gives {
        Least => Ok(least),
        LeastPlusOne => Ok(Wide::reduce(least.bits() | 1, ty)),
        Greatest => Ok(greatest),
        Word(number) => Ok(word(number, ty)),
        Nothing => Err(Undefined),
    }
}

fn unary(rt: &impl Abort, code: Code, ty: IntType, a: Wide) -> Result<Wide, Undefined> {
    assert!(rt; well_typed(code, ty, &[a.ty()]));
    op_value(code, ty, &[a])
}

fn binary(rt: &impl Abort, code: Code, ty: IntType, a: Wide, b: Wide) -> Result<Wide, Undefined> {
    assert!(rt; well_typed(code, ty, &[a.ty(), b.ty()]));
    op_value(code, ty, &[a, b])
}

fn ternary(
    rt: &impl Abort,
    code: Code,
    ty: IntType,
    a: Wide,
    b: Wide,
    c: Wide,
) -> Result<Wide, Undefined> {
    assert!(rt; well_typed(code, ty, &[a.ty(), b.ty(), c.ty()]));
    op_value(code, ty, &[a, b, c])
}

/// The eleven types with their least and greatest values; that of `unsigned __int128` has the
/// word of -1.
fn ends() -> [(IntType, i128, i128); 11] {
    [
        (IntType::boolean(), 0, 1),
        (IntType::signed_char(), -128, 127),
        (IntType::unsigned_char(), 0, 255),
        (IntType::short(), -32_768, 32_767),
        (IntType::unsigned_short(), 0, 65_535),
        (IntType::int(), -2_147_483_648, 2_147_483_647),
        (IntType::unsigned_int(), 0, 4_294_967_295),
        (
            IntType::long(),
            -9_223_372_036_854_775_808,
            9_223_372_036_854_775_807,
        ),
        (IntType::unsigned_long(), 0, 18_446_744_073_709_551_615),
        (IntType::int128(), i128::MIN, i128::MAX),
        (IntType::unsigned_int128(), 0, -1),
    ]
}

/// At the least and the greatest value: what unsigned types give, and signed ones.
const AT_BOTH_ENDS: [(Code, Gives, Gives); 12] = [
    (Code::Plus, Greatest, Word(-1)),
    (Code::Minus, Word(1), Nothing),
    (Code::Mult, Word(0), Nothing),
    (Code::TruncDiv, Word(0), Word(-1)),
    (Code::TruncMod, Word(0), Word(-1)),
    (Code::BitAnd, Word(0), Word(0)),
    (Code::BitIor, Greatest, Word(-1)),
    (Code::BitXor, Greatest, Word(-1)),
    (Code::Lshift, Nothing, Nothing),
    (Code::Rshift, Nothing, Nothing),
    (Code::Min, Least, Least),
    (Code::Max, Greatest, Greatest),
];

/// The same at the greatest value twice.
const AT_THE_GREATEST: [(Code, Gives, Gives); 12] = [
    (Code::Plus, Word(-2), Nothing),
    (Code::Minus, Word(0), Word(0)),
    (Code::Mult, Word(1), Nothing),
    (Code::TruncDiv, Word(1), Word(1)),
    (Code::TruncMod, Word(0), Word(0)),
    (Code::BitAnd, Greatest, Greatest),
    (Code::BitIor, Greatest, Greatest),
    (Code::BitXor, Word(0), Word(0)),
    (Code::Lshift, Nothing, Nothing),
    (Code::Rshift, Nothing, Nothing),
    (Code::Min, Greatest, Greatest),
    (Code::Max, Greatest, Greatest),
];

/// The same at the least value twice.
const AT_THE_LEAST: [(Code, Gives, Gives); 12] = [
    (Code::Plus, Word(0), Nothing),
    (Code::Minus, Word(0), Word(0)),
    (Code::Mult, Word(0), Nothing),
    (Code::TruncDiv, Nothing, Word(1)),
    (Code::TruncMod, Nothing, Word(0)),
    (Code::BitAnd, Least, Least),
    (Code::BitIor, Least, Least),
    (Code::BitXor, Word(0), Word(0)),
    (Code::Lshift, Word(0), Nothing),
    (Code::Rshift, Word(0), Nothing),
    (Code::Min, Least, Least),
    (Code::Max, Least, Least),
];

/// Looks that each row's operation of these two words gives what stands there, at the type with
/// these ends.
fn judge_pair(
    rt: &impl Abort,
    rows: &[(Code, Gives, Gives)],
    a: Wide,
    b: Wide,
    least: Wide,
    greatest: Wide,
) {
    let ty = least.ty();
    for (code, unsigned, signed) in rows.iter() {
        let gives = if ty.unsigned() { *unsigned } else { *signed };
        assert_eq!(rt;
            binary(rt, *code, ty, a, b),
            expected(gives, ty, least, greatest),
            "{code:?} of {a:?} and {b:?}"
        );
    }
}

#[test]
fn two_operands_at_the_ends(rt: HostRuntime) {
    for (ty, least, greatest) in ends() {
        let least = word(least, ty);
        let greatest = word(greatest, ty);
        judge_pair(
            &rt,
            AT_BOTH_ENDS.as_slice(),
            least,
            greatest,
            least,
            greatest,
        );
        judge_pair(
            &rt,
            AT_THE_GREATEST.as_slice(),
            greatest,
            greatest,
            least,
            greatest,
        );
        judge_pair(&rt, AT_THE_LEAST.as_slice(), least, least, least, greatest);
    }
}

#[test]
fn one_operand_at_the_ends(rt: HostRuntime) {
    // what unsigned types give, and signed ones
    let at_least = [
        (Code::BitNot, Greatest, Greatest),
        (Code::Negate, Word(0), Nothing),
    ];
    let at_greatest = [
        (Code::BitNot, Least, Least),
        (Code::Negate, Word(1), LeastPlusOne),
    ];
    for (ty, least, greatest) in ends() {
        let least = word(least, ty);
        let greatest = word(greatest, ty);
        for (code, unsigned, signed) in at_least {
            let gives = if ty.unsigned() { unsigned } else { signed };
            assert_eq!(rt;
                unary(&rt, code, ty, least),
                expected(gives, ty, least, greatest),
                "{code:?} of the least of {ty:?}"
            );
        }
        for (code, unsigned, signed) in at_greatest {
            let gives = if ty.unsigned() { unsigned } else { signed };
            assert_eq!(rt;
                unary(&rt, code, ty, greatest),
                expected(gives, ty, least, greatest),
                "{code:?} of the greatest of {ty:?}"
            );
        }
    }
}

#[test]
fn comparisons_at_the_ends(rt: HostRuntime) {
    // of the least and the greatest value, of the greatest and the least, and of the greatest
    // with itself
    let rows = [
        (Code::Eq, 0, 0, 1),
        (Code::Ne, 1, 1, 0),
        (Code::Lt, 1, 0, 0),
        (Code::Le, 1, 0, 1),
        (Code::Gt, 0, 1, 0),
        (Code::Ge, 0, 1, 1),
    ];
    let boolean = IntType::boolean();
    for (ty, least, greatest) in ends() {
        let least = word(least, ty);
        let greatest = word(greatest, ty);
        for (code, rising, falling, same) in rows {
            assert_eq!(rt;
                binary(&rt, code, boolean, least, greatest),
                Ok(word(rising, boolean)),
                "{code:?} at {ty:?}"
            );
            assert_eq!(rt;
                binary(&rt, code, boolean, greatest, least),
                Ok(word(falling, boolean)),
                "{code:?} at {ty:?}"
            );
            assert_eq!(rt;
                binary(&rt, code, boolean, greatest, greatest),
                Ok(word(same, boolean)),
                "{code:?} at {ty:?}"
            );
        }
    }
}

/// Looks that operations of one word give what stands there.
fn judge_unary(rt: &impl Abort, rows: &[(Code, IntType, i128, IntType, Gives)]) {
    for (code, ty, a, a_type, gives) in rows.iter() {
        let a = word(*a, *a_type);
        assert_eq!(rt;
            unary(rt, *code, *ty, a),
            expected(*gives, *ty, a, a),
            "{code:?} of {a:?}"
        );
    }
}

/// Looks that operations of two words, the first of the operation's own type, give what stands
/// there.
fn judge_binary(rt: &impl Abort, rows: &[(Code, IntType, i128, i128, IntType, Gives)]) {
    for (code, ty, a, b, b_type, gives) in rows.iter() {
        let a = word(*a, *ty);
        let b = word(*b, *b_type);
        assert_eq!(rt;
            binary(rt, *code, *ty, a, b),
            expected(*gives, *ty, a, b),
            "{code:?} of {a:?} and {b:?}"
        );
    }
}

#[test]
fn signs_worked_by_hand(rt: HostRuntime) {
    let small = IntType::signed_char();
    let byte = IntType::unsigned_char();
    let wide = IntType::int128();
    let unsigned = IntType::unsigned_int128();
    let rows = [
        (Code::Abs, small, -128, small, Nothing),
        (Code::Abs, small, -127, small, Word(127)),
        (Code::Absu, byte, -128, small, Word(128)),
        (Code::Absu, unsigned, i128::MIN, wide, Word(i128::MIN)),
        (Code::Negate, small, 127, small, Word(-127)),
    ];
    judge_unary(&rt, rows.as_slice());
}

#[test]
fn conversions_worked_by_hand(rt: HostRuntime) {
    let boolean = IntType::boolean();
    let small = IntType::signed_char();
    let byte = IntType::unsigned_char();
    let int = IntType::int();
    let long = IntType::long();
    let unsigned_long = IntType::unsigned_long();
    let wide = IntType::int128();
    let unsigned = IntType::unsigned_int128();
    let all_ones = Word(18_446_744_073_709_551_615);
    let rows = [
        (Code::Convert, small, 300, int, Word(44)),
        (Code::Convert, small, 200, byte, Word(-56)),
        (Code::Convert, boolean, 300, int, Word(0)),
        (Code::Convert, boolean, -1, int, Word(1)),
        (Code::Convert, long, -5, small, Word(-5)),
        (Code::Convert, unsigned_long, -1, small, all_ones),
        (Code::Convert, wide, i128::MIN, unsigned, Word(i128::MIN)),
    ];
    judge_unary(&rt, rows.as_slice());
}

#[test]
fn shifts_worked_by_hand(rt: HostRuntime) {
    let boolean = IntType::boolean();
    let small = IntType::signed_char();
    let byte = IntType::unsigned_char();
    let int = IntType::int();
    let long = IntType::long();
    let wide = IntType::int128();
    let rows = [
        (Code::Lshift, int, 1, 31, int, Word(-2_147_483_648)),
        (Code::Lshift, int, 3, 31, byte, Word(-2_147_483_648)),
        (Code::Lshift, int, 1, 32, int, Nothing),
        (Code::Lshift, int, 1, -1, small, Nothing),
        (Code::Lshift, boolean, 1, 0, long, Word(1)),
        (Code::Lshift, boolean, 1, 1, boolean, Nothing),
        (Code::Rshift, int, -1, 31, int, Word(-1)),
        (Code::Rshift, int, -1, 32, int, Nothing),
        (Code::Rshift, int, -5, 1, int, Word(-3)),
        (Code::Rshift, byte, 255, 7, wide, Word(1)),
        (Code::Rshift, wide, i128::MIN, 127, int, Word(-1)),
    ];
    judge_binary(&rt, rows.as_slice());
}

#[test]
fn arithmetic_worked_by_hand(rt: HostRuntime) {
    let boolean = IntType::boolean();
    let small = IntType::signed_char();
    let byte = IntType::unsigned_char();
    let int = IntType::int();
    let wide = IntType::int128();
    let rows = [
        (Code::TruncDiv, int, -7, 2, int, Word(-3)),
        (Code::TruncMod, int, -7, 2, int, Word(-1)),
        (Code::TruncMod, int, 7, -2, int, Word(1)),
        (Code::TruncDiv, small, -128, -1, small, Nothing),
        (Code::TruncMod, wide, i128::MIN, -1, wide, Nothing),
        (Code::TruncDiv, byte, 128, 255, byte, Word(0)),
        (Code::Plus, boolean, 1, 1, boolean, Word(0)),
        (Code::Mult, wide, i128::MIN, -1, wide, Nothing),
        (Code::Mult, wide, i128::MIN, 1, wide, Word(i128::MIN)),
        (Code::Min, small, -1, 1, small, Word(-1)),
        (Code::Max, byte, -1, 1, byte, Word(255)),
    ];
    judge_binary(&rt, rows.as_slice());
}

#[test]
fn choices_worked_by_hand(rt: HostRuntime) {
    let int = IntType::int();
    for (test, gives) in [(1, 5), (0, 7)] {
        let test = word(test, IntType::boolean());
        assert_eq!(rt;
            ternary(&rt, Code::Cond, int, test, word(5, int), word(7, int)),
            Ok(word(gives, int))
        );
    }
}

/// Two operands, and the word and the overflow of their sum, of their difference and of their
/// product.
type Overflows = (i128, i128, (i128, bool), (i128, bool), (i128, bool));

const OF_SIGNED_CHARS: [Overflows; 3] = [
    (127, 1, (-128, true), (126, false), (127, false)),
    (-1, 1, (0, false), (-2, false), (-1, false)),
    (-128, -1, (127, true), (-127, false), (-128, true)),
];

const OF_UNSIGNED_CHARS: [Overflows; 3] = [
    (255, 1, (0, true), (254, false), (255, false)),
    (0, 1, (1, false), (255, true), (0, false)),
    (16, 16, (32, false), (0, false), (0, true)),
];

const OF_UNSIGNED_INT128: [Overflows; 3] = [
    (1 << 64, 1 << 64, (1 << 65, false), (0, false), (0, true)),
    (
        1 << 64,
        1 << 63,
        (3 << 63, false),
        (1 << 63, false),
        (i128::MIN, false),
    ),
    (-1, -1, (-2, true), (0, false), (1, true)),
];

const OF_INT128: [Overflows; 1] = [(
    i128::MIN,
    -1,
    (i128::MAX, true),
    (i128::MIN + 1, false),
    (i128::MIN, true),
)];

/// Looks that each row's words and overflows are those at this type.
fn judge_overflows(rt: &impl Abort, ty: IntType, rows: &[Overflows]) {
    for (a, b, sum, difference, product) in rows.iter() {
        let a = word(*a, ty).bits();
        let b = word(*b, ty).bits();
        assert_eq!(rt;
            add_overflow(a, b, ty),
            (word(sum.0, ty).bits(), sum.1),
            "{a} + {b} at {ty:?}"
        );
        assert_eq!(rt;
            sub_overflow(a, b, ty),
            (word(difference.0, ty).bits(), difference.1),
            "{a} - {b} at {ty:?}"
        );
        assert_eq!(rt;
            mul_overflow(a, b, ty),
            (word(product.0, ty).bits(), product.1),
            "{a} * {b} at {ty:?}"
        );
    }
}

#[test]
fn overflowing_words(rt: HostRuntime) {
    judge_overflows(&rt, IntType::signed_char(), OF_SIGNED_CHARS.as_slice());
    judge_overflows(&rt, IntType::unsigned_char(), OF_UNSIGNED_CHARS.as_slice());
    judge_overflows(
        &rt,
        IntType::unsigned_int128(),
        OF_UNSIGNED_INT128.as_slice(),
    );
    judge_overflows(&rt, IntType::int128(), OF_INT128.as_slice());
}

#[test]
fn overflowing_negations(rt: HostRuntime) {
    let small = IntType::signed_char();
    let byte = IntType::unsigned_char();
    for (ty, a, negative) in [
        (small, -128, (-128, true)),
        (small, 127, (-127, false)),
        (byte, 1, (255, true)),
        (byte, 0, (0, false)),
    ] {
        assert_eq!(rt;
            neg_overflow(word(a, ty).bits(), ty),
            (word(negative.0, ty).bits(), negative.1),
            "{a} at {ty:?}"
        );
    }
}

#[test]
fn typing_by_hand(rt: HostRuntime) {
    let boolean = IntType::boolean();
    let int = IntType::int();
    let unsigned = IntType::unsigned_int();
    let long = IntType::long();
    let one = [
        (Code::Convert, boolean, long, true),
        (Code::Negate, int, int, true),
        (Code::Negate, int, long, false),
        (Code::Abs, unsigned, unsigned, false),
        (Code::Absu, unsigned, int, true),
        (Code::Absu, int, int, false),
        (Code::Plus, int, int, false),
    ];
    for (code, ty, a, right) in one {
        assert_eq!(rt; well_typed(code, ty, &[a]), right, "{code:?}");
    }
    let two = [
        (Code::Plus, int, int, int, true),
        (Code::Plus, int, int, unsigned, false),
        (Code::Lshift, int, int, long, true),
        (Code::Lshift, long, int, long, false),
        (Code::Lt, boolean, long, long, true),
        (Code::Lt, int, int, int, false),
        (Code::Abs, int, int, int, false),
    ];
    for (code, ty, a, b, right) in two {
        assert_eq!(rt; well_typed(code, ty, &[a, b]), right, "{code:?}");
    }
    for (test, right) in [(boolean, true), (int, false)] {
        assert_eq!(rt; well_typed(Code::Cond, int, &[test, int, int]), right);
    }
    assert!(rt; !well_typed(Code::Negate, int, &[]));
}

#[test]
fn parts_are_read_back(rt: HostRuntime) {
    let int = IntType::int();
    assert_eq!(rt; IntType::new(1, false), None);
    assert_eq!(rt; IntType::new(32, false), Some(int));
    assert_eq!(rt; Operand::Name(7, int).ty(), int);
    assert_eq!(rt; Operand::default().ty(), IntType::boolean());
    assert!(rt; Wide::new(256, IntType::unsigned_char()).is_err());
    assert!(rt; is_one_operand(Operand::Name(7, int), Operand::Name(7, int)));
}

/// A caller's `==` on types means that they are one.
fn is_one_type(a: IntType, b: IntType) -> bool
    ensures { IsTrue result ↔ (a ≡ b) }
{
    a == b
}

/// The same of words.
fn is_one_word(a: Wide, b: Wide) -> bool
    ensures { IsTrue result ↔ (a ≡ b) }
{
    a == b
}

/// The same of operands.
fn is_one_operand(a: Operand, b: Operand) -> bool
    ensures { IsTrue result ↔ (a ≡ b) }
{
    a == b
}
