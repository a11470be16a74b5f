//! Rows of two terms, by subject. The methods are worked out by hand from what each asks; what none of
//! them knows has none, though it may be right.

use crate::rows::At::{Bool, Int, Long, SignedChar, UnsignedChar, UnsignedInt};
use justify::Method::{self, Enumerate, Order, Ring, Table};
use pm_wide::IntType;

/// The type of a row's names.
#[derive(Clone, Copy, Debug)]
pub(crate) enum At {
    Bool,
    SignedChar,
    UnsignedChar,
    Int,
    UnsignedInt,
    Long,
}

impl At {
    pub(crate) fn ty(self) -> IntType {
        match self {
            At::Bool => IntType::boolean(),
            At::SignedChar => IntType::signed_char(),
            At::UnsignedChar => IntType::unsigned_char(),
            At::Int => IntType::int(),
            At::UnsignedInt => IntType::unsigned_int(),
            At::Long => IntType::long(),
        }
    }
}

/// A left side, what is to stand for it, and the method that says that it may, if any does.
pub(crate) type Row = (At, &'static str, &'static str, Option<Method>);

/// Sums: with a sign the order of adding matters, since a part may overflow.
pub(crate) const SUMS: [Row; 24] = [
    // the same
    (Int, "xy+", "xy+", Some(Ring)),
    // y + x is x + y over whole numbers
    (Int, "xy+", "yx+", Some(Ring)),
    // y + z may overflow where x + y and the whole don't
    (Int, "xy+z+", "xyz++", None),
    // and the other way round
    (Int, "xyz++", "xy+z+", None),
    // sums wrap
    (UnsignedInt, "xy+z+", "xyz++", Some(Ring)),
    // y + x is a part of the left side
    (Int, "xy+z+", "zyx++", Some(Ring)),
    // y + z is the left side over whole numbers
    (Int, "xy+z+x-", "yz+", Some(Ring)),
    // added without a sign, and converted back
    (Int, "xy+z+", "xCyCzC++I", Some(Ring)),
    // x + y may overflow where the left side wraps
    (Int, "xCyC+I", "xy+", None),
    // nothing is added any more
    (Int, "xy+y-", "x", Some(Ring)),
    // x + y is no part of the left side
    (Int, "x", "xy+y-", None),
    // one sum
    (Int, "x1+1+", "x2+", Some(Ring)),
    // x + 1 isn't known, though it has a value
    (Int, "x2+", "x1+1+", None),
    // all words show that it has
    (SignedChar, "x2+", "x1+1+", Some(Enumerate)),
    // a number in range has a value
    (Int, "xx-3+", "12+", Some(Ring)),
    // so have both numbers
    (Int, "B", "B1-1+", Some(Ring)),
    // the same word, but the sum overflows
    (Int, "S", "B1+", None),
    // the number of the sum stands on the left, but at another type
    (Int, "SOI0*+", "B1+", None),
    // twice x either way
    (Int, "x2*", "xx+", Some(Ring)),
    // products are multiplied out
    (UnsignedInt, "x1+x1-*", "xx*1-", Some(Ring)),
    // x * x may overflow where the left side doesn't
    (Int, "x1+x1-*", "xx*1-", None),
    // nothing is added
    (Int, "x0+0+", "x", Some(Ring)),
    // two types
    (Int, "x", "xC", None),
    // 256 is 0 modulo 2 to the 8th
    (Int, "x18<+K", "xK", Some(Ring)),
];

/// Comparisons: with a sign a sum that has a value is the sum of whole numbers.
pub(crate) const COMPARED_SUMS: [Row; 32] = [
    // the difference is y on both sides
    (Int, "xy+xL", "y0L", Some(Order)),
    // the sum wraps
    (UnsignedInt, "xy+xL", "y0L", None),
    // the other comparison
    (Int, "xy+xL", "y0G", None),
    // the other comparison, of operands exchanged
    (Int, "xy+xL", "0yG", Some(Order)),
    // the opposite difference
    (Int, "xy+xL", "0yL", None),
    // x + y may overflow
    (Int, "y0L", "xy+xL", None),
    // the difference is -y
    (Int, "xxy+Q", "0yQ", Some(Order)),
    // the difference is x - y
    (Int, "xy-0H", "xyH", Some(Order)),
    // x - y may overflow
    (Int, "xyH", "xy-0H", None),
    // one added to both
    (Int, "x1+y1+L", "xyL", Some(Order)),
    // x + 1 may overflow
    (Int, "xyL", "x1+y1+L", None),
    // differences aren't divided
    (Int, "x2*y2*L", "xyL", None),
    // exchanged
    (Int, "xyL", "yxG", Some(Order)),
    // without a sign order says nothing of `<`
    (UnsignedInt, "xyL", "yxG", None),
    // another comparison
    (Int, "xyL", "xyQ", None),
    // `==` is its own other comparison
    (Int, "xyE", "yxE", Some(Order)),
    // the opposite difference modulo 2 to the 32nd
    (UnsignedInt, "xyE", "yxE", Some(Order)),
    // the difference is y, wrapped or not
    (UnsignedInt, "xy+xE", "y0E", Some(Order)),
    // the opposite one
    (UnsignedInt, "xy+xN", "0yN", Some(Order)),
    // another comparison
    (UnsignedInt, "xy+xE", "y0N", None),
    // operands of another type
    (Int, "xy+xE", "xCyC+xCE", None),
    // the difference is 1
    (Int, "x1+xG", "T", Some(Order)),
    // and 1 is above 0
    (Int, "x1+xG", "F", None),
    // the greatest word has none above it
    (UnsignedInt, "x1+xG", "T", None),
    // 1 isn't 0 modulo 2 to the 32nd
    (UnsignedInt, "x1+xE", "F", Some(Order)),
    // and so the two are unequal
    (UnsignedInt, "x1+xN", "T", Some(Order)),
    // never
    (UnsignedInt, "x1+xE", "T", None),
    // the difference is 0
    (Int, "xxQ", "T", Some(Order)),
    // without a sign order says nothing of `<=`
    (UnsignedInt, "xxQ", "T", None),
    // all words say it
    (UnsignedChar, "xxQ", "T", Some(Enumerate)),
    // 2 to the 32nd isn't 0
    (Int, "BB+2+0E", "F", Some(Order)),
    // modulo 2 to the 32nd it is, and the left side has no value
    (Int, "BB+2+0E", "T", Some(Order)),
];

/// Products halved, and other quotients.
pub(crate) const HALVES: [Row; 24] = [
    // no method divides at 32 bits
    (Int, "x2*2/", "x", None),
    // the product wraps
    (UnsignedInt, "x2*2/", "x", None),
    // where the product doesn't overflow
    (SignedChar, "x2*2/", "x", Some(Enumerate)),
    // the product wraps
    (UnsignedChar, "x2*2/", "x", None),
    // 3 / 2 * 2 is 2
    (SignedChar, "x2/2*", "x", None),
    // where the product doesn't overflow
    (SignedChar, "x3*3/", "x", Some(Enumerate)),
    // one may divide by 3
    (Int, "x3/", "x3/", Some(Ring)),
    // the left side divides by y too
    (Int, "xy/", "xy/", Some(Ring)),
    // and so it does a sum in another order
    (Int, "xy+z/", "yx+z/", Some(Ring)),
    // x + 0 is x
    (Int, "xy/", "x0+y/", Some(Ring)),
    // a part of the left side divides by y
    (UnsignedInt, "xy/1+", "1xy/+", Some(Ring)),
    // one may divide by 3, whatever the left side is
    (Int, "0", "x3/0*", Some(Ring)),
    // but not by 0
    (Int, "0", "x0/0*", None),
    // nor by -1
    (Int, "0", "xM/0*", None),
    // the greatest word isn't -1
    (UnsignedInt, "0", "xM/0*", Some(Ring)),
    // y may be 0
    (Int, "0", "xy/0*", None),
    // two remainders
    (UnsignedInt, "x3%", "x4%", None),
    // what the quotient leaves
    (SignedChar, "x3%", "xx3/3*-", Some(Enumerate)),
    // the least value has no value on both sides
    (SignedChar, "xM/", "xn", Some(Enumerate)),
    // the least value by -1 leaves nothing, not even 0
    (SignedChar, "0", "xM%", None),
    // 255 / 255 is 1
    (UnsignedChar, "0", "xM/", None),
    // divided by 1
    (UnsignedChar, "x", "x1/", Some(Enumerate)),
    // a quotient with no more bits
    (SignedChar, "x3/", "x3/0|", Some(Enumerate)),
    // of two names: 16 bits
    (SignedChar, "xy/", "xy/0|", None),
];

/// Masks, and sums of bits.
pub(crate) const MASKS: [Row; 22] = [
    // all bits
    (Int, "xM&", "x", Some(Table)),
    // all bits
    (UnsignedInt, "xM&", "x", Some(Table)),
    // the table comes before all words
    (SignedChar, "xM&", "x", Some(Table)),
    // the only bit
    (Bool, "xM&", "x", Some(Table)),
    // a mask always has a value
    (Int, "x", "xM&", Some(Table)),
    // no bits
    (Int, "x0&", "0", Some(Table)),
    // each bit turned
    (Int, "xM^", "x~", Some(Table)),
    // the low bits and the others
    (Int, "x7&x7~&|", "x", Some(Table)),
    // and their sum
    (Int, "x7&x7~&+", "x", Some(Table)),
    // that sum isn't known
    (Int, "x", "x7&x7~&+", None),
    // without a sign each sum has a value
    (UnsignedInt, "x", "x7&x7~&+", Some(Table)),
    // common bits count twice
    (UnsignedInt, "xy&xy|+", "xy+", Some(Table)),
    // x + y isn't known
    (Int, "xy&xy|+", "xy+", None),
    // bits without carries, and the carries
    (UnsignedInt, "xy+", "xy^xy&2*+", Some(Table)),
    // bits that only one has
    (UnsignedInt, "xy-", "xy~&x~y&-", Some(Table)),
    // common bits count once
    (UnsignedInt, "xy|", "xy+", None),
    // none of the two
    (Int, "x~y~&", "xy|~", Some(Table)),
    // what either has without what one has
    (Int, "xy|xy^^", "xy&", Some(Table)),
    // the same mask of the same sum
    (UnsignedInt, "xy+x&", "yx+x&", Some(Ring)),
    // ring doesn't exchange masks, table doesn't mask sums
    (UnsignedInt, "xy+x&", "xyx+&", None),
    // nor does table multiply by names
    (UnsignedInt, "xy&x*", "xyx&*", None),
    // nor does it convert to another width
    (Int, "xy&K", "yx&K", None),
];

/// Negatives, and the least value, which has none.
pub(crate) const LEAST_VALUES: [Row; 11] = [
    // the left side has no value
    (Int, "Sn", "S", Some(Ring)),
    // the right side has none
    (Int, "S", "Sn", None),
    // nor at the least value of another type
    (SignedChar, "S", "Sn", None),
    // without a sign it is its own negative
    (UnsignedInt, "S", "Sn", Some(Ring)),
    // twice turned
    (Int, "xnn", "x", Some(Ring)),
    // -x isn't known
    (Int, "x", "xnn", None),
    // nor is it there at the least value
    (SignedChar, "x", "xnn", None),
    // one negative
    (Int, "0x-", "xn", Some(Ring)),
    // ~x is -x - 1
    (Int, "x~1+", "xn", Some(Ring)),
    // and -1 - x
    (Int, "x~", "Mx-", Some(Ring)),
    // -x isn't known
    (Int, "x~", "xn1-", None),
];

/// Sizes, with and without a sign.
pub(crate) const SIZES: [Row; 11] = [
    // the left side has that size too
    (Int, "xA", "xA", Some(Ring)),
    // and that of an equal sum
    (Int, "xy+A", "yx+A", Some(Ring)),
    // x may be negative
    (Int, "x", "xA", None),
    // the least value has no size
    (Int, "0", "xA0*", None),
    // but one without a sign
    (Int, "0", "xUI0*", Some(Ring)),
    // no method knows both
    (Int, "xAC", "xU", None),
    // all words show it
    (SignedChar, "xAC", "xU", Some(Enumerate)),
    // the least value has no size
    (SignedChar, "xU", "xAC", None),
    // not even where it isn't chosen
    (SignedChar, "xA", "x0Lxnx?", Some(Enumerate)),
    // on both sides
    (SignedChar, "x0Lxnx?", "xA", Some(Enumerate)),
    // sizes aren't negative
    (SignedChar, "xA0H", "T", Some(Enumerate)),
];

/// Shifts by the width, by less, and by a name.
pub(crate) const SHIFTS: [Row; 17] = [
    // the left side has no value, and the same
    (Int, "xW<", "xW<", Some(Ring)),
    // no method knows that it has none
    (Int, "xW<", "0", None),
    // no word gives one
    (SignedChar, "xW<", "0", Some(Enumerate)),
    // the right side has none
    (SignedChar, "0", "xW<", None),
    // a shift by the width
    (Int, "0", "xW<0*", None),
    // a shift by one less
    (Int, "0", "xY<0*", Some(Ring)),
    // a shift by any places
    (Int, "0", "xy<0*", None),
    // a shift by a _Bool
    (Int, "0", "xt<0*", Some(Ring)),
    // but not of a _Bool
    (Bool, "0", "xt<0*", None),
    // the product with a power of two
    (UnsignedInt, "xY<", "xS*", Some(Ring)),
    // a shift always has a value
    (Int, "xS*", "xY<", Some(Ring)),
    // a product with a sign hasn't
    (Int, "xY<", "xS*", None),
    // 100 + 100 overflows
    (SignedChar, "x1<", "xx+", None),
    // half
    (UnsignedChar, "x1>", "x2/", Some(Enumerate)),
    // of -1 it is -1 and 0
    (SignedChar, "x1>", "x2/", None),
    // by one place or none
    (SignedChar, "tx2*x?", "xt<", Some(Enumerate)),
    // the product may overflow
    (SignedChar, "xt<", "tx2*x?", None),
];

/// Choices: a part that isn't chosen must have a value too.
pub(crate) const CHOICES: [Row; 8] = [
    // the left side has that part too
    (Int, "txy0/?", "txy0/?", Some(Ring)),
    // and so no value
    (SignedChar, "txx0/?", "x", Some(Enumerate)),
    // the right side has none
    (SignedChar, "x", "txx0/?", None),
    // 0 / 0 isn't chosen, but there
    (SignedChar, "1", "x0Nxx/1?", None),
    // where x / x has a value it is 1
    (SignedChar, "x0Nxx/1?", "1", Some(Enumerate)),
    // either way
    (SignedChar, "x", "txx?", Some(Enumerate)),
    // either way
    (SignedChar, "txx?", "x", Some(Enumerate)),
    // no method chooses at 33 bits
    (Int, "x", "txx?", None),
];

/// At `_Bool`.
pub(crate) const TRUTHS: [Row; 13] = [
    // a sum modulo 2
    (Bool, "xy+", "xy^", Some(Table)),
    // and the difference
    (Bool, "xy-", "xy+", Some(Ring)),
    // twice is 0
    (Bool, "xx+", "0", Some(Ring)),
    // its own negative
    (Bool, "x", "xn", Some(Ring)),
    // a product of names
    (Bool, "xy*", "xy&", Some(Enumerate)),
    // of one
    (Bool, "xx*", "x", Some(Enumerate)),
    // where x isn't 0
    (Bool, "xx/", "1", Some(Enumerate)),
    // where x is 0
    (Bool, "1", "xx/", None),
    // only 0 is shifted by 0
    (Bool, "xx<", "x", Some(Enumerate)),
    // 1 isn't
    (Bool, "x", "xx<", None),
    // 1 + 1 wraps
    (Bool, "xy+xL", "xy&", Some(Enumerate)),
    // and 1 isn't below 0
    (Bool, "xy+xL", "y0L", None),
    // x may be 1
    (Bool, "x", "0", None),
];

/// At the limits of each method, and one step outside.
pub(crate) const ONE_STEP_OUTSIDE: [Row; 17] = [
    // eight factors
    (
        UnsignedInt,
        "xx*xx**xx*xx***",
        "xx*x*x*x*x*x*x*",
        Some(Ring),
    ),
    // nine
    (UnsignedInt, "xx*xx**xx*xx***x*", "xx*x*x*x*x*x*x*x*", None),
    // 64 products
    (
        UnsignedInt,
        "abcdefgh+++++++ijklmouv+++++++*",
        "ijklmouv+++++++abcdefgh+++++++*",
        Some(Ring),
    ),
    // 65
    (
        UnsignedInt,
        "abcdefgh+++++++ijklmouv+++++++*w+",
        "wijklmouv+++++++abcdefgh+++++++*+",
        None,
    ),
    // 65 at a part
    (
        UnsignedInt,
        "abcdefgh+++++++ijklmouv+++++++*w+w-",
        "abcdefgh+++++++ijklmouv+++++++*",
        None,
    ),
    // six names
    (UnsignedInt, "abcdef&&&&&", "fedcba&&&&&", Some(Table)),
    // seven
    (UnsignedInt, "abcdefg&&&&&&", "gfedcba&&&&&&", None),
    // a coefficient below 2 to the 56th
    (Long, "xZ+xG", "T", Some(Order)),
    // 2 to the 56th
    (Long, "xV+xG", "T", None),
    // which is still not 0 modulo 2 to the 64th
    (Long, "xV+xN", "T", Some(Order)),
    // a sum with the same exact form
    (Long, "xZ+", "Zx+", Some(Ring)),
    // without an exact form
    (Long, "xV+", "Vx+", None),
    // but one of the same operands in order
    (Long, "xV+", "xV+", Some(Ring)),
    // 12 bits
    (SignedChar, "pqrsx2*2/x?x?x?x?", "x", Some(Enumerate)),
    // 13
    (SignedChar, "pqrstx2*2/x?x?x?x?x?", "x", None),
    // 12 names of one bit
    (
        Bool,
        "abcdefghijkl&&&&&&&&&&&",
        "lkjihgfedcba&&&&&&&&&&&",
        Some(Enumerate),
    ),
    // 13
    (
        Bool,
        "abcdefghijklm&&&&&&&&&&&&",
        "mlkjihgfedcba&&&&&&&&&&&&",
        None,
    ),
];
