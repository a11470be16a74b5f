//! The calls of C text, with their names.
ghost use Rattle.std.specs.Prelude.{◌≡◌, find};
ghost use Rattle.std.specs.Str.{bytes_eq};
ghost use Rattle.pd_ast.specs.Calls.{call_name, call_named};

use pm_ops::Pred;

/// A call of C text, after GCC's functions and macros of these names.
#[derive(Clone, Copy, Debug, PartialEq, Eq)]
pub enum Call {
    /// A predicate on an operand.
    Holds(Pred),
    /// `TREE_TYPE`: the type of an operand.
    TreeType,
    /// `TYPE_PRECISION`: the width of a type.
    TypePrecision,
    /// `element_precision`: the width of a type or of an operand's type.
    ElementPrecision,
    /// `TYPE_SIGN`: the sign of a type.
    TypeSign,
    /// `TYPE_UNSIGNED`: whether a type is unsigned.
    TypeUnsigned,
    /// `INTEGRAL_TYPE_P`: true of every type here.
    IntegralType,
    /// `ANY_INTEGRAL_TYPE_P`: true of every type here.
    AnyIntegralType,
    /// `FLOAT_TYPE_P`: false of every type here.
    FloatType,
    /// `VECTOR_TYPE_P`: false of every type here.
    VectorType,
    /// `POINTER_TYPE_P`: false of every type here.
    PointerType,
    /// `TYPE_OVERFLOW_SANITIZED`: false of every type here.
    OverflowSanitized,
    /// `TYPE_OVERFLOW_TRAPS`: false of every type here.
    OverflowTraps,
    /// `TYPE_OVERFLOW_UNDEFINED`: whether a type is signed.
    OverflowUndefined,
    /// `TYPE_OVERFLOW_WRAPS`: whether a type is unsigned.
    OverflowWraps,
    /// `type_has_mode_precision_p`: whether a type is another one than `_Bool`.
    HasModePrecision,
    /// `types_match`: whether two types, or the types of operands, are one.
    TypesMatch,
    /// `tree_nop_conversion_p`: whether two types have one width.
    NopConversion,
    /// `signed_type_for`: the signed type of a type's width.
    SignedTypeFor,
    /// `unsigned_type_for`: the unsigned type of a type's width.
    UnsignedTypeFor,
    /// `single_use`: whether an operand is a constant, or a name with at most one use.
    SingleUse,
    /// `tree_int_cst_sgn`: the sign of a constant: -1, 0 or 1.
    CstSign,
    /// `wi::to_wide`: the word of a constant.
    ToWide,
    /// `wi::add`: the sum of two words.
    Add,
    /// `wi::sub`: the difference of two words.
    Sub,
    /// `wi::mul`: the product of two words.
    Mul,
    /// `wi::neg`: the negative of a word.
    Neg,
    /// `wi::bit_and`: the bits that are set in both words.
    BitAnd,
    /// `wi::bit_or`: the bits that are set in a word at least.
    BitOr,
    /// `wi::bit_xor`: the bits that are set in one word alone.
    BitXor,
    /// `wi::bit_not`: the bits that aren't set.
    BitNot,
    /// `wi::lshift`: a word shifted up.
    Lshift,
    /// `wi::lrshift`: a word shifted down, with zeros from above.
    Lrshift,
    /// `wi::arshift`: a word shifted down, with its sign from above.
    Arshift,
    /// `wi::min_value`: the word of a type's least value.
    MinValue,
    /// `wi::max_value`: the word of a type's greatest value.
    MaxValue,
    /// `wi::popcount`: how many bits are set.
    Popcount,
    /// `wi::clz`: how many zeros stand above the highest bit that is set.
    Clz,
    /// `wi::ctz`: how many zeros stand below the lowest bit that is set.
    Ctz,
    /// `wi::exact_log2`: the place of the only bit that is set, or -1.
    ExactLog2,
    /// `wi::eq_p`: whether two words are one.
    EqP,
    /// `wi::ne_p`: whether two words differ.
    NeP,
    /// `wi::lt_p`: whether a word is below another by a sign.
    LtP,
    /// `wi::le_p`: whether a word is at most another by a sign.
    LeP,
    /// `wi::gt_p`: whether a word is above another by a sign.
    GtP,
    /// `wi::ge_p`: whether a word is at least another by a sign.
    GeP,
    /// `wi::lts_p`: whether a word is below another, signed.
    LtsP,
    /// `wi::ltu_p`: whether a word is below another, unsigned.
    LtuP,
    /// `wi::les_p`: whether a word is at most another, signed.
    LesP,
    /// `wi::leu_p`: whether a word is at most another, unsigned.
    LeuP,
    /// `wi::gts_p`: whether a word is above another, signed.
    GtsP,
    /// `wi::gtu_p`: whether a word is above another, unsigned.
    GtuP,
    /// `wi::ges_p`: whether a word is at least another, signed.
    GesP,
    /// `wi::geu_p`: whether a word is at least another, unsigned.
    GeuP,
    /// `build_zero_cst`: the constant 0 of a type.
    BuildZero,
    /// `build_one_cst`: the constant 1 of a type.
    BuildOne,
    /// `build_minus_one_cst`: the constant of a type whose bits are all 1.
    BuildMinusOne,
    /// `build_all_ones_cst`: the constant of a type whose bits are all 1.
    BuildAllOnes,
    /// `build_int_cst`: the constant of a type for a whole number.
    BuildInt,
    /// `wide_int_to_tree`: the constant of a type for a word.
    ToTree,
}

impl Call {
    /// Every call, once.
    const ALL: [Call; 67] = [
        Call::Holds(Pred::Zero),
        Call::Holds(Pred::One),
        Call::Holds(Pred::AllOnes),
        Call::Holds(Pred::MinusOne),
        Call::Holds(Pred::Pow2),
        Call::Holds(Pred::True),
        Call::Holds(Pred::Cst),
        Call::Holds(Pred::Ssa),
        Call::TreeType,
        Call::TypePrecision,
        Call::ElementPrecision,
        Call::TypeSign,
        Call::TypeUnsigned,
        Call::IntegralType,
        Call::AnyIntegralType,
        Call::FloatType,
        Call::VectorType,
        Call::PointerType,
        Call::OverflowSanitized,
        Call::OverflowTraps,
        Call::OverflowUndefined,
        Call::OverflowWraps,
        Call::HasModePrecision,
        Call::TypesMatch,
        Call::NopConversion,
        Call::SignedTypeFor,
        Call::UnsignedTypeFor,
        Call::SingleUse,
        Call::CstSign,
        Call::ToWide,
        Call::Add,
        Call::Sub,
        Call::Mul,
        Call::Neg,
        Call::BitAnd,
        Call::BitOr,
        Call::BitXor,
        Call::BitNot,
        Call::Lshift,
        Call::Lrshift,
        Call::Arshift,
        Call::MinValue,
        Call::MaxValue,
        Call::Popcount,
        Call::Clz,
        Call::Ctz,
        Call::ExactLog2,
        Call::EqP,
        Call::NeP,
        Call::LtP,
        Call::LeP,
        Call::GtP,
        Call::GeP,
        Call::LtsP,
        Call::LtuP,
        Call::LesP,
        Call::LeuP,
        Call::GtsP,
        Call::GtuP,
        Call::GesP,
        Call::GeuP,
        Call::BuildZero,
        Call::BuildOne,
        Call::BuildMinusOne,
        Call::BuildAllOnes,
        Call::BuildInt,
        Call::ToTree,
    ];

    /// The call of this name, with `wi::` where it has that. `None` exactly where no call has the
    /// name.
    #[tactic(auto, unfolding(crate::specs::Calls::call_named))]
    pub fn from_name(name: &[u8]) -> Option<Call>
        ensures { result ≡ call_named name.now }
    {
        first_named(&Call::ALL, name)
    }

    /// Its name, with `wi::` where it has that.
    pub fn name(self) -> &'static str
        ensures { result.now ≡ call_name self }
    {
        match self {
            Call::Holds(pred) => pred.name(),
            Call::TreeType => "TREE_TYPE",
            Call::TypePrecision => "TYPE_PRECISION",
            Call::ElementPrecision => "element_precision",
            Call::TypeSign => "TYPE_SIGN",
            Call::TypeUnsigned => "TYPE_UNSIGNED",
            Call::IntegralType => "INTEGRAL_TYPE_P",
            Call::AnyIntegralType => "ANY_INTEGRAL_TYPE_P",
            Call::FloatType => "FLOAT_TYPE_P",
            Call::VectorType => "VECTOR_TYPE_P",
            Call::PointerType => "POINTER_TYPE_P",
            Call::OverflowSanitized => "TYPE_OVERFLOW_SANITIZED",
            Call::OverflowTraps => "TYPE_OVERFLOW_TRAPS",
            Call::OverflowUndefined => "TYPE_OVERFLOW_UNDEFINED",
            Call::OverflowWraps => "TYPE_OVERFLOW_WRAPS",
            Call::HasModePrecision => "type_has_mode_precision_p",
            Call::TypesMatch => "types_match",
            Call::NopConversion => "tree_nop_conversion_p",
            Call::SignedTypeFor => "signed_type_for",
            Call::UnsignedTypeFor => "unsigned_type_for",
            Call::SingleUse => "single_use",
            Call::CstSign => "tree_int_cst_sgn",
            Call::ToWide => "wi::to_wide",
            Call::Add => "wi::add",
            Call::Sub => "wi::sub",
            Call::Mul => "wi::mul",
            Call::Neg => "wi::neg",
            Call::BitAnd => "wi::bit_and",
            Call::BitOr => "wi::bit_or",
            Call::BitXor => "wi::bit_xor",
            Call::BitNot => "wi::bit_not",
            Call::Lshift => "wi::lshift",
            Call::Lrshift => "wi::lrshift",
            Call::Arshift => "wi::arshift",
            Call::MinValue => "wi::min_value",
            Call::MaxValue => "wi::max_value",
            Call::Popcount => "wi::popcount",
            Call::Clz => "wi::clz",
            Call::Ctz => "wi::ctz",
            Call::ExactLog2 => "wi::exact_log2",
            Call::EqP => "wi::eq_p",
            Call::NeP => "wi::ne_p",
            Call::LtP => "wi::lt_p",
            Call::LeP => "wi::le_p",
            Call::GtP => "wi::gt_p",
            Call::GeP => "wi::ge_p",
            Call::LtsP => "wi::lts_p",
            Call::LtuP => "wi::ltu_p",
            Call::LesP => "wi::les_p",
            Call::LeuP => "wi::leu_p",
            Call::GtsP => "wi::gts_p",
            Call::GtuP => "wi::gtu_p",
            Call::GesP => "wi::ges_p",
            Call::GeuP => "wi::geu_p",
            Call::BuildZero => "build_zero_cst",
            Call::BuildOne => "build_one_cst",
            Call::BuildMinusOne => "build_minus_one_cst",
            Call::BuildAllOnes => "build_all_ones_cst",
            Call::BuildInt => "build_int_cst",
            Call::ToTree => "wide_int_to_tree",
        }
    }
}

/// The first of these calls that has the name.
fn first_named(calls: &[Call], name: &[u8]) -> Option<Call>
    ensures { result ≡ find (λ call. bytes_eq (call_name call) name.now) calls.now }
{
    calls
        .iter()
        .copied()
        .find(|call| call.name().as_bytes() == name)
}
