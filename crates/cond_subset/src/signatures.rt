//! What operators and calls take, and what they give: the static types.

ghost use Rattle.std.specs.Prelude.{◌≡◌};
ghost use Rattle.cond_subset.specs.Signatures as signatures;

use pd_ast::{BinaryOperator, CType, Call, UnaryOperator};

/// The arguments that a call takes.
#[derive(Clone, Copy, Debug, PartialEq, Eq)]
pub enum Arguments {
    /// An operand.
    Operand,
    /// A type.
    Type,
    /// A type or an operand.
    Typed,
    /// Two types.
    TwoTypes,
    /// Two, each a type or an operand.
    TwoTyped,
    /// A word.
    Word,
    /// Two words, or a word and a whole number in any order.
    TwoWords,
    /// The same, and the sign by which they are read.
    TwoWordsAndSign,
    /// A word and a whole number.
    WordAndCount,
    /// A type and a whole number.
    TypeAndNumber,
    /// A type and a word.
    TypeAndWord,
}

/// The type of an operator's result, where it takes this type.
pub fn unary_type(operator: UnaryOperator, a: CType) -> Option<CType>
    ensures { result ≡ signatures.unary_type operator a }
{
    match (operator, a) {
        (UnaryOperator::Not, CType::Truth) => Some(CType::Truth),
        (UnaryOperator::Complement, CType::WideRef) => Some(CType::WideRef),
        (UnaryOperator::Negate, CType::Int) => Some(CType::Int),
        (UnaryOperator::Negate, CType::WideRef) => Some(CType::WideRef),
        _ => None,
    }
}

/// The type of a sum, a difference or a product.
fn sum_type(a: CType, b: CType) -> Option<CType>
    ensures { result ≡ signatures.sum_type a b }
{
    match (a, b) {
        (CType::Int, CType::Int) => Some(CType::Int),
        (CType::WideRef, CType::WideRef)
        | (CType::WideRef, CType::Int)
        | (CType::Int, CType::WideRef) => Some(CType::WideRef),
        _ => None,
    }
}

/// Whether values of the two types may be compared by `==` and `!=`.
fn are_comparable(a: CType, b: CType) -> bool
    ensures { result ≡ signatures.are_comparable a b }
{
    match (a, b) {
        (CType::Truth, CType::Truth)
        | (CType::Int, CType::Int)
        | (CType::TypeRef, CType::TypeRef)
        | (CType::WideRef, CType::WideRef)
        | (CType::Sign, CType::Sign)
        | (CType::CodeRef, CType::CodeRef)
        | (CType::WideRef, CType::Int)
        | (CType::Int, CType::WideRef) => true,
        _ => false,
    }
}

/// The type of an operator's result, where both types are this one.
fn both(wanted: CType, a: CType, b: CType, gives: CType) -> Option<CType>
    ensures { result ≡ signatures.both wanted a b gives }
{
    if a == wanted && b == wanted {
        Some(gives)
    } else {
        None
    }
}

/// The type of an operator's result, where it takes these types.
pub fn binary_type(operator: BinaryOperator, a: CType, b: CType) -> Option<CType>
    ensures { result ≡ signatures.binary_type operator a b }
{
    match operator {
        BinaryOperator::Or | BinaryOperator::And => both(CType::Truth, a, b, CType::Truth),
        BinaryOperator::BitOr | BinaryOperator::BitXor | BinaryOperator::BitAnd => {
            both(CType::WideRef, a, b, CType::WideRef)
        }
        BinaryOperator::Lt | BinaryOperator::Le | BinaryOperator::Gt | BinaryOperator::Ge => {
            both(CType::Int, a, b, CType::Truth)
        }
        BinaryOperator::Eq | BinaryOperator::Ne => {
            if are_comparable(a, b) {
                Some(CType::Truth)
            } else {
                None
            }
        }
        BinaryOperator::Plus | BinaryOperator::Minus | BinaryOperator::Times => sum_type(a, b),
    }
}

/// The arguments that a call takes, and the type of what it gives.
pub fn signature(call: Call) -> (Arguments, CType)
    ensures { result ≡ signatures.signature call }
{
    match call {
        Call::Holds(_) | Call::SingleUse => (Arguments::Operand, CType::Truth),
        Call::TreeType => (Arguments::Operand, CType::TypeRef),
        Call::TypePrecision => (Arguments::Type, CType::Int),
        Call::ElementPrecision => (Arguments::Typed, CType::Int),
        Call::TypeSign => (Arguments::Type, CType::Sign),
        Call::TypeUnsigned
        | Call::IntegralType
        | Call::AnyIntegralType
        | Call::FloatType
        | Call::VectorType
        | Call::PointerType
        | Call::OverflowSanitized
        | Call::OverflowTraps
        | Call::OverflowUndefined
        | Call::OverflowWraps
        | Call::HasModePrecision => (Arguments::Type, CType::Truth),
        Call::TypesMatch => (Arguments::TwoTyped, CType::Truth),
        Call::NopConversion => (Arguments::TwoTypes, CType::Truth),
        Call::SignedTypeFor | Call::UnsignedTypeFor => (Arguments::Type, CType::TypeRef),
        Call::CstSign => (Arguments::Operand, CType::Int),
        Call::ToWide => (Arguments::Operand, CType::WideRef),
        Call::Add | Call::Sub | Call::Mul | Call::BitAnd | Call::BitOr | Call::BitXor => (
            Arguments::TwoWords,
            CType::WideRef,
        ),
        Call::Neg | Call::BitNot => (Arguments::Word, CType::WideRef),
        Call::Lshift | Call::Lrshift | Call::Arshift => (Arguments::WordAndCount, CType::WideRef),
        Call::MinValue | Call::MaxValue => (Arguments::Type, CType::WideRef),
        Call::Popcount | Call::Clz | Call::Ctz | Call::ExactLog2 => (Arguments::Word, CType::Int),
        Call::EqP
        | Call::NeP
        | Call::LtsP
        | Call::LtuP
        | Call::LesP
        | Call::LeuP
        | Call::GtsP
        | Call::GtuP
        | Call::GesP
        | Call::GeuP => (Arguments::TwoWords, CType::Truth),
        Call::LtP | Call::LeP | Call::GtP | Call::GeP => (Arguments::TwoWordsAndSign, CType::Truth),
        Call::BuildZero | Call::BuildOne | Call::BuildMinusOne | Call::BuildAllOnes => (
            Arguments::Type,
            CType::Oper,
        ),
        Call::BuildInt => (Arguments::TypeAndNumber, CType::Oper),
        Call::ToTree => (Arguments::TypeAndWord, CType::Oper),
    }
}

/// Whether this is a type, or an operand, which has one.
fn has_type(ty: CType) -> bool
    ensures { result ≡ signatures.has_type ty }
{
    match ty {
        CType::TypeRef | CType::Oper => true,
        _ => false,
    }
}

/// Whether these are two words, or a word and a whole number.
fn are_words(a: CType, b: CType) -> bool
    ensures { result ≡ signatures.are_words a b }
{
    match (a, b) {
        (CType::WideRef, CType::WideRef)
        | (CType::WideRef, CType::Int)
        | (CType::Int, CType::WideRef) => true,
        _ => false,
    }
}

/// Whether arguments of these types are such.
pub(crate) fn fit(arguments: Arguments, types: &[CType]) -> bool
    ensures { result ≡ signatures.fit arguments types.now }
{
    match (arguments, types) {
        (Arguments::Operand, [CType::Oper]) => true,
        (Arguments::Type, [CType::TypeRef]) => true,
        (Arguments::Typed, [a]) => has_type(*a),
        (Arguments::TwoTypes, [CType::TypeRef, CType::TypeRef]) => true,
        (Arguments::TwoTyped, [a, b]) => has_type(*a) && has_type(*b),
        (Arguments::Word, [CType::WideRef]) => true,
        (Arguments::TwoWords, [a, b]) => are_words(*a, *b),
        (Arguments::TwoWordsAndSign, [a, b, CType::Sign]) => are_words(*a, *b),
        (Arguments::WordAndCount, [CType::WideRef, CType::Int]) => true,
        (Arguments::TypeAndNumber, [CType::TypeRef, CType::Int]) => true,
        (Arguments::TypeAndWord, [CType::TypeRef, CType::WideRef]) => true,
        _ => false,
    }
}

/// The type of what a call gives of arguments of these types.
pub fn call_type(call: Call, types: &[CType]) -> Option<CType>
    ensures { result ≡ signatures.call_type call types.now }
{
    let (arguments, gives) = signature(call);
    if fit(arguments, types) {
        Some(gives)
    } else {
        None
    }
}
