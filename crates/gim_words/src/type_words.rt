//! What the words of a type say, one after the other.

ghost use Rattle.std.specs.Prelude.{◌≡◌};
ghost use Rattle.gim_words.specs.TypeReaders.{size_after, words_after, signed_type_of, unsigned_type_of, type_of};

use gim_text::TypeWord;
use pm_wide::IntType;

/// What the words so far say of the sign.
#[derive(Clone, Copy, Debug, PartialEq, Eq)]
pub(crate) enum SignWords {
    NoSign,
    SaysSigned,
    SaysUnsigned,
}

/// What the words so far say of the size.
#[derive(Clone, Copy, Debug, PartialEq, Eq)]
pub(crate) enum SizeWords {
    NoSize,
    SaysChar,
    SaysShort,
    SaysShortInt,
    SaysInt,
    SaysLong,
    SaysLongInt,
    SaysLongLong,
    SaysLongLongInt,
    SaysInt128,
}

/// The words so far.
#[derive(Clone, Copy, Debug, PartialEq, Eq)]
pub(crate) enum TypeWords {
    SaysBool,
    SaysInteger(SignWords, SizeWords),
}

/// What a further word makes of the size, if it may follow.
fn size_after(size: SizeWords, word: TypeWord) -> Option<SizeWords>
    ensures { result ≡ size_after size word }
{
    match (size, word) {
        (SizeWords::NoSize, TypeWord::Char) => Some(SizeWords::SaysChar),
        (SizeWords::NoSize, TypeWord::Short) => Some(SizeWords::SaysShort),
        (SizeWords::NoSize, TypeWord::Int) => Some(SizeWords::SaysInt),
        (SizeWords::NoSize, TypeWord::Long) => Some(SizeWords::SaysLong),
        (SizeWords::NoSize, TypeWord::Int128) => Some(SizeWords::SaysInt128),
        (SizeWords::SaysShort, TypeWord::Int) => Some(SizeWords::SaysShortInt),
        (SizeWords::SaysInt, TypeWord::Short) => Some(SizeWords::SaysShortInt),
        (SizeWords::SaysInt, TypeWord::Long) => Some(SizeWords::SaysLongInt),
        (SizeWords::SaysLong, TypeWord::Int) => Some(SizeWords::SaysLongInt),
        (SizeWords::SaysLong, TypeWord::Long) => Some(SizeWords::SaysLongLong),
        (SizeWords::SaysLongInt, TypeWord::Long) => Some(SizeWords::SaysLongLongInt),
        (SizeWords::SaysLongLong, TypeWord::Int) => Some(SizeWords::SaysLongLongInt),
        _ => None,
    }
}

/// What a further word makes of the words so far, if it may follow: `_Bool` stands alone, and of `signed`
/// and `unsigned` at most one stands in a type.
pub(crate) fn words_after(words: TypeWords, word: TypeWord) -> Option<TypeWords>
    ensures { result ≡ words_after words word }
{
    let TypeWords::SaysInteger(sign, size) = words else {
        return None;
    };
    match (sign, word) {
        (SignWords::NoSign, TypeWord::Signed) => Some(TypeWords::SaysInteger(
            SignWords::SaysSigned,
            size,
        )),
        (SignWords::NoSign, TypeWord::Unsigned) => Some(TypeWords::SaysInteger(
            SignWords::SaysUnsigned,
            size,
        )),
        (SignWords::NoSign, TypeWord::BoolWord) if size == SizeWords::NoSize => Some(
            TypeWords::SaysBool,
        ),
        _ => {
            let size = size_after(size, word)?;
            Some(TypeWords::SaysInteger(sign, size))
        }
    }
}

/// The type without `unsigned`: `int` where the words say no other size.
fn signed_type_of(size: SizeWords) -> IntType
    ensures { result ≡ signed_type_of size }
{
    match size {
        SizeWords::NoSize | SizeWords::SaysInt => IntType::int(),
        SizeWords::SaysChar => IntType::signed_char(),
        SizeWords::SaysShort | SizeWords::SaysShortInt => IntType::short(),
        SizeWords::SaysLong | SizeWords::SaysLongInt => IntType::long(),
        SizeWords::SaysLongLong | SizeWords::SaysLongLongInt => IntType::long(),
        SizeWords::SaysInt128 => IntType::int128(),
    }
}

/// The type with `unsigned`.
fn unsigned_type_of(size: SizeWords) -> IntType
    ensures { result ≡ unsigned_type_of size }
{
    match size {
        SizeWords::NoSize | SizeWords::SaysInt => IntType::unsigned_int(),
        SizeWords::SaysChar => IntType::unsigned_char(),
        SizeWords::SaysShort | SizeWords::SaysShortInt => IntType::unsigned_short(),
        SizeWords::SaysLong | SizeWords::SaysLongInt => IntType::unsigned_long(),
        SizeWords::SaysLongLong | SizeWords::SaysLongLongInt => IntType::unsigned_long(),
        SizeWords::SaysInt128 => IntType::unsigned_int128(),
    }
}

/// The type that the words make up; none where there is no word.
pub(crate) fn type_of(words: TypeWords) -> Option<IntType>
    ensures { result ≡ type_of words }
{
    match words {
        TypeWords::SaysBool => Some(IntType::boolean()),
        TypeWords::SaysInteger(SignWords::NoSign, SizeWords::NoSize) => None,
        TypeWords::SaysInteger(SignWords::SaysUnsigned, size) => Some(unsigned_type_of(size)),
        TypeWords::SaysInteger(_, size) => Some(signed_type_of(size)),
    }
}
