ghost use Rattle.std.specs.Prelude.{◌≡◌};
ghost use Rattle.pm_ops.specs.Faults.{kind_name, memory_fault};

use crate::memory::OutOfMemory;
use std::alloc::{AllocError, AllocFailed};
use thiserror::Error;

/// What is wrong with a pattern file, or that memory ran out while it was read.
///
/// A file is read in stages: bytes, lexing, depth, syntax, names, types and expansion. The first
/// stage with a fault answers, with its first place in file order.
#[derive(Clone, Copy, Debug, PartialEq, Eq, Error)]
pub enum PatternKind {
    /// Memory ran out.
    #[error("out of memory")]
    Memory,
    /// Bytes: the file has more than 4,194,304 bytes.
    #[error("the file is too long")]
    TooLong,
    /// Lexing: no token begins at this byte.
    #[error("no token begins here")]
    BadByte,
    /// Lexing: a `/*` without its end.
    #[error("a comment without its end")]
    OpenComment,
    /// Lexing: a `"` without a second one on its line.
    #[error("a text without its end")]
    OpenString,
    /// Lexing: a number above 2^63 - 1.
    #[error("a number above 2^63 - 1")]
    LongNumber,
    /// Lexing: a `#` line that is no known directive or is out of place, or an `#if` that isn't
    /// ended.
    #[error("a directive that is unknown, out of place or not ended")]
    Directive,
    /// Depth: the 65th parenthesis or brace open at once.
    #[error("parentheses and braces are nested too deep")]
    TooDeep,
    /// Syntax: the first token, or the end, that no pattern file has there.
    #[error("this stands in no pattern file here")]
    Syntax,
    /// Syntax: the same within a C part.
    #[error("this stands in no C part here")]
    CSyntax,
    /// Names: a head that is no operation, list, `for` identifier or predicate that may stand
    /// there; an unknown entry of a list.
    #[error("an unknown operator")]
    UnknownOperator,
    /// Names: a predicate that is neither known nor defined above, or used in its own case.
    #[error("an unknown predicate")]
    UnknownPredicate,
    /// Names: a capture in a result, condition or parameter list that the pattern hasn't, or any in
    /// the condition of an `if` around forms.
    #[error("a capture that the pattern has not")]
    UnboundCapture,
    /// Names: a wrong number of operands, parameters or arguments; operators of unequal arity in
    /// one list; cases of one predicate with unequal numbers of parameters.
    #[error("a wrong number of operands")]
    BadArity,
    /// Names: a flag, a `?`, a `!` or an outermost capture where none may stand.
    #[error("a flag that may not stand here")]
    BadFlag,
    /// Names: an argument that isn't a plain capture, for a parameter that isn't free.
    #[error("an argument that is no plain capture")]
    BadArgument,
    /// Names: a list, `for` identifier, user predicate or parameter whose name is taken.
    #[error("a name that is taken")]
    DuplicateName,
    /// Names: a further case of a predicate that a form above has used.
    #[error("a case after the predicate was used")]
    LateCase,
    /// Depth: a form, or the condition of an `if` around forms, of more than 1,024 tokens.
    #[error("a form of too many tokens")]
    TooManyTokens,
    /// Names and expansion: more than 32 captures in a row.
    #[error("too many captures")]
    TooManyCaptures,
    /// Names and expansion: more than 32 operations in a pattern, or 16 in a leaf of a result.
    #[error("too many nodes")]
    TooManyNodes,
    /// Names: an unknown name or call in a C part.
    #[error("an unknown name in a C part")]
    CName,
    /// Types: a type name that is no type, or a node without a type.
    #[error("the type is unknown")]
    TypeUnknown,
    /// Types: an argument or operand in a C part of a wrong static type, or a wrong number of
    /// arguments.
    #[error("a wrong type in a C part")]
    CType,
    /// Expansion: an operator list without entries.
    #[error("a list without entries")]
    EmptyList,
    /// Expansion: a list whose length doesn't divide the longest of its `for`.
    #[error("lists whose lengths do not divide the longest")]
    ListLengths,
    /// Expansion: a commuting flag on an operation that in some row neither commutes nor compares.
    #[error("an operation that does not commute")]
    NotCommutative,
    /// Expansion: more than 65,536 rows of a file or a predicate, or choices of a form.
    #[error("too many rows")]
    TooManyRows,
}

impl PatternKind {
    /// The word for this kind in a report line, which is the variant's name.
    pub fn name(self) -> &'static str
        ensures { result.now ≡ kind_name self }
    {
        match self {
            PatternKind::Memory => "Memory",
            PatternKind::TooLong => "TooLong",
            PatternKind::BadByte => "BadByte",
            PatternKind::OpenComment => "OpenComment",
            PatternKind::OpenString => "OpenString",
            PatternKind::LongNumber => "LongNumber",
            PatternKind::Directive => "Directive",
            PatternKind::TooDeep => "TooDeep",
            PatternKind::Syntax => "Syntax",
            PatternKind::CSyntax => "CSyntax",
            PatternKind::UnknownOperator => "UnknownOperator",
            PatternKind::UnknownPredicate => "UnknownPredicate",
            PatternKind::UnboundCapture => "UnboundCapture",
            PatternKind::BadArity => "BadArity",
            PatternKind::BadFlag => "BadFlag",
            PatternKind::BadArgument => "BadArgument",
            PatternKind::DuplicateName => "DuplicateName",
            PatternKind::LateCase => "LateCase",
            PatternKind::TooManyTokens => "TooManyTokens",
            PatternKind::TooManyCaptures => "TooManyCaptures",
            PatternKind::TooManyNodes => "TooManyNodes",
            PatternKind::CName => "CName",
            PatternKind::TypeUnknown => "TypeUnknown",
            PatternKind::CType => "CType",
            PatternKind::EmptyList => "EmptyList",
            PatternKind::ListLengths => "ListLengths",
            PatternKind::NotCommutative => "NotCommutative",
            PatternKind::TooManyRows => "TooManyRows",
        }
    }
}

/// A fault of a pattern file: its kind, and the bytes concerned.
#[derive(Clone, Copy, Debug, PartialEq, Eq, Error)]
#[error("{kind}, at byte {at}")]
pub struct PatternFault {
    /// What is wrong.
    pub kind: PatternKind,
    /// Where the token or name concerned begins, in bytes from the beginning of the file, from 0.
    /// For want of memory it is 0.
    pub at: usize,
    /// How many bytes the token or name has. It is 0 at the end of input, where the tokens given to
    /// a reader of C parts end too early, and for `Memory`, `TooLong`, `BadByte`, `OpenComment`,
    /// `OpenString` and `Directive`.
    pub len: usize,
}

impl PatternFault {
    /// Want of memory, which has no place.
    const MEMORY: PatternFault = PatternFault {
        kind: PatternKind::Memory,
        at: 0,
        len: 0,
    };
}

impl From<OutOfMemory> for PatternFault {
    ghost from_gives = { λ _ fault. fault ≡ memory_fault };

    fn from(_error: OutOfMemory) -> PatternFault {
        PatternFault::MEMORY
    }
}

impl From<AllocError> for PatternFault {
    ghost from_gives = { λ _ fault. fault ≡ memory_fault };

    fn from(_error: AllocError) -> PatternFault {
        PatternFault::MEMORY
    }
}

impl<T: Drop> From<AllocFailed<T>> for PatternFault {
    ghost from_gives = { λ _ fault. fault ≡ memory_fault };

    fn from(_error: AllocFailed<T>) -> PatternFault {
        PatternFault::MEMORY
    }
}
