//! Why a GIMPLE file is refused.

ghost use Rattle.std.specs.Prelude.{◌≡◌};
ghost use Rattle.gim_text.specs.Faults.{memory_fault, fault_at};

use crate::token::Token;
use grammar::Fault;
use pm_ops::OutOfMemory;
use pm_places::Span;
use std::alloc::{AllocError, AllocFailed};
use thiserror::Error;

/// What is wrong with a GIMPLE file. docs/GIMPLE.md says exactly where each comes.
#[derive(Clone, Copy, Debug, PartialEq, Eq, Error)]
pub enum GimpleKind {
    #[error("out of memory")]
    Memory,
    #[error("no token begins here")]
    Lex,
    #[error("syntax error")]
    Syntax,
    #[error("not supported")]
    Unsupported,
    #[error("redefined")]
    Redefined,
    #[error("undeclared")]
    Undeclared,
    #[error("the literal is too wide")]
    WideLiteral,
    #[error("no such block")]
    MissingBlock,
    #[error("the phi does not fit its block")]
    BadPhi,
    #[error("the block has no end")]
    NoReturn,
    #[error("the types do not fit")]
    TypeMismatch,
    #[error("too large")]
    TooLarge,
}

/// A fault at the bytes from `at` of length `len`, which are the token or name concerned.
#[derive(Clone, Copy, Debug, PartialEq, Eq, Error)]
#[error("{kind} at byte {at}")]
pub struct GimpleFault {
    pub kind: GimpleKind,
    pub at: usize,
    /// 0 at the end of the input, for Lex and Memory, and for a file above its limit.
    pub len: usize,
}

impl GimpleFault {
    /// A fault of this kind at a place.
    pub fn at(kind: GimpleKind, span: Span) -> GimpleFault
        ensures { result ≡ fault_at kind span }
    {
        GimpleFault {
            kind,
            at: span.from,
            len: span.to.saturating_sub(span.from),
        }
    }

    /// Want of memory.
    pub fn memory() -> GimpleFault
        ensures { result ≡ memory_fault }
    {
        GimpleFault {
            kind: GimpleKind::Memory,
            at: 0,
            len: 0,
        }
    }
}

impl From<OutOfMemory> for GimpleFault {
    ghost from_gives = { λ _ e. e ≡ memory_fault };

    fn from(_error: OutOfMemory) -> GimpleFault {
        GimpleFault::memory()
    }
}

impl From<AllocError> for GimpleFault {
    ghost from_gives = { λ _ e. e ≡ memory_fault };

    fn from(_error: AllocError) -> GimpleFault {
        GimpleFault::memory()
    }
}

impl<T: Drop> From<AllocFailed<T>> for GimpleFault {
    ghost from_gives = { λ _ e. e ≡ memory_fault };

    fn from(_error: AllocFailed<T>) -> GimpleFault {
        GimpleFault::memory()
    }
}

/// A token that offends, or tokens that end too early.
pub type TokenFault<'a> = Fault<'a, Token, ()>;

/// Why a reader of tokens that takes memory stopped.
pub type TokenStop<'a> = grammar::Stop<'a, Token, ()>;
