//! What a reader of tokens answers where it stops.

ghost use Rattle.std.specs.Prelude.{◌≡◌};
ghost use Rattle.grammar.specs.declared.stop.Stop.TheVariants as stops;

use std::alloc::{AllocError, AllocFailed};

/// A token that offends, or an input that ends too early.
#[derive(Clone, Copy, Debug)]
pub struct Fault<'a, T, E> {
    /// What is wrong.
    pub kind: E,
    /// The tokens from the offending one on; none where the input ends too early.
    pub rest: &'a [T],
}

/// Why a reader that takes memory stopped.
#[derive(Clone, Copy, Debug)]
pub enum Stop<'a, T, E> {
    /// Memory ran out.
    Memory,
    /// A token offends.
    Fault(Fault<'a, T, E>),
}

/// A fault of a part that takes no memory.
impl<'a, T, E> From<Fault<'a, T, E>> for Stop<'a, T, E> {
    ghost from_gives = { λ fault e. e ≡ stops.Fault fault };

    fn from(fault: Fault<'a, T, E>) -> Self {
        Stop::Fault(fault)
    }
}

/// Want of memory.
impl<T, E> From<AllocError> for Stop<'_, T, E> {
    ghost from_gives = { λ _ e. e ≡ stops.Memory };

    fn from(_error: AllocError) -> Self {
        Stop::Memory
    }
}

/// Want of memory, where a value could not be placed.
impl<X: Drop, T, E> From<AllocFailed<X>> for Stop<'_, T, E> {
    ghost from_gives = { λ _ e. e ≡ stops.Memory };

    fn from(_error: AllocFailed<X>) -> Self {
        Stop::Memory
    }
}
