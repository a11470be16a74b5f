//! The limits of functions that are read. Definitions and proofs cite them by these names.

/// The most blocks of a function.
pub const BLOCK_LIMIT: usize = 2_000;

/// The most names of a function.
pub const NAME_LIMIT: usize = 20_000;

/// One more than the greatest version and the greatest block number.
pub const NUMBER_LIMIT: u64 = 1_000_000_000;
