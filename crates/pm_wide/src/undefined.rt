use thiserror::Error;

/// The operation has no value on these words.
#[derive(Clone, Copy, Debug, PartialEq, Eq, Error)]
#[error("the operation has no value on these words")]
pub struct Undefined;
