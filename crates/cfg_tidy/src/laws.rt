//! What the changes keep. Each call here does nothing: its contract is a law, which its check proves.
pub mod kept;
pub mod phis;
pub mod runs;
