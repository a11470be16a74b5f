//! What holds where runs come, and which changes keep every defined run. Each call in these modules
//! does nothing: its contract is a law, which its check proves.

pub mod all_runs;
pub mod changes;
pub mod points;
pub mod terms;
pub mod uses;
pub mod values;
