//! Owners that contracts see as what they hold: a `Vec` as its list, a `Box` and an `Rc` as their value.
//!
//! A type built of these is plain data to a contract: `≡` on it is 'field by field, without capacity and
//! sharing'. They are made from the plain container and give it back without taking memory.
#![tactic(auto)]

mod boxed;
mod items;
mod shared;

pub use boxed::Boxed;
pub use items::Items;
pub use shared::Shared;
