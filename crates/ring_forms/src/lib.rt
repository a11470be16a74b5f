//! Ring forms of terms: sums of products of atoms, modulo a power of two; and exact forms, over
//! whole numbers.
#![tactic(auto)]

mod arithmetic;
mod atom;
mod differences;
mod equal;
mod exact;
mod form;
pub mod laws;
mod poly;
mod ring;
mod table;

pub use differences::{are_one_exactly, are_one_modulo, exact_number, ring_number};
pub use equal::ring_equal;
pub use exact::exact_form;
pub use poly::{Atom, Monomial, Poly};
