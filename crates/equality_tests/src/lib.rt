//! Tests of the equalities of terms, over one reading of texts: by ring forms and by bit tables; and of exact forms.
#![tactic(auto)]

#[cfg(test)]
mod bit_table_tests;
#[cfg(test)]
mod exact_form_tests;
#[cfg(test)]
mod ring_form_tests;
#[cfg(test)]
mod terms;
