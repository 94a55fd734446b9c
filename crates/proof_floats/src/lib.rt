//! Laws of floats that no program needs: sums and products depend on the order of their terms, so it has to be said which
//! order a reduction has; and what is printed of a float reads back as the same number.
#![tactic(auto)]

mod law;

pub use law::{floats_depend_on_order, texts_read_back};
