//! Elements of C programs combined by the operations of reductions.
#![tactic(auto)]

mod fold;

pub use fold::{fold_elements, regroups};
