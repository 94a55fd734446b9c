//! Binomial trees over positions: the parent of a position above 0 is that position with its lowest binary digit 1 made
//! 0.
//!
//! `specs/` says what parents, children and subtrees are (`Trees`), and their laws (`TreeLaws`).
#![tactic(auto)]

mod laws;
mod tree;

pub use laws::trees_hold_together;
pub use tree::{children, parent, rotate, rotate_back};
