//! The operations of reductions, and the fold of members' elements by one of them.
#![tactic(auto)]

mod floats;
mod folding;
mod operation;

pub use folding::{accumulate, fold};
pub use operation::{ReduceOp, Reduction};
