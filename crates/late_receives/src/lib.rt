//! Receives that a program began and that no engine knows yet: which of them a message belongs to.
#![tactic(auto)]

mod row;

pub use row::{LateReceive, LateReceives};
