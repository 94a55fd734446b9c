//! The interpreter of statements: which names of a rank a statement reads and sets, what it asks of the rank's engine,
//! and what is made of the answer. It serves scripts of ranks and files of events alike.
//!
//! A statement is acted on by `Names::act`, which answers the next step, or none where the statement can't be followed.
//! Where that is a call, whoever calls the engine keeps what the answer is for, and hands both in to `Names::hear` once
//! the answer is here; that answers the next step again.
#![tactic(auto)]

mod answers;
mod calls;
mod collective_calls;
mod names;
mod numbers;
mod outcomes;
mod steps;

pub use names::Names;
pub use steps::{ErrorNumbers, NextStep, PendingCall, Told};
