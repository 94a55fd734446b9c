//! Errors in words: which call was refused or which operation ended with an error, at which line, and why.
//!
//! Whoever runs a script hands in each call and its answer. What the answer doesn't tell is left out. The words are
//! this project's own; the numbers stand in docs/NUMBERS.md.
#![tactic(auto)]

mod collective_words;
mod lines;
mod message_words;
mod met_error;
mod operations;
mod outcomes;
mod refused;
mod types;

pub use lines::{error_line, uncalled_error};
pub use met_error::MetError;
pub use operations::{OpenOperation, OperationKind, Operations};
