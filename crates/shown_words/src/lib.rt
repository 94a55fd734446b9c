//! How a word or a line that isn't trusted is shown: its first 80 bytes, each that isn't printable ASCII as `?`.
//!
//! What the programs tell on the standard error shows words of a launch and lines of a script so. The rule is this
//! project's own.
#![tactic(auto)]

mod shown;

pub use shown::Shown;
