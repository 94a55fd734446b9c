//! Numbers in words: decimal digits, at least one, without leading zeros.
//!
//! The words of the programs and the lines of their files spell numbers so. The rule is this project's own.
#![tactic(auto)]

mod number;

pub use number::{is_numeral, number_between, numeral_value};
