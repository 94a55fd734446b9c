//! The texts of elements: integers and bytes in decimal, floats as their value in decimal, in full.
//!
//! No digit of a float's value is left out, so the text is exact, and two floats that differ in their last bit have
//! different texts.
#![tactic(auto)]

mod decimals;
mod digits;
mod parts;
mod value;

pub use value::ValueText;
