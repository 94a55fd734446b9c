//! A box in its parts, so that its pointer can be kept where a box can't: in a struct that C holds between calls.
#![tactic(auto)]

mod loose;

pub use loose::LooseBox;
