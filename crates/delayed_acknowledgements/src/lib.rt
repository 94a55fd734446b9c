//! Acknowledgements that a rank keeps back for a little while, since a later one may say all that they say: one
//! datagram then stands for several of them.
#![tactic(auto)]

mod acknowledgements;
mod delay;
mod delayed;

pub use crate::acknowledgements::{Acknowledgement, acknowledgement_in, covers, is_urgent};
pub use crate::delay::Delay;
pub use crate::delayed::{DelayedAcknowledgement, delayed_of, sent_before};
