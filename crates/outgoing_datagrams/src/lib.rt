//! The datagrams that a rank hands out: which go together, as runs of one length to one rank, and which acknowledgement
//! is kept back, since a later one may say all that it says.
#![tactic(auto)]

mod record;
mod run;
mod sending;

pub use record::OutgoingRecord;
pub use sending::Sending;
