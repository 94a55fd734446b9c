//! What the members of a communicator send one another in a collective, as bytes and as values.
#![tactic(auto)]

mod kind;
mod payload;
mod reading;
mod record;
mod refusal;
mod writing;

pub use payload::{Choice, Direction, NewGroup, Payload, PayloadContent};
pub use reading::read_payload;
pub use record::{Elements, RECORD_BYTES, Record, Rooted};
pub use refusal::PayloadRefusal;
pub use writing::write_payload;
