//! Statements: what ranks do, in the language that files of events and scripts of ranks share.
//!
//! Which words spell what a rank does stands here; which lines a file may have, each reader says for itself. The lines
//! and their words are those of `tokens`. The language is this project's own.
#![tactic(auto)]

mod action;
mod collective_line;
mod collective_reading;
mod communicator_reading;
mod fields;
mod front;
mod layout_line;
mod layout_reading;
mod probe_reading;
mod reading;
mod values;
mod verb;

pub use action::{
    Action, BufferLine, CommunicatorName, Landing, LayoutClause, Probing, Receiving, RequestName,
    RequestNames, Sending, Splitting,
};
pub use collective_line::{Broadcasting, Gathering, Reducing, ReducingToAll, Scattering};
pub use layout_line::{Blocks, LayoutForm, LayoutLine, OldLayout, Stripes};
pub use reading::{action_of, receiving_of, sending_of};
pub use tokens::{LineError, Name, ParseError, Token, Tokens};
pub use vocabulary::Operation;
