//! Files of events: the lines that say how a world of ranks is made and what happens in it, and how they are read.
//!
//! docs/EVENT_FILES.md describes them. Their language is this project's own.
#![tactic(auto)]

mod file;
mod hexadecimal;
mod parsing;
mod reading;
mod verb;

pub use file::{EventFile, EventLine, EventLines, EventStatement};
pub use parsing::parse;
pub use statements::{
    Action, Blocks, Broadcasting, BufferLine, CommunicatorName, Gathering, LayoutClause,
    LayoutForm, LayoutLine, OldLayout, Operation, Receiving, Reducing, ReducingToAll, RequestName,
    RequestNames, Scattering, Sending, Splitting, Stripes,
};
pub use tokens::{Name, ParseError};
