//! Scripts of ranks: the lines that say what the ranks of a program do, and how they are read.
//!
//! A script is the statements that files of events have too, and a few more; `on` says which ranks the lines behind it
//! are for. The language is this project's own.
#![tactic(auto)]

mod audience;
mod fields;
mod parsing;
mod reading;
mod script;
mod verb;

pub use audience::{Audience, AudienceMember, AudienceMembers};
pub use parsing::parse;
pub use script::{Item, RankLine, RankLines, Script, ScriptLine, ScriptStatement};
pub use statements::{
    Action, Blocks, Broadcasting, BufferLine, CommunicatorName, Gathering, LayoutClause,
    LayoutForm, LayoutLine, OldLayout, Operation, Receiving, Reducing, ReducingToAll, RequestName,
    RequestNames, Scattering, Sending, Splitting, Stripes,
};
pub use tokens::{Name, ParseError, Token, Tokens};
