//! What a launcher and the keeper of a host's ranks tell one another: the words by which the keeper starts a rank's program,
//! what its standard input gets, what the program writes and how it ends.
#![tactic(auto)]

mod connections;
mod frame;
mod message;
mod order;
mod report;

pub use connections::{MOST_BEGINNING, keeper_of, may_connect};
pub use message::{FoundWords, message_text, words_in};
pub use order::{Order, OrderKind, next_order, push_order};
pub use report::{Report, ReportKind, next_report, push_report, told_end};
