//! The replies of an engine: a blocked call's answer as the reply to it, and second ones of the same contents, for
//! those who take a reply that a world's history holds.
#![tactic(auto)]

mod copies;

pub use copies::{completion_as_reply, reply_copied, reply_of};
