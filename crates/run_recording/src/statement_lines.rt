//! What a line of a file of events asks for, as it stands beside a line of life.

use event_files::EventStatement;
use statements::Action;
use std::alloc::{AllocError, Global};

/// What a line asks for.
#[derive(Clone, Copy)]
pub enum Asked {
    /// A rank does something; told of or not, where nothing is answered.
    Rank(u16, bool),
    /// A datagram is delivered.
    Deliver(usize),
    /// A clock goes on.
    Tick(u16, u64),
    /// Stray bytes come to a rank.
    Stray(u16),
    /// A rank is started anew.
    Restart(u16),
}

/// What a statement asks for. A buffer or a type that is set isn't told of.
pub fn asked_of(statement: &EventStatement) -> Asked {
    match statement {
        EventStatement::Rank(rank, action) => {
            let is_silent = matches!(action, Action::Buffer(_) | Action::Layout(_));
            Asked::Rank(*rank, !is_silent)
        }
        EventStatement::Deliver(number) => Asked::Deliver(*number),
        EventStatement::Tick(rank, now) => Asked::Tick(*rank, *now),
        EventStatement::Stray(rank, _) => Asked::Stray(*rank),
        EventStatement::Restart(rank) => Asked::Restart(*rank),
    }
}
