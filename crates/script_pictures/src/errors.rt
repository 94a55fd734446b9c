//! Why calls and operations failed, in words.

use engine::Reply;
use error_lines::{MetError, Operations, uncalled_error};
use std::alloc::{AllocError, Global};
use world::{Event, HistoryEntry};

/// What is known of the operations of each rank.
#[derive(Drop)]
pub(crate) struct Errors {
    ranks: Vec<Operations>,
}

impl Errors {
    /// No operations of so many ranks. The only error is want of memory.
    pub(crate) fn new(alloc: Global, size: u16) -> Result<Errors, AllocError> {
        let mut ranks = Vec::new(alloc);
        for _ in 0..size {
            ranks.push(Operations::new(alloc))?;
        }
        Ok(Errors { ranks })
    }

    /// The errors that the rank of the last event met in it, whose call, if it made one, stands on this line.
    pub(crate) fn met(
        &mut self,
        alloc: Global,
        line: usize,
        entry: &HistoryEntry,
    ) -> Result<Vec<MetError>, AllocError> {
        let Some(operations) = self.ranks.get_mut(usize::from(entry.endpoint.rank)) else {
            return Ok(Vec::new(alloc));
        };
        if let Event::Call(_, call) = &entry.event {
            operations.on_call(line, call)?;
        }
        match (&entry.completion, &entry.reply) {
            (Some(completion), _) => operations.on_completion(completion),
            (None, Some(reply)) => operations.on_reply(reply),
            (None, None) => Ok(Vec::new(alloc)),
        }
    }

    /// The error of a call that a rank made at this line, where the reply refuses it.
    pub(crate) fn refused(
        &mut self,
        alloc: Global,
        rank: u16,
        line: usize,
        reply: &Reply,
    ) -> Result<Vec<MetError>, AllocError> {
        match (self.ranks.get_mut(usize::from(rank)), reply) {
            (Some(operations), Reply::Refused(_, call)) => {
                operations.on_call(line, call)?;
                operations.on_reply(reply)
            }
            _ => Ok(Vec::new(alloc)),
        }
    }
}
