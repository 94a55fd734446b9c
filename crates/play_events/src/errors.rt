//! The errors that ranks are told of, as a play goes on.

use engine::Reply;
use error_lines::{MetError, Operations, uncalled_error};
use std::alloc::{AllocError, Global};
use std::collections::VecDeque;
use stepped_plays::PlayError;
use world::{Event, HistoryEntry};

/// An error that a rank was told of.
#[derive(Drop)]
pub struct ErrorAt {
    /// The rank.
    pub rank: u16,
    /// The number of the line at which it was told.
    pub line: usize,
    /// The error.
    pub error: MetError,
}

/// What is known of a rank's operations, and the errors that it was told of and hasn't printed yet.
#[derive(Drop)]
struct RankErrors {
    operations: Operations,
    waits_at: usize,
    unprinted: VecDeque<ErrorAt>,
}

/// The errors of all ranks so far.
#[derive(Drop)]
pub(crate) struct Errors {
    alloc: Global,
    ranks: Vec<RankErrors>,
    all: Vec<ErrorAt>,
}

/// How many of these lines tell an error.
fn count_errors(printed: &[u8]) -> usize {
    printed
        .split(|byte| *byte == b'\n')
        .filter(|line| line.starts_with(b"error "))
        .count()
}

impl RankErrors {
    fn new(alloc: Global) -> RankErrors {
        RankErrors {
            operations: Operations::new(alloc),
            waits_at: 0,
            unprinted: VecDeque::new(alloc),
        }
    }

    /// A rank was told of these errors at this line.
    fn add(&mut self, rank: u16, line: usize, met: Vec<MetError>) -> Result<(), AllocError> {
        for error in met {
            self.unprinted.push_back(ErrorAt { rank, line, error })?;
        }
        Ok(())
    }
}

impl Errors {
    /// None. The only error is want of memory.
    pub(crate) fn new(alloc: Global, size: u16) -> Result<Errors, AllocError> {
        let mut ranks = Vec::new(alloc);
        for _ in 0..size {
            ranks.push(RankErrors::new(alloc))?;
        }
        Ok(Errors {
            alloc,
            ranks,
            all: Vec::new(alloc),
        })
    }

    /// All errors that were printed, in order.
    pub(crate) fn into_all(self) -> Vec<ErrorAt> {
        let Errors {
            alloc: _,
            ranks,
            all,
        } = self;
        drop(ranks);
        all
    }

    /// A call that a rank made at this line was taken, as this entry of the history says.
    pub(crate) fn taken(
        &mut self,
        rank: u16,
        line: usize,
        entry: &HistoryEntry,
    ) -> Result<(), PlayError> {
        if let Some(at) = self.ranks.get_mut(rank as usize) {
            if let Event::Call(_, call) = &entry.event {
                at.waits_at = line;
                at.operations.on_call(line, call)?;
            }
            if let Some(reply) = &entry.reply {
                let met = at.operations.on_reply(reply)?;
                at.add(rank, line, met)?;
            }
        }
        self.completed(entry)
    }

    /// A call that a rank made at this line was refused with this reply, if it was.
    pub(crate) fn refused(
        &mut self,
        rank: u16,
        line: usize,
        reply: &Reply,
    ) -> Result<(), PlayError> {
        if let (Some(at), Reply::Refused(_, call)) = (self.ranks.get_mut(rank as usize), reply) {
            at.operations.on_call(line, call)?;
            let met = at.operations.on_reply(reply)?;
            at.add(rank, line, met)?;
        }
        Ok(())
    }

    /// The blocked call of a rank was answered, if this entry of the history says so.
    pub(crate) fn completed(&mut self, entry: &HistoryEntry) -> Result<(), PlayError> {
        let rank = entry.endpoint.rank;
        if let (Some(at), Some(completion)) = (
            self.ranks.get_mut(rank as usize),
            &entry.completion,
        ) {
            let met = at.operations.on_completion(completion)?;
            at.add(rank, at.waits_at, met)?;
        }
        Ok(())
    }

    /// A rank printed this at the line of this number and text, which isn't what the line says.
    pub(crate) fn printed(
        &mut self,
        rank: u16,
        line: usize,
        text: &[u8],
        printed: &[u8],
    ) -> Result<(), PlayError> {
        let Some(at) = self.ranks.get_mut(rank as usize) else {
            return Ok(());
        };
        for _ in 0..count_errors(printed) {
            match at.unprinted.pop_front() {
                Some(error) => self.all.push(error)?,
                None => {
                    if let Some(error) = uncalled_error(self.alloc, text, printed)? {
                        self.all.push(ErrorAt { rank, line, error })?;
                    }
                }
            }
        }
        Ok(())
    }
}
