//! A file of events, line by line.

use crate::lines::{ScriptLines, behind_verb};
use script_files::{RankLine, ScriptStatement};
use std::alloc::{AllocError, Global};

/// A file of events that is being written.
#[derive(Drop)]
pub(crate) struct EventFile {
    alloc: Global,
    own: String,
    text: Vec<u8>,
}

/// A name for the requests of `send` and `recv`, which the script has nowhere.
fn own_name(alloc: Global, lines: &ScriptLines<'_>) -> Result<String, AllocError> {
    for number in 0..10_000u32 {
        let name = format!(in alloc; "own{number}")?;
        if !lines.has(name.as_bytes()) {
            return Ok(name);
        }
    }
    String::from_str(alloc, "own")
}

impl EventFile {
    /// The first line.
    pub(crate) fn new(
        alloc: Global,
        lines: &ScriptLines<'_>,
        size: usize,
    ) -> Result<EventFile, AllocError> {
        let first = format!(in alloc; "world {size}\n")?;
        Ok(EventFile {
            alloc,
            own: own_name(alloc, lines)?,
            text: first.into_bytes(),
        })
    }

    /// The text.
    pub(crate) fn into_text(self) -> Vec<u8> {
        let EventFile {
            alloc: _,
            own,
            text,
        } = self;
        drop(own);
        text
    }

    fn add(&mut self, line: &str) -> Result<(), AllocError> {
        self.text.extend_from_slice(line.as_bytes())?;
        Ok(())
    }

    /// A datagram is delivered.
    pub(crate) fn deliver(&mut self, number: usize) -> Result<(), AllocError> {
        let line = format!(in self.alloc; "deliver {number}\n")?;
        self.add(line.as_str())
    }

    /// A clock goes on.
    pub(crate) fn tick(&mut self, rank: u16, now: u64) -> Result<(), AllocError> {
        let line = format!(in self.alloc; "tick {rank} {now}\n")?;
        self.add(line.as_str())
    }

    /// A rank waits for its own request.
    pub(crate) fn wait(&mut self, rank: u16) -> Result<(), AllocError> {
        let own = self.own.as_str();
        let line = format!(in self.alloc; "{rank} wait {own}\n")?;
        self.add(line.as_str())
    }

    fn front(&mut self, rank: u16) -> Result<(), AllocError> {
        let line = format!(in self.alloc; "{rank} ")?;
        self.add(line.as_str())
    }

    fn starts(&mut self, rank: u16, verb: &str, text: &[u8]) -> Result<(), AllocError> {
        let own = self.own.as_str();
        let line = format!(in self.alloc; "{rank} {verb} {own}")?;
        self.add(line.as_str())?;
        self.text.extend_from_slice(behind_verb(text))?;
        self.text.push(b'\n')?;
        Ok(())
    }

    /// A rank does what a line of the script says, whose text this is.
    pub(crate) fn statement(
        &mut self,
        rank: u16,
        line: &RankLine,
        text: &[u8],
    ) -> Result<(), AllocError> {
        match &line.statement {
            ScriptStatement::Action(_) => {
                self.front(rank)?;
                self.text.extend_from_slice(text)?;
                self.text.push(b'\n')?;
                Ok(())
            }
            ScriptStatement::Send(_) => self.starts(rank, "isend", text),
            ScriptStatement::Recv(_) => self.starts(rank, "irecv", text),
            _ => Ok(()),
        }
    }
}
