//! The lines that each rank runs.

use script_files::{Item, Script, ScriptLine, ScriptStatement};
use statements::Action;
use std::alloc::{AllocError, Global};
use vocabulary::Source;

/// The lines that a rank runs at its first incarnation, in order.
#[derive(Drop)]
pub(crate) struct OwnLines<'s> {
    lines: Vec<&'s ScriptLine>,
}

/// The lines of this script for this rank.
pub(crate) fn lines_of<'s>(
    alloc: Global,
    script: &'s Script,
    rank: u16,
) -> Result<OwnLines<'s>, AllocError> {
    let mut lines = Vec::new(alloc);
    let mut is_here = true;
    for line in script.lines() {
        match &line.item {
            Item::On(audience) => is_here = audience.includes(rank, 0),
            Item::Does(_) => {
                if is_here {
                    lines.push(line)?;
                }
            }
        }
    }
    Ok(OwnLines { lines })
}

impl<'s> OwnLines<'s> {
    /// The line that was taken last where so many are left.
    pub(crate) fn taken_last(&self, left: usize) -> Option<&'s ScriptLine> {
        let taken = self.lines.len().saturating_sub(left);
        self.lines.get(taken.wrapping_sub(1)).copied()
    }
}

/// How a statement is drawn.
#[derive(Clone, Copy, Debug, PartialEq, Eq)]
pub(crate) enum Manner {
    /// Not at all: it changes names alone.
    Silent,
    /// It says itself what it prints.
    Says,
    /// A send, of which nothing is told where it is finished at once.
    Sends,
    /// A receive that names its source and its tag: of its message the data are told.
    ReceivesNamed,
    /// With its answer.
    Answers,
}

/// How a statement is drawn.
pub(crate) fn manner_of(statement: &ScriptStatement) -> Manner {
    match statement {
        ScriptStatement::Action(action) => {
            if matches!(action, Action::Buffer(_) | Action::Layout(_)) {
                Manner::Silent
            } else {
                Manner::Answers
            }
        }
        ScriptStatement::Send(_) => Manner::Sends,
        ScriptStatement::Recv(receiving) => {
            if receiving.source != Source::Any && receiving.tag.is_some() {
                Manner::ReceivesNamed
            } else {
                Manner::Answers
            }
        }
        ScriptStatement::Say(_) => Manner::Says,
        _ => Manner::Answers,
    }
}

/// What a line asks its ranks to do; none of an `on`.
pub(crate) fn statement_in(line: &ScriptLine) -> Option<&ScriptStatement> {
    match &line.item {
        Item::Does(statement) => Some(statement),
        Item::On(_) => None,
    }
}
