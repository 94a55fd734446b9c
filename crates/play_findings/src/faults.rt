//! What is told of errors, of what nobody waited for, and of messages that nobody received.

use crate::ending::has_ended_well;
use crate::started::{Operation, OperationKind, Standing};
use crate::teller::Teller;
use error_lines::{MetError, error_line};
use play_events::ErrorAt;
use play_waits::{Group, Leftover, Page, add_source, add_tag};
use std::alloc::AllocError;
use vocabulary::{Source, Status};

/// The text without the spaces in front.
fn without_spaces(text: &[u8]) -> &[u8] {
    match text.iter().position(|byte| *byte != b' ') {
        Some(place) => {
            let (_, rest) = text.split_at(place);
            rest
        }
        None => b"",
    }
}

/// The first word of a text that begins with one, and what is behind it.
fn first_word(text: &[u8]) -> (&[u8], &[u8]) {
    match text.iter().position(|byte| *byte == b' ') {
        Some(place) => text.split_at(place),
        None => (text, b""),
    }
}

/// The second word of a line, which names its request or its message.
fn named_in(line: &[u8]) -> &[u8] {
    let (_, behind) = first_word(without_spaces(line));
    let (word, _) = first_word(without_spaces(behind));
    word
}

/// Adds `rank R with tag T`, as it stands in the status of a message.
fn add_status(page: &mut Page, status: Status) -> Result<(), AllocError> {
    add_source(page, status.source)?;
    page.add(" with ")?;
    add_tag(page, status.tag)
}

impl Teller<'_, '_, '_> {
    /// Adds `  rank R sent it at line L: TEXT`, where it is known who did.
    fn add_sender(
        &self,
        page: &mut Page,
        sender: Option<(u16, Operation)>,
    ) -> Result<(), AllocError> {
        if let Some((rank, operation)) = sender {
            page.add("  ")?;
            page.add_rank(rank)?;
            page.add(" sent it")?;
            self.add_line(page, operation.line)?;
            page.add("\n")?;
        }
        Ok(())
    }

    /// The place among the operations of a rank of the one that took the message of this status, and that this line
    /// started.
    fn place_of(&self, rank: u16, line: usize, status: Status) -> Option<usize> {
        let operations = self.operations.of(rank);
        let at_line = operations
            .iter()
            .position(|one| one.line == line && one.took == Some(status));
        match at_line {
            Some(place) => Some(place),
            None => operations.iter().position(|one| one.took == Some(status)),
        }
    }

    /// Adds who sent the message with which an operation ended with an error.
    fn add_sender_of_error(
        &self,
        page: &mut Page,
        rank: u16,
        line: usize,
        error: &MetError,
    ) -> Result<(), AllocError> {
        let Some(status) = error.status else {
            return Ok(());
        };
        let started = error.started.unwrap_or(line);
        if let Some(place) = self.place_of(rank, started, status) {
            let sender = self.operations.sender_to(&self.communicators, rank, place);
            self.add_sender(page, sender)?;
        }
        Ok(())
    }

    fn add_error(&self, page: &mut Page, at: &ErrorAt) -> Result<(), AllocError> {
        let shown = self.lines.number(at.line);
        let words = MetError {
            number: at.error.number,
            why: at.error.why.clone()?,
            status: at.error.status,
            started: match at.error.started {
                Some(line) => Some(self.lines.number(line)),
                None => None,
            },
        };
        let text = error_line(self.alloc, at.rank, shown, &words, self.lines.line(at.line))?;
        page.add(text.as_str())?;
        page.add("\n")?;
        self.add_sender_of_error(page, at.rank, at.line, &at.error)
    }

    /// Adds the errors that ranks were told of.
    pub(crate) fn add_errors(&self, page: &mut Page) -> Result<(), AllocError> {
        for at in self.account.errors.as_slice() {
            self.add_error(page, at)?;
        }
        Ok(())
    }

    /// Adds a request that a rank ended with, or a message that it took out and didn't receive.
    fn add_open(&self, page: &mut Page, rank: u16, place: usize) -> Result<(), AllocError> {
        let Some(one) = self.operations.of(rank).get(place) else {
            return Ok(());
        };
        let line = self.lines.line(one.line);
        let is_message = one.kind == OperationKind::TakenOut;
        page.add_rank(rank)?;
        page.add(if is_message {
            " ended with message "
        } else {
            " ended with request "
        })?;
        page.add_bytes(named_in(line))?;
        page.add(" (line ")?;
        page.add_number(self.lines.number(one.line))?;
        page.add(if is_message {
            ") not received: "
        } else if one.standing == Standing::Finished {
            ") never waited for: "
        } else {
            ") unfinished: "
        })?;
        page.add_bytes(line)?;
        page.add("\n")?;
        if is_message {
            self.add_sender(
                page,
                self.operations.sender_to(&self.communicators, rank, place),
            )?;
        }
        Ok(())
    }

    /// Adds what ranks that ended with status 0 had started, and never asked how it ended.
    pub(crate) fn add_unended(&self, page: &mut Page) -> Result<(), AllocError> {
        for rank in 0..self.size {
            if let Some(player) = self.outcome.players.get(rank as usize) {
                if has_ended_well(player) {
                    for (place, one) in self.operations.of(rank).iter().enumerate() {
                        if one.is_left() {
                            self.add_open(page, rank, place)?;
                        }
                    }
                }
            }
        }
        Ok(())
    }

    /// Adds `rank R with tag T` of a message on this communicator, the rank by its number in `world`; behind that stands
    /// the communicator's number for it, if that is another one.
    fn add_status_in(
        &self,
        page: &mut Page,
        status: Status,
        place: usize,
        group: &Group,
    ) -> Result<(), AllocError> {
        let renumbered = match status.source {
            Source::Rank(member) => group.world_rank(member).filter(|rank| *rank != member),
            Source::Any | Source::Null => None,
        };
        if let Some(rank) = renumbered {
            page.add_rank(rank)?;
            page.add(" (")?;
            add_source(page, status.source)?;
            page.add(" of ")?;
            self.add_group(page, place, group)?;
            page.add(") with ")?;
            return add_tag(page, status.tag);
        }
        add_status(page, status)?;
        page.add(" on ")?;
        self.add_group(page, place, group)
    }

    fn add_leftover(
        &self,
        page: &mut Page,
        rank: u16,
        one: Leftover,
        behind: usize,
    ) -> Result<(), AllocError> {
        page.add_rank(rank)?;
        page.add(" never received a message of ")?;
        let Some(place) = self.communicators.group_at(rank, one.comm) else {
            add_status(page, one.status)?;
            return page.add("\n");
        };
        match self.communicators.groups().get(place) {
            Some(group) if one.comm != 0 => self.add_status_in(page, one.status, place, group)?,
            _ => add_status(page, one.status)?,
        }
        page.add("\n")?;
        let sender = self
            .operations
            .sender_of_leftover(&self.communicators, rank, place, one.status, behind);
        self.add_sender(page, sender)
    }

    /// Adds the messages that nobody received.
    pub(crate) fn add_leftovers(&self, page: &mut Page) -> Result<(), AllocError> {
        for (rank, leftovers) in self.asked.leftovers.iter().enumerate() {
            let rank = u16::try_from(rank).unwrap_or(u16::MAX);
            for (place, one) in leftovers.iter().enumerate() {
                let behind = leftovers
                    .iter()
                    .take(place)
                    .filter(|other| other.is_like(one))
                    .count();
                self.add_leftover(page, rank, *one, behind)?;
            }
        }
        Ok(())
    }
}
