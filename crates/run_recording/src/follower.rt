//! Running a file of events line by line, and keeping what happens.

use crate::printed::{Printed, behind_word, kept, printed_in};
use crate::statement_lines::{Asked, asked_of};
use engine::Reply;
use event_files::{EventLine, parse};
use printed_lines::{FrameKind, LoadText};
use run_drawings::{Change, Delivery, Emission, Note, Picture, Tone};
use simulation::{SimulateError, Simulation, Stopped};
use statements::ParseError;
use std::alloc::{AllocError, Global};
use world::{HistoryEntry, World};

/// What a file of events did.
#[derive(Drop)]
pub struct Recording {
    /// What happened, as it is drawn.
    pub picture: Picture,
    /// Why it stopped before its end, if it did.
    pub stopped: Option<Stopped>,
}

/// A file of events that is run, and what happened so far.
#[derive(Drop)]
struct Follower<'a> {
    alloc: Global,
    /// The text of each line of the file.
    texts: Vec<&'a [u8]>,
    simulation: Simulation,
    picture: Picture,
}

/// Whether a call blocked its rank.
fn blocks(entry: &HistoryEntry) -> bool {
    matches!(entry.reply, Some(Reply::Blocked))
}

/// How an answer is drawn: what was refused, or ended with an error, as a failure.
fn tone_of(answer: &[u8]) -> Tone {
    if answer.starts_with(b"refused ") || answer.starts_with(b"error ") {
        Tone::Fails
    } else {
        Tone::Plain
    }
}

/// The answer of an event, where it was refused.
fn refusal_in<'a>(printed: Printed<'a>) -> &'a [u8] {
    if printed.answer == b"ok".as_slice() {
        b""
    } else {
        printed.answer
    }
}

impl<'a> Follower<'a> {
    fn world(&self) -> &World {
        self.simulation.world()
    }

    /// The text of the line of this number.
    fn line(&self, number: usize) -> &'a [u8] {
        match self.texts.get(number.saturating_sub(1)) {
            Some(line) => *line,
            None => b"",
        }
    }

    /// Adds what a rank did, or what happened to it.
    fn tell(
        &mut self,
        rank: u16,
        call: &[u8],
        answer: &[u8],
        change: Change,
    ) -> Result<(), AllocError> {
        let tone = tone_of(answer);
        let call = kept(self.alloc, call)?;
        let answer = kept(self.alloc, answer)?;
        self.picture.tell(Note {
            rank,
            call,
            answer,
            tone,
            change,
        })
    }

    /// Adds what was asked of a rank or a datagram that isn't there.
    fn tell_outside(&mut self, number: usize, printed: Printed<'_>) -> Result<(), AllocError> {
        let mut text = kept(self.alloc, self.line(number))?;
        if !printed.answer.is_empty() {
            text.extend_from_slice(b" => ")?;
            text.extend_from_slice(printed.answer)?;
        }
        self.picture.tell_outside(text)
    }
}

impl<'a> Follower<'a> {
    /// Adds what a statement of a rank did.
    fn tell_statement(
        &mut self,
        rank: u16,
        number: usize,
        is_told: bool,
        printed: Printed<'_>,
        is_blocked: bool,
    ) -> Result<(), AllocError> {
        if !is_told && printed.answer.is_empty() {
            return Ok(());
        }
        let change = if is_blocked {
            Change::Blocks
        } else {
            Change::Stays
        };
        let answer = if is_blocked { b"" } else { printed.answer };
        self.tell(rank, behind_word(self.line(number)), answer, change)
    }

    /// Adds that a datagram came, if there is one of this number.
    fn tell_delivery(
        &mut self,
        datagram: usize,
        number: usize,
        printed: Printed<'_>,
    ) -> Result<(), AllocError> {
        if datagram >= self.picture.arrows.len() {
            return self.tell_outside(number, printed);
        }
        let answer = kept(self.alloc, refusal_in(printed))?;
        self.picture.deliver(Delivery { datagram, answer })
    }

    /// Adds that a rank was started anew, or that it couldn't be.
    fn tell_restart(&mut self, rank: u16, printed: Printed<'_>) -> Result<(), AllocError> {
        let refusal = refusal_in(printed);
        let last = self.world().history().last();
        match last {
            Some(entry) if refusal.is_empty() => {
                let incarnation = entry.endpoint.incarnation.saturating_add(1);
                let text = format!(in self.alloc; "started anew as {rank}.{incarnation}")?;
                let change = Change::StartsAnew(incarnation);
                self.tell(rank, text.as_bytes(), b"", change)
            }
            _ => self.tell(rank, b"restart", refusal, Change::Stays),
        }
    }

    /// Adds what a line asked for, and what it answered.
    fn tell_asked(
        &mut self,
        asked: Asked,
        number: usize,
        printed: Printed<'_>,
        is_blocked: bool,
    ) -> Result<(), AllocError> {
        let size = self.picture.size;
        match asked {
            Asked::Rank(rank, is_told) if rank < size => {
                self.tell_statement(rank, number, is_told, printed, is_blocked)
            }
            Asked::Tick(rank, now) if rank < size => {
                let text = format!(in self.alloc; "clock {now} ms")?;
                self.tell(rank, text.as_bytes(), refusal_in(printed), Change::Stays)
            }
            Asked::Stray(rank) if rank < size => {
                self.tell(rank, b"stray bytes", refusal_in(printed), Change::Stays)
            }
            Asked::Restart(rank) if rank < size => self.tell_restart(rank, printed),
            Asked::Deliver(datagram) => self.tell_delivery(datagram, number, printed),
            _ => self.tell_outside(number, printed),
        }
    }

    /// Adds the datagrams that went out since.
    fn tell_emitted(&mut self) -> Result<(), AllocError> {
        for number in self.picture.arrows.len()..usize::MAX {
            let Some((_, bytes)) = self.simulation.world().datagram(number) else {
                return Ok(());
            };
            let Ok(datagram) = datagram::read_form(bytes) else {
                return Ok(());
            };
            let header = datagram.header;
            let load = LoadText {
                kind: FrameKind::of(&datagram.content),
                sequence: header.sequence,
            };
            let emission = Emission {
                source: header.source,
                target: header.target,
                load,
                words: Vec::new(self.alloc),
            };
            self.picture.emit(self.alloc, emission)?;
        }
        Ok(())
    }

    /// Adds what the blocked call of the last event's rank answered, if it answered now.
    fn tell_outcome(&mut self, printed: Printed<'_>) -> Result<(), AllocError> {
        if printed.outcome.is_empty() {
            return Ok(());
        }
        let rank = match self.world().history().last() {
            Some(entry) => entry.endpoint.rank,
            None => return Ok(()),
        };
        self.tell(rank, b"", printed.outcome, Change::Resumes)
    }

    /// Runs a line, and adds what it did.
    fn follow(&mut self, line: EventLine) -> Result<(), SimulateError> {
        let asked = asked_of(&line.statement);
        let number = line.number;
        let before = self.world().history().len();
        let mut printed = Vec::new(self.alloc);
        self.simulation.run(line, &mut printed)?;
        let printed = printed_in(&printed);
        let is_blocked = self.world().history().iter().skip(before).any(blocks);
        self.tell_asked(asked, number, printed, is_blocked)?;
        self.tell_emitted()?;
        self.tell_outcome(printed)?;
        Ok(())
    }

    /// Runs the lines, and adds what they did.
    fn follow_all(&mut self, lines: Vec<EventLine>) -> Result<(), SimulateError> {
        for line in lines {
            self.follow(line)?;
        }
        Ok(())
    }
}

/// It stopped before anything ran.
fn stopped_by(error: SimulateError) -> Stopped {
    Stopped { error, fault: None }
}

/// Runs these lines in a world of so many ranks, and keeps what happens.
fn followed(
    alloc: Global,
    texts: Vec<&[u8]>,
    size: u16,
    lines: Vec<EventLine>,
) -> Result<Recording, Stopped> {
    let simulation = match Simulation::new(alloc, size) {
        Ok(simulation) => simulation,
        Err(error) => {
            drop(lines);
            return Err(stopped_by(error));
        }
    };
    let mut follower = Follower {
        alloc,
        texts,
        simulation,
        picture: Picture::new(alloc, size),
    };
    let ended = follower.follow_all(lines);
    let fault = follower.simulation.take_lack();
    let stopped = match ended {
        Ok(()) => None,
        Err(error) => Some(Stopped { error, fault }),
    };
    Ok(Recording {
        picture: follower.picture,
        stopped,
    })
}

/// Runs a file of events, and keeps what happens.
///
/// Nothing runs where the file is faulty, or where memory is wanting. Where a line can't be followed when it is
/// reached, what ran before it is kept, and the recording says why it stopped.
pub fn record(alloc: Global, text: &[u8]) -> Result<Recording, Stopped> {
    let Ok(texts) = text.split(|byte| *byte == b'\n').collect(alloc) else {
        return Err(stopped_by(SimulateError::OutOfMemory));
    };
    match parse(alloc, text) {
        Ok(file) => followed(alloc, texts, file.size, file.lines.into_vec()),
        Err(ParseError::Line(line)) => Err(stopped_by(SimulateError::Line(line))),
        Err(ParseError::OutOfMemory) => Err(stopped_by(SimulateError::OutOfMemory)),
    }
}
