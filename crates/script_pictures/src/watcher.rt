//! A play that is watched move by move, and what is drawn of it.

use crate::answers::{Worded, error_words, words_of};
use crate::carried::words_of as carried_words;
use crate::errors::Errors;
use crate::happenings::Happenings;
use crate::rank_lines::{Manner, OwnLines, lines_of, manner_of, statement_in};
use crate::standing::{LastStatement, Standing, standing_of, status_of};
use crate::unfollowed::{Unfollowed, reason_of};
use crate::waits::{EndedPlay, StuckRank, cycle_waits};
use crate::{ScriptPicture, Shown};
use error_lines::{MetError, uncalled_error};
use play_events::ScriptLines;
use printed_lines::{FrameKind, LoadText};
use run_drawings::{Change, Delivery, Emission, Note, Tone};
use script_files::{Script, ScriptLine};
use script_plays::{Move, RunnerState};
use std::alloc::{AllocError, Global};
use stepped_plays::{PlayError, SteppedPlay};

/// A play that is watched.
#[derive(Drop)]
pub(crate) struct Watcher<'t, 's> {
    alloc: Global,
    text: &'t [u8],
    texts: ScriptLines<'t>,
    size: u16,
    shown: Shown,
    play: SteppedPlay,
    /// The lines of each rank.
    lines: Vec<OwnLines<'s>>,
    /// What each rank did last.
    last: Vec<LastStatement>,
    /// What is known of each rank's operations.
    errors: Errors,
    /// The arrow of each datagram; none where it isn't drawn.
    arrows: Vec<Option<usize>>,
    /// How many arrows there are.
    drawn: usize,
    happenings: Happenings,
    /// The line that the lowest rank couldn't follow, and that rank.
    unfollowed: Option<(u16, Unfollowed)>,
}

/// The lines of a printed text as one, `; ` between two.
fn in_one_line(alloc: Global, text: &[u8]) -> Result<Vec<u8>, AllocError> {
    let mut line = Vec::new(alloc);
    for byte in text {
        if *byte == b'\n' {
            line.extend_from_slice(b"; ")?;
        } else {
            line.push(*byte)?;
        }
    }
    Ok(line)
}

impl<'t, 's> Watcher<'t, 's> {
    /// The beginning of a play of this script, which is that of this text, at so many ranks.
    pub(crate) fn new(
        alloc: Global,
        text: &'t [u8],
        script: &'s Script,
        size: u16,
        shown: Shown,
    ) -> Result<Watcher<'t, 's>, PlayError> {
        let mut lines = Vec::new(alloc);
        for rank in 0..size {
            lines.push(lines_of(alloc, script, rank)?)?;
        }
        Ok(Watcher {
            alloc,
            text,
            texts: ScriptLines::new(alloc, text)?,
            size,
            shown,
            play: SteppedPlay::new(alloc, text, size)?,
            lines,
            last: vec![in alloc; LastStatement::none(); usize::from(size)]?,
            errors: Errors::new(alloc, size)?,
            arrows: Vec::new(alloc),
            drawn: 0,
            happenings: Happenings::new(alloc),
            unfollowed: None,
        })
    }

    /// What a rank did last.
    fn last(&self, rank: u16) -> LastStatement {
        match self.last.get(usize::from(rank)) {
            Some(last) => *last,
            None => LastStatement::none(),
        }
    }

    fn set_last(&mut self, rank: u16, last: LastStatement) {
        if let Some(cell) = self.last.get_mut(usize::from(rank)) {
            *cell = last;
        }
    }

    /// Adds a note. Answers its place.
    fn tell(
        &mut self,
        rank: u16,
        call: &[u8],
        worded: Worded,
        change: Change,
    ) -> Result<usize, AllocError> {
        let Worded { words, tone } = worded;
        self.happenings.tell(Note {
            rank,
            call: Vec::from_slice(self.alloc, call)?,
            answer: words,
            tone,
            change,
        })
    }

    /// Adds a note that has no answer.
    fn tell_alone(
        &mut self,
        rank: u16,
        call: &[u8],
        tone: Tone,
        change: Change,
    ) -> Result<usize, AllocError> {
        let words = Vec::new(self.alloc);
        self.tell(rank, call, Worded { words, tone }, change)
    }
}

impl<'t, 's> Watcher<'t, 's> {
    /// The line that a rank took last; none where it has taken none since it stood so.
    fn taken_since(&self, rank: u16, before: Standing, now: Standing) -> Option<&'s ScriptLine> {
        if now.left >= before.left {
            return None;
        }
        self.lines.get(usize::from(rank))?.taken_last(now.left)
    }

    /// The number of the line that a rank took last; 0 where it took none.
    fn number_of_line(&self, rank: u16) -> usize {
        let left = standing_of(&self.play, rank).left;
        match self.lines.get(usize::from(rank)) {
            Some(lines) => match lines.taken_last(left) {
                Some(line) => line.number,
                None => 0,
            },
            None => 0,
        }
    }

    /// The text of the line of this number.
    fn text_of(&self, number: usize) -> Result<Vec<u8>, AllocError> {
        Vec::from_slice(self.alloc, self.texts.line(number))
    }

    /// Adds the statement that a rank took last.
    fn open(&mut self, rank: u16, line: &'s ScriptLine, has_failed: bool) -> Result<(), PlayError> {
        let Some(statement) = statement_in(line) else {
            return Ok(());
        };
        let manner = manner_of(statement);
        if manner == Manner::Silent && !has_failed {
            return Ok(());
        }
        let tone = if manner == Manner::Says {
            Tone::Prints
        } else {
            Tone::Plain
        };
        let text = self.text_of(line.number)?;
        let place = self.tell_alone(rank, &text, tone, Change::Stays)?;
        self.set_last(
            rank,
            LastStatement {
                place: Some(place),
                manner,
                is_heard: false,
                has_failed: false,
            },
        );
        Ok(())
    }

    /// Adds what a rank was told of its last statement: behind that, or as a row of its own where a datagram came to
    /// the rank since, or something was told before.
    fn answer(&mut self, rank: u16, worded: Worded) -> Result<(), AllocError> {
        let last = self.last(rank);
        match last.place {
            Some(place) if !last.is_heard && self.happenings.is_unanswered(place) => {
                let Worded { words, tone } = worded;
                self.happenings.answer(place, words, tone);
                Ok(())
            }
            _ => {
                self.tell(rank, b"", worded, Change::Stays)?;
                Ok(())
            }
        }
    }

    /// Adds what a rank learnt, if that has words; an error it will print, which isn't told once more.
    fn answer_learnt(&mut self, rank: u16, worded: Worded) -> Result<(), AllocError> {
        if worded.words.is_empty() {
            drop(worded);
            return Ok(());
        }
        let mut last = self.last(rank);
        last.has_failed = worded.tone == Tone::Fails;
        self.answer(rank, worded)?;
        self.set_last(rank, last);
        Ok(())
    }

    /// Adds why a rank met these errors, each as a row of its own.
    fn tell_why(&mut self, rank: u16, met: Vec<MetError>) -> Result<(), AllocError> {
        for error in met {
            self.tell_alone(rank, error.why.as_bytes(), Tone::Fails, Change::Stays)?;
        }
        Ok(())
    }

    /// Adds why the line that a rank took last printed an error, where no call was refused.
    fn tell_why_uncalled(&mut self, rank: u16, printed: &[u8]) -> Result<(), AllocError> {
        let text = self.texts.line(self.number_of_line(rank));
        if let Some(error) = uncalled_error(self.alloc, text, printed)? {
            self.tell_alone(rank, error.why.as_bytes(), Tone::Fails, Change::Stays)?;
        }
        Ok(())
    }

    /// Adds what a rank printed, but for an error that was told.
    fn tell_printed(&mut self, rank: u16) -> Result<(), PlayError> {
        let mut last = self.last(rank);
        if last.has_failed {
            last.has_failed = false;
            self.set_last(rank, last);
            return Ok(());
        }
        if last.manner == Manner::Says {
            return Ok(());
        }
        let words = match self.play.player(rank) {
            Some(player) => match player.lines().last() {
                Some(line) => in_one_line(self.alloc, line.as_slice())?,
                None => return Ok(()),
            },
            None => return Ok(()),
        };
        let is_error = words.starts_with(b"error ");
        let tone = if is_error { Tone::Fails } else { Tone::Prints };
        let printed = Vec::from_slice(self.alloc, &words)?;
        self.answer(rank, Worded { words, tone })?;
        if is_error {
            self.tell_why_uncalled(rank, &printed)?;
        }
        Ok(())
    }

    /// Adds that the call of a rank was refused.
    fn tell_refused(&mut self, rank: u16) -> Result<(), PlayError> {
        let number = match self.play.player(rank) {
            Some(player) => player.refused().last().copied().unwrap_or(0),
            None => 0,
        };
        let line = self.number_of_line(rank);
        let met = match self.play.player(rank) {
            Some(player) => match player.state() {
                RunnerState::Ready(Some(reply)) => {
                    self.errors.refused(self.alloc, rank, line, reply)?
                }
                _ => Vec::new(self.alloc),
            },
            None => Vec::new(self.alloc),
        };
        self.answer_learnt(rank, error_words(self.alloc, number)?)?;
        self.tell_why(rank, met)?;
        Ok(())
    }

    /// Adds what the call of a rank answered, or that it is blocked.
    fn tell_reply(&mut self, rank: u16) -> Result<(), PlayError> {
        let last = self.last(rank);
        let line = self.number_of_line(rank);
        let (worded, met) = match self.play.world().history().last() {
            Some(entry) => (
                words_of(self.alloc, entry, last.manner)?,
                self.errors.met(self.alloc, line, entry)?,
            ),
            None => return Ok(()),
        };
        let is_blocked = match self.play.player(rank) {
            Some(player) => play_waits::blocked_in(player).is_some(),
            None => false,
        };
        match last.place {
            Some(place) if is_blocked => self.happenings.change(place, Change::Blocks),
            _ => {}
        }
        self.answer_learnt(rank, worded)?;
        self.tell_why(rank, met)?;
        Ok(())
    }

    /// Adds why a rank couldn't follow a line.
    fn tell_fault(&mut self, rank: u16, line: &'s ScriptLine) -> Result<(), PlayError> {
        let (Some(player), Some(statement)) = (self.play.player(rank), statement_in(line)) else {
            return Ok(());
        };
        let Some(fault) = player.runner().lack_of(self.alloc, statement)? else {
            return Ok(());
        };
        let words = reason_of(self.alloc, &fault)?;
        let is_lower = match &self.unfollowed {
            Some((lowest, _)) => rank < *lowest,
            None => true,
        };
        if is_lower {
            let line = line.number;
            self.unfollowed = Some((rank, Unfollowed { line, fault }));
        } else {
            drop(fault);
        }
        let tone = Tone::Fails;
        self.answer(rank, Worded { words, tone })?;
        Ok(())
    }

    /// Adds that a rank has ended with this status.
    fn tell_end(
        &mut self,
        rank: u16,
        status: u8,
        line: Option<&'s ScriptLine>,
    ) -> Result<(), PlayError> {
        if status == 0 {
            self.tell_alone(rank, b"ended", Tone::Plain, Change::Ends)?;
            return Ok(());
        }
        if let Some(line) = line {
            if status == 1 {
                self.tell_fault(rank, line)?;
            }
        }
        let text = format!(in self.alloc; "ended with status {status}")?;
        self.tell_alone(rank, text.as_bytes(), Tone::Fails, Change::Ends)?;
        Ok(())
    }

    /// Adds what a rank did that stood so.
    fn tell_step(&mut self, rank: u16, before: Standing) -> Result<(), PlayError> {
        let now = standing_of(&self.play, rank);
        let ended = match self.play.player(rank) {
            Some(player) => status_of(player),
            None => None,
        };
        let line = self.taken_since(rank, before, now);
        if let Some(line) = line {
            self.open(rank, line, ended == Some(1))?;
        }
        if now.printed > before.printed {
            self.tell_printed(rank)?;
        } else if now.refused > before.refused {
            self.tell_refused(rank)?;
        } else if now.history > before.history {
            self.tell_reply(rank)?;
        }
        match ended {
            Some(status) => self.tell_end(rank, status, line),
            None => Ok(()),
        }
    }
}

impl<'t, 's> Watcher<'t, 's> {
    /// Adds the arrow of a datagram, if it is drawn.
    fn tell_datagram(&mut self, number: usize) -> Result<(), PlayError> {
        let Some((_, bytes)) = self.play.world().datagram(number) else {
            return Ok(());
        };
        let Ok(datagram) = datagram::read_form(bytes) else {
            self.arrows.push(None)?;
            return Ok(());
        };
        let kind = FrameKind::of(&datagram.content);
        let is_all = self.shown == Shown::Datagrams;
        if !is_all && matches!(kind, FrameKind::Ack) {
            self.arrows.push(None)?;
            return Ok(());
        }
        let words = if is_all {
            Vec::new(self.alloc)
        } else {
            carried_words(self.alloc, &datagram.content)?
        };
        let header = datagram.header;
        let sequence = header.sequence;
        self.arrows.push(Some(self.drawn))?;
        self.drawn = self.drawn.saturating_add(1);
        self.happenings.emit(Emission {
            source: header.source,
            target: header.target,
            load: LoadText { kind, sequence },
            words,
        })?;
        Ok(())
    }

    /// Adds the datagrams that went out since.
    fn tell_emitted(&mut self) -> Result<(), PlayError> {
        for number in self.arrows.len()..usize::MAX {
            if self.play.world().datagram(number).is_none() {
                return Ok(());
            }
            self.tell_datagram(number)?;
        }
        Ok(())
    }

    /// Adds that a datagram came, or was refused, if it is drawn.
    fn tell_delivery(&mut self, number: usize, is_taken: bool) -> Result<(), PlayError> {
        let target = match self.play.world().datagram(number) {
            Some((target, _)) => target,
            None => return Ok(()),
        };
        if let Some(Some(datagram)) = self.arrows.get(number).copied() {
            let refusal = if is_taken { b"".as_slice() } else { b"refused" };
            let answer = Vec::from_slice(self.alloc, refusal)?;
            self.happenings.deliver(Delivery { datagram, answer })?;
            let mut last = self.last(target);
            last.is_heard = true;
            self.set_last(target, last);
        }
        Ok(())
    }

    /// Adds what a blocked call was answered in the last event, if one was.
    fn tell_outcome(&mut self) -> Result<(), PlayError> {
        let Some(entry) = self.play.world().history().last() else {
            return Ok(());
        };
        if entry.completion.is_none() {
            return Ok(());
        }
        let rank = entry.endpoint.rank;
        let mut last = self.last(rank);
        let (worded, met) = match self.play.world().history().last() {
            Some(entry) => (
                words_of(self.alloc, entry, last.manner)?,
                self.errors.met(self.alloc, 0, entry)?,
            ),
            None => return Ok(()),
        };
        last.has_failed = worded.tone == Tone::Fails;
        self.tell(rank, b"", worded, Change::Resumes)?;
        self.tell_why(rank, met)?;
        self.set_last(rank, last);
        Ok(())
    }

    fn go(&mut self, rank: u16) -> Result<(), PlayError> {
        let before = standing_of(&self.play, rank);
        self.play.make(Move::Go(rank))?;
        if before.is_ready {
            self.tell_step(rank, before)?;
        }
        self.tell_emitted()
    }

    fn deliver(&mut self, number: usize) -> Result<(), PlayError> {
        let before = self.play.world().history().len();
        self.play.make(Move::Deliver(number))?;
        let is_taken = self.play.world().history().len() > before;
        self.tell_delivery(number, is_taken)?;
        self.tell_emitted()?;
        if is_taken {
            self.tell_outcome()
        } else {
            Ok(())
        }
    }

    fn tick(&mut self, rank: u16, now: u64) -> Result<(), PlayError> {
        let before = self.play.world().history().len();
        self.play.make(Move::Tick(rank, now))?;
        let text = format!(in self.alloc; "clock {now} ms")?;
        self.tell_alone(rank, text.as_bytes(), Tone::Plain, Change::Stays)?;
        self.tell_emitted()?;
        if self.play.world().history().len() > before {
            self.tell_outcome()
        } else {
            Ok(())
        }
    }

    /// Adds that a rank waits for ever, and for what.
    fn tell_wait(&mut self, stuck: &StuckRank) -> Result<(), AllocError> {
        let text = b"waits for ever";
        self.tell_alone(stuck.rank, text, Tone::Fails, Change::WaitsForEver)?;
        if !stuck.words.is_empty() {
            let mut text = Vec::from_slice(self.alloc, b"for ")?;
            text.extend_from_slice(&stuck.words)?;
            self.tell_alone(stuck.rank, &text, Tone::Fails, Change::Stays)?;
        }
        Ok(())
    }

    /// Adds the cycle in which these ranks wait for one another, if they are in one.
    fn tell_cycle(&mut self, stuck: &[StuckRank]) -> Result<(), AllocError> {
        let waits = cycle_waits(self.alloc, self.size, stuck)?;
        if !waits.is_empty() {
            self.happenings.begin_cycle()?;
        }
        for wait in waits {
            self.happenings.wait(wait)?;
        }
        Ok(())
    }

    /// Adds which ranks wait for ever, and for what.
    fn tell_stuck(&mut self, schedule: &[Move]) -> Result<(), PlayError> {
        let ended = EndedPlay {
            alloc: self.alloc,
            text: self.text,
            schedule,
            play: &self.play,
        };
        let stuck = ended.stuck_ranks()?;
        for one in &stuck {
            self.tell_wait(one)?;
        }
        self.tell_cycle(&stuck)?;
        Ok(())
    }
}

/// The picture of the play by this schedule.
pub(crate) fn watched(
    watcher: Watcher<'_, '_>,
    schedule: &[Move],
) -> Result<ScriptPicture, PlayError> {
    let mut watcher = watcher;
    for next in schedule {
        match *next {
            Move::Go(rank) => watcher.go(rank)?,
            Move::Deliver(number) => watcher.deliver(number)?,
            Move::Tick(rank, now) => watcher.tick(rank, now)?,
        }
    }
    watcher.tell_stuck(schedule)?;
    let size = watcher.size;
    let Watcher {
        alloc: _,
        text: _,
        texts,
        size: _,
        shown: _,
        play,
        lines,
        last,
        errors,
        arrows,
        drawn: _,
        happenings,
        unfollowed,
    } = watcher;
    drop((texts, play, lines, last, errors, arrows));
    Ok(ScriptPicture {
        picture: happenings.into_picture(size)?,
        unfollowed: unfollowed.map(|(_, unfollowed)| unfollowed),
    })
}
