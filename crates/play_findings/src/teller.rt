//! What is to be told of a play.

use crate::asking::Asked;
use crate::operations::Operations;
use crate::outcome::Outcome;
use crate::printed::add_printed;
use line_diagnostics::explanation;
use play_events::{Account, ShownLines};
use play_waits::{
    Communicators, Entered, Group, Page, Wait, Waiter, Waiting, add_cycle, add_elements,
    blocked_in, cycle_in, waiting_of,
};
use script_files::parse;
use script_plays::{Played, RunnerState};
use script_runner::line_of_number;
use std::alloc::{AllocError, Global};
use stepped_plays::PlayError;

/// A play that is told of.
#[derive(Drop)]
pub(crate) struct Teller<'t, 's, 'o> {
    /// The allocator.
    pub alloc: Global,
    /// The text that was played.
    pub text: &'t [u8],
    /// The script's lines, as they are told of.
    pub lines: &'s ShownLines<'o>,
    /// How many ranks there are.
    pub size: u16,
    /// Its account.
    pub account: Account,
    /// What came of it.
    pub outcome: Outcome,
    /// The communicators that its ranks made.
    pub communicators: Communicators,
    /// What its ranks started.
    pub operations: Operations,
    /// What they answered behind its end.
    pub asked: Asked,
}

impl Teller<'_, '_, '_> {
    /// The number of the line that a rank took last, in the text that was played.
    fn line(&self, rank: u16) -> usize {
        self.account.lines.get(rank as usize).copied().unwrap_or(0)
    }

    /// Adds ` at line L: TEXT`.
    pub(crate) fn add_line(&self, page: &mut Page, number: usize) -> Result<(), AllocError> {
        page.add(" at line ")?;
        page.add_number(self.lines.number(number))?;
        page.add(": ")?;
        page.add_bytes(self.lines.line(number))
    }

    /// Why a rank ended at a line that can't be followed.
    fn reason(&self, rank: u16, player: &Played) -> Option<Vec<u8>> {
        let script = parse(self.alloc, self.text).ok()?;
        let lines = script.into_lines_for(self.alloc, rank, 0).ok()?;
        let number = self.line(rank);
        let reached = line_of_number(lines, number)?;
        let fault = player
            .runner()
            .lack_of(self.alloc, &reached.statement)
            .ok()??;
        let shown = self.lines.number(number);
        let front = format!(in self.alloc; "rank {rank} ended with status 1 at line {shown}").ok()?;
        explanation(
            self.alloc,
            front.as_bytes(),
            &fault,
            self.lines.line(number),
        )
        .ok()
    }

    fn add_end(
        &self,
        page: &mut Page,
        rank: u16,
        player: &Played,
        status: u8,
    ) -> Result<(), AllocError> {
        if let Some(text) = self.reason(rank, player) {
            if status == 1 {
                page.add_bytes(&text)?;
                return page.add("\n");
            }
        }
        page.add_rank(rank)?;
        page.add(" ended with status ")?;
        page.add_number(status as usize)?;
        self.add_line(page, self.line(rank))?;
        page.add("\n")
    }

    /// Adds how those ranks ended that did with another status than 0.
    fn add_ends(&self, page: &mut Page) -> Result<(), AllocError> {
        for rank in 0..self.size {
            if let Some(player) = self.outcome.players.get(rank as usize) {
                if let RunnerState::Over(status, _) = player.state() {
                    if *status != 0 {
                        self.add_end(page, rank, player, *status)?;
                    }
                }
            }
        }
        Ok(())
    }

    /// Whom a rank waits for; none where it doesn't wait.
    fn waiting(&self, rank: u16) -> Result<Option<Waiting>, PlayError> {
        let Some(player) = self.outcome.players.get(rank as usize) else {
            return Ok(None);
        };
        let Some(call) = blocked_in(player) else {
            return Ok(None);
        };
        let left = match self.asked.left.get(rank as usize) {
            Some(left) => left.as_slice(),
            None => &[],
        };
        let waiter = Waiter {
            alloc: self.alloc,
            rank,
            history: self.outcome.world.history(),
            communicators: &self.communicators,
        };
        Ok(Some(waiting_of(waiter, call, left)?))
    }

    fn has_ended(&self, rank: u16) -> bool {
        match self.outcome.players.get(rank as usize) {
            Some(player) => player.has_ended(),
            None => false,
        }
    }

    fn add_waiting(&self, page: &mut Page, rank: u16, waiting: &Waiting) -> Result<(), AllocError> {
        page.add_rank(rank)?;
        page.add(" waits")?;
        self.add_line(page, self.line(rank))?;
        page.add("\n  for ")?;
        page.add_bytes(waiting.words.as_slice())?;
        page.add("\n")?;
        for other in waiting.whom.as_slice() {
            if self.has_ended(*other) {
                page.add("  ")?;
                page.add_rank(*other)?;
                page.add(" has ended\n")?;
            }
        }
        let any_of = waiting.any_of.as_slice();
        if !any_of.is_empty() && any_of.iter().all(|other| self.has_ended(*other)) {
            page.add("  all that could do that have ended\n")?;
        }
        Ok(())
    }

    /// Adds whom each rank waits for that can't go on.
    fn add_waits(&self, page: &mut Page) -> Result<(), PlayError> {
        let mut waits = Vec::new(self.alloc);
        for rank in 0..self.size {
            let mut wait = Wait {
                whom: Vec::new(self.alloc),
                any_of: Vec::new(self.alloc),
            };
            if let Some(waiting) = self.waiting(rank)? {
                self.add_waiting(page, rank, &waiting)?;
                wait.whom.extend_from_slice(&waiting.whom)?;
                wait.any_of.extend_from_slice(&waiting.any_of)?;
            }
            waits.push(wait)?;
        }
        if let Some(cycle) = cycle_in(self.alloc, &waits)? {
            add_cycle(page, &waits, &cycle)?;
        }
        Ok(())
    }

    /// Adds which communicator it is.
    pub(crate) fn add_group(
        &self,
        page: &mut Page,
        place: usize,
        group: &Group,
    ) -> Result<(), AllocError> {
        if place == 0 {
            return page.add("world");
        }
        if group.line == 0 {
            return page.add("self");
        }
        page.add("the communicator that line ")?;
        page.add_number(self.lines.number(group.line))?;
        page.add(" made")
    }

    fn add_entered(&self, page: &mut Page, one: &Entered) -> Result<(), AllocError> {
        page.add("  ")?;
        page.add_rank(one.rank)?;
        page.add(" entered")?;
        self.add_line(page, one.line)?;
        add_elements(page, one.record)?;
        page.add("\n")
    }

    /// Adds who entered the collective of this number on a communicator, and who didn't.
    fn add_all_entered(
        &self,
        page: &mut Page,
        place: usize,
        group: &Group,
        number: usize,
    ) -> Result<(), AllocError> {
        for rank in group.members.as_slice() {
            let found = self
                .communicators
                .entered()
                .iter()
                .position(|one| one.rank == *rank && one.is(place, number));
            match found {
                Some(found) => {
                    if let Some(one) = self.communicators.entered().get(found) {
                        self.add_entered(page, one)?;
                    }
                }
                None => {
                    page.add("  ")?;
                    page.add_rank(*rank)?;
                    page.add(" never entered\n")?;
                }
            }
        }
        Ok(())
    }

    /// Whether members entered the collective of this number differently.
    fn differ(&self, place: usize, number: usize) -> bool {
        let entered = self.communicators.entered();
        let Some(first) = entered.iter().position(|one| one.is(place, number)) else {
            return false;
        };
        match entered.get(first) {
            Some(first) => entered
                .iter()
                .any(|one| one.is(place, number) && one.record != first.record),
            None => false,
        }
    }

    fn count_entered(&self, place: usize, number: usize) -> usize {
        self.communicators
            .entered()
            .iter()
            .filter(|one| one.is(place, number))
            .count()
    }

    /// Adds what is wrong with the collective of this number on a communicator.
    fn add_collective(
        &self,
        page: &mut Page,
        place: usize,
        group: &Group,
        number: usize,
    ) -> Result<(), AllocError> {
        let differ = self.differ(place, number);
        if !differ && self.count_entered(place, number) == group.members.len() {
            return Ok(());
        }
        page.add("collective ")?;
        page.add_number(number)?;
        page.add(" of ")?;
        self.add_group(page, place, group)?;
        page.add(if differ {
            " was entered differently:\n"
        } else {
            " was not entered by all members:\n"
        })?;
        self.add_all_entered(page, place, group, number)
    }

    fn most_entered(&self, place: usize, group: &Group) -> usize {
        let mut most = 0;
        for rank in group.members.as_slice() {
            let count = self.communicators.count_of(*rank, place);
            if count > most {
                most = count;
            }
        }
        most
    }

    /// Adds what is wrong with collectives. Answers whether one was entered differently.
    fn add_collectives(&self, page: &mut Page) -> Result<bool, AllocError> {
        let mut any = false;
        for (place, group) in self.communicators.groups().iter().enumerate() {
            for number in 0..self.most_entered(place, group) {
                self.add_collective(page, place, group, number)?;
                any = any || self.differ(place, number);
            }
        }
        Ok(any)
    }

    /// Adds what each rank printed.
    pub(crate) fn add_all_printed(&self, page: &mut Page) -> Result<(), AllocError> {
        for rank in 0..self.size {
            if let Some(player) = self.outcome.players.get(rank as usize) {
                add_printed(page, rank, player)?;
            }
        }
        Ok(())
    }

    /// What is to be told but what each rank printed. Answers whether a collective was entered differently.
    pub(crate) fn add_findings(&self, page: &mut Page) -> Result<bool, PlayError> {
        self.add_errors(page)?;
        self.add_ends(page)?;
        self.add_waits(page)?;
        let differ = self.add_collectives(page)?;
        self.add_unended(page)?;
        self.add_leftovers(page)?;
        Ok(differ)
    }
}
