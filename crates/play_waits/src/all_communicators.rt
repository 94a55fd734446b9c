//! The communicators of a play and the collectives that were entered on them, as the history of its world has them.

ghost use Rattle.std.specs.Prelude.{◌≡◌};
ghost use Rattle.play_waits.specs.AwaitedMembers.{entered_by};

use crate::entered::{Entered, choice_in};
use crate::one_communicator::{Group, first_groups};
use collectives::Ending;
use engine::{Call, Completion, Reply};
use payload::Choice;
use play_events::CallAt;
use std::alloc::{AllocError, Global};
use world::{Event, HistoryEntry};

/// The communicators of a play, and the collectives that were entered.
#[derive(Drop)]
pub struct Communicators {
    alloc: Global,
    groups: Vec<Group>,
    held: Vec<Vec<usize>>,
    entered: Vec<Entered>,
}

/// The line of the call at this place of the history; 0 where it isn't known.
pub fn line_at(calls: &[CallAt], place: usize) -> usize {
    match calls.binary_search_by_key(&place, |call| call.place) {
        Ok(found) => match calls.get(found) {
            Some(call) => call.line,
            None => 0,
        },
        Err(_) => 0,
    }
}

/// The place of the communicator that an entry of the history gave its rank.
fn made_in(entry: &HistoryEntry) -> Option<usize> {
    match (&entry.reply, &entry.completion) {
        (Some(Reply::Left(Ending::Comm(place))), _) => *place,
        (_, Some(Completion::Collective(Ending::Comm(place)))) => *place,
        _ => None,
    }
}

fn first_held(alloc: Global, size: u16) -> Result<Vec<Vec<usize>>, AllocError> {
    let mut held = Vec::new(alloc);
    for rank in 0..size {
        let mut own = Vec::new(alloc);
        own.push(0)?;
        own.push(rank as usize + 1)?;
        held.push(own)?;
    }
    Ok(held)
}

/// Where a member of this colour stands: by its key, then by its place in the communicator from which the new one came.
fn with_key(choice: Option<Choice>, colour: Option<u32>) -> Option<i32> {
    match choice {
        Some(choice) => {
            if choice.colour == colour {
                Some(choice.key)
            } else {
                None
            }
        }
        None => Some(0),
    }
}

impl Communicators {
    /// The communicators that a world of so many ranks begins with.
    fn new(alloc: Global, size: u16) -> Result<Communicators, AllocError> {
        Ok(Communicators {
            alloc,
            groups: first_groups(alloc, size)?,
            held: first_held(alloc, size)?,
            entered: Vec::new(alloc),
        })
    }

    /// The communicators, `world` first and then `self` of each rank.
    pub fn groups(&self) -> &[Group] {
        self.groups.as_slice()
    }

    /// The collectives that were entered, in order.
    pub fn entered(&self) -> &[Entered] {
        self.entered.as_slice()
    }

    /// The place among all of the communicator that a rank holds at this place.
    pub fn group_at(&self, rank: u16, place: usize) -> Option<usize> {
        self.held.get(rank as usize)?.get(place).copied()
    }

    /// The communicator that a rank holds at this place.
    pub fn held_by(&self, rank: u16, place: usize) -> Option<&Group> {
        self.groups.get(self.group_at(rank, place)?)
    }

    /// How many communicators a rank holds.
    pub fn count(&self, rank: u16) -> usize {
        match self.held.get(rank as usize) {
            Some(held) => held.len(),
            None => 0,
        }
    }

    /// How many collectives a rank has entered on a communicator.
    pub fn count_of(&self, rank: u16, group: usize) -> usize
        ensures { result ≡ entered_by rank group self.now.entered.items }
    {
        self.entered
            .iter()
            .filter(|one| one.rank == rank && one.group == group)
            .count()
    }

    /// What a rank entered last.
    pub fn last_of(&self, rank: u16) -> Option<Entered> {
        let place = self.entered.iter().rposition(|one| one.rank == rank)?;
        self.entered.get(place).copied()
    }

    /// The members of a communicator that the collective which this rank entered has made.
    fn new_members(&self, made: Entered) -> Result<Vec<u16>, AllocError> {
        let mut keyed = Vec::new(self.alloc);
        if let Some(parent) = self.groups.get(made.group) {
            for (place, rank) in parent.members.iter().enumerate() {
                for one in &self.entered {
                    if one.rank == *rank && one.is(made.group, made.number) {
                        if let Some(key) = with_key(one.choice, made.colour()) {
                            keyed.push((key, place, *rank))?;
                        }
                    }
                }
            }
        }
        keyed.sort_unstable_by_key(|member| (member.0, member.1));
        let mut members = Vec::new(self.alloc);
        for member in keyed.as_slice() {
            members.push(member.2)?;
        }
        Ok(members)
    }

    /// The place among all of the communicator that the collective which this rank entered has made.
    fn group_made(&mut self, made: Entered) -> Result<usize, AllocError> {
        let colour = made.colour();
        let known = self
            .groups
            .iter()
            .position(|group| group.was_made_by(made.group, made.number, colour));
        if let Some(place) = known {
            return Ok(place);
        }
        let members = self.new_members(made)?;
        self.groups.push(Group {
            parent: made.group,
            number: made.number,
            colour,
            line: made.line,
            members,
        })?;
        Ok(self.groups.len().saturating_sub(1))
    }

    /// A rank got the communicator that it holds at this place.
    fn hold(&mut self, rank: u16, place: usize) -> Result<(), AllocError> {
        let Some(made) = self.last_of(rank) else {
            return Ok(());
        };
        let group = self.group_made(made)?;
        if let Some(held) = self.held.get_mut(rank as usize) {
            if held.len() == place {
                held.push(group)?;
            }
        }
        Ok(())
    }

    /// A rank enters a collective on the communicator that it holds at this place.
    fn enter(
        &mut self,
        rank: u16,
        place: usize,
        entry: &collective_messages::Entry,
        line: usize,
    ) -> Result<(), AllocError> {
        if let Some(group) = self.group_at(rank, place) {
            let number = self.count_of(rank, group);
            self.entered.push(Entered {
                rank,
                group,
                number,
                line,
                record: entry.record(),
                choice: choice_in(entry),
            })?;
        }
        Ok(())
    }

    fn take_in(&mut self, entry: &HistoryEntry, line: usize) -> Result<(), AllocError> {
        if let Event::Call(rank, Call::Enter(Some(place), what)) = &entry.event {
            self.enter(*rank, *place, what, line)?;
        }
        if let Some(place) = made_in(entry) {
            self.hold(entry.endpoint.rank, place)?;
        }
        Ok(())
    }
}

/// The communicators of a play, and the collectives that were entered.
pub fn communicators_of(
    alloc: Global,
    size: u16,
    history: &[HistoryEntry],
    calls: &[CallAt],
) -> Result<Communicators, AllocError> {
    let mut all = Communicators::new(alloc, size)?;
    for (place, entry) in history.iter().enumerate() {
        all.take_in(entry, line_at(calls, place))?;
    }
    Ok(all)
}
