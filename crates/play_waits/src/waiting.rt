//! Whom a rank waits for.

ghost use Rattle.std.specs.Prelude.{◌≡◌, ◌++◌, ◌==◌, ◌&&◌, filter, OnOk};
ghost use Rattle.play_waits.specs.AwaitedMembers.{is_awaited};
ghost use Rattle.play_waits.specs.GivenRequests.{names};

use crate::all_communicators::Communicators;
use crate::entered::Entered;
use crate::page::Page;
use crate::words::{add_source, add_tag};
use engine::{Call, Receive, Reply, Request, Send};
use script_plays::{Played, RunnerState};
use std::alloc::{AllocError, Global};
use vocabulary::Source;
use world::{Event, HistoryEntry};

/// Whom a rank waits for, and for what.
#[derive(Drop)]
pub struct Waiting {
    /// For what, in words.
    pub words: Page,
    /// The ranks in `world` without any of which it can't go on.
    pub whom: Vec<u16>,
    /// Ranks in `world` of which one has to do something before it can go on, whichever it is; none where it isn't so.
    pub any_of: Vec<u16>,
}

/// What a rank that waits knows.
#[derive(Clone, Copy)]
pub struct Waiter<'h, 'c> {
    /// The allocator.
    pub alloc: Global,
    /// The rank.
    pub rank: u16,
    /// What has happened.
    pub history: &'h [HistoryEntry],
    /// The communicators.
    pub communicators: &'c Communicators,
}

/// Whether a call was answered with this request, or with this message that was taken out.
fn names(reply: &Option<Reply>, request: Request) -> bool
    ensures { result ≡ names reply.now request }
{
    match reply {
        Some(Reply::Started(started)) => started.serial == request.serial,
        Some(Reply::Matched(Some((Some(message), _)))) => message.serial == request.serial,
        _ => false,
    }
}

/// Whether this rank was given this request there.
fn gives(entry: &HistoryEntry, rank: u16, request: Request) -> bool
    ensures { result ≡ ((entry.now.endpoint.rank == rank) && names entry.now.reply request) }
{
    entry.endpoint.rank == rank && names(&entry.reply, request)
}

/// The call of this rank that gave this request.
fn call_of(history: &[HistoryEntry], rank: u16, request: Request) -> Option<&Call> {
    for entry in history {
        if gives(entry, rank, request) {
            if let Event::Call(_, call) = &entry.event {
                return Some(call);
            }
        }
    }
    None
}

impl Waiting {
    /// Any of those that it waits for is enough.
    fn wait_for_any(&mut self) -> Result<(), AllocError> {
        for rank in self.whom.as_slice() {
            if !self.any_of.contains(rank) {
                self.any_of.push(*rank)?;
            }
        }
        self.whom.clear();
        Ok(())
    }
}

impl Waiter<'_, '_> {
    fn world_rank(self, comm: Option<usize>, member: u16) -> Option<u16> {
        self.communicators
            .held_by(self.rank, comm?)?
            .world_rank(member)
    }

    /// The rank in `world` of what a call names, where its communicator has another number for it.
    fn renumbered(self, comm: Option<usize>, named: Source) -> Option<u16> {
        match named {
            Source::Rank(member) => self.world_rank(comm, member).filter(|rank| *rank != member),
            Source::Any | Source::Null => None,
        }
    }

    /// Adds whom a call names: a rank by its number in `world`, and behind it that of its communicator, if that is
    /// another one.
    fn add_named(
        self,
        page: &mut Page,
        comm: Option<usize>,
        named: Source,
    ) -> Result<(), AllocError> {
        match self.renumbered(comm, named) {
            Some(rank) => {
                page.add_rank(rank)?;
                page.add(" (")?;
                add_source(page, named)?;
                page.add(" of its communicator)")
            }
            None => add_source(page, named),
        }
    }

    /// Adds that a message doesn't go on `world`, where that isn't told with the rank that is named.
    fn add_place(
        self,
        page: &mut Page,
        comm: Option<usize>,
        named: Source,
    ) -> Result<(), AllocError> {
        if comm == Some(0) || self.renumbered(comm, named).is_some() {
            return Ok(());
        }
        page.add(" on its communicator")
    }

    fn add_whom(
        self,
        whom: &mut Vec<u16>,
        comm: Option<usize>,
        source: Source,
    ) -> Result<(), AllocError> {
        if let Source::Rank(member) = source {
            if let Some(rank) = self.world_rank(comm, member) {
                whom.push(rank)?;
            }
        }
        Ok(())
    }

    /// Adds the members of a communicator but the rank itself.
    fn add_others(self, any_of: &mut Vec<u16>, comm: Option<usize>) -> Result<(), AllocError> {
        let Some(place) = comm else {
            return Ok(());
        };
        if let Some(group) = self.communicators.held_by(self.rank, place) {
            for member in group.members.as_slice() {
                if *member != self.rank && !any_of.contains(member) {
                    any_of.push(*member)?;
                }
            }
        }
        Ok(())
    }

    fn for_message(self, waiting: &mut Waiting, asked: &Receive) -> Result<(), AllocError> {
        let words = &mut waiting.words;
        words.add("a message of ")?;
        self.add_named(words, asked.comm, asked.source)?;
        words.add(" with ")?;
        add_tag(words, asked.tag)?;
        self.add_place(words, asked.comm, asked.source)?;
        if asked.source == Source::Any {
            return self.add_others(&mut waiting.any_of, asked.comm);
        }
        self.add_whom(&mut waiting.whom, asked.comm, asked.source)
    }

    fn for_receive(self, waiting: &mut Waiting, sent: &Send) -> Result<(), AllocError> {
        let words = &mut waiting.words;
        self.add_named(words, sent.comm, sent.target)?;
        words.add(" to receive its message with ")?;
        add_tag(words, sent.tag)?;
        self.add_place(words, sent.comm, sent.target)?;
        self.add_whom(&mut waiting.whom, sent.comm, sent.target)
    }

    fn for_request(self, waiting: &mut Waiting, request: Request) -> Result<(), AllocError> {
        match call_of(self.history, self.rank, request) {
            Some(Call::Irecv(asked)) => self.for_message(waiting, asked),
            Some(Call::Isend(sent)) => self.for_receive(waiting, sent),
            _ => waiting.words.add("the data of a message that it took out"),
        }
    }

    /// For each of these requests; between two stands this word.
    fn for_requests(
        self,
        waiting: &mut Waiting,
        requests: &[Option<Request>],
        between: &str,
    ) -> Result<(), AllocError> {
        for one in requests {
            if let Some(request) = one {
                if !waiting.words.is_empty() {
                    waiting.words.add(between)?;
                }
                self.for_request(waiting, *request)?;
            }
        }
        Ok(())
    }

    /// Whether this member has not entered the collective of this entry.
    fn awaits(self, member: u16, entered: Entered) -> bool
        ensures { result ≡ is_awaited entered self.entry.communicators.now.entered.items member }
    {
        self.communicators.count_of(member, entered.group) <= entered.number
    }

    /// Adds those of these members that have not entered the collective of this entry.
    fn add_awaited(
        self,
        waiting: &mut Waiting,
        members: &[u16],
        entered: Entered,
    ) -> Result<(), AllocError>
        ensures { OnOk result (waiting.new.whom.items ≡ waiting.old.whom.items ++
            filter (is_awaited entered self.entry.communicators.now.entered.items) members.now) }
    {
        for member in members {
            if self.awaits(*member, entered) {
                if !waiting.words.is_empty() {
                    waiting.words.add(" and ")?;
                }
                waiting.words.add_rank(*member)?;
                waiting.whom.push(*member)?;
            }
        }
        Ok(())
    }

    /// The members that have not entered the collective in which it is.
    fn for_members(self, waiting: &mut Waiting) -> Result<(), AllocError> {
        let Some(entered) = self.communicators.last_of(self.rank) else {
            return Ok(());
        };
        let Some(group) = self.communicators.groups().get(entered.group) else {
            return Ok(());
        };
        self.add_awaited(waiting, group.members.as_slice(), entered)?;
        if waiting.words.is_empty() {
            return waiting
                .words
                .add("a message of a member that entered something different");
        }
        waiting.words.add(" to enter")
    }

    fn for_call(
        self,
        waiting: &mut Waiting,
        call: &Call,
        left: &[Option<Request>],
    ) -> Result<(), AllocError> {
        match call {
            Call::Wait(Some(request)) => self.for_request(waiting, *request),
            Call::Waitany(list) => {
                self.for_requests(waiting, list.as_slice(), ", or ")?;
                if list.as_slice().iter().filter(|one| one.is_some()).count() > 1 {
                    waiting.wait_for_any()?;
                }
                Ok(())
            }
            Call::Waitall(_) => self.for_requests(waiting, left, ", and "),
            Call::Mrecv(Some(_), _) => waiting.words.add("the data of a message that it took out"),
            Call::Enter(_, _) => self.for_members(waiting),
            _ => Ok(()),
        }
    }
}

/// The requests of a call that waits for all of several.
pub fn requests_in(call: &Call) -> &[Option<Request>] {
    match call {
        Call::Waitall(list) => list.as_slice(),
        _ => &[],
    }
}

/// Whether the blocked call of a rank changes nothing by itself, so that the play goes on without it as well.
pub fn waits_alone(call: &Call) -> bool {
    matches!(call, Call::Wait(_) | Call::Waitany(_) | Call::Waitall(_))
}

/// The blocked call of a rank.
pub fn blocked_in(player: &Played) -> Option<&Call> {
    match player.state() {
        RunnerState::Blocked(call) => Some(call),
        _ => None,
    }
}

/// Whom a rank waits for whose call is blocked. Of a call that waits for all of several requests these are left.
pub fn waiting_of(
    waiter: Waiter<'_, '_>,
    call: &Call,
    left: &[Option<Request>],
) -> Result<Waiting, AllocError> {
    let mut waiting = Waiting {
        words: Page::new(waiter.alloc),
        whom: Vec::new(waiter.alloc),
        any_of: Vec::new(waiter.alloc),
    };
    waiter.for_call(&mut waiting, call, left)?;
    Ok(waiting)
}
