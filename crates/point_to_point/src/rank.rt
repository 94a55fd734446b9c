//! The core of one rank.

ghost use Rattle.std.specs.Prelude.{◌≡◌, IfErr, IfOk, IsTrue, None, is_some};
ghost use Rattle.rendezvous.specs.PayloadState as payloads;
ghost use Rattle.point_to_point.specs.CoreState.{opening, trimmed};
ghost use Rattle.point_to_point_calls.specs.declared.refusal.Refusal.TheVariants as refusals;

use alike::Alike;
use incarnation::Place;
use match_queues::Queues;
use point_to_point_calls::Refusal;
use rendezvous::Transfers;
use requests::{Answer, Awaited, Requests};
use std::alloc::Global;
use std::marker::Model;

/// What one rank has asked for and was sent.
#[derive(Drop)]
pub struct Core {
    /// Where its memory comes from.
    pub(crate) alloc: Global,
    /// Which rank of which job it is.
    pub(crate) place: Place,
    /// The receives that wait for a message, and the messages that wait for a receive.
    pub(crate) queues: Queues,
    /// The large messages that go to other ranks and come from them, and the large payloads of collectives.
    pub(crate) transfers: Transfers,
    /// The requests that were started and have not ended.
    pub(crate) requests: Requests,
    /// What the blocked call waits for.
    pub(crate) blocked: Option<Awaited>,
    /// The answer of a blocked call, until it is taken out.
    pub(crate) completion: Option<Answer>,
}

impl Model for Core {
    ghost use Rattle.point_to_point.specs.CoreState.{Held, IsKept};

    ghost Value = { Held };

    ghost view = { λ c. record {
      state = record {
        place = c.place;
        queues = c.queues.state;
        transfers = c.transfers.state;
        slots = c.requests.slots;
        serial = c.requests.serial;
        blocked = c.blocked;
        completion = c.completion;
      };
      places = c.queues.places;
      vacant = c.requests.vacant;
      requests = c.requests.capacity;
      receives = c.queues.receives;
      messages = c.queues.messages;
      offers = c.transfers.sends;
      collections = c.transfers.receives;
      payloads = c.transfers.payloads;
    } };

    ghost invariant = { λ c. IsKept c.place c.queues.state c.transfers.state c.requests.slots };
}

impl Core {
    /// The core of a rank at its start: nothing is pending. It fails for want of memory alone (14).
    pub fn new(alloc: Global, place: Place) -> Result<Core, Refusal>
        ensures ok { IfOk result (λ core. core.state ≡ opening place) }
        ensures payloads { IfOk result (λ core. core.payloads.state ≡ payloads.opening) }
        ensures err { IfErr result (λ e. e ≡ refusals.OutOfMemory) }
    {
        let Ok(transfers) = Transfers::new(alloc, place.size) else {
            return Err(Refusal::OutOfMemory);
        };
        Ok(Core {
            alloc,
            place,
            queues: Queues::new(alloc),
            transfers,
            requests: Requests::new(alloc),
            blocked: None,
            completion: None,
        })
    }

    /// Which rank of which job this is, and at which incarnation.
    pub fn place(&self) -> Place
        ensures { result ≡ self.now.state.place }
    {
        self.place
    }

    /// Whether both stand alike: one place, the same queues, transfers, payloads and requests, and the same blocked call
    /// and answer, and the next request gets the same key. For how much more there is memory makes no difference, nor how
    /// many empty places are at the end of the table of requests.
    pub fn stands_as(&self, other: &Core) -> bool
        ensures state { IsTrue result → trimmed self.now.state ≡ trimmed other.now.state }
        ensures payloads { IsTrue result → self.now.payloads.state ≡ other.now.payloads.state }
        ensures vacant { IsTrue result → self.now.vacant ≡ other.now.vacant }
    {
        self.place == other.place
            && self.queues.stands_as(&other.queues)
            && self.transfers.stands_as(&other.transfers)
            && self.requests.stands_as(&other.requests)
            && self.blocked.stands_as(&other.blocked)
            && self.completion.stands_as(&other.completion)
    }

    /// Whether an earlier call is blocked on requests.
    pub fn is_blocked(&self) -> bool
        ensures { result ≡ is_some self.now.state.blocked }
    {
        self.blocked.is_some()
    }

    /// Hands out the answer of a blocked call, once, after the event in which it was ready. An answer that isn't taken
    /// is lost when the next one comes.
    pub fn take_completion(&mut self) -> Option<Answer>
        ensures completion { result ≡ self.old.state.completion }
        ensures rest { self.new.state ≡ record self.old.state { completion = None } }
        ensures payloads { self.new.payloads ≡ self.old.payloads }
    {
        // Mostly there is none, and a look is cheaper than a move.
        if self.completion.is_none() {
            return None;
        }
        self.completion.take()
    }
}
