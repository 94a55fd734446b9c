//! The engine of one rank.

ghost use Rattle.std.specs.Prelude.{◌≡◌, ◌≤◌, ◌+◌, ◌*◌, ◌↔◌, [], length, All, IsTrue, IfOk, OnOk, OnErr, None, IfErr};
ghost use Rattle.point_to_point_calls.specs.Refusals.{IsRefusal};
ghost use Rattle.sessions.specs.Peers.{IsIdlePeer};
ghost use Rattle.sessions.specs.SessionsState.{SessionGives};
ghost use Rattle.engine.specs.Places.{place_fault};
ghost use Rattle.engine_calls.specs.EngineState.{completion_by, completion_of, opening, without_completion};
ghost use Rattle.engine_calls.specs.EngineState.{trimmed, without_out};
ghost use Rattle.engine.specs.Ticks.{TickGives, after_wait};

use crate::parts::Parts;
use alike::Alike;
use collectives::Ending;
use communicators::Communicators;
use datagram::Bytes;
use engine_calls::{Completion, of_collectives, of_sessions};
use incarnation::Place;
use point_to_point::{Core, Refusal};
use requests::Answer;
use sessions::{Session, Sessions};
use std::alloc::Global;
use std::marker::Model;

/// One rank of a job.
pub struct Engine {
    /// Where the memory of its own comes from.
    pub(crate) alloc: Global,
    /// What it knows.
    pub(crate) parts: Parts,
    /// With what the collective ended that it was blocked in, until that is handed out.
    pub(crate) ended: Option<Ending>,
}

/// A drop of its own is proved here alone; a derived one, with that of each type within, is proved anew in each crate
/// that drops an engine in generic code.
impl Drop for Engine {
    fn drop(self) {
        let Engine {
            alloc: _,
            parts,
            ended,
        } = self;
        drop(parts);
        drop(ended);
    }
}

impl Model for Engine {
    ghost use Rattle.engine_calls.specs.EngineState.{EngineState};
    ghost use Rattle.engine.specs.Parts.{engine_with};

    ghost Value = { EngineState };

    ghost view = { λ e. engine_with e.parts e.ended };
}

/// The answer of a blocked call: that of its collective, or that of its requests.
fn completion_by(ended: Option<Ending>, answer: Option<Answer>) -> Option<Completion>
    ensures { result ≡ completion_by ended answer }
{
    match (ended, answer) {
        (Some(ending), _) => Some(Completion::Collective(ending)),
        (None, Some(answer)) => Some(Completion::Requests(answer)),
        (None, None) => None,
    }
}

impl Engine {
    /// The engine of a rank at its start: it holds `world` and `self`, nothing is pending, its clock is at 0, no
    /// session has begun, and every other rank is known at incarnation 0.
    ///
    /// Refused with 5 where the rank is not below the size, with 13 where the size is above 1,024, and with 14.
    pub fn new(alloc: Global, place: Place) -> Result<Engine, Refusal>
        ensures opening { IfOk result (λ e. e ≡ opening place) }
        ensures placed { OnOk result (place_fault place ≡ None) }
        ensures refused { IfErr result (λ e. IsRefusal (place_fault place) e) }
    {
        let sessions = match Sessions::new(alloc, place) {
            Ok(sessions) => sessions,
            Err(refused) => return Err(of_sessions(refused)),
        };
        let core = match Core::new(alloc, place) {
            Ok(core) => core,
            Err(refused) => {
                drop(sessions);
                return Err(refused);
            }
        };
        match Communicators::new(alloc, place.endpoint, place.size) {
            Ok(communicators) => Ok(Engine {
                alloc,
                parts: Parts {
                    core,
                    communicators,
                    sessions,
                },
                ended: None,
            }),
            Err(refused) => {
                drop(core);
                drop(sessions);
                Err(of_collectives(refused))
            }
        }
    }

    /// Whether both stand alike: one place and clock, the same communicators, collectives, requests, messages and
    /// transfers, and the same sessions, with all that is known of others, waits or goes out. For how much more there is
    /// memory makes no difference, nor how many empty places are at the end of the table of requests. It takes no memory.
    #[tactic(auto, using(crate::proofs::Standings::engine_same))]
    pub fn stands_as(&self, other: &Engine) -> bool
        ensures { IsTrue result → trimmed self.now ≡ trimmed other.now }
    {
        self.parts.stands_as(&other.parts) && self.ended.stands_as(&other.ended)
    }

    /// Which rank of which job this is, and at which incarnation.
    pub fn place(&self) -> Place
        ensures sessions { result ≡ self.now.sessions.place }
        ensures core { result ≡ self.now.core.place }
    {
        self.parts.sessions.place()
    }

    /// Frames to a rank of the job wait so long for their acknowledgements from now on, in milliseconds, also those
    /// that are out: a tick sends again what has waited as long. It is 20 until it is told. For a rank that isn't of the
    /// job nothing is done. Nothing else changes, so whoever measures how long acknowledgements take may tell it at any
    /// time.
    pub fn set_wait(&mut self, rank: u16, wait: u64)
        ensures { self.new ≡ after_wait self.old rank wait }
    {
        if rank < self.parts.sessions.place().size {
            self.parts.sessions.set_wait(rank, wait);
        }
    }

    /// The clock says `now`, in milliseconds: what has waited for its acknowledgement as long as frames of its session
    /// wait (20 ms, unless `set_wait` said another number) is sent again.
    ///
    /// Refused with 41 exactly where `now` is below the last tick, and with 14, which comes only where a frame is due.
    /// A refusal changes nothing.
    pub fn tick(&mut self, now: u64) -> Result<(), Refusal>
        ensures exact { TickGives self.old now result self.new }
        ensures unchanged { OnErr result (self.new ≡ self.old) }
        ensures few { length self.new.sessions.out ≤ length self.old.sessions.out + 64 * self.old.sessions.place.size }
        ensures placed { self.new.sessions.place ≡ self.old.sessions.place }
        ensures core { self.new.core ≡ self.old.core }
    {
        match self.parts.sessions.tick(now) {
            Ok(()) => Ok(()),
            Err(refused) => Err(of_sessions(refused)),
        }
    }

    /// Hands out what was emitted since the last time, with the rank that each datagram goes to, in order: of each
    /// event first its acknowledgement or reset, then frames by rising rank and, for one rank, by their numbers.
    pub fn take_out(&mut self) -> Vec<(u16, Bytes)>
        ensures all { result.items ≡ self.old.sessions.out }
        ensures rest { self.new ≡ without_out self.old }
    {
        self.parts.sessions.take_out()
    }

    /// Whether all was handed out that was emitted.
    pub fn is_through(&self) -> bool
        ensures { IsTrue result ↔ (self.now.sessions.out ≡ []) }
    {
        self.parts.sessions.is_through()
    }

    /// Gives the list back that `take_out` handed out, so that what is emitted next has its room. What it holds is
    /// dropped, and nothing else changes. It takes no memory.
    pub fn give_back(&mut self, taken: Vec<(u16, Bytes)>)
        ensures { self.new ≡ self.old }
    {
        self.parts.sessions.give_back(taken);
    }

    /// The answer of a blocked call, where that of its requests isn't there.
    fn take_ending(&mut self) -> Option<Completion>
        ensures completion { result ≡ completion_by self.old.ended None }
        ensures rest { self.new ≡ record self.old { ended = None } }
    {
        // Mostly there is none, and a look is cheaper than a move.
        if self.ended.is_none() {
            return None;
        }
        completion_by(self.ended.take(), None)
    }

    /// Hands out the answer of a blocked call, once, after the event in which it was ready: of its requests, or of the
    /// collective that it entered. It is to be taken after each such event: of two answers that were not taken one is
    /// lost.
    pub fn take_completion(&mut self) -> Option<Completion>
        ensures completion { result ≡ completion_of self.old }
        ensures rest { self.new ≡ without_completion self.old }
    {
        let Some(answer) = self.parts.core.take_completion() else {
            return self.take_ending();
        };
        completion_by(self.ended.take(), Some(answer))
    }

    /// Whether no frame of any session waits or is unacknowledged. It takes no memory.
    pub fn is_idle(&self) -> bool
        ensures { IsTrue result ↔ All IsIdlePeer self.now.sessions.peers }
    {
        self.parts.sessions.is_idle()
    }

    /// How the session with another rank of the job stands; none with the rank itself, or with one that is not there.
    /// It takes no memory.
    pub fn session(&self, rank: u16) -> Option<Session>
        ensures { SessionGives self.now.sessions rank result }
    {
        self.parts.sessions.session(rank)
    }
}
