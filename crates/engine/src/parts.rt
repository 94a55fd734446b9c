//! The parts of one rank.

ghost use Rattle.std.specs.Prelude.{◌≡◌, IsTrue};
ghost use Rattle.engine_calls.specs.Asks.{groups_of};
ghost use Rattle.point_to_point.specs.CoreState.{trimmed};

use alike::Alike;
use communicators::Communicators;
use point_to_point::Core;
use sessions::Sessions;

/// What a rank knows: an event goes through all of it, or changes nothing.
#[derive(Drop)]
pub struct Parts {
    /// Its calls, requests and messages, and its transfers: those of messages and those of payloads of collectives.
    pub(crate) core: Core,
    /// The communicators that it holds, and its collectives.
    pub(crate) communicators: Communicators,
    /// Its sessions with the other ranks.
    pub(crate) sessions: Sessions,
    /// The rank has one place, by its core and by its sessions.
    ghost placed: { core.state.place ≡ sessions.place },
}

impl Parts {
    /// Whether both stand alike in what they hold, whatever room they have for more.
    pub(crate) fn stands_as(&self, other: &Parts) -> bool
        ensures core { IsTrue result → trimmed self.now.core.state ≡ trimmed other.now.core.state }
        ensures groups { IsTrue result → groups_of self.now.communicators ≡ groups_of other.now.communicators }
        ensures payloads { IsTrue result → self.now.core.payloads.state ≡ other.now.core.payloads.state }
        ensures sessions { IsTrue result → self.now.sessions ≡ other.now.sessions }
    {
        self.core.stands_as(&other.core)
            && self.communicators.stands_as(&other.communicators)
            && self.sessions.stands_as(&other.sessions)
    }
}
