//! Why a world refused an event.

ghost use Rattle.std.specs.Prelude.{◌≡◌};
ghost use Rattle.point_to_point_calls.specs.declared.refusal.Refusal.TheVariants as lowers;
ghost use Rattle.world.specs.declared.refusal.WorldRefusal.TheVariants as refusals;
ghost use Rattle.world.specs.Refusals.{number_of_refusal};

use std::alloc::AllocFailed;
use thiserror::Error;

/// A growth was refused.
pub const OUT_OF_MEMORY: WorldRefusal = WorldRefusal::Engine(engine::Refusal::OutOfMemory);

/// Why a world refused an event. A refused event is none: the world is as it was, but for the reset that goes out with
/// the refusal of a datagram for a former incarnation.
#[derive(Clone, Copy, Debug, PartialEq, Eq, Error)]
pub enum WorldRefusal {
    /// The rank's engine refused it.
    #[error("{0}")]
    Engine(engine::Refusal),
    /// There is no such rank.
    #[error("there is no such rank")]
    NoSuchRank,
    /// No datagram has this number.
    #[error("no datagram has this number")]
    NoSuchDatagram,
    /// Stray bytes carry the world's job number, which only its own engines do.
    #[error("the bytes carry the world's job number")]
    CarriesJob,
}

impl WorldRefusal {
    /// The number of this refusal.
    pub fn number(self) -> u8
        ensures { result ≡ number_of_refusal self }
    {
        match self {
            WorldRefusal::Engine(refused) => refused.number(),
            WorldRefusal::NoSuchRank => 61,
            WorldRefusal::NoSuchDatagram => 62,
            WorldRefusal::CarriesJob => 63,
        }
    }
}

impl<T: Drop> From<AllocFailed<T>> for WorldRefusal {
    ghost from_gives = { λ _ e. e ≡ refusals.Engine lowers.OutOfMemory };

    fn from(_error: AllocFailed<T>) -> WorldRefusal {
        OUT_OF_MEMORY
    }
}
