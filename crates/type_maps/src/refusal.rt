//! Why a type isn't made.

use std::alloc::AllocError;

/// Why a type isn't made.
#[derive(Clone, Copy, Debug, PartialEq, Eq)]
pub enum Refusal {
    /// A count or a length of a block is negative.
    NegativeCount,
    /// A number of the new type isn't within 64 bits with a sign.
    TooLarge,
    /// The numbers don't describe a part of an array.
    WrongArray,
    /// There is no memory.
    OutOfMemory,
}

impl From<AllocError> for Refusal {
    ghost use Rattle.std.specs.Prelude.{◌≡◌};
    ghost use Rattle.type_maps.specs.declared.refusal.Refusal.TheVariants.{OutOfMemory};

    ghost from_gives = { λ _ refusal. refusal ≡ OutOfMemory };

    fn from(_refused: AllocError) -> Refusal {
        Refusal::OutOfMemory
    }
}
