//! The context of a communicator.

ghost use Rattle.std.specs.Prelude.{◌≡◌};
ghost use Rattle.context_agreement.specs.Numbers.{number_of, HaveOwnNumbers};

/// What tells the messages of one communicator from those of every other (MPI 3.1, 6.1.1): who
/// created it, and the how manieth of its creator's it is. The form is this project's own.
#[derive(Clone, Copy, PartialEq, Eq)]
pub struct Context {
    /// The creator's rank in `world`.
    pub rank: u16,
    /// The creator's incarnation.
    pub incarnation: u16,
    /// The creator's number for it: 1 for its `self`, from 2 on for those that it draws.
    pub serial: u32,
}

impl Context {
    /// The context of the `world` communicator.
    pub const WORLD: Context = Context {
        rank: 0,
        incarnation: 0,
        serial: 0,
    };

    /// The context of the `self` communicator of a rank at an incarnation.
    pub fn of_self(rank: u16, incarnation: u16) -> Self
        ensures { result ≡ record { rank = rank; incarnation = incarnation; serial = 1 } }
    {
        Context {
            rank,
            incarnation,
            serial: 1,
        }
    }

    /// The 64 bits that stand for it in a datagram: the rank in the highest 16, then the
    /// incarnation in 16, then the serial in 32.
    pub fn number(self) -> u64
        ensures { result ≡ number_of self }
    {
        (u64::from(self.rank) << 48) + (u64::from(self.incarnation) << 32) + u64::from(self.serial)
    }

    /// The context that 64 bits stand for. Each number stands for one.
    pub fn from_number(number: u64) -> Self
        ensures { number_of result ≡ number }
    {
        Context {
            rank: (number >> 48) as u16,
            incarnation: (number >> 32 & 0xffff) as u16,
            serial: (number & 0xffff_ffff) as u32,
        }
    }
}

/// No two contexts have the same number.
pub fn contexts_have_their_own_numbers()
    ensures { HaveOwnNumbers }
{}
