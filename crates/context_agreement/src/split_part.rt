//! A part of a split communicator.

ghost use Rattle.std.specs.Prelude.{◌≡◌};

use std::marker::Model;

/// One of the communicators into which a communicator is split: its colour, and the ranks in the
/// old communicator of those that are in it, in their new order (MPI 3.1, 6.4.2).
#[derive(Drop)]
pub struct SplitPart {
    /// The colour that all of its members gave.
    pub(crate) colour: u32,
    /// The ranks of its members in the old communicator, in their order in the new one.
    pub(crate) ranks: Vec<u16>,
}

impl Model for SplitPart {
    ghost use Rattle.context_agreement.specs.Parts.{SplitPart};

    ghost Value = { SplitPart };

    ghost view = { λ p. record { colour = p.colour; ranks = p.ranks.items } };
}

impl SplitPart {
    /// The colour that all of its members gave.
    pub fn colour(&self) -> u32
        ensures { result ≡ self.now.colour }
    {
        self.colour
    }

    /// The ranks of its members in the old communicator, in their order in the new one.
    pub fn ranks(&self) -> &[u16]
        ensures { result.now ≡ self.now.ranks }
    {
        self.ranks.as_slice()
    }
}
