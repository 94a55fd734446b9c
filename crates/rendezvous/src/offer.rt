//! A message that was announced.

ghost use Rattle.std.specs.Prelude.{◌≡◌};
ghost use Rattle.rendezvous.specs.Offers.{is_to};

use alike::Alike;
use datatypes::WholeBuffer;

/// A message that this rank announced, and whose data it keeps until they are asked for.
#[derive(Drop)]
pub struct Offer {
    /// The rank to which it goes.
    pub target: u16,
    /// The number of its transfer, from 0 in a session to that rank.
    pub transfer: u32,
    /// The key of its request in the rank's table of requests.
    pub request: usize,
    /// Its elements.
    pub elements: WholeBuffer,
}

impl Offer {
    /// Whether it is the transfer to the rank that has this number.
    pub fn is_to(&self, target: u16, transfer: u32) -> bool
        ensures { result ≡ is_to target transfer self.now }
    {
        self.target == target && self.transfer == transfer
    }
}

impl Alike for Offer {
    fn stands_as(&self, other: &Self) -> bool {
        self.target == other.target
            && self.transfer == other.transfer
            && self.request == other.request
            && self.elements.stands_as(&other.elements)
    }
}
