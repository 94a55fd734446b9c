//! Acknowledgements that take one another's place.
//!
//! An acknowledgement says that all frames below a number came, and which later ones are held. One that tells of no
//! frame that is held says no more than a later one of the same number or of a higher one. So the earlier of two that
//! follow each other to one endpoint need not go then: any datagram may be lost, and this one isn't missed.

ghost use Rattle.std.specs.Prelude.{◌≡◌, ◌↔◌, IsTrue};
ghost use Rattle.datagram.specs.ByteMeanings.{datagram_of};
ghost use Rattle.delayed_acknowledgements.specs.Acknowledgements.{Covers, IsUrgent, acknowledgement};

use datagram::{Content, Datagram, Header, read_form};

/// What an acknowledgement says.
#[derive(Clone, Copy)]
pub struct Acknowledgement {
    /// Who says it to whom, and the number of the frame that its sender waits for.
    pub header: Header,
    /// Which later frames its sender holds: bit i, counted from the lowest, stands for the frame whose number is by i
    /// higher.
    pub held: u64,
}

/// The acknowledgement that the bytes spell, if they spell one.
pub fn acknowledgement_in(bytes: &[u8]) -> Option<Acknowledgement>
    ensures { result ≡ acknowledgement (datagram_of bytes.now) }
{
    match read_form(bytes) {
        Ok(
            Datagram {
                header,
                content: Content::Ack(held),
            },
        ) => Some(Acknowledgement { header, held }),
        _ => None,
    }
}

/// Whether an acknowledgement says all that an earlier one says: both are from one endpoint to another one in one job,
/// the earlier one tells of no frame that is held, and the later one is of no fewer frames.
pub fn covers(later: Acknowledgement, earlier: Acknowledgement) -> bool
    ensures { IsTrue result ↔ Covers later earlier }
{
    later.header.source == earlier.header.source
        && later.header.target == earlier.header.target
        && later.header.job == earlier.header.job
        && earlier.held == 0
        && earlier.header.sequence <= later.header.sequence
}

/// Whether an acknowledgement is to go at once, where `last` was handed over before it. It is where it tells of frames
/// that are held, since its receiver would send them again. And it is where the former one says all that it says: then
/// it answers a frame that came again, and whoever sent that missed the former one.
pub fn is_urgent(last: Option<Acknowledgement>, next: Acknowledgement) -> bool
    ensures { IsTrue result ↔ IsUrgent last next }
{
    if next.held != 0 {
        return true;
    }
    match last {
        Some(last) => covers(last, next),
        None => false,
    }
}
