//! Acknowledgements that are kept back, since a later one may say all that they say.

ghost use Rattle.std.specs.Prelude.{◌≡◌, ◌⊎◌, option_map, IfSome, None, Some};
ghost use Rattle.delayed_acknowledgements.specs.Acknowledgements.{Covers, short_acknowledgement};

use crate::acknowledgements::{Acknowledgement, acknowledgement_in, covers};
use datagram::ACK_BYTES;

/// An acknowledgement that is kept back.
#[derive(Clone, Copy)]
pub struct DelayedAcknowledgement {
    /// The rank that it goes to.
    pub target: u16,
    /// What it says.
    pub said: Acknowledgement,
    /// The bytes that spell it.
    pub bytes: [u8; ACK_BYTES],
}

/// The acknowledgement that the bytes spell, if they spell one.
pub fn delayed_of(target: u16, bytes: &[u8]) -> Option<DelayedAcknowledgement>
    ensures said { option_map (λ k. k.said) result ≡ short_acknowledgement bytes.now }
    ensures whole { IfSome result (λ k. (k.target ≡ target) × (k.bytes ≡ bytes.now)) }
{
    if bytes.len() != ACK_BYTES {
        return None;
    }
    let said = acknowledgement_in(bytes)?;
    let mut copy = [0u8; ACK_BYTES];
    copy.copy_from_slice(bytes);
    Some(DelayedAcknowledgement {
        target,
        said,
        bytes: copy,
    })
}

/// The acknowledgement that goes now, behind which this one is kept: the former one, unless this one says all that it
/// says.
pub fn sent_before(
    former: Option<DelayedAcknowledgement>,
    next: DelayedAcknowledgement,
) -> Option<DelayedAcknowledgement>
    ensures lost { IfSome former (λ k. (result ≡ Some k) ⊎ Covers next.said k.said) }
    ensures covered { IfSome former (λ k. Covers next.said k.said → result ≡ None) }
    ensures other { (result ≡ None) ⊎ (result ≡ former) }
{
    let former = former?;
    if covers(next.said, former.said) {
        return None;
    }
    Some(former)
}
