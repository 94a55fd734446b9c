//! Frames that were held, when their turn comes.
//!
//! A frame that comes before its turn is held. Once the one before it is handed up, it follows: it is heard as a word
//! of its own and carried out as any other, but for the acknowledgement. A delivery has one, which goes out first, with
//! the frame that came; with each frame that follows it gives way to one that says more.

ghost use Rattle.std.specs.Prelude.{◌≡◌, ◌≢◌, ◌<◌, false, length, IfOk, IfErr, slice_set};
ghost use Rattle.reliable_link.specs.ReceiverState.{advanced};
ghost use Rattle.sessions.specs.HeldFrames.{ready_from, turn_of, without_ready};
ghost use Rattle.sessions.specs.HeardBytes.{heard_option, word_text, CanHeed, WordFits};
ghost use Rattle.sessions.specs.declared.peers.Peer.{Peer};
ghost use Rattle.sessions.specs.Peers.{peer_at};
ghost use Rattle.sessions.specs.Spellings.{ack_of};
ghost use Rattle.std.specs.Prelude.{IfSome};
ghost use Rattle.std.specs.Option.{option_copied};

use crate::heard::{Heard, LinkEvent};
use crate::peers;
use crate::refusal::SessionRefusal;
use crate::sessions::Sessions;
use crate::spelling::ack_bytes;
use datagram::{Bytes, Content};
use vocabulary::Endpoint;

/// What is heard in bytes of an endpoint that were held, once their turn comes; nothing where they spell no frame. It
/// takes no memory.
#[tactic(auto, unfolding(crate::specs::HeldFrames::turn_of))]
pub fn turn_in<'a>(source: Endpoint, bytes: &'a Bytes) -> Option<Heard<'a>>
    ensures exact { heard_option result ≡ turn_of source bytes.entry.now }
    ensures fits { IfSome result (λ h. WordFits (word_text h.word)) }
    ensures source { IfSome result (λ h. (h.source ≡ source) × (h.lesson ≡ false)) }
    ensures can { IfSome result (λ h. (p : Peer) → CanHeed p (word_text h.word)) }
{
    let Ok(datagram) = datagram::read_form(bytes.as_slice()) else {
        return None;
    };
    match datagram.content {
        Content::Frame(frame) => Some(Heard {
            source,
            lesson: false,
            word: LinkEvent::Follows(frame),
        }),
        Content::Ack(_) | Content::Reset => None,
    }
}

impl Sessions {
    /// How many datagrams went out since the last time that they were taken out.
    pub fn emitted_count(&self) -> usize
        ensures { result ≡ length self.now.out }
    {
        self.out.len()
    }

    /// The bytes of the next frame of a rank, where they are held, lent. It takes no memory.
    pub fn next_held(&self, rank: u16) -> Option<&Bytes>
        requires { rank < self.now.place.size }
        ensures { option_copied result ≡ ready_from self.now rank }
    {
        peers::peer_at(&self.peers, rank).receiver.ready()
    }

    /// The bytes of the next frame of a rank, where they are held, for one more owner. The only error is that there are
    /// too many owners.
    pub fn ready(&self, rank: u16) -> Result<Option<Bytes>, SessionRefusal>
        requires { rank < self.now.place.size }
        ensures ok { IfOk result (λ bytes. bytes ≡ ready_from self.now rank) }
        ensures err { IfErr result (λ e. e ≡ SessionRefusal.OutOfMemory) }
    {
        let Some(bytes) = self.next_held(rank) else {
            return Ok(None);
        };
        match bytes.share() {
            Ok(bytes) => Ok(Some(bytes)),
            Err(_) => Err(SessionRefusal::OutOfMemory),
        }
    }

    /// The acknowledgement that says that the next frame of an endpoint was handed up, too.
    pub fn spell_behind(&mut self, source: Endpoint) -> Result<Bytes, SessionRefusal>
        requires there { source.rank < self.old.place.size }
        requires left { (peer_at self.old.peers source.rank).receiver.next ≢ 18446744073709551615 }
        ensures ok { IfOk result
            (λ bytes. bytes ≡ ack_of self.old.place source (advanced (peer_at self.old.peers source.rank).receiver)) }
        ensures kept { self.new ≡ self.old }
        ensures err { IfErr result (λ e. e ≡ SessionRefusal.OutOfMemory) }
    {
        let receiver = &peers::peer_at(&self.peers, source.rank).receiver;
        let next = receiver.next() + 1;
        let held = receiver.held_bits_after_next();
        ack_bytes(&mut self.drafts, self.knowledge.place(), source, next, held)
    }

    /// This goes out to a rank in the place of what was to go out there. It takes no memory.
    pub fn replace(&mut self, at: usize, rank: u16, bytes: Bytes)
        requires { at < length self.old.out }
        ensures { self.new ≡ record self.old { out = slice_set self.old.out at (rank, bytes) } }
    {
        self.out[at] = (rank, bytes);
    }

    /// The next frame of a rank isn't held any more; those behind it stay. It takes no memory.
    pub fn discard(&mut self, rank: u16)
        requires { rank < self.old.place.size }
        ensures { self.new ≡ without_ready self.old rank }
    {
        peers::discard_at(&mut self.peers, rank);
    }
}
