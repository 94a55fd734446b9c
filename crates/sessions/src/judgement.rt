//! How the sessions look at a datagram.

ghost use Rattle.std.specs.Prelude.{◌≡◌, ◌<◌, ◌↔◌, ◌≤◌, ◌+◌, ◌-◌, IsTrue, is_some, length, IfOk, Some};
ghost use Rattle.datagram.specs.Spellings.{content_text, BodyFits};
ghost use Rattle.reliable_link.specs.SenderState.{IsOfSent};
ghost use Rattle.reliable_link.specs.ReceiverState.{held_at};
ghost use Rattle.sessions.specs.Peers.{peer_at};
ghost use Rattle.sessions.specs.HeardBytes.{Hears, Says, word_of, heard_of, session_met, word_text, heard_text, WordFits};
ghost use Rattle.sessions.specs.HeardBytes.{CanHeed, CanHear, said, stale, unmeant};

use crate::heard::{Early, Heard, LinkEvent, Unheard};
use crate::peers::{self, Peer};
use crate::refusal::SessionRefusal;
use crate::sessions::Sessions;
use datagram::{Content, Datagram};
use incarnation::Judgement;
use reliable_link::WINDOW;
use vocabulary::Endpoint;

/// The number of the frame that a session waits for; after a lesson it is a new one.
pub(crate) fn next_in(peer: &Peer, anew: bool) -> u64
    ensures { result ≡ (session_met anew peer.now).receiver.next }
{
    if anew { 0 } else { peer.receiver.next() }
}

/// Whether all frames below this number may be acknowledged, and those behind it be said to be held that the bits of
/// another stand for; after a lesson none went out.
#[tactic(auto, using(crate::proofs::JudgementLaws::none_sent, crate::proofs::JudgementLaws::nothing_sent))]
fn allows_in(peer: &Peer, anew: bool, number: u64, held: u64) -> bool
    ensures { IsTrue result ↔ IsOfSent (session_met anew peer.now).sender number held }
{
    if anew {
        number == 0 && held == 0
    } else {
        peer.sender.allows(number, held)
    }
}

/// Whether the frame of this number, which comes behind the next one, is held; after a lesson none is.
fn holds_in(peer: &Peer, anew: bool, number: u64) -> bool
    requires behind { (session_met anew peer.now).receiver.next < number }
    requires near { number < (session_met anew peer.now).receiver.next + 64 }
    ensures { result ≡
        is_some (held_at (session_met anew peer.now).receiver.held
        (number - (session_met anew peer.now).receiver.next)) }
{
    if anew {
        return false;
    }
    peer.receiver.is_held(number)
}

/// What a datagram says in a session.
fn word_in<'a>(
    peer: &Peer,
    anew: bool,
    number: u64,
    content: Content<'a>,
    bytes: &'a [u8],
) -> Result<LinkEvent<'a>, SessionRefusal>
    requires { BodyFits (content_text content) }
    ensures says { Says result (word_of (session_met anew peer.now) number (content_text content.entry) bytes.entry.now) }
    ensures fits { IfOk result (λ w. WordFits (word_text w)) }
    ensures can { IfOk result (λ w. CanHeed (session_met anew peer.now) (word_text w)) }
{
    match content {
        Content::Ack(held) => {
            if allows_in(peer, anew, number, held) {
                Ok(LinkEvent::Acknowledges(number, held))
            } else {
                Err(SessionRefusal::OutOfWindow)
            }
        }
        Content::Reset => Ok(LinkEvent::Nothing),
        Content::Frame(frame) => {
            let next = next_in(peer, anew);
            if number < next {
                return Ok(LinkEvent::Repeats);
            }
            if number - next >= WINDOW as u64 {
                return Err(SessionRefusal::OutOfWindow);
            }
            if number == next {
                return Ok(LinkEvent::Hands(frame));
            }
            if holds_in(peer, anew, number) {
                return Ok(LinkEvent::Repeats);
            }
            Ok(LinkEvent::Holds(Early {
                number,
                frame,
                bytes,
            }))
        }
    }
}

/// Why nothing is heard in a datagram for a former incarnation of this rank.
fn stale_of<'a>(source: Endpoint, content: &Content) -> Result<Heard<'a>, Unheard>
    ensures exact { Hears result (stale source (content_text content.now)) }
    ensures none { IfOk result (λ h. ⊥) }
    ensures fits { IfOk result (λ h. WordFits (word_text h.word)) }
{
    let reset = match content {
        Content::Reset => None,
        Content::Ack(_) => Some(source),
        Content::Frame(_) => Some(source),
    };
    Err(Unheard {
        refused: SessionRefusal::StaleTarget,
        reset,
    })
}

/// Why nothing is heard in a datagram that is not meant for this endpoint, or not from the present one.
fn unmeant_of<'a>(
    refused: incarnation::IncarnationRefusal,
    source: Endpoint,
    content: &Content,
) -> Result<Heard<'a>, Unheard>
    ensures exact { Hears result (unmeant refused source (content_text content.now)) }
    ensures fits { IfOk result (λ h. WordFits (word_text h.word)) }
    ensures none { IfOk result (λ h. ⊥) }
{
    match refused {
        incarnation::IncarnationRefusal::StaleTarget => stale_of(source, content),
        _ => Err(Unheard {
            refused: SessionRefusal::of_judging(refused),
            reset: None,
        }),
    }
}

impl Sessions {
    /// What the link says of a datagram, by whether it is of a later incarnation of its source.
    fn ask_link<'a>(
        &self,
        datagram: Datagram<'a>,
        bytes: &'a [u8],
        anew: bool,
    ) -> Result<Heard<'a>, Unheard>
        requires there { datagram.header.source.rank < length self.now.peers }
        requires fits { BodyFits (content_text datagram.content) }
        ensures exact { Hears result (said datagram.entry.header.source anew
            (word_of (session_met anew (peer_at self.now.peers datagram.entry.header.source.rank))
            datagram.entry.header.sequence (content_text datagram.entry.content) bytes.entry.now)) }
        ensures fits { IfOk result (λ h. WordFits (word_text h.word)) }
        ensures can { IfOk result (λ h. CanHear self.now (Some (heard_text h))) }
    {
        let source = datagram.header.source;
        let peer = peers::peer_at(&self.peers, source.rank);
        match word_in(
            peer,
            anew,
            datagram.header.sequence,
            datagram.content,
            bytes,
        ) {
            Ok(word) => Ok(Heard {
                source,
                lesson: anew,
                word,
            }),
            Err(refused) => Err(Unheard {
                refused,
                reset: None,
            }),
        }
    }

    /// What is heard in the bytes of a datagram. It changes nothing, and takes no memory.
    ///
    /// Refused is the first that holds of: 21 to 25 and 30 (the bytes spell no datagram, or their frame, or a message
    /// that it speaks of, is above the job's limit), 26 (another job), 27 (for another rank or a later incarnation of
    /// this one, or from no other rank of the job), 28 (from a former incarnation of its source), 29 (for a former
    /// incarnation of this rank; with it comes for whom a reset is) and 31 (a number outside the window). A limit is
    /// told by `limit_of`.
    #[tactic(auto, unfolding(crate::specs::HeardBytes::heard_of))]
    pub fn judge<'a>(&self, bytes: &'a [u8]) -> Result<Heard<'a>, Unheard>
        ensures exact { Hears result (heard_of self.now bytes.now) }
        ensures fits { IfOk result (λ h. WordFits (word_text h.word)) }
        ensures there { IfOk result (λ h. h.source.rank < self.now.place.size) }
        ensures can { IfOk result (λ h. CanHear self.now (Some (heard_text h))) }
    {
        // The place shows that there is one known incarnation for each rank.
        let place = self.knowledge.place();
        let datagram = match datagram::read_within(bytes, place.message_limit) {
            Ok(datagram) => datagram,
            Err(refused) => {
                return Err(Unheard {
                    refused: SessionRefusal::of_datagram(refused),
                    reset: None,
                });
            }
        };
        match self.knowledge.judge(datagram.header) {
            Ok(Judgement::Current) => self.ask_link(datagram, bytes, false),
            Ok(Judgement::Learn(_)) => self.ask_link(datagram, bytes, true),
            Err(refused) => unmeant_of(refused, datagram.header.source, &datagram.content),
        }
    }
}
