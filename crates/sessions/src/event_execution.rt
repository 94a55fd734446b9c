//! Carrying an event out, or refusing it.
//!
//! A sender may be without memory for a frame, and an event may bring frames for many of them. So what may fail comes
//! first: the answer and the frames, one after the other; where one fails, the frames before it are taken back, the
//! latest first, which leaves each sender as it was. What can't be taken back comes last and can't fail: an
//! acknowledgement is heeded, a number of the receiver raised, an incarnation learnt. A frame that a sender takes over
//! before an acknowledgement is heeded is kept as one that comes after it. Where a session starts anew, the former one
//! is held until nothing fails any more.

ghost use Rattle.std.specs.Prelude.{◌≡◌, ◌%◌, ◌≤◌, ◌<◌, ◌+◌, ◌++◌, [], ◌∷◌, All, IsTrue, false, IfOk, IfErr, OnOk};
ghost use Rattle.std.specs.Prelude.{OnErr, length, nat_lt, take, slice_set, vec_len, None, Some};
ghost use Rattle.datagram.specs.Spellings.{outgoing_text};
ghost use Rattle.reliable_link.specs.SenderState.{out_end, entered_on_ack};
ghost use Rattle.reliable_link.specs.Acceptance.{HasNumberLeft};
ghost use Rattle.sessions.specs.SessionsState.{GivesUnless, known_endpoint};
ghost use Rattle.sessions.specs.Peers.{peer_at, with_new_session, frames_out};
ghost use Rattle.sessions.specs.Spellings.{ack_bytes};
ghost use Rattle.sessions.specs.HeardBytes.{word_text, heard_text, heard_option, CanHear};
ghost use Rattle.sessions.specs.Events.{CanSend, taught_known, heeded_by, sendings, sends_limit};
ghost use Rattle.sessions.specs.Events.{after_event, event_limit, most_answers, TurnedAway};
ghost use Rattle.sessions.specs.Windows.{StaysWithin};
ghost use Rattle.sessions.specs.EventExecution.{CanSettleIn, CanSettle, known_after, answered, sender_after, bytes_ahead};
ghost use Rattle.sessions.specs.EventExecution.{send_ahead, sends_ahead, settled, all_taken_back};

use crate::heard::{Heard, LinkEvent, Unheard};
use crate::limits::frame_at;
use crate::peers::{self, Peer};
use crate::refusal::SessionRefusal;
use crate::sessions::Sessions;
use crate::spelling::{ack_bytes, frame_bytes, reset_bytes};
use datagram::{Bytes, Drafts, Outgoing};
use reliable_link::WINDOW;
use vocabulary::Endpoint;

/// The frames are taken back from the sessions with their ranks, the last one first.
fn take_back_each(peers: &mut Vec<Peer>, frames: &[Outgoing])
    requires { All (λ f. f.target < vec_len peers.old) (sendings frames.now) }
    ensures { peers.new.items ≡ all_taken_back peers.old.items (sendings frames.now) }
{
    for done in 0..frames.len() {
        let last = frame_at(frames, frames.len() - 1 - done);
        peers::take_back_at(peers, last.target);
    }
}

/// The incarnation of the source is learnt, where it is new.
fn learn(knowledge: &mut incarnation::Peers, lesson: bool, source: Endpoint)
    requires { source.rank < knowledge.old.place.size }
    ensures place { knowledge.new.place ≡ knowledge.old.place }
    ensures known { knowledge.new.known ≡ taught_known lesson knowledge.old.known source }
{
    if lesson {
        knowledge.learn(source.rank, source.incarnation);
    }
}

/// The session with the source heeds the word; or there is no memory for the frame that it is to hold, or for the
/// places of such frames, and nothing changes.
fn on_link_event(
    peers: &mut Vec<Peer>,
    drafts: &mut Drafts,
    rank: u16,
    word: LinkEvent<'_>,
) -> Result<(), SessionRefusal>
    requires there { rank < vec_len peers.old }
    requires can { CanSettleIn (peer_at peers.old.items rank) (word_text word) }
    ensures ok { OnOk result (peers.new.items ≡ heeded_by (word_text word.entry) peers.old.items rank) }
    ensures unchanged { OnErr result (peers.new.items ≡ peers.old.items) }
    ensures err { IfErr result (λ e. e ≡ SessionRefusal.OutOfMemory) }
{
    match word {
        LinkEvent::Acknowledges(n, held) => {
            peers::acknowledge_at(peers, drafts, rank, n, held);
            Ok(())
        }
        LinkEvent::Hands(_) | LinkEvent::Follows(_) => peers::raise_at(peers, rank),
        LinkEvent::Holds(early) => peers::hold_at(peers, rank, early.number, early.bytes),
        LinkEvent::Repeats | LinkEvent::Nothing => Ok(()),
    }
}

impl Sessions {
    /// A rank at the incarnation at which it is known after what was heard.
    fn endpoint_after(&self, heard: Option<Heard<'_>>, rank: u16) -> Endpoint
        requires { rank < self.now.place.size }
        ensures { result ≡ known_endpoint (known_after (heard_option heard.entry) self.now.known) rank }
    {
        // The place shows that there is one known incarnation for each rank.
        let _place = self.knowledge.place();
        let known = self.knowledge.known(rank);
        let incarnation = match heard {
            Some(heard) if heard.lesson && heard.source.rank == rank => {
                known.max(heard.source.incarnation)
            }
            _ => known,
        };
        Endpoint { rank, incarnation }
    }

    /// Whether the next frame to a rank comes into the window at once, when what was heard is heeded.
    fn enters(&self, heard: Option<Heard<'_>>, rank: u16) -> bool
        requires can { CanSettle self.now.peers (heard_option heard) }
        requires there { rank < length self.now.peers }
        ensures { result ≡ nat_lt (length (sender_after (heard_option heard.entry) self.now.peers rank).frames) 64 }
    {
        let sender = &peers::peer_at(&self.peers, rank).sender;
        let kept = match heard {
            Some(
                Heard {
                    source,
                    word: LinkEvent::Acknowledges(n, _),
                    ..
                },
            ) if source.rank == rank => sender.kept_after(n),
            _ => sender.kept(),
        };
        kept < WINDOW
    }

    /// The datagram of a frame: under the next number of its session, to its rank at the incarnation at which that is
    /// known after what was heard.
    fn spell(
        &mut self,
        heard: Option<Heard<'_>>,
        outgoing: Outgoing<'_>,
    ) -> Result<Bytes, SessionRefusal>
        requires { CanSend self.old.place (outgoing_text outgoing) }
        ensures ok { IfOk result
            (λ bytes. bytes ≡ bytes_ahead (heard_option heard.entry) self.old (outgoing_text outgoing.entry)) }
        ensures kept { self.new ≡ self.old }
        ensures err { IfErr result (λ e. e ≡ SessionRefusal.OutOfMemory) }
    {
        let rank = outgoing.target;
        let number = peers::peer_at(&self.peers, rank).sender.next_number();
        let target = self.endpoint_after(heard, rank);
        let place = self.knowledge.place();
        frame_bytes(&mut self.drafts, place, target, &outgoing.frame, number)
    }

    /// A frame is taken over by the session with its rank, and goes out if it comes into the window.
    fn send(
        &mut self,
        heard: Option<Heard<'_>>,
        outgoing: Outgoing<'_>,
    ) -> Result<(), SessionRefusal>
        requires can { CanSettle self.old.peers (heard_option heard) }
        requires frame { CanSend self.old.place (outgoing_text outgoing) }
        requires left { HasNumberLeft (peer_at self.old.peers outgoing.target).sender }
        ensures ok { OnOk result (self.new ≡ send_ahead (heard_option heard.entry) self.old (outgoing_text outgoing.entry)) }
        ensures unchanged { OnErr result (self.new ≡ self.old) }
        ensures err { IfErr result (λ e. e ≡ SessionRefusal.OutOfMemory) }
    {
        // Looking at the sessions shows that there is one for each rank.
        let _peers = &self.peers;
        let rank = outgoing.target;
        let enters = self.enters(heard, rank);
        let bytes = self.spell(heard, outgoing)?;
        let before = peers::busy_at(&self.peers, rank);
        peers::send_at(&mut self.peers, &mut self.out, rank, bytes, enters)?;
        self.busy = self.busy - before + peers::busy_at(&self.peers, rank);
        Ok(())
    }

    /// The frames are taken over, one after the other. Refused is with how many were, before memory was wanting.
    fn send_each(&mut self, heard: Option<Heard<'_>>, frames: &[Outgoing<'_>]) -> Result<(), usize>
        requires can { CanSettle self.old.peers (heard_option heard) }
        requires frames { All (CanSend self.old.place) (sendings frames.now) }
        requires limit { sends_limit (settled (heard_option heard) self.old) (sendings frames.now) ≡ None }
        ensures ok { OnOk result (self.new ≡ sends_ahead (heard_option heard.entry) self.old (sendings frames.now)) }
        ensures err { IfErr result (λ sent. (sent ≤ length frames.now)
            × (self.new ≡ sends_ahead (heard_option heard.entry) self.old (sendings (take sent frames.now)))) }
    {
        for sent in 0..frames.len() {
            let Ok(()) = self.send(heard, frame_at(frames, sent)) else {
                return Err(sent);
            };
        }
        Ok(())
    }

    /// An acknowledgement of all frames of an endpoint below `next` goes out, which says of those behind it which are
    /// held.
    fn acknowledge(&mut self, source: Endpoint, next: u64, held: u64) -> Result<(), SessionRefusal>
        requires { held % 2 ≡ 0 }
        ensures ok { OnOk result
            (self.new ≡
            record self.old { out = self.old.out ++ (source.rank, ack_bytes self.old.place source next held) ∷ [] }) }
        ensures unchanged { OnErr result (self.new ≡ self.old) }
        ensures err { IfErr result (λ e. e ≡ SessionRefusal.OutOfMemory) }
    {
        let ack = ack_bytes(&mut self.drafts, self.knowledge.place(), source, next, held)?;
        peers::emit(&mut self.out, source.rank, ack)
    }

    /// The frames that come into the window by an acknowledgement of all frames below `n` go out.
    fn let_in(&mut self, rank: u16, n: u64) -> Result<(), SessionRefusal>
        requires there { rank < length self.old.peers }
        requires sent { n ≤ out_end (peer_at self.old.peers rank).sender }
        ensures ok { OnOk result (self.new ≡ record self.old {
          out = self.old.out
              ++ frames_out rank (peer_at self.old.peers rank).sender
              (entered_on_ack (peer_at self.old.peers rank).sender n);
        }) }
        ensures unchanged { OnErr result (self.new ≡ self.old) }
        ensures err { IfErr result (λ e. e ≡ SessionRefusal.OutOfMemory) }
    {
        let sender = &peers::peer_at(&self.peers, rank).sender;
        let frames = peers::entering_frames(self.alloc, rank, sender, n)?;
        peers::emit_all(&mut self.out, frames)
    }

    /// What answers the word goes out.
    fn answer(&mut self, heard: Option<Heard<'_>>) -> Result<(), SessionRefusal>
        requires { CanSettle self.old.peers (heard_option heard) }
        ensures ok { OnOk result (self.new ≡ answered (heard_option heard.entry) self.old) }
        ensures unchanged { OnErr result (self.new ≡ self.old) }
        ensures err { IfErr result (λ e. e ≡ SessionRefusal.OutOfMemory) }
    {
        let Some(heard) = heard else {
            return Ok(());
        };
        let source = heard.source;
        let receiver = &peers::peer_at(&self.peers, source.rank).receiver;
        let next = receiver.next();
        match heard.word {
            LinkEvent::Acknowledges(n, _) => self.let_in(source.rank, n),
            LinkEvent::Repeats => {
                let held = receiver.held_bits();
                self.acknowledge(source, next, held)
            }
            LinkEvent::Hands(_) => {
                let held = receiver.held_bits_after_next();
                self.acknowledge(source, next + 1, held)
            }
            LinkEvent::Holds(early) => {
                let held = receiver.held_bits_with(early.number);
                self.acknowledge(source, next, held)
            }
            LinkEvent::Follows(_) | LinkEvent::Nothing => Ok(()),
        }
    }

    /// What answers the word goes out, and the frames are taken over; or nothing changes.
    fn answer_and_send(
        &mut self,
        heard: Option<Heard<'_>>,
        frames: &[Outgoing<'_>],
    ) -> Result<(), SessionRefusal>
        requires can { CanSettle self.old.peers (heard_option heard) }
        requires frames { All (CanSend self.old.place) (sendings frames.now) }
        requires limit { sends_limit (settled (heard_option heard) (answered (heard_option heard) self.old))
            (sendings frames.now) ≡ None }
        ensures ok { OnOk result
            (self.new ≡ sends_ahead (heard_option heard.entry) (answered (heard_option heard.entry) self.old)
            (sendings frames.now)) }
        ensures unchanged { OnErr result (self.new ≡ self.old) }
        ensures err { IfErr result (λ e. e ≡ SessionRefusal.OutOfMemory) }
    {
        let emitted = self.out.len();
        self.answer(heard)?;
        let Err(sent) = self.send_each(heard, frames) else {
            return Ok(());
        };
        take_back_each(&mut self.peers, &frames[..sent]);
        self.busy = peers::count_busy(&self.peers);
        self.out.truncate(emitted);
        Err(SessionRefusal::OutOfMemory)
    }

    /// The word is heeded, and the lesson learnt; or there is no memory, and nothing changes.
    fn commit(&mut self, heard: Heard<'_>) -> Result<(), SessionRefusal>
        requires { CanSettle self.old.peers (Some (heard_text heard)) }
        ensures ok { OnOk result (self.new ≡ settled (Some (heard_text heard.entry)) self.old) }
        ensures unchanged { OnErr result (self.new ≡ self.old) }
        ensures err { IfErr result (λ e. e ≡ SessionRefusal.OutOfMemory) }
    {
        // The place shows that there is one known incarnation for each rank.
        let _place = self.knowledge.place();
        let rank = heard.source.rank;
        let before = peers::busy_at(&self.peers, rank);
        on_link_event(&mut self.peers, &mut self.drafts, rank, heard.word)?;
        self.busy = self.busy - before + peers::busy_at(&self.peers, rank);
        learn(&mut self.knowledge, heard.lesson, heard.source);
        Ok(())
    }

    /// The frames are taken back that were taken over, and what went out behind the first so many datagrams.
    fn take_all_back(&mut self, frames: &[Outgoing<'_>], emitted: usize)
        requires { All (λ f. f.target < length self.old.peers) (sendings frames.now) }
        ensures { self.new ≡ record self.old {
          peers = all_taken_back self.old.peers (sendings frames.now);
          out = take emitted self.old.out;
        } }
    {
        take_back_each(&mut self.peers, frames);
        self.busy = peers::count_busy(&self.peers);
        self.out.truncate(emitted);
    }

    /// What answers the word goes out, the frames are taken over, the word is heeded, and the lesson learnt; or nothing
    /// changes.
    fn answer_and_settle(
        &mut self,
        heard: Heard<'_>,
        frames: &[Outgoing<'_>],
    ) -> Result<(), SessionRefusal>
        requires can { CanSettle self.old.peers (Some (heard_text heard)) }
        requires frames { All (CanSend self.old.place) (sendings frames.now) }
        requires limit { sends_limit (settled (Some (heard_text heard)) (answered (Some (heard_text heard)) self.old))
            (sendings frames.now) ≡ None }
        ensures ok { OnOk result (self.new ≡ settled (Some (heard_text heard.entry))
            (sends_ahead (Some (heard_text heard.entry)) (answered (Some (heard_text heard.entry)) self.old)
            (sendings frames.now))) }
        ensures unchanged { OnErr result (self.new ≡ self.old) }
        ensures err { IfErr result (λ e. e ≡ SessionRefusal.OutOfMemory) }
    {
        let emitted = self.out.len();
        self.answer_and_send(Some(heard), frames)?;
        match self.commit(heard) {
            Ok(()) => Ok(()),
            Err(refused) => {
                self.take_all_back(frames, emitted);
                Err(refused)
            }
        }
    }

    /// Both directions of the session with a rank start anew; the former session is handed out.
    fn begin_anew(&mut self, rank: u16) -> Peer
        requires { rank < length self.old.peers }
        ensures former { result ≡ peer_at self.old.peers rank }
        ensures clock { result.sender.clock ≤ self.new.clock }
        ensures state { self.new ≡ record self.old { peers = with_new_session self.old.peers rank } }
    {
        let before = peers::busy_at(&self.peers, rank);
        let former = peers::begin_anew_at(&mut self.peers, rank);
        self.busy = self.busy - before + peers::busy_at(&self.peers, rank);
        former
    }

    /// This is the session with a rank again.
    fn put_back(&mut self, rank: u16, former: Peer)
        requires there { rank < length self.old.peers }
        requires clock { former.sender.clock ≤ self.old.clock }
        ensures { self.new ≡ record self.old { peers = slice_set self.old.peers rank former } }
    {
        let before = peers::busy_at(&self.peers, rank);
        peers::put_at(&mut self.peers, rank, former);
        self.busy = self.busy - before + peers::busy_at(&self.peers, rank);
    }

    /// The same as `carry_out` where no limit is met and the source starts anew.
    fn carry_out_anew(
        &mut self,
        heard: Heard<'_>,
        frames: &[Outgoing<'_>],
    ) -> Result<(), SessionRefusal>
        requires can { CanHear self.old (Some (heard_text heard)) }
        requires lesson { IsTrue heard.lesson }
        requires frames { All (CanSend self.old.place) (sendings frames.now) }
        requires limit { event_limit self.old (Some (heard_text heard)) (sendings frames.now) ≡ None }
        ensures ok { OnOk result (self.new ≡ after_event self.old (Some (heard_text heard.entry)) (sendings frames.now)) }
        ensures unchanged { OnErr result (self.new ≡ self.old) }
        ensures err { IfErr result (λ e. e ≡ SessionRefusal.OutOfMemory) }
    {
        let rank = heard.source.rank;
        let former = self.begin_anew(rank);
        match self.answer_and_settle(heard, frames) {
            Ok(()) => {
                peers::take_places_at(&mut self.peers, rank, former);
                Ok(())
            }
            Err(refused) => {
                self.put_back(rank, former);
                Err(refused)
            }
        }
    }

    /// The same where the source goes on.
    fn carry_out_on(
        &mut self,
        heard: Heard<'_>,
        frames: &[Outgoing<'_>],
    ) -> Result<(), SessionRefusal>
        requires can { CanHear self.old (Some (heard_text heard)) }
        requires on { heard.lesson ≡ false }
        requires frames { All (CanSend self.old.place) (sendings frames.now) }
        requires limit { event_limit self.old (Some (heard_text heard)) (sendings frames.now) ≡ None }
        ensures ok { OnOk result (self.new ≡ after_event self.old (Some (heard_text heard.entry)) (sendings frames.now)) }
        ensures unchanged { OnErr result (self.new ≡ self.old) }
        ensures err { IfErr result (λ e. e ≡ SessionRefusal.OutOfMemory) }
    {
        self.answer_and_settle(heard, frames)
    }

    /// Takes in what was heard, if anything was, and then sends the frames, in this order: a new incarnation of the
    /// source is learnt and both directions of its session start anew; the word is heeded; each frame is kept under the
    /// next number of its session. Out go the acknowledgement, or the frames that come into the window by one, and then
    /// of the frames those that come into the window: at most 64 where all of them are for one rank.
    ///
    /// The caller has judged that no limit is met: see `limit_of` and `limit_of_replies`. So refused is with 14 alone,
    /// and that changes nothing.
    pub fn carry_out_judged(
        &mut self,
        heard: Option<Heard<'_>>,
        frames: &[Outgoing<'_>],
    ) -> Result<(), SessionRefusal>
        requires can { CanHear self.old (heard_option heard) }
        requires frames { All (CanSend self.old.place) (sendings frames.now) }
        requires limit { event_limit self.old (heard_option heard) (sendings frames.now) ≡ None }
        ensures ok { OnOk result
            (self.new ≡ after_event self.old (heard_option heard.entry) (sendings frames.now)) }
        ensures unchanged { OnErr result (self.new ≡ self.old) }
        ensures err { IfErr result (λ e. e ≡ SessionRefusal.OutOfMemory) }
        ensures few { length self.new.out ≤ length self.old.out +
            (most_answers (heard_option heard.entry) + length frames.now) }
        ensures within { OnOk result (StaysWithin (heard_option heard.entry) self.old self.new) }
        ensures placed { self.new.place ≡ self.old.place }
    {
        // Looking at the sessions shows that there is one for each rank.
        let _peers = &self.peers;
        match heard {
            Some(heard) if heard.lesson => self.carry_out_anew(heard, frames),
            Some(heard) => self.carry_out_on(heard, frames),
            None => self.answer_and_send(None, frames),
        }
    }

    /// Does what `carry_out_judged` does. Refused is with 13 exactly where `limit_of` says so, and else with 14. A
    /// refusal changes nothing.
    pub fn carry_out(
        &mut self,
        heard: Option<Heard<'_>>,
        frames: &[Outgoing<'_>],
    ) -> Result<(), SessionRefusal>
        requires can { CanHear self.old (heard_option heard) }
        requires frames { All (CanSend self.old.place) (sendings frames.now) }
        ensures exact { GivesUnless (event_limit self.old (heard_option heard.entry) (sendings frames.now)) self.old
            (after_event self.old (heard_option heard.entry) (sendings frames.now)) result self.new }
        ensures unchanged { OnErr result (self.new ≡ self.old) }
        ensures few { length self.new.out ≤ length self.old.out +
            (most_answers (heard_option heard.entry) + length frames.now) }
        ensures within { OnOk result (StaysWithin (heard_option heard.entry) self.old self.new) }
        ensures placed { self.new.place ≡ self.old.place }
    {
        if let Some(limit) = self.limit_of(heard, frames) {
            return Err(limit);
        }
        self.carry_out_judged(heard, frames)
    }

    /// Refuses what was not heard. Where a reset is due, it goes out; without memory for it the refusal is 14.
    pub fn refuse(&mut self, unheard: Unheard) -> SessionRefusal
        ensures exact { TurnedAway unheard.reset unheard.refused self.old result self.new }
        ensures few { length self.new.out ≤ length self.old.out + 1 }
        ensures placed { self.new.place ≡ self.old.place }
    {
        let Some(source) = unheard.reset else {
            return unheard.refused;
        };
        let place = self.knowledge.place();
        let Ok(reset) = reset_bytes(&mut self.drafts, place, source) else {
            return SessionRefusal::OutOfMemory;
        };
        match peers::emit(&mut self.out, source.rank, reset) {
            Ok(()) => unheard.refused,
            Err(refused) => refused,
        }
    }
}
