//! What follows a frame that is handed up: the frames that were held behind it, each as if it had come then, and the
//! answer of a blocked call at the end of all.
//!
//! A delivery has one acknowledgement, which stands first in what goes out. It is spelled before a turn is taken, since
//! nothing may fail behind one, and says then what the turn has reached.

ghost use Rattle.std.specs.Prelude.{◌≡◌, ◌≤◌, ◌<◌, ◌+◌, ◌*◌, length, Err, IfErr, IfOk, OnOk, Some, slice_set, suc};
ghost use Rattle.reliable_link.specs.ReceiverState.{advanced};
ghost use Rattle.sessions.specs.OutgoingOrder.{IsArranged};
ghost use Rattle.sessions.specs.Events.{taught_known};
ghost use Rattle.sessions.specs.HeldFrames.{ready_from, turn_of};
ghost use Rattle.sessions.specs.HeardBytes.{heard_text, word_text, CanHear, WordFits};
ghost use Rattle.sessions.specs.Peers.{peer_at};
ghost use Rattle.sessions.specs.Spellings.{ack_of};
ghost use Rattle.sessions.specs.Windows.{room};
ghost use Rattle.engine.specs.HeldFrameEnds.{FollowEnds, GoesOrStays, IsTurnRefusal, IsWant, LeavesTurn};
ghost use Rattle.engine.specs.HeldFrameEnds.{NextIsRefused};
ghost use Rattle.engine.specs.Datagrams.{HasFollowed, HeardGives, IsTakenInUnless, says_nothing, without_next};
ghost use Rattle.engine.specs.Datagrams.{turn_from, woken_engine};

use crate::datagrams::says_nothing;
use crate::engine::Engine;
use crate::refused_turns::refusal_of_next;
use datagram::Bytes;
use point_to_point::Refusal;
use reliable_link::WINDOW;
use sessions::{Heard, LinkEvent, turn_in};
use vocabulary::Endpoint;

impl Engine {
    /// The bytes of the next frame of a rank, where they are held; or they have too many owners (14).
    fn next_held(&self, rank: u16) -> Result<Option<Bytes>, Refusal>
        requires { rank < self.now.sessions.place.size }
        ensures ok { IfOk result (λ bytes. bytes ≡ ready_from self.now.sessions rank) }
        ensures err { IfErr result (λ e. e ≡ Refusal.OutOfMemory) }
        ensures peers { length self.now.sessions.peers ≡ self.now.sessions.place.size }
    {
        // The place shows that there is a session for each rank.
        let _place = self.parts.sessions.place();
        match self.parts.sessions.ready(rank) {
            Ok(bytes) => Ok(bytes),
            Err(_) => Err(Refusal::OutOfMemory),
        }
    }

    /// The acknowledgement that says that what the next frame of an endpoint says in these bytes was handed up. Refused
    /// is 13 where its number is the last one, and 14.
    fn spell_turn(
        &mut self,
        source: Endpoint,
        bytes: &Bytes,
        heard: Heard<'_>,
    ) -> Result<Bytes, Refusal>
        requires there { source.rank < self.old.sessions.place.size }
        requires turn { Some (heard_text heard) ≡ turn_of source bytes.now }
        ensures ack { IfOk result
            (λ ack. ack ≡
            ack_of self.old.sessions.place source (advanced (peer_at self.old.sessions.peers source.rank).receiver)) }
        ensures err { IfErr result IsWant }
        ensures kept { self.new ≡ self.old }
    {
        // The place shows that there is a session for each rank.
        let _place = self.parts.sessions.place();
        if self.parts.sessions.limit_of(Some(heard), &[]).is_some() {
            return Err(Refusal::Limit);
        }
        match self.parts.sessions.spell_behind(source) {
            Ok(ack) => Ok(ack),
            Err(_) => Err(Refusal::OutOfMemory),
        }
    }

    /// This goes out in the place of what was to go out there.
    fn replace(&mut self, at: usize, rank: u16, bytes: Bytes)
        requires { at < length self.old.sessions.out }
        ensures { self.new ≡
            record self.old {
              sessions =
                  record self.old.sessions { out = slice_set self.old.sessions.out at (rank, bytes) };
            } }
    {
        self.parts.sessions.replace(at, rank, bytes);
    }

    /// The next frame of an endpoint isn't held any more.
    fn discard(&mut self, source: Endpoint)
        requires { source.rank < self.old.sessions.place.size }
        ensures { self.new ≡ without_next self.old source }
    {
        self.parts.sessions.discard(source.rank);
    }

    /// With what the next frame of an endpoint would be refused, were there no memory at all.
    fn refuse_next(&mut self, source: Endpoint) -> Option<Refusal>
        requires { source.rank < self.old.sessions.place.size }
        ensures exact { NextIsRefused (turn_from self.old source) result self.old }
        ensures kept { self.new ≡ self.old }
    {
        let parts = &mut self.parts;
        refusal_of_next(&mut parts.core, &parts.sessions, source)
    }

    /// The next frame of an endpoint was refused so in its turn: with 30 it isn't held any more, with 13 and 14 it stays
    /// held. Answered is why it stays held, if it does.
    fn discard_or_keep(&mut self, source: Endpoint, refused: Refusal) -> Option<Refusal>
        requires { source.rank < self.old.sessions.place.size }
        ensures exact { IsTurnRefusal refused → GoesOrStays refused result source self.old self.new }
        ensures within { length self.new.sessions.out + room self.new.sessions.peers ≤ length self.old.sessions.out +
            room self.old.sessions.peers }
        ensures longer { length self.old.sessions.out ≤ length self.new.sessions.out }
        ensures known { self.new.sessions.known ≡ self.old.sessions.known }
        ensures placed { self.new.sessions.place ≡ self.old.sessions.place }
    {
        // The place shows that there is a session for each rank.
        let _place = self.parts.sessions.place();
        match refused {
            Refusal::BadFrame => {
                self.discard(source);
                None
            }
            Refusal::Limit => Some(Refusal::Limit),
            _ => Some(Refusal::OutOfMemory),
        }
    }

    /// Memory is wanting for the next frame of an endpoint. One that breaks a rule all the same isn't held any more, and
    /// any other stays held. Answered is why it stays held (13, 14), if it does.
    fn leave(&mut self, source: Endpoint) -> Option<Refusal>
        requires { source.rank < self.old.sessions.place.size }
        ensures exact { LeavesTurn (turn_from self.old source) result source self.old self.new }
        ensures within { length self.new.sessions.out + room self.new.sessions.peers ≤ length self.old.sessions.out +
            room self.old.sessions.peers }
        ensures longer { length self.old.sessions.out ≤ length self.new.sessions.out }
        ensures known { self.new.sessions.known ≡ self.old.sessions.known }
        ensures placed { self.new.sessions.place ≡ self.old.sessions.place }
    {
        match self.refuse_next(source) {
            Some(refused) => self.discard_or_keep(source, refused),
            None => None,
        }
    }

    /// Takes in the frames of an endpoint that were held behind the one that was handed up, so many at most, and the
    /// acknowledgement at this place says so. One that breaks a rule isn't held any more, whether or not there is
    /// memory, and one that meets a limit, or for which there is no memory, stays held; nothing follows either.
    /// Answered is why one stays held (13, 14), if one does.
    fn follow(&mut self, at: usize, source: Endpoint, turns: u32) -> Option<Refusal>
        requires there { source.rank < self.old.sessions.place.size }
        requires at { at < length self.old.sessions.out }
        ensures exact { FollowEnds result turns at source self.old self.new }
        ensures within { length self.new.sessions.out + room self.new.sessions.peers ≤ length self.old.sessions.out +
            room self.old.sessions.peers }
        ensures longer { length self.old.sessions.out ≤ length self.new.sessions.out }
        ensures known { self.new.sessions.known ≡ self.old.sessions.known }
        ensures placed { self.new.sessions.place ≡ self.old.sessions.place }
    {
        if turns == 0 {
            return None;
        }
        let held = match self.next_held(source.rank) {
            Ok(held) => held,
            Err(_) => return self.leave(source),
        };
        let Some(bytes) = held else {
            return None;
        };
        let Some(heard) = turn_in(source, &bytes) else {
            self.discard(source);
            return None;
        };
        let ack = match self.spell_turn(source, &bytes, heard) {
            Ok(ack) => ack,
            Err(_) => return self.leave(source),
        };
        match self.take_heard(heard) {
            Ok(()) => {
                self.replace(at, source.rank, ack);
                self.follow(at, source, turns - 1)
            }
            Err(refused) => self.discard_or_keep(source, refused),
        }
    }

    /// Behind this place what goes out stands by rising rank, and for one rank by its numbers.
    fn arrange(&mut self, at: usize)
        requires { at < length self.old.sessions.out }
        ensures same { self.new ≡ record self.old { sessions = self.new.sessions } }
        ensures arranged { IsArranged (suc at) self.old.sessions self.new.sessions }
    {
        // What is counted shows that there is a place behind.
        let _emitted = self.parts.sessions.emitted_count();
        self.parts.sessions.arrange(at + 1);
    }

    /// Takes in what was held behind a frame of an endpoint that was handed up, whose acknowledgement stands at this
    /// place.
    fn take_following(&mut self, at: usize, source: Endpoint)
        requires there { source.rank < self.old.sessions.place.size }
        requires at { at < length self.old.sessions.out }
        ensures exact { HasFollowed 64 at source self.old self.new }
        ensures within { length self.new.sessions.out + room self.new.sessions.peers ≤ length self.old.sessions.out +
            room self.old.sessions.peers }
        ensures known { self.new.sessions.known ≡ self.old.sessions.known }
        ensures placed { self.new.sessions.place ≡ self.old.sessions.place }
    {
        // No more frames are held than the window has places.
        let _why = self.follow(at, source, WINDOW as u32);
        self.arrange(at);
    }

    /// The blocked call is answered, if its answer is ready by now.
    fn wake(&mut self)
        ensures exact { self.new ≡ woken_engine self.old }
    {
        self.parts.core.wake();
    }

    /// Takes in what is heard, and what follows it, or refuses it; at the end a blocked call is answered. What says
    /// nothing new changes nothing.
    pub(crate) fn take_in(&mut self, heard: Heard<'_>) -> Result<(), Refusal>
        requires can { CanHear self.old.sessions (Some (heard_text heard)) }
        requires fits { WordFits (word_text heard.word) }
        requires there { heard.source.rank < self.old.sessions.place.size }
        ensures taken { OnOk result
            (IsTakenInUnless (says_nothing heard.entry.lesson (word_text heard.entry.word)) self.old
            (heard_text heard.entry) self.new) }
        ensures known { OnOk result (self.new.sessions.known ≡
            taught_known heard.entry.lesson self.old.sessions.known heard.entry.source) }
        ensures refused { IfErr result (λ e. HeardGives self.old (heard_text heard.entry) (Err e) self.new) }
        ensures few { length self.new.sessions.out ≤ length self.old.sessions.out + 65 * self.old.sessions.place.size }
        ensures placed { self.new.sessions.place ≡ self.old.sessions.place }
    {
        // The place shows that there is a session for each rank.
        let _place = self.parts.sessions.place();
        if says_nothing(heard) {
            return Ok(());
        }
        let at = self.parts.sessions.emitted_count();
        self.take_heard(heard)?;
        if let LinkEvent::Hands(_) = heard.word {
            self.take_following(at, heard.source);
        }
        self.wake();
        Ok(())
    }
}
