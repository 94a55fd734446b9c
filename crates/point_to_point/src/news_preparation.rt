//! Which rule news break, and how what they need is made ready.

ghost use Rattle.std.specs.Prelude.{◌≡◌, ◌<◌, ◌&&◌, ◌==◌, true, IfOk, IfErr, OnErr, OnOk, is_some};
ghost use Rattle.std.specs.List.{list_any};
ghost use Rattle.datagram.specs.Spellings.{frame_text, request_text};
ghost use Rattle.requests.specs.Table.{after_replaces, slot_at, wants_by};
ghost use Rattle.point_to_point_calls.specs.FrameNews.{HeardFits, bad_unless, first_of, frame_fault, frame_option};
ghost use Rattle.point_to_point_calls.specs.FrameNews.{match_by, needs_message_room, news_need_memory, news_text};
ghost use Rattle.point_to_point_calls.specs.FrameNews.{transfers_met};
ghost use Rattle.point_to_point.specs.Arrivals.{CanTake, KeysFit, collection_for, collection_for_announced};
ghost use Rattle.point_to_point.specs.Arrivals.{keys_ending, match_of, news_fault, after_lesson};
ghost use Rattle.rendezvous.specs.State.{is_next, is_due, offered};
ghost use Rattle.point_to_point_calls.specs.declared.refusal.Refusal.TheVariants as refusals;

use crate::rank::Core;
use datagram::{Data, Frame, RequestToSend};
use match_queues::{Message, PostedReceive};
use point_to_point_calls::{
    Match, News, PreparedNews, Refusal, announced_of, bad_unless, collection_of_match,
    fault_of_plane, first_of, message_from,
};
use rendezvous::Collection;
use vocabulary::{BasicType, Endpoint};

fn is_among(keys: &[usize], wanted: usize) -> bool
    ensures { result ≡ list_any (λ key. key == wanted) keys.now }
{
    keys.iter().any(|key| *key == wanted)
}

impl Core {
    /// Whether the rank's next announcement has this number: with a lesson its session starts anew, from 0.
    #[tactic(auto, using(crate::proofs::Endings::first_is_next))]
    pub fn is_next(&self, rank: u16, lesson: bool, transfer: u32) -> bool
        ensures { result ≡ is_next (transfers_met lesson self.now.state.transfers rank).numbers rank transfer }
    {
        if lesson {
            return rank < self.place.size && transfer == 0;
        }
        self.transfers.is_next(rank, transfer)
    }

    /// Whether the transfer is offered to the rank: with a lesson none is.
    #[tactic(auto, using(crate::proofs::Endings::none_offered))]
    fn is_offered(&self, rank: u16, lesson: bool, transfer: u32) -> bool
        ensures { result ≡ is_some (offered (transfers_met lesson self.now.state.transfers rank) rank transfer) }
    {
        if lesson {
            return false;
        }
        self.transfers.offer(rank, transfer).is_some()
    }

    /// Whether these are the next data of the transfer from the rank: with a lesson none are due.
    #[tactic(auto, using(crate::proofs::Endings::none_due))]
    fn is_due(&self, rank: u16, lesson: bool, piece: Data<'_>) -> bool
        ensures { result ≡ is_due (transfers_met lesson self.now.state.transfers rank).collections rank
            piece.entry.transfer piece.entry.offset piece.entry.bytes.now }
    {
        if lesson {
            return false;
        }
        self.transfers
            .is_due(rank, piece.transfer, piece.offset, piece.bytes)
    }

    /// The rule that a frame of the rank breaks, once the lesson is learnt.
    fn fault_of_frame(&self, rank: u16, lesson: bool, frame: Frame<'_>) -> Option<Refusal>
        ensures { result ≡ frame_fault (transfers_met lesson self.now.state.transfers rank) rank
            (frame_text frame.entry) }
    {
        match frame {
            Frame::Eager(eager) => fault_of_plane(eager.plane),
            Frame::RequestToSend(request) => first_of(
                fault_of_plane(request.plane),
                bad_unless(self.is_next(rank, lesson, request.transfer)),
            ),
            Frame::ClearToSend(answer) => {
                bad_unless(self.is_offered(rank, lesson, answer.transfer))
            }
            Frame::Data(piece) => bad_unless(self.is_due(rank, lesson, piece)),
        }
    }

    /// The rule that news break: 30 (a message of a collective operation, which isn't the core's; an announcement under
    /// another number than the next; an answer to a transfer that is not offered; data that are not due). With a lesson
    /// the session with the rank starts anew, and no transfer of the former one is left. It takes no memory.
    pub fn fault_of_news(&self, news: News<'_>) -> Option<Refusal>
        ensures { result ≡ news_fault self.now.state (news_text news.entry) }
    {
        match news.frame {
            Some(frame) => self.fault_of_frame(news.source.rank, news.lesson, frame),
            None => None,
        }
    }

    /// The keys of the requests that end since the rank was started anew.
    fn keys_ending(&self, source: Endpoint) -> Result<Vec<usize>, Refusal>
        ensures ok { IfOk result (λ keys. keys.items ≡ keys_ending self.now.state source) }
        ensures err { IfErr result (λ e. e ≡ refusals.OutOfMemory) }
    {
        let Ok(mut keys) = self.queues.keys_naming(self.alloc, source.rank) else {
            return Err(Refusal::OutOfMemory);
        };
        let Ok(mut others) = self.transfers.keys_with(self.alloc, source.rank) else {
            return Err(Refusal::OutOfMemory);
        };
        let Ok(messages) = self
            .requests
            .keys_of_messages(self.alloc, source.rank, source.incarnation)
        else {
            return Err(Refusal::OutOfMemory);
        };
        if others.extend_from_slice(&messages).is_err() {
            return Err(Refusal::OutOfMemory);
        }
        match keys.extend_from_slice(&others) {
            Ok(()) => Ok(keys),
            Err(_) => Err(Refusal::OutOfMemory),
        }
    }

    /// The keys of the requests that end where the incarnation of the rank is new here; none where it isn't.
    fn keys_for(&self, source: Endpoint, lesson: bool) -> Result<Option<Vec<usize>>, Refusal>
        ensures keys { IfOk result (λ keys. KeysFit lesson keys self.now.state source) }
        ensures err { IfErr result (λ e. e ≡ refusals.OutOfMemory) }
        ensures need { OnErr result (lesson ≡ true) }
    {
        if !lesson {
            return Ok(None);
        }
        match self.keys_ending(source) {
            Ok(keys) => Ok(Some(keys)),
            Err(refused) => Err(refused),
        }
    }

    /// Whether the receive under this key has room for a message of this type and so many elements, once the requests
    /// under some keys have ended.
    #[tactic(auto, using(crate::proofs::Endings::ended_wants_none, crate::proofs::Endings::left_wants))]
    fn wants_after(&self, ended: &[usize], key: usize, basic: BasicType, count: u64) -> bool
        ensures { result ≡ wants_by (slot_at (after_replaces self.now.state.slots ended.now) key) basic count }
    {
        if is_among(ended, key) {
            return false;
        }
        self.requests.wants(key, basic, count)
    }

    /// What this receive, if there is one, makes of a message, once the requests under some keys have ended.
    fn match_by(
        &self,
        receive: Option<PostedReceive>,
        message: &Message,
        ended: &[usize],
    ) -> Option<Match>
        ensures { result ≡ match_by (after_replaces self.now.state.slots ended.now) receive message.now }
    {
        match receive {
            Some(receive) => {
                let key = receive.request;
                let count = message.count() as u64;
                Some(Match {
                    key,
                    wanted: self.wants_after(ended, key, message.basic(), count),
                })
            }
            None => None,
        }
    }

    /// The receive that a message finds, once the lesson is learnt under whose keys requests end.
    pub(crate) fn match_for(
        &self,
        source: Endpoint,
        message: &Message,
        keys: &Option<Vec<usize>>,
    ) -> Option<Match>
        requires { KeysFit (is_some keys.now) keys.now self.now.state source }
        ensures { result ≡ match_of (after_lesson (is_some keys.now) self.now.state source) message.now }
    {
        match keys {
            Some(keys) => {
                let receive = self.queues.receive_for_unnamed(message, source.rank);
                self.match_by(receive, message, keys)
            }
            None => self.match_by(self.queues.receive_for(message), message, &[]),
        }
    }

    /// The place for the data of the message that a request to send announces, if a receive finds it and wants them.
    fn collection_for_request(
        &self,
        source: Endpoint,
        request: &RequestToSend,
        keys: &Option<Vec<usize>>,
    ) -> Result<Option<Collection>, Refusal>
        requires { KeysFit (is_some keys.now) keys.now self.now.state source }
        ensures ok { IfOk result (λ collection. collection ≡ collection_for_announced
            (after_lesson (is_some keys.now) self.now.state source) source (request_text request.now)) }
        ensures err { IfErr result (λ e. e ≡ refusals.OutOfMemory) }
        ensures need { OnErr result (is_some (collection_for_announced
            (after_lesson (is_some keys.now) self.now.state source) source (request_text request.now)) ≡ true) }
    {
        let message = announced_of(source, request);
        let found = self.match_for(source, &message, keys);
        collection_of_match(self.alloc, self.place.message_limit, found, &message)
    }

    /// The place for the data of the message that the frame announces, if one came and announces one.
    fn collection_for(
        &self,
        source: Endpoint,
        frame: Option<Frame<'_>>,
        keys: &Option<Vec<usize>>,
    ) -> Result<Option<Collection>, Refusal>
        requires { KeysFit (is_some keys.now) keys.now self.now.state source }
        ensures ok { IfOk result (λ collection. collection
            ≡ collection_for (after_lesson (is_some keys.now) self.now.state source) source
            (frame_option frame.entry)) }
        ensures err { IfErr result (λ e. e ≡ refusals.OutOfMemory) }
        ensures need { OnErr result
            (is_some (collection_for (after_lesson (is_some keys.now) self.now.state source) source
            (frame_option frame.entry)) ≡ true) }
    {
        match frame {
            Some(Frame::RequestToSend(request)) => {
                self.collection_for_request(source, &request, keys)
            }
            Some(Frame::Eager(_) | Frame::ClearToSend(_) | Frame::Data(_)) | None => Ok(None),
        }
    }

    fn make_room_for_message(&mut self, frame: Option<Frame<'_>>) -> Result<(), Refusal>
        ensures room { OnOk result (needs_message_room (frame_option frame.entry) ≡ true → 0 < self.new.messages) }
        ensures kept { self.new ≡ record self.old { places = self.new.places; messages = self.new.messages } }
        ensures err { IfErr result (λ e. e ≡ refusals.OutOfMemory) }
        ensures need { OnErr result (needs_message_room (frame_option frame.entry) ≡ true) }
    {
        let Some(Frame::Eager(_) | Frame::RequestToSend(_)) = frame else {
            return Ok(());
        };
        match self.queues.reserve_message() {
            Ok(()) => Ok(()),
            Err(_) => Err(Refusal::OutOfMemory),
        }
    }

    /// Makes ready what news that break no rule need, or finds that there is no memory (14), which an answer and data
    /// without a lesson do not need. What the core holds stays as it is.
    pub fn prepare_news(&mut self, news: News<'_>) -> Result<PreparedNews, Refusal>
        requires { HeardFits (frame_option news.frame) }
        ensures can { IfOk result (λ ready. CanTake self.new (news_text news.entry) ready) }
        ensures kept { self.new.state ≡ self.old.state }
        ensures payloads { self.new.payloads ≡ self.old.payloads }
        ensures err { IfErr result (λ e. e ≡ refusals.OutOfMemory) }
        ensures need { OnErr result (news_need_memory (news_text news.entry) ≡ true) }
    {
        let keys = self.keys_for(news.source, news.lesson)?;
        // What is held is dropped by name where a step fails: that is one step of the proof each, and not one for each
        // variant.
        let message = match message_from(self.alloc, news.source, news.frame) {
            Ok(message) => message,
            Err(refused) => {
                drop(keys);
                return Err(refused);
            }
        };
        let collection = match self.collection_for(news.source, news.frame, &keys) {
            Ok(collection) => collection,
            Err(refused) => {
                drop(keys);
                drop(message);
                return Err(refused);
            }
        };
        let ready = PreparedNews {
            keys,
            message,
            collection,
        };
        if let Err(refused) = self.make_room_for_message(news.frame) {
            drop(ready);
            return Err(refused);
        }
        if let Err(refused) = self.make_room_to_collect(ready.collection.is_some()) {
            drop(ready);
            return Err(refused);
        }
        Ok(ready)
    }
}
