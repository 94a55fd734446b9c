//! How a core takes in what is heard from another rank.

ghost use Rattle.std.specs.Prelude.{◌≡◌, ◌<◌, ◌≤◌, true, None, is_some};
ghost use Rattle.datagram.specs.Spellings.{request_text};
ghost use Rattle.match_queues.specs.Arrivals.{arrival_of};
ghost use Rattle.rendezvous.specs.State.{is_due, is_next};
ghost use Rattle.point_to_point.specs.CoreState.{IsAnswerable};
ghost use Rattle.point_to_point_calls.specs.ReceiveMatches.{collection_on_arrival};
ghost use Rattle.point_to_point.specs.Sends.{after_message};
ghost use Rattle.point_to_point.specs.Completions.{after_wake};
ghost use Rattle.point_to_point_calls.specs.FrameNews.{news_text, frame_option, IsWhole, needs_message_room, heard_fault};
ghost use Rattle.point_to_point_calls.specs.FrameNews.{message_from, announced_of};
ghost use Rattle.point_to_point.specs.Arrivals.{news_fault, CanTake, KeysFit, after_any, collection_for, after_lesson};
ghost use Rattle.point_to_point.specs.Arrivals.{after_announcement, after_answer, after_piece, after_news, payloads_met};

use crate::rank::Core;
use datagram::{ClearToSend, Data, Frame, RequestToSend};
use match_queues::{Arrival, Body, Message};
use point_to_point_calls::{News, PreparedNews, announced_of, status_of};
use rendezvous::Collection;
use vocabulary::{Endpoint, replace};

impl Core {
    /// The message ends the oldest receive that accepts it, or is kept in the room that there is. One that was
    /// announced is collected where that receive wants its data.
    #[tactic(auto, unfolding(crate::specs::Sends::after_message))]
    fn receive_or_keep(&mut self, message: Message, collection: Option<Collection>)
        requires room { 0 < self.old.messages }
        requires answerable { IsAnswerable self.old.state.place.size message message.body }
        requires collection { collection ≡ collection_on_arrival self.old.state.place.message_limit self.old.state.slots
            (arrival_of self.old.state.queues message) }
        requires place { is_some collection ≡ true → 0 < self.old.collections }
        ensures exact { self.new.state ≡ after_message self.old.state message }
        ensures placed { self.new.state.place ≡ self.old.state.place }
        ensures payloads { self.new.payloads ≡ self.old.payloads }
    {
        let Arrival::Matched(receive, message) = self.queues.arrive(message) else {
            drop(collection);
            return;
        };
        let status = status_of(&message);
        match message.body {
            Body::Whole(elements) => {
                drop(collection);
                self.requests.finish(receive.request, status, elements);
            }
            Body::Own(own) => {
                drop(collection);
                self.requests.finish(receive.request, status, own.elements);
                self.requests.finish_send(own.key);
            }
            Body::Announced(announcement) => {
                self.requests
                    .announce(receive.request, status, announcement.basic);
                if let Some(collection) = collection {
                    self.transfers.collect(collection);
                }
            }
        }
    }

    /// The message, whose data are there, ends the oldest receive that accepts it, or is kept in the room that there
    /// is.
    pub(crate) fn arrive(&mut self, message: Message)
        requires room { 0 < self.old.messages }
        requires whole { IsWhole message.body }
        ensures exact { self.new.state ≡ after_message self.old.state message }
        ensures placed { self.new.state.place ≡ self.old.state.place }
        ensures payloads { self.new.payloads ≡ self.old.payloads }
    {
        self.receive_or_keep(message, None);
    }

    /// A message is announced: its transfer is counted.
    fn announce(&mut self, source: Endpoint, request: RequestToSend, collection: Option<Collection>)
        requires room { 0 < self.old.messages }
        requires next { is_next self.old.state.transfers.numbers source.rank request.transfer ≡ true }
        requires collection { collection ≡ collection_on_arrival self.old.state.place.message_limit self.old.state.slots
            (arrival_of self.old.state.queues (announced_of source (request_text request))) }
        requires place { is_some collection ≡ true → 0 < self.old.collections }
        ensures exact { self.new.state ≡ after_announcement self.old.state source (request_text request) }
        ensures placed { self.new.state.place ≡ self.old.state.place }
        ensures payloads { self.new.payloads ≡ self.old.payloads }
    {
        self.transfers.on_rts(source.rank, request.transfer);
        self.receive_or_keep(announced_of(source, &request), collection);
    }

    /// An offer is answered: its send is over (MPI 3.1, 3.4).
    fn finish_offer(&mut self, rank: u16, answer: ClearToSend)
        ensures exact { self.new.state ≡ after_answer self.old.state rank answer.transfer }
        ensures placed { self.new.state.place ≡ self.old.state.place }
        ensures payloads { self.new.payloads ≡ self.old.payloads }
    {
        if let Some(offer) = self.transfers.on_cts(rank, answer.transfer) {
            self.requests.finish_send(offer.request);
        }
    }

    /// The next data of a transfer end its receive, once they are all there.
    fn grow(&mut self, rank: u16, piece: Data<'_>)
        requires { is_due self.old.state.transfers.collections rank piece.transfer piece.offset piece.bytes.now ≡ true }
        ensures exact { self.new.state ≡ after_piece self.old.state rank piece.entry.transfer piece.entry.bytes.now }
        ensures placed { self.new.state.place ≡ self.old.state.place }
        ensures payloads { self.new.payloads ≡ self.old.payloads }
    {
        if let Some(collected) = self
            .transfers
            .on_data(rank, piece.transfer, piece.offset, piece.bytes)
        {
            self.requests.deliver(collected.request, collected.elements);
        }
    }

    /// With a lesson the requests under these keys end, and what former incarnations sent and what went to them is
    /// dropped.
    fn learn(&mut self, source: Endpoint, keys: Option<Vec<usize>>)
        requires { KeysFit (is_some keys) keys self.old.state source }
        ensures state { self.new.state ≡ after_lesson (is_some keys) self.old.state source }
        ensures placed { self.new.state.place ≡ self.old.state.place }
        ensures payloads { self.new.payloads.state ≡ payloads_met (is_some keys) self.old.payloads.state source.rank }
        ensures announced { self.old.payloads.more_announced ≤ self.new.payloads.more_announced }
        ensures coming { self.old.payloads.more_coming ≤ self.new.payloads.more_coming }
        ensures room { self.old.messages ≤ self.new.messages }
        ensures collections { self.old.collections ≤ self.new.collections }
    {
        if let Some(keys) = keys {
            self.requests.replace_each(&keys);
            self.queues.drop_from(source.rank, source.incarnation);
            self.transfers.drop_from(source.rank);
        }
    }

    /// What a frame of an endpoint makes of the core, if one came: its message comes, the transfer that it announces is
    /// counted, the send that it answers is over, or its data are put to those that came before.
    #[tactic(auto, using(crate::proofs::Allowances::allowed, crate::proofs::Allowances::second_of, crate::proofs::Allowances::whole_so))]
    fn take_frame(
        &mut self,
        source: Endpoint,
        frame: Option<Frame<'_>>,
        message: Option<Message>,
        collection: Option<Collection>,
    )
        requires allowed { heard_fault self.old.state.transfers source.rank (frame_option frame) ≡ None }
        requires message { message ≡ message_from source (frame_option frame) }
        requires room { needs_message_room (frame_option frame) ≡ true → 0 < self.old.messages }
        requires collection { collection ≡ collection_for self.old.state source (frame_option frame) }
        requires place { is_some collection ≡ true → 0 < self.old.collections }
        ensures exact { self.new.state ≡ after_any self.old.state source (frame_option frame.entry) }
        ensures placed { self.new.state.place ≡ self.old.state.place }
        ensures payloads { self.new.payloads ≡ self.old.payloads }
    {
        // What isn't used up is dropped by name: that is one step of the proof each, and not one for each variant.
        match frame {
            None => {
                drop(message);
                drop(collection);
            }
            Some(Frame::Eager(_)) => {
                drop(collection);
                if let Some(message) = message {
                    self.arrive(message);
                }
            }
            Some(Frame::RequestToSend(request)) => {
                drop(message);
                self.announce(source, request, collection);
            }
            Some(Frame::ClearToSend(answer)) => {
                drop(message);
                drop(collection);
                self.finish_offer(source.rank, answer);
            }
            Some(Frame::Data(piece)) => {
                drop(message);
                drop(collection);
                self.grow(source.rank, piece);
            }
        }
    }

    /// Takes in news that break no rule and were made ready: first the lesson, then the frame. A blocked call is
    /// answered by `wake`, once the event is over. It takes no memory.
    ///
    /// With a lesson the requests that wait for the rank end as replaced, with their buffers as they were: receives
    /// that name it or collect from it, and sends that wait for its answer. Messages from its former incarnations that
    /// were not received are dropped, and the receive of one that was taken out ends as replaced; the session's
    /// transfers start anew, those of payloads of collectives among them.
    /// MPI 3.1 has no restarts of a rank: these rules are this project's own.
    pub fn take_news(&mut self, news: News<'_>, ready: PreparedNews)
        requires allowed { news_fault self.old.state (news_text news) ≡ None }
        requires can { CanTake self.old (news_text news) ready }
        ensures exact { self.new.state ≡ after_news self.old.state (news_text news.entry) }
        ensures placed { self.new.state.place ≡ self.old.state.place }
        ensures payloads { self.new.payloads.state ≡ payloads_met news.entry.lesson self.old.payloads.state news.entry.source.rank }
        ensures announced { self.old.payloads.more_announced ≤ self.new.payloads.more_announced }
        ensures coming { self.old.payloads.more_coming ≤ self.new.payloads.more_coming }
    {
        let PreparedNews {
            keys,
            message,
            collection,
        } = ready;
        self.learn(news.source, keys);
        self.take_frame(news.source, news.frame, message, collection);
    }

    /// Answers the blocked call, if its answer is ready now; else it stays blocked (MPI 3.1, 3.7.3 and 3.7.5). It is
    /// called once for each event, behind everything that the event hands up, since one that waits for any of several
    /// requests is answered by all that has ended then. It takes no memory.
    #[tactic(auto, unfolding(crate::specs::Completions::after_wake))]
    pub fn wake(&mut self)
        ensures exact { self.new.state ≡ after_wake self.old.state }
        ensures placed { self.new.state.place ≡ self.old.state.place }
        ensures payloads { self.new.payloads ≡ self.old.payloads }
    {
        if let Some(awaited) = self.blocked.take() {
            match self.requests.complete(awaited) {
                Ok(answer) => replace(&mut self.completion, Some(answer)),
                Err(awaited) => replace(&mut self.blocked, Some(awaited)),
            }
        }
    }
}
