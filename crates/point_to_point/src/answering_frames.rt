//! Which frames news call for.

ghost use Rattle.std.specs.Prelude.{◌≡◌, ◌≤◌, IfOk, IfErr, OnErr, None, true, is_some, length, map};
ghost use Rattle.std.specs.List.{AllByRecursion};
ghost use Rattle.datagram.specs.Spellings.{request_text, outgoing_text};
ghost use Rattle.match_queues.specs.State.{receive_at, receive_for};
ghost use Rattle.rendezvous.specs.State.{offered};
ghost use Rattle.point_to_point_calls.specs.Frames.{addressed, as_list};
ghost use Rattle.point_to_point_calls.specs.FrameNews.{CanGo, asks_for_data, data_frames, frame_option, news_text};
ghost use Rattle.point_to_point_calls.specs.FrameNews.{wanted_frames};
ghost use Rattle.point_to_point.specs.Arrivals.{CanTake, KeysFit, answer_to_announced, any_is_answered, called_for};
ghost use Rattle.point_to_point.specs.Arrivals.{news_are_answered, news_fault, news_frames, after_lesson};
ghost use Rattle.point_to_point_calls.specs.declared.refusal.Refusal.TheVariants as refusals;

use crate::rank::Core;
use datagram::{ClearToSend, Clearance, Data, Frame, Outgoing, RequestToSend};
use match_queues::Message;
use point_to_point_calls::{
    News, PreparedNews, Refusal, announced_of, answer_to_match, data_frames, list_of,
};
use rendezvous::piece_count;
use vocabulary::Endpoint;

impl Core {
    /// The frames of the data of an offer that a rank answers, if it wants them: with a lesson nothing is offered to
    /// it.
    #[tactic(auto, using(crate::proofs::Replies::nothing_wanted))]
    fn wanted_frames(
        &self,
        source: Endpoint,
        lesson: bool,
        answer: ClearToSend,
    ) -> Result<Vec<Outgoing<'_>>, Refusal>
        ensures ok { IfOk result (λ frames. map outgoing_text frames.items
            ≡ wanted_frames (after_lesson lesson self.now.state source).place.message_limit source.rank answer.clearance
            (offered (after_lesson lesson self.now.state source).transfers source.rank answer.transfer)) }
        ensures err { IfErr result (λ e. e ≡ refusals.OutOfMemory) }
        ensures need { OnErr result (asks_for_data answer.clearance
            (offered (after_lesson lesson self.now.state source).transfers source.rank answer.transfer) ≡ true) }
    {
        if lesson {
            return Ok(Vec::new(self.alloc));
        }
        if let Clearance::Drop = answer.clearance {
            return Ok(Vec::new(self.alloc));
        }
        match self.transfers.offer(source.rank, answer.transfer) {
            Some(offer) => data_frames(self.alloc, self.place.message_limit, source.rank, offer),
            None => Ok(Vec::new(self.alloc)),
        }
    }

    /// The answer to an announcement that is matched, once the lesson is learnt under whose keys requests end.
    fn answer_to_announced(
        &self,
        source: Endpoint,
        request: &RequestToSend,
        keys: &Option<Vec<usize>>,
    ) -> Option<Outgoing<'static>>
        requires { KeysFit (is_some keys.now) keys.now self.now.state source }
        ensures { addressed result ≡ answer_to_announced (after_lesson (is_some keys.now) self.now.state source) source
            (request_text request.now) }
    {
        let message = announced_of(source, request);
        let found = self.match_for(source, &message, keys);
        answer_to_match(found, &message)
    }

    /// Whether a receive waits for a message that is announced, once the lesson is learnt.
    fn is_awaited(&self, source: Endpoint, lesson: bool, message: &Message) -> bool
        ensures { result ≡ is_some (receive_at (after_lesson lesson self.now.state source).queues.posted
            (receive_for message.now (after_lesson lesson self.now.state source).queues.posted)) }
    {
        if lesson {
            return self
                .queues
                .receive_for_unnamed(message, source.rank)
                .is_some();
        }
        self.queues.receive_for(message).is_some()
    }

    /// How many frames answer an announcement: one where it is matched, once the lesson is learnt.
    #[tactic(auto, using(crate::proofs::Replies::answers_are))]
    fn answer_count(&self, source: Endpoint, lesson: bool, request: &RequestToSend) -> usize
        ensures { result ≡
            length (as_list
            (answer_to_announced (after_lesson lesson self.now.state source) source (request_text request.now))) }
    {
        let message = announced_of(source, request);
        usize::from(self.is_awaited(source, lesson, &message))
    }

    /// How many frames the data of an offer make that a rank answers, if it wants them: with a lesson nothing is
    /// offered to it.
    #[tactic(auto, using(crate::proofs::Replies::no_many_wanted, crate::proofs::Replies::wanted_many))]
    fn wanted_count(&self, source: Endpoint, lesson: bool, answer: ClearToSend) -> usize
        ensures { result ≡ length
            (wanted_frames (after_lesson lesson self.now.state source).place.message_limit source.rank answer.clearance
            (offered (after_lesson lesson self.now.state source).transfers source.rank answer.transfer)) }
    {
        if lesson {
            return 0;
        }
        if let Clearance::Drop = answer.clearance {
            return 0;
        }
        match self.transfers.offer(source.rank, answer.transfer) {
            Some(offer) => piece_count(self.place.message_limit, &offer.elements),
            None => 0,
        }
    }

    /// How many frames news call for: see `frames_for`. It takes no memory.
    pub fn frame_count(&self, news: News<'_>) -> usize
        ensures { result ≡ length (news_frames self.now.state (news_text news.entry)) }
    {
        match news.frame {
            Some(Frame::RequestToSend(request)) => {
                self.answer_count(news.source, news.lesson, &request)
            }
            Some(Frame::ClearToSend(answer)) => {
                self.wanted_count(news.source, news.lesson, answer)
            }
            Some(Frame::Eager(_) | Frame::Data(_)) | None => 0,
        }
    }

    /// The frames that a frame calls for, if one came.
    fn frames_after(
        &self,
        source: Endpoint,
        lesson: bool,
        frame: Option<Frame<'_>>,
        keys: &Option<Vec<usize>>,
    ) -> Result<Vec<Outgoing<'_>>, Refusal>
        requires { KeysFit lesson keys.now self.now.state source }
        ensures exact { IfOk result (λ frames. map outgoing_text frames.items
            ≡ called_for (after_lesson lesson self.now.state source) source (frame_option frame.entry)) }
        ensures err { IfErr result (λ e. e ≡ refusals.OutOfMemory) }
        ensures need { OnErr result
            (any_is_answered (after_lesson lesson self.now.state source) source (frame_option frame.entry) ≡ true) }
    {
        match frame {
            Some(Frame::RequestToSend(request)) => list_of(
                self.alloc,
                self.answer_to_announced(source, &request, keys),
            ),
            Some(Frame::ClearToSend(answer)) => self.wanted_frames(source, lesson, answer),
            Some(Frame::Eager(_) | Frame::Data(_)) | None => Ok(Vec::new(self.alloc)),
        }
    }

    /// The frames that news that break no rule call for, lent from the core: the answer to an announcement that is
    /// matched, and the data of an offer that are wanted. They are at most 2,097,152. It fails for want of memory alone
    /// (14), and only where an announcement is matched or data are asked for.
    pub fn frames_for<'a>(
        &'a self,
        news: News<'_>,
        ready: &PreparedNews,
    ) -> Result<Vec<Outgoing<'a>>, Refusal>
        requires allowed { news_fault self.now.state (news_text news) ≡ None }
        requires can { CanTake self.now (news_text news) ready.now }
        ensures exact { IfOk result (λ frames. map outgoing_text frames.items ≡
            news_frames self.now.state (news_text news.entry)) }
        ensures go { AllByRecursion (CanGo self.now.state.place.size) (news_frames self.now.state (news_text news.entry)) }
        ensures few { length (news_frames self.now.state (news_text news.entry)) ≤ 2097152 }
        ensures err { IfErr result (λ e. e ≡ refusals.OutOfMemory) }
        ensures need { OnErr result (news_are_answered self.now.state (news_text news.entry) ≡ true) }
    {
        // The place shows that the rank is below the size of the job.
        let _place = &self.place;
        self.frames_after(news.source, news.lesson, news.frame, &ready.keys)
    }
}
