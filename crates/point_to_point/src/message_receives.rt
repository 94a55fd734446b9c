//! How a message is received that was taken out of matching (MPI 3.1, 3.8.3).

ghost use Rattle.std.specs.Prelude.{◌≡◌, ◌<◌, IfErr, IfOk, IfSome, None};
ghost use Rattle.datagram.specs.Spellings.{frame_text, FrameFits};
ghost use Rattle.point_to_point_calls.specs.CoreCalls as calls;
ghost use Rattle.point_to_point_calls.specs.Frames.{addressed};
ghost use Rattle.point_to_point_calls.specs.declared.refusal.Refusal.TheVariants as refusals;
ghost use Rattle.point_to_point.specs.Calls.{CanCollect, call_fault};
ghost use Rattle.point_to_point.specs.Messages.{Receives, collection_on_message, message_fault, message_frame};
ghost use Rattle.point_to_point.specs.Completions.{waited};

use crate::rank::Core;
use crate::receives::own_send_of;
use datagram::Outgoing;
use point_to_point_calls::{Refusal, answer_on_post, collection_on_post, null_status};
use rendezvous::Collection;
use requests::{Answer, Awaited, Outcome, ReceiveRegion, Region, Request};

impl Core {
    /// The fault of the receive of a message by its request, which is 6: what is received is no message that was taken
    /// out and isn't received. The message of the null process can always be received. It takes no memory.
    pub fn fault_of_message(&self, message: Option<Request>) -> Option<Refusal>
        ensures { result ≡ message_fault self.now.state message }
    {
        match message {
            None => None,
            Some(message) => {
                if self.requests.is_message(message) {
                    None
                } else {
                    Some(Refusal::Request)
                }
            }
        }
    }

    /// The frame that answers a message that is received, if it was announced. It takes no memory.
    #[tactic(auto, using(crate::proofs::ReceiveLaws::message_is_there))]
    pub fn answer_of_message(
        &self,
        message: Option<Request>,
        into: &Region,
    ) -> Option<Outgoing<'static>>
        ensures exact { addressed result ≡ message_frame self.now.state message into.now }
        ensures fits { IfSome result (λ a. FrameFits (frame_text a.frame)) }
        ensures there { IfSome result (λ a. a.target < self.now.state.place.size) }
    {
        match message {
            Some(message) => answer_on_post(into, self.requests.message(message)),
            None => None,
        }
    }

    /// The place for the data of a message that is received, where it was announced and is wanted.
    fn place_for_message(
        &self,
        message: Option<Request>,
        into: &Region,
    ) -> Result<Option<Collection>, Refusal>
        ensures ok { IfOk result (λ collection. collection ≡ collection_on_message self.now.state message into.now) }
        ensures err { IfErr result (λ e. e ≡ refusals.OutOfMemory) }
    {
        match message {
            Some(message) => collection_on_post(
                self.alloc,
                self.place.message_limit,
                into,
                message.key,
                self.requests.message(message),
            ),
            None => Ok(None),
        }
    }

    /// Makes ready the place for the data of a message that is received, if it was announced and is wanted; or finds
    /// that there is no memory (14). What the core holds stays as it is.
    pub fn prepare_message(
        &mut self,
        message: Option<Request>,
        into: &Region,
    ) -> Result<Option<Collection>, Refusal>
        ensures room { IfOk result (λ collection.
            CanCollect (collection_on_message self.new.state message into.now) self.new collection) }
        ensures kept { self.new.state ≡ self.old.state }
        ensures payloads { self.new.payloads ≡ self.old.payloads }
        ensures err { IfErr result (λ e. e ≡ refusals.OutOfMemory) }
    {
        let collection = self.place_for_message(message, into)?;
        self.make_room_to_collect(collection.is_some())?;
        Ok(collection)
    }

    /// Receives a message that was taken out, in what was made ready for it: its receive is over, and so answers; or it
    /// is waited for, and the call is blocked.
    #[tactic(auto, using(crate::proofs::FaultlessCalls::message_fits, crate::proofs::FaultlessCalls::none_blocked))]
    pub fn receive_message(
        &mut self,
        message: Option<Request>,
        into: Region,
        collection: Option<Collection>,
    ) -> Option<Answer>
        requires allowed { call_fault self.old.state (calls.Mrecv message into) ≡ None }
        requires room { CanCollect (collection_on_message self.old.state message into) self.old collection }
        ensures exact { Receives self.old.state message into (waited result) self.new.state }
        ensures placed { self.new.state.place ≡ self.old.state.place }
        ensures payloads { self.new.payloads ≡ self.old.payloads }
    {
        let Some(request) = message else {
            drop(collection);
            return Some(Answer::One(Outcome::Received(null_status(), into.buffer)));
        };
        let own = own_send_of(self.requests.message(request));
        self.collect(collection);
        self.requests.receive(request.key, ReceiveRegion::new(into));
        self.finish_own(own);
        self.wait(Awaited::One(Some(request)))
    }
}
