//! How a core starts receives: the message that one finds, what it needs, and what it leaves.

ghost use Rattle.std.specs.Option.{option_copied};
ghost use Rattle.std.specs.Prelude.{◌≡◌, ◌<◌, true, IfErr, IfOk, IfSome, None, OnErr, OnOk, is_some};
ghost use Rattle.datagram.specs.Spellings.{frame_text, FrameFits};
ghost use Rattle.requests.specs.Regions.{CanReceive};
ghost use Rattle.point_to_point_calls.specs.CoreCalls as calls;
ghost use Rattle.point_to_point_calls.specs.Frames.{addressed};
ghost use Rattle.point_to_point_calls.specs.ReceiveMatches.{collection_on_post, posted_by, transfers_with};
ghost use Rattle.point_to_point_calls.specs.declared.refusal.Refusal.TheVariants as refusals;
ghost use Rattle.point_to_point.specs.Calls.{CanPost, CanReceiveNow, IsSought, call_fault, collection_on_receive};
ghost use Rattle.point_to_point.specs.Calls.{sought_at};
ghost use Rattle.point_to_point.specs.CoreState.{CanStart};
ghost use Rattle.point_to_point.specs.Messages.{own_key_sent, own_send_of};
ghost use Rattle.point_to_point.specs.Receives.{IsPosting, IsReceiving, IsReceivingNothing, found_by, receive_frame};
ghost use Rattle.point_to_point.specs.Sends.{or_full};
ghost use Rattle.match_queues.specs.State.{place_for};

use crate::rank::Core;
use communicator_members::Members;
use datagram::Outgoing;
use match_queues::{Body, Message};
use point_to_point_calls::{
    Receive, Refusal, RoutedReceive, SoughtReceive, answer_on_post, collection_on_post,
    null_status, posted_by, progress_on_post,
};
use rendezvous::Collection;
use requests::{Outcome, Posted, ReceiveRegion, Request, RequestProgress};
use vocabulary::Source;

/// The key of the own send that waits for the match of this message, if one does.
pub(crate) fn own_send_of(message: Option<&Message>) -> Option<usize>
    ensures { result ≡ own_send_of (option_copied message.entry) }
{
    match message {
        Some(message) => match &message.body {
            Body::Own(own) => Some(own.key),
            Body::Whole(_) | Body::Announced(_) => None,
        },
        None => None,
    }
}

impl Core {
    /// The limit that a receive meets, which is 13: 65,536 requests are there, or no serial is left. It takes no memory.
    pub fn limit_of_receive(&self) -> Option<Refusal>
        ensures { result ≡ or_full None self.now.state }
    {
        if self.requests.is_full() {
            Some(Refusal::Limit)
        } else {
            None
        }
    }

    /// Where the message stands that a receive would take now: the one search for it.
    fn place_of_message(&self, routed: &RoutedReceive) -> Option<usize>
        ensures { result ≡ sought_at routed.now.route.named (posted_by 0 routed.now) self.now.places }
    {
        match routed.route.named {
            Source::Null => None,
            Source::Any | Source::Rank(_) => self.queues.place_for(&posted_by(0, routed)),
        }
    }

    /// The message that stands at the place that was found for a receive, if one was.
    fn message_at(&self, routed: &RoutedReceive, found: Option<usize>) -> Option<&Message>
        requires { found ≡ place_for (posted_by 0 routed.now) self.now.places }
        ensures { option_copied result ≡ found_by self.now.state routed.now }
    {
        // By the route and the tag of the receive the message was found.
        let _routed = routed;
        self.queues.message_at(found)
    }

    /// The frame that answers the message that a receive found, if it found one that was announced. It takes no memory.
    #[tactic(auto, using(crate::proofs::ReceiveLaws::answer_is_there))]
    fn answer_of_receive(
        &self,
        routed: &RoutedReceive,
        found: Option<usize>,
    ) -> Option<Outgoing<'static>>
        requires { found ≡ sought_at routed.now.route.named (posted_by 0 routed.now) self.now.places }
        ensures exact { addressed result ≡ receive_frame routed.now.route.named self.now.state routed.now }
        ensures fits { IfSome result (λ a. FrameFits (frame_text a.frame)) }
        ensures there { IfSome result (λ a. a.target < self.now.state.place.size) }
    {
        // The core shows that whoever is to be answered is a rank of the job.
        let _alloc = &self.alloc;
        match routed.route.named {
            Source::Null => None,
            Source::Any | Source::Rank(_) => {
                answer_on_post(&routed.receive.into, self.message_at(routed, found))
            }
        }
    }

    /// The message that a receive would take now, and the frame that answers it. It takes no memory and changes nothing.
    pub fn seek(&self, routed: RoutedReceive) -> SoughtReceive
        ensures routed { result.routed ≡ routed }
        ensures sought { IsSought self.now result }
    {
        let found = self.place_of_message(&routed);
        let answer = self.answer_of_receive(&routed, found);
        SoughtReceive {
            routed,
            found,
            answer,
        }
    }

    /// The place for the data of the message that a receive found, where it is announced and wanted.
    fn place_for(&self, sought: &SoughtReceive) -> Result<Option<Collection>, Refusal>
        requires { IsSought self.now sought.now }
        ensures ok { IfOk result (λ collection. collection ≡
            collection_on_receive sought.now.routed.route.named self.now.state self.now.vacant sought.now.routed) }
        ensures err { IfErr result (λ e. e ≡ refusals.OutOfMemory) }
    {
        match sought.routed.route.named {
            Source::Null => Ok(None),
            Source::Any | Source::Rank(_) => collection_on_post(
                self.alloc,
                self.place.message_limit,
                &sought.routed.receive.into,
                self.requests.next_key(),
                self.message_at(&sought.routed, sought.found),
            ),
        }
    }

    /// A receive from the null process is posted nowhere.
    fn make_room_to_post(&mut self, source: Source) -> Result<(), Refusal>
        ensures room { OnOk result (CanPost source self.new) }
        ensures kept { self.new ≡ record self.old { receives = self.new.receives } }
        ensures err { IfErr result (λ e. e ≡ refusals.OutOfMemory) }
    {
        if let Source::Null = source {
            return Ok(());
        }
        match self.queues.reserve_receive() {
            Ok(()) => Ok(()),
            Err(_) => Err(Refusal::OutOfMemory),
        }
    }

    /// Makes room for a collection, where one is to begin.
    pub(crate) fn make_room_to_collect(&mut self, collects: bool) -> Result<(), Refusal>
        ensures room { OnOk result (collects ≡ true → 0 < self.new.collections) }
        ensures kept { self.new ≡ record self.old { collections = self.new.collections } }
        ensures err { IfErr result (λ e. e ≡ refusals.OutOfMemory) }
        ensures need { OnErr result (collects ≡ true) }
    {
        if !collects {
            return Ok(());
        }
        match self.transfers.reserve_collection() {
            Ok(()) => Ok(()),
            Err(_) => Err(Refusal::OutOfMemory),
        }
    }

    /// Makes ready what a receive takes that breaks no rule, and the place for the data that it is to collect, if it is;
    /// or finds that there is no memory (14). What the core holds stays as it is, and the message stays where it was
    /// found.
    #[tactic(auto, using(crate::proofs::FaultlessCalls::receive_starts))]
    pub fn prepare_receive(&mut self, sought: &SoughtReceive) -> Result<Option<Collection>, Refusal>
        requires sought { IsSought self.old sought.now }
        requires allowed { call_fault self.old.state (calls.Irecv sought.now.routed) ≡ None }
        ensures room { IfOk result (λ collection. CanReceiveNow self.new sought.now.routed collection) }
        ensures sought { IsSought self.new sought.now }
        ensures kept { self.new.state ≡ self.old.state }
        ensures payloads { self.new.payloads ≡ self.old.payloads }
        ensures err { IfErr result (λ e. e ≡ refusals.OutOfMemory) }
    {
        self.make_room_to_start()?;
        self.make_room_to_post(sought.routed.route.named)?;
        let collection = self.place_for(sought)?;
        self.make_room_to_collect(collection.is_some())?;
        Ok(collection)
    }

    /// A receive from the null process is over at once (MPI 3.1, 3.11).
    fn receive_nothing(&mut self, routed: RoutedReceive) -> Request
        requires { CanStart self.old }
        ensures exact { IsReceivingNothing self.old.state routed result self.new.state }
        ensures placed { self.new.state.place ≡ self.old.state.place }
        ensures payloads { self.new.payloads ≡ self.old.payloads }
    {
        let RoutedReceive { receive, .. } = routed;
        let Receive { into, .. } = receive;
        let outcome = Outcome::Received(null_status(), into.buffer);
        self.requests.start(RequestProgress::Finished(outcome))
    }

    /// What a receive begins to collect is collected from now on, if it begins to.
    pub(crate) fn collect(&mut self, collection: Option<Collection>)
        requires { is_some collection ≡ true → 0 < self.old.collections }
        ensures exact { self.new ≡ record self.old {
          state = record self.old.state { transfers = transfers_with self.old.state.transfers collection };
          collections = self.new.collections;
        } }
    {
        if let Some(collection) = collection {
            self.transfers.collect(collection);
        }
    }

    fn post(
        &mut self,
        routed: RoutedReceive,
        found: Option<usize>,
        collection: Option<Collection>,
    ) -> Request
        requires start { CanStart self.old }
        requires post { 0 < self.old.receives }
        requires fit { CanReceive routed.receive.into }
        requires found { found ≡ place_for (posted_by 0 routed) self.old.places }
        requires collection { collection ≡
            collection_on_post self.old.state.place.message_limit routed.receive.into self.old.vacant
            (found_by self.old.state routed) }
        requires place { is_some collection ≡ true → 0 < self.old.collections }
        ensures exact { IsPosting self.old.state routed result self.new.state }
        ensures placed { self.new.state.place ≡ self.old.state.place }
        ensures payloads { self.new.payloads ≡ self.old.payloads }
    {
        let posted = posted_by(self.requests.next_key(), &routed);
        self.collect(collection);
        let found = self.queues.post(posted, found);
        let own = own_send_of(found.as_ref());
        let RoutedReceive { group, receive, .. } = routed;
        let Receive { into, .. } = receive;
        let into = ReceiveRegion::new(into);
        let progress = progress_on_post(Posted { into, group }, found);
        let request = self.requests.start(progress);
        self.finish_own(own);
        request
    }

    /// The own send under this key ends, if there is one.
    pub(crate) fn finish_own(&mut self, own: Option<usize>)
        ensures { self.new ≡
            record self.old { state = record self.old.state { slots = own_key_sent own self.old.state.slots } } }
    {
        if let Some(key) = own {
            self.requests.finish_send(key);
        }
    }

    /// Starts a receive that breaks no rule, in the room that was made for it: it takes the message that was found for
    /// it, or waits for one. By the group its status names the source (MPI 3.1, 3.2.5).
    #[tactic(auto, using(crate::proofs::FaultlessCalls::receive_fits))]
    pub fn receive(
        &mut self,
        sought: SoughtReceive,
        group: Option<Members>,
        collection: Option<Collection>,
    ) -> Request
        requires sought { IsSought self.old sought }
        requires allowed { call_fault self.old.state (calls.Irecv sought.routed) ≡ None }
        requires room { CanReceiveNow self.old sought.routed collection }
        ensures exact { IsReceiving self.old.state (record sought.routed { group = group }) result self.new.state }
        ensures placed { self.new.state.place ≡ self.old.state.place }
        ensures payloads { self.new.payloads ≡ self.old.payloads }
    {
        let SoughtReceive { routed, found, .. } = sought;
        let RoutedReceive { route, receive, .. } = routed;
        let routed = RoutedReceive {
            route,
            group,
            receive,
        };
        match route.named {
            Source::Null => self.receive_nothing(routed),
            Source::Any | Source::Rank(_) => self.post(routed, found, collection),
        }
    }
}
