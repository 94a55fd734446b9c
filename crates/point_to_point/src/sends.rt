//! How a core starts sends: the limit that one meets, what it needs, its frame, and what it leaves.

ghost use Rattle.std.specs.Prelude.{◌≡◌, ◌<◌, ◌≤◌, ◌*◌, length, true, false, IfErr, IfOk, IfSome, None, OnOk, is_some};
ghost use Rattle.datagram.specs.Spellings.{frame_text, FrameFits};
ghost use Rattle.vocabulary.specs.BasicTypes.{size_of};
ghost use Rattle.vocabulary.specs.Limits.{greatest_limit};
ghost use Rattle.rendezvous.specs.State.{is_full_to};
ghost use Rattle.requests.specs.Table.{is_full};
ghost use Rattle.point_to_point_calls.specs.Calls.{IsPacked};
ghost use Rattle.point_to_point_calls.specs.CoreCalls as calls;
ghost use Rattle.point_to_point_calls.specs.Frames.{addressed};
ghost use Rattle.point_to_point_calls.specs.SendRules.{IsAddressed, is_own, send_fault};
ghost use Rattle.point_to_point_calls.specs.declared.refusal.Refusal.TheVariants as refusals;
ghost use Rattle.point_to_point.specs.Calls.{CanSend, call_fault, limit_fault};
ghost use Rattle.point_to_point.specs.CoreState.{CanStart};
ghost use Rattle.point_to_point.specs.Sends.{IsOffering, IsSending, arrived_at_itself, frame_of};

use crate::rank::Core;
use datagram::Outgoing;
use datatypes::Buffer;
use point_to_point_calls::{
    AddressedSend, Destination, Refusal, elements_of, frame_to, into_elements, is_own, own_message,
    pack,
};
use requests::{Outcome, Request, RequestProgress};
use vocabulary::Mode;

impl Core {
    /// The limit that a send meets, which is 13: 65,536 requests are there, no serial is left, or no number of a
    /// transfer to the rank that its message is announced to. It takes no memory.
    pub fn limit_of_send(&self, send: &AddressedSend) -> Option<Refusal>
        requires { IsAddressed self.now.state.place send.now }
        ensures { result ≡ limit_fault self.now.state (calls.Isend send.now.routed) }
    {
        if self.requests.is_full() {
            return Some(Refusal::Limit);
        }
        match send.announced {
            Some(rank) if self.transfers.is_full_to(rank) => Some(Refusal::Limit),
            _ => None,
        }
    }

    pub(crate) fn make_room_to_start(&mut self) -> Result<(), Refusal>
        requires { is_full self.old.state.slots self.old.state.serial ≡ false }
        ensures room { OnOk result (CanStart self.new) }
        ensures kept { self.new ≡ record self.old { requests = self.new.requests } }
        ensures err { IfErr result (λ e. e ≡ refusals.OutOfMemory) }
    {
        match self.requests.reserve() {
            Ok(()) => Ok(()),
            Err(_) => Err(Refusal::OutOfMemory),
        }
    }

    /// Makes room for a message, where one comes from the own rank.
    fn make_room_if(&mut self, own: bool) -> Result<(), Refusal>
        ensures room { OnOk result (own ≡ true → 0 < self.new.messages) }
        ensures kept { self.new ≡ record self.old { places = self.new.places; messages = self.new.messages } }
        ensures err { IfErr result (λ e. e ≡ refusals.OutOfMemory) }
    {
        if !own {
            return Ok(());
        }
        match self.queues.reserve_message() {
            Ok(()) => Ok(()),
            Err(_) => Err(Refusal::OutOfMemory),
        }
    }

    /// Makes room for an offer, where a message is announced.
    fn make_room_to_offer(&mut self, announced: bool) -> Result<(), Refusal>
        ensures room { OnOk result (announced ≡ true → 0 < self.new.offers) }
        ensures kept { self.new ≡ record self.old { offers = self.new.offers } }
        ensures err { IfErr result (λ e. e ≡ refusals.OutOfMemory) }
    {
        if !announced {
            return Ok(());
        }
        match self.transfers.reserve_send() {
            Ok(()) => Ok(()),
            Err(_) => Err(Refusal::OutOfMemory),
        }
    }

    /// Makes ready what a send takes that breaks no rule, and packs its data where they do not stand in order; or finds
    /// that there is no memory (14). What the core holds stays as it is.
    #[tactic(auto, using(crate::proofs::FaultlessCalls::send_types, crate::proofs::FaultlessCalls::send_room, crate::proofs::FaultlessCalls::send_starts))]
    pub fn prepare_send(&mut self, send: &AddressedSend) -> Result<Option<Buffer>, Refusal>
        requires addressed { IsAddressed self.old.state.place send.now }
        requires allowed { call_fault self.old.state (calls.Isend send.now.routed) ≡ None }
        ensures room { IfOk result (λ packed. CanSend self.new send.now.routed packed) }
        ensures kept { self.new.state ≡ self.old.state }
        ensures payloads { self.new.payloads ≡ self.old.payloads }
        ensures err { IfErr result (λ e. e ≡ refusals.OutOfMemory) }
    {
        self.make_room_to_start()?;
        self.make_room_if(is_own(self.place, send.destination))?;
        self.make_room_to_offer(send.announced.is_some())?;
        pack(self.alloc, &send.routed)
    }

    /// The frame that a send gives to another rank which breaks no rule, lent from it, or from its packed data.
    #[tactic(auto, using(point_to_point_calls::proofs::SendLaws::is_sendable, point_to_point_calls::proofs::SendLaws::is_there))]
    pub fn frame_of_send<'a>(
        &self,
        send: &'a AddressedSend,
        packed: &'a Option<Buffer>,
    ) -> Option<Outgoing<'a>>
        requires addressed { IsAddressed self.now.state.place send.now }
        requires allowed { send_fault self.now.state.place send.now.routed ≡ None }
        requires packed { IsPacked send.now.routed packed.now }
        ensures exact { addressed result ≡ frame_of self.now.state send.now.routed }
        ensures fits { IfSome result (λ a. FrameFits (frame_text a.frame)) }
        ensures there { IfSome result (λ a. a.target < self.now.state.place.size) }
    {
        let elements = elements_of(&send.routed, packed);
        frame_to(
            self.place,
            &self.transfers,
            send.routed.send.mode,
            send.destination,
            elements,
        )
    }

    /// These elements come to the own rank, where that is their destination.
    fn arrive_at_itself(
        &mut self,
        destination: Option<Destination>,
        waiting: Option<Request>,
        elements: Buffer,
    )
        requires { is_own self.old.state.place destination ≡ true → 0 < self.old.messages }
        ensures exact { self.new.state ≡ arrived_at_itself self.old.state destination waiting elements }
        ensures placed { self.new.state.place ≡ self.old.state.place }
        ensures payloads { self.new.payloads ≡ self.old.payloads }
    {
        if let Some(destination) = destination
            && destination.rank == self.place.endpoint.rank
        {
            self.arrive(own_message(
                self.place,
                destination.context,
                destination.tag,
                waiting,
                elements,
            ));
        }
    }

    /// Starts a send that breaks no rule, in the room that was made for it: its message comes to the own rank, or is
    /// announced, or goes in its frame.
    #[tactic(auto, using(crate::proofs::FaultlessCalls::announces, crate::proofs::FaultlessCalls::allowed_send))]
    pub fn send(&mut self, send: AddressedSend, packed: Option<Buffer>) -> Request
        requires addressed { IsAddressed self.old.state.place send }
        requires allowed { call_fault self.old.state (calls.Isend send.routed) ≡ None }
        requires room { CanSend self.old send.routed packed }
        ensures exact { IsSending self.old.state send.routed result self.new.state }
        ensures placed { self.new.state.place ≡ self.old.state.place }
        ensures payloads { self.new.payloads ≡ self.old.payloads }
    {
        let destination = send.destination;
        let announced = send.announced;
        let waits = send.routed.send.mode == Mode::Synchronous && is_own(self.place, destination);
        let elements = into_elements(send.routed, packed);
        match announced {
            Some(rank) => self.offer(rank, elements),
            None => {
                if waits {
                    let waiting = self.requests.start(RequestProgress::Offering);
                    self.arrive_at_itself(destination, Some(waiting), elements);
                    return waiting;
                }
                let request = self
                    .requests
                    .start(RequestProgress::Finished(Outcome::Sent));
                self.arrive_at_itself(destination, None, elements);
                request
            }
        }
    }

    /// A message that does not go in one frame is announced: its send waits for its receiver's answer (MPI 3.1, 3.4).
    fn offer(&mut self, rank: u16, elements: Buffer) -> Request
        requires start { CanStart self.old }
        requires room { 0 < self.old.offers }
        requires left { is_full_to self.old.state.transfers.numbers rank ≡ false }
        requires there { rank < self.old.state.place.size }
        requires limit { length elements.values * size_of elements.basic ≤ greatest_limit }
        ensures exact { IsOffering self.old.state rank elements result self.new.state }
        ensures placed { self.new.state.place ≡ self.old.state.place }
        ensures payloads { self.new.payloads ≡ self.old.payloads }
    {
        let request = self.requests.start(RequestProgress::Offering);
        let _transfer = self.transfers.begin_send(rank, request.key, elements);
        request
    }
}
