//! The payloads of collectives among the transfers of a rank: they are counted with its messages.

ghost use Rattle.std.specs.Prelude.{◌≡◌, ◌+◌, ◌≤◌, ◌<◌, true, length, option_map, IfErr, IfNone, IfSome, OnOk, OnSome};
ghost use Rattle.point_to_point.specs.CoreState.{with_numbers};
ghost use Rattle.point_to_point_calls.specs.declared.refusal.Refusal.TheVariants as refusals;
ghost use Rattle.rendezvous.specs.PayloadNumbers.{AreLeft, counted};
ghost use Rattle.rendezvous.specs.PayloadState.{after_announcing, after_answer, after_begin, after_data, after_return};
ghost use Rattle.rendezvous.specs.PayloadState.{is_due, whole_with};
ghost use Rattle.rendezvous.specs.Payloads.{Taken};
ghost use Rattle.rendezvous.specs.State.{is_next, with_announced};

use crate::rank::Core;
use point_to_point_calls::Refusal;
use rendezvous::{AnnouncedPayload, ComingPayload, Transfers, WholePayload};

impl Core {
    /// Its transfers: those of messages and those of payloads.
    pub fn transfers(&self) -> &Transfers
        ensures state { result.now.state ≡ self.now.state.transfers }
        ensures payloads { result.now.payloads ≡ self.now.payloads }
    {
        &self.transfers
    }

    /// Makes room for so many more payloads that are announced, or finds that there is no memory (14). Nothing else
    /// changes.
    pub fn reserve_announced(&mut self, count: usize) -> Result<(), Refusal>
        ensures room { OnOk result (count ≤ self.new.payloads.more_announced) }
        ensures kept { self.new ≡ record self.old {
          payloads = record self.old.payloads { more_announced = self.new.payloads.more_announced };
        } }
        ensures err { IfErr result (λ e. e ≡ refusals.OutOfMemory) }
    {
        match self.transfers.reserve_announced(count) {
            Ok(()) => Ok(()),
            Err(_) => Err(Refusal::OutOfMemory),
        }
    }

    /// These payloads are announced, in order: each is counted, for which a number is left, and kept in the room that
    /// there is. It takes no memory.
    pub fn announce_payloads(&mut self, payloads: Vec<AnnouncedPayload>)
        requires room { length payloads.items ≤ self.old.payloads.more_announced }
        requires left { AreLeft self.old.state.transfers.numbers payloads.items }
        ensures exact { self.new.state
            ≡ with_numbers self.old.state (counted self.old.state.transfers.numbers payloads.items) }
        ensures placed { self.new.state.place ≡ self.old.state.place }
        ensures payloads { self.new.payloads.state ≡ after_announcing self.old.payloads.state payloads.items }
        ensures coming { self.new.payloads.more_coming ≡ self.old.payloads.more_coming }
    {
        self.transfers.announce_payloads(payloads);
    }

    /// The payload of the transfer to the rank that has this number is answered: it isn't kept any more. Nothing else
    /// changes, and it takes no memory.
    pub fn on_payload_cts(&mut self, rank: u16, transfer: u32)
        ensures others { self.new ≡ record self.old { payloads = self.new.payloads } }
        ensures state { self.new.payloads.state ≡ after_answer self.old.payloads.state rank transfer }
    {
        self.transfers.on_payload_cts(rank, transfer);
    }

    /// Makes room for one more payload that comes, or finds that there is no memory (14). Nothing else changes.
    pub fn reserve_coming(&mut self) -> Result<(), Refusal>
        ensures room { OnOk result (0 < self.new.payloads.more_coming) }
        ensures kept { self.new ≡ record self.old {
          payloads = record self.old.payloads { more_coming = self.new.payloads.more_coming };
        } }
        ensures err { IfErr result (λ e. e ≡ refusals.OutOfMemory) }
    {
        match self.transfers.reserve_coming() {
            Ok(()) => Ok(()),
            Err(_) => Err(Refusal::OutOfMemory),
        }
    }

    /// A payload is announced by its source, under the number that is due: it is counted, and begins to come in the room
    /// that there is. It takes no memory.
    pub fn begin_payload(&mut self, payload: ComingPayload)
        requires next { is_next self.old.state.transfers.numbers payload.source payload.transfer ≡ true }
        requires room { 0 < self.old.payloads.more_coming }
        ensures exact { self.new.state
            ≡ with_numbers self.old.state (with_announced self.old.state.transfers.numbers payload.source) }
        ensures placed { self.new.state.place ≡ self.old.state.place }
        ensures payloads { self.new.payloads.state ≡ after_begin self.old.payloads.state payload }
    {
        self.transfers.begin_payload(payload);
    }

    /// Takes the next piece of the payload of the transfer from the rank that has this number; with its last piece it
    /// comes no more. Nothing else changes, and it takes no memory.
    pub fn on_payload_data(&mut self, rank: u16, transfer: u32, offset: u32, bytes: &[u8])
        requires { is_due self.old.payloads.state rank transfer offset bytes.now ≡ true }
        ensures others { self.new ≡ record self.old { payloads = self.new.payloads } }
        ensures state { self.new.payloads.state ≡ after_data self.old.payloads.state rank transfer bytes.now }
    {
        self.transfers
            .on_payload_data(rank, transfer, offset, bytes);
    }

    /// Takes out the payload of the transfer from the rank that has this number, where it is whole with these bytes: it
    /// comes no more, unless it is put back. Nothing else changes, and where it isn't whole nothing at all. It takes no
    /// memory.
    pub fn take_whole(&mut self, rank: u16, transfer: u32, bytes: &[u8]) -> Option<WholePayload>
        ensures whole { option_map (λ (t : Taken). t.whole) result
            ≡ whole_with self.old.payloads.state rank transfer bytes.now }
        ensures others { self.new ≡ record self.old { payloads = self.new.payloads } }
        ensures state { OnSome result
            (self.new.payloads.state ≡ after_data self.old.payloads.state rank transfer bytes.now) }
        ensures back { IfSome result (λ t. after_return self.new.payloads.state t ≡ self.old.payloads.state) }
        ensures place { IfSome result (λ t. t.place ≤ length self.new.payloads.state.coming) }
        ensures room { OnSome result (self.new.payloads.more_coming ≡ self.old.payloads.more_coming + 1) }
        ensures announced { self.new.payloads.more_announced ≡ self.old.payloads.more_announced }
        ensures kept { IfNone result (self.new ≡ self.old) }
    {
        self.transfers.take_whole(rank, transfer, bytes)
    }

    /// A payload that was taken out stands again where it stood, as it was before its last piece; there is room for it.
    /// Nothing else changes, and it takes no memory.
    pub fn put_back(&mut self, payload: WholePayload)
        requires place { payload.place ≤ length self.old.payloads.state.coming }
        requires room { 0 < self.old.payloads.more_coming }
        ensures others { self.new ≡ record self.old { payloads = self.new.payloads } }
        ensures state { self.new.payloads.state ≡ after_return self.old.payloads.state payload }
    {
        self.transfers.put_back(payload);
    }
}
