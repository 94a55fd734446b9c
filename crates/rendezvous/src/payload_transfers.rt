//! The payloads of collectives among the transfers of a rank: they are counted with its messages.

ghost use Rattle.std.specs.Prelude.{◌≡◌, ◌+◌, ◌≤◌, ◌<◌, true, length, is_some, option_map, IfNone, IfSome, OnOk, OnSome};
ghost use Rattle.std.specs.Option.{option_copied};
ghost use Rattle.rendezvous.specs.PayloadNumbers.{AreLeft, begun_at, count_to, counted, number_left, with_lesson};
ghost use Rattle.rendezvous.specs.PayloadState.{after_announcing, after_answer, after_begin, after_data, after_return};
ghost use Rattle.rendezvous.specs.PayloadState.{announced_to, coming_from, is_due, whole_with};
ghost use Rattle.rendezvous.specs.Payloads.{Taken};
ghost use Rattle.rendezvous.specs.State.{after_rts, is_next};

use crate::payload_lists::{
    find_announced, find_coming, put_at, remove_announced, take_piece, take_whole,
};
use crate::payloads::{AnnouncedPayload, ComingPayload, WholePayload};
use crate::transfers::{Numbers, Transfers, announce, begin};
use vocabulary::OutOfMemory;

/// How many of these payloads go to the rank.
fn count_to(payloads: &[AnnouncedPayload], rank: u16) -> usize
    ensures { result ≡ count_to rank payloads.now }
{
    payloads
        .iter()
        .filter(|payload| payload.target() == rank)
        .count()
}

/// A transfer begins for each of these payloads, in order; a number is left for it.
fn begin_each(numbers: &mut Vec<Numbers>, payloads: &[AnnouncedPayload])
    requires { AreLeft numbers.old.items payloads.now }
    ensures { numbers.new.items ≡ counted numbers.old.items payloads.now }
{
    for payload in payloads {
        let _transfer = begin(numbers, payload.target());
    }
}

/// How many transfers to the rank have begun, where there is such a rank; with a lesson of a rank its session starts anew.
#[tactic(auto, using(crate::proofs::PayloadNumbers::anew_at, crate::proofs::PayloadNumbers::other_at, crate::proofs::PayloadNumbers::nobody_at))]
fn begun_at(numbers: &[Numbers], lesson: Option<u16>, rank: u16) -> Option<u32>
    ensures { result ≡ begun_at (with_lesson lesson numbers.now) rank }
{
    let session = numbers.get(usize::from(rank))?;
    match lesson {
        Some(source) if source == rank => Some(0),
        _ => Some(session.begun),
    }
}

impl Transfers {
    /// The number that one more transfer to the rank gets behind those of these payloads, which are to be announced; none
    /// where no number is left, or there is no such rank. With a lesson of a rank its session starts anew before them.
    #[tactic(auto, using(crate::proofs::PayloadNumbers::some_behind, crate::proofs::PayloadNumbers::none_behind, crate::proofs::PayloadNumbers::nobody_behind))]
    pub fn number_behind(
        &self,
        lesson: Option<u16>,
        payloads: &[AnnouncedPayload],
        rank: u16,
    ) -> Option<u32>
        requires { AreLeft (with_lesson lesson self.now.state.numbers) payloads.now }
        ensures { result ≡ number_left (counted (with_lesson lesson self.now.state.numbers) payloads.now) rank }
    {
        let begun = begun_at(&self.numbers, lesson, rank)?;
        let count = count_to(payloads, rank);
        if count < (u32::MAX - begun) as usize {
            Some(begun + count as u32)
        } else {
            None
        }
    }

    /// Makes room for so many more payloads that are announced, or finds that there is no memory. Nothing else changes.
    pub fn reserve_announced(&mut self, count: usize) -> Result<(), OutOfMemory>
        ensures room { OnOk result (count ≤ self.new.payloads.more_announced) }
        ensures kept { self.new ≡ record self.old {
          payloads = record self.old.payloads { more_announced = self.new.payloads.more_announced };
        } }
    {
        self.announced.reserve(count).map_err(|_| OutOfMemory {})
    }

    /// These payloads are announced, in order: each begins a transfer, for which a number is left, and is kept in the room
    /// that there is. It takes no memory.
    pub fn announce_payloads(&mut self, mut payloads: Vec<AnnouncedPayload>)
        requires room { length payloads.items ≤ self.old.payloads.more_announced }
        requires left { AreLeft self.old.state.numbers payloads.items }
        ensures state { self.new.state
            ≡ record self.old.state { numbers = counted self.old.state.numbers payloads.items } }
        ensures sends { self.new.sends ≡ self.old.sends }
        ensures receives { self.new.receives ≡ self.old.receives }
        ensures payloads { self.new.payloads.state ≡ after_announcing self.old.payloads.state payloads.items }
        ensures coming { self.new.payloads.more_coming ≡ self.old.payloads.more_coming }
    {
        begin_each(&mut self.numbers, &payloads);
        self.announced.append(&mut payloads).unwrap();
    }

    /// The payload of the transfer to the rank that has this number, where it was announced and no answer has come.
    pub fn announced_to(&self, rank: u16, transfer: u32) -> Option<&AnnouncedPayload>
        ensures { option_copied result ≡ announced_to self.now.payloads.state rank transfer }
    {
        find_announced(&self.announced, rank, transfer)
    }

    /// Whether the transfer to the rank that has this number is of a payload that was announced, and no answer has come.
    pub fn is_announced(&self, rank: u16, transfer: u32) -> bool
        ensures { result ≡ is_some (announced_to self.now.payloads.state rank transfer) }
    {
        self.announced_to(rank, transfer).is_some()
    }

    /// The payload of the transfer to the rank that has this number is answered: it isn't kept any more. It takes no
    /// memory.
    pub fn on_payload_cts(&mut self, rank: u16, transfer: u32)
        ensures others { self.new ≡ record self.old { payloads = self.new.payloads } }
        ensures state { self.new.payloads.state ≡ after_answer self.old.payloads.state rank transfer }
        ensures announced { self.old.payloads.more_announced ≤ self.new.payloads.more_announced }
        ensures coming { self.new.payloads.more_coming ≡ self.old.payloads.more_coming }
    {
        remove_announced(&mut self.announced, rank, transfer);
    }

    /// Makes room for one more payload that comes, or finds that there is no memory. Nothing else changes.
    pub fn reserve_coming(&mut self) -> Result<(), OutOfMemory>
        ensures room { OnOk result (0 < self.new.payloads.more_coming) }
        ensures kept { self.new ≡ record self.old {
          payloads = record self.old.payloads { more_coming = self.new.payloads.more_coming };
        } }
    {
        self.coming.reserve(1).map_err(|_| OutOfMemory {})
    }

    /// A payload is announced by its source, under the number that is due, and begins to come, for which there is room. It
    /// takes no memory.
    pub fn begin_payload(&mut self, payload: ComingPayload)
        requires next { is_next self.old.state.numbers payload.source payload.transfer ≡ true }
        requires room { 0 < self.old.payloads.more_coming }
        ensures state { self.new.state ≡ after_rts self.old.state payload.source }
        ensures sends { self.new.sends ≡ self.old.sends }
        ensures receives { self.new.receives ≡ self.old.receives }
        ensures payloads { self.new.payloads.state ≡ after_begin self.old.payloads.state payload }
        ensures announced { self.new.payloads.more_announced ≡ self.old.payloads.more_announced }
        ensures coming { self.new.payloads.more_coming + 1 ≡ self.old.payloads.more_coming }
    {
        announce(&mut self.numbers, payload.source(), payload.transfer());
        self.coming.push_reserved(payload);
    }

    /// Whether the transfer from the rank that has this number is of a payload that comes.
    pub fn is_coming(&self, rank: u16, transfer: u32) -> bool
        ensures { result ≡ is_some (coming_from self.now.payloads.state rank transfer) }
    {
        find_coming(&self.coming, rank, transfer).is_some()
    }

    /// Whether these bytes from this place on are the next piece of the payload of the transfer from the rank that has this
    /// number: other data are refused with 30.
    pub fn payload_is_due(&self, rank: u16, transfer: u32, offset: u32, bytes: &[u8]) -> bool
        ensures { result ≡ is_due self.now.payloads.state rank transfer offset bytes.now }
    {
        match find_coming(&self.coming, rank, transfer) {
            Some(payload) => payload.is_next_data(offset, bytes),
            None => false,
        }
    }

    /// Takes the next piece of the payload of the transfer from the rank that has this number; with its last piece it comes
    /// no more. It takes no memory.
    pub fn on_payload_data(&mut self, rank: u16, transfer: u32, offset: u32, bytes: &[u8])
        requires { is_due self.old.payloads.state rank transfer offset bytes.now ≡ true }
        ensures others { self.new ≡ record self.old { payloads = self.new.payloads } }
        ensures state { self.new.payloads.state ≡ after_data self.old.payloads.state rank transfer bytes.now }
        ensures announced { self.new.payloads.more_announced ≡ self.old.payloads.more_announced }
        ensures coming { self.old.payloads.more_coming ≤ self.new.payloads.more_coming }
    {
        take_piece(&mut self.coming, rank, transfer, offset, bytes);
    }

    /// Takes out the payload of the transfer from the rank that has this number, where it is whole with these bytes: it
    /// comes no more, unless it is put back. Where it isn't, nothing changes. It takes no memory.
    pub fn take_whole(&mut self, rank: u16, transfer: u32, bytes: &[u8]) -> Option<WholePayload>
        ensures whole { option_map (λ (t : Taken). t.whole) result
            ≡ whole_with self.old.payloads.state rank transfer bytes.now }
        ensures others { self.new ≡ record self.old { payloads = self.new.payloads } }
        ensures state { OnSome result
            (self.new.payloads.state ≡ after_data self.old.payloads.state rank transfer bytes.now) }
        ensures back { IfSome result (λ t. after_return self.new.payloads.state t ≡ self.old.payloads.state) }
        ensures place { IfSome result (λ t. t.place ≤ length self.new.payloads.state.coming) }
        ensures room { OnSome result (self.new.payloads.more_coming ≡ self.old.payloads.more_coming + 1) }
        ensures announced { self.new.payloads.more_announced ≡ self.old.payloads.more_announced }
        ensures kept { IfNone result (self.new ≡ self.old) }
    {
        take_whole(&mut self.coming, rank, transfer, bytes)
    }

    /// A payload that was taken out stands again where it stood, as it was before its last piece; there is room for it.
    /// It takes no memory.
    pub fn put_back(&mut self, payload: WholePayload)
        requires place { payload.place ≤ length self.old.payloads.state.coming }
        requires room { 0 < self.old.payloads.more_coming }
        ensures others { self.new ≡ record self.old { payloads = self.new.payloads } }
        ensures state { self.new.payloads.state ≡ after_return self.old.payloads.state payload }
        ensures announced { self.new.payloads.more_announced ≡ self.old.payloads.more_announced }
        ensures coming { self.new.payloads.more_coming + 1 ≡ self.old.payloads.more_coming }
    {
        let place = payload.place();
        put_at(&mut self.coming, place, payload.into_before());
    }
}
