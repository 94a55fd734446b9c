//! What a rank knows of its transfers.

ghost use Rattle.std.specs.Prelude.{◌≡◌, ◌+◌, ◌≤◌, ◌<◌, ◌++◌, not, ◌==◌, false, true, filter, map, length, [], IfOk, IsTrue};
ghost use Rattle.std.specs.Prelude.{OnOk, OnErr, position, replicate, slice_set, vec_len};
ghost use Rattle.std.specs.Prelude.{vec_capacity};
ghost use Rattle.std.specs.Option.{option_copied};
ghost use Rattle.rendezvous.specs.Offers.{offer_for, offer_at, without_offer};
ghost use Rattle.rendezvous.specs.Collections.{is_from, is_next_data, is_whole};
ghost use Rattle.rendezvous.specs.State.{State, fresh, is_full_to, is_next, next_to, with_begun, with_announced};
ghost use Rattle.rendezvous.specs.State.{collection_for, collection_at, is_due, grown_at, with_data_at, given_at};
ghost use Rattle.rendezvous.specs.State.{after_begin, after_rts, after_collect, offered, after_cts, after_data, given};
ghost use Rattle.rendezvous.specs.State.{after_drop, keys_with};
ghost use Rattle.rendezvous.specs.PayloadState as payloads;
ghost use Rattle.rendezvous.specs.PayloadState.{opening};

use crate::collection::{Collected, Collection};
use crate::offer::Offer;
use crate::payload_lists::{drop_announced, drop_coming};
use crate::payloads::{AnnouncedPayload, ComingPayload};
use alike::{Alike, are_alike};
use datatypes::Buffer;
use std::alloc::Global;
use std::marker::Model;
use vocabulary::OutOfMemory;

/// How many transfers there were in the sessions with one rank, in each direction.
#[derive(Clone, Copy, Debug, Default, PartialEq, Eq)]
pub struct Numbers {
    /// How many began to it: the number of the next one.
    pub begun: u32,
    /// How many it announced: the number of its next one.
    pub announced: u32,
}

impl Alike for Numbers {
    fn stands_as(&self, other: &Self) -> bool {
        self == other
    }
}

/// What a rank knows of its transfers: their numbers, the messages that it announced and those that come to it, and the
/// payloads of collectives that it announced and those that come to it. Both kinds have one count.
///
/// ```text
///  messages
///  to a rank:   begin_send ─► offered ── on_cts: handed out, and gone
///  from a rank: on_rts: counted ── collect ─► comes ── on_data: the next piece ─► comes
///                                                  └── on_data: the last piece ─► handed out whole, and gone
///  payloads
///  to a rank:   announce_payloads ─► kept ── on_payload_cts: gone
///  from a rank: begin_payload: counted ─► comes ── on_payload_data: the next piece ─► comes, or gone with the last
///                                              └── take_whole: the last piece ─► handed out whole ── put_back ─► comes
///  either way:  drop_from(rank), a lesson: what is announced or comes is gone, and numbers begin at 0
/// ```
#[derive(Drop)]
pub struct Transfers {
    pub(crate) numbers: Vec<Numbers>,
    offers: Vec<Offer>,
    collections: Vec<Collection>,
    pub(crate) announced: Vec<AnnouncedPayload>,
    pub(crate) coming: Vec<ComingPayload>,
}

impl Model for Transfers {
    ghost use Rattle.std.specs.Prelude.{◌-◌, vec_len, vec_capacity};
    ghost use Rattle.rendezvous.specs.State.{Held};

    ghost Value = { Held };

    ghost view = { λ t. record {
      state = record { numbers = t.numbers.items; offers = t.offers.items; collections = t.collections.items };
      sends = vec_capacity t.offers - vec_len t.offers;
      receives = vec_capacity t.collections - vec_len t.collections;
      payloads = record {
        state = record { announced = t.announced.items; coming = t.coming.items };
        more_announced = vec_capacity t.announced - vec_len t.announced;
        more_coming = vec_capacity t.coming - vec_len t.coming;
      };
    } };
}

/// Whether no number is left for a transfer to the rank, or there is no such rank.
fn is_full_to(numbers: &[Numbers], rank: u16) -> bool
    ensures { result ≡ is_full_to numbers.now rank }
{
    match numbers.get(usize::from(rank)) {
        Some(session) => session.begun == u32::MAX,
        None => true,
    }
}

/// One more transfer to the rank begins; its number is answered.
pub(crate) fn begin(numbers: &mut Vec<Numbers>, rank: u16) -> u32
    requires { is_full_to numbers.old.items rank ≡ false }
    ensures number { result ≡ next_to numbers.old.items rank }
    ensures counted { numbers.new.items ≡ with_begun numbers.old.items rank }
{
    let session = &mut numbers[usize::from(rank)];
    let transfer = session.begun;
    session.begun = transfer + 1;
    transfer
}

/// The transfer from the rank that has this number, which is its next one, is announced.
pub(crate) fn announce(numbers: &mut Vec<Numbers>, rank: u16, transfer: u32)
    requires { is_next numbers.old.items rank transfer ≡ true }
    ensures { numbers.new.items ≡ with_announced numbers.old.items rank }
{
    let session = &mut numbers[usize::from(rank)];
    session.announced = transfer + 1;
}

/// No transfer of the session with the rank has begun, in either direction.
fn start_anew(numbers: &mut Vec<Numbers>, rank: u16)
    ensures { numbers.new.items ≡ slice_set numbers.old.items rank fresh }
{
    if usize::from(rank) < numbers.len() {
        numbers[usize::from(rank)] = Numbers {
            begun: 0,
            announced: 0,
        };
    }
}

fn place_of_offer(offers: &[Offer], target: u16, transfer: u32) -> Option<usize>
    ensures { result ≡ offer_for target transfer offers.now }
{
    offers
        .iter()
        .position(|offer| offer.is_to(target, transfer))
}

fn place_of_collection(collections: &[Collection], source: u16, transfer: u32) -> Option<usize>
    ensures { result ≡ collection_for source transfer collections.now }
{
    collections
        .iter()
        .position(|collection| collection.is_from(source, transfer))
}

/// The transfer to the rank that has this number, where it is offered.
fn find_offer(offers: &[Offer], target: u16, transfer: u32) -> Option<&Offer>
    ensures { option_copied result ≡ offer_at offers.now (offer_for target transfer offers.now) }
{
    match place_of_offer(offers, target, transfer) {
        Some(place) => offers.get(place),
        None => None,
    }
}

/// Takes out the transfer to the rank that has this number, where it is offered.
fn take_offer(offers: &mut Vec<Offer>, target: u16, transfer: u32) -> Option<Offer>
    ensures taken { result ≡ offer_at offers.old.items (offer_for target transfer offers.old.items) }
    ensures rest { offers.new.items ≡ without_offer offers.old.items (offer_for target transfer offers.old.items) }
    ensures bound { vec_len offers.new ≤ vec_len offers.old }
    ensures capacity { vec_capacity offers.new ≡ vec_capacity offers.old }
{
    match place_of_offer(offers.as_slice(), target, transfer) {
        Some(place) => Some(offers.remove(place)),
        None => None,
    }
}

/// The transfer from the rank that has this number, where it is collected.
fn find_collection(collections: &[Collection], source: u16, transfer: u32) -> Option<&Collection>
    ensures { option_copied result ≡ collection_at collections.now (collection_for source transfer collections.now) }
{
    match place_of_collection(collections, source, transfer) {
        Some(place) => collections.get(place),
        None => None,
    }
}

/// Adds a piece, for which there is room, to the collection at a place, and tells whether all its data have come now.
fn push_piece(collections: &mut Vec<Collection>, place: usize, bytes: &[u8]) -> bool
    requires there { place < length collections.old.items }
    requires room { length (grown_at collections.old.items place bytes.now).bytes
        ≤ (grown_at collections.old.items place bytes.now).total }
    ensures grown { collections.new.items
        ≡ slice_set collections.old.items place (grown_at collections.old.items place bytes.now) }
    ensures whole { result ≡ is_whole (grown_at collections.old.items place bytes.now) }
    ensures capacity { vec_capacity collections.new ≡ vec_capacity collections.old }
{
    let collection = &mut collections[place];
    collection.push(bytes);
    collection.is_whole()
}

/// Adds the next piece to the transfer from the rank that has this number, and hands out the message once it is whole.
#[tactic(auto, using(crate::proofs::Steps::remove_set))]
fn take_piece(
    collections: &mut Vec<Collection>,
    source: u16,
    transfer: u32,
    offset: u32,
    bytes: &[u8],
) -> Option<Collected>
    requires { is_due collections.old.items source transfer offset bytes.now ≡ true }
    ensures given { result
        ≡ given_at collections.old.items (collection_for source transfer collections.old.items) bytes.now }
    ensures rest { collections.new.items
        ≡ with_data_at collections.old.items (collection_for source transfer collections.old.items) bytes.now }
    ensures bound { vec_len collections.new ≤ vec_len collections.old }
    ensures capacity { vec_capacity collections.new ≡ vec_capacity collections.old }
{
    match place_of_collection(collections.as_slice(), source, transfer) {
        Some(place) => {
            if push_piece(collections, place, bytes) {
                Some(collections.remove(place).into_collected())
            } else {
                None
            }
        }
        None => None,
    }
}

fn drop_offers(offers: &mut Vec<Offer>, rank: u16)
    ensures items { offers.new.items ≡ filter (λ o. not (o.target == rank)) offers.old.items }
    ensures bound { vec_len offers.new ≤ vec_len offers.old }
    ensures capacity { vec_capacity offers.new ≡ vec_capacity offers.old }
{
    offers.retain(|offer| offer.target != rank);
}

fn drop_collections(collections: &mut Vec<Collection>, rank: u16)
    ensures items { collections.new.items ≡ filter (λ c. not (c.source == rank)) collections.old.items }
    ensures bound { vec_len collections.new ≤ vec_len collections.old }
    ensures capacity { vec_capacity collections.new ≡ vec_capacity collections.old }
{
    collections.retain(|collection| collection.source() != rank);
}

/// The keys of the requests that offer to the rank, and then of those that collect from it, or want of memory.
fn keys_among(
    alloc: Global,
    offers: &[Offer],
    collections: &[Collection],
    rank: u16,
) -> Result<Vec<usize>, OutOfMemory>
    ensures { IfOk result (λ keys. keys.items
        ≡ map (λ o. o.request) (filter (λ o. o.target == rank) offers.now)
        ++ map (λ c. c.request) (filter (λ c. c.source == rank) collections.now)) }
{
    match offers
        .iter()
        .filter(|offer| offer.target == rank)
        .map(|offer| offer.request)
        .chain(
            collections
                .iter()
                .filter(|collection| collection.source() == rank)
                .map(|collection| collection.request()),
        )
        .collect(alloc)
    {
        Ok(keys) => Ok(keys),
        Err(_) => Err(OutOfMemory {}),
    }
}

impl Transfers {
    /// No transfers, in a world of this many ranks; it fails for want of memory alone.
    pub fn new(alloc: Global, ranks: u16) -> Result<Self, OutOfMemory>
        ensures messages { IfOk result (λ transfers. transfers.state
            ≡ record { numbers = replicate ranks fresh; offers = []; collections = [] }) }
        ensures payloads { IfOk result (λ transfers. transfers.payloads.state ≡ opening) }
    {
        let Ok(numbers) = Vec::from_elem(alloc, Numbers::default(), usize::from(ranks)) else {
            return Err(OutOfMemory {});
        };
        Ok(Transfers {
            numbers,
            offers: Vec::new(alloc),
            collections: Vec::new(alloc),
            announced: Vec::new(alloc),
            coming: Vec::new(alloc),
        })
    }

    /// Whether both stand alike: as many transfers were begun and announced in each session, the same messages and
    /// payloads wait for an answer, and as much has come of the same ones. For how many more there is memory makes no
    /// difference.
    pub fn stands_as(&self, other: &Transfers) -> bool
        ensures messages { IsTrue result → self.now.state ≡ other.now.state }
        ensures payloads { IsTrue result → self.now.payloads.state ≡ other.now.payloads.state }
    {
        are_alike(&self.numbers, &other.numbers)
            && are_alike(&self.offers, &other.offers)
            && are_alike(&self.collections, &other.collections)
            && are_alike(&self.announced, &other.announced)
            && are_alike(&self.coming, &other.coming)
    }

    /// Whether no further transfer to the rank can begin: refusal number 13. It is so once 4,294,967,295 have begun in
    /// the session, and of a rank that isn't there.
    pub fn is_full_to(&self, rank: u16) -> bool
        ensures { result ≡ is_full_to self.now.state.numbers rank }
    {
        is_full_to(&self.numbers, rank)
    }

    /// The number that the next transfer to the rank gets; 0 of a rank that isn't there.
    pub fn next_to(&self, rank: u16) -> u32
        ensures { result ≡ next_to self.now.state.numbers rank }
    {
        match self.numbers.get(usize::from(rank)) {
            Some(session) => session.begun,
            None => 0,
        }
    }

    /// Makes room for one more offer, or finds that there is no memory. Nothing else changes.
    pub fn reserve_send(&mut self) -> Result<(), OutOfMemory>
        ensures room { OnOk result (0 < self.new.sends) }
        ensures full { OnErr result (self.old.sends ≡ 0) }
        ensures kept { self.new ≡ record self.old { sends = self.new.sends } }
    {
        self.offers.reserve(1).map_err(|_| OutOfMemory {})
    }

    /// Begins a transfer of these elements to the rank, for which there is room, and answers its number.
    pub fn begin_send(&mut self, rank: u16, request: usize, elements: Buffer) -> u32
        requires room { 0 < self.old.sends }
        requires number { is_full_to self.old.state.numbers rank ≡ false }
        ensures state { self.new.state ≡ after_begin self.old.state rank request elements }
        ensures number { result ≡ next_to self.old.state.numbers rank }
        ensures sends { self.new.sends + 1 ≡ self.old.sends }
        ensures receives { self.new.receives ≡ self.old.receives }
        ensures payloads { self.new.payloads ≡ self.old.payloads }
    {
        let transfer = begin(&mut self.numbers, rank);
        self.offers.push_reserved(Offer {
            target: rank,
            transfer,
            request,
            elements: elements.into_whole(),
        });
        transfer
    }

    /// Whether an announcement by the rank under this number is due: another one is refused with 30.
    pub fn is_next(&self, rank: u16, transfer: u32) -> bool
        ensures { result ≡ is_next self.now.state.numbers rank transfer }
    {
        match self.numbers.get(usize::from(rank)) {
            Some(session) => session.announced != u32::MAX && session.announced == transfer,
            None => false,
        }
    }

    /// Counts the rank's next announcement, which has this number. It takes no memory.
    pub fn on_rts(&mut self, rank: u16, transfer: u32)
        requires { is_next self.old.state.numbers rank transfer ≡ true }
        ensures { self.new ≡ record self.old { state = after_rts self.old.state rank } }
    {
        announce(&mut self.numbers, rank, transfer);
    }

    /// Makes room for one more collection, or finds that there is no memory. Nothing else changes.
    pub fn reserve_collection(&mut self) -> Result<(), OutOfMemory>
        ensures room { OnOk result (0 < self.new.receives) }
        ensures full { OnErr result (self.old.receives ≡ 0) }
        ensures kept { self.new ≡ record self.old { receives = self.new.receives } }
    {
        self.collections.reserve(1).map_err(|_| OutOfMemory {})
    }

    /// Begins to collect a message, for which there is room.
    pub fn collect(&mut self, collection: Collection)
        requires { 0 < self.old.receives }
        ensures state { self.new.state ≡ after_collect self.old.state collection }
        ensures sends { self.new.sends ≡ self.old.sends }
        ensures receives { self.new.receives + 1 ≡ self.old.receives }
        ensures payloads { self.new.payloads ≡ self.old.payloads }
    {
        self.collections.push_reserved(collection);
    }

    /// The transfer to the rank that has this number, where it is offered: an answer to any other one is refused with
    /// 30.
    pub fn offer(&self, rank: u16, transfer: u32) -> Option<&Offer>
        ensures { option_copied result ≡ offered self.now.state rank transfer }
    {
        find_offer(&self.offers, rank, transfer)
    }

    /// Takes out the transfer to the rank that has this number, which is answered, where it is offered. It takes no
    /// memory.
    pub fn on_cts(&mut self, rank: u16, transfer: u32) -> Option<Offer>
        ensures state { self.new.state ≡ after_cts self.old.state rank transfer }
        ensures taken { result ≡ offered self.old.state rank transfer }
        ensures sends { self.old.sends ≤ self.new.sends }
        ensures receives { self.new.receives ≡ self.old.receives }
        ensures payloads { self.new.payloads ≡ self.old.payloads }
    {
        take_offer(&mut self.offers, rank, transfer)
    }

    /// Whether these bytes from this place on are the next piece of the transfer from the rank that has this number:
    /// other data are refused with 30.
    pub fn is_due(&self, rank: u16, transfer: u32, offset: u32, bytes: &[u8]) -> bool
        ensures { result ≡ is_due self.now.state.collections rank transfer offset bytes.now }
    {
        match find_collection(&self.collections, rank, transfer) {
            Some(collection) => collection.is_next_data(offset, bytes),
            None => false,
        }
    }

    /// Takes the next piece of the transfer from the rank that has this number, and hands out the message with its last
    /// one. It takes no memory.
    pub fn on_data(
        &mut self,
        rank: u16,
        transfer: u32,
        offset: u32,
        bytes: &[u8],
    ) -> Option<Collected>
        requires { is_due self.old.state.collections rank transfer offset bytes.now ≡ true }
        ensures state { self.new.state ≡ after_data self.old.state rank transfer bytes.now }
        ensures given { result ≡ given self.old.state rank transfer bytes.now }
        ensures sends { self.new.sends ≡ self.old.sends }
        ensures receives { self.old.receives ≤ self.new.receives }
        ensures payloads { self.new.payloads ≡ self.old.payloads }
    {
        take_piece(&mut self.collections, rank, transfer, offset, bytes)
    }

    /// The keys of the requests that offer to the rank, and then of those that collect from it, the oldest first; or
    /// want of memory.
    pub fn keys_with(&self, alloc: Global, rank: u16) -> Result<Vec<usize>, OutOfMemory>
        ensures { IfOk result (λ keys. keys.items ≡ keys_with self.now.state rank) }
    {
        keys_among(alloc, &self.offers, &self.collections, rank)
    }

    /// Starts both directions of the session with the rank anew, since it is known at a new incarnation: numbers count
    /// from 0, and what was offered or announced to it or comes from it is gone. It takes no memory.
    ///
    /// MPI 3.1 defines no restart of a rank; what becomes of these is this project's own.
    pub fn drop_from(&mut self, rank: u16)
        ensures state { self.new.state ≡ after_drop self.old.state rank }
        ensures sends { self.old.sends ≤ self.new.sends }
        ensures receives { self.old.receives ≤ self.new.receives }
        ensures payloads { self.new.payloads.state ≡ payloads.after_drop self.old.payloads.state rank }
        ensures announced { self.old.payloads.more_announced ≤ self.new.payloads.more_announced }
        ensures coming { self.old.payloads.more_coming ≤ self.new.payloads.more_coming }
    {
        start_anew(&mut self.numbers, rank);
        drop_offers(&mut self.offers, rank);
        drop_collections(&mut self.collections, rank);
        drop_announced(&mut self.announced, rank);
        drop_coming(&mut self.coming, rank);
    }
}
