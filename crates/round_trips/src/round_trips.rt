//! The round trips to all ranks of a job.

ghost use Rattle.std.specs.Prelude.{◌≡◌, ◌≤◌, map, slice_get, IfOk, Some};
ghost use Rattle.std.specs.Option.{option_map};
ghost use Rattle.datagram.specs.ByteMeanings.{datagram_of};
ghost use Rattle.round_trips.specs.Trips.{after_acknowledgement, after_came, after_frame, after_sent, changed, goes_to};
ghost use Rattle.round_trips.specs.Trips.{estimate_in, late, with_estimate};
ghost use Rattle.round_trips.specs.Trips.{may_be, may_go, measured_wait, near, troubled_wait, unknown};
ghost use Rattle.round_trips.specs.Trips.{wait_now};

use crate::estimate::Estimate;
use crate::round_trip::RoundTrip;
use datagram::{Content, Datagram, read_form};
use std::alloc::{AllocError, Global};
use std::marker::Model;

/// What is known of the round trips to each rank of a job, rank by rank. It learns from the datagrams that a rank sends
/// and takes in.
#[derive(Drop)]
pub struct RoundTrips {
    trips: Vec<RoundTrip>,
}

impl Model for RoundTrips {
    ghost use Rattle.std.specs.Prelude.{List};
    ghost use Rattle.round_trips.specs.declared.round_trip.RoundTrip.{RoundTrip};

    ghost Value = { List RoundTrip };

    ghost view = { λ r. r.trips.items };
}

/// The place of the byte that says what a datagram is for.
const KIND: usize = 5;

/// What it says of a frame, and of an acknowledgement.
const FRAME: u8 = 1;

const ACKNOWLEDGEMENT: u8 = 2;

/// Whether the bytes may spell a datagram of this kind: to look at the byte that says so is far cheaper than to read all.
fn may_be(bytes: &[u8], kind: u8) -> bool
    ensures { result ≡ may_be bytes.now kind }
{
    bytes.len() > KIND && bytes[KIND] == kind
}

/// Frames to each rank take as long as this says.
fn learn_in_each(trips: &mut [RoundTrip], estimate: Estimate)
    ensures { trips.new ≡ map (λ t. with_estimate t estimate) trips.old }
{
    for trip in trips.iter_mut() {
        trip.learn(estimate);
    }
}

/// The same of all.
fn learn_in_all(trips: &mut Vec<RoundTrip>, estimate: Estimate)
    ensures { trips.new.items ≡ map (λ t. with_estimate t estimate) trips.old.items }
{
    learn_in_each(trips, estimate);
}

impl RoundTrips {
    /// Nothing is known of the ranks of a job of this size. The only error is want of memory.
    pub fn new(alloc: Global, size: u16) -> Result<RoundTrips, AllocError>
        ensures { IfOk result (λ trips. trips ≡ unknown size) }
    {
        let mut trips = Vec::new(alloc);
        trips.resize(usize::from(size), RoundTrip::begun(0, None, 0))?;
        Ok(RoundTrips { trips })
    }

    /// The same of a job whose ranks are near: round trips take no time, until one is measured.
    pub fn near(alloc: Global, size: u16) -> Result<RoundTrips, AllocError>
        ensures { IfOk result (λ trips. trips ≡ near size) }
    {
        let mut trips = Vec::new(alloc);
        trips.resize(
            usize::from(size),
            RoundTrip::begun(0, Some(Estimate::none()), 0),
        )?;
        Ok(RoundTrips { trips })
    }

    /// The same of a job whose ranks are on one machine: what isn't answered is late there, and hardly ever lost. So a
    /// frame that goes again is measured from the time on when it went first, and the ranks' lateness is learned.
    pub fn late(alloc: Global, size: u16) -> Result<RoundTrips, AllocError>
        ensures { IfOk result (λ trips. trips ≡ late size) }
    {
        let mut trips = Vec::new(alloc);
        trips.resize(usize::from(size), RoundTrip::late())?;
        Ok(RoundTrips { trips })
    }

    /// Frames to all ranks take as long as others learned that they do.
    pub fn learn_all(&mut self, estimate: Estimate)
        ensures { self.new ≡ map (λ t. with_estimate t estimate) self.old }
    {
        learn_in_all(&mut self.trips, estimate);
    }

    /// A frame of this number goes out to this incarnation of a rank.
    fn on_frame(&mut self, rank: u16, incarnation: u16, number: u64, now: u64)
        ensures { self.new ≡ changed self.old rank (λ t. after_frame t incarnation number now) }
    {
        if let Some(trip) = self.trips.get_mut(usize::from(rank)) {
            *trip = trip.after_frame(incarnation, number, now);
        }
    }

    /// An acknowledgement comes from this incarnation of a rank.
    fn on_acknowledgement(&mut self, rank: u16, incarnation: u16, next: u64, held: u64, now: u64)
        ensures { self.new ≡ changed self.old rank (λ t. after_acknowledgement t incarnation next held now) }
    {
        if let Some(trip) = self.trips.get_mut(usize::from(rank)) {
            *trip = trip.after_acknowledgement(incarnation, next, held, now);
        }
    }

    /// A datagram goes out, at this time in microseconds. Only a frame tells something, of the rank that it is for.
    pub fn on_sent(&mut self, bytes: &[u8], now: u64)
        ensures { self.new ≡ after_sent self.old (datagram_of bytes.now) now }
    {
        if !may_be(bytes, FRAME) {
            return;
        }
        if let Ok(
            Datagram {
                header,
                content: Content::Frame(_),
            },
        ) = read_form(bytes)
        {
            self.on_frame(
                header.target.rank,
                header.target.incarnation,
                header.sequence,
                now,
            );
        }
    }

    /// A datagram comes, at this time in microseconds. Only an acknowledgement tells something, of the rank that it is
    /// from.
    pub fn on_came(&mut self, bytes: &[u8], now: u64)
        ensures { self.new ≡ after_came self.old (datagram_of bytes.now) now }
    {
        if !may_be(bytes, ACKNOWLEDGEMENT) {
            return;
        }
        if let Ok(
            Datagram {
                header,
                content: Content::Ack(held),
            },
        ) = read_form(bytes)
        {
            self.on_acknowledgement(
                header.source.rank,
                header.source.incarnation,
                header.sequence,
                held,
                now,
            );
        }
    }

    /// Frames to a rank take as long as others learned that do with the same process.
    pub fn learn(&mut self, rank: u16, estimate: Estimate)
        ensures { self.new ≡ changed self.old rank (λ t. with_estimate t estimate) }
    {
        if let Some(trip) = self.trips.get_mut(usize::from(rank)) {
            trip.learn(estimate);
        }
    }

    /// What was learned of the round trips to a rank, if there is one and something was.
    pub fn estimate_of(&self, rank: u16) -> Option<Estimate>
        ensures { result ≡ estimate_in (slice_get self.now rank) }
    {
        let trip = self.trips.get(usize::from(rank))?;
        trip.estimate
    }

    /// Whether the frame of this number may go to this incarnation of a rank now.
    fn lets_go(&self, rank: u16, incarnation: u16, number: u64) -> bool
        ensures { result ≡ goes_to (slice_get self.now rank) incarnation number }
    {
        match self.trips.get(usize::from(rank)) {
            Some(trip) => trip.lets_go(incarnation, number),
            None => true,
        }
    }

    /// Whether a datagram is to go out now (`RoundTrip::lets_go`). Only frames that went before may be held back; a
    /// later tick brings them again.
    pub fn may_go(&self, bytes: &[u8]) -> bool
        ensures { result ≡ may_go self.now (datagram_of bytes.now) }
    {
        if !may_be(bytes, FRAME) {
            return true;
        }
        match read_form(bytes) {
            Ok(
                Datagram {
                    header,
                    content: Content::Frame(_),
                },
            ) => self.lets_go(
                header.target.rank,
                header.target.incarnation,
                header.sequence,
            ),
            _ => true,
        }
    }

    /// How many milliseconds frames to a rank of the job wait for their acknowledgements now.
    pub fn wait_of(&self, rank: u16) -> Option<u64>
        ensures { result ≡ option_map wait_now (slice_get self.now rank) }
    {
        let trip = self.trips.get(usize::from(rank))?;
        Some(trip.wait_now())
    }

    /// The same of a rank to which frames were late or lost (`RoundTrip::is_troubled`).
    pub fn troubled_wait(&self, rank: u16) -> Option<u64>
        ensures { result ≡ troubled_wait (slice_get self.now rank) }
    {
        let trip = self.trips.get(usize::from(rank))?;
        if !trip.is_troubled() {
            return None;
        }
        Some(trip.wait_now())
    }

    /// The same of a rank to which a round trip was measured.
    pub fn measured_wait(&self, rank: u16) -> Option<u64>
        ensures { result ≡ measured_wait (slice_get self.now rank) }
    {
        let trip = self.trips.get(usize::from(rank))?;
        if trip.estimate.is_none() {
            return None;
        }
        Some(trip.wait_now())
    }
}
