//! What is on its way to all ranks of a job.

ghost use Rattle.std.specs.Prelude.{◌≡◌, ◌||◌, map, slice_get, IfOk};
ghost use Rattle.datagram.specs.ByteMeanings.{datagram_of};
ghost use Rattle.congestion_windows.specs.Flights.{acknowledged_by, acknowledged_from, after_came, after_offer, asked, asks_in, changed};
ghost use Rattle.congestion_windows.specs.Flights.{fresh_in, is_new, offered, opening, settled, withheld_in, withholds};

use crate::flight::Flight;
use crate::limits::WindowLimits;
use datagram::{Content, Datagram, read_form};
use std::alloc::{AllocError, Global};
use std::marker::Model;

/// What is on its way to each rank of a job, rank by rank. It learns from the datagrams that are to go and that come.
///
/// Whoever sends offers each datagram that is to go, in order, and sends those that aren't withheld then. Where `asks`
/// says so, what was deferred is to be offered again.
#[derive(Drop)]
pub struct CongestionWindows {
    limits: WindowLimits,
    flights: Vec<Flight>,
    /// Whether acknowledgements made room for what is deferred since that was asked for.
    asks: bool,
}

impl Model for CongestionWindows {
    ghost use Rattle.congestion_windows.specs.Flights.{WindowsState};

    ghost Value = { WindowsState };

    ghost view = { λ w. record { limits = w.limits; flights = w.flights.items; asks = w.asks } };
}

/// What was deferred is asked for.
fn settle_each(flights: &mut [Flight])
    ensures { flights.new ≡ map settled flights.old }
{
    for flight in flights.iter_mut() {
        flight.settle();
    }
}

/// The same of all.
fn settle_all(flights: &mut Vec<Flight>)
    ensures { flights.new.items ≡ map settled flights.old.items }
{
    settle_each(flights);
}

impl CongestionWindows {
    /// Nothing is on its way to the ranks of a job of this size. The only error is want of memory.
    pub fn new(
        alloc: Global,
        limits: WindowLimits,
        size: u16,
    ) -> Result<CongestionWindows, AllocError>
        ensures { IfOk result (λ windows. windows ≡ opening limits size) }
    {
        let mut flights = Vec::new(alloc);
        flights.resize(usize::from(size), Flight::begun(limits, 0))?;
        Ok(CongestionWindows {
            limits,
            flights,
            asks: false,
        })
    }

    /// A frame of this number and so many bytes is to go to this incarnation of a rank.
    fn on_frame(&mut self, rank: u16, incarnation: u16, number: u64, size: usize)
        ensures { self.new ≡ record self.old {
          flights = changed self.old.flights rank (λ t. offered self.old.limits t incarnation number size);
        } }
    {
        let limits = self.limits;
        if let Some(flight) = self.flights.get_mut(usize::from(rank)) {
            *flight = flight.offered(limits, incarnation, number, size);
        }
    }

    /// A datagram is to go now, as far as whoever sends it knows. Only a frame tells something.
    pub fn offer(&mut self, bytes: &[u8])
        ensures { self.new ≡ after_offer self.old bytes.now }
    {
        if let Ok(
            Datagram {
                header,
                content: Content::Frame(_),
            },
        ) = read_form(bytes)
        {
            self.on_frame(
                header.target.rank,
                header.target.incarnation,
                header.sequence,
                bytes.len(),
            );
        }
    }

    /// Whether there may be room for what is deferred of a rank.
    pub fn asks_for(&self, rank: u16) -> bool
        ensures { result ≡ asks_in (slice_get self.now.flights rank) }
    {
        match self.flights.get(usize::from(rank)) {
            Some(flight) => flight.asks,
            None => false,
        }
    }

    /// An acknowledgement changes what is on its way to a rank.
    fn on_flight(&mut self, rank: u16, incarnation: u16, next: u64, held: u64)
        ensures { self.new ≡ record self.old {
          flights = changed self.old.flights rank (λ t. acknowledged_by self.old.limits t incarnation next held);
        } }
    {
        let limits = self.limits;
        if let Some(flight) = self.flights.get_mut(usize::from(rank)) {
            *flight = flight.acknowledged_by(limits, incarnation, next, held);
        }
    }

    /// An acknowledgement comes from this incarnation of a rank.
    fn on_acknowledgement(&mut self, rank: u16, incarnation: u16, next: u64, held: u64)
        ensures { self.new ≡ acknowledged_from self.old rank incarnation next held }
    {
        self.on_flight(rank, incarnation, next, held);
        self.asks = self.asks || self.asks_for(rank);
    }

    /// A datagram comes. Only an acknowledgement tells something, of the rank that it is from.
    pub fn on_came(&mut self, bytes: &[u8])
        ensures { self.new ≡ after_came self.old (datagram_of bytes.now) }
    {
        if let Ok(
            Datagram {
                header,
                content: Content::Ack(held),
            },
        ) = read_form(bytes)
        {
            self.on_acknowledgement(
                header.source.rank,
                header.source.incarnation,
                header.sequence,
                held,
            );
        }
    }

    fn is_withheld_at(&self, rank: u16, incarnation: u16, number: u64) -> bool
        ensures { result ≡ withheld_in (slice_get self.now.flights rank) incarnation number }
    {
        match self.flights.get(usize::from(rank)) {
            Some(flight) => flight.is_withheld(incarnation, number),
            None => false,
        }
    }

    /// Whether a datagram isn't to go, once it was offered (`Flight::is_withheld`).
    pub fn withholds(&self, bytes: &[u8]) -> bool
        ensures { result ≡ withholds self.now (datagram_of bytes.now) }
    {
        match read_form(bytes) {
            Ok(
                Datagram {
                    header,
                    content: Content::Frame(_),
                },
            ) => self.is_withheld_at(
                header.target.rank,
                header.target.incarnation,
                header.sequence,
            ),
            _ => false,
        }
    }

    fn is_fresh_at(&self, rank: u16, incarnation: u16, number: u64) -> bool
        ensures { result ≡ fresh_in (slice_get self.now.flights rank) incarnation number }
    {
        match self.flights.get(usize::from(rank)) {
            Some(flight) => flight.is_fresh(incarnation, number),
            None => true,
        }
    }

    /// Whether a datagram is no frame that went before (`Flight::is_fresh`).
    pub fn is_new(&self, bytes: &[u8]) -> bool
        ensures { result ≡ is_new self.now (datagram_of bytes.now) }
    {
        match read_form(bytes) {
            Ok(
                Datagram {
                    header,
                    content: Content::Frame(_),
                },
            ) => self.is_fresh_at(
                header.target.rank,
                header.target.incarnation,
                header.sequence,
            ),
            _ => true,
        }
    }

    /// Whether acknowledgements made room for what is deferred since that was asked for.
    pub fn asks(&self) -> bool
        ensures { result ≡ self.now.asks }
    {
        self.asks
    }

    /// What is deferred is asked for.
    pub fn settle(&mut self)
        ensures { self.new ≡ asked self.old }
    {
        settle_all(&mut self.flights);
        self.asks = false;
    }
}
