//! The rank's wire as the transport of its loop.

ghost use Rattle.std.specs.Prelude.{◌≡◌, ◌+◌, ◌<◌, ◌≤◌, ◌^◌, [], None, length, ◌∷◌, IfErr, IfOk, IfSome, OnOk};
ghost use Rattle.port_transport.specs.Ports.{Passes};
ghost use Rattle.datagram.specs.ByteMeanings.{datagram_of};
ghost use Rattle.round_trips.specs.Trips.{may_go};
ghost use Rattle.rank_process.specs.PortViews.{SentBy};
ghost use Rattle.rank_process.specs.Faults.{is_of_output};
ghost use Rattle.rank_process.specs.Notes.{came_at, sent_at, sent_where};
ghost use Rattle.rank_process.specs.Stays.{longest_stay};
ghost use Rattle.rank_process.specs.Waits.{waits_in};

use crate::clock::micros_of;
use crate::stay::stay_in;
use event_loop::{Transport, TransportFault};
use port_transport::{PortTransport, PrintFault, Wire, WireFault};
use round_trips::RoundTrips;
use std::alloc::Global;
use std::time::Instant;

/// The transport of a rank over a wire: what it decides by itself is what `PortTransport` says, and each call that
/// fails is counted. It measures round trips, and frames wait for their acknowledgements by that.
#[derive(Drop)]
pub struct RankTransport<W: Wire> {
    ports: PortTransport<W>,
    /// What was measured of round trips.
    trips: RoundTrips,
    /// Whether all ranks are on one machine.
    is_near: bool,
    /// The time from which it counts, if the clock told it.
    start: Option<Instant>,
    /// How often it has failed.
    failures: u64,
    /// Whether a line couldn't be written.
    has_lost_line: bool,
}

/// A datagram goes out at this time, where that is known: the round trip of a frame begins.
fn note_sent(trips: &mut RoundTrips, bytes: &[u8], now: Option<u64>)
    ensures { trips.new ≡ sent_at trips.old (datagram_of bytes.now) now }
{
    if let Some(now) = now {
        trips.on_sent(bytes, now);
    }
}

/// A datagram came at this time, where that is known: an acknowledgement ends round trips.
fn note_came(trips: &mut RoundTrips, bytes: &[u8], now: Option<u64>)
    ensures { trips.new ≡ came_at trips.old (datagram_of bytes.now) now }
{
    if let Some(now) = now {
        trips.on_came(bytes, now);
    }
}

/// Where nothing is done nothing passes.
fn nothing_passes<W: Wire>(ports: &PortTransport<W>)
    ensures { Passes W.did ports.now [] [] [] ports.now }
{}

impl<W: Wire> RankTransport<W> {
    /// A transport over this wire, of a job whose rank 0 has this port, in which so much is known of round trips, and
    /// whose ranks are on one machine or not. It takes no memory.
    pub fn new(
        alloc: Global,
        wire: W,
        first_port: u16,
        trips: RoundTrips,
        is_near: bool,
    ) -> RankTransport<W>
        ensures none { result.failures ≡ 0 }
        ensures ports { (result.ports.wire ≡ wire) × (result.ports.first ≡ first_port) × (result.ports.kept ≡ None) }
    {
        let start = wire.time();
        RankTransport {
            ports: PortTransport::new(alloc, wire, first_port),
            trips,
            is_near,
            start,
            failures: 0,
            has_lost_line: false,
        }
    }

    /// What carries its bytes.
    pub fn wire(&self) -> &W
        ensures { result.now ≡ self.now.ports.wire }
    {
        self.ports.wire()
    }

    fn fault(&mut self) -> TransportFault
        requires { self.old.failures + 1 < 2 ^ 64 }
        ensures failures { self.new.failures ≡ self.old.failures + 1 }
        ensures ports { self.new.ports ≡ self.old.ports }
    {
        self.failures += 1;
        TransportFault
    }

    /// The microseconds since it was made, where the clock tells them.
    fn micros(&self) -> Option<u64> {
        let now = self.ports.wire().time()?;
        Some(micros_of(now.duration_since(self.start?)))
    }

    /// How many milliseconds a rank of a job of so many ranks stays on behind its end: by the longest of the times to send
    /// again that were measured; 0 where all ranks are on one machine and all went well.
    pub fn stay(&self, size: u16) -> u64
        ensures { result ≡ longest_stay self.now.is_near self.now.trips size }
    {
        stay_in(&self.trips, self.is_near, size)
    }

    /// Sends a datagram, unless it is a frame that is not to go again now. The round trip of a frame that goes begins
    /// now, where the time is known.
    #[tactic(auto, using(crate::specs::PortSteps::sent_on, crate::specs::PortSteps::was_held, crate::specs::Notes::sent_now, crate::specs::Notes::not_sent))]
    fn hand_on(&mut self, target: u16, bytes: &[u8], now: Option<u64>) -> Result<(), WireFault>
        ensures sent { OnOk result (SentBy (may_go self.old.trips (datagram_of bytes.now)) W.did self.old.ports target
            bytes.now self.new.ports) }
        ensures trips { self.new.trips ≡ sent_where (may_go self.old.trips (datagram_of bytes.now)) self.old.trips
            (datagram_of bytes.now) now }
        ensures failures { self.new.failures ≡ self.old.failures }
    {
        if !self.trips.may_go(bytes) {
            nothing_passes(&self.ports);
            return Ok(());
        }
        note_sent(&mut self.trips, bytes, now);
        self.ports.send(target, bytes)
    }

    /// Prints a line. Where that fails, it is kept whether its output did.
    fn put_line(&mut self, line: &[u8]) -> Result<(), PrintFault>
        ensures passes { OnOk result (Passes W.did self.old.ports [] [] (line.now ∷ []) self.new.ports) }
        ensures lost { IfErr result (λ fault. self.new.has_lost_line ≡ is_of_output fault) }
        ensures failures { self.new.failures ≡ self.old.failures }
    {
        let put = self.ports.print(line);
        if let Err(fault) = put {
            self.has_lost_line = fault == PrintFault::Output;
        }
        put
    }

    /// Whether its output failed.
    pub fn has_lost_line(&self) -> bool
        ensures { result ≡ self.now.has_lost_line }
    {
        self.has_lost_line
    }

    /// Puts the datagram that came next into the buffer, as a receive does, whose fault isn't counted.
    pub fn take(&mut self, buffer: &mut [u8]) -> Result<Option<usize>, WireFault>
        ensures within { IfOk result (λ found. IfSome found (λ n. n ≤ length buffer.new)) }
    {
        self.ports.receive(buffer)
    }

    /// Hands a datagram over for a rank, as a send does, whose fault isn't counted.
    pub fn hand_over(&mut self, target: u16, bytes: &[u8]) -> Result<(), WireFault> {
        self.ports.send(target, bytes)
    }

    /// Waits as a wait does, whose fault isn't counted.
    pub fn pause(&mut self, most: u64) -> Result<(), WireFault> {
        self.ports.wait(most)
    }

    /// Sends what is kept back, so that nothing is; nothing else is asked of it afterwards.
    pub fn finish(&mut self) -> Result<(), TransportFault>
        ensures none { self.new.ports.kept ≡ None }
        ensures passes { OnOk result (Passes W.did self.old.ports [] [] [] self.new.ports) }
    {
        match self.ports.finish() {
            Ok(()) => Ok(()),
            Err(_) => Err(TransportFault),
        }
    }
}

impl<W: Wire> Transport for RankTransport<W> {
    ghost use Rattle.rank_process.specs.PortViews.{CarriesAll};
    ghost use Rattle.rank_process.specs.PortSteps.{carries_more, carries_none};
    ghost use Rattle.rank_process.specs.Waits.{waits_in};

    ghost passed = { λ old exchanges new. CarriesAll W.did old.ports exchanges new.ports };

    ghost failed = { λ t. t.failures };

    ghost waits = { λ t. waits_in t.trips };

    #[tactic(auto, using(crate::specs::PortSteps::came, crate::specs::PortSteps::call_failed))]
    fn receive(&mut self, buffer: &mut [u8]) -> Result<Option<usize>, TransportFault> {
        match self.ports.receive(buffer) {
            Ok(found) => {
                if let Some(len) = found {
                    let now = self.micros();
                    note_came(&mut self.trips, &buffer[..len], now);
                }
                Ok(found)
            }
            Err(_) => Err(self.fault()),
        }
    }

    #[tactic(auto, using(crate::specs::PortSteps::went, crate::specs::PortSteps::call_failed))]
    fn send(&mut self, target: u16, bytes: &[u8]) -> Result<(), TransportFault> {
        let now = self.micros();
        match self.hand_on(target, bytes, now) {
            Ok(()) => Ok(()),
            Err(_) => Err(self.fault()),
        }
    }

    #[tactic(auto, using(crate::specs::PortSteps::was_printed, crate::specs::PortSteps::call_failed))]
    fn print(&mut self, line: &[u8]) -> Result<(), TransportFault> {
        match self.put_line(line) {
            Ok(()) => Ok(()),
            Err(_) => Err(self.fault()),
        }
    }

    #[tactic(auto, using(crate::specs::PortSteps::waited, crate::specs::PortSteps::call_failed))]
    fn wait(&mut self, most: u64) -> Result<(), TransportFault> {
        match self.ports.wait(most) {
            Ok(()) => Ok(()),
            Err(_) => Err(self.fault()),
        }
    }

    #[tactic(auto, using(crate::specs::Waits::wait_there))]
    fn wait_of(&self, rank: u16) -> Option<u64> {
        self.trips.wait_of(rank)
    }

    fn failures(&self) -> u64 {
        self.failures
    }

    ghost none = { λ t. carries_none W.did W.none t.ports };

    ghost joined = { λ s t u xs ys p q. carries_more W.did W.joined s.ports t.ports u.ports xs ys p q };
}
