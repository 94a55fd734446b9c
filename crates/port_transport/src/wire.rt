//! What carries bytes to ports.

ghost use Rattle.std.specs.Prelude.{◌≡◌, ◌≤◌, List, [], ◌∷◌, ◌++◌, length, IfOk, IfSome, OnOk};

use datagram::Bytes;
use delayed_acknowledgements::Delay;
use std::time::Instant;

/// The wire failed.
#[derive(Clone, Copy, Debug, PartialEq, Eq)]
pub struct WireFault;

/// One thing that a wire did.
#[derive(Drop)]
pub enum WireEvent {
    /// These bytes went to this port. They may be lost.
    Went(u16, Bytes),
    /// These bytes came.
    Came(Bytes),
    /// These bytes were written to the output.
    Wrote(Bytes),
}

/// What carries bytes to the ports of this machine and from them, and writes to an output.
pub trait Wire {
    ghost use Rattle.port_transport.specs.declared.wire.WireEvent.{WireEvent};
    ghost use Rattle.port_transport.specs.declared.wire.WireEvent.TheVariants.{Went, Wrote};
    ghost use Rattle.port_transport.specs.Wires.{arrived};
    ghost use Rattle.std.specs.Prelude.{Bool, Option};
    ghost use Rattle.std.specs.declared.time.Instant.{Instant};
    ghost use Rattle.delayed_acknowledgements.specs.declared.delay.Delay.{Delay};

    /// Between these states it did this, in order.
    ghost did: { Self → List WireEvent → Self → Type 0 };

    /// This is the time that it tells, if it tells one.
    ghost tells: { Self → Option Instant → Type 0 };

    /// Between these states it was asked whether something is there soon, with this delay, if there is one, and this is
    /// its answer.
    ghost answers: { Self → Option Delay → Bool → Self → Type 0 };

    /// Sends the bytes to a port.
    fn send(&mut self, port: u16, bytes: &[u8]) -> Result<(), WireFault>
        ensures { OnOk result (did self.old (Went port bytes.now ∷ []) self.new) };

    /// Puts what came next into the buffer, and answers how many bytes it has there; none where nothing is there now.
    fn receive(&mut self, buffer: &mut [u8]) -> Result<Option<usize>, WireFault>
        ensures within { IfOk result (λ found. IfSome found (λ n. n ≤ length buffer.new)) }
        ensures came { IfOk result (λ found. did self.old (arrived found buffer.new) self.new) };

    /// Writes the bytes to the output.
    fn write(&mut self, text: &[u8]) -> Result<(), WireFault>
        ensures { OnOk result (did self.old (Wrote text.now ∷ []) self.new) };

    /// Waits until something is there, or so many milliseconds are over. It may come back before.
    fn wait(&mut self, most: u64) -> Result<(), WireFault>
        ensures { OnOk result (did self.old [] self.new) };

    /// Lets others run, and asks some times whether something is there, until it is, or this delay, if there is one, is
    /// late. Answers whether something is there.
    fn comes_soon(&mut self, delay: Option<Delay>) -> bool
        ensures did { did self.old [] self.new }
        ensures answers { answers self.old delay result self.new };

    /// The time now, if it is known.
    fn time(&self) -> Option<Instant>
        ensures { tells self.now result };

    /// Where nothing was done, it did nothing.
    ghost none: { (w : Self) → did w [] w };

    /// What it did in two steps, one after the other.
    ghost joined: { (u v w : Self) (es fs : List WireEvent) → did u es v → did v fs w → did u (es ++ fs) w };
}
