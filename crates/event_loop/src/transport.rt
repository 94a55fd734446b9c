//! The transport of a rank.

ghost use Rattle.std.specs.Prelude.{◌≡◌, ℕ, ◌+◌, ◌<◌, ◌≤◌, ◌^◌, List, [], ◌∷◌, ◌++◌, length, slice_get, IfOk, IfSome};

/// The transport failed.
#[derive(Clone, Copy, Debug, PartialEq, Eq)]
pub struct TransportFault;

/// What carries the datagrams of a rank to others and from them, and its lines to whoever reads them.
///
/// A datagram that was sent may be lost, come late, or come more than once. A receive gives a beginning of its buffer.
/// The number of failures rises exactly where a call answers a fault.
pub trait Transport {
    ghost use Rattle.event_loop.specs.declared.exchange.Exchange.{Exchange};
    ghost use Rattle.event_loop.specs.declared.exchange.Exchange.TheVariants.{Sent, Printed, Waited};
    ghost use Rattle.event_loop.specs.Exchanges.{receipt, parcel, FailsWith};

    /// Between these states this passed, in order.
    ghost passed: { Self → List Exchange → Self → Type 0 };

    /// How often it has failed.
    ghost failed: { Self → ℕ };

    /// How long frames to each rank, from 0 on, are to wait for their acknowledgements, in milliseconds, as far as it
    /// measures that; none where they wait as long as they do of themselves.
    ghost waits: { Self → List ℕ };

    /// Puts the next datagram that is there into the buffer, and answers how many bytes it has there; none where no
    /// datagram is there now.
    fn receive(&mut self, buffer: &mut [u8]) -> Result<Option<usize>, TransportFault>
        requires { failed self.old + 1 < 2 ^ 64 }
        ensures within { IfOk result (λ found. IfSome found (λ n. n ≤ length buffer.new)) }
        ensures passed { passed self.old (receipt result buffer.new ∷ []) self.new }
        ensures failures { FailsWith result (failed self.old) (failed self.new) };

    /// Sends a datagram to a rank. It may be lost.
    fn send(&mut self, target: u16, bytes: &[u8]) -> Result<(), TransportFault>
        requires { failed self.old + 1 < 2 ^ 64 }
        ensures passed { passed self.old (parcel result (Sent target bytes.now) ∷ []) self.new }
        ensures failures { FailsWith result (failed self.old) (failed self.new) };

    /// Prints a line.
    fn print(&mut self, line: &[u8]) -> Result<(), TransportFault>
        requires { failed self.old + 1 < 2 ^ 64 }
        ensures passed { passed self.old (parcel result (Printed line.now) ∷ []) self.new }
        ensures failures { FailsWith result (failed self.old) (failed self.new) };

    /// Waits until a datagram is there, or so many milliseconds are over. It may come back before.
    fn wait(&mut self, most: u64) -> Result<(), TransportFault>
        requires { failed self.old + 1 < 2 ^ 64 }
        ensures passed { passed self.old (parcel result (Waited most) ∷ []) self.new }
        ensures failures { FailsWith result (failed self.old) (failed self.new) };

    /// How long frames to this rank are to wait for their acknowledgements now, in milliseconds, where it measures
    /// that. What was sent longer before is sent again.
    fn wait_of(&self, rank: u16) -> Option<u64>
        ensures { result ≡ slice_get (waits self.now) rank };

    /// How often it has failed.
    fn failures(&self) -> u64
        ensures { result ≡ failed self.now };

    /// Where nothing was done, nothing passed.
    ghost none: { (t : Self) → passed t [] t };

    /// What passed in two steps, one after the other.
    ghost joined: { (s t u : Self) (xs ys : List Exchange) → passed s xs t → passed t ys u → passed s (xs ++ ys) u };
}
