//! A rank's transport over ports.

ghost use Rattle.std.specs.Prelude.{◌≡◌, ◌≢◌, ◌⊎◌, ◌↔◌, ◌∷◌, ◌++◌, ◌≤◌, ◌||◌, [], Some, None, true, false, is_some};
ghost use Rattle.std.specs.Prelude.{length, IfOk, IfSome, IsTrue, OnOk};
ghost use Rattle.delayed_acknowledgements.specs.Acknowledgements.{IsUrgent, short_acknowledgement};
ghost use Rattle.port_transport.specs.declared.wire.WireEvent.TheVariants.{Went, Wrote};
ghost use Rattle.port_transport.specs.Wires.{arrived};
ghost use Rattle.port_transport.specs.Ports.{GoesOrStays, IsAcknowledgement, Passes, going, port_of, received_in, with_end};
ghost use Rattle.port_transport.specs.Ports.{Begins, CountsReceive, IsDelayOfNext, KeepsBehind, KeepsNext, KeepsNone};
ghost use Rattle.port_transport.specs.Ports.{KeepsSoon, delay_of, for_one_more, unless_over};

use crate::traffic::Traffic;
use crate::wire::{Wire, WireFault};
use delayed_acknowledgements::{
    Acknowledgement, Delay, DelayedAcknowledgement, delayed_of, is_urgent, sent_before,
};
use std::alloc::{AllocError, Global};
use std::marker::Model;

/// The transport of a rank over the ports of its job.
///
/// The first wait behind a datagram that was sent or came lets other processes run and asks for the next one some
/// times, since it mostly is there soon, and comes back early where none is; each later wait sleeps until a datagram
/// comes. So a rank that nobody speaks with sleeps at once, and just as long as it is told to.
///
/// An acknowledgement is kept back for a little while. Where a later one of the same session comes, which says all that
/// it says, it is lost on purpose; so one datagram stands for up to 16 of them. The one that is kept goes when an
/// acknowledgement of another session is kept, when a line is printed, behind 128 receives, and where the rank waits
/// and no datagram comes, or a millisecond is over: far earlier than its frames are sent again, unless the rank's
/// script works for long between two calls. One that tells of frames that are held, or that answers a frame that came
/// again, goes at once.
#[derive(Drop)]
pub struct PortTransport<W: Wire> {
    wire: W,
    /// The port of rank 0; rank s has the port that is s above.
    first_port: u16,
    /// The acknowledgement that was handed over last, until it goes or a later one takes its place.
    kept: Option<DelayedAcknowledgement>,
    /// How long it has been kept back.
    delay: Delay,
    /// What the acknowledgement said that was handed over last.
    last: Option<Acknowledgement>,
    /// Whether a datagram was sent or handed out since the last wait.
    traffic: Traffic,
    /// The line that is written, with its end.
    text: Vec<u8>,
}

impl<W: Wire> Model for PortTransport<W> {
    ghost use Rattle.std.specs.Prelude.{IfSome};
    ghost use Rattle.port_transport.specs.Ports.{IsAcknowledgement, PortState};

    ghost Value = { PortState W };

    ghost view = { λ t. record {
      wire = t.wire;
      first = t.first_port;
      kept = t.kept;
      delay = t.delay;
      last = t.last;
      carried = t.traffic.has_carried;
    } };

    ghost invariant = { λ t. IfSome t.kept IsAcknowledgement };
}

/// Why a line couldn't be printed.
#[derive(Clone, Copy, Debug, PartialEq, Eq)]
pub enum PrintFault {
    /// What was kept back couldn't go.
    Wire,
    /// The line couldn't be written.
    Output,
}

/// The port of a rank.
fn port_of(first: u16, rank: u16) -> u16
    ensures { result ≡ port_of first rank }
{
    first.saturating_add(rank)
}

/// A line with its end, in place of what stood in the text.
fn put_line(text: &mut Vec<u8>, line: &[u8]) -> Result<(), AllocError>
    ensures { OnOk result (text.new.items ≡ with_end line.now) }
{
    text.clear();
    text.extend_from_slice(line)?;
    text.push(b'\n')?;
    Ok(())
}

impl<W: Wire> PortTransport<W> {
    /// A transport over this wire, of a job whose rank 0 has this port. It takes no memory.
    pub fn new(alloc: Global, wire: W, first_port: u16) -> PortTransport<W>
        ensures wire { (result.wire ≡ wire) × (result.first ≡ first_port) }
        ensures none { result.kept ≡ None }
        ensures last { result.last ≡ None }
        ensures carried { result.carried ≡ false }
    {
        let now = wire.time();
        PortTransport {
            wire,
            first_port,
            kept: None,
            delay: Delay::start(now),
            last: None,
            traffic: Traffic::none(),
            text: Vec::new(alloc),
        }
    }

    /// What carries its bytes.
    pub fn wire(&self) -> &W
        ensures { result.now ≡ self.now.wire }
    {
        &self.wire
    }

    /// A datagram goes to a rank.
    fn carry(&mut self, target: u16, bytes: &[u8]) -> Result<(), WireFault>
        ensures wire { OnOk result
            (W.did self.old.wire (Went (port_of self.old.first target) bytes.now ∷ []) self.new.wire) }
        ensures others { (self.new.first ≡ self.old.first) × (self.new.kept ≡ self.old.kept) ×
            (self.new.delay ≡ self.old.delay) × (self.new.last ≡ self.old.last) ×
            (self.new.carried ≡ self.old.carried) }
    {
        let port = port_of(self.first_port, target);
        self.wire.send(port, bytes)
    }

    /// An acknowledgement goes, if there is one.
    fn carry_kept(&mut self, kept: Option<DelayedAcknowledgement>) -> Result<(), WireFault>
        ensures wire { OnOk result (W.did self.old.wire (going self.old.first kept) self.new.wire) }
        ensures others { (self.new.first ≡ self.old.first) × (self.new.kept ≡ self.old.kept) ×
            (self.new.delay ≡ self.old.delay) × (self.new.last ≡ self.old.last) ×
            (self.new.carried ≡ self.old.carried) }
    {
        match kept {
            Some(kept) => self.carry(kept.target, &kept.bytes),
            None => Ok(()),
        }
    }

    /// The acknowledgement that is kept back, which isn't from now on.
    fn take_kept(&mut self) -> Option<DelayedAcknowledgement>
        ensures value { result ≡ self.old.kept }
        ensures none { self.new.kept ≡ None }
        ensures is { IfSome self.old.kept IsAcknowledgement }
        ensures others { (self.new.wire ≡ self.old.wire) × (self.new.first ≡ self.old.first) ×
            (self.new.delay ≡ self.old.delay) × (self.new.last ≡ self.old.last) ×
            (self.new.carried ≡ self.old.carried) }
    {
        self.kept.take()
    }

    /// The acknowledgement that is kept back goes, if there is one.
    fn flush(&mut self) -> Result<(), WireFault>
        ensures wire { OnOk result (W.did self.old.wire (going self.old.first self.old.kept) self.new.wire) }
        ensures none { self.new.kept ≡ None }
        ensures is { IfSome self.old.kept IsAcknowledgement }
        ensures others { (self.new.first ≡ self.old.first) × (self.new.delay ≡ self.old.delay) ×
            (self.new.last ≡ self.old.last) × (self.new.carried ≡ self.old.carried) }
    {
        let kept = self.take_kept();
        self.carry_kept(kept)
    }

    /// The acknowledgement that is kept back goes, if it has been kept for as many others or as many receives as it
    /// may.
    fn flush_if_over(&mut self) -> Result<(), WireFault>
        ensures wire { OnOk result (GoesOrStays W.did self.old self.new) }
        ensures is { IfSome self.old.kept IsAcknowledgement }
        ensures over { self.new.kept ≡ unless_over self.old.delay self.old.kept }
        ensures others { (self.new.first ≡ self.old.first) × (self.new.delay ≡ self.old.delay) ×
            (self.new.last ≡ self.old.last) × (self.new.carried ≡ self.old.carried) }
    {
        if !self.delay.is_over() {
            return Ok(());
        }
        self.flush()
    }

    /// Whether an acknowledgement that says this is to go at once; it is the last one from now on.
    fn is_urgent_now(&mut self, said: Acknowledgement) -> bool
        ensures exact { IsTrue result ↔ IsUrgent self.old.last said }
        ensures last { self.new.last ≡ Some said }
        ensures others { (self.new.wire ≡ self.old.wire) × (self.new.first ≡ self.old.first) ×
            (self.new.kept ≡ self.old.kept) × (self.new.delay ≡ self.old.delay) ×
            (self.new.carried ≡ self.old.carried) }
    {
        let before = self.last;
        self.last = Some(said);
        is_urgent(before, said)
    }

    /// The delay of an acknowledgement before which `former` was kept back and this one leaves: that of the former one
    /// goes on where none leaves, since the new one takes its place.
    fn delay_behind(
        &self,
        former: Option<DelayedAcknowledgement>,
        leaves: Option<DelayedAcknowledgement>,
    ) -> Delay
        ensures goes_on { IfSome former (λ _. leaves ≡ None → result ≡ for_one_more self.now.delay) }
        ensures begins { (former ≡ None) ⊎ (leaves ≢ None) → Begins (W.tells self.now.wire) result }
    {
        match (former, leaves) {
            (Some(_), None) => self.delay.with_one_more(),
            _ => Delay::start(self.wire.time()),
        }
    }

    /// An acknowledgement is kept back from now on with this delay, behind the one that leaves, if one does.
    fn put(
        &mut self,
        leaves: Option<DelayedAcknowledgement>,
        next: DelayedAcknowledgement,
        delay: Delay,
    ) -> Result<(), WireFault>
        requires { IsAcknowledgement next }
        ensures wire { OnOk result (W.did self.old.wire (going self.old.first leaves) self.new.wire) }
        ensures kept { (self.new.kept ≡ Some next) × (self.new.delay ≡ delay) }
        ensures others { (self.new.first ≡ self.old.first) × (self.new.last ≡ self.old.last) ×
            (self.new.carried ≡ self.old.carried) }
    {
        self.kept = Some(next);
        self.delay = delay;
        self.carry_kept(leaves)
    }

    /// Keeps an acknowledgement back in place of the former one, which goes unless this one says all that it says.
    fn keep_back(&mut self, next: DelayedAcknowledgement) -> Result<(), WireFault>
        requires { IsAcknowledgement next }
        ensures passes { OnOk result (Passes W.did self.old ((next.target, next.bytes) ∷ []) [] [] self.new) }
        ensures kept { self.new.kept ≡ Some next }
        ensures delay { IsDelayOfNext (W.tells self.old.wire) self.old.kept self.old.delay next.said self.new.delay }
        ensures others { (self.new.last ≡ self.old.last) × (self.new.carried ≡ self.old.carried) }
    {
        let former = self.take_kept();
        let leaves = sent_before(former, next);
        let delay = self.delay_behind(former, leaves);
        self.put(leaves, next, delay)
    }

    /// Keeps an acknowledgement back for a while, or lets it go at once. The former one goes before it, unless this one
    /// says all that it says; then the delay of the former one is its own.
    fn keep(&mut self, next: DelayedAcknowledgement) -> Result<(), WireFault>
        requires { IsAcknowledgement next }
        ensures passes { OnOk result (Passes W.did self.old ((next.target, next.bytes) ∷ []) [] [] self.new) }
        ensures keeps { OnOk result (KeepsNext W.tells self.old next self.new) }
        ensures carried { OnOk result (self.new.carried ≡ self.old.carried) }
    {
        let is_urgent = self.is_urgent_now(next.said);
        self.keep_back(next)?;
        if is_urgent {
            return self.flush();
        }
        self.flush_if_over()
    }

    /// A datagram was sent or handed out.
    fn note_carried(&mut self)
        ensures carried { self.new.carried ≡ true }
        ensures others { (self.new.wire ≡ self.old.wire) × (self.new.first ≡ self.old.first) ×
            (self.new.kept ≡ self.old.kept) × (self.new.delay ≡ self.old.delay) × (self.new.last ≡ self.old.last) }
    {
        self.traffic.note(true);
    }

    /// Hands a datagram over for a rank. It goes at once, but for an acknowledgement, which may be kept back. Where the
    /// wire fails, it may be lost, and what was kept back too.
    pub fn send(&mut self, target: u16, bytes: &[u8]) -> Result<(), WireFault>
        ensures passes { OnOk result (Passes W.did self.old ((target, bytes.now) ∷ []) [] [] self.new) }
        ensures keeps { OnOk result
            (KeepsBehind W.tells self.old target bytes.now (short_acknowledgement bytes.now) self.new) }
        ensures carried { OnOk result (self.new.carried ≡ true) }
    {
        self.note_carried();
        match delayed_of(target, bytes) {
            Some(next) => self.keep(next),
            None => self.carry(target, bytes),
        }
    }

    /// A receive begins, behind which the acknowledgement that is kept back may go.
    fn begin_receive(&mut self) -> Result<(), WireFault>
        ensures wire { OnOk result (GoesOrStays W.did self.old self.new) }
        ensures is { IfSome self.old.kept IsAcknowledgement }
        ensures counts { CountsReceive self.old self.new }
        ensures carried { self.new.carried ≡ self.old.carried }
    {
        if self.kept.is_none() {
            return Ok(());
        }
        self.delay = self.delay.behind_receive();
        self.flush_if_over()
    }

    /// Puts what the wire gives into the buffer.
    fn take_in(&mut self, buffer: &mut [u8]) -> Result<Option<usize>, WireFault>
        ensures within { IfOk result (λ found. IfSome found (λ n. n ≤ length buffer.new)) }
        ensures wire { IfOk result (λ found. W.did self.old.wire (arrived found buffer.new) self.new.wire) }
        ensures others { (self.new.first ≡ self.old.first) × (self.new.kept ≡ self.old.kept) ×
            (self.new.delay ≡ self.old.delay) × (self.new.last ≡ self.old.last) }
        ensures carried { IfOk result (λ found. self.new.carried ≡ (self.old.carried || is_some found)) }
    {
        let found = self.wire.receive(buffer)?;
        self.traffic.note(found.is_some());
        Ok(found)
    }

    /// Puts the datagram that came next into the buffer, and answers how many bytes it has there; none where none is
    /// there now.
    pub fn receive(&mut self, buffer: &mut [u8]) -> Result<Option<usize>, WireFault>
        ensures within { IfOk result (λ found. IfSome found (λ n. n ≤ length buffer.new)) }
        ensures passes { IfOk result (λ found. Passes W.did self.old [] (received_in found buffer.new) [] self.new) }
        ensures counts { OnOk result (CountsReceive self.old self.new) }
        ensures carried { IfOk result (λ found. self.new.carried ≡ (self.old.carried || is_some found)) }
    {
        self.begin_receive()?;
        let found = self.take_in(buffer)?;
        Ok(found)
    }

    /// Writes a line and its end.
    fn write_line(&mut self, line: &[u8]) -> Result<(), PrintFault>
        ensures wire { OnOk result (W.did self.old.wire (Wrote (with_end line.now) ∷ []) self.new.wire) }
        ensures others { (self.new.first ≡ self.old.first) × (self.new.kept ≡ self.old.kept) ×
            (self.new.delay ≡ self.old.delay) × (self.new.last ≡ self.old.last) ×
            (self.new.carried ≡ self.old.carried) }
    {
        if put_line(&mut self.text, line).is_err() {
            return Err(PrintFault::Output);
        }
        match self.wire.write(self.text.as_slice()) {
            Ok(()) => Ok(()),
            Err(_) => Err(PrintFault::Output),
        }
    }

    /// Prints a line, which is written with its end. What is kept back goes before.
    pub fn print(&mut self, line: &[u8]) -> Result<(), PrintFault>
        ensures passes { OnOk result (Passes W.did self.old [] [] (line.now ∷ []) self.new) }
        ensures keeps { OnOk result (KeepsNone self.old self.new) }
        ensures carried { OnOk result (self.new.carried ≡ self.old.carried) }
    {
        match self.flush() {
            Ok(()) => self.write_line(line),
            Err(_) => Err(PrintFault::Wire),
        }
    }

    /// The delay of what is kept back, if something is.
    fn delay_of_kept(&self) -> Option<Delay>
        ensures { result ≡ delay_of self.now.kept self.now.delay }
    {
        match self.kept {
            Some(_) => Some(self.delay),
            None => None,
        }
    }

    /// Whether a datagram is there soon, where one was sent or came since the last wait.
    fn comes_soon(&mut self) -> bool
        ensures wire { W.did self.old.wire [] self.new.wire }
        ensures answers { W.answers self.old.wire (delay_of self.old.kept self.old.delay) result self.new.wire }
        ensures others { (self.new.first ≡ self.old.first) × (self.new.kept ≡ self.old.kept) ×
            (self.new.delay ≡ self.old.delay) × (self.new.last ≡ self.old.last) ×
            (self.new.carried ≡ self.old.carried) }
    {
        let delay = self.delay_of_kept();
        self.wire.comes_soon(delay)
    }

    /// Whether a datagram was sent or handed out since this was asked last.
    fn has_carried(&mut self) -> bool
        ensures told { result ≡ self.old.carried }
        ensures anew { self.new.carried ≡ false }
        ensures others { (self.new.wire ≡ self.old.wire) × (self.new.first ≡ self.old.first) ×
            (self.new.kept ≡ self.old.kept) × (self.new.delay ≡ self.old.delay) × (self.new.last ≡ self.old.last) }
    {
        self.traffic.take()
    }

    /// The wire waits.
    fn sleep(&mut self, most: u64) -> Result<(), WireFault>
        ensures wire { OnOk result (W.did self.old.wire [] self.new.wire) }
        ensures others { (self.new.first ≡ self.old.first) × (self.new.kept ≡ self.old.kept) ×
            (self.new.delay ≡ self.old.delay) × (self.new.last ≡ self.old.last) ×
            (self.new.carried ≡ self.old.carried) }
    {
        self.wire.wait(most)
    }

    /// Lets what is kept back go, and then waits.
    fn flush_and_sleep(&mut self, most: u64) -> Result<(), WireFault>
        ensures passes { OnOk result (Passes W.did self.old [] [] [] self.new) }
        ensures keeps { KeepsNone self.old self.new }
        ensures carried { self.new.carried ≡ self.old.carried }
    {
        self.flush()?;
        self.sleep(most)
    }

    /// Waits until a datagram is there, or so many milliseconds are over. It may come back before. What is kept back
    /// goes where none comes.
    pub fn wait(&mut self, most: u64) -> Result<(), WireFault>
        ensures passes { OnOk result (Passes W.did self.old [] [] [] self.new) }
        ensures keeps { OnOk result (KeepsSoon W.answers self.old self.new ⊎ KeepsNone self.old self.new) }
        ensures sleeps { self.old.carried ≡ false → OnOk result (KeepsNone self.old self.new) }
        ensures carried { OnOk result (self.new.carried ≡ false) }
    {
        if !self.has_carried() {
            return self.flush_and_sleep(most);
        }
        if self.comes_soon() {
            return Ok(());
        }
        self.flush()
    }

    /// Sends what is kept back: nothing is then.
    pub fn finish(&mut self) -> Result<(), WireFault>
        ensures none { self.new.kept ≡ None }
        ensures passes { OnOk result (Passes W.did self.old [] [] [] self.new) }
        ensures keeps { KeepsNone self.old self.new }
        ensures carried { self.new.carried ≡ self.old.carried }
    {
        self.flush()
    }
}
