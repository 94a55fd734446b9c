//! What a rank sends: the datagrams that its engine emitted, of which an acknowledgement may be kept back.

ghost use Rattle.std.specs.Prelude.{◌≡◌, ◌≤◌, ◌<◌, ◌⊎◌, ◌↔◌, ◌∷◌, ◌-◌, ◌/◌, ◌^◌, [], None, Some, IfSome, IsTrue, List};
ghost use Rattle.std.specs.Prelude.{drop, false, true, length, max, min, nat_lt, slice_get};
ghost use Rattle.delayed_acknowledgements.specs.Acknowledgements.{Covers, IsUrgent};
ghost use Rattle.port_transport.specs.Ports.{IsAcknowledgement, is_short};
ghost use Rattle.port_transport.specs.Wires.{Parcel};
ghost use Rattle.outgoing_datagrams.specs.HandedDatagrams.{HandsOn, HandsOut, HandsOutKept, KeepsFrom, SendingState, kept_in, late_at, since_behind, stands_behind};
ghost use Rattle.outgoing_datagrams.specs.Runs.{IsRun, Stands};

use crate::record::OutgoingRecord;
use crate::run::{Run, put_behind, put_run};
use datagram::{ACK_BYTES, Bytes};
use delayed_acknowledgements::{
    Acknowledgement, Delay, DelayedAcknowledgement, covers, delayed_of, is_urgent,
};
use std::alloc::Global;
use std::marker::Model;
use std::mem::replace;

/// For so many nanoseconds an acknowledgement is kept back at most: a millisecond, a twentieth of the time after which a
/// frame is sent again.
const LATE: u64 = 1_000_000;

/// What is to be sent.
///
/// A short acknowledgement is kept back for a millisecond, and lost on purpose where a later one of the same session
/// comes, which says all that it says; so one datagram stands for up to 16 of them. It goes where another one is kept
/// in its place that doesn't say all that it says. One that tells of frames that are held, or that says no more than the
/// one before it, goes at once.
#[derive(Drop)]
pub struct Sending {
    /// What the engine handed out.
    out: Vec<(u16, Bytes)>,
    /// The place in it of what goes next.
    next: usize,
    /// The acknowledgement that is kept back.
    kept: Option<DelayedAcknowledgement>,
    /// For how many others it stands.
    delay: Delay,
    /// When it was kept, in nanoseconds.
    since: u64,
    /// What the acknowledgement said that came last.
    last: Option<Acknowledgement>,
    /// The time, in nanoseconds.
    time: u64,
}

impl Model for Sending {
    ghost use Rattle.std.specs.Prelude.{◌≤◌, IfSome, drop, length};
    ghost use Rattle.port_transport.specs.Ports.{IsAcknowledgement};
    ghost use Rattle.outgoing_datagrams.specs.HandedDatagrams.{SendingState};

    ghost Value = { SendingState };

    ghost view = { λ s. record {
      waiting = drop s.next s.out.items;
      kept = s.kept;
      delay = s.delay;
      since = s.since;
      last = s.last;
      time = s.time;
    } };

    ghost invariant = { λ s. IfSome s.kept IsAcknowledgement × (s.next ≤ length s.out.items) };
}

/// Puts an acknowledgement into the slice, and answers its length.
fn put_acknowledgement(
    going: DelayedAcknowledgement,
    outgoing: &mut OutgoingRecord,
    into: &mut [u8],
) -> usize
    requires { 40 ≤ length into.old }
    ensures stands { Stands ((going.target, going.bytes) ∷ []) outgoing.new result into.old into.new }
    ensures room { length into.new ≡ length into.old }
{
    let Some(end) = put_behind(into, 0, &going.bytes) else {
        return 0;
    };
    outgoing.target = going.target;
    outgoing.each = ACK_BYTES as u32;
    outgoing.count = 1;
    end
}

/// The acknowledgement that stands at a place, where a short one does.
fn acknowledgement_at(list: &[(u16, Bytes)], place: usize) -> Option<DelayedAcknowledgement>
    ensures next { IfSome result (λ k. IsAcknowledgement k × (slice_get list.now place ≡ Some (k.target, k.bytes))) }
    ensures none { result ≡ None → (p : Parcel) → slice_get list.now place ≡ Some p → is_short p ≡ false }
{
    if place >= list.len() {
        return None;
    }
    let datagram = &list[place];
    delayed_of(datagram.0, datagram.1.as_slice())
}

/// Tells of a run.
fn tell_of(run: Run, outgoing: &mut OutgoingRecord)
    requires { run.count < 2 ^ 32 }
    ensures count { (outgoing.new.count ≡ run.count) × (outgoing.new.target ≡ run.target) }
    ensures each { outgoing.new.each ≡ min run.each (2 ^ 32 - 1) }
{
    outgoing.target = run.target;
    outgoing.each = run.each.min(u32::MAX as usize) as u32;
    outgoing.count = run.count as u32;
}

impl Sending {
    /// Nothing is to be sent, and the time is 0.
    pub fn new(alloc: Global) -> Sending
        ensures { (result.waiting ≡ []) × (result.kept ≡ None) }
    {
        Sending {
            out: Vec::new(alloc),
            next: 0,
            kept: None,
            delay: Delay::start(None),
            since: 0,
            last: None,
            time: 0,
        }
    }

    /// Whether all was handed out that the engine emitted.
    #[tactic(auto, using(crate::proofs::HandedSteps::through))]
    pub fn is_through(&self) -> bool
        ensures { IsTrue result ↔ (self.now.waiting ≡ []) }
    {
        self.next >= self.out.len()
    }

    /// What the engine emitted since waits from now on, in place of what waited; that list is answered.
    pub fn refill(&mut self, emitted: Vec<(u16, Bytes)>) -> Vec<(u16, Bytes)>
        ensures { self.new ≡ record self.old { waiting = emitted.items } }
    {
        self.next = 0;
        replace(&mut self.out, emitted)
    }

    /// The clock says the time, in nanoseconds.
    pub fn tick(&mut self, now: u64)
        ensures { self.new ≡ record self.old { time = now } }
    {
        self.time = now;
    }

    /// The time, in whole microseconds.
    pub fn micros(&self) -> u64
        ensures { result ≡ self.now.time / 1000 }
    {
        self.time / 1000
    }

    /// When the acknowledgement is late that is kept back; 0 where none is.
    pub fn kept_until(&self) -> u64
        ensures { result ≡ late_at self.now.kept self.now.since }
    {
        match self.kept {
            Some(_) => self.since.saturating_add(LATE),
            None => 0,
        }
    }

    /// Keeps an acknowledgement back, in the place of another one if there is one.
    fn keep(&mut self, next: DelayedAcknowledgement)
        requires { IsAcknowledgement next }
        ensures kept { (self.new.kept ≡ Some next) × (self.new.waiting ≡ self.old.waiting) × (self.new.time ≡ self.old.time) }
        ensures last { self.new.last ≡ self.old.last }
        ensures since { self.new.since ≡ since_behind self.old.kept self.old.since self.old.time }
        ensures many { self.new.delay.stands_for ≡ stands_behind self.old.kept self.old.delay.stands_for }
    {
        if self.kept.is_some() {
            self.delay = self.delay.with_one_more();
        } else {
            self.delay = Delay::start(None);
            self.since = self.time;
        }
        self.kept = Some(next);
    }

    /// Takes out what is kept back.
    fn take_kept(&mut self) -> Option<DelayedAcknowledgement>
        ensures value { result ≡ self.old.kept }
        ensures is { IfSome result IsAcknowledgement }
        ensures rest { self.new ≡ record self.old { kept = None } }
    {
        self.kept.take()
    }

    /// The one that is kept back goes before the next one, unless that says all that it says.
    fn give_way(&mut self, next: DelayedAcknowledgement) -> Option<DelayedAcknowledgement>
        ensures goes { IfSome result (λ k. (self.old.kept ≡ Some k) × IsAcknowledgement k ×
            (self.new ≡ record self.old { kept = None })) }
        ensures stays { result ≡ None → (self.new ≡ self.old) × IfSome self.old.kept (λ k. IsAcknowledgement k ×
            Covers next.said k.said) }
    {
        // A look is cheaper than a move.
        match &self.kept {
            Some(former) if !covers(next.said, former.said) => self.kept.take(),
            _ => None,
        }
    }

    /// Passes what is next.
    #[tactic(auto, using(crate::proofs::HandedSteps::behind_next, crate::proofs::HandedSteps::behind_end))]
    fn step(&mut self)
        ensures { self.new ≡ record self.old { waiting = drop 1 self.old.waiting } }
    {
        if self.next < self.out.len() {
            self.next += 1;
        }
    }

    /// Takes the acknowledgement that is next in place of what is kept back; answers it where it goes at once.
    fn pass_next(&mut self, next: DelayedAcknowledgement) -> Option<DelayedAcknowledgement>
        requires is { IsAcknowledgement next }
        ensures waiting { self.new.waiting ≡ drop 1 self.old.waiting }
        ensures kept { ((result ≡ None) × (self.new.kept ≡ Some next)) ⊎ ((result ≡ Some next) × (self.new.kept ≡ None)) }
        ensures time { self.new.time ≡ self.old.time }
        ensures urgent { IsUrgent self.old.last next.said → result ≡ Some next }
        ensures over { 16 ≤ stands_behind self.old.kept self.old.delay.stands_for → result ≡ Some next }
        ensures last { self.new.last ≡ Some next.said }
        ensures since { self.new.since ≡ since_behind self.old.kept self.old.since self.old.time }
        ensures many { self.new.delay.stands_for ≡ stands_behind self.old.kept self.old.delay.stands_for }
    {
        let is_urgent = is_urgent(self.last, next.said);
        self.last = Some(next.said);
        self.step();
        self.keep(next);
        if is_urgent || self.delay.is_over() {
            return self.take_kept();
        }
        None
    }

    /// Passes the acknowledgement that is next, and answers which one goes now. Where that is another one, which was
    /// kept back and goes before it, this one stays next.
    #[tactic(auto, using(crate::proofs::HandedSteps::passed, crate::proofs::HandedSteps::hands_former, crate::proofs::KeptSteps::keeps_gone, crate::proofs::KeptSteps::keeps_passed))]
    fn pass(&mut self, next: DelayedAcknowledgement) -> Option<DelayedAcknowledgement>
        requires is { IsAcknowledgement next }
        requires next { (rest : List Parcel) × (self.old.waiting ≡ (next.target, next.bytes) ∷ rest) }
        ensures hands { HandsOn self.old.kept self.old.waiting (kept_in result) self.new.kept self.new.waiting }
        ensures passed { result ≡ None → self.new.waiting ≡ drop 1 self.old.waiting }
        ensures time { self.new.time ≡ self.old.time }
        ensures keeps { KeepsFrom self.old self.old.waiting self.new self.new.waiting }
    {
        match self.give_way(next) {
            Some(former) => Some(former),
            None => self.pass_next(next),
        }
    }

    /// The acknowledgement that is next, where a short one is.
    #[tactic(auto, using(crate::proofs::HandedSteps::next_of))]
    fn next_acknowledgement(&self) -> Option<DelayedAcknowledgement>
        ensures next { IfSome result (λ k. IsAcknowledgement k ×
            ((rest : List Parcel) × (self.now.waiting ≡ (k.target, k.bytes) ∷ rest))) }
        ensures none { result ≡ None → (p : Parcel) → (rest : List Parcel) → self.now.waiting ≡ p ∷ rest →
            is_short p ≡ false }
    {
        acknowledgement_at(&self.out, self.next)
    }

    /// The acknowledgement that goes before anything else does, behind all that are kept back in front of it.
    fn pass_all(&mut self) -> Option<DelayedAcknowledgement>
        ensures hands { HandsOn self.old.kept self.old.waiting (kept_in result) self.new.kept self.new.waiting }
        ensures none { result ≡ None → (p : Parcel) → (rest : List Parcel) → self.new.waiting ≡ p ∷ rest →
            is_short p ≡ false }
        ensures time { self.new.time ≡ self.old.time }
        ensures keeps { KeepsFrom self.old self.old.waiting self.new self.new.waiting }
        ensures stays { self.old.waiting ≡ [] → (result ≡ None) × (self.new ≡ self.old) }
    {
        for _ in self.next..self.out.len() {
            let next = self.next_acknowledgement()?;
            if let Some(going) = self.pass(next) {
                return Some(going);
            }
        }
        None
    }

    /// Hands out the run of datagrams that go next.
    fn put_next(&mut self, most: u32, into: &mut [u8]) -> Run
        ensures run { IsRun (max most 1) self.old.waiting result into.old into.new }
        ensures rest { self.new ≡ record self.old { waiting = drop result.count self.old.waiting } }
    {
        let run = put_run(most.max(1) as usize, &self.out[self.next..], into);
        self.next += run.count;
        run
    }

    /// Hands out what goes next, of what the engine handed out: an acknowledgement, or at most `most` other datagrams and
    /// one in any case, if one waits that fits. Answers how many bytes it put.
    #[tactic(auto, using(crate::proofs::HandedSteps::out_one, crate::proofs::HandedSteps::out_run))]
    pub fn hand_out(&mut self, most: u32, outgoing: &mut OutgoingRecord, into: &mut [u8]) -> usize
        requires { 40 ≤ length into.old }
        ensures went { HandsOut self.old most result outgoing.new into.old into.new self.new }
        ensures stays { self.old.waiting ≡ [] → (outgoing.new.count ≡ 0) × (self.new ≡ self.old) }
    {
        if let Some(going) = self.pass_all() {
            return put_acknowledgement(going, outgoing, into);
        }
        let run = self.put_next(most, into);
        tell_of(run, outgoing);
        run.len
    }

    /// Hands out the acknowledgement that is kept back, if it is late, or all are to go.
    #[tactic(auto, using(crate::proofs::HandedSteps::kept_stays, crate::proofs::HandedSteps::kept_none, crate::proofs::KeptSteps::keeps_gone))]
    pub fn hand_out_kept(
        &mut self,
        kept_too: bool,
        outgoing: &mut OutgoingRecord,
        into: &mut [u8],
    ) -> usize
        requires { 40 ≤ length into.old }
        ensures went { HandsOutKept self.old kept_too result outgoing.new into.old into.new self.new }
        ensures stays { kept_too ≡ false → nat_lt self.old.time (late_at self.old.kept self.old.since) ≡ true →
            (outgoing.new.count ≡ 0) × (self.new ≡ self.old) }
    {
        outgoing.count = 0;
        outgoing.each = 0;
        if !kept_too && self.time < self.kept_until() {
            return 0;
        }
        if self.kept.is_none() {
            return 0;
        }
        match self.take_kept() {
            Some(going) => put_acknowledgement(going, outgoing, into),
            None => 0,
        }
    }
}
