//! The sending end once a frame came.

ghost use Rattle.std.specs.Prelude.{◌≡◌, ℕ, ◌<◌, ◌≤◌, ◌+◌, ◌^◌, ◌↔◌, ◌⊎◌, [], length, false, if◌then◌else◌, IfOk};
ghost use Rattle.std.specs.Prelude.{IsOk, OnOk, OnErr, IfErr, IsTrue, IsErrOf, IsOkUnless};
ghost use Rattle.std.specs.Option.{option_copied};
ghost use Rattle.reliable_link.specs.SenderState.{SenderState, next_number, out_count, out_end, after_accept};
ghost use Rattle.reliable_link.specs.SenderState.{entered_on_accept, passed_to, with_marks, after_ack, IsOfSent};
ghost use Rattle.reliable_link.specs.SenderState.{IsSomeDue, due_at, after_due, frame_at, after_take_back, StandsAt};
ghost use Rattle.reliable_link.specs.SenderState.{after_wait};
ghost use Rattle.reliable_link.specs.Acceptance.{AcceptGives};
ghost use Rattle.std.proofs.Common.{min};

use crate::out_frame::OutFrame;
use crate::out_frames::{OutFrames, drop_front};
use crate::refusal::{LinkRefusal, NotKept};
use crate::window::WINDOW;
use alike::Alike;
use datagram::Bytes;
use std::alloc::Global;
use std::marker::Model;
use std::ops::Range;

/// The sending end of a session that has begun. Contracts see it as a `SenderState`. What its methods say is what those
/// of `Sender` do.
#[derive(Drop)]
pub(crate) struct OpenSender {
    /// The frames from number `lowest` on.
    frames: OutFrames,
    /// The lowest unacknowledged number.
    lowest: u64,
    /// The time of the last tick, in milliseconds.
    clock: u64,
    /// How long a frame waits for its acknowledgement before it is sent again, in milliseconds.
    wait: u64,
    /// Where this is true, no frame is due at the time of the last tick, nor is one that is sent then.
    settled: bool,
}

impl Model for OpenSender {
    ghost use Rattle.reliable_link.specs.SenderState.{SenderState, IsKept};

    ghost Value = { SenderState };

    ghost view = { λ s. record {
      lowest = s.lowest;
      frames = s.frames;
      clock = s.clock;
      wait = s.wait;
    } };

    ghost invariant = { λ s. IsKept s.lowest s.frames s.clock s.settled s.wait };
}

/// How many of so many frames are out.
fn out_of(kept: usize) -> usize
    ensures exact { result ≡ min 64 kept }
    ensures within { result ≤ kept }
{
    if kept < WINDOW { kept } else { WINDOW }
}

/// Whether no frame is due at the time of the last tick, where the first one may lose its mark (it was sent at any time)
/// or frames may be to wait less long than until now.
fn still_settled(settled: bool, loses: bool) -> bool
    ensures { result ≡ (if loses then false else settled) }
{
    settled && !loses
}

impl OpenSender {
    /// No frame came yet, this is the time of the last tick, and frames will wait so long. It takes no memory.
    pub(crate) fn new(alloc: Global, clock: u64, wait: u64) -> Self
        ensures { result ≡ record { lowest = 0; frames = []; clock = clock; wait = wait } }
    {
        OpenSender {
            frames: OutFrames::new(alloc),
            lowest: 0,
            clock,
            wait,
            settled: wait > 0,
        }
    }

    /// Takes a frame over as the next one, and answers its number if it comes into the window at
    /// once. The places of the window are made with the first frame. It is refused, and handed back, with `Limit`
    /// exactly where the next number is the last one, and with `OutOfMemory`.
    pub(crate) fn accept(&mut self, bytes: Bytes) -> Result<Option<u64>, NotKept<Bytes>>
        ensures exact { AcceptGives self.old bytes result self.new }
        ensures state { OnOk result (self.new ≡ after_accept self.old bytes) }
        ensures entered { IfOk result (λ entered. entered ≡ entered_on_accept self.old) }
        ensures unchanged { OnErr result (self.new ≡ self.old) }
        ensures back { IfErr result (λ e. e.value ≡ bytes) }
    {
        let kept = self.frames.len();
        if self.lowest >= u64::MAX - kept as u64 {
            return Err(NotKept {
                refused: LinkRefusal::Limit,
                value: bytes,
            });
        }
        let frame = OutFrame {
            bytes,
            sent: self.clock,
            held: false,
        };
        match self.frames.push(frame) {
            Ok(()) if kept < WINDOW => Ok(Some(self.lowest + kept as u64)),
            Ok(()) => Ok(None),
            Err(frame) => Err(NotKept {
                refused: LinkRefusal::OutOfMemory,
                value: frame.bytes,
            }),
        }
    }

    /// The frames below `n` are acknowledged; those that come into the window by that count as sent now.
    fn pass(&mut self, n: u64)
        requires { n ≤ out_end self.old }
        ensures { self.new ≡ passed_to self.old n }
    {
        if n <= self.lowest {
            return;
        }
        let start = self.lowest + out_of(self.frames.len()) as u64;
        drop_front(&mut self.frames, (n - self.lowest) as usize);
        let out = out_of(self.frames.len());
        self.frames
            .mark_between((start - n) as usize, out, self.clock);
        self.lowest = n;
    }

    /// The receiver waits for the lowest number, and holds the frames behind it that the bits of `held_bits` stand for.
    fn mark(&mut self, held: u64)
        requires { held < 2 ^ out_count self.old }
        ensures { self.new ≡ with_marks held self.old }
    {
        let settled = still_settled(self.settled, self.frames.first_is_held());
        self.frames.note(held);
        self.settled = settled;
    }

    /// Takes an acknowledgement of all frames below `n`, which says of those behind it which the
    /// receiver holds: bit i of `held_bits` stands for frame n + i. It answers the numbers that come into
    /// the window, which count as sent now. Frame n isn't held, whatever was said before; other
    /// frames that were said to be held stay so. One that was passed by another changes nothing.
    ///
    /// It is refused with `OutOfWindow` exactly where `n` is above the number of frames that ever
    /// came into the window, or a frame is said to be held that didn't. It takes no memory.
    pub(crate) fn on_ack(&mut self, n: u64, held: u64) -> Result<Range<u64>, LinkRefusal>
        ensures accepted { IsOk result ↔ IsOfSent self.old n held }
        ensures only { IsOkUnless result LinkRefusal.OutOfWindow }
        ensures state { OnOk result (self.new ≡ after_ack self.old n held) }
        ensures entered { IfOk result (λ entered.
            (entered.start ≡ out_end self.old) × (entered.end ≡ out_end (passed_to self.old n))) }
        ensures unchanged { OnErr result (self.new ≡ self.old) }
    {
        if !self.allows(n, held) {
            return Err(LinkRefusal::OutOfWindow);
        }
        let entered = self.entering(n);
        if n >= self.lowest {
            self.pass(n);
            self.mark(held);
        }
        Ok(entered)
    }

    /// The numbers that an acknowledgement of all frames below `n` would bring into the window.
    pub(crate) fn entering(&self, n: u64) -> Range<u64>
        requires { n ≤ out_end self.now }
        ensures start { result.start ≡ out_end self.now }
        ensures end { result.end ≡ out_end (passed_to self.now n) }
    {
        let kept = self.frames.len();
        let start = self.lowest + out_of(kept) as u64;
        if n <= self.lowest {
            return start..start;
        }
        start..n + out_of(kept - (n - self.lowest) as usize) as u64
    }

    /// Whether an acknowledgement of all frames below `n` may come, which says that frames behind it are held: all
    /// that it speaks of came into the window.
    pub(crate) fn allows(&self, n: u64, held: u64) -> bool
        ensures { IsTrue result ↔ IsOfSent self.now n held }
    {
        let end = self.lowest + out_of(self.frames.len()) as u64;
        if n > end {
            return false;
        }
        let sent = end - n;
        sent >= 64 || held >> sent == 0
    }

    /// The bytes of frame `n`, where it is kept.
    pub(crate) fn frame(&self, n: u64) -> Option<&Bytes>
        ensures { option_copied result ≡ frame_at self.now n }
    {
        if n < self.lowest {
            return None;
        }
        let frame = self.frames.get((n - self.lowest) as usize)?;
        Some(&frame.bytes)
    }

    /// The numbers of the frames that are out, aren't held, and were last sent as long before
    /// now as they are to wait, or longer, in order. It is refused with `ClockBack` exactly where `now` is below the last tick, and with
    /// `OutOfMemory`. It changes nothing: `mark_sent` does.
    pub(crate) fn due(&self, now: u64) -> Result<Vec<u64>, LinkRefusal>
        ensures clock { IsErrOf result LinkRefusal.ClockBack ↔ (now < self.now.clock) }
        ensures only { IfErr result (λ e. (e ≡ LinkRefusal.ClockBack) ⊎ (e ≡ LinkRefusal.OutOfMemory)) }
        ensures due { IfOk result (λ numbers. numbers.items ≡ due_at self.now now) }
        ensures memory { IsErrOf result LinkRefusal.OutOfMemory → IsSomeDue self.now now }
    {
        if now < self.clock {
            return Err(LinkRefusal::ClockBack);
        }
        if now == self.clock && self.settled {
            return Ok(Vec::new(self.frames.allocator()));
        }
        self.frames.numbers_due(self.lowest, self.wait, now)
    }

    /// The frames that are out and due count as sent now, and this is the time of the last tick.
    pub(crate) fn mark_sent(&mut self, now: u64)
        requires { self.old.clock ≤ now }
        ensures { self.new ≡ after_due self.old now }
    {
        if now == self.clock && self.settled {
            return;
        }
        self.frames.mark_due(self.wait, now);
        self.clock = now;
        self.settled = self.wait > 0;
    }

    /// Whether the last tick was at this time, and no frame has become due since. Then one more tick at this time
    /// changes nothing.
    pub(crate) fn stands_at(&self, now: u64) -> bool
        ensures { IsTrue result → StandsAt self.now now }
    {
        now == self.clock && self.settled
    }

    /// How long a frame waits for its acknowledgement before it is sent again, in milliseconds.
    pub(crate) fn wait(&self) -> u64
        ensures { result ≡ self.now.wait }
    {
        self.wait
    }

    /// Frames wait so long from now on, in milliseconds, also those that are out.
    pub(crate) fn set_wait(&mut self, wait: u64)
        ensures { self.new ≡ after_wait self.old wait }
    {
        self.settled = still_settled(self.settled, wait < self.wait);
        self.wait = wait;
    }

    /// Whether every frame was acknowledged.
    pub(crate) fn is_empty(&self) -> bool
        ensures { IsTrue result ↔ (self.now.frames ≡ []) }
    {
        self.frames.len() == 0
    }

    /// How many frames an acknowledgement of all frames below `n` would leave, whichever behind it are held.
    pub(crate) fn kept_after(&self, n: u64) -> usize
        requires { n ≤ out_end self.now }
        ensures exact { result ≡ length (passed_to self.now n).frames }
        ensures marked { (held : ℕ) → result ≡ length (after_ack self.now n held).frames }
    {
        let kept = self.frames.len();
        if n <= self.lowest {
            return kept;
        }
        kept - (n - self.lowest) as usize
    }

    /// How many frames are kept.
    pub(crate) fn kept(&self) -> usize
        ensures { result ≡ length self.now.frames }
    {
        self.frames.len()
    }

    /// The number that the next frame gets.
    pub(crate) fn next_number(&self) -> u64
        ensures exact { result ≡ next_number self.now }
        ensures fits { result < 2 ^ 64 }
    {
        self.lowest + self.frames.len() as u64
    }

    /// The time of the last tick, in milliseconds.
    pub(crate) fn clock(&self) -> u64
        ensures { result ≡ self.now.clock }
    {
        self.clock
    }

    /// Takes the frame back that was accepted last, which drops it; the next one gets its number. It takes no memory.
    pub(crate) fn take_back(&mut self)
        ensures { self.new ≡ after_take_back self.old }
    {
        self.frames.pop_back();
    }

    /// Begins a new session at this time, where frames wait so long: no frame is kept, and the next one gets number 0.
    /// The places stay. It takes no memory.
    pub(crate) fn restart(&mut self, clock: u64, wait: u64)
        ensures { self.new ≡ record { lowest = 0; frames = []; clock = clock; wait = wait } }
    {
        self.frames.clear();
        self.lowest = 0;
        self.clock = clock;
        self.wait = wait;
        self.settled = wait > 0;
    }
}

impl Alike for OpenSender {
    fn stands_as(&self, other: &Self) -> bool {
        self.lowest == other.lowest
            && self.clock == other.clock
            && self.wait == other.wait
            && self.frames.stands_as(&other.frames)
    }
}
