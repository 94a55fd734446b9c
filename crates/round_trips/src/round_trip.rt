//! What is known of the round trips to one rank.

ghost use Rattle.round_trips.specs.Estimates.{no_time};
ghost use Rattle.std.specs.Prelude.{◌≡◌, ◌≤◌, Some, true};
ghost use Rattle.round_trips.specs.Trips.{after_acknowledgement, after_first, after_frame, after_number, after_repeat};
ghost use Rattle.round_trips.specs.Trips.{begun, behind, gap_by, gap_with, hasty, held_end, is_repeat, is_troubled};
ghost use Rattle.round_trips.specs.Trips.{lets_go, measured};
ghost use Rattle.round_trips.specs.Trips.{moved_on, repeated, tells_of, timed_from, timed_without, wait_now, with_awaited};
ghost use Rattle.round_trips.specs.Trips.{answered, is_doubtful, timed_again, timed_behind, with_estimate};
ghost use Rattle.round_trips.specs.Trips.{with_incarnation, with_sample, with_seen};

use crate::estimate::{Estimate, LEAST_WAIT, backed_off, millis, wait_by};

/// An answer that comes less than so many microseconds behind a repeat may be that of the repeat.
const SOON: u64 = 10_000;

/// So may one that comes sooner behind it than such a part of the time since the frame went first.
const PART: u64 = 4;

/// A frame whose round trip is being measured.
#[derive(Clone, Copy, Debug, PartialEq, Eq)]
pub struct TimedFrame {
    /// Its number.
    pub number: u64,
    /// When it went out, in microseconds.
    pub since: u64,
    /// When it went out last.
    pub again: u64,
}

/// Whether a frame is known to be missing.
#[derive(Clone, Copy, Debug, PartialEq, Eq)]
pub enum Gap {
    /// No.
    Unseen,
    /// Yes: three frames behind the one that the rank waits for came, or those before it came that went again. It is to go
    /// again soon.
    Seen,
    /// It went again since.
    Mended,
}

/// What is known of the round trips to a rank, and of the frames of the session with it that tell of them.
///
/// One frame at a time is measured. Karn's rule holds: one that goes out again isn't, unless repeats count. Then it is
/// measured from the time on when it went first, but for an answer that comes so shortly behind a repeat that it may be
/// that of the repeat.
#[derive(Clone, Copy, Debug, PartialEq, Eq)]
pub struct RoundTrip {
    /// The incarnation of the rank with which the session is.
    pub incarnation: u16,
    /// SRTT and RTTVAR, once a round trip was measured.
    pub estimate: Option<Estimate>,
    /// How often the time to send again was doubled since.
    pub repeats: u32,
    /// The frame whose round trip is being measured.
    pub timed: Option<TimedFrame>,
    /// The highest number of a frame that went out.
    pub newest: Option<u64>,
    /// The number of the frame that the rank waits for, as far as it told.
    pub awaited: u64,
    /// Whether that frame is known to be missing.
    pub gap: Gap,
    /// Frames went again up to the one below this number.
    pub resent: u64,
    /// The frames below this number went out before the one that the rank waited for went again.
    pub doubtful: u64,
    /// So many frames from the one on that the rank waits for may go again.
    pub allowance: u64,
    /// The rank is known to hold the frame below this number: those before it that it doesn't hold are missing.
    pub seen: u64,
    /// Repeats count: so it is where what isn't answered is late, and hardly ever lost.
    pub counts_repeats: bool,
}

/// Whether a frame of this number went out before, where `newest` is the highest number of one that did.
fn is_repeat(newest: Option<u64>, number: u64) -> bool
    ensures { result ≡ is_repeat newest number }
{
    match newest {
        Some(newest) => number <= newest,
        None => false,
    }
}

/// The frame that is measured, once this one goes out the first time.
fn timed_from(timed: Option<TimedFrame>, number: u64, now: u64) -> Option<TimedFrame>
    ensures { result ≡ timed_from timed number now }
{
    match timed {
        Some(frame) => Some(frame),
        None => Some(TimedFrame {
            number,
            since: now,
            again: now,
        }),
    }
}

/// The frame that is measured, once the one of this number goes out again.
fn timed_without(timed: Option<TimedFrame>, number: u64) -> Option<TimedFrame>
    ensures { result ≡ timed_without timed number }
{
    let frame = timed?;
    if frame.number == number {
        return None;
    }
    Some(frame)
}

/// The same where repeats count, and so the time from when it went out first.
fn timed_again(timed: Option<TimedFrame>, number: u64, now: u64) -> Option<TimedFrame>
    ensures { result ≡ timed_again timed number now }
{
    let frame = timed?;
    if frame.number == number {
        return Some(TimedFrame {
            again: now,
            ..frame
        });
    }
    Some(frame)
}

/// Whether a frame went again so shortly before that an answer may be that of the repeat.
fn is_doubtful(frame: TimedFrame, now: u64) -> bool
    ensures { result ≡ is_doubtful frame now }
{
    let soon = (now.saturating_sub(frame.since) / PART).max(SOON);
    frame.since < frame.again && now.saturating_sub(frame.again) < soon
}

/// Whether an acknowledgement of all frames below `next` says that a frame came, where bit i of `held` tells of the
/// frame whose number is by i higher.
fn tells_of(number: u64, next: u64, held: u64) -> bool
    ensures { result ≡ tells_of number next held }
{
    if number < next {
        return true;
    }
    let place = number - next;
    place < 64 && (held >> place) % 2 == 1
}

/// Behind the highest frame that an acknowledgement of all frames below `next` tells of, as far as 64 bits hold it.
fn held_end(next: u64, held: u64) -> u64
    ensures { result ≡ held_end next held }
{
    next.saturating_add(64 - u64::from(held.leading_zeros()))
}

/// Behind the highest number of a frame that went out.
fn behind(newest: Option<u64>) -> u64
    ensures { result ≡ behind newest }
{
    match newest {
        Some(number) => number.saturating_add(1),
        None => 0,
    }
}

/// Whether three frames behind the one that a rank waits for came.
fn gap_by(held: u64) -> Gap
    ensures { result ≡ gap_by held }
{
    if held.count_ones() >= 3 {
        Gap::Seen
    } else {
        Gap::Unseen
    }
}

/// The same where the rank waited for that frame before.
fn gap_with(gap: Gap, held: u64) -> Gap
    ensures { result ≡ gap_with gap held }
{
    match gap {
        Gap::Unseen => gap_by(held),
        Gap::Seen => Gap::Seen,
        Gap::Mended => Gap::Mended,
    }
}

/// How long frames wait where one is known to be missing: no longer than a round trip, where one was measured.
fn hasty(wait: u64, estimate: Option<Estimate>) -> u64
    ensures { result ≡ hasty wait estimate }
{
    match estimate {
        Some(estimate) => wait.min(millis(estimate.smoothed).max(1)),
        None => wait,
    }
}

impl RoundTrip {
    /// A session in which no frame went out, with an incarnation of a rank to which frames take so long.
    pub fn begun(incarnation: u16, estimate: Option<Estimate>, repeats: u32) -> RoundTrip
        ensures { result ≡ begun incarnation estimate repeats }
    {
        RoundTrip {
            incarnation,
            estimate,
            repeats,
            timed: None,
            newest: None,
            awaited: 0,
            gap: Gap::Unseen,
            resent: 0,
            doubtful: 0,
            allowance: 1,
            seen: 0,
            counts_repeats: false,
        }
    }

    /// The same with a rank on this machine: it is thought at first that round trips take no time, and repeats count.
    pub fn late() -> RoundTrip
        ensures { result ≡ record (begun 0 (Some no_time) 0) { counts_repeats = true } }
    {
        RoundTrip {
            counts_repeats: true,
            ..RoundTrip::begun(0, Some(Estimate::none()), 0)
        }
    }

    /// Where a frame goes to this incarnation: a session with another one has ended.
    fn with_incarnation(self, incarnation: u16) -> RoundTrip
        ensures { result ≡ with_incarnation self incarnation }
    {
        if self.incarnation == incarnation {
            self
        } else {
            RoundTrip {
                counts_repeats: self.counts_repeats,
                ..RoundTrip::begun(incarnation, self.estimate, self.repeats)
            }
        }
    }

    /// The frame that the rank waits for goes again: soon, or since its time was over, which is doubled then.
    fn repeated(self, gap: Gap) -> RoundTrip
        ensures { result ≡ repeated self gap }
    {
        match gap {
            Gap::Seen => RoundTrip {
                gap: Gap::Mended,
                doubtful: behind(self.newest),
                ..self
            },
            Gap::Unseen | Gap::Mended => RoundTrip {
                repeats: self.repeats.saturating_add(1),
                doubtful: behind(self.newest),
                ..self
            },
        }
    }

    /// The frame that is measured, once the one of this number goes out again.
    fn timed_behind(self, number: u64, now: u64) -> Option<TimedFrame>
        ensures { result ≡ timed_behind self number now }
    {
        if self.counts_repeats {
            timed_again(self.timed, number, now)
        } else {
            timed_without(self.timed, number)
        }
    }

    fn after_repeat(self, number: u64, now: u64) -> RoundTrip
        ensures { result ≡ after_repeat self number now }
    {
        let unmeasured = RoundTrip {
            timed: self.timed_behind(number, now),
            resent: self.resent.max(number.saturating_add(1)),
            ..self
        };
        if self.awaited == number {
            unmeasured.repeated(self.gap)
        } else {
            unmeasured
        }
    }

    fn after_first(self, number: u64, now: u64) -> RoundTrip
        ensures { result ≡ after_first self number now }
    {
        RoundTrip {
            timed: timed_from(self.timed, number, now),
            newest: Some(number),
            ..self
        }
    }

    fn after_number(self, number: u64, now: u64) -> RoundTrip
        ensures { result ≡ after_number self number now }
    {
        if is_repeat(self.newest, number) {
            self.after_repeat(number, now)
        } else {
            self.after_first(number, now)
        }
    }

    /// After the frame of this number went out to this incarnation, at this time in microseconds. Where it goes the
    /// first time its round trip is measured, unless another frame's is. Where it goes again its round trip isn't, and
    /// the time to send again is doubled if it is the frame that the rank waits for, unless it was known to be missing.
    pub fn after_frame(self, incarnation: u16, number: u64, now: u64) -> RoundTrip
        ensures { result ≡ after_frame self incarnation number now }
    {
        self.with_incarnation(incarnation).after_number(number, now)
    }

    /// A round trip was measured: the time to send again is by it alone.
    fn measured(self, round_trip: u64) -> RoundTrip
        ensures { result ≡ measured self round_trip }
    {
        RoundTrip {
            estimate: Some(Estimate::behind(self.estimate, round_trip)),
            repeats: 0,
            timed: None,
            ..self
        }
    }

    /// The acknowledgement of a frame whose round trip is measured comes: one that is doubtful says nothing.
    fn answered(self, frame: TimedFrame, now: u64) -> RoundTrip
        ensures { result ≡ answered self frame now }
    {
        if is_doubtful(frame, now) {
            RoundTrip {
                timed: None,
                ..self
            }
        } else {
            self.measured(now.saturating_sub(frame.since))
        }
    }

    fn with_sample(self, timed: Option<TimedFrame>, next: u64, held: u64, now: u64) -> RoundTrip
        ensures { result ≡ with_sample self timed next held now }
    {
        match timed {
            Some(frame) if tells_of(frame.number, next, held) => self.answered(frame, now),
            _ => self,
        }
    }

    /// The rank tells that it waits for a later frame than before. If that stands just behind those that went again, and
    /// went out before, it is lost, too: it is to go soon, and twice as many with it. If it stands further behind, frames
    /// came that didn't go again, and all is as at first.
    fn moved_on(self, next: u64, held: u64) -> RoundTrip
        ensures { result ≡ moved_on self next held }
    {
        if self.resent < next || self.doubtful <= next {
            return RoundTrip {
                awaited: next,
                gap: gap_by(held),
                allowance: 1,
                ..self
            };
        }
        if next < self.resent {
            return RoundTrip {
                awaited: next,
                gap: gap_by(held),
                ..self
            };
        }
        RoundTrip {
            awaited: next,
            gap: Gap::Seen,
            allowance: self.allowance.saturating_mul(2),
            ..self
        }
    }

    fn with_awaited(self, next: u64, held: u64) -> RoundTrip
        ensures { result ≡ with_awaited self next held }
    {
        if self.awaited < next {
            return self.moved_on(next, held);
        }
        if self.awaited == next {
            return RoundTrip {
                gap: gap_with(self.gap, held),
                ..self
            };
        }
        self
    }

    /// The frames that the rank is known to hold.
    fn with_seen(self, next: u64, held: u64) -> RoundTrip
        ensures { result ≡ with_seen self next held }
    {
        RoundTrip {
            seen: self.seen.max(held_end(next, held)),
            ..self
        }
    }

    /// After an acknowledgement of all frames below `next` came from this incarnation, at this time in microseconds;
    /// bit i of `held` tells that the frame came whose number is by i higher. If it tells of the frame that is
    /// measured, its round trip is over.
    pub fn after_acknowledgement(
        self,
        incarnation: u16,
        next: u64,
        held: u64,
        now: u64,
    ) -> RoundTrip
        ensures { result ≡ after_acknowledgement self incarnation next held now }
    {
        if self.incarnation != incarnation {
            return self;
        }
        self.with_sample(self.timed, next, held, now)
            .with_awaited(next, held)
            .with_seen(next, held)
    }

    /// Frames to the rank take as long as this says, whatever was measured here.
    pub fn learn(&mut self, estimate: Estimate)
        ensures { self.new ≡ with_estimate self.old estimate }
    {
        self.estimate = Some(estimate);
    }

    /// Whether the frame of this number may go to this incarnation now. One that goes the first time may; so may one that
    /// is missing below another one that came, and those from the one on that the rank waits for, as many as are allowed:
    /// one, and twice as many each time the rank tells that what went again came. Others may be on their way.
    pub fn lets_go(self, incarnation: u16, number: u64) -> bool
        ensures { result ≡ lets_go self incarnation number }
    {
        if self.incarnation != incarnation || !is_repeat(self.newest, number) {
            return true;
        }
        number < self.seen || number < self.awaited.saturating_add(self.allowance)
    }

    /// Whether frames to the rank were late or lost: they wait longer than the least by what was measured, or the one that
    /// the rank waited for went again. The first frame alone doesn't count: its rank may have begun later.
    pub fn is_troubled(self) -> bool
        ensures { result ≡ is_troubled self }
    {
        self.doubtful > 1 || wait_by(self.estimate) > LEAST_WAIT
    }

    /// How many milliseconds frames wait for their acknowledgements now: the time to send again, doubled as often as it
    /// was; where a frame is missing below three that came, no longer than a round trip.
    pub fn wait_now(self) -> u64
        ensures exact { result ≡ wait_now self }
        ensures most { result ≤ 1000 }
    {
        let wait = backed_off(wait_by(self.estimate), self.repeats);
        match self.gap {
            Gap::Unseen | Gap::Mended => wait,
            Gap::Seen => hasty(wait, self.estimate),
        }
    }
}
