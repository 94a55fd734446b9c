//! How long an acknowledgement has been kept back.

ghost use Rattle.std.specs.Prelude.{◌≡◌, ◌+◌, ◌-◌, ◌||◌, ◌⊎◌, nat_le, min, true, None, IfSome};
ghost use Rattle.std.specs.Time.{instant_nanos};

use std::time::Instant;

/// The one that goes stands for so many at most: a quarter of the frames that a sender may have out at one time.
const MOST_STOOD_FOR: u32 = 16;

/// For so many receives one is kept back at most.
const MOST_RECEIVES: u32 = 128;

/// For so many nanoseconds one is kept back at most where its rank waits: a millisecond, a twentieth of the time after
/// which a frame is sent again.
const LATE: u128 = 1_000_000;

/// For how many others, how many receives and how long an acknowledgement has been kept back.
///
/// ```text
///  start ── one more that says all that it says: that one is kept in its place, up to 16 of them
///        ── behind_receive: 128 receives later ─► is_over: it goes
///        ── 1 ms later ────────────────────────► is_late: it goes
/// ```
#[derive(Clone, Copy)]
pub struct Delay {
    /// For how many acknowledgements it stands: itself, and those whose place it took.
    pub stands_for: u32,
    /// How many receives there were since the first of them was kept.
    pub receives: u32,
    /// When that was, if the clock told it.
    pub since: Option<Instant>,
}

impl Delay {
    /// The delay of one that is kept from now on; none where the clock doesn't tell when that is.
    pub fn start(now: Option<Instant>) -> Delay
        ensures { (result.stands_for ≡ 1) × (result.receives ≡ 0) × (result.since ≡ now) }
    {
        Delay {
            stands_for: 1,
            receives: 0,
            since: now,
        }
    }

    /// The delay of one that takes the place of another one, which was kept so long.
    pub fn with_one_more(self) -> Delay
        ensures one { result.stands_for ≡ min (self.stands_for + 1) 4294967295 }
        ensures others { (result.receives ≡ self.receives) × (result.since ≡ self.since) }
    {
        Delay {
            stands_for: self.stands_for.saturating_add(1),
            ..self
        }
    }

    /// The delay behind one more receive.
    pub fn behind_receive(self) -> Delay
        ensures one { result.receives ≡ min (self.receives + 1) 4294967295 }
        ensures others { (result.stands_for ≡ self.stands_for) × (result.since ≡ self.since) }
    {
        Delay {
            receives: self.receives.saturating_add(1),
            ..self
        }
    }

    /// Whether it stands for as many as one may, or was kept for as many receives.
    pub fn is_over(self) -> bool
        ensures { result ≡ (nat_le 16 self.stands_for || nat_le 128 self.receives) }
    {
        self.stands_for >= MOST_STOOD_FOR || self.receives >= MOST_RECEIVES
    }

    /// Whether it has been kept for as long as it may, a millisecond; where the clock doesn't tell the time now, or
    /// didn't tell when that began, it has.
    pub fn is_late(self, now: Option<Instant>) -> bool
        ensures told { IfSome self.since (λ since. IfSome now (λ time.
            result ≡ nat_le 1000000 (instant_nanos time - instant_nanos since))) }
        ensures untold { (self.since ≡ None) ⊎ (now ≡ None) → result ≡ true }
    {
        match (self.since, now) {
            (Some(since), Some(now)) => now.duration_since(since).as_nanos() >= LATE,
            _ => true,
        }
    }
}
