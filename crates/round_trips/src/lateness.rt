//! How late ranks on one machine answer, as all engines of a process know it.

ghost use Rattle.std.specs.Prelude.{◌≡◌, ◌+◌, ◌≤◌, ◌<◌};
ghost use Rattle.round_trips.specs.Latenesses.{crowded, lateness_behind, micros_waited};

use crate::estimate::Estimate;

/// So many nanoseconds a higher estimate is kept at least before a lower one takes its place.
const KEPT_FOR: u64 = 10_000_000;

/// So many microseconds each process runs that has its turn before another one, as it is thought at first.
const TURN: u64 = 4_000;

/// What is known of the round trips to ranks on one machine, and since when, in nanoseconds. They take long where the
/// processors are busy, and mostly that goes on for a while: one that is higher is taken over at once, and a lower one
/// now and then.
#[repr(C)]
#[derive(Clone, Copy, Debug, Default, PartialEq, Eq)]
pub struct Lateness {
    /// The estimate.
    pub estimate: Estimate,
    /// When it was taken over.
    pub since: u64,
}

impl Lateness {
    /// At the start of a job of so many ranks on so many processors: those that share one have their turns behind one
    /// another.
    pub fn begun(ranks: u32, processors: u32, now: u64) -> Lateness
        ensures estimate { result.estimate ≡ crowded ranks processors }
        ensures since { result.since ≡ now }
    {
        let before = u64::from((ranks / processors.max(1)).saturating_sub(1));
        Lateness {
            estimate: Estimate {
                smoothed: before * TURN,
                variation: 0,
            },
            since: now,
        }
    }

    /// An engine learned this at this time.
    pub fn note(&mut self, learned: Estimate, now: u64)
        ensures exact { self.new ≡ lateness_behind self.old learned now }
        ensures higher { micros_waited self.old.estimate < micros_waited learned → self.new.estimate ≡ learned }
        ensures kept { micros_waited learned ≤ micros_waited self.old.estimate →
            now < self.old.since + 10000000 → self.new ≡ self.old }
    {
        let is_higher = self.estimate.timeout() < learned.timeout();
        if is_higher || now.saturating_sub(self.since) >= KEPT_FOR {
            *self = Lateness {
                estimate: learned,
                since: now,
            };
        }
    }
}
