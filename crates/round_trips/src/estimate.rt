//! The smoothed round trip time, its variation, and the time to send again (RFC 6298, section 2).

ghost use Rattle.std.specs.Prelude.{◌≡◌, ◌*◌, ◌≤◌, ◌^◌, min};
ghost use Rattle.round_trips.specs.Estimates.{backed_off, distance, estimate_behind, estimate_with, first_estimate, no_time};
ghost use Rattle.round_trips.specs.Estimates.{millis, timeout, wait_by};

/// So many milliseconds a frame waits for its acknowledgement as long as no round trip was measured (2.1 has a second,
/// for the whole Internet).
pub const FIRST_WAIT: u64 = 200;

/// It waits no fewer milliseconds than so many (2.4).
pub const LEAST_WAIT: u64 = 20;

/// It waits no more milliseconds than so many (2.5 has a minute): a rank may be busy for long and answer late, and what
/// was lost then is to go again in time.
pub const MOST_WAIT: u64 = 1_000;

/// The granularity G of clocks, in microseconds: a rank looks every 5 ms what is due, keeps an acknowledgement back for
/// up to one, and waits for its turn while other processes run.
const GRANULARITY: u64 = 20_000;

/// So many repeats of a frame double nothing: mostly the frame or its acknowledgement was lost.
const FREE_REPEATS: u32 = 2;

/// Doubled so often each wait is beyond the longest.
const FULL_DOUBLINGS: u32 = 6;

/// A rank whose program has ended stays for no more milliseconds than so many.
const MOST_STAY: u64 = 4_000;

/// What was learned of the round trips to a rank, in microseconds.
#[repr(C)]
#[derive(Clone, Copy, Debug, Default, PartialEq, Eq)]
pub struct Estimate {
    /// The smoothed round trip time, SRTT.
    pub smoothed: u64,
    /// How far round trips are from it, RTTVAR.
    pub variation: u64,
}

/// How far two times are from one another.
fn distance(a: u64, b: u64) -> u64
    ensures { result ≡ distance a b }
{
    if a < b { b - a } else { a - b }
}

impl Estimate {
    /// Round trips take no time: so ranks of one machine begin, until one is measured.
    pub fn none() -> Estimate
        ensures { result ≡ no_time }
    {
        Estimate {
            smoothed: 0,
            variation: 0,
        }
    }

    /// After the first round trip, of so many microseconds (2.2): SRTT is that, and RTTVAR half of it.
    pub fn first(round_trip: u64) -> Estimate
        ensures { result ≡ first_estimate round_trip }
    {
        Estimate {
            smoothed: round_trip,
            variation: round_trip / 2,
        }
    }

    /// After one more round trip (2.3): RTTVAR moves by a quarter towards how far that is from SRTT, and then SRTT by
    /// an eighth towards it.
    pub fn with(self, round_trip: u64) -> Estimate
        ensures { result ≡ estimate_with self round_trip }
    {
        let distance = distance(self.smoothed, round_trip);
        Estimate {
            smoothed: self.smoothed - self.smoothed / 8 + round_trip / 8,
            variation: self.variation - self.variation / 4 + distance / 4,
        }
    }

    /// After a round trip, where one was measured before, or none.
    pub fn behind(former: Option<Estimate>, round_trip: u64) -> Estimate
        ensures { result ≡ estimate_behind former round_trip }
    {
        match former {
            Some(estimate) => estimate.with(round_trip),
            None => Estimate::first(round_trip),
        }
    }

    /// The time to send again, RTO, in microseconds (2.3): SRTT and four times RTTVAR, or SRTT and the granularity of
    /// clocks where that is more; as far as 64 bits hold it.
    pub fn timeout(self) -> u64
        ensures { result ≡ min (timeout self) 18446744073709551615 }
    {
        let spread = self.variation.saturating_mul(4).max(GRANULARITY);
        self.smoothed.saturating_add(spread)
    }
}

/// A time in whole milliseconds, rounded up.
pub(crate) fn millis(time: u64) -> u64
    ensures { result ≡ millis time }
{
    time / 1000 + u64::from(time % 1000 > 0)
}

/// How many milliseconds a frame waits for its acknowledgement before it is sent again the first time, by what was
/// learned: RTO, but no less than 20 and no more than 1,000; 200 where nothing was.
pub fn wait_by(estimate: Option<Estimate>) -> u64
    ensures exact { result ≡ wait_by estimate }
    ensures least { 20 ≤ result }
    ensures most { result ≤ 1000 }
{
    match estimate {
        Some(estimate) => millis(estimate.timeout()).min(MOST_WAIT).max(LEAST_WAIT),
        None => FIRST_WAIT,
    }
}

/// So long a frame waits behind so many repeats: twice as long behind each but the first two (5.5 has each), up to a
/// second.
#[tactic(auto, using(crate::proofs::WaitBounds::beyond, crate::proofs::WaitBounds::below))]
pub(crate) fn backed_off(wait: u64, repeats: u32) -> u64
    requires least { 20 ≤ wait }
    requires most { wait ≤ 1000 }
    ensures { result ≡ backed_off wait repeats }
{
    let doublings = repeats.saturating_sub(FREE_REPEATS);
    if doublings >= FULL_DOUBLINGS {
        return MOST_WAIT;
    }
    let factor = 1u64 << doublings;
    (wait * factor).min(MOST_WAIT)
}

/// How many milliseconds a rank whose program has ended stays on behind the last datagram that came, where frames to it
/// wait so long: so that of a frame whose acknowledgement was lost the next six repeats may come, up to 4,000.
pub fn stay_for(wait: u64) -> u64
    ensures { result ≡ min (32 * wait) 4000 }
{
    wait.saturating_mul(32).min(MOST_STAY)
}

/// The same of a rank on the same machine to which frames went again, or wait longer than the least: so that the next
/// four repeats may come, up to 4,000.
pub fn stay_near(wait: u64) -> u64
    ensures { result ≡ min (8 * wait) 4000 }
{
    wait.saturating_mul(8).min(MOST_STAY)
}
