//! How long a rank stays for the others behind its end.

ghost use Rattle.std.specs.Prelude.{◌≡◌, slice_get};
ghost use Rattle.rank_process.specs.Stays.{least_stay, longest_stay, stay_by};

use round_trips::{LEAST_WAIT, RoundTrips, stay_for, stay_near};

/// How many milliseconds a rank stays at least: none where all ranks are near.
fn least_stay(is_near: bool) -> u64
    ensures { result ≡ least_stay is_near }
{
    if is_near { 0 } else { stay_for(LEAST_WAIT) }
}

/// How many milliseconds it stays for another rank, by the round trips to it: for one that is near only where frames to
/// it were late or lost.
fn stay_of(trips: &RoundTrips, is_near: bool, rank: u16) -> u64
    ensures { result ≡ stay_by is_near (slice_get trips.now rank) }
{
    if is_near {
        match trips.troubled_wait(rank) {
            Some(wait) => stay_near(wait),
            None => 0,
        }
    } else {
        match trips.measured_wait(rank) {
            Some(wait) => stay_for(wait),
            None => 0,
        }
    }
}

/// How many milliseconds a rank of a job of so many ranks stays: as long as for any of them.
pub(crate) fn stay_in(trips: &RoundTrips, is_near: bool, size: u16) -> u64
    ensures { result ≡ longest_stay is_near trips.now size }
{
    let mut stay = least_stay(is_near);
    for rank in 0..size {
        stay = stay.max(stay_of(trips, is_near, rank));
    }
    stay
}
