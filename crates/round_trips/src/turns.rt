//! How many of the engines of one process are told at once that frames may go again.

ghost use Rattle.std.specs.Prelude.{◌≡◌, ◌≤◌};
ghost use Rattle.round_trips.specs.Turns.{told_at_once};

/// So many engines are all told each millisecond.
const FEW: u64 = 64;

/// All engines are told within so many milliseconds.
const ROUND: u64 = 20;

/// How many of so many engines are told that frames may go again, once so many milliseconds have passed since some were
/// told last: all of a few; of many as large a part as has all told within 20 milliseconds. So what it takes to tell
/// them doesn't grow with the number of times that a process looks at its clock.
#[tactic(auto, using(crate::proofs::TurnBounds::all_told, crate::proofs::TurnBounds::few_told))]
pub fn told_at_once(count: u64, passed: u64) -> u64
    ensures exact { result ≡ told_at_once count passed }
    ensures most { result ≤ count }
    ensures few { 1 ≤ passed → count ≤ 64 → result ≡ count }
    ensures all { 20 ≤ passed → result ≡ count }
{
    let each = FEW.max(count / ROUND + 1);
    each.saturating_mul(passed).min(count)
}
