//! Runs in a row of C's: the first ones are used.

ghost use Rattle.std.specs.Prelude.{◌≡◌, ◌++◌, ◌+◌, ◌<◌, ◌≤◌, List, length, take, ℕ, ℤ, ◌+ℤ◌, true, false};
ghost use Rattle.type_maps.specs.Maps.{moved_numbers};
ghost use Rattle.type_maps.specs.Refusals.{Fits};
ghost use Rattle.type_runs.specs.Runs.{Are, Bodies, Is, MayMove};

use crate::records::RunRecord;

/// Puts a run behind the first ones, and answers how many these are then.
pub(crate) fn append(into: &mut [RunRecord], used: usize, next: &RunRecord) -> usize
    requires { used < length into.old }
    ensures runs { (bodies : Bodies) (bytes more : List ℤ) → Are bodies (take used into.old) bytes →
        Is bodies next.now more → Are bodies (take result into.new) (bytes ++ more) }
    ensures most { result ≤ used + 1 }
    ensures least { used ≤ result }
    ensures length { length into.new ≡ length into.old }
{
    if used > 0 {
        let last = used - 1;
        if let Some(run) = into[last].joined(next) {
            into[last] = run;
            return used;
        }
    }
    into[used] = *next;
    used + 1
}

/// Whether a run can't be moved on so far.
fn stays(run: &RunRecord, by: i64) -> bool
    ensures { result ≡ false → Fits (by +ℤ run.now.at) }
{
    by.checked_add(run.at).is_none()
}

/// Whether all runs can be moved on so far.
pub(crate) fn may_move(runs: &[RunRecord], by: i64) -> bool
    ensures { result ≡ true → MayMove by runs.now }
{
    for run in runs {
        if stays(run, by) {
            return false;
        }
    }
    true
}

/// Puts runs, moved on, behind the first ones, and answers how many these are then.
pub(crate) fn append_moved(
    into: &mut [RunRecord],
    used: usize,
    runs: &[RunRecord],
    by: i64,
) -> usize
    requires room { used + length runs.now ≤ length into.old }
    requires places { MayMove by runs.now }
    ensures runs { (bodies : Bodies) (bytes more : List ℤ) → Are bodies (take used into.old) bytes →
        Are bodies runs.now more → Are bodies (take result into.new) (bytes ++ moved_numbers by more) }
    ensures most { result ≤ used + length runs.now }
    ensures length { length into.new ≡ length into.old }
{
    let mut count = used;
    for run in runs {
        let moved = run.moved(by);
        count = append(into, count, &moved);
    }
    count
}
