//! Copies of runs, and runs that go on with one another.

ghost use Rattle.std.specs.Prelude.{◌≡◌, ◌++◌, ◌==◌, List, IfSome, length, false, if◌then◌else◌};
ghost use Rattle.std.specs.Prelude.{ℕ, ℤ, pos, ◌+ℤ◌};
ghost use Rattle.type_maps.specs.Maps.{copied_numbers, moved_numbers, places, places_of};
ghost use Rattle.type_maps.specs.Refusals.{Fits};
ghost use Rattle.type_runs.specs.Runs.{Are, Bodies, Is, run_places};

use crate::records::RunRecord;
use type_maps::{Places, number_of};

impl RunRecord {
    /// Where its pieces are.
    fn places(&self) -> Places
        ensures { result ≡ run_places self.now }
    {
        Places {
            at: self.at,
            count: self.count,
            stride: self.stride,
        }
    }

    /// The same pieces at other places.
    fn with_places(&self, places: &Places) -> RunRecord
        ensures { result ≡
            record self.now { at = places.now.at; count = places.now.count; stride = places.now.stride } }
    {
        RunRecord {
            at: places.at,
            count: places.count,
            stride: places.stride,
            ..*self
        }
    }

    /// The same as one row, where it is rows that touch.
    fn as_row(&self) -> RunRecord
        ensures { (bodies : Bodies) (bytes : List ℤ) → Is bodies self.now bytes → Is bodies result bytes }
    {
        let Ok(step) = number_of(self.length) else {
            return *self;
        };
        match self.count.checked_mul(self.length) {
            Some(length) if self.body == 0 && step == self.stride => RunRecord {
                at: self.at,
                length,
                count: 1,
                stride: 0,
                body: 0,
            },
            _ => *self,
        }
    }

    /// Copies of it, where they are one run.
    fn copied(&self, at: &Places) -> Option<RunRecord>
        ensures { IfSome result (λ r. (bodies : Bodies) (bytes : List ℤ) → Is bodies self.now bytes →
            Is bodies r (copied_numbers (places_of at.now) bytes)) }
    {
        let places = self.places().at_each(at)?;
        Some(self.with_places(&places).as_row())
    }

    /// The same, moved on.
    pub(crate) fn moved(&self, by: i64) -> RunRecord
        requires { Fits (by +ℤ self.now.at) }
        ensures { (bodies : Bodies) (bytes : List ℤ) → Is bodies self.now bytes →
            Is bodies result (moved_numbers by bytes) }
    {
        RunRecord {
            at: by + self.at,
            ..*self
        }
    }

    /// Whether its places, which are some, are otherwise far from one another.
    fn has_other_step(&self, stride: i64) -> bool
        ensures { result ≡ false → places self.now.at self.now.count self.now.stride ≡
            places self.now.at self.now.count stride }
    {
        self.count != 1 && self.stride != stride
    }

    /// From one place to the next, where a further piece is so far behind the first one.
    fn step(&self, gap: i64) -> i64
        ensures { result ≡ (if self.now.count == 1 then gap else self.now.stride) }
    {
        if self.count == 1 { gap } else { self.stride }
    }

    /// With pieces of the same form behind its own, where the next ones stand there.
    fn continued(&self, next: &RunRecord) -> Option<RunRecord>
        requires length { self.now.length ≡ next.now.length }
        requires body { self.now.body ≡ next.now.body }
        ensures { IfSome result (λ r. (bodies : Bodies) (bytes more : List ℤ) → Is bodies self.now bytes →
            Is bodies next.now more → Is bodies r (bytes ++ more)) }
    {
        let gap = next.at.checked_sub(self.at)?;
        let stride = self.step(gap);
        if self.has_other_step(stride) {
            return None;
        }
        if next.has_other_step(stride) {
            return None;
        }
        let Ok(pieces) = number_of(self.count) else {
            return None;
        };
        if pieces.checked_mul(stride)? != gap {
            return None;
        }
        let count = self.count.checked_add(next.count)?;
        Some(RunRecord {
            count,
            stride,
            ..*self
        })
    }

    /// As one row with another one that begins where it ends.
    fn lengthened(&self, next: &RunRecord) -> Option<RunRecord>
        ensures { IfSome result (λ r. (bodies : Bodies) (bytes more : List ℤ) → Is bodies self.now bytes →
            Is bodies next.now more → Is bodies r (bytes ++ more)) }
    {
        if self.body != 0 || next.body != 0 || self.count != 1 || next.count != 1 {
            return None;
        }
        let Ok(row) = number_of(self.length) else {
            return None;
        };
        if self.at.checked_add(row)? != next.at {
            return None;
        }
        let length = self.length.checked_add(next.length)?;
        Some(RunRecord { length, ..*self })
    }

    /// It and the next one as one run, where they are one.
    pub(crate) fn joined(&self, next: &RunRecord) -> Option<RunRecord>
        ensures { IfSome result (λ r. (bodies : Bodies) (bytes more : List ℤ) → Is bodies self.now bytes →
            Is bodies next.now more → Is bodies r (bytes ++ more)) }
    {
        match self.lengthened(next) {
            Some(row) => Some(row),
            None if self.body == next.body && self.length == next.length => self.continued(next),
            None => None,
        }
    }
}

/// Copies of runs as one run: the body's number is that of all of them, and not 0.
pub(crate) fn copies_of(runs: &[RunRecord], body: u64, size: u64, at: &Places) -> RunRecord
    ensures { (bodies : Bodies) (bytes : List ℤ) → Are bodies runs.now bytes → (body ≡ 0 → ⊥) → bodies body ≡ bytes →
        size ≡ length bytes → Is bodies result (copied_numbers (places_of at.now) bytes) }
{
    if let [only] = runs {
        if let Some(run) = only.copied(at) {
            return run;
        }
    }
    RunRecord {
        at: at.at,
        length: size,
        count: at.count,
        stride: at.stride,
        body,
    }
}

/// Copies of runs as one run, from 0 on.
pub fn copies_in_a_row(
    runs: &[RunRecord],
    body: u64,
    size: u64,
    count: u64,
    stride: i64,
) -> RunRecord
    ensures { (bodies : Bodies) (bytes : List ℤ) → Are bodies runs.now bytes → (body ≡ 0 → ⊥) → bodies body ≡ bytes →
        size ≡ length bytes → Is bodies result (copied_numbers (places (pos 0) count stride) bytes) }
{
    let places = Places {
        at: 0,
        count,
        stride,
    };
    copies_of(runs, body, size, &places)
}
