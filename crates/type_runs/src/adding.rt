//! Copies of a type behind what there is of another one.

ghost use Rattle.std.specs.Prelude.{◌≡◌, ◌++◌, ◌+◌, ◌<◌, ◌≤◌, List, IfSome, IfNone, MatchResult, length, take, ℕ};
ghost use Rattle.std.specs.Prelude.{ℤ, ◌*ℤ◌, max};
ghost use Rattle.type_maps.specs.Constructors.{block};
ghost use Rattle.type_maps.specs.Maps.{Map, copied, copied_numbers, joined, places, places_of};
ghost use Rattle.type_maps.specs.Refusals.{GivesNumber};
ghost use Rattle.type_maps.specs.Summaries.{extent, summary_of};
ghost use Rattle.type_maps.specs.Types.{AddFits};
ghost use Rattle.type_runs.specs.Making.{AddGives, Asked, BlockFits, Copy, RowsFit, Stand, number_of, step_in};
ghost use Rattle.type_runs.specs.Making.{with_copies};
ghost use Rattle.type_runs.specs.Records.{meant};
ghost use Rattle.type_runs.specs.Runs.{Are, Bodies};

use crate::records::{RunRecord, TypeRecord};
use crate::rows::{append, append_moved, may_move};
use crate::runs::copies_of;
use type_maps::{Places, Refusal, product};

/// What became of copies that were to be added.
#[derive(Clone, Copy)]
pub enum Added {
    /// They are there.
    Appended,
    /// They are there, and there are no others: the runs are those of the copied type.
    Shared,
    /// The row of runs is too short. Nothing changed.
    NoRoom,
    /// A place, the size, or where data or markers lie isn't within 64 bits. Nothing changed.
    TooLarge,
}

impl Added {
    /// Its number, for C: 0, 98, 97 or 96.
    pub fn number(self) -> u32
        ensures { result ≡ number_of self }
    {
        match self {
            Added::Appended => 0,
            Added::Shared => 98,
            Added::NoRoom => 97,
            Added::TooLarge => 96,
        }
    }
}

/// The numbers with copies of a type behind what there is.
fn numbers_with(made: &TypeRecord, item: &TypeRecord, at: &Places) -> Result<TypeRecord, Refusal>
    requires { 0 < at.now.count }
    ensures { (m n : Map) → meant made.now ≡ summary_of m → meant item.now ≡ summary_of n →
        MatchResult result (λ r. meant r ≡ summary_of (with_copies m n at.now)) (λ _. AddFits m n at.now → ⊥) }
{
    let Ok(copies) = item.summary().copied(at) else {
        return Err(Refusal::TooLarge);
    };
    let Ok(all) = made.summary().joined(&copies) else {
        return Err(Refusal::TooLarge);
    };
    Ok(TypeRecord::of(&all))
}

/// Puts copies of runs behind the first ones of a row, and answers how many these are then; `None` where there isn't
/// room for as many further ones as are copied, or for one. Then nothing changed.
fn put_copies(
    into: &mut [RunRecord],
    used: usize,
    runs: &[RunRecord],
    body: u64,
    size: u64,
    at: &Places,
) -> Option<usize>
    ensures put { IfSome result (λ count. (bodies : Bodies) (bytes more : List ℤ) →
        Are bodies (take used into.old) bytes → Are bodies runs.now more → (body ≡ 0 → ⊥) → bodies body ≡ more →
        size ≡ length more →
        Are bodies (take count into.new) (bytes ++ copied_numbers (places_of at.now) more) ×
        (count ≤ length into.new)) }
    ensures room { IfNone result ((into.new ≡ into.old) × (length into.old < used + max (length runs.now) 1)) }
{
    if used >= into.len() || into.len() - used < runs.len() {
        return None;
    }
    if at.count == 1 && may_move(runs, at.at) {
        Some(append_moved(into, used, runs, at.at))
    } else {
        Some(append(into, used, &copies_of(runs, body, size, at)))
    }
}

/// Adds copies of a type, which has these runs, and whose runs are the body of this number, behind what there is:
/// numbers, and the first runs of a row.
pub(crate) fn add_copies(
    made: &mut TypeRecord,
    into: &mut [RunRecord],
    used: &mut usize,
    item: &TypeRecord,
    runs: &[RunRecord],
    body: u64,
    at: &Places,
) -> Added
    ensures { (bodies : Bodies) (m n : Map) → Stand bodies m made.old (take used.old into.old) →
        used.old ≤ length into.old → Copy bodies n item.now runs.now body →
        AddGives bodies (AddFits m n at.now) (with_copies m n at.now) n (length runs.now)
        (record { numbers = made.old; row = into.old; used = used.old })
        (record { numbers = made.new; row = into.new; used = used.new }) result }
{
    if at.count == 0 {
        return Added::Appended;
    }
    let Ok(numbers) = numbers_with(made, item, at) else {
        return Added::TooLarge;
    };
    if runs.is_empty() {
        *made = numbers;
        return Added::Appended;
    }
    if *used == 0 && at.at == 0 && at.count == 1 {
        *made = numbers;
        return Added::Shared;
    }
    match put_copies(into, *used, runs, body, item.size, at) {
        Some(count) => {
            *made = numbers;
            *used = count;
            Added::Appended
        }
        None => Added::NoRoom,
    }
}

/// Adds a block of so many copies of a type, one behind the other, from a place on that is counted in units of so many
/// bytes.
pub fn add_block(
    made: &mut TypeRecord,
    into: &mut [RunRecord],
    used: &mut usize,
    item: &TypeRecord,
    runs: &[RunRecord],
    body: u64,
    at: i64,
    unit: i64,
    count: u64,
) -> Added
    ensures { (bodies : Bodies) (m n : Map) → Stand bodies m made.old (take used.old into.old) →
        used.old ≤ length into.old → Copy bodies n item.now runs.now body → item.now.extent ≡ extent n →
        AddGives bodies (BlockFits m n at unit count) (joined m (block (at *ℤ unit) count n)) n (length runs.now)
        (record { numbers = made.old; row = into.old; used = used.old })
        (record { numbers = made.new; row = into.new; used = used.new }) result }
{
    if count == 0 {
        return Added::Appended;
    }
    let Ok(first) = product(at, unit) else {
        return Added::TooLarge;
    };
    let places = Places {
        at: first,
        count,
        stride: item.extent,
    };
    add_copies(made, into, used, item, runs, body, &places)
}

/// From one copy to the next, in bytes; one copy has no stride.
fn step_in(count: u64, stride: i64, unit: i64) -> Result<i64, Refusal>
    ensures { GivesNumber (step_in count stride unit) result }
{
    if count == 1 {
        Ok(0)
    } else {
        product(stride, unit)
    }
}

/// Adds so many copies of a type at regular places, which are counted in units of so many bytes.
pub fn add_rows(
    made: &mut TypeRecord,
    into: &mut [RunRecord],
    used: &mut usize,
    item: &TypeRecord,
    runs: &[RunRecord],
    body: u64,
    at: i64,
    count: u64,
    stride: i64,
    unit: i64,
) -> Added
    ensures { (bodies : Bodies) (m n : Map) → Stand bodies m made.old (take used.old into.old) →
        used.old ≤ length into.old → Copy bodies n item.now runs.now body →
        AddGives bodies (RowsFit m n at count stride unit)
        (joined m (copied (places (at *ℤ unit) count (stride *ℤ unit)) n)) n (length runs.now)
        (record { numbers = made.old; row = into.old; used = used.old })
        (record { numbers = made.new; row = into.new; used = used.new }) result }
{
    if count == 0 {
        return Added::Appended;
    }
    let Ok(first) = product(at, unit) else {
        return Added::TooLarge;
    };
    let Ok(step) = step_in(count, stride, unit) else {
        return Added::TooLarge;
    };
    let places = Places {
        at: first,
        count,
        stride: step,
    };
    add_copies(made, into, used, item, runs, body, &places)
}
