//! Types, for C: the numbers of type maps, and runs of bytes, in records and slices.

ghost use Rattle.std.specs.Prelude.{◌≡◌, ◌≤◌, List, length, take, ℤ, pos, ◌*ℤ◌};
ghost use Rattle.type_maps.specs.Constructors.{block, resized};
ghost use Rattle.type_maps.specs.Maps.{Map, copied, copied_numbers, joined, no_elements, places};
ghost use Rattle.type_maps.specs.Packing.{whole_items};
ghost use Rattle.type_maps.specs.Summaries.{extent, summary_of};
ghost use Rattle.type_runs.specs.Making.{AddTells, BlockFits, Copy, EndFits, ItemsTell, ResizeFits, RowsFit, Stand};
ghost use Rattle.type_runs.specs.Making.{Tell, Tells};
ghost use Rattle.type_runs.specs.Records.{meant};
ghost use Rattle.type_runs.specs.Runs.{Are, Bodies, Is};
ghost use Rattle.type_runs.specs.Shares.{ShareTells};

use type_maps::Distribution;
use type_runs::{
    RunRecord, TypeRecord, add_block, add_rows, begin, copies_in_a_row, end, resize, share_of,
    whole_items,
};

/// The number of a type of which a place, the size or a bound isn't within 64 bits.
const TOO_LARGE: u32 = 96;

/// The number of bytes that aren't whole items.
const NO_ITEMS: u32 = 99;

/// The numbers of a type without elements and markers.
#[unsafe(no_mangle)]
pub extern "C" fn kombazily_type_begin(numbers: &mut TypeRecord)
    ensures { Tell no_elements numbers.new }
{
    *numbers = begin();
}

/// Adds a block of copies of an item, one behind the other, to a type that is being made, which has these numbers and
/// the first `used` runs of a row: 0, 98 (the runs are the item's), 97 (the row is too short) or 96 (too large).
#[unsafe(no_mangle)]
pub extern "C" fn kombazily_type_block(
    numbers: &mut TypeRecord,
    row: &mut [RunRecord],
    used: &mut usize,
    item: &TypeRecord,
    runs: &[RunRecord],
    body: u64,
    at: i64,
    unit: i64,
    count: u64,
) -> u32
    ensures { (bodies : Bodies) (m n : Map) → Stand bodies m numbers.old (take used.old row.old) →
        used.old ≤ length row.old → Copy bodies n item.now runs.now body → item.now.extent ≡ extent n →
        AddTells bodies (BlockFits m n at unit count) (joined m (block (at *ℤ unit) count n)) n (length runs.now)
        (record { numbers = numbers.old; row = row.old; used = used.old })
        (record { numbers = numbers.new; row = row.new; used = used.new }) result }
{
    add_block(numbers, row, used, item, runs, body, at, unit, count).number()
}

/// Adds copies of an item at regular places, in the same way.
#[unsafe(no_mangle)]
pub extern "C" fn kombazily_type_rows(
    numbers: &mut TypeRecord,
    row: &mut [RunRecord],
    used: &mut usize,
    item: &TypeRecord,
    runs: &[RunRecord],
    body: u64,
    at: i64,
    count: u64,
    stride: i64,
    unit: i64,
) -> u32
    ensures { (bodies : Bodies) (m n : Map) → Stand bodies m numbers.old (take used.old row.old) →
        used.old ≤ length row.old → Copy bodies n item.now runs.now body →
        AddTells bodies (RowsFit m n at count stride unit)
        (joined m (copied (places (at *ℤ unit) count (stride *ℤ unit)) n)) n (length runs.now)
        (record { numbers = numbers.old; row = row.old; used = used.old })
        (record { numbers = numbers.new; row = row.new; used = used.new }) result }
{
    add_rows(
        numbers, row, used, item, runs, body, at, count, stride, unit,
    )
    .number()
}

/// Marks both bounds in place of the markers that there are (4.1.7): 0 or 96.
#[unsafe(no_mangle)]
pub extern "C" fn kombazily_type_resize(
    numbers: &mut TypeRecord,
    lower: i64,
    count: i64,
    unit: i64,
) -> u32
    ensures { (m : Map) → meant numbers.old ≡ summary_of m → Tells (ResizeFits lower count unit)
        (meant numbers.new ≡ summary_of (resized lower (count *ℤ unit) m)) (numbers.new ≡ numbers.old) result }
{
    match resize(numbers, lower, count, unit) {
        Ok(resized) => {
            *numbers = resized;
            0
        }
        Err(_) => TOO_LARGE,
    }
}

/// Tells the bounds (4.1.7): 0 or 96.
#[unsafe(no_mangle)]
pub extern "C" fn kombazily_type_end(numbers: &mut TypeRecord) -> u32
    ensures { (m : Map) → meant numbers.old ≡ summary_of m →
        Tells (EndFits m) (Tell m numbers.new) (numbers.new ≡ numbers.old) result }
{
    match end(numbers) {
        Ok(ended) => {
            *numbers = ended;
            0
        }
        Err(_) => TOO_LARGE,
    }
}

/// Copies of runs as one run, each a stride behind the one before it.
#[unsafe(no_mangle)]
pub extern "C" fn kombazily_type_copies(
    runs: &[RunRecord],
    body: u64,
    size: u64,
    count: u64,
    stride: i64,
    made: &mut RunRecord,
)
    ensures { (bodies : Bodies) (bytes : List ℤ) → Are bodies runs.now bytes → (body ≡ 0 → ⊥) → bodies body ≡ bytes →
        size ≡ length bytes → Is bodies made.new (copied_numbers (places (pos 0) count stride) bytes) }
{
    *made = copies_in_a_row(runs, body, size, count, stride);
}

/// Which places of a dimension a process has, of which blocks go round the processes (4.1.4): so many whole blocks, and
/// so many places of a further one: 0, or 96 where a number is 0 or there is no such process.
#[unsafe(no_mangle)]
pub extern "C" fn kombazily_type_share(
    size: u64,
    block: u64,
    processes: u64,
    process: u64,
    blocks: &mut u64,
    rest: &mut u64,
) -> u32
    ensures { ShareTells (record { size = size; block = block; processes = processes; process = process })
        blocks.old blocks.new rest.old rest.new result }
{
    let of = Distribution {
        size,
        block,
        processes,
        process,
    };
    match share_of(&of) {
        Some(found) => {
            *blocks = found.blocks;
            *rest = found.rest;
            0
        }
        None => TOO_LARGE,
    }
}

/// How many whole items of so many bytes a number of bytes is (4.1.11): 0, or 99 where it isn't so many.
#[unsafe(no_mangle)]
pub extern "C" fn kombazily_type_items(bytes: u64, size: u64, items: &mut u64) -> u32
    ensures { ItemsTell (whole_items bytes size) items.old items.new result }
{
    match whole_items(bytes, size) {
        Some(count) => {
            *items = count;
            0
        }
        None => NO_ITEMS,
    }
}
