//! Cartesian grids, for C: sizes, ranks and coordinates are numbers in slices.

ghost use Rattle.std.specs.Prelude.{◌≡◌, ◌<◌, ◌^◌, ◌/◌, ◌⊎◌, List, length, false, true, ℕ};
ghost use Rattle.cartesian_grids.specs.Grids.{IsSized, coordinates, product, row_major};
ghost use Rattle.cartesian_grids.specs.Moves.{named, option_map, shifted};
ghost use Rattle.cartesian_grids.specs.Parts.{chosen};
ghost use Rattle.cartesian_grids.specs.Balance.{Balanced, filled, given, wanted};
ghost use Rattle.c_exports.specs.GridAnswers.{GivesRank, IsGrid, OnGrid, OnRank};

use cartesian_grids::{
    balance_sizes, coordinates, places_within, rank_among, rank_named, rank_shifted,
};

/// The number of sizes that are none of a grid: one of them is 0, or the grid has 2^31 places or more.
const NO_GRID: u32 = 91;

/// The number of a place that isn't in the grid.
const NO_PLACE: u32 = 92;

/// The number of a rank that isn't of the grid.
const NO_RANK: u32 = 93;

/// The number of a slice that hasn't one number for each dimension.
const OTHER_LENGTH: u32 = 94;

/// The number of sizes that no others fill up to a number of nodes.
const NO_SIZES: u32 = 95;

/// The greatest number of places.
const MOST: u32 = 0x7fff_ffff;

/// How many places a grid of these sizes has: 0, or 91.
#[unsafe(no_mangle)]
pub extern "C" fn kombazily_grid_places(sizes: &[u32], places: &mut u32) -> u32
    ensures { OnGrid sizes.now result ((result ≡ 0) × (places.new ≡ product sizes.now)) }
{
    match places_within(sizes, MOST) {
        Some(count) => {
            *places = count;
            0
        }
        None => NO_GRID,
    }
}

/// The rank of the place that coordinates name: 0, 91, or 92 where there is no such place.
#[unsafe(no_mangle)]
pub extern "C" fn kombazily_grid_rank(
    sizes: &[u32],
    rings: &[bool],
    given: &[i32],
    rank: &mut u32,
) -> u32
    ensures { OnGrid sizes.now result (GivesRank
        (option_map (row_major sizes.now) (named sizes.now rings.now given.now)) result rank.old rank.new) }
{
    let Some(_) = places_within(sizes, MOST) else {
        return NO_GRID;
    };
    match rank_named(sizes, rings, given) {
        Some(found) => {
            *rank = found;
            0
        }
        None => NO_PLACE,
    }
}

/// Writes the coordinates of a rank: 0, 91, 93, or 94 where there isn't room for one in each dimension alone.
#[unsafe(no_mangle)]
pub extern "C" fn kombazily_grid_coordinates(sizes: &[u32], rank: u32, into: &mut [u32]) -> u32
    ensures { OnGrid sizes.now result (OnRank rank (product sizes.now) result
        (((result ≡ 94) × (length into.old ≡ length sizes.now → ⊥)) ⊎
        ((result ≡ 0) × (into.new ≡ coordinates sizes.now rank)))) }
{
    let Some(count) = places_within(sizes, MOST) else {
        return NO_GRID;
    };
    if rank >= count {
        return NO_RANK;
    }
    if into.len() != sizes.len() {
        return OTHER_LENGTH;
    }
    coordinates(sizes, rank, into);
    0
}

/// The rank to which a displacement in one dimension leads: 0, 91, 93, or 92 where there is none.
#[unsafe(no_mangle)]
pub extern "C" fn kombazily_grid_shift(
    sizes: &[u32],
    rings: &[bool],
    rank: u32,
    direction: usize,
    displacement: i32,
    to: &mut u32,
) -> u32
    ensures { let place = coordinates sizes.now rank in
        OnGrid sizes.now result (OnRank rank (product sizes.now) result (GivesRank
        (option_map (row_major sizes.now) (shifted sizes.now rings.now place direction displacement))
        result to.old to.new)) }
{
    let Some(count) = places_within(sizes, MOST) else {
        return NO_GRID;
    };
    if rank >= count {
        return NO_RANK;
    }
    match rank_shifted(sizes, rings, rank, direction, displacement) {
        Some(found) => {
            *to = found;
            0
        }
        None => NO_PLACE,
    }
}

/// The rank of a rank's place in its part of the grid, by the dimensions that are kept, and the rank of the part, by the
/// others: 0, 91 or 93.
#[unsafe(no_mangle)]
pub extern "C" fn kombazily_grid_part(
    sizes: &[u32],
    keeps: &[bool],
    rank: u32,
    part: &mut u32,
    within: &mut u32,
) -> u32
    ensures { let place = coordinates sizes.now rank in
        OnGrid sizes.now result (OnRank rank (product sizes.now) result ((result ≡ 0) ×
        (part.new ≡ row_major (chosen false keeps.now sizes.now) (chosen false keeps.now place)) ×
        (within.new ≡ row_major (chosen true keeps.now sizes.now) (chosen true keeps.now place)))) }
{
    let Some(count) = places_within(sizes, MOST) else {
        return NO_GRID;
    };
    if rank >= count {
        return NO_RANK;
    }
    *part = rank_among(sizes, keeps, false, rank);
    *within = rank_among(sizes, keeps, true, rank);
    0
}

/// Puts sizes in the places of those that are 0, so that the product of all is the number of nodes, as balanced as they
/// can be: 0; or 95 where no sizes do, or where the nodes are 0 or 2^31 or more, and nothing changed.
#[unsafe(no_mangle)]
pub extern "C" fn kombazily_grid_balance(nodes: u32, sizes: &mut [u32]) -> u32
    ensures balanced { result ≡ 0 → (fs : List ℕ) × ((sizes.new ≡ filled sizes.old fs) ×
        (Balanced (nodes / product (given sizes.old)) nodes (wanted sizes.old) fs × (product sizes.new ≡ nodes))) }
    ensures refused { (result ≡ 0 → ⊥) → (result ≡ 95) × (sizes.new ≡ sizes.old) × (0 < nodes → nodes < 2 ^ 31 →
        (fs : List ℕ) → length fs ≡ wanted sizes.old → product (filled sizes.old fs) ≡ nodes → ⊥) }
{
    if nodes == 0 || nodes > MOST || !balance_sizes(nodes, sizes) {
        return NO_SIZES;
    }
    0
}
