//! Places and their ranks.

ghost use Rattle.std.specs.Prelude.{◌≡◌, ◌<◌, ◌≤◌, ◌^◌, MatchOption, length, slice_index};
ghost use Rattle.cartesian_grids.specs.Grids.{IsSized, coordinates, product};

/// How many places a grid of these sizes has; nothing where a dimension has none, or where they are more than `most`.
pub fn places_within(sizes: &[u32], most: u32) -> Option<u32>
    ensures { MatchOption result (IsSized sizes.now → most < product sizes.now)
        (λ n. (n ≡ product sizes.now) × (n ≤ most) × IsSized sizes.now) }
{
    match sizes {
        [] => {
            if most == 0 {
                return None;
            }
            Some(1)
        }
        [first, rest @ ..] => {
            let below = places_within(rest, most)?;
            let all = u64::from(*first) * u64::from(below);
            if *first == 0 || all > u64::from(most) {
                return None;
            }
            Some(all as u32)
        }
    }
}

/// How many places a grid has of which that is known.
pub(crate) fn places(sizes: &[u32]) -> u32
    requires sized { IsSized sizes.now }
    requires few { product sizes.now < 2 ^ 32 }
    ensures count { result ≡ product sizes.now }
    ensures some { 0 < result }
{
    match sizes {
        [] => 1,
        [first, rest @ ..] => *first * places(rest),
    }
}

/// The coordinate of a rank in one dimension.
fn coordinate(sizes: &[u32], rank: u32, dimension: usize) -> u32
    requires sized { IsSized sizes.now }
    requires few { product sizes.now < 2 ^ 32 }
    requires dimension { dimension < length sizes.now }
    ensures { result ≡ slice_index (coordinates sizes.now rank) dimension }
{
    match sizes {
        [] => 0,
        [_, rest @ ..] => {
            let stride = places(rest);
            if dimension == 0 {
                rank / stride
            } else {
                coordinate(rest, rank % stride, dimension - 1)
            }
        }
    }
}

/// Writes the coordinates of a rank.
pub fn coordinates(sizes: &[u32], rank: u32, into: &mut [u32])
    requires sized { IsSized sizes.now }
    requires few { product sizes.now < 2 ^ 32 }
    requires room { length into.old ≡ length sizes.now }
    ensures { into.new ≡ coordinates sizes.now rank }
{
    for dimension in 0..into.len() {
        into[dimension] = coordinate(sizes, rank, dimension);
    }
}
