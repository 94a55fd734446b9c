//! Moves along a dimension.

ghost use Rattle.std.specs.Prelude.{◌≡◌, ◌<◌, ◌^◌, IfSome};
ghost use Rattle.cartesian_grids.specs.Grids.{IsSized, coordinates, product, row_major};
ghost use Rattle.cartesian_grids.specs.Moves.{ahead, behind, moved, named, option_map, shifted};

use crate::places::places;

/// The place so many steps ahead.
fn ahead(size: u32, is_ring: bool, from: u32, steps: u32) -> Option<u32>
    requires { from < size }
    ensures { result ≡ ahead size is_ring from steps }
{
    let to = u64::from(from) + u64::from(steps);
    if is_ring {
        return Some((to % u64::from(size)) as u32);
    }
    if to < u64::from(size) {
        return Some(to as u32);
    }
    None
}

/// The place so many steps behind.
fn behind(size: u32, is_ring: bool, from: u32, steps: u32) -> Option<u32>
    requires { from < size }
    ensures { result ≡ behind size is_ring from steps }
{
    if is_ring {
        let to = u64::from(from) + u64::from(size - steps % size);
        return Some((to % u64::from(size)) as u32);
    }
    if from < steps {
        return None;
    }
    Some(from - steps)
}

/// The place to which a displacement leads from a place, in a dimension of this size: on a ring round and round, else
/// nothing beyond the ends.
pub fn moved(size: u32, is_ring: bool, from: u32, displacement: i32) -> Option<u32>
    requires { from < size }
    ensures to { result ≡ moved size is_ring from displacement }
    ensures inside { IfSome result (λ to. to < size) }
{
    if displacement < 0 {
        behind(size, is_ring, from, displacement.unsigned_abs())
    } else {
        ahead(size, is_ring, from, displacement.unsigned_abs())
    }
}

/// The rank of the place that coordinates name: on a ring each number is one, counted from 0.
#[tactic(auto, using(crate::proofs::GridProofs::place_below))]
pub fn rank_named(sizes: &[u32], rings: &[bool], given: &[i32]) -> Option<u32>
    requires sized { IsSized sizes.now }
    requires few { product sizes.now < 2 ^ 32 }
    ensures rank { result ≡ option_map (row_major sizes.now) (named sizes.now rings.now given.now) }
    ensures below { IfSome result (λ r. r < product sizes.now) }
{
    let [size, sizes @ ..] = sizes else {
        return Some(0);
    };
    let [is_ring, rings @ ..] = rings else {
        return None;
    };
    let [one, others @ ..] = given else {
        return None;
    };
    let coordinate = moved(*size, *is_ring, 0, *one)?;
    let rest = rank_named(sizes, rings, others)?;
    Some(coordinate * places(sizes) + rest)
}

/// The rank to which a displacement in one dimension leads; nothing beyond the ends of a dimension that is no ring, and
/// where there is no such dimension.
#[tactic(auto, using(crate::proofs::GridProofs::coordinate_below, crate::proofs::GridProofs::place_below))]
pub fn rank_shifted(
    sizes: &[u32],
    rings: &[bool],
    rank: u32,
    direction: usize,
    displacement: i32,
) -> Option<u32>
    requires sized { IsSized sizes.now }
    requires few { product sizes.now < 2 ^ 32 }
    requires rank { rank < product sizes.now }
    ensures rank { let place = coordinates sizes.now rank in
        result ≡ option_map (row_major sizes.now) (shifted sizes.now rings.now place direction displacement) }
    ensures below { IfSome result (λ r. r < product sizes.now) }
{
    let [size, sizes @ ..] = sizes else {
        return None;
    };
    let [is_ring, rings @ ..] = rings else {
        return None;
    };
    let stride = places(sizes);
    let coordinate = rank / stride;
    let rest = rank % stride;
    if direction == 0 {
        let to = moved(*size, *is_ring, coordinate, displacement)?;
        return Some(to * stride + rest);
    }
    let to = rank_shifted(sizes, rings, rest, direction - 1, displacement)?;
    Some(coordinate * stride + to)
}
