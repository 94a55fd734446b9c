//! Parts of a grid.

ghost use Rattle.std.specs.Prelude.{◌≡◌, ◌<◌, ◌≤◌, ◌^◌, length};
ghost use Rattle.cartesian_grids.specs.Grids.{IsSized, coordinates, product, row_major};
ghost use Rattle.cartesian_grids.specs.Parts.{chosen};

use crate::places::places;

/// How many places the kept dimensions have, or the others.
#[tactic(auto, using(crate::proofs::GridProofs::product_some))]
fn places_among(sizes: &[u32], keeps: &[bool], is_kept: bool) -> u32
    requires sized { IsSized sizes.now }
    requires few { product sizes.now < 2 ^ 32 }
    ensures count { result ≡ product (chosen is_kept keeps.now sizes.now) }
    ensures few { result ≤ product sizes.now }
{
    let [keep, keeps @ ..] = keeps else {
        return 1;
    };
    let [size, sizes @ ..] = sizes else {
        return 1;
    };
    let below = places_among(sizes, keeps, is_kept);
    if *keep == is_kept {
        *size * below
    } else {
        below
    }
}

/// The rank of a rank's place in its part, by the kept dimensions alone; or that of the part, by the others.
pub fn rank_among(sizes: &[u32], keeps: &[bool], is_kept: bool, rank: u32) -> u32
    requires sized { IsSized sizes.now }
    requires few { product sizes.now < 2 ^ 32 }
    requires rank { rank < product sizes.now }
    ensures rank { result ≡
        row_major (chosen is_kept keeps.now sizes.now) (chosen is_kept keeps.now (coordinates sizes.now rank)) }
    ensures below { result < product (chosen is_kept keeps.now sizes.now) }
{
    let [keep, keeps @ ..] = keeps else {
        return 0;
    };
    let [_, sizes @ ..] = sizes else {
        return 0;
    };
    let stride = places(sizes);
    let below = rank_among(sizes, keeps, is_kept, rank % stride);
    if *keep == is_kept {
        (rank / stride) * places_among(sizes, keeps, is_kept) + below
    } else {
        below
    }
}
