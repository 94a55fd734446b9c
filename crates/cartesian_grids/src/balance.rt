//! Balanced sizes.

ghost use Rattle.std.specs.Prelude.{◌≡◌, ◌<◌, ◌≤◌, ◌^◌, ◌*◌, ◌/◌, ◌%◌, ◌+◌, ℕ};
ghost use Rattle.std.specs.Prelude.{List, length, IsTrue, false, MatchOption};
ghost use Rattle.cartesian_grids.specs.Grids.{product};
ghost use Rattle.cartesian_grids.specs.Balance.{Balanced, Factors, filled, given, wanted};

/// How many sizes are wanted.
fn wanted(sizes: &[u32]) -> usize
    ensures count { result ≡ wanted sizes.now }
    ensures few { result ≤ length sizes.now }
{
    match sizes {
        [] => 0,
        [first, rest @ ..] => {
            let below = wanted(rest);
            if *first == 0 { below + 1 } else { below }
        }
    }
}

/// The product of the sizes that are given; nothing where it is more than `most`.
fn given_within(sizes: &[u32], most: u32) -> Option<u32>
    requires { 0 < most }
    ensures { MatchOption result (most < product (given sizes.now))
        (λ n. (n ≡ product (given sizes.now)) × (0 < n) × (n ≤ most)) }
{
    match sizes {
        [] => Some(1),
        [first, rest @ ..] => {
            let below = given_within(rest, most)?;
            if *first == 0 {
                return Some(below);
            }
            let all = u64::from(*first) * u64::from(below);
            if all > u64::from(most) {
                return None;
            }
            Some(all as u32)
        }
    }
}

/// Whether a power reaches a number: `false` tells that it is smaller.
fn reaches(base: u32, times: usize, number: u32) -> bool
    ensures { result ≡ false → base ^ times < number }
{
    let mut power: u64 = 1;
    for step in 0..times {
        if power >= u64::from(number) {
            return true;
        }
        power *= u64::from(base);
    }
    power >= u64::from(number)
}

/// The next factor of a number, from one on and up to a bound, whose power reaches the number; or one more than the
/// bound.
fn next_factor(number: u32, from: u32, most: u32, times: usize) -> u32
    requires from { (0 < from) × (from ≤ most + 1) }
    requires most { most < 2 ^ 31 }
    ensures within { (from ≤ result) × (result ≤ most + 1) }
    ensures found { result ≤ most → number % result ≡ 0 }
    ensures passed { (f : ℕ) → from ≤ f → f < result → number % f ≡ 0 → number ≤ f ^ times → ⊥ }
{
    for factor in from..most + 1 {
        if reaches(factor, times, number) && number % factor == 0 {
            return factor;
        }
    }
    most + 1
}

/// Puts the most balanced factors of a number, falling from `most`, in the places of the sizes that are wanted. It
/// answers `false`, and changes nothing, where there are none.
fn search(number: u32, most: u32, sizes: &mut [u32]) -> bool
    requires some { 0 < number }
    requires most { most < 2 ^ 31 }
    ensures found { IsTrue result →
        (fs : List ℕ) × ((sizes.new ≡ filled sizes.old fs) × Balanced number most (wanted sizes.old) fs) }
    ensures none { result ≡ false →
        (sizes.new ≡ sizes.old) × ((fs : List ℕ) → Factors number most (wanted sizes.old) fs → ⊥) }
{
    if sizes.len() == 0 {
        return number == 1;
    }
    if sizes[0] != 0 {
        return search(number, most, &mut sizes[1..]);
    }
    let times = wanted(sizes);
    let mut first = next_factor(number, 1, most, times);
    while first <= most {
        if search(number / first, first, &mut sizes[1..]) {
            sizes[0] = first;
            return true;
        }
        first = next_factor(number, first + 1, most, times);
    }
    false
}

/// Puts sizes in the places of those that are 0, so that the product of all is `nodes`, as balanced as they can be. It
/// answers `false`, and changes nothing, where no sizes do.
pub fn balance_sizes(nodes: u32, sizes: &mut [u32]) -> bool
    requires { (0 < nodes) × (nodes < 2 ^ 31) }
    ensures balanced { IsTrue result → (fs : List ℕ) × ((sizes.new ≡ filled sizes.old fs) ×
        (Balanced (nodes / product (given sizes.old)) nodes (wanted sizes.old) fs × (product sizes.new ≡ nodes))) }
    ensures refused { result ≡ false → (sizes.new ≡ sizes.old) ×
        ((fs : List ℕ) → length fs ≡ wanted sizes.old → product (filled sizes.old fs) ≡ nodes → ⊥) }
{
    let Some(given) = given_within(sizes, nodes) else {
        return false;
    };
    nodes % given == 0 && search(nodes / given, nodes, sizes)
}
