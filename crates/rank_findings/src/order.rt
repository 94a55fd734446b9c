//! In which order findings and results are told.

ghost use Rattle.std.specs.Prelude.{◌≡◌};
ghost use Rattle.rank_findings.specs.Orders.{chapter, is_in_front, is_result_before, is_told_before};

use crate::finding::Finding;

/// A finding that was made.
#[derive(Clone, Copy)]
pub struct Told {
    /// What it is.
    pub finding: Finding,
    /// The rank of which it is.
    pub rank: u32,
    /// The how-many-th one it is.
    pub number: u32,
}

/// 0 of what is told first, of no rank; 1 of what is told of ranks; 2 of what is told last.
fn chapter(finding: Finding) -> u32
    ensures { result ≡ chapter finding }
{
    match finding {
        Finding::NeedsBuffer => 0,
        Finding::Cycle => 2,
        _ => 1,
    }
}

/// Whether it is told in front of what else there is of its rank, which mostly follows from it.
fn is_in_front(finding: Finding) -> bool
    ensures { result ≡ is_in_front finding }
{
    match finding {
        Finding::Differs => true,
        _ => false,
    }
}

/// Whether one finding is told before another: sends that a buffer is to take, then what is told of ranks in their order,
/// then a cycle; of one rank how members entered a collective, and then all as it was found.
pub fn is_told_before(a: &Told, b: &Told) -> bool
    ensures { result ≡ is_told_before a.now b.now }
{
    let (first, second) = (chapter(a.finding), chapter(b.finding));
    if first != second {
        return first < second;
    }
    if first == 1 && a.rank != b.rank {
        return a.rank < b.rank;
    }
    match (is_in_front(a.finding), is_in_front(b.finding)) {
        (true, false) => true,
        (false, true) => false,
        _ => a.number < b.number,
    }
}

/// Whether a result is told before another, by their weights and the numbers of their first runs: what weighs more, then
/// what was found first.
pub fn is_result_before(weight: u32, run: u64, other_weight: u32, other_run: u64) -> bool
    ensures { result ≡ is_result_before weight run other_weight other_run }
{
    weight > other_weight || (weight == other_weight && run < other_run)
}
