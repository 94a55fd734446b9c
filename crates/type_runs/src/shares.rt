//! What a process has of a dimension of a distributed array (MPI 3.1, 4.1.4).

ghost use Rattle.std.specs.Prelude.{◌≡◌, ◌<◌, ◌≤◌, IfSome, IfNone};
ghost use Rattle.type_runs.specs.Shares.{AreOwn, HasShare, parts_of};

use type_maps::Distribution;

/// What a process has of a dimension: whole blocks, each a round behind the one before it, and a part of a further one.
#[derive(Clone, Copy)]
pub struct Share {
    /// How many whole blocks.
    pub blocks: u64,
    /// How many indices of the block behind them.
    pub rest: u64,
}

/// How many whole blocks of a round, and how many further indices, a number of indices has.
fn parts_of(left: u64, block: u64, round: u64) -> Share
    requires block { 0 < block }
    requires round { block ≤ round }
    ensures { result ≡ parts_of left block round }
{
    let over = left % round;
    Share {
        blocks: left / round,
        rest: over.min(block),
    }
}

/// What a process has of a dimension: `None` where blocks have no index, there is no such process, or a round isn't
/// within 64 bits.
pub fn share_of(of: &Distribution) -> Option<Share>
    ensures own { IfSome result (AreOwn of.now) }
    ensures none { IfNone result (HasShare of.now → ⊥) }
{
    let round = of.block.checked_mul(of.processes)?;
    if of.block == 0 || of.process >= of.processes {
        return None;
    }
    let first = of.process * of.block;
    if of.size <= first {
        return Some(Share { blocks: 0, rest: 0 });
    }
    Some(parts_of(of.size - first, of.block, round))
}
