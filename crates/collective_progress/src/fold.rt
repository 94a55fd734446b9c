//! Members' blocks, combined.

ghost use Rattle.std.specs.Prelude.{◌≡◌, fold, length, IfOk, List, ℕ, Option};
ghost use Rattle.collective_progress.specs.Blocks.{blocks_known, folded_values, one_more, reduction_of};
ghost use Rattle.datatypes.specs.Contents.{Contents};

use crate::seat::Seat;
use datatypes::Buffer;
use reductions::{ReduceOp, Reduction, accumulate};
use std::alloc::{AllocError, Global};
use vocabulary::Operation;

/// Combines what there is with what each of the members with these ranks handed in, in their order.
fn fold_rest<'a, R: ReduceOp>(
    op: &R,
    all: &mut Buffer,
    seat: &Seat<'a>,
    mine: &'a Buffer,
    ranks: &[u16],
)
    requires basic { all.old.basic ≡ R.basic_of op.now }
    requires like { mine.now.basic ≡ all.old.basic }
    requires len { length mine.now.values ≡ length all.old.values }
    ensures { all.new ≡
        record all.old {
          values =
              fold (λ (all : List ℕ) (next : Option Contents). one_more (R.combines op.now) all next) all.old.values
              (blocks_known seat.now.own mine.now seat.now.inside.now.incarnation seat.now.inside.now.context
              seat.now.inside.now.number seat.now.notes.now ranks.now);
        } }
{
    for rank in ranks {
        if let Some(block) = seat.block_known(mine, *rank) {
            accumulate(op, all, block);
        }
    }
}

/// What the members with these ranks handed in, combined in the order of the ranks.
fn fold_blocks<'a, R: ReduceOp>(
    alloc: Global,
    op: &R,
    seat: &Seat<'a>,
    mine: &'a Buffer,
    ranks: &[u16],
) -> Result<Buffer, AllocError>
    requires { mine.now.basic ≡ R.basic_of op.now }
    ensures { IfOk result
        (λ all. all ≡
        record {
          basic = mine.now.basic;
          values =
              folded_values (R.combines op.now)
              (blocks_known seat.now.own mine.now seat.now.inside.now.incarnation seat.now.inside.now.context
              seat.now.inside.now.number seat.now.notes.now ranks.now);
        }) }
{
    let Some((first, rest)) = ranks.split_first() else {
        return Ok(Buffer::new(alloc, mine.basic()));
    };
    match seat.block_known(mine, *first) {
        Some(block) => {
            let mut all = block.try_clone(alloc)?;
            fold_rest(op, &mut all, seat, mine, rest);
            Ok(all)
        }
        None => Ok(Buffer::new(alloc, mine.basic())),
    }
}

impl<'a> Seat<'a> {
    /// What the members with these ranks handed in, combined by the operation in rank order (MPI 3.1, 5.9): a left
    /// fold, whatever order the parts came in. Nothing is answered where the operation isn't defined on the type. What
    /// isn't known of a member is left out: ask `are_known` first.
    pub fn reduction_of(
        &self,
        alloc: Global,
        operation: Operation,
        mine: &'a Buffer,
        ranks: &[u16],
    ) -> Result<Option<Buffer>, AllocError>
        ensures { IfOk result
            (λ all. all ≡
            reduction_of operation mine.now
            (blocks_known self.now.own mine.now self.now.inside.now.incarnation self.now.inside.now.context
            self.now.inside.now.number self.now.notes.now ranks.now)) }
    {
        let Ok(reduction) = Reduction::new(operation, mine.basic()) else {
            return Ok(None);
        };
        match fold_blocks(alloc, &reduction, self, mine, ranks) {
            Ok(all) => Ok(Some(all)),
            Err(refused) => Err(refused),
        }
    }
}
