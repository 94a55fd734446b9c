//! The reduction of members' elements.

ghost use Rattle.std.specs.Prelude.{◌≡◌, All, IfOk, IfErr};
ghost use Rattle.datatypes.specs.Combinations.{combined_values, IsLike};
ghost use Rattle.reductions.specs.Folds.{folded_values};

use crate::operation::ReduceOp;
use datatypes::{Buffer, LayoutRefusal};
use std::alloc::Global;

/// Combines each element of `all`, which come first, with that of `next` at the same place.
pub fn accumulate<R: ReduceOp>(op: &R, all: &mut Buffer, next: &Buffer)
    requires basic { all.old.basic ≡ R.basic_of op.now }
    requires like { IsLike all.old.basic all.old.values next.now }
    ensures { all.new ≡
        record all.old {
          values = combined_values (R.combines op.now) all.old.values next.now.values;
        } }
{
    op.combine_each(all, next);
}

/// The elements of the first member combined with those of each further one, in order.
///
/// Refused for want of memory alone.
pub fn fold<R: ReduceOp>(
    op: &R,
    alloc: Global,
    first: &Buffer,
    rest: &[Buffer],
) -> Result<Buffer, LayoutRefusal>
    requires basic { first.now.basic ≡ R.basic_of op.now }
    requires like { All (IsLike first.now.basic first.now.values) rest.now }
    ensures ok { IfOk result
        (λ all.
        all ≡
        record first.now {
          values = folded_values (R.combines op.now) first.now.values rest.now;
        }) }
    ensures err { IfErr result (λ refusal. refusal ≡ LayoutRefusal.OutOfMemory) }
{
    let mut all = first.try_clone(alloc)?;
    for next in rest {
        accumulate(op, &mut all, next);
    }
    Ok(all)
}
