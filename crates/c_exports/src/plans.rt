//! What C calls to carry out collectives: plans, and folds.

ghost use Rattle.plan_rows.specs.Rows.{PlanGives, plan_meant};
ghost use Rattle.std.specs.Prelude.{◌≡◌, if◌then◌else◌};
ghost use Rattle.c_folds.specs.Folds.{Folds, regroups};

use c_folds::{fold_elements, regroups};
use plan_rows::{PlanRecord, StepRecord, put_plan};
use std::alloc::Global;

/// Puts the steps of a plan over the first records, where there is room for all of them, and how many they are into
/// `count`: 0, or the number of why there is no such plan.
#[unsafe(no_mangle)]
pub extern "C" fn kombazily_plan(
    alloc: Global,
    asked: &PlanRecord,
    into: &mut [StepRecord],
    count: &mut u64,
) -> u32
    ensures { PlanGives (plan_meant asked.now) into.old into.new count.old count.new result }
{
    match put_plan(alloc, asked, into) {
        Ok(len) => {
            *count = len as u64;
            0
        }
        Err(number) => u32::from(number),
    }
}

/// Makes of each element of `high` what the operation makes of the one of `low` at the same place and of it, in this
/// order: 0, or the number of why it doesn't.
#[unsafe(no_mangle)]
pub extern "C" fn kombazily_fold(
    alloc: Global,
    operation: u32,
    basic: u32,
    low: &[u8],
    high: &mut [u8],
) -> u32
    ensures { Folds operation basic low.now high.old result high.new }
{
    u32::from(fold_elements(alloc, operation, basic, low, high))
}

/// Whether the operation is associative on the elements: 1, or 0, also where a code names no operation or no type.
#[unsafe(no_mangle)]
pub extern "C" fn kombazily_regroups(operation: u32, basic: u32) -> u32
    ensures { result ≡ (if regroups operation basic then 1 else 0) }
{
    u32::from(regroups(operation, basic))
}
