//! Two rows of elements made into one, place by place.

ghost use Rattle.std.specs.Prelude.{◌≡◌, ◌⊎◌, ◌%◌, length};
ghost use Rattle.vocabulary.specs.BasicTypes.{size_of, type_at};
ghost use Rattle.vocabulary.specs.Operations.{operation_at};
ghost use Rattle.c_folds.specs.Folds.{FoldGives, Folds, folded_bytes, operation_fold, regroups, typed_fold};

use c_rank::{elements_in, turn_elements};
use reductions::{Reduction, accumulate};
use std::alloc::Global;
use vocabulary::{BasicType, Operation};

/// The number of elements that don't fit together: the last one isn't whole, or one row has more of them.
const WRONG_COUNT: u8 = 1;

/// The number of a code that names no basic type.
const NO_SUCH_TYPE: u8 = 2;

/// The number of an operation that there isn't, or that isn't defined on the type.
const NOT_DEFINED: u8 = 9;

/// The number of want of memory.
const OUT_OF_MEMORY: u8 = 14;

/// The basic type that a code names.
fn basic_of(code: u32) -> Option<BasicType>
    ensures { result ≡ type_at code }
{
    if code > 255 {
        return None;
    }
    BasicType::from_code(code as u8)
}

/// The operation that a code names.
fn operation_of(code: u32) -> Option<Operation>
    ensures { result ≡ operation_at code }
{
    if code > 255 {
        return None;
    }
    Operation::from_code(code as u8)
}

/// Folds whole elements, equally many: 0, or 14.
fn fold_whole(
    alloc: Global,
    reduction: &Reduction,
    basic: BasicType,
    low: &[u8],
    high: &mut [u8],
) -> u8
    requires basic { reduction.now.basic ≡ basic }
    requires len { length low.now ≡ length high.old }
    requires whole { length low.now % size_of basic ≡ 0 }
    ensures { ((result ≡ 0) × (high.new ≡ folded_bytes reduction.now.operation basic low.now high.old)) ⊎
        ((result ≡ 14) × (high.new ≡ high.old)) }
{
    let Ok(mut all) = elements_in(alloc, basic, low) else {
        return OUT_OF_MEMORY;
    };
    let Ok(next) = elements_in(alloc, basic, high) else {
        return OUT_OF_MEMORY;
    };
    accumulate(reduction, &mut all, &next);
    let whole = all.into_whole();
    turn_elements(basic, whole.as_bytes(), high);
    0
}

/// Folds elements of a type: 0, or 9, 1, 14.
fn fold_typed(
    alloc: Global,
    operation: Operation,
    basic: BasicType,
    low: &[u8],
    high: &mut [u8],
) -> u8
    ensures { FoldGives (typed_fold operation basic low.now high.old) high.old result high.new }
{
    let Ok(reduction) = Reduction::new(operation, basic) else {
        return NOT_DEFINED;
    };
    if low.len() != high.len() || low.len() % usize::from(basic.size()) != 0 {
        return WRONG_COUNT;
    }
    fold_whole(alloc, &reduction, basic, low, high)
}

/// Makes of each element of `high` what the operation makes of the one of `low` at the same place and of it, in this
/// order. 0, or 2 (no such type), 9 (no such operation, or it isn't defined on the type), 1 (the last element isn't
/// whole, or the rows aren't equally long), 14, in this order; then `high` is as it was.
pub fn fold_elements(alloc: Global, operation: u32, basic: u32, low: &[u8], high: &mut [u8]) -> u8
    ensures { Folds operation basic low.now high.old result high.new }
{
    let Some(basic) = basic_of(basic) else {
        return NO_SUCH_TYPE;
    };
    let Some(operation) = operation_of(operation) else {
        return NOT_DEFINED;
    };
    fold_typed(alloc, operation, basic, low, high)
}

/// Whether it makes no difference which of three elements that stand beside one another are folded first: whether the
/// operation is associative on the elements. It isn't where a code names no operation, or no type.
pub fn regroups(operation: u32, basic: u32) -> bool
    ensures { result ≡ regroups operation basic }
{
    let Some(operation) = operation_of(operation) else {
        return false;
    };
    let Some(basic) = basic_of(basic) else {
        return false;
    };
    operation.is_associative_on(basic)
}
