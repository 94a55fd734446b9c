//! The operations of a reduction (MPI 3.1, 5.9.2).

ghost use Rattle.std.specs.Prelude.{◌≡◌, ◌<◌, ◌%◌, ◌+◌, ◌*◌, nat_lt, ℕ, true, false, ◌↔◌, IfOk, IfErr, IsErrOf};
ghost use Rattle.datatypes.specs.Elements.{numbers_of};
ghost use Rattle.datatypes.specs.Combinations.{combined_values, IsLike};
ghost use Rattle.reductions.specs.Operations.{order_of, greater_by, lesser_by, logical_and, logical_or, logical_xor};
ghost use Rattle.reductions.specs.Operations.{map_after, is_defined, operation_of, combined, order_above, order_below};
ghost use Rattle.reductions.specs.Operations.{product_in, sum_in};

use crate::floats::{
    greater_32, greater_64, lesser_32, lesser_64, product_32, product_64, sum_32, sum_64,
};
use datatypes::{Buffer, LayoutRefusal, PairOp, is_signed, largest_number};
use vocabulary::{BasicType, Operation};

/// What combines two elements of one basic type.
pub trait ReduceOp {
    ghost use Rattle.std.specs.Prelude.{◌≡◌, ◌<◌, ℕ};
    ghost use Rattle.vocabulary.specs.declared.basic_type.BasicType.{BasicType};
    ghost use Rattle.datatypes.specs.Elements.{numbers_of};
    ghost use Rattle.datatypes.specs.Combinations.{combined_values, IsLike};

    ghost basic_of: { Self → BasicType };

    ghost combines: { Self → ℕ → ℕ → ℕ };

    /// The type of the elements.
    fn basic(&self) -> BasicType
        ensures { result ≡ basic_of self.now };

    /// What is made of two elements, the one of the lower rank first.
    fn combine(&self, first: u64, second: u64) -> u64
        requires first { first < numbers_of (basic_of self.now) }
        requires second { second < numbers_of (basic_of self.now) }
        ensures combined { result ≡ combines self.now first second }
        ensures within { result < numbers_of (basic_of self.now) };

    /// Combines each element of `all`, which come first, with that of `next` at the same place.
    fn combine_each(&self, all: &mut Buffer, next: &Buffer)
        requires basic { all.old.basic ≡ basic_of self.now }
        requires like { IsLike all.old.basic all.old.values next.now }
        ensures { all.new ≡
            record all.old {
              values = combined_values (combines self.now) all.old.values next.now.values;
            } };
}

/// An operation on a type on which it is defined.
#[derive(Clone, Copy, Debug)]
pub struct Reduction {
    operation: Operation,
    basic: BasicType,
    /// That the operation is defined on the type.
    pub ghost defined: { is_defined operation basic ≡ true },
}

impl Reduction {
    /// The operation on the type, refused where it is not defined there.
    pub fn new(operation: Operation, basic: BasicType) -> Result<Reduction, LayoutRefusal>
        ensures ok { IfOk result (λ r. (r.operation ≡ operation) × (r.basic ≡ basic)) }
        ensures undefined { IsErrOf result LayoutRefusal.NotDefined ↔ (is_defined operation basic ≡ false) }
        ensures err { IfErr result (λ e. e ≡ LayoutRefusal.NotDefined) }
    {
        if operation.is_defined_on(basic) {
            Ok(Reduction { operation, basic })
        } else {
            Err(LayoutRefusal::NotDefined)
        }
    }
}

/// The number modulo how many numbers the type has.
#[inline(always)]
fn modulo_type(basic: BasicType, number: u64) -> u64
    ensures { result ≡ number % numbers_of basic }
{
    let largest = largest_number(basic);
    if largest == u64::MAX {
        number
    } else {
        number % (largest + 1)
    }
}

/// The place of an element in the order of its type.
#[inline(always)]
fn order(basic: BasicType, number: u64) -> u64
    requires { number < numbers_of basic }
    ensures { result ≡ order_of basic number }
{
    if is_signed(basic) {
        let half = largest_number(basic) / 2 + 1;
        wrapped_sum(basic, number, half)
    } else {
        number
    }
}

/// The first map and then the second.
#[inline(always)]
fn both_maps(first: u64, second: u64) -> u64
    ensures { result ≡ map_after first second }
{
    let range = 0x1_0000_0000;
    let high = first / range * (second / range) % range;
    let low = (second / range * (first % range) % range + second % range) % range;
    high * range + low
}

/// The sum, modulo how many numbers the type has.
#[inline(always)]
fn wrapped_sum(basic: BasicType, first: u64, second: u64) -> u64
    ensures { result ≡ (first + second) % numbers_of basic }
{
    modulo_type(basic, first.wrapping_add(second))
}

/// The product, modulo how many numbers the type has.
#[inline(always)]
fn wrapped_product(basic: BasicType, first: u64, second: u64) -> u64
    ensures { result ≡ (first * second) % numbers_of basic }
{
    modulo_type(basic, first.wrapping_mul(second))
}

/// Whether an element comes before another one in the order of their type. Elements of at most four
/// bytes are compared as such, since more of them are then compared at once.
#[inline(always)]
fn is_before(basic: BasicType, first: u64, second: u64) -> bool
    requires first { first < numbers_of basic }
    requires second { second < numbers_of basic }
    ensures { result ≡ nat_lt (order_of basic first) (order_of basic second) }
{
    let first = order(basic, first);
    let second = order(basic, second);
    if largest_number(basic) <= 0xffff_ffff {
        (first as u32) < (second as u32)
    } else {
        first < second
    }
}

/// The greater of two elements of the type.
#[inline(always)]
fn greater(basic: BasicType, first: u64, second: u64) -> u64
    requires first { first < numbers_of basic }
    requires second { second < numbers_of basic }
    ensures { result ≡ greater_by (order_of basic) first second }
{
    if is_before(basic, first, second) {
        second
    } else {
        first
    }
}

/// The lesser of two elements of the type.
#[inline(always)]
fn lesser(basic: BasicType, first: u64, second: u64) -> u64
    requires first { first < numbers_of basic }
    requires second { second < numbers_of basic }
    ensures { result ≡ lesser_by (order_of basic) first second }
{
    if is_before(basic, second, first) {
        second
    } else {
        first
    }
}

/// 1 where both are true, else 0.
#[inline(always)]
fn both_true(first: u64, second: u64) -> u64
    ensures { result ≡ logical_and first second }
{
    if first == 0 {
        0
    } else if second == 0 {
        0
    } else {
        1
    }
}

/// 1 where one is true, else 0.
#[inline(always)]
fn one_true(first: u64, second: u64) -> u64
    ensures { result ≡ logical_or first second }
{
    if first == 0 {
        if second == 0 { 0 } else { 1 }
    } else {
        1
    }
}

/// 1 where just one is true, else 0.
#[inline(always)]
fn just_one_true(first: u64, second: u64) -> u64
    ensures { result ≡ logical_xor first second }
{
    if first == 0 {
        if second == 0 { 0 } else { 1 }
    } else if second == 0 {
        1
    } else {
        0
    }
}

/// The greater of two elements of the type; of floats a NaN, where one is a NaN.
#[inline(always)]
fn greatest(basic: BasicType, first: u64, second: u64) -> u64
    requires first { first < numbers_of basic }
    requires second { second < numbers_of basic }
    ensures { result ≡ greater_by (order_above basic) first second }
{
    match basic {
        BasicType::Float32 => greater_32(first, second),
        BasicType::Float64 => greater_64(first, second),
        _ => greater(basic, first, second),
    }
}

/// The lesser of two elements of the type; of floats a NaN, where one is a NaN.
#[inline(always)]
fn least(basic: BasicType, first: u64, second: u64) -> u64
    requires first { first < numbers_of basic }
    requires second { second < numbers_of basic }
    ensures { result ≡ lesser_by (order_below basic) first second }
{
    match basic {
        BasicType::Float32 => lesser_32(first, second),
        BasicType::Float64 => lesser_64(first, second),
        _ => lesser(basic, first, second),
    }
}

/// The sum of two elements of the type.
#[inline(always)]
fn sum_in(basic: BasicType, first: u64, second: u64) -> u64
    requires first { first < numbers_of basic }
    requires second { second < numbers_of basic }
    ensures { result ≡ sum_in basic first second }
{
    match basic {
        BasicType::Float32 => sum_32(first, second),
        BasicType::Float64 => sum_64(first, second),
        _ => wrapped_sum(basic, first, second),
    }
}

/// The product of two elements of the type.
#[inline(always)]
fn product_in(basic: BasicType, first: u64, second: u64) -> u64
    requires first { first < numbers_of basic }
    requires second { second < numbers_of basic }
    ensures { result ≡ product_in basic first second }
{
    match basic {
        BasicType::Float32 => product_32(first, second),
        BasicType::Float64 => product_64(first, second),
        _ => wrapped_product(basic, first, second),
    }
}

/// What the operation makes of two elements of the type.
#[inline(always)]
#[tactic(auto, unfolding(crate::specs::Operations::combined))]
fn combine_numbers(operation: Operation, basic: BasicType, first: u64, second: u64) -> u64
    requires first { first < numbers_of basic }
    requires second { second < numbers_of basic }
    ensures { result ≡ combined operation basic first second }
{
    match operation {
        Operation::Max => greatest(basic, first, second),
        Operation::Min => least(basic, first, second),
        Operation::Sum => sum_in(basic, first, second),
        Operation::Prod => product_in(basic, first, second),
        Operation::Land => both_true(first, second),
        Operation::Lor => one_true(first, second),
        Operation::Lxor => just_one_true(first, second),
        Operation::Band => first & second,
        Operation::Bor => first | second,
        Operation::Bxor => first ^ second,
        Operation::Affine => both_maps(first, second),
    }
}

/// The operation with this number.
#[inline(always)]
fn operation_at(number: u8) -> Operation
    ensures { result ≡ operation_of number }
{
    match number {
        1 => Operation::Max,
        2 => Operation::Min,
        3 => Operation::Sum,
        4 => Operation::Prod,
        5 => Operation::Land,
        6 => Operation::Lor,
        7 => Operation::Lxor,
        8 => Operation::Band,
        9 => Operation::Bor,
        10 => Operation::Bxor,
        _ => Operation::Affine,
    }
}

/// Combines each element of `all` with that of `next` by the operation with this number. It is
/// compiled for each operation and type: a loop without a look-up inside.
fn combine_by<const NUMBER: u8>(basic: BasicType, all: &mut Buffer, next: &Buffer)
    requires defined { is_defined (operation_of NUMBER) basic ≡ true }
    requires basic { all.old.basic ≡ basic }
    requires like { IsLike all.old.basic all.old.values next.now }
    ensures { all.new ≡
        record all.old {
          values =
              combined_values (combined (operation_of NUMBER) basic) all.old.values next.now.values;
        } }
{
    let operation = operation_at(NUMBER);
    match basic {
        BasicType::Int8 => combine_typed(operation, BasicType::Int8, all, next),
        BasicType::Int16 => combine_typed(operation, BasicType::Int16, all, next),
        BasicType::Int32 => combine_typed(operation, BasicType::Int32, all, next),
        BasicType::Int64 => combine_typed(operation, BasicType::Int64, all, next),
        BasicType::Uint8 => combine_typed(operation, BasicType::Uint8, all, next),
        BasicType::Uint16 => combine_typed(operation, BasicType::Uint16, all, next),
        BasicType::Uint32 => combine_typed(operation, BasicType::Uint32, all, next),
        BasicType::Uint64 => combine_typed(operation, BasicType::Uint64, all, next),
        BasicType::Byte => combine_typed(operation, BasicType::Byte, all, next),
        BasicType::Float32 => combine_typed(operation, BasicType::Float32, all, next),
        BasicType::Float64 => combine_typed(operation, BasicType::Float64, all, next),
    }
}

#[inline(always)]
fn combine_typed(operation: Operation, basic: BasicType, all: &mut Buffer, next: &Buffer)
    requires defined { is_defined operation basic ≡ true }
    requires basic { all.old.basic ≡ basic }
    requires like { IsLike all.old.basic all.old.values next.now }
    ensures { all.new ≡
        record all.old {
          values = combined_values (combined operation basic) all.old.values next.now.values;
        } }
{
    all.combine_with(&Reduction { operation, basic }, next);
}

impl PairOp for Reduction {
    ghost use Rattle.reductions.specs.Operations.{combined};

    ghost type_of = { λ r. r.basic };

    ghost makes = { λ r a b. combined r.operation r.basic a b };

    #[inline(always)]
    fn element_type(&self) -> BasicType {
        self.basic
    }

    #[inline(always)]
    fn apply(&self, first: u64, second: u64) -> u64 {
        combine_numbers(self.operation, self.basic, first, second)
    }
}

impl ReduceOp for Reduction {
    ghost use Rattle.reductions.specs.Operations.{combined};

    ghost basic_of = { λ r. r.basic };

    ghost combines = { λ r a b. combined r.operation r.basic a b };

    fn basic(&self) -> BasicType {
        self.basic
    }

    fn combine(&self, first: u64, second: u64) -> u64 {
        combine_numbers(self.operation, self.basic, first, second)
    }

    fn combine_each(&self, all: &mut Buffer, next: &Buffer) {
        let basic = self.basic;
        match self.operation {
            Operation::Max => combine_by::<1>(basic, all, next),
            Operation::Min => combine_by::<2>(basic, all, next),
            Operation::Sum => combine_by::<3>(basic, all, next),
            Operation::Prod => combine_by::<4>(basic, all, next),
            Operation::Land => combine_by::<5>(basic, all, next),
            Operation::Lor => combine_by::<6>(basic, all, next),
            Operation::Lxor => combine_by::<7>(basic, all, next),
            Operation::Band => combine_by::<8>(basic, all, next),
            Operation::Bor => combine_by::<9>(basic, all, next),
            Operation::Bxor => combine_by::<10>(basic, all, next),
            Operation::Affine => combine_by::<11>(basic, all, next),
        }
    }
}
