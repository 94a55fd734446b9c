//! Elements of two buffers made into one, place by place.

ghost use Rattle.std.specs.Prelude.{◌≡◌, length};
ghost use Rattle.vocabulary.specs.BasicTypes.{size_of};
ghost use Rattle.datatypes.specs.Combinations.{combined_values, IsLike};
ghost use Rattle.datatypes.specs.Contents.{values_of, AreWhole};

use crate::buffer::Buffer;
use crate::bytes::{number_at, put_number_at};
use crate::whole_buffer::WholeBuffer;
use vocabulary::BasicType;

/// What makes one element of two of one basic type.
pub trait PairOp {
    ghost use Rattle.std.specs.Prelude.{◌≡◌, ◌<◌, ℕ};
    ghost use Rattle.vocabulary.specs.declared.basic_type.BasicType.{BasicType};
    ghost use Rattle.datatypes.specs.Elements.{numbers_of};

    ghost type_of: { Self → BasicType };

    ghost makes: { Self → ℕ → ℕ → ℕ };

    /// The type of the elements.
    fn element_type(&self) -> BasicType
        ensures { result ≡ type_of self.now };

    /// What is made of two elements, given as the unsigned numbers that their bytes are.
    fn apply(&self, first: u64, second: u64) -> u64
        requires first { first < numbers_of (type_of self.now) }
        requires second { second < numbers_of (type_of self.now) }
        ensures made { result ≡ makes self.now first second }
        ensures within { result < numbers_of (type_of self.now) };
}

/// Puts what is made of each element of `all` and that of `next` at the same place in its place;
/// both are given as bytes. It is compiled for each size that a caller names.
#[inline(always)]
pub fn combine_sized<P: PairOp>(op: &P, size: usize, all: &mut [u8], next: &[u8])
    requires size { size ≡ size_of (P.type_of op.now) }
    requires all { AreWhole size all.old }
    requires next { AreWhole size next.now }
    requires like { length next.now ≡ length all.old }
    ensures whole { AreWhole size all.new }
    ensures len { length all.new ≡ length all.old }
    ensures values { values_of size all.new ≡
        combined_values (P.makes op.now) (values_of size all.old) (values_of size next.now) }
{
    for place in 0..next.len() / size {
        let first = number_at(all, size, place);
        let second = number_at(next, size, place);
        let number = op.apply(first, second);
        put_number_at(all, number, size, place);
    }
}

/// Puts what is made of each element of the vector and that of `next` at the same place in its place.
#[inline(always)]
pub fn combine_bytes<P: PairOp>(op: &P, size: usize, all: &mut Vec<u8>, next: &[u8])
    requires size { size ≡ size_of (P.type_of op.now) }
    requires all { AreWhole size all.old.items }
    requires next { AreWhole size next.now }
    requires like { length next.now ≡ length all.old.items }
    ensures whole { AreWhole size all.new.items }
    ensures values { values_of size all.new.items ≡
        combined_values (P.makes op.now) (values_of size all.old.items)
        (values_of size next.now) }
{
    combine_sized(op, size, all, next);
}

/// Puts what is made of each element and that of `next` at the same place in its place. `next` may end in zeros that
/// aren't written, so its elements are looked at one by one.
pub fn combine_each<P: PairOp>(op: &P, all: &mut WholeBuffer, next: &Buffer)
    requires basic { all.old.basic ≡ P.type_of op.now }
    requires like { IsLike all.old.basic all.old.values next.now }
    ensures { all.new ≡
        record all.old {
          values = combined_values (P.makes op.now) all.old.values next.now.values;
        } }
{
    for place in 0..next.len() {
        let this = all.number(place);
        let that = next.number(place);
        let number = op.apply(this, that);
        all.set_number(place, number);
    }
}
