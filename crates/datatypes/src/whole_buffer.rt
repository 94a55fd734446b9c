//! Elements of one basic type, all of whose bytes stand in memory.

ghost use Rattle.std.specs.Prelude.{◌≡◌, ◌%◌, ◌*◌, ◌^◌, ◌<◌, ◌≤◌, ◌++◌, ◌∷◌, [], length, take, drop, replicate};
ghost use Rattle.std.specs.Prelude.{slice_index, slice_set, OnOk, OnErr};
ghost use Rattle.datatypes.specs.Transfers.{put_at, first_places, AreNear};
ghost use Rattle.vocabulary.specs.BasicTypes.{size_of};
ghost use Rattle.datatypes.specs.Combinations.{combined_values, IsLike};
ghost use Rattle.datatypes.specs.Contents.{values_of, bytes_of, AreWithin};
ghost use Rattle.datatypes.specs.Rooms.{written_of};

use crate::bytes::{append_copies, append_number, number_at, put_number, put_over};
use crate::combination::{PairOp, combine_bytes};
use crate::store::Store;
use crate::strided::Strided;
use crate::unpacking::put_places;
use alike::{Alike, are_alike};
use derived_types::Layout;
use std::alloc::{AllocError, Global};
use std::marker::Model;
use vocabulary::BasicType;

/// Elements of one basic type, which are kept as bytes, the highest byte of each first. All their bytes stand in
/// memory, so they can be lent.
#[derive(Debug, Drop)]
pub struct WholeBuffer {
    pub(crate) basic: BasicType,
    pub(crate) bytes: Vec<u8>,
}

impl Model for WholeBuffer {
    ghost use Rattle.vocabulary.specs.BasicTypes.{size_of};
    ghost use Rattle.datatypes.specs.Contents.{Contents, values_of, AreWhole};

    ghost Value = { Contents };

    ghost view = { λ b. record { basic = b.basic; values = values_of (size_of b.basic) b.bytes.items } };

    ghost invariant = { λ b. AreWhole (size_of b.basic) b.bytes.items };
}

impl WholeBuffer {
    /// A buffer of this type with no elements.
    pub(crate) fn new(alloc: Global, basic: BasicType) -> WholeBuffer
        ensures { result ≡ record { basic = basic; values = [] } }
    {
        WholeBuffer {
            basic,
            bytes: Vec::new(alloc),
        }
    }

    /// The elements that stand in these bytes, one after the other.
    pub(crate) fn from_bytes(basic: BasicType, bytes: Vec<u8>) -> WholeBuffer
        requires { length bytes.items % size_of basic ≡ 0 }
        ensures { result ≡ record { basic = basic; values = values_of (size_of basic) bytes.items } }
    {
        WholeBuffer { basic, bytes }
    }

    /// The type of the elements.
    pub fn basic(&self) -> BasicType
        ensures { result ≡ self.now.basic }
    {
        self.basic
    }

    /// How many elements there are.
    pub fn len(&self) -> usize
        ensures { result ≡ length self.now.values }
    {
        self.bytes.len() / usize::from(self.basic.size())
    }

    /// How many bytes the elements have.
    pub fn byte_len(&self) -> usize
        ensures { result ≡ length self.now.values * size_of self.now.basic }
    {
        self.bytes.len()
    }

    /// The bytes of the elements, one after the other.
    pub fn as_bytes(&self) -> &[u8]
        ensures bytes { result.now ≡ bytes_of (size_of self.now.basic) self.now.values }
        ensures within { AreWithin (size_of self.now.basic) self.now.values }
    {
        self.bytes.as_slice()
    }

    /// Puts the elements of `front` over the first ones.
    pub(crate) fn overwrite(&mut self, front: &WholeBuffer)
        requires basic { front.now.basic ≡ self.old.basic }
        requires fits { length front.now.values ≤ length self.old.values }
        ensures { self.new ≡
            record self.old {
              values = front.now.values ++ drop (length front.now.values) self.old.values;
            } }
    {
        put_over(&mut self.bytes, front.bytes.as_slice());
    }

    /// Appends an element, given as the unsigned number that its bytes are.
    pub(crate) fn push_number(&mut self, number: u64) -> Result<(), AllocError>
        requires { number < 256 ^ size_of self.old.basic }
        ensures ok { OnOk result
            (self.new ≡ record self.old { values = self.old.values ++ number ∷ [] }) }
        ensures err { OnErr result (self.new ≡ self.old) }
    {
        let size = usize::from(self.basic.size());
        append_number(&mut self.bytes, number, size)
    }

    /// Appends an element so many times, given as the unsigned number that its bytes are.
    pub(crate) fn push_copies(&mut self, number: u64, count: usize) -> Result<(), AllocError>
        requires { number < 256 ^ size_of self.old.basic }
        ensures ok { OnOk result
            (self.new ≡
            record self.old { values = self.old.values ++ replicate count number }) }
        ensures err { OnErr result (self.new ≡ self.old) }
    {
        let size = usize::from(self.basic.size());
        append_copies(&mut self.bytes, number, size, count)
    }

    /// Puts the message at the first places of copies of the layout, in order; each other element stays as it was.
    pub(crate) fn put(&mut self, message: &WholeBuffer, layout: &Layout)
        requires basic { message.now.basic ≡ self.old.basic }
        requires some { 0 < length message.now.values → 0 < length layout.now.offsets }
        requires near { AreNear (first_places (length message.now.values) layout.now.offsets)
            (length self.old.values) }
        ensures { self.new ≡
            record self.old {
              values =
                  put_at self.old.values
                  (first_places (length message.now.values) layout.now.offsets)
                  message.now.values;
            } }
    {
        let count = message.len();
        let size = usize::from(self.basic.size());
        let strided = Strided {
            size,
            offsets: layout.offsets(),
            extent: layout.extent() as usize,
        };
        put_places(&mut self.bytes, message.bytes.as_slice(), &strided, count);
    }

    /// The element at a place, as the unsigned number that its bytes are.
    pub(crate) fn number(&self, place: usize) -> u64
        requires { place < length self.now.values }
        ensures number { result ≡ slice_index self.now.values place }
        ensures within { result < 256 ^ size_of self.now.basic }
    {
        let size = usize::from(self.basic.size());
        number_at(self.bytes.as_slice(), size, place)
    }

    /// Puts an element at a place, given as the unsigned number that its bytes are.
    pub(crate) fn set_number(&mut self, place: usize, number: u64)
        requires place { place < length self.old.values }
        requires within { number < 256 ^ size_of self.old.basic }
        ensures { self.new ≡ record self.old { values = slice_set self.old.values place number } }
    {
        let size = usize::from(self.basic.size());
        put_number(&mut self.bytes, number, size, place);
    }

    /// Keeps the first elements, so many of them, where there are more.
    pub(crate) fn truncate(&mut self, count: usize)
        ensures { self.new ≡ record self.old { values = take count self.old.values } }
    {
        if count < self.len() {
            let size = usize::from(self.basic.size());
            self.bytes.truncate(count * size);
        }
    }

    /// Puts what is made of each element, which comes first, and that of `next` at the same place in
    /// its place. It is compiled for each type that a caller's operation names.
    #[inline(always)]
    pub(crate) fn combine_with<P: PairOp>(&mut self, op: &P, next: &Store)
        requires basic { self.old.basic ≡ P.type_of op.now }
        requires like { IsLike self.old.basic self.old.values (written_of next.now) }
        ensures { self.new ≡
            record self.old {
              values = combined_values (P.makes op.now) self.old.values next.now.values;
            } }
    {
        let size = usize::from(op.element_type().size());
        combine_bytes(op, size, &mut self.bytes, next.bytes.as_slice());
    }
}

impl Alike for WholeBuffer {
    fn stands_as(&self, other: &Self) -> bool {
        self.basic == other.basic && are_alike(&self.bytes, &other.bytes)
    }
}
