//! Elements of one basic type, the last of which may be zeros that take no memory yet.

ghost use Rattle.std.specs.Prelude.{◌≡◌, ◌%◌, ◌+◌, ◌*◌, ◌^◌, ◌<◌, ◌≤◌, ◌↔◌, ◌++◌, ◌∷◌, [], length, take, drop};
ghost use Rattle.std.specs.Prelude.{replicate, slice_get, slice_index, None, IsTrue, IfOk, OnOk, OnErr};
ghost use Rattle.derived_types.specs.Layouts.{places};
ghost use Rattle.datatypes.specs.Transfers.{send_fault, receive_fault, unpack_fault, elements_at};
ghost use Rattle.datatypes.specs.Transfers.{AreNear, PackGives, UnpackGives, first_places, put_at};
ghost use Rattle.vocabulary.specs.BasicTypes.{size_of};
ghost use Rattle.datatypes.specs.Combinations.{combined_values, IsLike};
ghost use Rattle.datatypes.specs.Contents.{values_of, bytes_of, AreWithin};
ghost use Rattle.datatypes.specs.Rooms.{most_written};

use crate::bytes::append_copies;
use crate::combination::{PairOp, combine_each};
use crate::store::Store;
use crate::whole_buffer::WholeBuffer;
use alike::Alike;
use derived_types::{Layout, LayoutRefusal};
use std::alloc::{AllocError, Global};
use std::marker::Model;
use vocabulary::BasicType;

/// The most bytes of a buffer of zeros that are written at once: as many as a frame brings at most.
const MOST_WRITTEN: usize = 61_440;

/// Elements of one basic type.
///
/// Zeros of which a long buffer is made aren't written until it is packed, goes out, or changes element by element: a
/// receive costs what comes, and not its room. There is memory for all of them from the start, so writing them never
/// fails.
#[derive(Debug, Drop)]
pub struct Buffer {
    store: Store,
}

impl Model for Buffer {
    ghost use Rattle.datatypes.specs.Contents.{Contents};
    ghost use Rattle.datatypes.specs.Rooms.{all_of};

    ghost Value = { Contents };

    ghost view = { λ b. all_of b.store };
}

impl Buffer {
    /// A buffer of this type with no elements.
    pub fn new(alloc: Global, basic: BasicType) -> Buffer
        ensures { result ≡ record { basic = basic; values = [] } }
    {
        Buffer {
            store: Store::from_whole(WholeBuffer::new(alloc, basic)),
        }
    }

    /// The elements that stand in these bytes, one after the other.
    pub fn from_bytes(basic: BasicType, bytes: Vec<u8>) -> Buffer
        requires { length bytes.items % size_of basic ≡ 0 }
        ensures { result ≡ record { basic = basic; values = values_of (size_of basic) bytes.items } }
    {
        Buffer {
            store: Store::from_whole(WholeBuffer::from_bytes(basic, bytes)),
        }
    }

    /// The same elements, which are written, all of them.
    pub fn from_whole(whole: WholeBuffer) -> Buffer
        ensures { result ≡ whole }
    {
        Buffer {
            store: Store::from_whole(whole),
        }
    }

    /// So many zeros. Where they are many, memory is reserved and not written, which costs next to nothing. The only
    /// error is want of memory.
    #[tactic(auto, using(crate::proofs::RoomLaws::zero_values, crate::proofs::RoomLaws::is_appended))]
    pub fn zeros(alloc: Global, basic: BasicType, count: usize) -> Result<Buffer, AllocError>
        ensures { IfOk result (λ buffer. buffer ≡ record { basic = basic; values = replicate count 0 }) }
    {
        let len = count
            .checked_mul(usize::from(basic.size()))
            .ok_or(AllocError)?;
        if len <= MOST_WRITTEN || count > u32::MAX as usize {
            let bytes = vec![in alloc; 0u8; len]?;
            return Ok(Buffer::from_bytes(basic, bytes));
        }
        let store = Store::reserved(alloc, basic, count as u32)?;
        Ok(Buffer { store })
    }

    /// The type of the elements.
    pub fn basic(&self) -> BasicType
        ensures { result ≡ self.now.basic }
    {
        self.store.basic()
    }

    /// How many elements there are.
    #[tactic(auto, using(crate::proofs::RoomLaws::length_with_zeros))]
    pub fn len(&self) -> usize
        ensures { result ≡ length self.now.values }
    {
        self.store.len()
    }

    /// How many bytes the elements have.
    #[tactic(auto, using(crate::proofs::RoomLaws::length_with_zeros))]
    pub fn byte_len(&self) -> usize
        ensures { result ≡ length self.now.values * size_of self.now.basic }
    {
        self.store.byte_len()
    }

    /// Whether there are no elements.
    pub fn is_empty(&self) -> bool
        ensures { IsTrue result ↔ (self.now.values ≡ []) }
    {
        self.len() == 0
    }

    /// That each element has as many bytes as its type says.
    #[tactic(auto, using(crate::proofs::RoomLaws::within_zeros))]
    pub fn show_widths(&self)
        ensures { AreWithin (size_of self.now.basic) self.now.values }
    {
        let _bytes = self.store.as_bytes();
    }

    /// The bytes of a buffer that has few of them, one after the other: these always stand in memory.
    #[tactic(auto, using(crate::proofs::RoomLaws::short_written))]
    pub fn short_bytes(&self) -> &[u8]
        requires { length self.now.values * size_of self.now.basic ≤ most_written }
        ensures bytes { result.now ≡ bytes_of (size_of self.now.basic) self.now.values }
        ensures within { AreWithin (size_of self.now.basic) self.now.values }
    {
        self.store.as_bytes()
    }

    /// Appends the bytes of the elements, one after the other. The only error is want of memory.
    #[tactic(auto, using(crate::proofs::RoomLaws::bytes_of_all, crate::proofs::RoomLaws::within_zeros))]
    pub fn append_to(&self, bytes: &mut Vec<u8>) -> Result<(), AllocError>
        ensures ok { OnOk result
            (bytes.new.items ≡ bytes.old.items ++ bytes_of (size_of self.now.basic) self.now.values) }
        ensures within { AreWithin (size_of self.now.basic) self.now.values }
    {
        bytes.extend_from_slice(self.store.as_bytes())?;
        let unwritten = self.store.unwritten() as usize;
        append_copies(bytes, 0, usize::from(self.basic().size()), unwritten)?;
        Ok(())
    }

    /// So many elements from a place on, as a buffer of their own. The only error is want of memory.
    #[tactic(auto, using(crate::proofs::RoomLaws::none_left))]
    pub fn part(&self, alloc: Global, from: usize, count: usize) -> Result<Buffer, AllocError>
        requires { from + count ≤ length self.now.values }
        ensures { IfOk result
            (λ part. part ≡ record self.now { values = take count (drop from self.now.values) }) }
    {
        if self.store.unwritten() == 0 {
            let part = self.store.part(alloc, from, count)?;
            return Ok(Buffer::from_whole(part));
        }
        let whole = Store::from_whole(self.try_clone(alloc)?.into_whole());
        let part = whole.part(alloc, from, count)?;
        Ok(Buffer::from_whole(part))
    }

    /// The element at a place, as the unsigned number that its bytes are.
    pub fn get(&self, place: usize) -> Option<u64>
        ensures { result ≡ slice_get self.now.values place }
    {
        if place >= self.len() {
            return None;
        }
        Some(self.number(place))
    }

    /// A second buffer of the same elements. The only error is want of memory.
    pub fn try_clone(&self, alloc: Global) -> Result<Buffer, AllocError>
        ensures { IfOk result (λ copy. copy ≡ self.now) }
    {
        let store = self.store.try_clone(alloc)?;
        Ok(Buffer { store })
    }

    /// The same elements, all of whose bytes stand in memory.
    pub fn into_whole(self) -> WholeBuffer
        ensures { result ≡ self }
    {
        self.store.into_whole()
    }

    /// The first elements, so many of them, or all where there are no more; zeros behind them are never written.
    #[tactic(auto, using(crate::proofs::RoomLaws::take_written))]
    pub fn into_front(self, count: usize) -> WholeBuffer
        ensures { result ≡ record self { values = take count self.values } }
    {
        let store = self.store;
        let mut front = if store.written() < count {
            store.into_whole()
        } else {
            store.into_written()
        };
        front.truncate(count);
        front
    }

    /// Puts the elements of `front` over the first ones. Zeros behind them that weren't written aren't written now.
    #[tactic(auto, using(crate::proofs::RoomLaws::put_first))]
    pub fn overwrite(&mut self, front: &WholeBuffer)
        requires basic { front.now.basic ≡ self.old.basic }
        requires fits { length front.now.values ≤ length self.old.values }
        ensures { self.new ≡
            record self.old {
              values = front.now.values ++ drop (length front.now.values) self.old.values;
            } }
    {
        if self.store.written() == 0 {
            self.store.write(front);
            return;
        }
        let mut whole = self.store.take().into_whole();
        whole.overwrite(front);
        self.store = Store::from_whole(whole);
    }

    /// Appends an element, given as the unsigned number that its bytes are.
    pub fn push_number(&mut self, number: u64) -> Result<(), AllocError>
        requires { number < 256 ^ size_of self.old.basic }
        ensures ok { OnOk result
            (self.new ≡ record self.old { values = self.old.values ++ number ∷ [] }) }
        ensures err { OnErr result (self.new ≡ self.old) }
    {
        let mut whole = self.store.take().into_whole();
        let pushed = whole.push_number(number);
        self.store = Store::from_whole(whole);
        pushed
    }

    /// Appends an element so many times, given as the unsigned number that its bytes are.
    pub fn push_copies(&mut self, number: u64, count: usize) -> Result<(), AllocError>
        requires { number < 256 ^ size_of self.old.basic }
        ensures ok { OnOk result
            (self.new ≡
            record self.old { values = self.old.values ++ replicate count number }) }
        ensures err { OnErr result (self.new ≡ self.old) }
    {
        let mut whole = self.store.take().into_whole();
        let pushed = whole.push_copies(number, count);
        self.store = Store::from_whole(whole);
        pushed
    }

    /// Why so many copies of the layout can't be sent from this buffer, where they can't: the basic
    /// types differ, or the buffer is too short.
    #[tactic(auto, unfolding(crate::specs::Transfers::send_fault))]
    pub fn send_fault(&self, layout: &Layout, copies: u64) -> Option<LayoutRefusal>
        ensures { result ≡ send_fault self.now layout.now copies }
    {
        if self.basic() != layout.basic() {
            Some(LayoutRefusal::WrongType)
        } else if layout.is_too_long(copies, self.len()) {
            Some(LayoutRefusal::TooShort)
        } else {
            None
        }
    }

    /// Why nothing can be received into this buffer by so many copies of the layout, where nothing
    /// can: the basic types differ, an offset occurs twice, or the buffer is too short.
    #[tactic(auto, unfolding(crate::specs::Transfers::send_fault, crate::specs::Transfers::receive_fault))]
    pub fn receive_fault(&self, layout: &Layout, copies: u64) -> Option<LayoutRefusal>
        ensures { result ≡ receive_fault self.now layout.now copies }
    {
        if layout.has_repeats() {
            Some(LayoutRefusal::WrongType)
        } else {
            self.send_fault(layout, copies)
        }
    }

    /// The elements at the places of so many copies of the layout, in order (MPI 3.1, 4.1.11).
    ///
    /// Refused where the basic types differ, where this buffer is too short, and for want of memory.
    pub fn pack(&self, alloc: Global, layout: &Layout, copies: u64) -> Result<Buffer, LayoutRefusal>
        ensures { PackGives (send_fault self.now layout.now copies) self.now
            (places copies layout.now.offsets) result }
    {
        match self.send_fault(layout, copies) {
            Some(refusal) => Err(refusal),
            None => match self.packed(alloc, layout, copies) {
                Ok(packed) => Ok(packed),
                Err(_) => Err(LayoutRefusal::OutOfMemory),
            },
        }
    }

    #[tactic(auto, using(crate::proofs::RoomLaws::none_left))]
    fn packed(&self, alloc: Global, layout: &Layout, copies: u64) -> Result<Buffer, AllocError>
        requires { send_fault self.now layout.now copies ≡ None }
        ensures { IfOk result
            (λ packed.
            packed ≡
            record {
              basic = self.now.basic;
              values =
                  elements_at self.now.values (places copies layout.now.offsets);
            }) }
    {
        if self.store.unwritten() == 0 {
            let packed = self.store.packed(alloc, layout, copies)?;
            return Ok(Buffer::from_whole(packed));
        }
        let whole = Store::from_whole(self.try_clone(alloc)?.into_whole());
        let packed = whole.packed(alloc, layout, copies)?;
        Ok(Buffer::from_whole(packed))
    }

    /// Puts the message at the first places of so many copies of the layout, in order; each other
    /// element stays as it was (MPI 3.1, 3.2.4 and 4.1.11). A message that is longer than the places
    /// is the caller's to end.
    ///
    /// Refused where the basic types differ, where an offset occurs twice, and where this buffer is
    /// too short; then it stays as it was.
    #[tactic(auto, unfolding(crate::specs::Transfers::unpack_fault))]
    pub fn unpack(
        &mut self,
        message: &WholeBuffer,
        layout: &Layout,
        copies: u64,
    ) -> Result<(), LayoutRefusal>
        requires { length message.now.values ≤ length (places copies layout.now.offsets) }
        ensures { UnpackGives (unpack_fault message.now self.old layout.now copies) self.old
            (places copies layout.now.offsets) message.now.values result self.new }
    {
        if message.basic() != self.basic() {
            return Err(LayoutRefusal::WrongType);
        }
        match self.receive_fault(layout, copies) {
            Some(refusal) => Err(refusal),
            None => {
                self.put(message, layout);
                Ok(())
            }
        }
    }

    fn put(&mut self, message: &WholeBuffer, layout: &Layout)
        requires basic { message.now.basic ≡ self.old.basic }
        requires some { 0 < length message.now.values → 0 < length layout.now.offsets }
        requires near { AreNear (first_places (length message.now.values) layout.now.offsets)
            (length self.old.values) }
        ensures { self.new ≡
            record self.old {
              values =
                  put_at self.old.values
                  (first_places (length message.now.values) layout.now.offsets)
                  message.now.values;
            } }
    {
        let mut whole = self.store.take().into_whole();
        whole.put(message, layout);
        self.store = Store::from_whole(whole);
    }

    /// The element at a place, as the unsigned number that its bytes are.
    #[tactic(auto, using(crate::proofs::RoomLaws::number_written, crate::proofs::RoomLaws::number_behind))]
    pub fn number(&self, place: usize) -> u64
        requires { place < length self.now.values }
        ensures number { result ≡ slice_index self.now.values place }
        ensures within { result < 256 ^ size_of self.now.basic }
    {
        if place < self.store.written() {
            self.store.number(place)
        } else {
            0
        }
    }

    /// Puts what is made of each element, which comes first, and that of `next` at the same place in
    /// its place. It is compiled for each type that a caller's operation names.
    #[tactic(auto, using(crate::proofs::RoomLaws::none_left))]
    #[inline(always)]
    pub fn combine_with<P: PairOp>(&mut self, op: &P, next: &Buffer)
        requires basic { self.old.basic ≡ P.type_of op.now }
        requires like { IsLike self.old.basic self.old.values next.now }
        ensures { self.new ≡
            record self.old {
              values = combined_values (P.makes op.now) self.old.values next.now.values;
            } }
    {
        let mut whole = self.store.take().into_whole();
        if next.store.unwritten() == 0 {
            whole.combine_with(op, &next.store);
        } else {
            combine_each(op, &mut whole, next);
        }
        self.store = Store::from_whole(whole);
    }
}

impl Alike for Buffer {
    fn stands_as(&self, other: &Self) -> bool {
        self.store.stands_as(&other.store)
    }
}
