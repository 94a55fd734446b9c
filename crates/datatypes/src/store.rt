//! Elements that stand in memory, and zeros behind them that aren't written.

ghost use Rattle.std.specs.Prelude.{◌≡◌, ◌+◌, ◌-◌, ◌*◌, ◌^◌, ◌<◌, ◌≤◌, ◌++◌, [], length, take, drop, slice_index};
ghost use Rattle.std.specs.Prelude.{None, IfOk};
ghost use Rattle.derived_types.specs.Layouts.{places};
ghost use Rattle.datatypes.specs.Transfers.{send_fault, elements_at};
ghost use Rattle.vocabulary.specs.BasicTypes.{size_of};
ghost use Rattle.datatypes.specs.Contents.{bytes_of, AreWithin};
ghost use Rattle.datatypes.specs.Rooms.{all_of, most_written, store_of, written_of};

use crate::bytes::{append_reserved, append_zeros, copy_with_room, number_at};
use crate::packing::{pack_bytes, run};
use crate::strided::Strided;
use crate::whole_buffer::WholeBuffer;
use alike::{Alike, are_alike};
use derived_types::Layout;
use std::alloc::{AllocError, Global};
use std::marker::Model;
use std::mem;
use vocabulary::BasicType;

/// Elements that stand in memory, and zeros behind them that aren't written, with memory for them. The system gives
/// memory to a process once something is written there, so what is reserved alone costs next to nothing.
#[derive(Debug, Drop)]
pub struct Store {
    pub(crate) basic: BasicType,
    unwritten: u32,
    pub(crate) bytes: Vec<u8>,
}

impl Model for Store {
    ghost use Rattle.std.specs.Vec.{vec_capacity};
    ghost use Rattle.vocabulary.specs.BasicTypes.{size_of};
    ghost use Rattle.datatypes.specs.Contents.{values_of};
    ghost use Rattle.datatypes.specs.Rooms.{StoreState, IsStored};

    ghost Value = { StoreState };

    ghost view = { λ s. record {
      basic = s.basic;
      values = values_of (size_of s.basic) s.bytes.items;
      unwritten = s.unwritten;
    } };

    ghost invariant = { λ s. IsStored (size_of s.basic) s.unwritten s.bytes.items (vec_capacity s.bytes) };
}

impl Store {
    /// Elements that are written, all of them.
    pub fn from_whole(whole: WholeBuffer) -> Store
        ensures { result ≡ store_of whole }
    {
        let WholeBuffer { basic, bytes } = whole;
        Store {
            basic,
            unwritten: 0,
            bytes,
        }
    }

    /// So many zeros, none of which is written: many bytes. The only error is want of memory.
    pub fn reserved(alloc: Global, basic: BasicType, unwritten: u32) -> Result<Store, AllocError>
        requires { most_written < unwritten * size_of basic }
        ensures { IfOk result (λ store. store ≡ record { basic = basic; values = []; unwritten = unwritten }) }
    {
        let bytes = Vec::with_capacity(alloc, unwritten as usize * usize::from(basic.size()))?;
        Ok(Store {
            basic,
            unwritten,
            bytes,
        })
    }

    /// The type of the elements.
    pub fn basic(&self) -> BasicType
        ensures { result ≡ self.now.basic }
    {
        self.basic
    }

    /// How many elements are zeros that aren't written.
    pub fn unwritten(&self) -> u32
        ensures { result ≡ self.now.unwritten }
    {
        self.unwritten
    }

    /// How many elements are written.
    pub fn written(&self) -> usize
        ensures { result ≡ length self.now.values }
    {
        self.bytes.len() / usize::from(self.basic.size())
    }

    /// How many elements there are.
    pub fn len(&self) -> usize
        ensures { result ≡ length self.now.values + self.now.unwritten }
    {
        self.written() + self.unwritten as usize
    }

    /// How many bytes they have.
    pub fn byte_len(&self) -> usize
        ensures { result ≡ (length self.now.values + self.now.unwritten) * size_of self.now.basic }
    {
        self.bytes.len() + self.unwritten as usize * usize::from(self.basic.size())
    }

    /// The bytes of those that are written, one after the other. Where others aren't written, all have many bytes.
    pub fn as_bytes(&self) -> &[u8]
        ensures bytes { result.now ≡ bytes_of (size_of self.now.basic) self.now.values }
        ensures within { AreWithin (size_of self.now.basic) self.now.values }
        ensures many { 0 < self.now.unwritten →
            most_written < (length self.now.values + self.now.unwritten) * size_of self.now.basic }
    {
        self.bytes.as_slice()
    }

    /// One that is written, as the unsigned number that its bytes are.
    pub fn number(&self, place: usize) -> u64
        requires { place < length self.now.values }
        ensures number { result ≡ slice_index self.now.values place }
        ensures within { result < 256 ^ size_of self.now.basic }
    {
        let size = usize::from(self.basic.size());
        number_at(self.bytes.as_slice(), size, place)
    }

    /// A second store of the same elements. The only error is want of memory.
    pub fn try_clone(&self, alloc: Global) -> Result<Store, AllocError>
        ensures { IfOk result (λ copy. copy ≡ self.now) }
    {
        let bytes = copy_with_room(alloc, self.bytes.as_slice(), self.byte_len())?;
        Ok(Store {
            basic: self.basic,
            unwritten: self.unwritten,
            bytes,
        })
    }

    /// So many of those that are written, from a place on. The only error is want of memory.
    pub fn part(&self, alloc: Global, from: usize, count: usize) -> Result<WholeBuffer, AllocError>
        requires { from + count ≤ length self.now.values }
        ensures { IfOk result
            (λ part. part ≡
            record { basic = self.now.basic; values = take count (drop from self.now.values) }) }
    {
        let size = usize::from(self.basic.size());
        let there = run(self.bytes.as_slice(), from * size, count * size);
        let bytes = Vec::from_slice(alloc, there)?;
        Ok(WholeBuffer {
            basic: self.basic,
            bytes,
        })
    }

    /// The elements at the places of so many copies of the layout, in order; all of them are written. The only error is
    /// want of memory.
    pub fn packed(
        &self,
        alloc: Global,
        layout: &Layout,
        copies: u64,
    ) -> Result<WholeBuffer, AllocError>
        requires { send_fault (written_of self.now) layout.now copies ≡ None }
        ensures { IfOk result
            (λ packed.
            packed ≡
            record {
              basic = self.now.basic;
              values =
                  elements_at self.now.values (places copies layout.now.offsets);
            }) }
    {
        let size = usize::from(self.basic.size());
        let strided = Strided {
            size,
            offsets: layout.offsets(),
            extent: layout.extent() as usize,
        };
        let bytes = pack_bytes(alloc, self.bytes.as_slice(), &strided, copies as usize)?;
        Ok(WholeBuffer {
            basic: self.basic,
            bytes,
        })
    }

    /// Writes elements where zeros aren't written, behind those that are.
    pub fn write(&mut self, next: &WholeBuffer)
        requires basic { next.now.basic ≡ self.old.basic }
        requires fits { length next.now.values ≤ self.old.unwritten }
        ensures { self.new ≡
            record {
              basic = self.old.basic;
              values = self.old.values ++ next.now.values;
              unwritten = self.old.unwritten - length next.now.values;
            } }
    {
        append_reserved(&mut self.bytes, next.bytes.as_slice());
        self.unwritten -= next.len() as u32;
    }

    /// Takes all elements out.
    pub fn take(&mut self) -> Store
        ensures { result ≡ self.old }
    {
        let alloc = *self.bytes.allocator();
        let none = Store::from_whole(WholeBuffer::new(alloc, self.basic));
        mem::replace(self, none)
    }

    /// Those that are written alone.
    pub fn into_written(self) -> WholeBuffer
        ensures { result ≡ written_of self }
    {
        WholeBuffer {
            basic: self.basic,
            bytes: self.bytes,
        }
    }

    /// All elements, each of which is written.
    pub fn into_whole(self) -> WholeBuffer
        ensures { result ≡ all_of self }
    {
        let Store {
            basic,
            unwritten,
            mut bytes,
        } = self;
        append_zeros(&mut bytes, unwritten as usize * usize::from(basic.size()));
        WholeBuffer { basic, bytes }
    }
}

impl Alike for Store {
    fn stands_as(&self, other: &Self) -> bool {
        self.basic == other.basic
            && self.unwritten == other.unwritten
            && are_alike(&self.bytes, &other.bytes)
    }
}
