//! A message that comes in pieces.

ghost use Rattle.std.specs.Prelude.{◌≡◌, ◌+◌, ◌*◌, ◌≤◌, ◌++◌, [], length, IfOk};
ghost use Rattle.vocabulary.specs.BasicTypes.{size_of};
ghost use Rattle.rendezvous.specs.Collections.{Collecting, beginning, is_from, is_next_data, is_whole, with_piece};
ghost use Rattle.rendezvous.specs.WholeMessages.{collected_of};

use crate::piece::is_next_piece;
use alike::{Alike, are_alike};
use datatypes::Buffer;
use std::alloc::Global;
use std::marker::Model;
use vocabulary::{BasicType, MessageLimit, OutOfMemory};

/// A message for which this rank asked, and of whose data so much has come.
#[derive(Drop)]
pub struct Collection {
    limit: MessageLimit,
    source: u16,
    transfer: u32,
    request: usize,
    basic: BasicType,
    total: usize,
    bytes: Vec<u8>,
}

impl Model for Collection {
    ghost use Rattle.std.specs.Prelude.{◌≡◌, ◌≤◌, ◌%◌, length, vec_capacity};
    ghost use Rattle.vocabulary.specs.BasicTypes.{size_of};
    ghost use Rattle.rendezvous.specs.Collections.{Collecting, IsBounded};

    ghost Value = { Collecting };

    ghost view = { λ c. record {
      limit = c.limit;
      source = c.source;
      transfer = c.transfer;
      request = c.request;
      basic = c.basic;
      total = c.total;
      bytes = c.bytes.items;
    } };

    ghost invariant = { λ c. IsBounded c.basic c.total c.bytes.items (vec_capacity c.bytes) };
}

/// A message whose data have all come.
#[derive(Drop)]
pub struct Collected {
    /// The key of the request that waited for it, in the rank's table of requests.
    pub request: usize,
    /// Its elements.
    pub elements: Buffer,
}

impl Collection {
    /// A message of so many elements that a rank announced in a job with this limit, of which nothing has come. The memory for all its data is
    /// taken now; it fails for want of memory alone. Data of more bytes than an address counts, which no memory holds,
    /// count as that. A message of no elements is over at its match: here no piece of it is ever due.
    pub fn new(
        alloc: Global,
        limit: MessageLimit,
        source: u16,
        transfer: u32,
        request: usize,
        basic: BasicType,
        count: usize,
    ) -> Result<Collection, OutOfMemory>
        ensures { IfOk result (λ collection. collection ≡ beginning limit source transfer request basic count) }
    {
        let Some(total) = count.checked_mul(usize::from(basic.size())) else {
            return Err(OutOfMemory {});
        };
        let Ok(bytes) = Vec::with_capacity(alloc, total) else {
            return Err(OutOfMemory {});
        };
        Ok(Collection {
            limit,
            source,
            transfer,
            request,
            basic,
            total,
            bytes,
        })
    }

    /// The rank from which it comes.
    pub fn source(&self) -> u16
        ensures { result ≡ self.now.source }
    {
        self.source
    }

    /// The key of the request that waits for it, in the rank's table of requests.
    pub fn request(&self) -> usize
        ensures { result ≡ self.now.request }
    {
        self.request
    }

    /// Whether it is the transfer from the rank that has this number.
    pub fn is_from(&self, source: u16, transfer: u32) -> bool
        ensures { result ≡ is_from source transfer self.now }
    {
        self.source == source && self.transfer == transfer
    }

    /// Whether these bytes are the next piece: they stand where the data end so far, and are as many as are due.
    pub fn is_next_data(&self, offset: u32, bytes: &[u8]) -> bool
        ensures { result ≡ is_next_data self.now offset bytes.now }
    {
        is_next_piece(self.limit, self.total, self.bytes.len(), offset, bytes)
    }

    /// Whether all data have come.
    pub fn is_whole(&self) -> bool
        ensures { result ≡ is_whole self.now }
    {
        self.bytes.len() == self.total
    }

    /// Takes the next piece, for which there is room.
    pub(crate) fn push(&mut self, bytes: &[u8])
        requires { length self.old.bytes + length bytes.now ≤ self.old.total }
        ensures { self.new ≡ with_piece self.old bytes.now }
    {
        self.bytes.extend_from_slice(bytes).unwrap();
    }

    /// The message, all of whose data have come. It takes no memory.
    pub(crate) fn into_collected(self) -> Collected
        requires { length self.bytes ≡ self.total }
        ensures { result ≡ collected_of self }
    {
        let Collection {
            limit: _,
            source: _,
            transfer: _,
            request,
            basic,
            total: _,
            bytes,
        } = self;
        Collected {
            request,
            elements: Buffer::from_bytes(basic, bytes),
        }
    }
}

impl Alike for Collection {
    fn stands_as(&self, other: &Self) -> bool {
        self.limit == other.limit
            && self.source == other.source
            && self.transfer == other.transfer
            && self.request == other.request
            && self.basic == other.basic
            && self.total == other.total
            && are_alike(&self.bytes, &other.bytes)
    }
}
