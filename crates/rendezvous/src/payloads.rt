//! A payload that was announced, one that comes in pieces, and one that has come whole.

ghost use Rattle.std.specs.Prelude.{◌≡◌, ◌+◌, ◌≤◌, ◌++◌, [], length, IfOk};
ghost use Rattle.vocabulary.specs.Limits.{greatest_limit};
ghost use Rattle.rendezvous.specs.Payloads.{cut_to, is_from, is_to, is_whole, is_next_data, whole_of};
ghost use Rattle.rendezvous.specs.Payloads.{with_piece};

use crate::piece::is_next_piece;
use alike::{Alike, are_alike};
use std::alloc::Global;
use std::marker::Model;
use vocabulary::{MessageLimit, OutOfMemory};

/// A payload that this rank announced, kept until its receiver asks for it.
#[derive(Drop)]
pub struct AnnouncedPayload {
    target: u16,
    transfer: u32,
    bytes: Vec<u8>,
}

impl Model for AnnouncedPayload {
    ghost use Rattle.std.specs.Prelude.{◌≤◌, length};
    ghost use Rattle.vocabulary.specs.Limits.{greatest_limit};
    ghost use Rattle.rendezvous.specs.Payloads.{Announced};

    ghost Value = { Announced };

    ghost view = { λ p. record { target = p.target; transfer = p.transfer; bytes = p.bytes.items } };

    ghost invariant = { λ p. length p.bytes.items ≤ greatest_limit };
}

impl AnnouncedPayload {
    /// A payload of at most 2,147,483,647 bytes for a rank, under the number of its transfer.
    pub fn new(target: u16, transfer: u32, bytes: Vec<u8>) -> Self
        requires { length bytes.items ≤ greatest_limit }
        ensures { result ≡ record { target = target; transfer = transfer; bytes = bytes.items } }
    {
        AnnouncedPayload {
            target,
            transfer,
            bytes,
        }
    }

    /// Whether it is the transfer to the rank that has this number.
    pub fn is_to(&self, target: u16, transfer: u32) -> bool
        ensures { result ≡ is_to target transfer self.now }
    {
        self.target == target && self.transfer == transfer
    }

    /// The rank to which it goes.
    pub fn target(&self) -> u16
        ensures { result ≡ self.now.target }
    {
        self.target
    }

    /// Its bytes: at most 2,147,483,647.
    pub fn bytes(&self) -> &[u8]
        ensures bytes { result.now ≡ self.now.bytes }
        ensures limit { length self.now.bytes ≤ greatest_limit }
    {
        &self.bytes
    }
}

/// A payload for which this rank asked, and of which so much has come.
#[derive(Drop)]
pub struct ComingPayload {
    limit: MessageLimit,
    source: u16,
    transfer: u32,
    context: u64,
    number: u32,
    total: usize,
    bytes: Vec<u8>,
}

impl Model for ComingPayload {
    ghost use Rattle.std.specs.Prelude.{vec_capacity};
    ghost use Rattle.rendezvous.specs.Payloads.{Coming, IsBounded};

    ghost Value = { Coming };

    ghost view = { λ p. record {
      limit = p.limit;
      source = p.source;
      transfer = p.transfer;
      context = p.context;
      number = p.number;
      total = p.total;
      bytes = p.bytes.items;
    } };

    ghost invariant = { λ p. IsBounded p.total p.bytes.items (vec_capacity p.bytes) };
}

/// A payload that has come whole with its last piece, taken out of those that come. It stands in the memory that was
/// taken for it when it began to come, so it can be put back as it was before that piece.
#[derive(Drop)]
pub struct WholePayload {
    place: usize,
    came: usize,
    payload: ComingPayload,
}

impl Model for WholePayload {
    ghost use Rattle.rendezvous.specs.Payloads.{Taken, cut_to, whole_of};

    ghost Value = { Taken };

    ghost view = { λ p. record {
      place = p.place;
      before = cut_to p.came p.payload;
      whole = whole_of p.payload;
    } };
}

impl ComingPayload {
    /// A payload of so many bytes that a rank announced in a job with this limit, of which nothing has come: it is of the collective of this
    /// number on the communicator of this context. The memory for all its bytes is taken now; it fails for want of
    /// memory alone.
    pub fn new(
        alloc: Global,
        limit: MessageLimit,
        source: u16,
        transfer: u32,
        context: u64,
        number: u32,
        total: usize,
    ) -> Result<Self, OutOfMemory>
        ensures { IfOk result
            (λ payload. payload ≡ record {
              limit = limit;
              source = source;
              transfer = transfer;
              context = context;
              number =
                  number;
              total = total;
              bytes = [];
            }) }
    {
        let Ok(bytes) = Vec::with_capacity(alloc, total) else {
            return Err(OutOfMemory {});
        };
        Ok(ComingPayload {
            limit,
            source,
            transfer,
            context,
            number,
            total,
            bytes,
        })
    }

    /// The rank from which it comes.
    pub fn source(&self) -> u16
        ensures { result ≡ self.now.source }
    {
        self.source
    }

    /// The number of its transfer.
    pub fn transfer(&self) -> u32
        ensures { result ≡ self.now.transfer }
    {
        self.transfer
    }

    /// Whether it is the transfer from the rank that has this number.
    pub fn is_from(&self, source: u16, transfer: u32) -> bool
        ensures { result ≡ is_from source transfer self.now }
    {
        self.source == source && self.transfer == transfer
    }

    /// Whether these bytes are the next piece: they stand where those that have come end, and are as many as are due.
    pub fn is_next_data(&self, offset: u32, bytes: &[u8]) -> bool
        ensures { result ≡ is_next_data self.now offset bytes.now }
    {
        is_next_piece(self.limit, self.total, self.bytes.len(), offset, bytes)
    }

    /// Whether all its bytes have come once these have.
    pub(crate) fn is_last(&self, bytes: &[u8]) -> bool
        ensures { result ≡ is_whole (with_piece self.now bytes.now) }
    {
        bytes.len() == self.total - self.bytes.len()
    }

    /// Whether all its bytes have come.
    pub fn is_whole(&self) -> bool
        ensures { result ≡ is_whole self.now }
    {
        self.bytes.len() == self.total
    }

    /// Takes the next piece, for which there is room.
    pub(crate) fn push(&mut self, bytes: &[u8])
        requires { length self.old.bytes + length bytes.now ≤ self.old.total }
        ensures { self.new ≡ with_piece self.old bytes.now }
    {
        self.bytes.extend_from_slice(bytes).unwrap();
    }

    /// Of its bytes only so many are left.
    fn truncate(&mut self, count: usize)
        ensures { self.new ≡ cut_to count self.old }
    {
        self.bytes.truncate(count);
    }
}

impl WholePayload {
    /// A payload that stood at a place, with its last piece, for which there is room.
    pub(crate) fn new(place: usize, mut payload: ComingPayload, bytes: &[u8]) -> Self
        requires { length payload.bytes + length bytes.now ≤ payload.total }
        ensures { result ≡ record { place = place; before = payload; whole = whole_of (with_piece payload bytes.now) } }
    {
        let came = payload.bytes.len();
        payload.push(bytes);
        WholePayload {
            place,
            came,
            payload,
        }
    }

    /// The context of the communicator.
    pub fn context(&self) -> u64
        ensures { result ≡ self.now.whole.context }
    {
        self.payload.context
    }

    /// The number of the collective on the communicator.
    pub fn number(&self) -> u32
        ensures { result ≡ self.now.whole.number }
    {
        self.payload.number
    }

    /// Its bytes, of which the first 16 are the record of the collective.
    pub fn bytes(&self) -> &[u8]
        ensures { result.now ≡ self.now.whole.bytes }
    {
        &self.payload.bytes
    }

    /// The place at which it stood.
    pub(crate) fn place(&self) -> usize
        ensures { result ≡ self.now.place }
    {
        self.place
    }

    /// What it was before its last piece.
    pub(crate) fn into_before(self) -> ComingPayload
        ensures { result ≡ self.before }
    {
        let mut payload = self.payload;
        payload.truncate(self.came);
        payload
    }
}

impl Alike for AnnouncedPayload {
    fn stands_as(&self, other: &Self) -> bool {
        self.target == other.target
            && self.transfer == other.transfer
            && are_alike(&self.bytes, &other.bytes)
    }
}

impl Alike for ComingPayload {
    fn stands_as(&self, other: &Self) -> bool {
        self.limit == other.limit
            && self.source == other.source
            && self.transfer == other.transfer
            && self.context == other.context
            && self.number == other.number
            && self.total == other.total
            && are_alike(&self.bytes, &other.bytes)
    }
}
