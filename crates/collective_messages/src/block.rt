//! The elements that a rank hands in.

ghost use Rattle.std.specs.Prelude.{◌≡◌, ◌<◌, ◌≤◌, ◌^◌, IfOk, IfErr, OnErr, length};
ghost use Rattle.collective_messages.specs.Entries.{elements_in};

use datatypes::Buffer;
use payload::Elements;
use std::alloc::{AllocError, Global};
use std::marker::Model;

/// The elements that a rank hands in: fewer than 2^32, so that a record can say how many.
#[derive(Drop)]
pub struct Block {
    buffer: Buffer,
}

impl Model for Block {
    ghost use Rattle.std.specs.Prelude.{◌<◌, ◌^◌, length};
    ghost use Rattle.datatypes.specs.Contents.{Contents};

    ghost Value = { Contents };

    ghost view = { λ b. b.buffer };

    ghost invariant = { λ b. length b.buffer.values < 2 ^ 32 };
}

impl Block {
    /// These elements; they come back where they are 2^32 or more.
    pub fn new(buffer: Buffer) -> Result<Block, Buffer>
        ensures ok { IfOk result (λ block. block ≡ buffer) }
        ensures err { IfErr result (λ back. back ≡ buffer) }
        ensures many { OnErr result (2 ^ 32 ≤ length buffer.values) }
    {
        if buffer.len() > u32::MAX as usize {
            return Err(buffer);
        }
        Ok(Block { buffer })
    }

    /// The elements themselves.
    pub fn buffer(&self) -> &Buffer
        ensures { result.now ≡ self.now }
    {
        &self.buffer
    }

    /// A second block of the same elements. The only error is want of memory.
    pub fn try_clone(&self, alloc: Global) -> Result<Block, AllocError>
        ensures { IfOk result (λ copy. copy ≡ self.now) }
    {
        Ok(Block {
            buffer: self.buffer.try_clone(alloc)?,
        })
    }

    /// Of which type they are, and how many.
    pub fn elements(&self) -> Elements
        ensures { result ≡ elements_in self.now }
    {
        Elements {
            basic: self.buffer.basic(),
            count: self.buffer.len() as u32,
        }
    }
}
