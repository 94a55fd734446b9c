//! Members' blocks, one after the other.

ghost use Rattle.std.specs.Prelude.{◌≡◌, ◌%◌, length, IfOk};
ghost use Rattle.collective_progress.specs.Blocks.{blocks_known, joined_values};
ghost use Rattle.datatypes.specs.Contents.{values_of};
ghost use Rattle.vocabulary.specs.BasicTypes.{size_of};

use crate::seat::Seat;
use datatypes::Buffer;
use std::alloc::{AllocError, Global};

/// The bytes of what the members with these ranks handed in, one after the other.
fn joined_bytes<'a>(
    alloc: Global,
    seat: &Seat<'a>,
    mine: &'a Buffer,
    ranks: &[u16],
) -> Result<Vec<u8>, AllocError>
    ensures values { IfOk result (λ bytes. values_of (size_of mine.now.basic) bytes.items ≡
        joined_values
        (blocks_known seat.now.own mine.now seat.now.inside.now.incarnation seat.now.inside.now.context
        seat.now.inside.now.number seat.now.notes.now ranks.now)) }
    ensures whole { IfOk result (λ bytes. length bytes.items % size_of mine.now.basic ≡ 0) }
{
    let mut bytes = Vec::new(alloc);
    for rank in ranks {
        if let Some(block) = seat.block_known(mine, *rank) {
            block.append_to(&mut bytes)?;
        }
    }
    Ok(bytes)
}

impl<'a> Seat<'a> {
    /// What the members with these ranks handed in, one after the other (MPI 3.1, 5.5). What isn't known of a member
    /// is left out: ask `are_known` first.
    pub fn concatenation_of(
        &self,
        alloc: Global,
        mine: &'a Buffer,
        ranks: &[u16],
    ) -> Result<Buffer, AllocError>
        ensures { IfOk result
            (λ all. all ≡
            record {
              basic = mine.now.basic;
              values =
                  joined_values
                  (blocks_known self.now.own mine.now self.now.inside.now.incarnation self.now.inside.now.context
                  self.now.inside.now.number self.now.notes.now ranks.now);
            }) }
    {
        let bytes = joined_bytes(alloc, self, mine, ranks)?;
        Ok(Buffer::from_bytes(mine.basic(), bytes))
    }
}
