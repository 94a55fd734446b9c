//! Types of blocks (MPI 3.1, 4.1.2).

ghost use Rattle.std.specs.Prelude.{◌≡◌, ◌*ℤ◌, List, MatchResult};
ghost use Rattle.type_maps.specs.Constructors as constructors;
ghost use Rattle.type_maps.specs.Members.{AreMembers};
ghost use Rattle.type_maps.specs.declared.blocks.Block.{Block};
ghost use Rattle.type_maps.specs.Maps.{Map, joined};
ghost use Rattle.type_maps.specs.Refusals.{Fits, GivesIf, RefusedUnless};
ghost use Rattle.type_maps.specs.Types.{AddFits, BlocksFit, BuildsIf, IndexedFits, IsBuilt, IsTypeOf, MakesIf};
ghost use Rattle.type_maps.specs.Types.{PlacesInBytesFit, StructFits, after_blocks, in_a_row};

use crate::arithmetic::product;
use crate::blocks::Block;
use crate::building::Building;
use crate::datatype::Datatype;
use crate::refusal::Refusal;
use std::alloc::Global;

/// Adds a block of a type.
fn add_block(made: &mut Building, item: &Datatype, block: &Block) -> Result<(), Refusal>
    ensures { (m n : Map) → IsBuilt m made.old → IsTypeOf n item.now →
        BuildsIf (AddFits m n (in_a_row block.now.at block.now.length n))
        (joined m (constructors.block block.now.at block.now.length n)) made.new result }
{
    made.add(item, &item.in_a_row(block.at, block.length))
}

/// Adds blocks of one type.
fn add_blocks(made: &mut Building, item: &Datatype, blocks: &[Block]) -> Result<(), Refusal>
    ensures { (m n : Map) → IsBuilt m made.old → IsTypeOf n item.now →
        BuildsIf (BlocksFit m (constructors.blocks_with blocks.now n))
        (after_blocks m (constructors.blocks_with blocks.now n)) made.new result }
{
    for block in blocks {
        match add_block(made, item, block) {
            Ok(()) => {}
            Err(refusal) => return Err(refusal),
        }
    }
    Ok(())
}

/// A block of copies of a type.
#[derive(Clone, Copy)]
pub struct Member<'a> {
    /// How many copies, and the byte at which the first one begins.
    pub block: Block,
    /// What is copied.
    pub item: &'a Datatype,
}

/// Adds blocks of several types.
fn add_members(made: &mut Building, members: &[Member<'_>]) -> Result<(), Refusal>
    ensures { (m : Map) (parts : List (Block × Map)) → IsBuilt m made.old → AreMembers parts members.now →
        BuildsIf (BlocksFit m parts) (after_blocks m parts) made.new result }
{
    for member in members {
        match add_block(made, member.item, &member.block) {
            Ok(()) => {}
            Err(refusal) => return Err(refusal),
        }
    }
    Ok(())
}

/// A block of each type, each from its own byte on (4.1.2).
///
/// Refused where a place, the size, a bound or the extent isn't within 64 bits, and for want of memory.
pub fn struct_of(alloc: Global, members: &[Member<'_>]) -> Result<Datatype, Refusal>
    ensures { (parts : List (Block × Map)) → AreMembers parts members.now →
        MakesIf (StructFits parts) (constructors.struct_of parts) result }
{
    let mut made = Building::new(alloc);
    match add_members(&mut made, members) {
        Ok(()) => made.finish(),
        Err(refusal) => Err(refusal),
    }
}

/// A block whose place is counted in extents, as one whose place is counted in bytes.
fn block_in_bytes(block: &Block, extent: i64) -> Result<Block, Refusal>
    ensures { GivesIf (Fits (block.now.at *ℤ extent)) (constructors.block_in_bytes extent block.now) result }
{
    match product(block.at, extent) {
        Ok(at) => Ok(Block {
            length: block.length,
            at,
        }),
        Err(_) => Err(Refusal::TooLarge),
    }
}

/// Blocks whose places are counted in extents, as blocks whose places are counted in bytes.
fn blocks_in_bytes(alloc: Global, blocks: &[Block], extent: i64) -> Result<Vec<Block>, Refusal>
    ensures { MatchResult result (λ made. made.items ≡ constructors.blocks_in_bytes extent blocks.now)
        (RefusedUnless (PlacesInBytesFit extent blocks.now)) }
{
    let mut made = Vec::new(alloc);
    for block in blocks {
        match block_in_bytes(block, extent) {
            Ok(next) => {
                if made.push(next).is_err() {
                    return Err(Refusal::OutOfMemory);
                }
            }
            Err(_) => return Err(Refusal::TooLarge),
        }
    }
    Ok(made)
}

impl Datatype {
    /// Blocks of copies, each from its own byte on (4.1.2).
    ///
    /// Refused where a place, the size, a bound or the extent isn't within 64 bits, and for want of memory.
    pub fn hindexed(&self, alloc: Global, blocks: &[Block]) -> Result<Datatype, Refusal>
        ensures { (m : Map) → IsTypeOf m self.now →
            MakesIf (StructFits (constructors.blocks_with blocks.now m)) (constructors.hindexed blocks.now m) result }
    {
        let mut made = Building::new(alloc);
        match add_blocks(&mut made, self, blocks) {
            Ok(()) => made.finish(),
            Err(refusal) => Err(refusal),
        }
    }

    /// Blocks of copies, whose places are counted in extents (4.1.2).
    ///
    /// Refused as `hindexed` is, and where a place isn't within 64 bits in bytes.
    pub fn indexed(&self, alloc: Global, blocks: &[Block]) -> Result<Datatype, Refusal>
        ensures { (m : Map) → IsTypeOf m self.now →
            MakesIf (IndexedFits blocks.now m) (constructors.indexed blocks.now m) result }
    {
        match blocks_in_bytes(alloc, blocks, self.extent) {
            Ok(in_bytes) => self.hindexed(alloc, in_bytes.as_slice()),
            Err(refusal) => Err(refusal),
        }
    }
}
