//! The blocks of what a root scatters.

ghost use Rattle.std.specs.Prelude.{◌≡◌, ◌≤◌, ◌+◌, ◌*◌, length, IfOk};
ghost use Rattle.collective_progress.specs.Blocks.{block_at};

use datatypes::Buffer;
use std::alloc::{AllocError, Global};

/// The block of the member with this rank in the communicator, of what a root scatters (MPI 3.1, 5.6): so many
/// elements, which stand behind those of the members before it.
pub fn block_at(alloc: Global, all: &Buffer, place: u16, count: u32) -> Result<Buffer, AllocError>
    requires { place * count + count ≤ length all.now.values }
    ensures { IfOk result
        (λ block. block ≡ record { basic = all.now.basic; values = block_at place count all.now.values }) }
{
    let count = count as usize;
    all.part(alloc, usize::from(place) * count, count)
}
