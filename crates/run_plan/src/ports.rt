//! The ports that jobs may take, in blocks: a job claims whole blocks, so that no two jobs take one port.

ghost use Rattle.std.specs.Prelude.{◌≡◌, ◌<◌, ◌≤◌, ◌*◌, ◌+◌, ◌&&◌, nat_le, nat_lt};
ghost use Rattle.run_plan.specs.Ports.{block_port, IsEnough};

/// How many ports a block has.
pub const BLOCK: u16 = 64;

/// The first port of the first block.
pub const FIRST_PORT: u16 = 16_384;

/// How many blocks there are; the last port of the last one is 61,439.
pub const PORT_BLOCKS: u16 = 704;

/// The first port of a block, counted from 0.
pub fn block_port(block: u16) -> u16
    requires { block < 704 }
    ensures { result ≡ block_port block }
{
    FIRST_PORT + block * BLOCK
}

/// Whether so many blocks are there from this one on, which is one of them.
pub fn has_blocks(first: u16, blocks: u16) -> bool
    ensures { result ≡ (nat_lt first 704 && nat_le (first + blocks) 704) }
{
    first < PORT_BLOCKS && u32::from(first) + u32::from(blocks) <= u32::from(PORT_BLOCKS)
}

/// How many blocks so many ranks take: as few as have a port for each.
pub fn blocks_for(size: u16) -> u16
    requires { size ≤ 1024 }
    ensures { IsEnough size result }
{
    (size + (BLOCK - 1)) / BLOCK
}
