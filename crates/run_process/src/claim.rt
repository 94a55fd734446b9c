//! The ports of a job that are chosen for it.

ghost use Rattle.std.specs.Prelude.{◌≡◌, ◌≤◌, IfOk, IfSome};
ghost use Rattle.run_plan.specs.Ports.{block_port};

use run_plan::{BLOCK, PORT_BLOCKS, block_port, blocks_for, has_blocks};
use std::alloc::AllocError;
use std::io;
use std::io::ErrorKind;
use std::net::{Ipv4Addr, Net, SocketAddr, TcpListener, UdpSocket};

/// How many blocks there are below the ports that a system gives to whoever asks for any.
const LOW_BLOCKS: u64 = 256;

/// Ports that no other job takes as long as this lives.
#[derive(Drop)]
pub struct Claim<R: Net> {
    /// The first of the ports.
    pub base_port: u16,
    /// How many UDP ports from there on nobody had as they were claimed.
    free: u16,
    /// What holds the TCP ports of the first number of each block; the ranks use UDP alone.
    held: Vec<R::Listener>,
}

/// A number that can't be foretold.
pub fn random_number() -> io::Result<u64> {
    let mut bytes = [0u8; 8];
    if libc::getentropy(&mut bytes) != 0 {
        return Err(io::Error::from(ErrorKind::Unsupported));
    }
    Ok(u64::from_le_bytes(bytes))
}

/// How many UDP ports from this one on nobody has now, at most so many.
fn free_ports<R: Net>(rt: &R, first: u16, most: u16) -> u16
    ensures { result ≤ most }
{
    for place in 0..most {
        let port = first.wrapping_add(place);
        if UdpSocket::bind(rt, SocketAddr::from((Ipv4Addr::LOCALHOST, port))).is_err() {
            return place;
        }
    }
    most
}

/// Claims so many blocks from this one on for a job of so many ranks; `None` where another job has one, or a port is
/// taken.
fn claim_at<R: Net + AllocGlobal>(
    rt: &R,
    first: u16,
    blocks: u16,
    size: u16,
) -> io::Result<Option<Claim<R>>>
    ensures { IfOk result (λ found. IfSome found (λ claim.
        (claim.base_port ≡ block_port first) × (size ≤ claim.free))) }
{
    if !has_blocks(first, blocks) {
        return Ok(None);
    }
    let base_port = block_port(first);
    let mut held = Vec::new(rt.alloc());
    for place in 0..blocks {
        let port = base_port.wrapping_add(place.wrapping_mul(BLOCK));
        match TcpListener::bind(rt, SocketAddr::from((Ipv4Addr::LOCALHOST, port))) {
            Ok(listener) => held.push(listener).map_err(AllocError::from)?,
            Err(_) => return Ok(None),
        }
    }
    let free = free_ports(rt, base_port, size);
    if free < size {
        return Ok(None);
    }
    Ok(Some(Claim {
        base_port,
        free,
        held,
    }))
}

/// Claims free ports for a job of so many ranks. An error where there are none.
pub fn claim_ports<R: Net + AllocGlobal>(rt: &R, size: u16) -> io::Result<Claim<R>>
    ensures { IfOk result (λ claim. size ≤ claim.free) }
{
    let blocks = blocks_for(size.min(1_024));
    let start = (random_number()? % LOW_BLOCKS) as u16;
    for step in 0..PORT_BLOCKS {
        let first = (start + step) % PORT_BLOCKS;
        if let Some(claim) = claim_at(rt, first, blocks, size)? {
            return Ok(claim);
        }
    }
    Err(io::Error::from(ErrorKind::AddrInUse))
}
