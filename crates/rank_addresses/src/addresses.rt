//! Where the ranks of a job are.

ghost use Rattle.std.specs.Prelude.{◌≡◌, ◌↔◌, ◌∷◌, [], IfOk, IsTrue, map, replicate};
ghost use Rattle.std.specs.Net.Addr.{ipv4_octets};
ghost use Rattle.rank_addresses.specs.Addresses.{AreLocal, IsFromNamed, at_port, at_rank, named_rank};

use std::alloc::{AllocError, Global};
use std::net::{Ipv4Addr, SocketAddr, SocketAddrV4};

/// Where the ranks of a job are: each at a port of an address.
#[derive(Drop)]
pub struct RankAddresses {
    /// The address of each rank, in rank order.
    pub hosts: Vec<Ipv4Addr>,
    /// The port of rank 0; rank r has the port of this number and r.
    pub first_port: u16,
}

/// The rank that the header of a datagram names as the one that sent it: its bytes 6 and 7, the higher one first. None
/// where it is too short for that.
pub fn named_rank(datagram: &[u8]) -> Option<u16>
    ensures { result ≡ named_rank datagram.now }
{
    if datagram.len() < 8 {
        return None;
    }
    Some(u16::from(datagram[6]) * 256 + u16::from(datagram[7]))
}

/// So many times 127.0.0.1.
#[tactic(auto, using(crate::proofs::ListLaws::local_more))]
fn local_hosts(alloc: Global, size: u16) -> Result<Vec<Ipv4Addr>, AllocError>
    ensures { IfOk result (λ hosts. map ipv4_octets hosts.items ≡ replicate size (127 ∷ 0 ∷ 0 ∷ 1 ∷ [])) }
{
    let mut hosts = Vec::new(alloc);
    for _ in 0..size {
        hosts.push(Ipv4Addr::new(127, 0, 0, 1))?;
    }
    Ok(hosts)
}

impl RankAddresses {
    /// So many ranks, all at 127.0.0.1. Only want of memory is an error.
    pub fn local(alloc: Global, size: u16, first_port: u16) -> Result<RankAddresses, AllocError>
        ensures { IfOk result (λ all. AreLocal size first_port all) }
    {
        let hosts = local_hosts(alloc, size)?;
        Ok(RankAddresses { hosts, first_port })
    }

    /// Where a rank is; none where the job has no such rank, or no port is left for it.
    pub fn of_rank(&self, rank: u16) -> Option<SocketAddrV4>
        ensures { result ≡ at_rank self.now.hosts.items self.now.first_port rank }
    {
        let host = self.hosts.get(usize::from(rank))?;
        let port = self.first_port.checked_add(rank)?;
        Some(SocketAddrV4::new(*host, port))
    }

    /// Where the rank is that has this port; none where no rank has it.
    pub fn of_port(&self, port: u16) -> Option<SocketAddrV4>
        ensures { result ≡ at_port self.now.hosts.items self.now.first_port port }
    {
        self.of_rank(port.checked_sub(self.first_port)?)
    }

    /// Whether a datagram that came from there is of the rank that its header names: from its address and from its
    /// port.
    pub fn is_own(&self, datagram: &[u8], from: SocketAddr) -> bool
        ensures { IsTrue result ↔ IsFromNamed self.now.hosts.items self.now.first_port datagram.now from }
    {
        let Some(rank) = named_rank(datagram) else {
            return false;
        };
        match (self.of_rank(rank), from) {
            (Some(place), SocketAddr::V4(from)) => place == from,
            _ => false,
        }
    }
}
