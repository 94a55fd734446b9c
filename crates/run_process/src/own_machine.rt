//! Which hosts are this machine, and at which address others reach it.

use host_files::{Host, is_own_machine};
use std::net::{Ipv4Addr, Net, SocketAddr, UdpSocket};

/// How long the name of a machine is at most.
const NAME: usize = 256;

/// A port to which nothing is sent: that of no service.
const DISCARD: u16 = 9;

/// The name of this machine.
#[derive(Drop)]
pub struct OwnName {
    room: [u8; NAME],
    size: usize,
}

impl OwnName {
    /// The name that this machine has now; empty where it can't be told.
    pub fn now() -> OwnName {
        let mut room = [0u8; NAME];
        if libc::gethostname(&mut room) != 0 {
            return OwnName { room, size: 0 };
        }
        let size = room.iter().position(|byte| *byte == 0).unwrap_or(NAME);
        OwnName { room, size }
    }

    /// Its bytes.
    fn as_bytes(&self) -> &[u8] {
        let (name, _) = self.room.split_at(self.size.min(NAME));
        name
    }
}

/// Whether this machine has an address.
pub fn has_address<R: Net>(rt: &R, address: Ipv4Addr) -> bool {
    UdpSocket::bind(rt, SocketAddr::from((address, 0u16))).is_ok()
}

/// Whether a host at this address is this machine, where its line doesn't say so.
pub fn is_here<R: Net>(rt: &R, own: &OwnName, host: &Host<'_>, address: Ipv4Addr) -> bool {
    let has_it = has_address(rt, address);
    is_own_machine(host.name, own.as_bytes(), address.is_loopback(), has_it)
}

/// The address of this machine at which another one reaches it that has this address.
pub fn address_towards<R: Net>(rt: &R, other: Ipv4Addr) -> Option<Ipv4Addr> {
    let socket = UdpSocket::bind(rt, SocketAddr::from((Ipv4Addr::UNSPECIFIED, 0u16))).ok()?;
    socket.connect(SocketAddr::from((other, DISCARD))).ok()?;
    match socket.local_addr().ok()? {
        SocketAddr::V4(place) => Some(*place.ip()),
        SocketAddr::V6(_) => None,
    }
}
