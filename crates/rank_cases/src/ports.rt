//! Ports of this machine that nobody has.

use std::io;
use std::io::ErrorKind;
use std::net::{Ipv4Addr, Net, SocketAddr, UdpSocket};
use std::time::{Clock, UNIX_EPOCH};

/// A socket that has this port.
pub fn socket_at<R: Net>(rt: &R, port: u16) -> io::Result<UdpSocket> {
    UdpSocket::bind(rt, SocketAddr::from((Ipv4Addr::LOCALHOST, port)))
}

/// A port from which to look for free ones: by the time, so that two who look at one moment hardly look at the same.
fn first_port<R: Clock>(rt: &R) -> io::Result<u16> {
    let time = UNIX_EPOCH.elapsed(rt)?;
    let pair = (time.subsec_micros() % 10_000) as u16;
    Ok(20_000 + 2 * pair)
}

/// Whether nobody has this port now.
fn is_free<R: Net>(rt: &R, port: u16) -> bool {
    socket_at(rt, port).is_ok()
}

/// The first of four ports side by side that nobody has now.
pub fn free_ports<R: Net + Clock>(rt: &R) -> io::Result<u16> {
    for port in first_port(rt)?..60_000 {
        if is_free(rt, port)
            && is_free(rt, port + 1)
            && is_free(rt, port + 2)
            && is_free(rt, port + 3)
        {
            return Ok(port);
        }
    }
    Err(io::Error::from(ErrorKind::AddrInUse))
}
