//! Errors of the system that say no more than that nothing can be done now.

ghost use Rattle.std.specs.Prelude.{◌≡◌};
ghost use Rattle.rank_process.specs.Kinds.{is_loss, is_of_network, is_transient};

use std::io::ErrorKind;

/// Whether an error of this kind says no more than that nothing can be done now: a call that would wait, or that a
/// signal interrupted.
pub(crate) fn is_transient(kind: ErrorKind) -> bool
    ensures { result ≡ is_transient kind }
{
    matches!(kind, ErrorKind::WouldBlock | ErrorKind::Interrupted)
}

/// Whether an error of this kind says of the network that it doesn't carry a datagram now: no way to the host or the
/// network, a link that is down, an address that is gone, a firewall, or nobody at the port.
pub(crate) fn is_of_network(kind: ErrorKind) -> bool
    ensures { result ≡ is_of_network kind }
{
    matches!(
        kind,
        ErrorKind::HostUnreachable
            | ErrorKind::NetworkUnreachable
            | ErrorKind::NetworkDown
            | ErrorKind::AddrNotAvailable
            | ErrorKind::ConnectionRefused
            | ErrorKind::PermissionDenied
    )
}

/// Whether an error of this kind says of a send no more than that its datagram is lost: what passes, what the network
/// says, and what has no kind of its own, as that a host is down or that the system has no room.
pub(crate) fn is_loss(kind: ErrorKind) -> bool
    ensures { result ≡ is_loss kind }
{
    is_transient(kind) || is_of_network(kind) || kind == ErrorKind::Uncategorized
}
