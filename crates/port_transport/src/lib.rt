//! A rank's transport over ports: to which port each datagram goes, which acknowledgements are kept back, and which may
//! stay out since a later one says all that they say.
//!
//! What carries bytes is a `Wire`, of which this crate knows no more than it tells. So all that the transport decides
//! by itself stands in its clauses, whatever the wire is.
#![tactic(auto)]

mod traffic;
mod transport;
mod wire;

pub use transport::{PortTransport, PrintFault};
pub use wire::{Wire, WireEvent, WireFault};
