//! What links hold, and what datagrams tell of it.
//!
//! `specs/` says, from the bottom up: the links between endpoints, which carry frames as texts (`Links`), the bytes
//! under which a frame goes (`Wire`), what the sessions of a rank hold of the links (`Sessions`), what a datagram tells
//! of them (`Told`) and what bears witness of them (`Witness`), all of a whole world (`Truth`), when its sessions are
//! quiet (`Quiet`), what an event does to it (`Events`), and a delivery that hands up several frames (`Deliveries`). It
//! speaks of sessions alone, and knows nothing of requests, queues or calls, nor of what a frame means.
#![tactic(auto)]

mod law;

pub use law::{datagrams_tell_the_truth, deliveries_tell_the_truth};
