//! The bridge from worlds of engines and datagrams to the machine of queues and groups.
//!
//! A world of engines follows the pure network with communicators: `specs/` says what joins the two (`Joined`), what
//! the machine sees of an engine's calls, replies and answers (`Seen`), what each event does to that (`Following`), how
//! a world goes on from what it followed before (`GoingOn`), why an engine alone refuses a call (`Alone`), and which
//! runs are on world alone (`OnWorld`).
#![tactic(auto)]

mod law;

pub use law::{
    engines_refuse_as_the_machine, runs_on_world_are_of_queues, worlds_are_runs, worlds_go_on,
};
