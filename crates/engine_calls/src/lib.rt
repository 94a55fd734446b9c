//! What an engine's parts make of a call: before there is an engine, by its core, its communicators and its sessions.
//!
//! A call names a communicator and ranks in it; the core is asked in that communicator's context, with ranks of
//! `world`. So a call is judged by three: the core's rules, the communicator's, and the limits of the core and of the
//! sessions, in one order.
//! What breaks none is answered by the core, and its frame, if it has one, is sent. Here too are the frames of a step
//! of a collective, and the refusals of all parts as those of one engine.
#![tactic(auto)]

mod call;
mod frames;
mod judgement;
mod message_receives;
mod probes;
mod receives;
mod refusal;
mod reply;
mod sends;
mod standing;
mod waits;

pub use call::Call;
pub use frames::send_step;
pub use judgement::JudgedCall;
pub use message_receives::{judge_message, mrecv};
pub use point_to_point_calls::{Probe, Receive, Send};
pub use probes::{JudgedProbe, fault_of_look, improbe, judge_search, look};
pub use receives::{JudgedReceive, irecv, judge_receive};
pub use refusal::{of_collectives, of_rule, of_sessions};
pub use reply::{Completion, Fact, Reply};
pub use sends::{isend, judge_send};
pub use waits::{
    cancel, fault_of_cancel, fault_of_list, fault_of_wait, test, wait, waitall, waitany,
};
