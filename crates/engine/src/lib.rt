//! One rank of a job: its calls, its datagrams and its clock.
//!
//! An engine knows no socket, no clock, no thread and no file. It takes calls, datagrams and ticks of a clock that is
//! handed in, and gives replies, completions and datagrams. Each of these events is handled whole or refused, and a
//! refusal changes nothing, but for the reset that answers a datagram for a former incarnation of the rank.
//!
//! It has four parts: a core, which knows requests and messages, by contexts and ranks of `world`; communicators, which
//! know their groups and contexts, and collectives; the payloads of collectives that are too long for a frame, which it
//! announced or which come to it in pieces; and sessions, which know bytes, numbers and time. An event goes
//! through all of them: each finds the rule or limit that it breaks, then the core and the communicators make room and
//! name the frames that they call for, then the sessions carry it out and send those frames, or find no memory, and
//! then the others do their part, which cannot fail.
//!
//! A datagram may bring more than its own frame: frames that were held behind it follow, each through all parts as one
//! that comes then, and one acknowledgement tells of all. The blocked call is answered once, at the end of that.
#![tactic(auto)]

mod calls;
mod collective_entry;
mod datagrams;
mod engine;
mod held_frames;
mod incoming_payloads;
mod judgement;
mod looks;
mod notice_kinds;
mod notices;
mod outgoing_payloads;
mod parts;
mod probes;
mod questions;
mod refused_turns;

pub use collectives::Ending;
pub use communicators::{Block, CommunicatorComparison, Entry, Question};
pub use datatypes::{Buffer, Layout};
pub use engine::Engine;
pub use engine_calls::{Call, Completion, Fact, JudgedCall, Probe, Receive, Reply, Send};
pub use incarnation::Place;
pub use payload::{Choice, Elements, Rooted};
pub use point_to_point::{HandedBack, Refusal};
pub use requests::{Answer, Outcome, Outcomes, Places, Region, Request, RequestList};
pub use sessions::{MOST_RANKS, Peer, Session};
pub use vocabulary::{Mode, Operation, Source, Status};
