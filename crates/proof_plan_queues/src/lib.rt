//! The queues of the laws of plans are those of the machine of perfect queues, for one context and one tag.
//!
//! `specs/Lines.antt` says what an endpoint has of a line; the law is `lines_are_plan_queues`.
#![tactic(auto)]

mod law;

pub use law::lines_are_plan_queues;
