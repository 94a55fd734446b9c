//! Whom the ranks of a play wait for: its communicators, the collectives that were entered, the requests that are
//! unfinished, the messages that nobody received, and the words for all that.
#![tactic(auto)]

mod all_communicators;
mod cycle;
mod entered;
mod knot;
mod leftover;
mod one_communicator;
mod page;
mod waiting;
mod words;

pub use all_communicators::{Communicators, communicators_of, line_at};
pub use cycle::{Cycle, CycleArrow, add_cycle, cycle_in};
pub use entered::Entered;
pub use knot::{Knot, Wait};
pub use leftover::{Leftover, answer_of, left_of, leftovers_of};
pub use one_communicator::Group;
pub use page::Page;
pub use waiting::{Waiter, Waiting, blocked_in, requests_in, waiting_of, waits_alone};
pub use words::{add_elements, add_source, add_tag};
