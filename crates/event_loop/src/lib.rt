//! The loop of a running rank. It hands the rank's engine what the clock, the transport and the runner of its script
//! give, and hands the transport what the engine emits and the lines that the runner prints, each in order.
//!
//! The loop is the same over every transport, clock and runner: the rank's program runs it over a socket, a test over
//! one in memory that fails when it is told to.
#![tactic(auto)]

mod clock;
mod driver;
mod exchange;
mod input;
mod loop_state;
mod memory;
mod output;
mod rank;
mod round;
mod runner;
mod runner_turn;
mod transport;
mod turn;

pub use clock::Clock;
pub use driver::drive;
pub use exchange::Exchange;
pub use input::RECEIVE_ROOM;
pub use loop_state::RunnerState;
pub use memory::{Memory, Rising};
pub use rank::Rank;
pub use round::Ended;
pub use runner::{Runner, RunnerStep};
pub use transport::{Transport, TransportFault};
