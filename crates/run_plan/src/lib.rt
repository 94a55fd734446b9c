//! What the words of `mpirun` ask for, and what it decides as its ranks run and end.
#![tactic(auto)]

mod commands;
mod ending;
mod fault;
mod hosts;
mod options;
mod ports;
mod reading;
mod sets;
mod status;
mod symbol;

pub use commands::rank_command;
pub use ending::{EndStep, LAST_WAIT, end_step};
pub use fault::{RunFault, Wanted};
pub use hosts::{USUAL_LAUNCHER, launcher_words, set_frame, set_hosts};
pub use options::RunOptions;
pub use ports::{BLOCK, FIRST_PORT, PORT_BLOCKS, block_port, blocks_for, has_blocks};
pub use reading::{RunRequest, request_of};
pub use sets::plan_words;
pub use status::{
    Consequence, ConsequenceText, SignalText, consequence_of, is_over_time, job_status,
    rank_ending, run_status,
};
