//! How far a rank is between two turns.

use alike::Alike;
use engine::Reply;

/// What the runner waits for.
///
/// ```text
///  ready ── the runner calls ──► answered at once ─────────────────► ready, with the reply
///    │                      └──► blocked ── a completion ──────────► ready, with it
///    ├───── it prints a line ──────────────────────────────────────► ready
///    └───── it ends ─► over ── all is acknowledged, and 100 ms without a datagram ─► the rank ends so
///  any ──── nothing moved for as long as its patience is ───────────► the rank ends (status 4)
/// ```
#[derive(Drop)]
pub enum RunnerState<C> {
    /// Nothing: it goes on, told the reply to its last call, if there was one.
    Ready(Option<Reply>),
    /// The answer of its call, which is blocked; this is kept of the call.
    Blocked(C),
    /// It has ended with this status; the line of the script where that is a faulty one.
    Over(u8, Option<usize>),
}

impl<C: Alike> Alike for RunnerState<C> {
    fn stands_as(&self, other: &Self) -> bool {
        match (self, other) {
            (RunnerState::Ready(told), RunnerState::Ready(other_told)) => told.stands_as(
                other_told,
            ),
            (RunnerState::Blocked(call), RunnerState::Blocked(other_call)) => {
                call.stands_as(other_call)
            }
            (RunnerState::Over(status, line), RunnerState::Over(other_status, other_line)) => {
                status == other_status && line == other_line
            }
            _ => false,
        }
    }
}

/// Where a rank stands between two turns.
#[derive(Drop)]
pub struct LoopState {
    /// What the runner waits for. Of a blocked call nothing is kept.
    pub runner: RunnerState<()>,
    /// When a datagram came last, in milliseconds of the rank's clock.
    pub heard: u64,
    /// When a call was answered or a datagram accepted last.
    pub moved: u64,
}

/// What a turn came to.
#[derive(Clone, Copy)]
pub struct TurnResult {
    /// Whether a datagram came.
    pub came: bool,
    /// Whether a call was answered or a datagram accepted.
    pub moved: bool,
}
