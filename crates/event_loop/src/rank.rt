//! A rank that is driven.

ghost use Rattle.std.specs.Prelude.{◌≡◌};

use crate::loop_state::{LoopState, RunnerState};
use engine::Engine;

/// A rank that is driven.
#[derive(Drop)]
pub struct Rank<P> {
    /// Its engine.
    pub engine: Engine,
    /// What it runs.
    pub runner: P,
    /// Where it stands between two turns.
    pub(crate) state: LoopState,
}

impl<P> Rank<P> {
    /// A rank with this engine that is to run this.
    pub fn new(engine: Engine, runner: P) -> Rank<P>
        ensures engine { result.engine ≡ engine }
        ensures runner { result.runner ≡ runner }
    {
        let state = LoopState {
            runner: RunnerState::Ready(None),
            heard: 0,
            moved: 0,
        };
        Rank {
            engine,
            runner,
            state,
        }
    }
}
