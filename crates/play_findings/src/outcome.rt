//! What came of a play.

ghost use Rattle.std.specs.Prelude.{IfOk};
ghost use Rattle.play_findings.specs.Outcomes.{IsOutcomeOf};

use crate::ending::{Verdict, verdict_of};
use script_files::Script;
use script_plays::{Move, Played, play};
use std::alloc::Global;
use world::{World, WorldRefusal};

/// What came of a play.
#[derive(Drop)]
pub struct Outcome {
    /// The world behind its last move.
    pub world: World,
    /// The ranks, as they stand then.
    pub players: Vec<Played>,
    /// How it ended.
    pub verdict: Verdict,
}

/// What comes of scripts, one for each rank, by a schedule: what `play` gives for it, and how that ended.
pub fn outcome_of(
    alloc: Global,
    scripts: Vec<Script>,
    schedule: &[Move],
) -> Result<Outcome, WorldRefusal>
    ensures { IfOk result (λ outcome. IsOutcomeOf scripts.items schedule.now outcome) }
{
    let (world, players) = play(alloc, scripts, schedule)?;
    let verdict = verdict_of(&world, &players);
    Ok(Outcome {
        world,
        players,
        verdict,
    })
}
