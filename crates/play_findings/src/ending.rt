//! How a play ended.

ghost use Rattle.std.specs.Prelude.{◌≡◌, ◌↔◌, All, IsTrue};
ghost use Rattle.play_findings.specs.Endings.{CannotGoOn, EndsSo, HasEnded, HasEndedWell};

use script_plays::{Played, RunnerState};
use world::World;

/// How a play ended.
#[derive(Clone, Copy, Debug, PartialEq, Eq)]
pub enum Verdict {
    /// All ranks have ended with status 0.
    Ended,
    /// All ranks have ended, and one of them with another status.
    Failed,
    /// No rank can go on, one waits, and nothing is on its way.
    Deadlock,
    /// A rank can go on, or something is on its way.
    UnderWay,
}

/// Whether a rank has no next step as it stands.
fn cannot_go_on(player: &Played) -> bool
    ensures { IsTrue result ↔ CannotGoOn player.now.state }
{
    match player.state() {
        RunnerState::Ready(_) => false,
        RunnerState::Blocked(_) | RunnerState::Over(_, _) => true,
    }
}

/// Whether a rank has ended with status 0.
pub(crate) fn has_ended_well(player: &Played) -> bool
    ensures { IsTrue result ↔ HasEndedWell player.now.state }
{
    match player.state() {
        RunnerState::Over(status, _) => *status == 0,
        RunnerState::Ready(_) | RunnerState::Blocked(_) => false,
    }
}

fn has_ended(player: &Played) -> bool
    ensures { IsTrue result ↔ HasEnded player.now.state }
{
    match player.state() {
        RunnerState::Over(_, _) => true,
        RunnerState::Ready(_) | RunnerState::Blocked(_) => false,
    }
}

fn have_ended_well(players: &[Played]) -> bool
    ensures { IsTrue result ↔ All (λ p. HasEndedWell p.state) players.now }
{
    players.iter().all(|player| has_ended_well(player))
}

fn have_ended(players: &[Played]) -> bool
    ensures { IsTrue result ↔ All (λ p. HasEnded p.state) players.now }
{
    players.iter().all(|player| has_ended(player))
}

fn cannot_all_go_on(players: &[Played]) -> bool
    ensures { IsTrue result ↔ All (λ p. CannotGoOn p.state) players.now }
{
    players.iter().all(|player| cannot_go_on(player))
}

/// How a play ended. `Deadlock` names a world that is quiet, in which no rank can go on and not all have ended.
pub fn verdict_of(world: &World, players: &[Played]) -> Verdict
    ensures { EndsSo world.now players.now result }
{
    if have_ended_well(players) {
        return Verdict::Ended;
    }
    if have_ended(players) {
        return Verdict::Failed;
    }
    if cannot_all_go_on(players) && world.is_quiet() {
        return Verdict::Deadlock;
    }
    Verdict::UnderWay
}
