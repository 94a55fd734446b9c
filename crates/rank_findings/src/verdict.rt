//! How much runs weigh, and with which status the explorer ends.

ghost use Rattle.std.specs.Prelude.{◌≡◌};
ghost use Rattle.std.specs.List.{list_any};
ghost use Rattle.rank_findings.specs.Verdicts.{heaviest, heaviest_finding, is_cut_told, is_hint_told, is_told, status_of};
ghost use Rattle.rank_findings.specs.Verdicts.{weight_of_pass, weight_of_run};

use crate::ending::Ending;
use crate::finding::weight_at;

/// The weight of a run that is wrong, and of one of which something is left over.
const WRONG: u32 = 3;

const LEFT_OVER: u32 = 2;

/// The status where a call can't be explored.
const UNEXPLORED: u32 = 7;

#[tactic(auto, using(crate::proofs::Weights::largest_next))]
fn heaviest_finding(findings: &[u32]) -> u32
    ensures { result ≡ heaviest_finding findings.now }
{
    let mut most = 0;
    for finding in findings {
        most = weight_at(*finding).max(most);
    }
    most
}

#[tactic(auto, using(crate::proofs::Weights::largest_next))]
fn heaviest(weights: &[u32]) -> u32
    ensures { result ≡ heaviest weights.now }
{
    let mut most = 0;
    for weight in weights {
        most = (*weight).max(most);
    }
    most
}

/// How much a run weighs of which the findings of these numbers are told: as much as the heaviest of them, but that each
/// run in which not all ranks ended is wrong, unless what can't be explored ended it.
pub fn weight_of_run(ending: Ending, findings: &[u32]) -> u32
    ensures { result ≡ weight_of_run ending findings.now }
{
    if ending.is_all_ended() || ending.is_unexplored() {
        heaviest_finding(findings)
    } else {
        WRONG
    }
}

/// How much a pass weighs whose runs weigh so much: as much as the heaviest; something is left over where the program
/// went astray.
pub fn weight_of_pass(runs: &[u32], is_astray: bool) -> u32
    ensures { result ≡ weight_of_pass runs.now is_astray }
{
    let most = heaviest(runs);
    if is_astray { most.max(LEFT_OVER) } else { most }
}

fn is_any_told(passes: &[u32]) -> bool
    ensures { result ≡ list_any is_told passes.now }
{
    passes.iter().any(|weight| *weight >= LEFT_OVER)
}

/// The status of the explorer: 1 where something is wrong or left over in some pass, 7 where nothing is and some call
/// can't be explored, else 0.
pub fn status_of(passes: &[u32], is_unexplored: bool) -> u32
    ensures { result ≡ status_of passes.now is_unexplored }
{
    if is_any_told(passes) {
        1
    } else if is_unexplored {
        UNEXPLORED
    } else {
        0
    }
}

/// Whether a run is told of that was cut off when the time was over: where none came to its end, and where it made more
/// than ten times as many calls as any that did.
pub fn is_cut_told(ended: u64, calls: u64, most_calls: u64) -> bool
    ensures { result ≡ is_cut_told ended calls most_calls }
{
    ended == 0 || most_calls < calls / 10
}

/// Whether it is told that there is another pass: where nothing was wrong or left over, all calls could be explored, and
/// none was asked for.
pub fn is_hint_told(passes: &[u32], is_unexplored: bool, was_asked: bool) -> bool
    ensures { result ≡ is_hint_told passes.now is_unexplored was_asked }
{
    !was_asked && status_of(passes, is_unexplored) == 0
}
