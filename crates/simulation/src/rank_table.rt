//! The ranks that a file of events has named, and what happens at one of them.

ghost use Rattle.std.specs.Prelude.{◌≡◌, ℕ, IfErr, IfOk, IsSome, OnOk};
ghost use Rattle.std.specs.BTreeMap.{get};
ghost use Rattle.std.specs.Ordering.{nat_cmp};
ghost use Rattle.simulation.specs.Beginnings.{ActBegins, BreaksOff, EntryBegins, LineBegins};
ghost use Rattle.simulation.specs.Courses.{IsOnlyAt, IsSame, names_at, scene};
ghost use Rattle.simulation.specs.Parts.{standing};
ghost use Rattle.simulation.specs.RankAnswers.{entry_in, fresh};
ghost use Rattle.simulation.specs.Turns.{ActRunsAt, CompletedRuns, LineActed};

use crate::SimulateError;
use crate::calls::{Acted, act, call_following, entry_in, next_of};
use crate::ranks::RankNames;
use event_files::EventStatement;
use statements::Action;
use std::alloc::{AllocError, Global};
use std::collections::BTreeMap;
use std::io::Write;
use vocabulary::replace;
use world::{Stepped, World};

/// What is kept of the ranks that were named, and what one begins with that is named for the first time.
#[derive(Drop)]
pub struct RankTable {
    /// From where their memory is taken.
    pub alloc: Global,
    /// How many ranks the world has.
    pub size: u16,
    /// The names of each that was named.
    pub ranks: BTreeMap<u16, RankNames>,
}

/// Sees to it that a rank stands in the table. The only error is want of memory.
#[tactic(auto, using(crate::proofs::TableLaws::same_inserted))]
pub fn begin(
    alloc: Global,
    size: u16,
    ranks: &mut BTreeMap<u16, RankNames>,
    rank: u16,
) -> Result<(), AllocError>
    ensures there { OnOk result (IsSome (get nat_cmp ranks.new rank)) }
    ensures same { OnOk result (IsSame size ranks.old.entries ranks.new.entries) }
{
    if ranks.get(&rank).is_some() {
        return Ok(());
    }
    match ranks.insert(rank, RankNames::new(alloc, size, rank)) {
        Ok(earlier) => Ok(drop(earlier)),
        Err(_) => Err(AllocError),
    }
}

/// A statement of a rank that stands in the table is done, if it can be followed.
#[tactic(auto, using(crate::proofs::TableLaws::act_at_rank, crate::proofs::StopLaws::act_at_breaks))]
pub fn act_at<W: Write>(
    world: &mut World,
    ranks: &mut BTreeMap<u16, RankNames>,
    rank: u16,
    action: Action,
    out: &mut W,
) -> Result<Acted, SimulateError>
    requires { IsSome (get nat_cmp ranks.old rank) }
    ensures ok { IfOk result (λ acted. (size : ℕ) → ActRunsAt rank action (scene size world.old ranks.old.entries)
        (W.contents out.old) (W.contents out.new) acted (scene size world.new ranks.new.entries)) }
    ensures err { IfErr result (λ e. (size : ℕ) → BreaksOff e
        (λ part. ActBegins rank action (standing world.old (names_at size ranks.old.entries rank)) part)
        (W.contents out.old) (W.contents out.new)) }
{
    match ranks.get_mut(&rank) {
        Some(names) => act(world, rank, names, action, out),
        None => {
            drop(action);
            Ok(Acted::Done)
        }
    }
}

/// A statement of a rank is done, if it can be followed.
pub fn act_in<W: Write>(
    world: &mut World,
    table: &mut RankTable,
    rank: u16,
    action: Action,
    out: &mut W,
) -> Result<Acted, SimulateError>
    ensures ok { IfOk result (λ acted. LineActed rank action
        (scene table.old.size world.old table.old.ranks.entries) (W.contents out.old) (W.contents out.new) acted
        (scene table.new.size world.new table.new.ranks.entries)) }
    ensures err { IfErr result (λ e. BreaksOff e
        (λ part. LineBegins (EventStatement.Rank rank action)
        (scene table.old.size world.old table.old.ranks.entries) part)
        (W.contents out.old) (W.contents out.new)) }
{
    let Ok(()) = begin(table.alloc, table.size, &mut table.ranks, rank) else {
        drop(action);
        return Err(SimulateError::OutOfMemory);
    };
    act_at(world, &mut table.ranks, rank, action, out)
}

/// The answer of a blocked call, if it comes with a step: the names of its rank take it, and the further calls that
/// follow are made.
#[tactic(auto, using(crate::proofs::TableLaws::completed_none, crate::proofs::TableLaws::completed_quiet, crate::proofs::TableLaws::completed_unnamed, crate::proofs::TableLaws::completed_some, crate::proofs::StopLaws::complete_first, crate::proofs::StopLaws::complete_breaks))]
pub fn complete<W: Write>(
    world: &mut World,
    ranks: &mut BTreeMap<u16, RankNames>,
    stepped: Stepped,
    out: &mut W,
) -> Result<(), SimulateError>
    ensures ok { OnOk result ((size : ℕ) → CompletedRuns (entry_in world.old stepped)
        (scene size world.old ranks.old.entries) (W.contents out.old) (W.contents out.new) (scene size world.new ranks.new.entries)) }
    ensures err { IfErr result (λ e. (size : ℕ) → BreaksOff e
        (λ part. EntryBegins (entry_in world.old stepped) (scene size world.old ranks.old.entries) part)
        (W.contents out.old) (W.contents out.new)) }
{
    let Some(entry) = entry_in(world, stepped) else {
        return Ok(());
    };
    let Some(completion) = &entry.completion else {
        return Ok(());
    };
    let rank = entry.endpoint.rank;
    match ranks.get_mut(&rank) {
        Some(names) => {
            let Ok(heard) = names.hear_completion(completion) else {
                return Err(SimulateError::OutOfMemory);
            };
            call_following(world, rank, names, next_of(heard), out)
        }
        None => Ok(()),
    }
}

/// No name is set at this rank any more, and no call is blocked.
#[tactic(auto, using(crate::proofs::TableLaws::written, crate::proofs::TableLaws::clear_unnamed))]
pub fn clear(alloc: Global, size: u16, ranks: &mut BTreeMap<u16, RankNames>, rank: u16)
    ensures { IsOnlyAt size ranks.old.entries rank (fresh size rank) ranks.new.entries }
{
    if let Some(names) = ranks.get_mut(&rank) {
        replace(names, RankNames::new(alloc, size, rank));
    }
}
