//! Running the script of a rank.

ghost use Rattle.std.specs.Prelude.{◌≡◌, ◌≢◌, [], IfOk, IsTrue, OnErr, is_some, length, ℕ};
ghost use Rattle.line_diagnostics.specs.Lacks.{lack_of_statement};
ghost use Rattle.interpreter.specs.NamesState.{holdings};
ghost use Rattle.script_runner.specs.ScriptRanks.{heeds, states};
ghost use Rattle.script_runner.specs.ScriptSteps.{IsMore, along, does_after, next_of, opening};
ghost use Rattle.script_runner.specs.Positions.{StopsWhere};

use crate::ScriptRank;
use alike::Alike;
use engine::Reply;
use event_loop::{Runner, RunnerStep};
use line_diagnostics::LineFault;
use script_files::{RankLines, Script, ScriptStatement};
use std::alloc::{AllocError, Global};
use std::marker::Model;

/// A rank that runs a script: the lines that are left, what its names stand for, and what it waits for.
pub struct ScriptRunner {
    lines: RankLines,
    rank: ScriptRank,
}

/// A drop of its own is proved here alone, and not in each crate above.
impl Drop for ScriptRunner {
    fn drop(self) {
        let ScriptRunner { lines, rank } = self;
        drop(lines);
        drop(rank);
    }
}

impl Model for ScriptRunner {
    ghost use Rattle.script_runner.specs.ScriptSteps.{ScriptState};

    ghost Value = { ScriptState };

    ghost view = { λ r. record { lines = r.lines; rank = r.rank } };
}

/// The next line that asks for more than a change of names is done; behind the last one the script ends with status 0.
fn go_on(lines: &mut RankLines, rank: &mut ScriptRank) -> Result<RunnerStep, AllocError>
    ensures does { IfOk result (λ step. along lines.old rank.old ≡ (step, record { lines = lines.new; rank = rank.new })) }
    ensures memory { OnErr result (lines.old ≢ []) }
{
    while let Some(line) = lines.next() {
        if let Some(step) = rank.act(line)? {
            return Ok(step);
        }
    }
    Ok(RunnerStep::End(0, None))
}

/// What follows from an answer at once, or else what comes next.
fn go_on_after(
    lines: &mut RankLines,
    rank: &mut ScriptRank,
    reply: Reply,
) -> Result<RunnerStep, AllocError>
    ensures { IfOk result (λ step. does_after lines.old (heeds reply rank.old) ≡
        (step, record { lines = lines.new; rank = rank.new })) }
{
    if let Some(step) = rank.on_reply(reply)? {
        return Ok(step);
    }
    go_on(lines, rank)
}

fn go_on_told(
    lines: &mut RankLines,
    rank: &mut ScriptRank,
    reply: Option<Reply>,
) -> Result<RunnerStep, AllocError>
    ensures does { IfOk result (λ step. next_of (record { lines = lines.old; rank = rank.old }) reply ≡
        (step, record { lines = lines.new; rank = rank.new })) }
    ensures memory { OnErr result (IsMore lines.old reply) }
{
    match reply {
        Some(reply) => go_on_after(lines, rank, reply),
        None => go_on(lines, rank),
    }
}

impl ScriptRunner {
    /// The script as this rank runs it at this incarnation, at its start. The only error is want of memory.
    pub fn new(
        alloc: Global,
        script: Script,
        rank: u16,
        incarnation: u16,
    ) -> Result<ScriptRunner, AllocError>
        ensures { IfOk result (λ runner. runner ≡ opening script rank incarnation) }
    {
        let lines = script.into_lines_for(alloc, rank, incarnation)?;
        Ok(ScriptRunner {
            lines,
            rank: ScriptRank::new(alloc, rank),
        })
    }

    /// Whether both have as many lines left, and stand alike in all but these.
    pub fn stands_as(&self, other: &ScriptRunner) -> bool
        ensures lines { IsTrue result → length self.now.lines ≡ length other.now.lines }
        ensures rank { IsTrue result → self.now.rank ≡ other.now.rank }
    {
        self.rank.stands_as(&other.rank) && self.lines.len() == other.lines.len()
    }

    /// How many of its lines are left behind the one that it stands at.
    pub fn lines_left(&self) -> usize
        ensures { result ≡ length self.now.lines }
    {
        self.lines.len()
    }

    /// Whether it stands at a line whose call isn't answered yet.
    pub fn awaits_answer(&self) -> bool
        ensures { result ≡ is_some self.now.rank.pending }
    {
        self.rank.awaits_answer()
    }

    /// Why a line can't be followed by what the names stand for now, in which case the script ends at it with 51: the
    /// first of the names that the line uses that isn't set, or whose buffer is lent. None where the line can be
    /// followed. The only error is want of memory.
    #[tactic(auto, using(crate::proofs::StandingLaws::stops_where_lacking))]
    pub fn lack_of(
        &self,
        alloc: Global,
        statement: &ScriptStatement,
    ) -> Result<Option<LineFault>, AllocError>
        ensures exact { IfOk result (λ fault. fault ≡ lack_of_statement (holdings self.now.rank.names) statement.now) }
        ensures stops { (number : ℕ) → IfOk result (λ fault.
            StopsWhere fault number (states number statement.now self.now.rank.names) self.now.rank.names) }
    {
        self.rank.lack_of(alloc, statement)
    }
}

impl Runner for ScriptRunner {
    ghost use Rattle.script_runner.specs.ScriptSteps.{NextGives};

    ghost does = { NextGives };

    fn next(&mut self, reply: Option<Reply>) -> RunnerStep {
        match go_on_told(&mut self.lines, &mut self.rank, reply) {
            Ok(step) => step,
            Err(_) => RunnerStep::End(6, None),
        }
    }
}
