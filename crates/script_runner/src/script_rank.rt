//! A rank that runs a script: what its names stand for, and what it waits for.

ghost use Rattle.std.specs.Prelude.{◌≡◌, IfOk, Some, None, is_some};
ghost use Rattle.line_diagnostics.specs.Lacks.{lack_of_statement};
ghost use Rattle.interpreter.specs.NamesState.{here, holdings};
ghost use Rattle.interpreter.specs.StatementCalls.{count_of};
ghost use Rattle.script_runner.specs.ScriptRanks.{acts, does, follows, heeds, IsSpoken, opening, prints_count};
ghost use Rattle.script_runner.specs.ScriptRanks.{prints_elements, says, states};

use crate::lines::line_of;
use alike::Alike;
use engine_calls::Reply;
use event_loop::RunnerStep;
use interpreter::{Names, NextStep, PendingCall};
use line_diagnostics::{LineFault, lack_of_statement};
use printed_lines::{count_line, elements_line, status_line, words_line};
use script_calls::Pending;
use script_files::{RankLine, ScriptStatement};
use statements::Name;
use std::alloc::{AllocError, Global};
use std::marker::Model;
use std::mem;
use vocabulary::replace;

/// A rank that runs a script: what its names stand for, and what the answer to its last call is for, while it isn't
/// here.
pub struct ScriptRank {
    alloc: Global,
    names: Names,
    pending: Option<Pending>,
}

/// A drop of its own is proved here alone, and not in each crate above.
impl Drop for ScriptRank {
    fn drop(self) {
        let ScriptRank {
            alloc: _,
            names,
            pending,
        } = self;
        drop(names);
        drop(pending);
    }
}

impl Model for ScriptRank {
    ghost use Rattle.script_runner.specs.ScriptRanks.{RankState};

    ghost Value = { RankState };

    ghost view = { λ r. record { names = r.names; pending = r.pending } };
}

impl Alike for ScriptRank {
    fn stands_as(&self, other: &Self) -> bool {
        self.names.stands_as(&other.names) && self.pending.stands_as(&other.pending)
    }
}

impl ScriptRank {
    /// A rank of `world` at the start of its script: no name is set.
    pub fn new(alloc: Global, rank: u16) -> ScriptRank
        ensures { result ≡ opening rank }
    {
        ScriptRank {
            alloc,
            names: Names::new(alloc, Some(rank)),
            pending: None,
        }
    }

    /// Whether its last call isn't answered yet.
    pub fn awaits_answer(&self) -> bool
        ensures { result ≡ is_some self.now.pending }
    {
        self.pending.is_some()
    }

    /// What comes next of a statement is done: its call is made and the answer awaited, or what is told is printed.
    fn on_next_step(&mut self, next: NextStep) -> Result<Option<RunnerStep>, AllocError>
        ensures { IfOk result (λ step. follows next self.old.names ≡ (step, self.new)) }
    {
        match next {
            NextStep::Nothing => {
                replace(&mut self.pending, None);
                Ok(None)
            }
            NextStep::Call(made) => {
                let PendingCall { call, pending } = made;
                replace(&mut self.pending, Some(pending));
                Ok(Some(RunnerStep::Call(call)))
            }
            NextStep::Told(told) => {
                replace(&mut self.pending, None);
                Ok(Some(RunnerStep::Print(line_of(self.alloc, told)?)))
            }
        }
    }

    /// What comes next of the line of this number is done; where it is faulty, the script ends.
    fn on_statement(
        &mut self,
        number: usize,
        next: Option<NextStep>,
    ) -> Result<Option<RunnerStep>, AllocError>
        ensures { IfOk result (λ step. does number next self.old.names ≡ (step, self.new)) }
    {
        match next {
            Some(next) => self.on_next_step(next),
            None => {
                replace(&mut self.pending, None);
                Ok(Some(RunnerStep::End(1, Some(number))))
            }
        }
    }

    fn print(&self, number: usize, name: &Name) -> Result<RunnerStep, AllocError>
        ensures { IfOk result (λ step. step ≡ prints_elements number (here self.now.names name.now)) }
    {
        match self.names.copy_of(name)? {
            Some(buffer) => Ok(RunnerStep::Print(elements_line(self.alloc, &buffer)?)),
            None => Ok(RunnerStep::End(1, Some(number))),
        }
    }

    fn count(&self, number: usize, name: &Name) -> Result<RunnerStep, AllocError>
        ensures { IfOk result (λ step. step ≡ prints_count number (count_of self.now.names name.now)) }
    {
        match self.names.count_of(name) {
            Some(copies) => Ok(RunnerStep::Print(count_line(self.alloc, copies)?)),
            None => Ok(RunnerStep::End(1, Some(number))),
        }
    }

    /// What asks for no call: a line is printed, or the script ends.
    fn speak(&self, number: usize, statement: ScriptStatement) -> Result<RunnerStep, AllocError>
        requires { IsSpoken statement }
        ensures { IfOk result (λ step. states number statement self.now.names ≡ says step self.now.names) }
    {
        match statement {
            ScriptStatement::Print(name) => self.print(number, &name),
            ScriptStatement::Status => {
                let status = self.names.last_status();
                Ok(RunnerStep::Print(status_line(self.alloc, status)?))
            }
            ScriptStatement::Count(name) => self.count(number, &name),
            ScriptStatement::Say(words) => Ok(RunnerStep::Print(words_line(self.alloc, &words)?)),
            ScriptStatement::Fail => Ok(RunnerStep::End(5, None)),
            _ => unreachable!(),
        }
    }

    fn state(
        &mut self,
        number: usize,
        statement: ScriptStatement,
    ) -> Result<Option<RunnerStep>, AllocError>
        ensures { IfOk result (λ step. states number statement self.old.names ≡ (step, self.new)) }
    {
        match statement {
            ScriptStatement::Action(action) => {
                let next = self.names.act(action)?;
                self.on_statement(number, next)
            }
            ScriptStatement::Send(sending) => {
                let next = self.names.send_to_wait(&sending)?;
                self.on_statement(number, next)
            }
            ScriptStatement::Recv(receiving) => {
                let next = self.names.receive_to_wait(receiving)?;
                self.on_statement(number, next)
            }
            spoken => {
                let step = self.speak(number, spoken)?;
                replace(&mut self.pending, None);
                Ok(Some(step))
            }
        }
    }

    /// What the line asks for, if that is more than a change of names. A name that isn't set, or a buffer that is lent,
    /// ends the script with the line's number. The only error is want of memory.
    pub fn act(&mut self, line: RankLine) -> Result<Option<RunnerStep>, AllocError>
        ensures { IfOk result (λ step. acts line self.old ≡ (step, self.new)) }
    {
        let mut line = line;
        let number = line.number;
        let statement = mem::replace(&mut line.statement, ScriptStatement::Fail);
        drop(line);
        self.state(number, statement)
    }

    /// What is made of the answer to the last call: what follows from it at once, if anything does. The only error is
    /// want of memory.
    pub fn on_reply(&mut self, reply: Reply) -> Result<Option<RunnerStep>, AllocError>
        ensures { IfOk result (λ step. heeds reply self.old ≡ (step, self.new)) }
    {
        match self.pending.take() {
            Some(pending) => {
                let next = self.names.hear(pending, reply)?;
                self.on_next_step(next)
            }
            None => {
                drop(reply);
                Ok(None)
            }
        }
    }

    /// Why a statement can't be followed by what the names stand for now: the first of the names that it uses that
    /// isn't set, or whose buffer is lent. None where it can. The only error is want of memory.
    pub fn lack_of(
        &self,
        alloc: Global,
        statement: &ScriptStatement,
    ) -> Result<Option<LineFault>, AllocError>
        ensures { IfOk result (λ fault. fault ≡ lack_of_statement (holdings self.now.names) statement.now) }
    {
        lack_of_statement(alloc, &self.names, statement)
    }
}
