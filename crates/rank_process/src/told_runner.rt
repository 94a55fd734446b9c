//! A runner of a script whose errors are told on the standard error.

ghost use Rattle.std.specs.Prelude.{◌≡◌, IfOk};
ghost use Rattle.script_runner.specs.ScriptSteps.{opening};

use engine_calls::Reply;
use error_lines::{MetError, Operations, error_line, uncalled_error};
use event_loop::{Runner, RunnerStep};
use rank_settings::Settings;
use script_files::{Item, Script};
use script_runner::ScriptRunner;
use std::alloc::{AllocError, Global};
use tokens::lines_of;

/// Who tells the errors of a rank on the standard error: at which line, and why.
#[derive(Drop)]
struct ErrorTeller<'a, R: Eprint + AllocGlobal> {
    rt: &'a R,
    rank: u16,
    /// The text of the script.
    text: &'a [u8],
    /// Its lines, once an error was told.
    lines: Option<Vec<&'a [u8]>>,
    /// The numbers of the lines that are for the rank, in order.
    numbers: Vec<usize>,
    /// The number of the line of the last call.
    line: usize,
    operations: Operations,
}

impl<'a, R: Eprint + AllocGlobal> ErrorTeller<'a, R> {
    /// The number of the line that was taken last, where so many are left; 0 where none was taken.
    fn line_taken(&self, left: usize) -> usize {
        let taken = self.numbers.len().saturating_sub(left);
        self.numbers
            .get(taken.wrapping_sub(1))
            .copied()
            .unwrap_or(0)
    }

    /// The text of the line of this number.
    fn line_text(&mut self, number: usize) -> Option<&'a [u8]> {
        if self.lines.is_none() {
            self.lines = Some(lines_of(self.rt.alloc(), self.text).ok()?);
        }
        let lines = self.lines.as_ref()?;
        lines.get(number.checked_sub(1)?).copied()
    }

    /// Tells an error that the line of this number met.
    fn tell(&mut self, number: usize, error: &MetError) {
        let Some(text) = self.line_text(number) else {
            return;
        };
        if let Ok(line) = error_line(self.rt.alloc(), self.rank, number, error, text) {
            let _ = eprintln!(self.rt; "rank_main: {line}");
        }
    }

    /// Tells the errors in the answer to the last call, and answers whether there are any.
    fn on_reply(&mut self, reply: Option<&Reply>) -> bool {
        let Some(reply) = reply else {
            return false;
        };
        let Ok(errors) = self.operations.on_reply(reply) else {
            return false;
        };
        for error in errors.as_slice() {
            self.tell(self.line, error);
        }
        !errors.is_empty()
    }

    /// Tells the error that the line of this number met without a call, by what is printed of it, if that is one.
    fn on_print(&mut self, number: usize, printed: &[u8]) {
        if !printed.starts_with(b"error ") {
            return;
        }
        let Some(text) = self.line_text(number) else {
            return;
        };
        if let Ok(Some(error)) = uncalled_error(self.rt.alloc(), text, printed) {
            self.tell(number, &error);
        }
    }

    /// Takes note of what is done next, where so many lines are left, and whether the errors of the last answer were
    /// told.
    fn on_step(&mut self, left: usize, step: &RunnerStep, has_told: bool) {
        let number = self.line_taken(left);
        match step {
            RunnerStep::Call(call) => {
                self.line = number;
                let _ = self.operations.on_call(number, call);
            }
            RunnerStep::Print(printed) if !has_told => self.on_print(number, printed.as_slice()),
            RunnerStep::Print(_) | RunnerStep::End(_, _) => {}
        }
    }
}

/// A runner of a script that tells each call that is refused and each operation that ends with an error: at which line,
/// and why. What it does is what the runner of the script does.
#[derive(Drop)]
pub(crate) struct ToldRunner<'a, R: Eprint + AllocGlobal> {
    teller: ErrorTeller<'a, R>,
    runner: ScriptRunner,
}

/// The numbers of the lines that are for this rank at this incarnation, in order.
fn numbers_for(
    alloc: Global,
    script: &Script,
    rank: u16,
    incarnation: u16,
) -> Result<Vec<usize>, AllocError> {
    let mut numbers = Vec::new(alloc);
    let mut here = true;
    for line in script.lines() {
        match &line.item {
            Item::On(audience) => here = audience.includes(rank, incarnation),
            Item::Does(_) => {
                if here {
                    numbers.push(line.number)?;
                }
            }
        }
    }
    Ok(numbers)
}

impl<'a, R: Eprint + AllocGlobal> ToldRunner<'a, R> {
    /// The script of this text as the rank of these settings runs it, at its start.
    pub(crate) fn new(
        rt: &'a R,
        text: &'a [u8],
        script: Script,
        settings: &Settings,
    ) -> Result<ToldRunner<'a, R>, AllocError>
        ensures { IfOk result (λ told. told.runner ≡ opening script settings.now.rank settings.now.incarnation) }
    {
        let numbers = numbers_for(rt.alloc(), &script, settings.rank, settings.incarnation)?;
        let teller = ErrorTeller {
            rt,
            rank: settings.rank,
            text,
            lines: None,
            numbers,
            line: 0,
            operations: Operations::new(rt.alloc()),
        };
        Ok(ToldRunner {
            teller,
            runner: ScriptRunner::new(rt.alloc(), script, settings.rank, settings.incarnation)?,
        })
    }

    /// The runner of the script itself.
    pub(crate) fn runner(&self) -> &ScriptRunner
        ensures { result.now ≡ self.now.runner }
    {
        &self.runner
    }
}

impl<'a, R: Eprint + AllocGlobal> Runner for ToldRunner<'a, R> {
    ghost use Rattle.script_runner.specs.ScriptSteps.{NextGives};

    ghost does = { λ old reply step new. NextGives old.runner reply step new.runner };

    fn next(&mut self, reply: Option<Reply>) -> RunnerStep {
        let has_told = self.teller.on_reply(reply.as_ref());
        let step = self.runner.next(reply);
        self.teller
            .on_step(self.runner.lines_left(), &step, has_told);
        step
    }
}
