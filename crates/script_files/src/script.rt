//! What a script says.

ghost use Rattle.std.specs.Prelude.{◌≡◌, ◌++◌, [], ◌∷◌, List, length, IfOk, OnOk};
ghost use Rattle.script_files.specs.Selections.{lines_for, said_for, kept, FirstOf};
ghost use Rattle.script_files.specs.declared.script.ScriptLine.{ScriptLine};

use crate::audience::Audience;
use statements::{Action, Receiving, Sending};
use std::alloc::{AllocError, AllocFailed, Global};
use std::collections::VecDeque;
use std::marker::Model;
use std::mem;
use tokens::{Name, Tokens};

/// What a line of a script asks a rank to do.
#[derive(Drop)]
pub enum ScriptStatement {
    /// What a line of a file of events asks for as well.
    Action(Action),
    /// `send COMM DEST TAG B`: starts a send and waits for it.
    Send(Sending),
    /// `recv COMM SRC TAG B`: starts a receive and waits for it.
    Recv(Receiving),
    /// `print B`: prints the elements of the buffer of this name.
    Print(Name),
    /// `status`: prints the status of the last receive.
    Status,
    /// `count L`: prints how many copies of the layout of this name the last receive took (MPI 3.1, 3.2.5,
    /// MPI_Get_count).
    Count(Name),
    /// `say WORD ..`: prints the words, of which there is at least one.
    Say(Tokens),
    /// `fail`: ends the rank.
    Fail,
}

/// What a line of a script says.
#[derive(Drop)]
pub enum Item {
    /// `on ..`: whom the lines behind it are for, up to the next `on`.
    On(Audience),
    /// What the ranks do whom the line is for.
    Does(ScriptStatement),
}

/// A line that isn't skipped.
#[derive(Drop)]
pub struct ScriptLine {
    /// The number of the line; the first line is 1, and skipped ones count.
    pub number: usize,
    /// What it says.
    pub item: Item,
}

/// A line that is for one rank.
pub struct RankLine {
    /// The number of the line in the script; the first line is 1, and skipped ones count.
    pub number: usize,
    /// What the rank does.
    pub statement: ScriptStatement,
}

/// A drop of its own is proved here alone, and not in each crate above.
impl Drop for RankLine {
    fn drop(self) {
        let RankLine {
            number: _,
            statement,
        } = self;
        drop(statement);
    }
}

/// A script, read whole. Contracts see it as the list of its lines that aren't skipped.
pub struct Script {
    lines: Vec<ScriptLine>,
}

/// A drop of its own is proved here alone, and not in each crate above.
impl Drop for Script {
    fn drop(self) {
        let Script { lines } = self;
        drop(lines);
    }
}

impl Model for Script {
    ghost use Rattle.std.specs.Prelude.{List};
    ghost use Rattle.script_files.specs.declared.script.ScriptLine.{ScriptLine};

    ghost Value = { List ScriptLine };

    ghost view = { λ s. s.lines.items };
}

impl Script {
    /// No lines. It takes no memory.
    pub(crate) fn new(alloc: Global) -> Script
        ensures { result ≡ [] }
    {
        Script {
            lines: Vec::new(alloc),
        }
    }

    /// Adds a line at the end.
    pub(crate) fn push(&mut self, line: ScriptLine) -> Result<(), AllocFailed<ScriptLine>>
        ensures { OnOk result (self.new ≡ self.old ++ line ∷ []) }
    {
        self.lines.push(line)
    }

    /// The lines, in order.
    pub fn lines(&self) -> &[ScriptLine]
        ensures { result.now ≡ self.now }
    {
        self.lines.as_slice()
    }

    /// The lines for this rank at this incarnation, in order: those before the first `on`, and those behind an `on`
    /// that includes it, up to the next. They are moved, and not copied. The only error is want of memory.
    pub fn into_lines_for(
        self,
        alloc: Global,
        rank: u16,
        incarnation: u16,
    ) -> Result<RankLines, AllocError>
        ensures { IfOk result (λ lines. lines ≡ lines_for rank incarnation self) }
    {
        let mut script = self;
        let lines = mem::replace(&mut script.lines, Vec::new(alloc));
        drop(script);
        lines_among(alloc, rank, incarnation, lines)
    }
}

#[tactic(auto, using(crate::proofs::ScriptSteps::none_taken, crate::proofs::ScriptSteps::one_taken, crate::proofs::ScriptSteps::all_taken))]
fn lines_among(
    alloc: Global,
    rank: u16,
    incarnation: u16,
    lines: Vec<ScriptLine>,
) -> Result<RankLines, AllocError>
    ensures { IfOk result (λ found. found ≡ lines_for rank incarnation lines.items) }
{
    let mut found = RankLines::new(alloc);
    let mut here = true;
    for line in lines {
        here = found.take_line(here, rank, incarnation, line)?;
    }
    Ok(found)
}

/// The lines for one rank that are left, in order. Contracts see them as a list.
pub struct RankLines {
    lines: VecDeque<RankLine>,
}

/// A drop of its own is proved here alone, and not in each crate above.
impl Drop for RankLines {
    fn drop(self) {
        let RankLines { lines } = self;
        drop(lines);
    }
}

impl Model for RankLines {
    ghost use Rattle.std.specs.Prelude.{List};
    ghost use Rattle.script_files.specs.declared.script.RankLine.{RankLine};

    ghost Value = { List RankLine };

    ghost view = { λ l. l.lines.items };
}

impl RankLines {
    /// No lines. It takes no memory.
    fn new(alloc: Global) -> RankLines
        ensures { result ≡ [] }
    {
        RankLines {
            lines: VecDeque::new(alloc),
        }
    }

    /// Takes the line if lines are for this rank `here`. Answers whether those behind it are.
    fn take_line(
        &mut self,
        here: bool,
        rank: u16,
        incarnation: u16,
        line: ScriptLine,
    ) -> Result<bool, AllocError>
        ensures { IfOk result (λ next. (rest : List ScriptLine) →
            self.new ++ said_for rank incarnation next rest ≡ self.old ++
            said_for rank incarnation here (line ∷ rest)) }
    {
        let ScriptLine { number, item } = line;
        match item {
            Item::On(audience) => Ok(audience.includes(rank, incarnation)),
            Item::Does(statement) => {
                self.keep(here, RankLine { number, statement })?;
                Ok(here)
            }
        }
    }

    /// Adds a line at the end.
    fn push(&mut self, line: RankLine) -> Result<(), AllocFailed<RankLine>>
        ensures { OnOk result (self.new ≡ self.old ++ line ∷ []) }
    {
        self.lines.push_back(line)
    }

    /// Adds the line at the end, if lines are for this rank `here`.
    fn keep(&mut self, here: bool, line: RankLine) -> Result<(), AllocError>
        ensures { OnOk result (self.new ≡ self.old ++ kept here line) }
    {
        if here {
            self.push(line)?;
        } else {
            drop(line);
        }
        Ok(())
    }

    /// The next line, which is left no more; none where none is left.
    pub fn next(&mut self) -> Option<RankLine>
        ensures { FirstOf self.old result self.new }
    {
        self.lines.pop_front()
    }

    /// How many lines are left.
    pub fn len(&self) -> usize
        ensures { result ≡ length self.now }
    {
        self.lines.len()
    }
}
