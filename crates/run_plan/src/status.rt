//! The statuses of ranks, and what is told of their ends.

ghost use Rattle.std.specs.Prelude.{◌≡◌};
ghost use Rattle.run_plan.specs.Ends.{consequence_of, is_over_time, job_status, rank_ending, run_status};

use launch_decisions::Failure;
use launch_keeper::ProgramEnding;
use std::fmt;

/// The status that a rank's ending counts as: 127 for a program that couldn't be started, 128 and the signal's number for
/// one that a signal ended, as shells have it, and 255 where that is more.
pub fn run_status(ending: ProgramEnding) -> u8
    ensures { result ≡ run_status ending }
{
    match ending {
        ProgramEnding::Signal(signal) => 128 + signal.min(127),
        _ => ending.status(),
    }
}

/// The status of a job that the user interrupted.
const INTERRUPTED: u8 = 130;

/// The status of a job that took longer than it may.
const LATE: u8 = 124;

/// How a rank's program ended, where what ran on this machine ended so: its keeper, if it `is_kept` on another host,
/// told how, unless it was lost.
pub fn rank_ending(
    is_kept: bool,
    reported: Option<ProgramEnding>,
    own: ProgramEnding,
) -> ProgramEnding
    ensures { result ≡ rank_ending is_kept reported own }
{
    if !is_kept {
        return own;
    }
    match reported {
        Some(ending) => ending,
        None => ProgramEnding::WithoutStatus,
    }
}

/// The status of a job whose ranks have all ended: that of the rank whose failure began, or else 130 where it was
/// interrupted, 124 where it took longer than it may, and 0.
pub fn job_status(began: Option<Failure>, is_interrupted: bool, is_late: bool) -> u8
    ensures { result ≡ job_status began is_interrupted is_late }
{
    match began {
        Some(failure) => failure.status,
        None if is_interrupted => INTERRUPTED,
        None if is_late => LATE,
        None => 0,
    }
}

/// Whether a job that has taken so many seconds has taken as long as it may.
pub fn is_over_time(limit: Option<u32>, seconds: u64) -> bool
    ensures { result ≡ is_over_time limit seconds }
{
    match limit {
        Some(limit) => u64::from(limit) <= seconds,
        None => false,
    }
}

/// What the signal is called that ended a program, in brackets behind a blank: those that crash one, and those by which
/// others end it; nothing for all others, and where none ended it.
#[derive(Clone, Copy)]
pub struct SignalText {
    /// How the program ended.
    pub ending: ProgramEnding,
}

impl fmt::Display for SignalText {
    ghost use Rattle.std.specs.Prelude.{Some};
    ghost use Rattle.run_plan.specs.Ends.{signal_text};

    ghost output = { λ s. Some (signal_text s.ending) };

    fn fmt<W: fmt::Write>(&self, f: &mut fmt::Formatter<W>) -> fmt::Result {
        f.write_str(match self.ending {
            ProgramEnding::Signal(4) => " (illegal instruction)",
            ProgramEnding::Signal(6) => " (aborted)",
            ProgramEnding::Signal(7) => " (bus error)",
            ProgramEnding::Signal(8) => " (arithmetic error)",
            ProgramEnding::Signal(9) => " (killed)",
            ProgramEnding::Signal(11) => " (segmentation fault)",
            ProgramEnding::Signal(15) => " (terminated)",
            _ => "",
        })
    }
}

/// What a rank's failure does to the others.
#[derive(Clone, Copy, Debug, PartialEq, Eq)]
pub enum Consequence {
    /// Nothing.
    Nothing,
    /// They are ended.
    OthersEnd,
}

/// What a rank's failure does to the others: they are ended where some run, unless they are to go on.
pub fn consequence_of(keeps_going: bool, others_run: bool) -> Consequence
    ensures { result ≡ consequence_of keeps_going others_run }
{
    if keeps_going || !others_run {
        Consequence::Nothing
    } else {
        Consequence::OthersEnd
    }
}

/// The end of the line on a rank that failed.
#[derive(Clone, Copy)]
pub struct ConsequenceText {
    /// What its failure does to the others.
    pub consequence: Consequence,
}

impl fmt::Display for ConsequenceText {
    ghost use Rattle.std.specs.Prelude.{Some};
    ghost use Rattle.run_plan.specs.Ends.{consequence_text};

    ghost output = { λ c. Some (consequence_text c.consequence) };

    fn fmt<W: fmt::Write>(&self, f: &mut fmt::Formatter<W>) -> fmt::Result {
        match self.consequence {
            Consequence::Nothing => Ok(()),
            Consequence::OthersEnd => f.write_str("; the other ranks are ended"),
        }
    }
}
