//! What the launcher and its keepers tell on the standard error, a line each, without the line's end.

ghost use Rattle.std.specs.Prelude.{◌≡◌};
ghost use Rattle.launch_keeper.specs.StandardError.{is_rank_main, meaning};

use crate::ending::ProgramEnding;
use crate::keeper::After;
use shown_words::Shown;
use std::fmt;

/// The program whose statuses have a meaning of their own.
const RANK_MAIN: &[u8] = b"rank_main";

/// The end of its name where that begins with a folder.
const IN_A_FOLDER: &[u8] = b"/rank_main";

/// Whether a program's file name is `rank_main`, whose statuses have a meaning of their own.
fn is_rank_main(program: &[u8]) -> bool
    ensures { result ≡ is_rank_main program.now }
{
    let (_, end) = program.split_at(program.len().saturating_sub(IN_A_FOLDER.len()));
    program == RANK_MAIN || end == IN_A_FOLDER
}

/// What a status of `rank_main` means, in brackets; nothing for another status.
fn meaning(status: u8) -> &'static str
    ensures { result.now ≡ meaning status }
{
    match status {
        1 => " (script)",
        2 => " (words)",
        3 => " (socket or output)",
        4 => " (patience)",
        5 => " (fail)",
        6 => " (memory)",
        _ => "",
    }
}

/// A program's status and, where its file name is `rank_main`, what it means.
#[derive(Clone, Copy)]
struct ExitStatusText<'a> {
    program: &'a [u8],
    status: u8,
}

impl<'a> fmt::Display for ExitStatusText<'a> {
    ghost use Rattle.std.specs.Prelude.{Some};
    ghost use Rattle.launch_keeper.specs.StandardError.{status_text};

    ghost output = { λ s. Some (status_text s.program.now s.status) };

    fn fmt<W: fmt::Write>(&self, f: &mut fmt::Formatter<W>) -> fmt::Result {
        let status = self.status;
        if is_rank_main(self.program) {
            let meaning = meaning(status);
            write!(f, "{status}{meaning}")
        } else {
            write!(f, "{status}")
        }
    }
}

/// That a program is started again, and as which incarnation; nothing where it isn't.
#[derive(Clone, Copy)]
struct Restart {
    after: After,
}

impl fmt::Display for Restart {
    ghost use Rattle.std.specs.Prelude.{Some};
    ghost use Rattle.launch_keeper.specs.StandardError.{restart_text};

    ghost output = { λ r. Some (restart_text r.after) };

    fn fmt<W: fmt::Write>(&self, f: &mut fmt::Formatter<W>) -> fmt::Result {
        match self.after {
            After::Again(incarnation) => {
                write!(f, "; started again as incarnation {incarnation}")
            }
            After::End(_) => Ok(()),
        }
    }
}

/// How a rank's program ended, behind the rank.
#[derive(Clone, Copy)]
struct EndingText<'a> {
    program: &'a [u8],
    ending: ProgramEnding,
}

impl<'a> fmt::Display for EndingText<'a> {
    ghost use Rattle.std.specs.Prelude.{Some};
    ghost use Rattle.launch_keeper.specs.StandardError.{ending_text};

    ghost output = { λ e. Some (ending_text e.program.now e.ending) };

    fn fmt<W: fmt::Write>(&self, f: &mut fmt::Formatter<W>) -> fmt::Result {
        match self.ending {
            ProgramEnding::NotStarted => {
                let program = Shown { word: self.program };
                write!(f, ": {program} can't be started")
            }
            ProgramEnding::WithoutStatus => f.write_str(" ended without a status"),
            ProgramEnding::Signal(signal) => write!(f, " was ended by signal {signal}"),
            ProgramEnding::Status(status) => {
                let status = ExitStatusText {
                    program: self.program,
                    status,
                };
                write!(f, " ended with status {status}")
            }
        }
    }
}

/// The line of a rank whose program ended: how it did, and whether it is started again.
#[derive(Clone, Copy)]
pub struct EndingLine<'a> {
    /// The rank.
    pub rank: u16,
    /// The program's name, as the launch has it.
    pub program: &'a [u8],
    /// How the program ended.
    pub ending: ProgramEnding,
    /// What its keeper does then.
    pub after: After,
}

impl<'a> fmt::Display for EndingLine<'a> {
    ghost use Rattle.std.specs.Prelude.{Some};
    ghost use Rattle.launch_keeper.specs.StandardError.{ending_line};

    ghost output = { λ e. Some (ending_line e.rank e.program.now e.ending e.after) };

    fn fmt<W: fmt::Write>(&self, f: &mut fmt::Formatter<W>) -> fmt::Result {
        let rank = self.rank;
        let ending = EndingText {
            program: self.program,
            ending: self.ending,
        };
        let restart = Restart { after: self.after };
        write!(f, "mpiexec: rank {rank}{ending}{restart}")
    }
}

/// The line of a keeper that ended before it reported what became of its rank.
#[derive(Clone, Copy)]
pub struct LostKeeperLine {
    /// The rank that it kept.
    pub rank: usize,
}

impl fmt::Display for LostKeeperLine {
    ghost use Rattle.std.specs.Prelude.{Some};
    ghost use Rattle.launch_keeper.specs.StandardError.{lost_keeper_line};

    ghost output = { λ l. Some (lost_keeper_line l.rank) };

    fn fmt<W: fmt::Write>(&self, f: &mut fmt::Formatter<W>) -> fmt::Result {
        let rank = self.rank;
        write!(
            f,
            "mpiexec: the keeper of rank {rank} ended before its report"
        )
    }
}

/// The line of a keeper that couldn't be started: for want of open files, most likely, since the launcher has two for
/// each.
#[derive(Clone, Copy)]
pub struct UnstartedKeeperLine {
    /// The rank that it was to keep.
    pub rank: u16,
}

impl fmt::Display for UnstartedKeeperLine {
    ghost use Rattle.std.specs.Prelude.{Some};
    ghost use Rattle.launch_keeper.specs.StandardError.{unstarted_keeper_line};

    ghost output = { λ u. Some (unstarted_keeper_line u.rank) };

    fn fmt<W: fmt::Write>(&self, f: &mut fmt::Formatter<W>) -> fmt::Result {
        let rank = self.rank;
        write!(
            f,
            "mpiexec: the keeper of rank {rank} can't be started; it takes two more open files (ulimit -n)"
        )
    }
}

/// The line of a launch whose base port another one holds.
#[derive(Clone, Copy)]
pub struct TakenPortsLine {
    /// The port of rank 0.
    pub base_port: u16,
}

impl fmt::Display for TakenPortsLine {
    ghost use Rattle.std.specs.Prelude.{Some};
    ghost use Rattle.launch_keeper.specs.StandardError.{taken_ports_line};

    ghost output = { λ t. Some (taken_ports_line t.base_port) };

    fn fmt<W: fmt::Write>(&self, f: &mut fmt::Formatter<W>) -> fmt::Result {
        let base_port = self.base_port;
        write!(
            f,
            "mpiexec: another job may use the ports from {base_port} on: give each job its own -baseport and -job"
        )
    }
}
