//! A keeper: it starts the program of one rank, and starts it again where it may.

ghost use Rattle.std.specs.Prelude.{IfOk};
ghost use Rattle.std.specs.Process.{child_status};
ghost use Rattle.launch_process.specs.Endings.{HasEnded};

use crate::child::Watch;
use launch_decisions::{Next, Start, ending_of, start_command};
use launch_keeper::{EndingLine, ProgramEnding, Report, Words};
use launch_plan::Plan;
use start_marks::MarkFile;
use std::alloc::Global;
use std::io;
use std::io::{ErrorKind, Write};
use std::os::fd::AsRawFd;
use std::process::{Child, Command, OpenProcess, Processes, Stdio};
use std::rt::{Env, Files};
use std::time::Clock;

/// The variable that tells a program which process keeps it, so that it needn't outlive that.
const KEEPER: &str = "KOMBAZILY_KEEPER";

/// Lets a program know that this process keeps it.
fn tell_keeper(alloc: Global, command: &mut Command) -> io::Result<()> {
    let own = libc::getpid();
    let _set = command.env(KEEPER, format!(in alloc; "{own}")?.as_str())?;
    Ok(())
}

/// Adds what the program writes to the output, and waits for its end.
fn follow<R: AllocGlobal + Processes + Clock, P: OpenProcess<Stdout: AsRawFd>>(
    watch: &mut Watch<'_, R>,
    child: &mut Child<P>,
    output: &mut Vec<u8>,
) -> io::Result<ProgramEnding>
    ensures { IfOk result (λ ending. HasEnded (child_status child.new) ending) }
{
    if let Some(mut pipe) = child.stdout.take() {
        watch.collect(child, &mut pipe, output)?;
    }
    Ok(ending_of(watch.await_end(child)?))
}

/// Runs the program of this start once, and adds what it writes to the output. The program is
/// killed where it can't be followed to its end.
fn run_once<R: AllocGlobal + Clock + Processes<Started: OpenProcess<Stdout: AsRawFd>>>(
    rt: &R,
    watch: &mut Watch<'_, R>,
    start: &Start,
    words: &Words,
    output: &mut Vec<u8>,
) -> io::Result<ProgramEnding> {
    let mut command = start_command(rt.alloc(), start, words)?;
    tell_keeper(rt.alloc(), &mut command)?;
    command.stdin(Stdio::null());
    command.stdout(Stdio::piped());
    let Ok(mut child) = command.spawn(rt) else {
        return Ok(ProgramEnding::NotStarted);
    };
    let ending = follow(watch, &mut child, output);
    if ending.is_err() {
        let _ = child.kill();
        let _ = child.wait();
    }
    ending
}

/// Tells on the standard error that a rank's program failed, and whether it is started again. It is told at once.
fn tell_ending(rt: &impl Eprint, rank: u16, words: &Words, ending: ProgramEnding, next: &Next) {
    let Some(program) = words.as_slice().first() else {
        return;
    };
    if ending.is_failure() {
        let line = EndingLine {
            rank,
            program: program.as_bytes(),
            ending,
            after: next.after(),
        };
        let _ = eprintln!(rt; "{line}");
    }
}

/// Runs the program of a rank until it ends with status 0 or may not be started again, or the launcher asks for its
/// end, of which nothing is told.
fn run_rank<R: Eprint + AllocGlobal + Clock + Processes<Started: OpenProcess<Stdout: AsRawFd>>>(
    rt: &R,
    plan: &Plan,
    rank: u16,
) -> io::Result<Report> {
    let mut watch = Watch::new(rt);
    let mut output = Vec::new(rt.alloc());
    let mut start = Start::first(plan, rank);
    for _ in 0..u64::MAX {
        let Some(words) = start.words(rt.alloc())? else {
            break;
        };
        let ending = run_once(rt, &mut watch, &start, &words, &mut output)?;
        if watch.is_asked() {
            let status = ending.status();
            return Ok(Report { output, status });
        }
        let next = start.next(ending);
        tell_ending(rt, rank, &words, ending, &next);
        match next {
            Next::Ends(status) => return Ok(Report { output, status }),
            Next::Starts(again) => start = again,
        }
    }
    Err(io::Error::from(ErrorKind::InvalidInput))
}

/// Keeps a rank, and writes the report of it.
pub fn keep<
    R: Env
        + Files
        + Print
        + Eprint
        + AllocGlobal
        + Clock
        + Processes<Started: OpenProcess<Stdout: AsRawFd>>,
>(rt: &R, plan: &Plan, rank: u16) -> io::Result<()> {
    let report = run_rank(rt, plan, rank)?;
    if let Some(marks) = MarkFile::told(rt, plan.size()) {
        marks.end(rank);
    }
    io::writer(rt).write_all(&report.into_bytes()?)
}
