//! The launcher: it starts a keeper for each rank, and prints what their ranks wrote.

use crate::gathering::gather;
use crate::reports::{report_of, tell_lost};
use launch_decisions::{ended, keeper_commands};
use launch_keeper::{TakenPortsLine, UnstartedKeeperLine, Word, join_from};
use launch_plan::{LaunchOutcome, Plan};
use libc::EMFILE;
use process_commands::ClosedStreams;
use start_marks::{MarkFile, VARIABLE};
use std::alloc::{AllocError, Global};
use std::io::{ErrorKind, Write};
use std::net::{Ipv4Addr, Net, SocketAddr, TcpListener};
use std::os::fd::AsRawFd;
use std::process::{Child, Command, OpenProcess, Processes, Stdio};
use std::rt::{Env, Files};
use std::{env, io};

/// Starts a keeper, and tells on the standard error where it can't be started. Its standard input ends when this
/// process does.
fn start_or_tell<R: Eprint + AllocGlobal + Processes>(
    rt: &R,
    rank: usize,
    command: &mut Command,
) -> io::Result<Child<R::Started>> {
    command.stdin(Stdio::piped());
    command.stdout(Stdio::piped());
    let started = command.spawn(rt);
    if let Err(error) = &started {
        tell_unstarted(rt, rank, error);
    }
    started
}

/// Tells that a keeper can't be started, and why.
fn tell_unstarted<R: Eprint>(rt: &R, rank: usize, error: &io::Error) {
    if error.raw_os_error() == Some(EMFILE) {
        let line = UnstartedKeeperLine {
            rank: u16::try_from(rank).unwrap_or(u16::MAX),
        };
        let _ = eprintln!(rt; "{line}");
    } else {
        let _ = eprintln!(rt; "mpiexec: the keeper of rank {rank} can't be started: {error}");
    }
}

/// Lets a keeper and its program know where the marks of the ranks are, if they are anywhere.
fn tell_marks(alloc: Global, command: &mut Command, marks: Option<MarkFile>) -> io::Result<()> {
    match marks {
        Some(marks) => {
            let _set = command.env(VARIABLE, marks.name(alloc)?.as_str())?;
        }
        None => {
            let _removed = command.env_remove(VARIABLE)?;
        }
    }
    Ok(())
}

/// Starts the keepers of so many ranks, in rank order.
fn start_all<R: Env + Files + Eprint + AllocGlobal + Processes>(
    rt: &R,
    size: u16,
    words: &[Word],
    closed: &ClosedStreams,
) -> io::Result<Vec<Child<R::Started>>> {
    let alloc = rt.alloc();
    let itself = env::current_exe(rt)?;
    let marks = MarkFile::new(alloc, size).ok();
    let mut keepers = Vec::new(alloc);
    let mut commands = keeper_commands(alloc, itself.as_str(), size, words)?;
    for (rank, command) in commands.iter_mut().enumerate() {
        closed.stand_in(command);
        tell_marks(alloc, command, marks)?;
        let keeper = start_or_tell(rt, rank, command)?;
        keepers.push(keeper).map_err(AllocError::from)?;
    }
    Ok(keepers)
}

/// Holds the TCP port that has the base port's number, so that a launch that begins meanwhile with the same one can
/// tell so. The ranks use UDP alone. Where it is taken the launch goes on, and tells that.
fn hold_port<R: Net + Eprint>(rt: &R, base_port: u16) -> Option<R::Listener> {
    match TcpListener::bind(rt, SocketAddr::from((Ipv4Addr::LOCALHOST, base_port))) {
        Ok(held) => Some(held),
        Err(error) => {
            if error.kind() == ErrorKind::AddrInUse {
                let line = TakenPortsLine { base_port };
                let _ = eprintln!(rt; "{line}");
            }
            None
        }
    }
}

/// Prints what a rank wrote. Where that fails it is told.
fn print_output<R: Print + Eprint + AllocGlobal>(
    rt: &R,
    rank: usize,
    output: &[u8],
) -> io::Result<()> {
    let text = join_from(rt.alloc(), rank, output)?;
    match io::writer(rt).write_all(&text) {
        Ok(()) => Ok(()),
        Err(error) => {
            let _ = eprintln!(rt; "mpiexec: the output can't be written: {error}");
            Err(error)
        }
    }
}

/// Prints what a rank wrote, once its keeper has ended. Answers the rank's last status.
fn print_rank<R: Print + Eprint + AllocGlobal, P: OpenProcess + Drop>(
    rt: &R,
    rank: usize,
    keeper: Child<P>,
) -> io::Result<u8> {
    let Some(report) = report_of(rt.alloc(), keeper)? else {
        return Err(tell_lost(rt, rank));
    };
    print_output(rt, rank, &report.output)?;
    Ok(report.status)
}

/// Prints what the ranks of these keepers wrote, by rising rank, and answers what became of them.
fn follow_all<R: Print + Eprint + AllocGlobal, P: OpenProcess + Drop>(
    rt: &R,
    keepers: Vec<Child<P>>,
) -> io::Result<LaunchOutcome> {
    let mut statuses = Vec::with_capacity(rt.alloc(), keepers.len())?;
    for (rank, keeper) in keepers.into_iter().enumerate() {
        let status = print_rank(rt, rank, keeper)?;
        statuses.push(status).map_err(AllocError::from)?;
    }
    Ok(ended(&statuses, None))
}

/// The same, where the others are ended once a rank has failed for good.
fn follow_to_failure<R: Print + Eprint + AllocGlobal, P: OpenProcess<Stdout: AsRawFd> + Drop>(
    rt: &R,
    keepers: Vec<Child<P>>,
) -> io::Result<LaunchOutcome> {
    let gathered = gather(rt, keepers)?;
    let mut statuses = Vec::with_capacity(rt.alloc(), gathered.reports.len())?;
    for (rank, report) in gathered.reports.iter().enumerate() {
        print_output(rt, rank, &report.output)?;
        statuses.push(report.status).map_err(AllocError::from)?;
    }
    Ok(ended(&statuses, gathered.began))
}

/// Launches the ranks of a plan, which these words ask for, prints what they wrote, by rising rank, and answers what
/// became of them. Where one aborts the others, they are ended once a rank has failed for good.
pub fn launch<
    R: Net
        + Env
        + Files
        + Print
        + Eprint
        + AllocGlobal
        + Processes<Started: OpenProcess<Stdout: AsRawFd>>,
>(
    rt: &R,
    plan: &Plan,
    words: &[Word],
    aborts: bool,
    closed: &ClosedStreams,
) -> io::Result<LaunchOutcome> {
    let _held = hold_port(rt, plan.base_port());
    let keepers = start_all(rt, plan.size(), words, closed)?;
    if aborts {
        follow_to_failure(rt, keepers)
    } else {
        follow_all(rt, keepers)
    }
}
