//! Listening to all keepers at once, and ending the others where a rank has failed for good.

ghost use Rattle.std.specs.Prelude.{◌≡◌, IfOk, option_map};
ghost use Rattle.std.specs.Process.{child_status};
ghost use Rattle.launch_process.specs.Endings.{IsSettled};

use crate::reports::{tell_lost, whole_report};
use launch_decisions::{AbortLine, Failure, first_failure};
use launch_keeper::Report;
use libc::net::{POLLIN, poll};
use libc::types::pollfd;
use std::alloc::{AllocError, Global};
use std::io::{ErrorKind, Read, Write};
use std::os::fd::AsRawFd;
use std::process::{Child, OpenProcess};
use std::{io, mem};

/// How many bytes of a report are read at a time.
const ROOM: usize = 16_384;

/// What is written to a keeper whose rank is to be ended.
const END: &[u8] = b"t";

/// A keeper, and what it reported so far.
#[derive(Drop)]
struct Listened<P: OpenProcess> {
    keeper: Child<P>,
    /// Where its report comes, as long as it isn't whole.
    pipe: Option<P::Stdout>,
    bytes: Vec<u8>,
    report: Option<Report>,
}

/// What all keepers reported.
#[derive(Drop)]
pub struct Gathered {
    /// The reports of all ranks, in their order.
    pub reports: Vec<Report>,
    /// The failure for which the others were ended.
    pub began: Option<Failure>,
}

impl<P: OpenProcess<Stdout: AsRawFd> + Drop> Listened<P> {
    /// A keeper of which nothing was heard yet.
    fn new(alloc: Global, mut keeper: Child<P>) -> Listened<P> {
        Listened {
            pipe: keeper.stdout.take(),
            keeper,
            bytes: Vec::new(alloc),
            report: None,
        }
    }

    /// What to ask for its report.
    fn asked(&self) -> pollfd {
        let fd = match &self.pipe {
            Some(pipe) => pipe.as_raw_fd(),
            None => -1,
        };
        pollfd {
            fd,
            events: POLLIN,
            revents: 0,
        }
    }

    /// Reads more of its report. Answers whether that has ended.
    fn read_more(&mut self) -> io::Result<bool> {
        let mut room = [0u8; ROOM];
        let Some(pipe) = &mut self.pipe else {
            return Ok(false);
        };
        match pipe.read(&mut room) {
            Ok(0) => {
                self.pipe = None;
                Ok(true)
            }
            Ok(count) => {
                self.bytes.extend_from_slice(&room[..count])?;
                Ok(false)
            }
            Err(error) if error.kind() == ErrorKind::Interrupted => Ok(false),
            Err(error) => Err(error),
        }
    }

    /// Keeps its report, which has ended, and answers the rank's last status; `None` where it isn't whole.
    fn settle(&mut self, alloc: Global) -> io::Result<Option<u8>>
        ensures settled { IfOk result (λ _.
            IsSettled (child_status self.new.keeper) self.old.bytes.items self.new.report) }
        ensures status { IfOk result (λ status. status ≡ option_map (λ report. report.status) self.new.report) }
    {
        let ended = self.keeper.wait()?;
        let bytes = mem::replace(&mut self.bytes, Vec::new(alloc));
        self.report = whole_report(bytes, ended);
        match &self.report {
            Some(report) => Ok(Some(report.status)),
            None => Ok(None),
        }
    }

    /// Its report, where it is whole.
    fn into_report(self) -> Option<Report> {
        let Listened {
            keeper: _,
            pipe: _,
            bytes: _,
            report,
        } = self;
        report
    }

    /// Asks for its rank's end.
    fn end(&mut self) {
        if self.pipe.is_some() {
            if let Some(words) = &mut self.keeper.stdin {
                let _ = words.write_all(END);
            }
        }
    }
}

/// Ends the ranks that are left, and tells for which one.
fn end_others<R: Eprint, P: OpenProcess<Stdout: AsRawFd> + Drop>(
    rt: &R,
    all: &mut [Listened<P>],
    failure: Failure,
) {
    if all.iter().all(|one| one.pipe.is_none()) {
        return;
    }
    let line = AbortLine { rank: failure.rank };
    let _ = eprintln!(rt; "{line}");
    for one in all.iter_mut() {
        one.end();
    }
}

/// Which keepers have something to read, each by its rank.
fn wait_for_reports<P: OpenProcess<Stdout: AsRawFd> + Drop>(
    alloc: Global,
    all: &[Listened<P>],
) -> io::Result<Vec<usize>> {
    let mut asked = Vec::with_capacity(alloc, all.len())?;
    for one in all {
        asked.push(one.asked()).map_err(AllocError::from)?;
    }
    let _found = poll(&mut asked, -1);
    let mut ready = Vec::new(alloc);
    for (rank, one) in asked.iter().enumerate() {
        if one.revents != 0 {
            ready.push(rank).map_err(AllocError::from)?;
        }
    }
    Ok(ready)
}

/// Reads what the keeper of this rank has to say. Where its report has ended and tells the first failure, that one
/// began, and the others are ended.
fn hear<R: Eprint + AllocGlobal, P: OpenProcess<Stdout: AsRawFd> + Drop>(
    rt: &R,
    all: &mut Vec<Listened<P>>,
    rank: usize,
    began: Option<Failure>,
) -> io::Result<Option<Failure>> {
    let Some(one) = all.get_mut(rank) else {
        return Ok(began);
    };
    if !one.read_more()? {
        return Ok(began);
    }
    let Some(status) = one.settle(rt.alloc())? else {
        return Err(tell_lost(rt, rank));
    };
    let now = first_failure(began, u16::try_from(rank).unwrap_or(u16::MAX), status);
    if let (None, Some(failure)) = (began, now) {
        end_others(rt, all, failure);
    }
    Ok(now)
}

/// The reports of these keepers, which stand in rank order. Once a rank has failed for good the others are ended.
pub fn gather<R: Eprint + AllocGlobal, P: OpenProcess<Stdout: AsRawFd> + Drop>(
    rt: &R,
    keepers: Vec<Child<P>>,
) -> io::Result<Gathered> {
    let mut all = Vec::with_capacity(rt.alloc(), keepers.len())?;
    for keeper in keepers {
        let one = Listened::new(rt.alloc(), keeper);
        all.push(one).map_err(AllocError::from)?;
    }
    let mut began = None;
    for _ in 0..u64::MAX {
        if all.iter().all(|one| one.pipe.is_none()) {
            break;
        }
        for rank in wait_for_reports(rt.alloc(), &all)? {
            began = hear(rt, &mut all, rank, began)?;
        }
    }
    let mut reports = Vec::with_capacity(rt.alloc(), all.len())?;
    for one in all {
        if let Some(report) = one.into_report() {
            reports.push(report).map_err(AllocError::from)?;
        }
    }
    Ok(Gathered { reports, began })
}
