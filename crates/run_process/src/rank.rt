//! One rank's program, while it runs.

ghost use Rattle.std.specs.Prelude.{◌≡◌, ◌&&◌, is_none, OnOk};
ghost use Rattle.host_keepers.specs.Ends.{ending_told, first_byte};
ghost use Rattle.run_plan.specs.Ends.{rank_ending};
ghost use Rattle.run_process.specs.Kept.{told_behind};
ghost use Rattle.run_process.specs.Streams.{stream_of};

use crate::printing::{Printer, Stream, is_ready};
use host_keepers::{Report, ReportKind};
use launch_decisions::Start;
use launch_keeper::ProgramEnding;
use process_commands::StartFault;
use rank_lines::LineBuffer;
use run_plan::rank_ending;
use std::alloc::Global;
use std::io;
use std::io::{ErrorKind, PipeReader, Read};
use std::os::fd::{AsRawFd, RawFd};
use std::process::{Child, ExitStatus, OpenProcess};
use std::time::{Clock, Instant};

/// How many bytes are read at a time.
const ROOM: usize = 65_536;

/// How often what a program left behind is read once it has ended.
const MOST_READS: usize = 4_096;

/// What a rank writes to one of its streams, as far as it wasn't printed.
#[derive(Drop)]
struct Written {
    line: LineBuffer,
    /// When the first byte came of what waits.
    first: Option<Instant>,
    /// When the last one came.
    last: Option<Instant>,
}

/// How many milliseconds ago something was; 0 where it wasn't.
fn age_of<R: Clock>(rt: &R, time: Option<Instant>) -> io::Result<u64> {
    match time {
        Some(time) => Ok(u64::try_from(time.elapsed(rt)?.as_millis()).unwrap_or(u64::MAX)),
        None => Ok(0),
    }
}

impl Written {
    /// Nothing was written yet.
    fn new(alloc: Global) -> Written {
        Written {
            line: LineBuffer::new(alloc),
            first: None,
            last: None,
        }
    }

    /// The whole lines that there are with these bytes.
    fn take<R: AllocGlobal + Clock>(&mut self, rt: &R, more: &[u8]) -> io::Result<Vec<u8>> {
        let lines = self.line.take(rt.alloc(), more)?;
        let now = Instant::now(rt)?;
        if self.line.is_empty() {
            self.first = None;
        } else if self.first.is_none() || !lines.is_empty() {
            self.first = Some(now);
        }
        self.last = Some(now);
        Ok(lines)
    }

    /// The beginning of a line, where it waited long enough.
    fn take_due<R: AllocGlobal + Clock>(&mut self, rt: &R) -> io::Result<Vec<u8>> {
        if self.first.is_none() {
            return Ok(Vec::new(rt.alloc()));
        }
        let (silence, age) = (age_of(rt, self.last)?, age_of(rt, self.first)?);
        let due = self.line.take_due(rt.alloc(), silence, age);
        if self.line.is_empty() {
            self.first = None;
        }
        Ok(due)
    }

    /// What is left once its program has ended.
    fn take_all(&mut self, alloc: Global) -> Vec<u8> {
        self.first = None;
        self.line.take_all(alloc)
    }
}

/// A rank: what runs of it, and what it wrote so far of a line.
pub struct Rank<'a, P: OpenProcess> {
    /// The start of what runs, or ran last.
    pub start: Start<'a>,
    /// What runs of it on this machine.
    pub child: Option<Child<P>>,
    /// Why it couldn't be started.
    pub fault: StartFault,
    output: Option<PipeReader>,
    errors: Option<P::Stderr>,
    written: Written,
    told: Written,
    /// Whether its program runs on another host, where a keeper keeps it, or is to be started there.
    is_kept: bool,
    /// How the program ended that the keeper keeps, once it has reported that.
    reported: Option<ProgramEnding>,
}

impl<'a, P: OpenProcess + Drop> Drop for Rank<'a, P> {
    fn drop(self) {
        let Self {
            start: _,
            child,
            fault: _,
            output,
            errors,
            written,
            told,
            is_kept: _,
            reported: _,
        } = self;
        drop(child);
        drop(output);
        drop(errors);
        drop(written);
        drop(told);
    }
}

/// Reads from a pipe, if it is open, and answers the whole lines that there are then. Where the pipe has ended it is
/// closed.
fn read_lines<R: AllocGlobal + Clock, S: Read + Drop>(
    rt: &R,
    pipe: &mut Option<S>,
    written: &mut Written,
) -> io::Result<Vec<u8>> {
    let mut room = [0u8; ROOM];
    let Some(open) = pipe else {
        return Ok(Vec::new(rt.alloc()));
    };
    match open.read(&mut room) {
        Ok(0) => {
            *pipe = None;
            Ok(Vec::new(rt.alloc()))
        }
        Ok(count) => written.take(rt, &room[..count]),
        Err(error) if error.kind() == ErrorKind::Interrupted => Ok(Vec::new(rt.alloc())),
        Err(error) => Err(error),
    }
}

/// On which stream of this process the bytes of a report are printed, if it is of such.
fn stream_of(kind: ReportKind) -> Option<Stream>
    ensures { result ≡ stream_of kind }
{
    match kind {
        ReportKind::Output => Some(Stream::Output),
        ReportKind::Errors => Some(Stream::Error),
        ReportKind::Status
        | ReportKind::Signal
        | ReportKind::Nothing
        | ReportKind::Ready
        | ReportKind::Taken => None,
    }
}

impl<'a, P: OpenProcess<Stdin: AsRawFd, Stderr: AsRawFd> + Drop> Rank<'a, P> {
    /// A rank of which nothing runs yet.
    pub fn new(alloc: Global, start: Start<'a>) -> Rank<'a, P> {
        Rank {
            start,
            child: None,
            fault: StartFault::Other,
            output: None,
            errors: None,
            written: Written::new(alloc),
            told: Written::new(alloc),
            is_kept: false,
            reported: None,
        }
    }

    /// This runs now, and this is its output.
    pub fn runs(&mut self, mut child: Child<P>, output: PipeReader) {
        self.output = Some(output);
        self.errors = child.stderr.take();
        self.child = Some(child);
        self.is_kept = false;
    }

    /// The keeper on its host is told to start its program.
    pub fn is_kept_far(&mut self) {
        self.is_kept = true;
        self.reported = None;
    }

    /// Whether its program is kept on another host.
    pub fn is_kept(&self) -> bool {
        self.is_kept
    }

    /// Its program is kept there no more.
    pub fn is_let_go(&mut self) {
        self.is_kept = false;
    }

    /// Its program couldn't be started on its host, for this reason.
    pub fn has_no_keeper(&mut self, fault: StartFault) {
        self.reported = Some(ProgramEnding::NotStarted);
        self.fault = fault;
    }

    /// Whether its program runs, here or on another host.
    pub fn runs_anywhere(&self) -> bool {
        self.child.is_some() || self.is_kept
    }

    /// Whether its keeper has reported its program's end.
    pub fn has_reported(&self) -> bool {
        self.is_kept && self.reported.is_some()
    }

    /// Lets its program's standard input end, where this process holds the other end. Answers whether it does.
    pub fn closes_input(&mut self) -> bool {
        match &mut self.child {
            Some(child) => child.stdin.take().is_some(),
            None => false,
        }
    }

    /// Whether it had a keeper, which reported no end.
    pub fn has_lost_keeper(&self) -> bool
        ensures { result ≡ (self.now.is_kept && is_none self.now.reported) }
    {
        self.is_kept && self.reported.is_none()
    }

    /// How its program ended, where what ran ended so.
    pub fn ending(&self, own: ProgramEnding) -> ProgramEnding
        ensures { result ≡ rank_ending self.now.is_kept self.now.reported own }
    {
        rank_ending(self.is_kept, self.reported, own)
    }

    /// Notes what a report of its keeper tells of the program's end, if it tells that.
    fn note_end(&mut self, report: &Report)
        ensures { self.new.reported ≡ told_behind
            (ending_told report.now.kind (first_byte report.now.bytes.now)) self.old.reported }
    {
        if let Some(ending) = report.ending() {
            self.reported = Some(ending);
            self.fault = StartFault::of_number(report.number());
        }
    }

    /// Takes in what its keeper reports of it.
    pub fn take_report<R: AllocGlobal + Clock>(
        &mut self,
        rt: &R,
        report: &Report,
        rank: usize,
        printer: &mut Printer,
    ) -> io::Result<()>
        ensures { OnOk result (self.new.reported ≡ told_behind
            (ending_told report.now.kind (first_byte report.now.bytes.now)) self.old.reported) }
    {
        self.note_end(report);
        let Some(stream) = stream_of(report.kind) else {
            return Ok(());
        };
        let lines = match stream {
            Stream::Output => self.written.take(rt, report.bytes)?,
            Stream::Error => self.told.take(rt, report.bytes)?,
        };
        printer.print(rt.alloc(), stream, rank, lines)
    }

    /// Prints what the process says itself that leads to its host.
    pub fn tell_of_link<R: AllocGlobal + Clock>(
        &mut self,
        rt: &R,
        bytes: &[u8],
        rank: usize,
        printer: &mut Printer,
    ) -> io::Result<()> {
        let lines = self.told.take(rt, bytes)?;
        printer.print(rt.alloc(), Stream::Error, rank, lines)
    }

    /// The descriptor of what it prints; -1 where that is closed.
    pub fn output_descriptor(&self) -> RawFd {
        match &self.output {
            Some(pipe) => pipe.as_raw_fd(),
            None => -1,
        }
    }

    /// The descriptor of its errors; -1 where that is closed.
    pub fn error_descriptor(&self) -> RawFd {
        match &self.errors {
            Some(pipe) => pipe.as_raw_fd(),
            None => -1,
        }
    }

    /// Whether it closed what it writes to, and has not ended yet.
    pub fn is_closed(&self) -> bool {
        self.child.is_some() && self.output.is_none() && self.errors.is_none()
    }

    /// Reads from one of its streams, which is ready, and prints the whole lines that there are then.
    pub fn hear<R: AllocGlobal + Clock>(
        &mut self,
        rt: &R,
        stream: Stream,
        rank: usize,
        printer: &mut Printer,
    ) -> io::Result<()> {
        let lines = match stream {
            Stream::Output => read_lines(rt, &mut self.output, &mut self.written)?,
            Stream::Error => read_lines(rt, &mut self.errors, &mut self.told)?,
        };
        printer.print(rt.alloc(), stream, rank, lines)
    }

    /// Prints the beginnings of lines that waited long enough.
    pub fn hand_on<R: AllocGlobal + Clock>(
        &mut self,
        rt: &R,
        rank: usize,
        printer: &mut Printer,
    ) -> io::Result<()> {
        let output = self.written.take_due(rt)?;
        printer.print(rt.alloc(), Stream::Output, rank, output)?;
        let errors = self.told.take_due(rt)?;
        printer.print(rt.alloc(), Stream::Error, rank, errors)
    }

    /// How its program ended, if it has.
    pub fn look(&mut self) -> io::Result<Option<ExitStatus>> {
        match &mut self.child {
            Some(child) => child.try_wait(),
            None => Ok(None),
        }
    }

    /// Prints what is left of an ended program's writing, the beginning of a line too, which gets its end.
    pub fn drain<R: AllocGlobal + Clock>(
        &mut self,
        rt: &R,
        rank: usize,
        printer: &mut Printer,
    ) -> io::Result<()> {
        for _ in 0..MOST_READS {
            if !is_ready(self.output_descriptor()) {
                break;
            }
            self.hear(rt, Stream::Output, rank, printer)?;
        }
        for _ in 0..MOST_READS {
            if !is_ready(self.error_descriptor()) {
                break;
            }
            self.hear(rt, Stream::Error, rank, printer)?;
        }
        self.output = None;
        self.errors = None;
        let output = self.written.take_all(rt.alloc());
        printer.print(rt.alloc(), Stream::Output, rank, output)?;
        printer.finish(Stream::Output, rank)?;
        let errors = self.told.take_all(rt.alloc());
        printer.print(rt.alloc(), Stream::Error, rank, errors)?;
        printer.finish(Stream::Error, rank)
    }
}
