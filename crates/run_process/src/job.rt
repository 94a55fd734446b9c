//! A job while its ranks run: it prints what they write, starts them again, and ends them.

ghost use Rattle.std.specs.Prelude.{◌≡◌};
ghost use Rattle.run_plan.specs.Ends.{job_status};

use crate::guard::Guard;
use crate::link::Link;
use crate::own_input::{OwnInput, PIECE, Read};
use crate::printing::{Printer, Stream, asked, asked_to_write, is_ready};
use crate::rank::Rank;
use crate::setup::Setup;
use crate::shell::terminate;
use crate::sought::{Sought, fault_of};
use crate::waits::cycle_text;
use crate::wish::Wish;
use host_keepers::{OrderKind, Report, ReportKind, may_connect, next_report};
use launch_decisions::{Failure, Next, Start, ending_of, first_failure};
use launch_keeper::{After, EndingLine, LostKeeperLine, ProgramEnding};
use launch_plan::Plan;
use libc::net::poll;
use libc::types::pollfd;
use process_commands::StartFault;
use rank_lines::cycle_of;
use run_plan::{
    Consequence, ConsequenceText, EndStep, SignalText, consequence_of, end_step, is_over_time,
    job_status, run_status,
};
use std::alloc::{AllocError, Global};
use std::io;
use std::os::fd::{AsRawFd, RawFd};
use std::process::{OpenProcess, Processes};
use std::rt::Files;
use std::time::{Clock, Instant};

/// The time between two looks at the programs, in milliseconds.
const LOOK: i32 = 50;

/// The same, for output that never pauses.
const LATEST_LOOK: u128 = 50;

/// The same, where one has closed what it writes to.
const SOON: i32 = 2;

/// How many descriptors of a rank are asked, and of a connection.
const RANK_STREAMS: usize = 2;

const LINK_STREAMS: usize = 3;

/// How often what an ended connection left is read.
const MOST_READS: usize = 4_096;

/// How many milliseconds a keeper has to kill its programs, before the connection is cut.
const LINK_GRACE: u64 = 1_000;

/// How many milliseconds a connection has to end whose ranks have all ended, and then to end where it is killed.
const CLOSING: u64 = 2_000;

const CUTTING: u64 = 4_000;

/// The status of a rank that gave up waiting.
const PATIENCE: u8 = 4;

/// The status of a job whose own output failed, or for which memory was wanting.
pub const FAILED: u8 = 3;

/// A job while its ranks run.
pub struct Job<'a, R: Processes> {
    rt: &'a R,
    setup: &'a Setup<'a>,
    ranks: Vec<Rank<'a, R::Started>>,
    /// The connections to other hosts.
    links: Vec<Link<R::Started>>,
    /// The standard input of this process, where rank 0 is on another host.
    input: OwnInput,
    guard: Guard<R::Started>,
    printer: Printer,
    /// The first rank that failed for good.
    began: Option<Failure>,
    /// When the programs were asked to end.
    asked: Option<Instant>,
    /// When the keepers were told to kill them.
    killed: Option<Instant>,
    /// How the user asks for the end of the job.
    wish: Wish,
    /// Whether the job was interrupted.
    is_interrupted: bool,
    /// When the job began.
    start: Instant,
    /// Whether it took longer than it may.
    is_late: bool,
}

impl<'a, R: Processes> Drop for Job<'a, R> {
    fn drop(self) {
        let Self {
            rt: _,
            setup: _,
            ranks,
            links,
            input: _,
            guard,
            printer,
            began: _,
            asked: _,
            killed: _,
            wish: _,
            is_interrupted: _,
            start: _,
            is_late: _,
        } = self;
        drop(ranks);
        drop(links);
        drop(guard);
        drop(printer);
    }
}

/// How many milliseconds have passed since then.
pub fn milliseconds_since<R: Clock>(rt: &R, time: &Instant) -> io::Result<u64> {
    Ok(u64::try_from(time.elapsed(rt)?.as_millis()).unwrap_or(u64::MAX))
}

/// A program's name as it is told: quotes alone where it is empty.
fn told_name(program: &[u8]) -> &[u8] {
    if program.is_empty() { b"''" } else { program }
}

/// The line on a program's end: its reason, where one is known, in front of what follows.
fn told_ending(
    alloc: Global,
    line: &EndingLine<'_>,
    fault: StartFault,
    consequence: Consequence,
) -> Result<String, AllocError> {
    let ending = line.ending;
    let ended = EndingLine {
        rank: line.rank,
        program: line.program,
        ending,
        after: After::End(0),
    };
    let ended = format!(in alloc; "{ended}")?;
    let whole = format!(in alloc; "{line}")?;
    let after = whole.as_str().strip_prefix(ended.as_str()).unwrap_or("");
    let why = match ending {
        ProgramEnding::NotStarted => fault,
        _ => StartFault::Other,
    };
    let (signal, behind) = (SignalText { ending }, ConsequenceText { consequence });
    format!(in alloc; "{ended}{why}{signal}{after}{behind}")
}

impl<
    'a,
    R: Eprint
        + AllocGlobal
        + Files
        + Clock
        + Processes<Started: OpenProcess<Stdin: AsRawFd, Stderr: AsRawFd>>,
> Job<'a, R> {
    /// The job of a plan, of which nothing runs yet.
    pub fn new(rt: &'a R, setup: &'a Setup<'a>, plan: &'a Plan) -> io::Result<Job<'a, R>> {
        let mut ranks = Vec::new(rt.alloc());
        for rank in 0..plan.size() {
            ranks
                .push(Rank::new(rt.alloc(), Start::first(plan, rank)))
                .map_err(AllocError::from)?;
        }
        let mut links = Vec::new(rt.alloc());
        let count = match setup.hosts {
            Some(hosts) => hosts.keeper_count(),
            None => 0,
        };
        for _ in 0..count {
            links.push(Link::new(rt.alloc())).map_err(AllocError::from)?;
        }
        Ok(Job {
            rt,
            setup,
            ranks,
            links,
            input: OwnInput::new(),
            guard: Guard::new(rt),
            printer: Printer::new(rt.alloc(), setup.options.marks_lines),
            began: None,
            asked: None,
            killed: None,
            wish: Wish::new(setup.front),
            is_interrupted: false,
            start: Instant::now(rt)?,
            is_late: false,
        })
    }

    /// The place of a rank's keeper among the connections, where it is on another host.
    fn keeper_of(&self, rank: usize) -> Option<usize> {
        self.setup.hosts?.keeper_of(rank)
    }

    /// Lets the keeper at this place start the program of a rank, once it is there.
    fn order_start(&mut self, rank: usize, place: usize) -> io::Result<()> {
        let alloc = self.rt.alloc();
        let (Some(one), Some(link)) = (self.ranks.get_mut(rank), self.links.get_mut(place)) else {
            return Ok(());
        };
        let message = self.setup.message(alloc, &one.start)?;
        one.is_kept_far();
        if rank != 0 {
            return link.order(OrderKind::Start, rank, &message);
        }
        link.order(OrderKind::StartWithInput, rank, &message)?;
        self.input.is_taken();
        if !self.input.is_open() {
            link.order(OrderKind::InputEnd, rank, &[])?;
        }
        Ok(())
    }

    /// Starts the program of a rank once, on its host. Answers whether it runs, or is to be started there.
    fn spawn(&mut self, rank: usize) -> io::Result<bool> {
        match self.keeper_of(rank) {
            Some(place) => {
                self.order_start(rank, place)?;
                Ok(true)
            }
            None => self.spawn_here(rank),
        }
    }

    /// Starts the program of a rank once, on this machine. Answers whether it runs.
    fn spawn_here(&mut self, rank: usize) -> io::Result<bool> {
        let Some(one) = self.ranks.get_mut(rank) else {
            return Ok(true);
        };
        let command = self.setup.command(self.rt.alloc(), rank, &one.start)?;
        let sought = Sought::by(self.rt, &command);
        match self.guard.spawn(self.rt, command) {
            Ok((child, output)) => {
                one.runs(child, output);
                Ok(true)
            }
            Err(error) => {
                one.fault = sought.fault(&error);
                Ok(false)
            }
        }
    }

    /// Starts the program of a rank, and again where it can't be started and a restart is left.
    fn start(&mut self, rank: usize) -> io::Result<()> {
        for _ in 0..u64::MAX {
            if self.spawn(rank)? || !self.take_in(rank, ProgramEnding::NotStarted)? {
                break;
            }
        }
        Ok(())
    }

    /// Starts the programs of all ranks, in rank order, as long as none has failed for which the others end.
    pub fn start_all(&mut self) -> io::Result<()> {
        for rank in 0..self.ranks.len() {
            if self.began.is_none() || self.setup.options.keeps_going {
                self.start(rank)?;
            }
        }
        Ok(())
    }

    /// Whether programs of other ranks still run.
    fn others_run(&self, rank: usize) -> bool {
        self.ranks
            .iter()
            .enumerate()
            .any(|(other, one)| other != rank && one.runs_anywhere())
    }

    /// Asks the keepers on other hosts to end their programs. Those of hosts to which no connection has begun never start.
    fn ask_keepers(&mut self) -> io::Result<()> {
        for place in 0..self.links.len() {
            let Some(link) = self.links.get_mut(place) else {
                break;
            };
            if link.runs() {
                link.order(OrderKind::Ask, 0, &[])?;
                continue;
            }
            link.forget();
            for rank in 0..self.ranks.len() {
                if self.keeper_of(rank) == Some(place) {
                    if let Some(one) = self.ranks.get_mut(rank) {
                        one.is_let_go();
                    }
                }
            }
        }
        Ok(())
    }

    /// Asks all programs that run to end. Where the job was interrupted, a rank of a script is told by the end of its
    /// input, and says where it stands.
    fn ask_all(&mut self) -> io::Result<()> {
        if self.asked.is_some() {
            return Ok(());
        }
        self.asked = Some(Instant::now(self.rt)?);
        self.ask_keepers()?;
        let mut running = Vec::new(self.rt.alloc());
        for one in self.ranks.iter_mut() {
            if self.is_interrupted && one.closes_input() {
                continue;
            }
            if let Some(child) = &one.child {
                running.push(child.id()).map_err(AllocError::from)?;
            }
        }
        terminate(self.rt, &running);
        Ok(())
    }

    /// Kills all programs that run on this machine.
    pub fn kill_all(&mut self) {
        for one in self.ranks.iter_mut() {
            if let Some(child) = &mut one.child {
                let _ = child.kill();
            }
        }
    }

    /// Kills all programs: those on other hosts by their keepers. A connection that hasn't come about is cut, and one whose
    /// keeper doesn't do so in time.
    fn kill_everywhere(&mut self) -> io::Result<()> {
        self.kill_all();
        let is_over = match self.killed {
            Some(killed) => milliseconds_since(self.rt, &killed)? >= LINK_GRACE,
            None => false,
        };
        for link in self.links.iter_mut() {
            if is_over || link.is_beginning() {
                link.kill();
            } else if self.killed.is_none() && link.runs() {
                link.order(OrderKind::Kill, 0, &[])?;
            }
        }
        if self.killed.is_none() {
            self.killed = Some(Instant::now(self.rt)?);
        }
        Ok(())
    }

    /// Tells that a rank failed, and what follows.
    fn tell(&self, rank: usize, ending: ProgramEnding, next: &Next, consequence: Consequence) {
        let Some(one) = self.ranks.get(rank) else {
            return;
        };
        let Ok(Some(words)) = one.start.words(self.rt.alloc()) else {
            return;
        };
        let Some(program) = words.as_slice().first() else {
            return;
        };
        let line = EndingLine {
            rank: u16::try_from(rank).unwrap_or(u16::MAX),
            program: told_name(program.as_bytes()),
            ending,
            after: next.after(),
        };
        if let Ok(text) = told_ending(self.rt.alloc(), &line, one.fault, consequence) {
            self.setup.tell(self.rt, text.as_str());
        }
    }

    /// Tells that the keeper of a rank ended before its report.
    fn tell_lost(&self, rank: usize) {
        if self.asked.is_some() {
            return;
        }
        let line = LostKeeperLine { rank };
        if let Ok(text) = format!(in self.rt.alloc(); "{line}") {
            self.setup.tell(self.rt, text.as_str());
        }
    }

    /// Takes in that a rank has ended for good so. Where it is the first that failed, the others are ended, unless they
    /// are to go on.
    fn fail(&mut self, rank: usize, ending: ProgramEnding, next: &Next) -> io::Result<()> {
        let number = u16::try_from(rank).unwrap_or(u16::MAX);
        self.began = first_failure(self.began, number, run_status(ending));
        if !ending.is_failure() {
            return Ok(());
        }
        let consequence = consequence_of(self.setup.options.keeps_going, self.others_run(rank));
        self.tell(rank, ending, next, consequence);
        if consequence == Consequence::Nothing {
            return Ok(());
        }
        if run_status(ending) != PATIENCE {
            self.printer.drop_waits();
        }
        self.ask_all()
    }

    /// Takes in that a rank's program ended so. Answers whether it is to be started again.
    fn take_in(&mut self, rank: usize, ending: ProgramEnding) -> io::Result<bool> {
        let Some(one) = self.ranks.get_mut(rank) else {
            return Ok(false);
        };
        if self.asked.is_some() {
            return Ok(false);
        }
        let next = one.start.next(ending);
        let Next::Starts(again) = next else {
            if let Some(marks) = self.setup.marks {
                marks.end(u16::try_from(rank).unwrap_or(u16::MAX));
            }
            self.fail(rank, ending, &next)?;
            return Ok(false);
        };
        self.tell(rank, ending, &next, Consequence::Nothing);
        if let Some(one) = self.ranks.get_mut(rank) {
            one.start = again;
        }
        Ok(true)
    }

    /// Looks whether a rank's program has ended, and takes that in.
    fn look(&mut self, rank: usize) -> io::Result<()> {
        let Some(one) = self.ranks.get_mut(rank) else {
            return Ok(());
        };
        let Some(status) = one.look()? else {
            return Ok(());
        };
        one.drain(self.rt, rank, &mut self.printer)?;
        if let Some(child) = one.child.take() {
            self.guard.ends(self.rt, child.id());
        }
        if self.take_in(rank, ending_of(status))? {
            self.start(rank)?;
        }
        Ok(())
    }

    /// Takes in that a rank's program on another host has ended, as its keeper reported, or is lost with its keeper.
    fn end_far(&mut self, rank: usize) -> io::Result<()> {
        let Some(one) = self.ranks.get_mut(rank) else {
            return Ok(());
        };
        one.drain(self.rt, rank, &mut self.printer)?;
        let ending = one.ending(ProgramEnding::WithoutStatus);
        let is_lost = one.has_lost_keeper();
        one.is_let_go();
        if is_lost {
            self.tell_lost(rank);
        }
        if self.take_in(rank, ending)? {
            self.start(rank)?;
        }
        Ok(())
    }

    /// The keeper at this place is gone, or couldn't be started for this reason: so are its ranks.
    fn lose_keeper(&mut self, place: usize, fault: Option<StartFault>) -> io::Result<()> {
        for rank in 0..self.ranks.len() {
            if self.keeper_of(rank) != Some(place) {
                continue;
            }
            let Some(one) = self.ranks.get_mut(rank) else {
                continue;
            };
            if !one.is_kept() {
                continue;
            }
            if let Some(fault) = fault {
                one.has_no_keeper(fault);
            }
            self.end_far(rank)?;
        }
        Ok(())
    }

    /// Begins the connection at this place.
    fn connect_to(&mut self, place: usize) -> io::Result<()> {
        let Some(hosts) = self.setup.hosts else {
            return Ok(());
        };
        let Some(host) = hosts.keeper_host(place) else {
            return Ok(());
        };
        let command = self.setup.keeper_command(self.rt.alloc(), host)?;
        let spawned = self.guard.spawn(self.rt, command);
        let Some(link) = self.links.get_mut(place) else {
            return Ok(());
        };
        match spawned {
            Ok((child, output)) => {
                link.begins(child, output);
                Ok(())
            }
            Err(error) => {
                link.forget();
                self.lose_keeper(place, Some(fault_of(&error)))
            }
        }
    }

    /// Begins the connections that are wanted, a few at a time.
    fn connect(&mut self) -> io::Result<()> {
        for place in 0..self.links.len() {
            let is_wanted = match self.links.get(place) {
                Some(link) => link.is_wanted(),
                None => false,
            };
            if is_wanted
                && may_connect(self.links.iter().filter(|one| one.is_beginning()).count())
            {
                self.connect_to(place)?;
            }
        }
        Ok(())
    }

    /// Takes in what the keeper at this place reports.
    fn take_report(&mut self, place: usize, report: &Report<'_>) -> io::Result<()> {
        let rank = usize::from(report.rank);
        match report.kind {
            ReportKind::Ready => {
                if let Some(link) = self.links.get_mut(place) {
                    link.is_there();
                }
                return Ok(());
            }
            ReportKind::Taken => {
                self.input.is_taken();
                return Ok(());
            }
            _ => {}
        }
        if self.keeper_of(rank) != Some(place) {
            return Ok(());
        }
        let Some(one) = self.ranks.get_mut(rank) else {
            return Ok(());
        };
        if !one.is_kept() {
            return Ok(());
        }
        one.take_report(self.rt, report, rank, &mut self.printer)?;
        if one.has_reported() {
            self.end_far(rank)?;
        }
        Ok(())
    }

    /// Reads what came of the keeper at this place, and takes in the reports that came whole.
    fn hear_keeper(&mut self, place: usize) -> io::Result<()> {
        let alloc = self.rt.alloc();
        let Some(link) = self.links.get_mut(place) else {
            return Ok(());
        };
        link.read()?;
        let text = link.take_reports(alloc);
        let mut rest = text.as_slice();
        for _ in 0..u64::MAX {
            let Some((report, behind)) = next_report(rest) else {
                break;
            };
            self.take_report(place, &report)?;
            rest = behind;
        }
        match self.links.get_mut(place) {
            Some(link) => link.leave_reports(alloc, rest),
            None => Ok(()),
        }
    }

    /// Reads what the process says itself that leads to the keeper at this place, and prints it as the errors of the first
    /// rank there.
    fn hear_link(&mut self, place: usize) -> io::Result<()> {
        let Some(hosts) = self.setup.hosts else {
            return Ok(());
        };
        let rank = hosts.first_rank(place);
        let (Some(link), Some(one)) = (self.links.get_mut(place), self.ranks.get_mut(rank)) else {
            return Ok(());
        };
        let bytes = link.read_errors(self.rt.alloc())?;
        one.tell_of_link(self.rt, &bytes, rank, &mut self.printer)
    }

    /// Takes in that the process has ended that leads to the keeper at this place.
    fn end_link(&mut self, place: usize) -> io::Result<()> {
        for _ in 0..MOST_READS {
            let fd = match self.links.get(place) {
                Some(link) => link.output_descriptor(),
                None => -1,
            };
            if !is_ready(fd) {
                break;
            }
            self.hear_keeper(place)?;
        }
        for _ in 0..MOST_READS {
            let fd = match self.links.get(place) {
                Some(link) => link.error_descriptor(),
                None => -1,
            };
            if !is_ready(fd) {
                break;
            }
            self.hear_link(place)?;
        }
        if let Some(link) = self.links.get_mut(place) {
            if let Some(id) = link.ends() {
                self.guard.ends(self.rt, id);
            }
        }
        self.drain_link(place)?;
        self.lose_keeper(place, None)
    }

    /// Prints what is left of what the process said itself that led to the keeper at this place.
    fn drain_link(&mut self, place: usize) -> io::Result<()> {
        let Some(hosts) = self.setup.hosts else {
            return Ok(());
        };
        let rank = hosts.first_rank(place);
        match self.ranks.get_mut(rank) {
            Some(one) => one.drain(self.rt, rank, &mut self.printer),
            None => Ok(()),
        }
    }

    /// Looks at the processes that lead to keepers: at those that closed what they write to, or at all of them.
    fn look_at_links(&mut self, all: bool) -> io::Result<()> {
        for place in 0..self.links.len() {
            let ended = match self.links.get_mut(place) {
                Some(link) if all || link.is_closed() => link.look()?,
                _ => None,
            };
            if ended.is_some() {
                self.end_link(place)?;
            }
        }
        Ok(())
    }

    /// Ends the connections, since all ranks have ended, and waits for that.
    fn close_links(&mut self) -> io::Result<()> {
        for link in self.links.iter_mut() {
            link.close();
        }
        let begun = Instant::now(self.rt)?;
        for _ in 0..u64::MAX {
            let passed = milliseconds_since(self.rt, &begun)?;
            if passed >= CUTTING || !self.links.iter().any(|one| one.runs()) {
                break;
            }
            if passed >= CLOSING {
                for link in self.links.iter_mut() {
                    link.kill();
                }
            }
            let _heard = self.hear_all()?;
            self.look_at_links(true)?;
        }
        Ok(())
    }

    /// Where the own standard input is to be read now, which rank 0 on another host gets; else -1.
    fn input_descriptor(&self) -> RawFd {
        let is_kept = self.ranks.first().is_some_and(|one| one.is_kept());
        if is_kept && self.asked.is_none() {
            self.input.descriptor()
        } else {
            -1
        }
    }

    /// Hands a piece of the own standard input on to rank 0 on its host.
    fn hand_input_on(&mut self) -> io::Result<()> {
        let Some(place) = self.keeper_of(0) else {
            return Ok(());
        };
        let Some(link) = self.links.get_mut(place) else {
            return Ok(());
        };
        let mut room = [0u8; PIECE];
        match self.input.read(&mut room) {
            Read::Nothing => Ok(()),
            Read::Bytes(count) => link.order(OrderKind::Input, 0, &room[..count.min(PIECE)]),
            Read::End => link.order(OrderKind::InputEnd, 0, &[]),
        }
    }

    /// What to ask of all streams: those of a rank side by side, what tells the user's wish, those of a connection side by
    /// side, and the own standard input.
    fn streams(&self) -> io::Result<Vec<pollfd>> {
        let mut all = Vec::with_capacity(self.rt.alloc(), self.ranks.len().saturating_mul(2))?;
        for one in &self.ranks {
            all.push(asked(one.output_descriptor()))
                .map_err(AllocError::from)?;
            all.push(asked(one.error_descriptor()))
                .map_err(AllocError::from)?;
        }
        all.push(asked(self.wish.descriptor()))
            .map_err(AllocError::from)?;
        for one in &self.links {
            all.push(asked(one.output_descriptor()))
                .map_err(AllocError::from)?;
            all.push(asked(one.error_descriptor()))
                .map_err(AllocError::from)?;
            all.push(asked_to_write(one.input_descriptor()))
                .map_err(AllocError::from)?;
        }
        all.push(asked(self.input_descriptor()))
            .map_err(AllocError::from)?;
        Ok(all)
    }

    /// Does what is due at a stream of a connection, which is ready, or at the own standard input behind all of them.
    fn attend_link(&mut self, place: usize) -> io::Result<()> {
        let (place, stream) = (place / LINK_STREAMS, place % LINK_STREAMS);
        let Some(link) = self.links.get_mut(place) else {
            return self.hand_input_on();
        };
        match stream {
            0 => self.hear_keeper(place),
            1 => self.hear_link(place),
            _ => {
                link.hand_over();
                Ok(())
            }
        }
    }

    /// Does what is due at a stream, which is ready.
    fn attend_stream(&mut self, place: usize) -> io::Result<()> {
        let rank = place / RANK_STREAMS;
        if let Some(one) = self.ranks.get_mut(rank) {
            let stream = if place % RANK_STREAMS == 0 {
                Stream::Output
            } else {
                Stream::Error
            };
            return one.hear(self.rt, stream, rank, &mut self.printer);
        }
        let front = self.ranks.len().saturating_mul(RANK_STREAMS);
        match place.checked_sub(front.saturating_add(1)) {
            Some(behind) => self.attend_link(behind),
            None => Ok(()),
        }
    }

    /// Waits until a rank has written something, or it is time to look at the programs, and prints what came. Answers
    /// whether something was to be read.
    fn hear_all(&mut self) -> io::Result<bool> {
        let mut streams = self.streams()?;
        let is_soon = self.ranks.iter().any(|one| one.is_closed())
            || self.links.iter().any(|one| one.is_closed());
        if poll(&mut streams, if is_soon { SOON } else { LOOK }) <= 0 {
            return Ok(false);
        }
        for (place, asked) in streams.iter().enumerate() {
            if asked.revents != 0 {
                self.attend_stream(place)?;
            }
        }
        Ok(true)
    }

    /// Prints the beginnings of lines that waited long enough.
    fn hand_on_all(&mut self) -> io::Result<()> {
        for (rank, one) in self.ranks.iter_mut().enumerate() {
            one.hand_on(self.rt, rank, &mut self.printer)?;
        }
        Ok(())
    }

    /// Ends the job where it takes longer than it may.
    fn attend_to_limit(&mut self) -> io::Result<()> {
        let limit = self.setup.options.timeout;
        let seconds = self.start.elapsed(self.rt)?.as_secs();
        if self.asked.is_none() && is_over_time(limit, seconds) {
            self.is_late = true;
            self.setup.tell(
                self.rt,
                "mpiexec: the job has taken as long as it may; the ranks are ended",
            );
            self.ask_all()?;
        }
        Ok(())
    }

    /// Ends the job since the user asks for it.
    fn interrupt(&mut self) -> io::Result<()> {
        self.is_interrupted = true;
        self.setup
            .tell(self.rt, "mpiexec: interrupted; the ranks are ended");
        self.ask_all()
    }

    /// Lets those programs be that don't end though they were killed, and tells which.
    fn leave_all(&mut self) {
        for (rank, one) in self.ranks.iter_mut().enumerate() {
            if let Some(child) = one.child.take() {
                let id = child.id();
                let _ = eprintln!(self.rt;
                    "mpirun: rank {rank} doesn't end: its process {id} is left"
                );
            } else if one.is_kept() {
                one.is_let_go();
                let _ = eprintln!(self.rt;
                    "mpirun: rank {rank} doesn't end: its process on another host is left"
                );
            }
        }
    }

    /// Does what is due for the job's end: where it takes longer than it may, where the user asks for it, and where what
    /// was asked to end had the time to.
    fn attend(&mut self) -> io::Result<()> {
        self.attend_to_limit()?;
        self.wish.listen();
        let passed = match self.asked {
            Some(asked) => Some(milliseconds_since(self.rt, &asked)?),
            None => None,
        };
        match end_step(self.wish.requests(), passed) {
            EndStep::Wait => {}
            EndStep::Ask => self.interrupt()?,
            EndStep::Kill => self.kill_everywhere()?,
            EndStep::Leave => self.leave_all(),
        }
        Ok(())
    }

    /// Looks at the programs: at those that closed what they write to, or at all of them.
    fn look_at(&mut self, all: bool) -> io::Result<()> {
        for rank in 0..self.ranks.len() {
            let is_due = match self.ranks.get(rank) {
                Some(one) => one.child.is_some() && (all || one.is_closed()),
                None => false,
            };
            if is_due {
                self.look(rank)?;
            }
        }
        Ok(())
    }

    /// Whether a program runs.
    fn some_run(&self) -> bool {
        self.ranks.iter().any(|one| one.runs_anywhere())
    }

    /// Follows the ranks until all have ended.
    pub fn follow(&mut self) -> io::Result<()> {
        let mut last = Instant::now(self.rt)?;
        for _ in 0..u64::MAX {
            self.connect()?;
            if !self.some_run() {
                break;
            }
            let has_heard = self.hear_all()?;
            let is_time = !has_heard || last.elapsed(self.rt)?.as_millis() >= LATEST_LOOK;
            if is_time {
                last = Instant::now(self.rt)?;
                self.hand_on_all()?;
            }
            self.look_at(is_time)?;
            self.look_at_links(is_time)?;
            self.attend()?;
        }
        self.close_links()
    }

    /// Tells which stream couldn't be written, and why, if there is one. Answers whether there is.
    pub fn tell_fault(&self) -> bool {
        match self.printer.fault() {
            Some((Stream::Output, error)) => {
                let _ = eprintln!(self.rt; "mpirun: the output can't be written: {error}");
                true
            }
            Some((Stream::Error, error)) => {
                let _ = eprintln!(self.rt; "mpirun: the standard error can't be written: {error}");
                true
            }
            None => false,
        }
    }

    /// Tells a cycle of ranks that wait for one another, where the job was interrupted or a rank gave up, and what the ranks
    /// said makes one.
    fn tell_cycle(&self) {
        let has_given_up = self.began.is_some_and(|failure| failure.status == PATIENCE);
        if !self.is_interrupted && !self.is_late && !has_given_up {
            return;
        }
        if let Ok(Some(cycle)) = cycle_of(self.rt.alloc(), self.printer.waits()) {
            if let Ok(text) = cycle_text(self.rt.alloc(), &cycle) {
                let _ = eprintln!(self.rt; "mpirun: {text}");
            }
        }
    }

    /// The status of the job, whose ranks have all ended: that of the rank whose failure began, or 0.
    pub fn status(&mut self) -> u8
        ensures { result ≡ job_status self.old.began self.old.is_interrupted self.old.is_late }
    {
        self.tell_cycle();
        self.guard.close();
        job_status(self.began, self.is_interrupted, self.is_late)
    }
}
