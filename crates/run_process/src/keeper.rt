//! The keeper on another host. It starts the programs of the ranks there, whose words it is handed over its standard
//! input, reports what they write and how they end over its standard output, and ends them where the launcher asks for it
//! or is gone.

ghost use Rattle.std.specs.Prelude.{◌≡◌, Some, true, is_some, IfSome, OnOk};

use crate::guard::Guard;
use crate::job::milliseconds_since;
use crate::kept::{Kept, report, started};
use crate::printing::{asked, asked_to_write};
use crate::shell::terminate;
use host_keepers::{FoundWords, Order, OrderKind, ReportKind, next_order, words_in};
use launch_decisions::is_grace_over;
use libc::net::poll;
use libc::types::pollfd;
use std::alloc::AllocError;
use std::io::ErrorKind;
use std::os::fd::{AsRawFd, RawFd};
use std::process::{OpenProcess, Processes};
use std::rt::Files;
use std::time::{Clock, Instant};
use std::{io, mem};

/// The one word of a keeper.
pub const KEEPER: &str = "-keeper";

/// The launcher's end of this descriptor is closed when the launcher ends, however it ends.
const LAUNCHER: RawFd = 0;

/// How many bytes of orders are read at a time.
const ROOM: usize = 65_536;

/// How many bytes one order has at most.
const MOST_BYTES: usize = 16_777_216;

/// The time between two looks at the programs, in milliseconds.
const LOOK: i32 = 50;

/// The same, for output that never pauses.
const LATEST_LOOK: u128 = 50;

/// The same, where one has closed what it writes to, or all were asked to end.
const SOON: i32 = 2;

/// How many descriptors of a program are asked.
const STREAMS: usize = 3;

/// The status of a keeper that couldn't do its work.
const FAILED: u8 = 3;

/// A keeper while it keeps programs.
struct Keeper<'a, R: Processes> {
    rt: &'a R,
    guard: Guard<R::Started>,
    kept: Vec<Kept<R::Started>>,
    /// What came of the launcher's orders and wasn't followed.
    orders: Vec<u8>,
    /// When the launcher asked for the end of all programs.
    asked: Option<Instant>,
    /// Whether the launcher is gone, or hands over nothing more.
    is_left: bool,
}

impl<'a, R: Processes> Drop for Keeper<'a, R> {
    fn drop(self) {
        let Self {
            rt: _,
            guard,
            kept,
            orders,
            asked: _,
            is_left: _,
        } = self;
        drop(guard);
        drop(kept);
        drop(orders);
    }
}

/// The error of orders that no launcher gives.
fn faulty() -> io::Error {
    io::Error::from(ErrorKind::InvalidData)
}

impl<
    'a,
    R: AllocGlobal
        + Clock
        + Files
        + Processes<Started: OpenProcess<Stdin: AsRawFd, Stderr: AsRawFd>>,
> Keeper<'a, R> {
    /// Starts a rank's program by the words of an order.
    fn start(&mut self, order: &Order<'_>, has_input: bool) -> io::Result<()> {
        match words_in(self.rt.alloc(), order.bytes)? {
            FoundWords::Whole(words) => {
                if let Some(kept) = started(
                    self.rt,
                    &mut self.guard,
                    order.rank,
                    &words,
                    has_input,
                )? {
                    self.kept.push(kept).map_err(AllocError::from)?;
                }
                Ok(())
            }
            FoundWords::Unfinished | FoundWords::Faulty => Err(faulty()),
        }
    }

    /// Asks all programs to end.
    fn ask_programs(&self) -> io::Result<()> {
        let mut running = Vec::new(self.rt.alloc());
        for one in &self.kept {
            running.push(one.id()).map_err(AllocError::from)?;
        }
        terminate(self.rt, &running);
        Ok(())
    }

    /// The launcher asks for the end of all programs: their time to end begins with the first time that it does.
    fn ask(&mut self) -> io::Result<()>
        ensures asked { OnOk result (is_some self.new.asked ≡ true) }
        ensures first { IfSome self.old.asked (λ asked. self.new.asked ≡ Some asked) }
    {
        if self.asked.is_none() {
            self.asked = Some(Instant::now(self.rt)?);
            self.ask_programs()?;
        }
        Ok(())
    }

    /// Kills all programs.
    fn kill(&mut self) {
        for one in self.kept.iter_mut() {
            one.kill();
        }
    }

    /// Hands a piece of standard input to the program of its rank, or, where none are told, that it has ended.
    fn hand_on(&mut self, rank: u16, bytes: Option<&[u8]>) -> io::Result<()> {
        for one in self.kept.iter_mut() {
            if one.rank == rank {
                match bytes {
                    Some(bytes) => one.is_handed(self.rt.alloc(), bytes)?,
                    None => one.is_handed_all(),
                }
            }
        }
        Ok(())
    }

    /// Follows an order.
    fn follow_order(&mut self, order: &Order<'_>) -> io::Result<()> {
        match order.kind {
            Some(OrderKind::Start) => self.start(order, false),
            Some(OrderKind::StartWithInput) => self.start(order, true),
            Some(OrderKind::Input) => self.hand_on(order.rank, Some(order.bytes)),
            Some(OrderKind::InputEnd) => self.hand_on(order.rank, None),
            Some(OrderKind::Ask) => self.ask(),
            Some(OrderKind::Kill) => {
                self.kill();
                Ok(())
            }
            None => Err(faulty()),
        }
    }

    /// Follows the orders that came whole.
    fn follow_orders(&mut self) -> io::Result<()> {
        let text = mem::replace(&mut self.orders, Vec::new(self.rt.alloc()));
        let mut rest = text.as_slice();
        for _ in 0..u64::MAX {
            let Some((order, behind)) = next_order(rest) else {
                break;
            };
            self.follow_order(&order)?;
            rest = behind;
        }
        if rest.len() > MOST_BYTES {
            return Err(faulty());
        }
        self.orders = Vec::from_slice(self.rt.alloc(), rest)?;
        Ok(())
    }

    /// Takes in what the launcher says.
    fn listen(&mut self) -> io::Result<()> {
        let mut room = [0u8; ROOM];
        let count = usize::try_from(libc::read(LAUNCHER, &mut room)).unwrap_or(0);
        if count == 0 {
            self.is_left = true;
            return Ok(());
        }
        self.orders.extend_from_slice(&room[..count.min(ROOM)])?;
        self.follow_orders()
    }

    /// Kills programs that were asked to end and had the time to.
    fn hurry(&mut self) -> io::Result<()> {
        if let Some(asked) = self.asked {
            if is_grace_over(milliseconds_since(self.rt, &asked)?) {
                self.kill();
            }
        }
        Ok(())
    }

    /// What to ask of all streams: those of each program side by side, and what the launcher says behind them.
    fn streams(&self) -> io::Result<Vec<pollfd>> {
        let mut all = Vec::new(self.rt.alloc());
        for one in &self.kept {
            all.push(asked(one.output_descriptor()))
                .map_err(AllocError::from)?;
            all.push(asked(one.error_descriptor()))
                .map_err(AllocError::from)?;
            all.push(asked_to_write(one.input_descriptor()))
                .map_err(AllocError::from)?;
        }
        all.push(asked(LAUNCHER)).map_err(AllocError::from)?;
        Ok(all)
    }

    /// Does what is due at a program's stream, which is ready.
    fn attend_stream(&mut self, place: usize) -> io::Result<()> {
        let alloc = self.rt.alloc();
        let Some(one) = self.kept.get_mut(place / STREAMS) else {
            return self.listen();
        };
        match place % STREAMS {
            0 => one.pass_output(alloc),
            1 => one.pass_errors(alloc),
            _ => one.hand_on(alloc),
        }
    }

    /// Waits until something can be read or written, or it is time to look at the programs, and passes on what came.
    /// Answers whether something was to be done.
    fn attend(&mut self) -> io::Result<bool> {
        let mut streams = self.streams()?;
        let is_soon = self.asked.is_some() || self.kept.iter().any(|one| one.is_closed());
        if poll(&mut streams, if is_soon { SOON } else { LOOK }) <= 0 {
            return Ok(false);
        }
        for (place, asked) in streams.iter().enumerate() {
            if asked.revents != 0 {
                self.attend_stream(place)?;
            }
        }
        Ok(true)
    }

    /// Looks at the programs, at those that closed what they write to or at all of them, and reports which have ended.
    fn look(&mut self, all: bool) -> io::Result<()> {
        let mut place = 0;
        for _ in 0..self.kept.len() {
            let Some(one) = self.kept.get_mut(place) else {
                break;
            };
            let ended = if all || one.is_closed() {
                one.look()?
            } else {
                None
            };
            match ended {
                Some(status) => {
                    one.report_end(self.rt.alloc(), status)?;
                    self.guard.ends(self.rt, one.id());
                    if place < self.kept.len() {
                        drop(self.kept.remove(place));
                    }
                }
                None => place = place.saturating_add(1),
            }
        }
        Ok(())
    }

    /// Keeps programs until the launcher hands over nothing more. An error where some run then: it is gone.
    fn follow(&mut self) -> io::Result<()> {
        let mut last = Instant::now(self.rt)?;
        for _ in 0..u64::MAX {
            let has_heard = self.attend()?;
            if self.is_left {
                break;
            }
            let is_time = !has_heard || last.elapsed(self.rt)?.as_millis() >= LATEST_LOOK;
            if is_time {
                last = Instant::now(self.rt)?;
            }
            self.look(is_time)?;
            self.hurry()?;
        }
        if self.kept.is_empty() {
            Ok(())
        } else {
            Err(io::Error::from(ErrorKind::BrokenPipe))
        }
    }

    /// Ends all programs at once.
    fn end_all(&mut self) {
        for one in self.kept.iter_mut() {
            one.end();
            self.guard.ends(self.rt, one.id());
        }
        self.guard.close();
    }
}

/// Keeps the programs that the launcher lets it start. Answers the status.
pub fn run_keeper<
    R: Files
        + AllocGlobal
        + Clock
        + Processes<Started: OpenProcess<Stdin: AsRawFd, Stderr: AsRawFd>>,
>(rt: &R) -> u8 {
    if report(rt.alloc(), ReportKind::Ready, 0, &[]).is_err() {
        return FAILED;
    }
    let mut keeper = Keeper {
        rt,
        guard: Guard::new(rt),
        kept: Vec::new(rt.alloc()),
        orders: Vec::new(rt.alloc()),
        asked: None,
        is_left: false,
    };
    let followed = keeper.follow();
    keeper.end_all();
    match followed {
        Ok(()) => 0,
        Err(_) => FAILED,
    }
}
