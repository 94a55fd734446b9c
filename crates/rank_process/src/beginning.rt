//! How a rank begins among the others: it says that it has its port, and knows of whom that is said.

use crate::clock::millis_of;
use crate::stop::StopInput;
use libc::net::poll;
use start_marks::{MarkFile, come_in, do_begin};
use std::time::{Clock, Instant};

/// How long a look at the marks is good for, in milliseconds: longer where more ranks look.
fn time_of_look(size: u16) -> u64 {
    1 + u64::from(size) / 32
}

/// What a rank of a job knows of the beginning of the others.
pub struct Beginning<'a, R: Clock> {
    rt: &'a R,
    marks: MarkFile,
    size: u16,
    start: Instant,
    /// How many ranks had come when it was looked last, or will never.
    come: usize,
    /// When one more had, and when it was looked last, in milliseconds since the start.
    last: u64,
    looked: u64,
}

impl<'a, R: Clock> Drop for Beginning<'a, R> {
    fn drop(self) {
        let Self {
            rt: _,
            marks: _,
            size: _,
            start: _,
            come: _,
            last: _,
            looked: _,
        } = self;
    }
}

impl<'a, R: Clock> Beginning<'a, R> {
    /// Nothing is known yet.
    pub fn new(rt: &'a R, marks: MarkFile, size: u16) -> Option<Beginning<'a, R>> {
        Some(Beginning {
            rt,
            marks,
            size,
            start: Instant::now(rt).ok()?,
            come: 0,
            last: 0,
            looked: 0,
        })
    }

    /// The milliseconds since the start.
    fn now(&self) -> u64 {
        match self.start.elapsed(self.rt) {
            Ok(passed) => millis_of(passed),
            Err(_) => u64::MAX,
        }
    }

    /// Looks who has come, where that was long enough ago.
    fn look(&mut self, now: u64) {
        let due = self.looked.saturating_add(time_of_look(self.size));
        if self.come != 0 && now < due {
            return;
        }
        self.looked = now;
        let come = come_in(&self.marks.all());
        if come > self.come {
            self.come = come;
            self.last = now;
        }
    }

    /// Whether ranks begin now: not all have, and it is less than a second since one did.
    pub fn goes_on(&mut self) -> bool {
        if self.come >= usize::from(self.size) {
            return false;
        }
        let now = self.now();
        self.look(now);
        do_begin(self.come, self.size, now.saturating_sub(self.last))
    }

    /// Waits as long as ranks begin, and this one isn't told to stop.
    pub fn wait(&mut self, stop: StopInput) {
        let time = i32::try_from(time_of_look(self.size)).unwrap_or(1);
        for _ in 0..u64::MAX {
            if !self.goes_on() || stop.is_closed() {
                return;
            }
            let _ = poll(&mut [], time);
        }
    }
}
