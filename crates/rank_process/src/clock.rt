//! The clock of the host.

ghost use Rattle.std.specs.Prelude.{◌≡◌};
ghost use Rattle.rank_process.specs.Times.{millis_of};

use crate::beginning::Beginning;
use event_loop::Clock;
use std::io;
use std::time::{Clock as Host, Duration, Instant};

/// The whole milliseconds of a time, as far as 64 bits hold them.
pub fn millis_of(passed: Duration) -> u64
    ensures { result ≡ millis_of passed }
{
    u64::try_from(passed.as_millis()).unwrap_or(u64::MAX)
}

/// The whole microseconds of a time, as far as 64 bits hold them.
pub(crate) fn micros_of(passed: Duration) -> u64 {
    u64::try_from(passed.as_micros()).unwrap_or(u64::MAX)
}

/// The milliseconds since it was made, but for those in which ranks of the job begin: so the patience of a rank that waits
/// for another one begins once that has begun.
pub struct HostClock<'a, R: Host> {
    rt: &'a R,
    start: Instant,
    /// What is known of the beginning of the others.
    beginning: Option<Beginning<'a, R>>,
    /// When it was looked last, in milliseconds since it was made.
    seen: u64,
    /// The time that it told last.
    last: u64,
}

impl<'a, R: Host> Drop for HostClock<'a, R> {
    fn drop(self) {
        let Self {
            rt: _,
            start: _,
            beginning,
            seen: _,
            last: _,
        } = self;
        drop(beginning);
    }
}

impl<'a, R: Host> HostClock<'a, R> {
    /// A clock that stands at 0 now, and stands still while others begin, as far as that is known.
    pub fn new(rt: &'a R, beginning: Option<Beginning<'a, R>>) -> io::Result<HostClock<'a, R>> {
        Ok(HostClock {
            rt,
            start: Instant::now(rt)?,
            beginning,
            seen: 0,
            last: 0,
        })
    }

    /// Whether ranks of the job begin now.
    fn stands(&mut self) -> bool {
        match &mut self.beginning {
            Some(beginning) => beginning.goes_on(),
            None => false,
        }
    }
}

impl<'a, R: Host> Clock for HostClock<'a, R> {
    ghost told = { λ _ now clock. now ≡ clock.last };

    fn now(&mut self) -> u64 {
        if let Ok(passed) = self.start.elapsed(self.rt) {
            let now = millis_of(passed);
            let more = if self.stands() {
                0
            } else {
                now.saturating_sub(self.seen)
            };
            self.last = self.last.saturating_add(more);
            self.seen = now;
        }
        self.last
    }
}
