//! What is on its way to one rank.

ghost use Rattle.std.specs.Prelude.{◌≡◌, true};
ghost use Rattle.congestion_windows.specs.Flights.{acknowledged_by, allows, answered, begun, counted, deferred, gone};
ghost use Rattle.congestion_windows.specs.Flights.{is_fresh, is_long, is_withheld, late_behind, late_by, late_with, left_of};
ghost use Rattle.congestion_windows.specs.Flights.{offered, passed_over, repeated, settled, unanswered, went_end, window_behind};
ghost use Rattle.congestion_windows.specs.Flights.{with_ahead, with_gap, with_incarnation};

use crate::limits::WindowLimits;
use crate::window::CongestionWindow;

/// So many frames are on their way to a rank at most.
const MOST_FRAMES: u32 = 64;

/// A frame whose time was over.
#[derive(Clone, Copy, Debug, PartialEq, Eq)]
pub struct TimedOut {
    /// Its number.
    pub number: u64,
    /// The window before that.
    pub window: CongestionWindow,
}

/// What is on its way to one rank: the frames of the session with it that went and aren't acknowledged, and those that
/// are deferred.
///
/// ```text
///    first                first + count           end
///      │ went, unanswered    │ deferred            │ not offered yet
/// ```
#[derive(Clone, Copy, Debug, PartialEq, Eq)]
pub struct Flight {
    /// The incarnation of the rank with which the session is.
    pub incarnation: u16,
    /// The number of the frame that the rank waits for, as far as it told.
    pub first: u64,
    /// So many frames from that one on went.
    pub count: u32,
    /// Which of them are long: bit i tells of the one that is by i before the last one.
    pub long: u64,
    /// Behind the highest frame that was offered.
    pub end: u64,
    /// The window was made smaller for a loss among the frames below this number.
    pub recover: u64,
    /// How much may be unanswered.
    pub window: CongestionWindow,
    /// Whether frames are known to have come behind the one that the rank waits for.
    pub ahead: bool,
    /// The frame whose time was over last, as long as it may have been late and not lost.
    pub late: Option<TimedOut>,
    /// Whether acknowledgements made room since frames were deferred.
    pub asks: bool,
}

/// Whether a datagram of so many bytes counts as a longest one: it has more than an eighth of its bytes.
fn is_long(limits: WindowLimits, size: usize) -> bool
    ensures { result ≡ is_long limits size }
{
    size > (limits.longest / 8) as usize
}

/// The bytes that so many frames count, of which these are long: a long one as many as a longest datagram has, each
/// other one an eighth. No frame has more than it counts.
fn counted(limits: WindowLimits, count: u32, long: u64) -> u64
    ensures { result ≡ counted limits count long }
{
    let longest = u64::from(limits.longest);
    let many = u64::from(long.count_ones());
    let few = u64::from(count).saturating_sub(many);
    many.saturating_mul(longest)
        .saturating_add(few.saturating_mul(longest / 8))
}

/// The frame that may be late, where the one of this number goes again: that one alone.
fn late_with(late: Option<TimedOut>, number: u64) -> Option<TimedOut>
    ensures { result ≡ late_with late number }
{
    let late = late?;
    if late.number == number {
        return Some(late);
    }
    None
}

/// The window behind an acknowledgement of all frames below `next`. Where it tells of one behind the one that may be
/// late, which didn't go again, that one was late and not lost, and the window is as it was (F-RTO, RFC 5682).
fn window_behind(late: Option<TimedOut>, window: CongestionWindow, next: u64) -> CongestionWindow
    ensures { result ≡ window_behind late window next }
{
    match late {
        Some(late) if late.number.saturating_add(1) < next => late.window,
        _ => window,
    }
}

/// The frame that may be late behind such an acknowledgement.
fn late_behind(late: Option<TimedOut>, next: u64) -> Option<TimedOut>
    ensures { result ≡ late_behind late next }
{
    let late = late?;
    if late.number.saturating_add(1) < next {
        return None;
    }
    Some(late)
}

/// Which of the last frames are long, of so many.
fn left_of(long: u64, count: u32) -> u64
    ensures { result ≡ left_of long count }
{
    if count < MOST_FRAMES {
        long % (1u64 << count)
    } else {
        long
    }
}

impl Flight {
    /// A session in which no frame was offered, with an incarnation of a rank.
    pub fn begun(limits: WindowLimits, incarnation: u16) -> Flight
        ensures { result ≡ begun limits incarnation }
    {
        Flight {
            incarnation,
            first: 0,
            count: 0,
            long: 0,
            end: 0,
            recover: 0,
            window: CongestionWindow::opened(limits),
            ahead: false,
            late: None,
            asks: false,
        }
    }

    /// Where a frame goes to this incarnation: a session with another one has ended.
    fn with_incarnation(self, limits: WindowLimits, incarnation: u16) -> Flight
        ensures { result ≡ with_incarnation limits self incarnation }
    {
        if self.incarnation == incarnation {
            self
        } else {
            Flight::begun(limits, incarnation)
        }
    }

    /// Behind the last frame that went.
    fn went_end(self) -> u64
        ensures { result ≡ went_end self }
    {
        self.first.saturating_add(u64::from(self.count))
    }

    /// How many bytes the frames count that are unanswered.
    pub fn unanswered(self, limits: WindowLimits) -> u64
        ensures { result ≡ unanswered limits self }
    {
        counted(limits, self.count, self.long)
    }

    /// Whether one more datagram of so many bytes may go now: with it no more may be unanswered than the window has.
    /// Where nothing is unanswered it may in any case, so nothing is deferred for ever.
    pub fn allows(self, limits: WindowLimits, size: usize) -> bool
        ensures exact { result ≡ allows limits self size }
        ensures none { self.count ≡ 0 → result ≡ true }
    {
        if self.count == 0 {
            return true;
        }
        let longest = u64::from(limits.longest);
        let weight = if is_long(limits, size) {
            longest
        } else {
            longest / 8
        };
        self.count < MOST_FRAMES
            && self.unanswered(limits).saturating_add(weight) <= self.window.bytes
    }

    /// The next frame goes.
    fn gone(self, limits: WindowLimits, number: u64, size: usize) -> Flight
        ensures { result ≡ gone limits self number size }
    {
        let last = u64::from(is_long(limits, size));
        Flight {
            count: self.count.saturating_add(1),
            long: self.long % (1u64 << 63) * 2 + last,
            end: self.end.max(number.saturating_add(1)),
            ..self
        }
    }

    /// The frame of this number, whose time was over: unless later ones are known to have come it may be late alone.
    fn late_by(self, number: u64) -> Option<TimedOut>
        ensures { result ≡ late_by self number }
    {
        if self.ahead {
            return None;
        }
        Some(TimedOut {
            number,
            window: self.window,
        })
    }

    /// A frame goes again. Where it is the one that the rank waits for, its time was over, unless the window was made
    /// smaller for it before.
    fn repeated(self, limits: WindowLimits, number: u64) -> Flight
        ensures { result ≡ repeated limits self number }
    {
        if self.first != number || number < self.recover {
            return Flight {
                late: late_with(self.late, number),
                ..self
            };
        }
        Flight {
            window: self.window.timed_out(limits, self.unanswered(limits)),
            recover: self.went_end(),
            late: self.late_by(number),
            ..self
        }
    }

    /// Behind a frame of this number and so many bytes that is to go to the session of this flight. The next one goes
    /// where its window has room; else it is deferred, and so are those behind it. One that went before goes again.
    fn passed_over(self, limits: WindowLimits, number: u64, size: usize) -> Flight
        ensures { result ≡ passed_over limits self number size }
    {
        if number < self.went_end() {
            return self.repeated(limits, number);
        }
        if self.went_end() == number && self.allows(limits, size) {
            return self.gone(limits, number, size);
        }
        if self.end == number {
            return Flight {
                end: number.saturating_add(1),
                ..self
            };
        }
        self
    }

    /// Behind a frame of this number and so many bytes that is to go to this incarnation now, as far as whoever sends
    /// it knows.
    pub fn offered(self, limits: WindowLimits, incarnation: u16, number: u64, size: usize) -> Flight
        ensures { result ≡ offered limits self incarnation number size }
    {
        self.with_incarnation(limits, incarnation)
            .passed_over(limits, number, size)
    }

    /// Whether the frame of this number to this incarnation isn't to go: it is answered, or it was offered and had no
    /// room, so that it is deferred.
    pub fn is_withheld(self, incarnation: u16, number: u64) -> bool
        ensures { result ≡ is_withheld self incarnation number }
    {
        self.incarnation == incarnation
            && (number < self.first || (self.went_end() <= number && number < self.end))
    }

    /// Whether the frame of this number to this incarnation didn't go yet.
    pub fn is_fresh(self, incarnation: u16, number: u64) -> bool
        ensures { result ≡ is_fresh self incarnation number }
    {
        self.incarnation != incarnation || self.went_end() <= number
    }

    /// What is deferred was asked for.
    pub(crate) fn settle(&mut self)
        ensures { self.new ≡ settled self.old }
    {
        self.asks = false;
    }

    /// The first frames are answered, so many of them: the window grows by what they counted. If frames are deferred,
    /// there may be room for them.
    fn answered(self, limits: WindowLimits, frames: u32) -> Flight
        ensures { result ≡ answered limits self frames }
    {
        if frames == 0 {
            return self;
        }
        let left = self.count.saturating_sub(frames);
        let long = left_of(self.long, left);
        let before = self.unanswered(limits);
        let answered = before.saturating_sub(counted(limits, left, long));
        let first = self.first.saturating_add(u64::from(frames));
        Flight {
            first,
            count: left,
            long,
            window: window_behind(self.late, self.window, first).acknowledged(limits, answered),
            late: late_behind(self.late, first),
            asks: self.asks || self.went_end() < self.end,
            ..self
        }
    }

    /// The rank tells whether frames came behind the one that it waits for.
    fn with_ahead(self, next: u64, held: u64) -> Flight
        ensures { result ≡ with_ahead self next held }
    {
        if self.first != next {
            return self;
        }
        Flight {
            ahead: held != 0,
            ..self
        }
    }

    /// Where three frames came behind the one that the rank waits for, that one is lost: the window is halved, once for
    /// all that are unanswered then.
    fn with_gap(self, limits: WindowLimits, held: u64) -> Flight
        ensures { result ≡ with_gap limits self held }
    {
        if self.count == 0 || held.count_ones() < 3 || self.first < self.recover {
            return self;
        }
        Flight {
            window: self.window.lost(limits, self.unanswered(limits)),
            recover: self.went_end(),
            late: None,
            ..self
        }
    }

    /// Behind an acknowledgement of all frames below `next` from this incarnation; bit i of `held` tells that the frame
    /// came whose number is by i higher.
    pub fn acknowledged_by(
        self,
        limits: WindowLimits,
        incarnation: u16,
        next: u64,
        held: u64,
    ) -> Flight
        ensures { result ≡ acknowledged_by limits self incarnation next held }
    {
        if self.incarnation != incarnation {
            return self;
        }
        let frames = next.saturating_sub(self.first).min(u64::from(self.count)) as u32;
        self.answered(limits, frames)
            .with_ahead(next, held)
            .with_gap(limits, held)
    }
}
