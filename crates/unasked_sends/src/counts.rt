//! What was sent to a rank, as far as it counts, and how the next send goes.

ghost use Rattle.std.specs.Prelude.{◌≡◌, ◌+◌, ◌≤◌, ◌<◌, ◌⊎◌, ◌^◌, max};
ghost use Rattle.unasked_sends.specs.Counts.{counted, course, course_number, waiting, weight};
ghost use Rattle.unasked_sends.specs.declared.counts.Course.TheVariants.{Announced, AtOnce, Synchronous};

/// So many bytes a message counts beside its data, as in the buffer of `MPI_Bsend`.
pub const MESSAGE_OVERHEAD: u64 = 64;

/// What was sent to a rank by sends that were at their ends at once, in bytes: each message counts its data and
/// [`MESSAGE_OVERHEAD`]. All zeros: nothing yet.
#[repr(C)]
#[derive(Clone, Copy, Default)]
pub struct SentRecord {
    /// All of it.
    pub sent: u64,
    /// So much of what was sent first is known to have been received.
    pub received: u64,
}

/// By what it is judged how a send goes.
#[derive(Clone, Copy)]
pub struct SendLimits {
    /// How many bytes of data a frame has at most.
    pub frame: u32,
    /// How many bytes that aren't known to have been received may wait.
    pub bound: u64,
}

/// How a standard send goes.
#[derive(Clone, Copy, Debug, PartialEq, Eq)]
pub enum Course {
    /// It is at its end at once, and its message waits in its receiver's memory: it counts.
    AtOnce,
    /// Its message doesn't go in one frame, so it is announced, and its data go once its receive has begun.
    Announced,
    /// It goes as a synchronous one, since too much would wait: it is announced, too.
    Synchronous,
}

impl Course {
    /// The course as a number: 0, 1, 2.
    pub fn number(self) -> u32
        ensures { result ≡ course_number self }
    {
        match self {
            Course::AtOnce => 0,
            Course::Announced => 1,
            Course::Synchronous => 2,
        }
    }
}

impl SentRecord {
    /// How many bytes wait, as far as is known.
    pub fn waiting(&self) -> u64
        ensures { result ≡ waiting self.now }
    {
        self.sent.saturating_sub(self.received)
    }

    /// Begins a standard send of so many bytes of data, and answers how it goes. It counts just where it goes at once:
    /// where its message goes in a frame, no more than the bound waits with it, and 64 bits hold the count.
    pub fn begin(&mut self, limits: SendLimits, bytes: u64) -> Course
        ensures exact { result ≡ course limits.frame limits.bound bytes self.old }
        ensures counted { self.new ≡ counted result bytes self.old }
        ensures within { result ≡ AtOnce → waiting self.new ≤ limits.bound }
        ensures full { result ≡ Synchronous →
            (limits.bound < waiting (counted AtOnce bytes self.old)) ⊎ (2 ^ 64 ≤ self.old.sent + weight bytes) }
    {
        if bytes > u64::from(limits.frame) {
            return Course::Announced;
        }
        let Some(sent) = self.sent.checked_add(bytes + MESSAGE_OVERHEAD) else {
            return Course::Synchronous;
        };
        if sent.saturating_sub(self.received) > limits.bound {
            return Course::Synchronous;
        }
        self.sent = sent;
        Course::AtOnce
    }

    /// A message was received that was announced when so much had been sent; so that has been received, where a receiver
    /// takes messages in the order in which they were sent.
    pub fn was_received(&mut self, mark: u64)
        ensures { (self.new.sent ≡ self.old.sent) × (self.new.received ≡ max self.old.received mark) }
    {
        self.received = self.received.max(mark);
    }
}
