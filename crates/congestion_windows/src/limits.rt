//! What bounds the windows of a job.

ghost use Rattle.std.specs.Prelude.{◌≡◌, ◌≤◌, ◌*◌};
ghost use Rattle.congestion_windows.specs.Windows.{limits_of};

/// The bytes of a longest datagram beside the data of its frame.
const BESIDE_DATA: u32 = 208;

/// So many longest datagrams go at first where that is no more than `FIRST_BYTES` (RFC 6928, section 2).
const FIRST_SEGMENTS: u64 = 10;

/// So many bytes go at first, or two longest datagrams.
const FIRST_BYTES: u64 = 14_600;

/// No budget is as large as this one: 64 longest datagrams of any job are a thousandth of it.
const NO_BOUND: u64 = 4_294_967_295;

/// What bounds the windows of a job: numbers of bytes.
#[derive(Clone, Copy, Debug, PartialEq, Eq)]
pub struct WindowLimits {
    /// A longest datagram.
    pub longest: u32,
    /// What a window begins with.
    pub first: u64,
    /// What a window has at most.
    pub budget: u64,
}

impl WindowLimits {
    /// The limits of a job of so many ranks, whose frames have so many bytes of data at most, where the socket of each
    /// rank keeps so many bytes that came. All other ranks may send to one at once, so each has its part of that room,
    /// and two longest datagrams in any case. A room of 0 isn't known: then nothing is bounded.
    pub fn of(frame: u32, room: u32, size: u16) -> WindowLimits
        ensures exact { result ≡ limits_of frame room size }
        ensures least { 2 * result.longest ≤ result.budget }
    {
        let longest = frame.saturating_add(BESIDE_DATA);
        let two = 2 * u64::from(longest);
        if room == 0 {
            return WindowLimits {
                longest,
                first: NO_BOUND.max(two),
                budget: NO_BOUND.max(two),
            };
        }
        let part = u64::from(room) / u64::from(size.saturating_sub(1).max(1));
        let budget = part.max(two);
        let first = two
            .max(FIRST_BYTES)
            .min(FIRST_SEGMENTS * u64::from(longest));
        WindowLimits {
            longest,
            first: first.min(budget),
            budget,
        }
    }
}
