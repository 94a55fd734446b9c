//! The congestion window of RFC 5681, in bytes.

ghost use Rattle.std.specs.Prelude.{◌≡◌, ◌≤◌, ◌*◌};
ghost use Rattle.congestion_windows.specs.Windows.{acknowledged, growth, halved, lost, opened, timed_out};

use crate::limits::WindowLimits;

/// How many bytes may be unanswered at one rank.
#[derive(Clone, Copy, Debug, PartialEq, Eq)]
pub struct CongestionWindow {
    /// So many.
    pub bytes: u64,
    /// Below so many it grows by all that is acknowledged (slow start), from there on by a longest datagram each round
    /// trip.
    pub threshold: u64,
}

/// Half of what was unanswered, and two longest datagrams at least (equation 4).
fn halved(limits: WindowLimits, unanswered: u64) -> u64
    ensures exact { result ≡ halved limits unanswered }
    ensures least { 2 * limits.longest ≤ result }
{
    (unanswered / 2).max(2 * u64::from(limits.longest))
}

impl CongestionWindow {
    /// A window as it begins.
    pub fn opened(limits: WindowLimits) -> CongestionWindow
        ensures { result ≡ opened limits }
    {
        CongestionWindow {
            bytes: limits.first,
            threshold: limits.budget,
        }
    }

    /// By how many bytes it grows where so many are acknowledged: by as many in slow start (RFC 3465, 2.2), else by
    /// their part of a longest datagram, and by one at least (equation 3, with bytes counted).
    fn growth(self, limits: WindowLimits, bytes: u64) -> u64
        ensures { result ≡ growth limits self bytes }
    {
        if self.bytes < self.threshold {
            return bytes;
        }
        (u64::from(limits.longest).saturating_mul(bytes) / self.bytes.max(1)).max(1)
    }

    /// Behind an acknowledgement of so many bytes more. It has no more than the budget.
    pub fn acknowledged(self, limits: WindowLimits, bytes: u64) -> CongestionWindow
        ensures exact { result ≡ acknowledged limits self bytes }
        ensures most { result.bytes ≤ limits.budget }
        ensures least { 2 * limits.longest ≤ limits.budget → 2 * limits.longest ≤ self.bytes →
            2 * limits.longest ≤ result.bytes }
    {
        CongestionWindow {
            bytes: self
                .bytes
                .saturating_add(self.growth(limits, bytes))
                .min(limits.budget),
            ..self
        }
    }

    /// Behind a loss that later frames told of, where so many bytes were unanswered: half of them. It has two longest
    /// datagrams at least, and no more than the budget.
    pub fn lost(self, limits: WindowLimits, unanswered: u64) -> CongestionWindow
        ensures exact { result ≡ lost limits self unanswered }
        ensures most { result.bytes ≤ limits.budget }
        ensures least { 2 * limits.longest ≤ limits.budget → 2 * limits.longest ≤ result.bytes }
    {
        let half = halved(limits, unanswered);
        CongestionWindow {
            bytes: half.min(limits.budget),
            threshold: half,
        }
    }

    /// Behind a time that was over, where so many bytes were unanswered: two longest datagrams, which is the least, and
    /// slow start up to half of them. Where no more than one longest datagram was, slow start goes as far as before: a
    /// frame alone fills no queue.
    pub fn timed_out(self, limits: WindowLimits, unanswered: u64) -> CongestionWindow
        ensures exact { result ≡ timed_out limits self unanswered }
        ensures most { result.bytes ≤ limits.budget }
        ensures least { 2 * limits.longest ≤ limits.budget → 2 * limits.longest ≤ result.bytes }
    {
        CongestionWindow {
            bytes: (2 * u64::from(limits.longest)).min(limits.budget),
            threshold: if unanswered <= u64::from(limits.longest) {
                self.threshold
            } else {
                halved(limits, unanswered)
            },
        }
    }
}
