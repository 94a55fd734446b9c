//! How standard sends go, for C.

ghost use Rattle.std.specs.Prelude.{◌≡◌, max, MatchOption, Some, None, false, true};
ghost use Rattle.unasked_sends.specs.Bounds.{bound_of};
ghost use Rattle.unasked_sends.specs.Counts.{counted, course, course_number};

use unasked_sends::{SendLimits, SentRecord};

/// Puts how many bytes may wait that aren't known to have been received, by the text of `KOMBAZILY_UNASKED`, if it is
/// told: whether the text says that.
#[unsafe(no_mangle)]
pub extern "C" fn kombazily_unasked_bound(is_told: bool, text: &[u8], bound: &mut u64) -> bool
    ensures told { is_told ≡ true → MatchOption (bound_of (Some text.now))
        ((result ≡ false) × (bound.new ≡ bound.old)) (λ n. (result ≡ true) × (bound.new ≡ n)) }
    ensures usual { is_told ≡ false → MatchOption (bound_of None)
        ((result ≡ false) × (bound.new ≡ bound.old)) (λ n. (result ≡ true) × (bound.new ≡ n)) }
{
    let told = if is_told { Some(text) } else { None };
    match unasked_sends::bound_of(told) {
        Some(found) => {
            *bound = found;
            true
        }
        None => false,
    }
}

/// Begins a standard send of so many bytes: 0 it is at its end at once, and counts; 1 its message doesn't go in one
/// frame; 2 it goes as a synchronous one.
#[unsafe(no_mangle)]
pub extern "C" fn kombazily_send_course(
    counts: &mut SentRecord,
    frame: u32,
    bound: u64,
    bytes: u64,
) -> u32
    ensures exact { result ≡ course_number (course frame bound bytes counts.old) }
    ensures counted { counts.new ≡ counted (course frame bound bytes counts.old) bytes counts.old }
{
    counts.begin(SendLimits { frame, bound }, bytes).number()
}

/// A message was received that was announced when so much had been sent.
#[unsafe(no_mangle)]
pub extern "C" fn kombazily_was_received(counts: &mut SentRecord, mark: u64)
    ensures { (counts.new.sent ≡ counts.old.sent) × (counts.new.received ≡ max counts.old.received mark) }
{
    counts.was_received(mark);
}
