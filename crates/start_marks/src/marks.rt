//! What the marks mean.

ghost use Rattle.std.specs.Prelude.{◌≡◌};
ghost use Rattle.start_marks.specs.Marks.{are_there, come_in, do_begin, is_there, mark_at_end};

/// How many marks a file has at most: a job has no more ranks.
pub const MOST_MARKS: usize = 1_024;

/// The mark of a rank that has begun, and has its port. C programs have more of them.
pub const BEGUN: u8 = 45;

/// The mark of a rank whose program ended for good and never began.
pub const ENDED: u8 = 101;

/// Whether the rank of this mark has its port, so that what goes there comes to nobody else: it has begun. A rank that
/// hasn't has the mark 0.
pub fn is_there(mark: u8) -> bool
    ensures { result ≡ is_there mark }
{
    mark != 0 && mark != ENDED
}

/// Whether all ranks of these marks have their ports.
pub fn are_there(marks: &[u8]) -> bool
    ensures { result ≡ are_there marks.now }
{
    for mark in marks {
        if !is_there(*mark) {
            return false;
        }
    }
    true
}

/// How many ranks of these marks aren't waited for any more: they have begun, or never will.
pub fn come_in(marks: &[u8]) -> usize
    ensures { result ≡ come_in marks.now }
{
    let mut count = 0;
    for mark in marks {
        if *mark != 0 {
            count += 1;
        }
    }
    count
}

/// Whether ranks still begin, where so many of so many have come, the last of them so many milliseconds ago: not all have,
/// and it is less than a second.
pub fn do_begin(come: usize, size: u16, since: u64) -> bool
    ensures { result ≡ do_begin come size since }
{
    come < usize::from(size) && since < 1_000
}

/// The mark that a rank gets whose program ended for good with this mark, if it gets another one: it never began.
pub fn mark_at_end(mark: u8) -> Option<u8>
    ensures { result ≡ mark_at_end mark }
{
    if mark == 0 { Some(ENDED) } else { None }
}
