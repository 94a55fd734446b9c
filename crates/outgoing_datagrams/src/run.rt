//! Datagrams that stand one behind the other in a slice.

ghost use Rattle.std.specs.Prelude.{◌≡◌, ◌≤◌, ◌<◌, ◌+◌, ◌^◌, false, length, slice_get, IfSome};
ghost use Rattle.outgoing_datagrams.specs.Runs.{IsRun, PutsBehind, RunGoesOn};

use datagram::{ACK_BYTES, Bytes};

/// Puts the bytes into the slice from a place on; answers the place behind them, or none where they don't fit.
pub(crate) fn put_behind(into: &mut [u8], at: usize, bytes: &[u8]) -> Option<usize>
    requires { at ≤ length into.old }
    ensures put { PutsBehind at bytes.now into.old result into.new }
{
    if bytes.len() > into.len() - at {
        return None;
    }
    let end = at + bytes.len();
    into[at..end].copy_from_slice(bytes);
    Some(end)
}

/// Datagrams of one length to one rank, as far as they were put into a slice.
#[derive(Clone, Copy, Drop)]
pub struct Run {
    /// The rank that they go to.
    pub target: u16,
    /// The length of each but the last, in bytes.
    pub each: usize,
    /// How many there are.
    pub count: usize,
    /// How many bytes they are.
    pub len: usize,
    /// Whether none comes behind them.
    pub is_over: bool,
}

impl Run {
    /// Puts one more behind the others, unless it is for another rank, longer, or doesn't fit. Behind a shorter one none
    /// comes, nor behind one of another length than the first has. An acknowledgement comes behind none: it may be kept
    /// back.
    fn put(&mut self, target: u16, bytes: &[u8], into: &mut [u8])
        requires len { self.old.len ≤ length into.old }
        requires count { self.old.count + 1 < 2 ^ 64 }
        ensures goes { RunGoesOn self.old target bytes.now into.old self.new into.new }
        ensures first { self.old.is_over ≡ false → self.old.count ≡ 0 → target ≡ self.old.target →
            length bytes.now ≤ self.old.each → self.old.len + length bytes.now ≤ length into.old → self.new.count ≡ 1 }
    {
        if self.is_over {
            return;
        }
        if target != self.target || bytes.len() > self.each {
            self.is_over = true;
            return;
        }
        if self.count > 0 && bytes.len() == ACK_BYTES {
            self.is_over = true;
            return;
        }
        match put_behind(into, self.len, bytes) {
            Some(end) => {
                self.len = end;
                self.count += 1;
                self.is_over = bytes.len() < self.each;
            }
            None => self.is_over = true,
        }
    }
}

/// An empty run, in front of these datagrams.
fn run_before(list: &[(u16, Bytes)]) -> Run
    ensures empty { (result.count ≡ 0) × (result.len ≡ 0) × (result.is_over ≡ false) }
    ensures like { IfSome (slice_get list.now 0) (λ d. (result.target ≡ d.0) × (result.each ≡ length d.1)) }
{
    match list.first() {
        Some((target, first)) => Run {
            target: *target,
            each: first.len(),
            count: 0,
            len: 0,
            is_over: false,
        },
        None => Run {
            target: 0,
            each: 0,
            count: 0,
            len: 0,
            is_over: false,
        },
    }
}

/// Puts the first datagrams of a list into the slice: those to one rank that have one length, but for the last, which may
/// be shorter. They are `most` at most, and one at least, if there is one that fits.
pub(crate) fn put_run(most: usize, list: &[(u16, Bytes)], into: &mut [u8]) -> Run
    ensures { IsRun most list.now result into.old into.new }
{
    let mut run = run_before(list);
    for place in 0..most.min(list.len()) {
        let datagram = &list[place];
        run.put(datagram.0, datagram.1.as_slice(), into);
    }
    run
}
