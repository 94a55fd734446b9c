//! The functions that C calls.

ghost use Rattle.std.specs.Prelude.{◌≡◌, ◌⊎◌, ◌↔◌, All, IsSome, IsTrue, None, Some, true, unwrap_or};
ghost use Rattle.sessions.specs.Peers.{IsIdlePeer};
ghost use Rattle.c_rank.specs.Answers.{refusal};
ghost use Rattle.c_rank.specs.Calls.{Answers};
ghost use Rattle.c_rank.specs.IncomingDatagrams.{TakesIn};
ghost use Rattle.c_rank.specs.OutgoingDatagrams.{HandsNext};
ghost use Rattle.c_rank.specs.State.{IsNoPlace, IsOpening, IsSameTime, Learns, LearnsAll, RankState, Ticks, learned};
ghost use Rattle.c_rank.specs.AnswerCopies.{TakesOf};
ghost use Rattle.c_exports.specs.HandleContents.{OnHeld};
ghost use Rattle.round_trips.specs.Latenesses.{crowded, lateness_behind};
ghost use Rattle.round_trips.specs.Turns.{told_at_once};

use crate::handle::Handle;
use c_rank::{AnswerRecord, CallRecord, OutgoingRecord, PlaceRecord, Rank, refusal};
use round_trips::{Estimate, Lateness, told_at_once};
use std::alloc::Global;

/// The number of a call with a handle that holds nothing.
const NOTHING_HELD: u8 = 81;

/// The number of a rank that is made where one is held.
const HELD_ALREADY: u8 = 82;

/// The number of want of memory.
const OUT_OF_MEMORY: u8 = 14;

/// Makes the rank of a place, at its start: 0, or the number of a refusal, which leaves the handle as it was.
#[unsafe(no_mangle)]
pub extern "C" fn kombazily_new(alloc: Global, rank: &mut Handle, place: &PlaceRecord) -> u32
    ensures held { IsSome rank.old.held.value → (result ≡ 82) × (rank.new.held.value ≡ rank.old.held.value) }
    ensures made { rank.old.held.value ≡ None → result ≡ 0 →
        (r : RankState) × ((rank.new.held.value ≡ Some r) × IsOpening place.now r) }
    ensures refused { rank.old.held.value ≡ None → (result ≡ 0 → ⊥) →
        (rank.new.held.value ≡ None) × (IsNoPlace place.now result ⊎ (result ≡ 14)) }
{
    if rank.is_held {
        return u32::from(HELD_ALREADY);
    }
    let made = match Rank::new(alloc, place) {
        Ok(made) => made,
        Err(number) => return u32::from(number),
    };
    match Box::new(alloc, made) {
        Ok(boxed) => {
            rank.put(boxed);
            0
        }
        Err(_) => u32::from(OUT_OF_MEMORY),
    }
}

/// Gives the memory of a rank back.
#[unsafe(no_mangle)]
pub extern "C" fn kombazily_free(alloc: Global, rank: &mut Handle)
    ensures { rank.new.held.value ≡ None }
{
    drop(rank.take(alloc));
}

/// Answers a call.
#[unsafe(no_mangle)]
pub extern "C" fn kombazily_call(
    alloc: Global,
    rank: &mut Handle,
    call: &CallRecord,
    bytes: &[u8],
    answer: &mut AnswerRecord,
)
    ensures { OnHeld rank.old.held.value rank.new.held.value (answer.new ≡ refusal 81)
        (λ r s. Answers r call.now bytes.now answer.new s × IsSameTime r s) }
{
    match rank.take(alloc) {
        Some(mut held) => {
            *answer = held.call(call, bytes);
            rank.put(held);
        }
        None => *answer = refusal(NOTHING_HELD),
    }
}

/// Copies data of an answer out, and answers how many bytes.
#[unsafe(no_mangle)]
pub extern "C" fn kombazily_take(
    alloc: Global,
    rank: &mut Handle,
    first: u64,
    into: &mut [u8],
) -> usize
    ensures { OnHeld rank.old.held.value rank.new.held.value ((result ≡ 0) × (into.new ≡ into.old))
        (λ r s. (s ≡ r) × TakesOf r.received first into.old into.new result) }
{
    match rank.take(alloc) {
        Some(held) => {
            let len = held.take(first, into);
            rank.put(held);
            len
        }
        None => 0,
    }
}

/// Takes a datagram in: 0, or the number of the refusal.
#[unsafe(no_mangle)]
pub extern "C" fn kombazily_datagram(alloc: Global, rank: &mut Handle, bytes: &[u8]) -> u32
    ensures { OnHeld rank.old.held.value rank.new.held.value (result ≡ 81)
        (λ r s. TakesIn r bytes.now result s) }
{
    match rank.take(alloc) {
        Some(mut held) => {
            let number = held.on_datagram(bytes);
            rank.put(held);
            u32::from(number)
        }
        None => u32::from(NOTHING_HELD),
    }
}

/// The clock says the time, in nanoseconds, and frames may go again that aren't acknowledged, or not: 0, or the number
/// of the refusal.
#[unsafe(no_mangle)]
pub extern "C" fn kombazily_tick(
    alloc: Global,
    rank: &mut Handle,
    now: u64,
    may_repeat: bool,
) -> u32
    ensures { OnHeld rank.old.held.value rank.new.held.value (result ≡ 81)
        (λ r s. Ticks r now may_repeat result s) }
{
    match rank.take(alloc) {
        Some(mut held) => {
            let number = held.tick(now, may_repeat);
            rank.put(held);
            u32::from(number)
        }
        None => u32::from(NOTHING_HELD),
    }
}

/// Frames to a rank take as long as this says, which others learned that do with the same process.
#[unsafe(no_mangle)]
pub extern "C" fn kombazily_learn(alloc: Global, rank: &mut Handle, peer: u16, estimate: &Estimate)
    ensures { OnHeld rank.old.held.value rank.new.held.value (rank.new.held.value ≡ rank.old.held.value)
        (λ r s. Learns r peer estimate.now s) }
{
    match rank.take(alloc) {
        Some(mut held) => {
            held.learn(peer, *estimate);
            rank.put(held);
        }
        None => {}
    }
}

/// The same of all ranks.
#[unsafe(no_mangle)]
pub extern "C" fn kombazily_learn_all(alloc: Global, rank: &mut Handle, estimate: &Estimate)
    ensures { OnHeld rank.old.held.value rank.new.held.value (rank.new.held.value ≡ rank.old.held.value)
        (λ r s. LearnsAll r estimate.now s) }
{
    match rank.take(alloc) {
        Some(mut held) => {
            held.learn_all(*estimate);
            rank.put(held);
        }
        None => {}
    }
}

/// Puts what was learned of the round trips to a rank, if there is one and something was.
#[unsafe(no_mangle)]
pub extern "C" fn kombazily_learned(
    alloc: Global,
    rank: &mut Handle,
    peer: u16,
    estimate: &mut Estimate,
)
    ensures { OnHeld rank.old.held.value rank.new.held.value (estimate.new ≡ estimate.old)
        (λ r s. (s ≡ r) × (estimate.new ≡ unwrap_or (learned r peer) estimate.old)) }
{
    match rank.take(alloc) {
        Some(held) => {
            *estimate = held.learned(peer).unwrap_or(*estimate);
            rank.put(held);
        }
        None => {}
    }
}

/// Puts how late ranks on one machine are thought to answer at first, where so many ranks are on so many processors.
#[unsafe(no_mangle)]
pub extern "C" fn kombazily_begin_lateness(
    ranks: u32,
    processors: u32,
    now: u64,
    late: &mut Lateness,
)
    ensures { (late.new.estimate ≡ crowded ranks processors) × (late.new.since ≡ now) }
{
    *late = Lateness::begun(ranks, processors, now);
}

/// An engine learned this of ranks on one machine.
#[unsafe(no_mangle)]
pub extern "C" fn kombazily_note_lateness(late: &mut Lateness, learned: &Estimate, now: u64)
    ensures { late.new ≡ lateness_behind late.old learned.now now }
{
    late.note(*learned, now);
}

/// How many of so many engines of a process are told that frames may go again, once so many milliseconds have passed since
/// some were told last.
#[unsafe(no_mangle)]
pub extern "C" fn kombazily_told_at_once(count: u64, passed: u64) -> u64
    ensures { result ≡ told_at_once count passed }
{
    told_at_once(count, passed)
}

/// Hands out the datagrams that go next, and answers how many bytes they are.
#[unsafe(no_mangle)]
pub extern "C" fn kombazily_next(
    alloc: Global,
    rank: &mut Handle,
    most: u32,
    kept_too: bool,
    out: &mut OutgoingRecord,
    into: &mut [u8],
) -> usize
    ensures { OnHeld rank.old.held.value rank.new.held.value
        ((result ≡ 0) × (out.new ≡ out.old) × (into.new ≡ into.old))
        (λ r s. HandsNext r most kept_too result out.new into.old into.new s) }
{
    match rank.take(alloc) {
        Some(mut held) => {
            let len = held.next(most, kept_too, out, into);
            rank.put(held);
            len
        }
        None => 0,
    }
}

/// Whether nothing waits and all that was sent is acknowledged.
#[unsafe(no_mangle)]
pub extern "C" fn kombazily_is_idle(alloc: Global, rank: &mut Handle) -> bool
    ensures { OnHeld rank.old.held.value rank.new.held.value (result ≡ true)
        (λ r s. (s ≡ r) × (IsTrue result ↔ All IsIdlePeer r.engine.sessions.peers)) }
{
    match rank.take(alloc) {
        Some(held) => {
            let is_idle = held.is_idle();
            rank.put(held);
            is_idle
        }
        None => true,
    }
}
