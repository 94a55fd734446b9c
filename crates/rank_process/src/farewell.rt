//! How a rank stays for the others once its script is done.

use crate::rank_transport::RankTransport;
use crate::udp_wire::UdpWire;
use datagram::LONGEST_DATAGRAM;
use engine::Engine;
use event_loop::RECEIVE_ROOM;
use std::time::{Clock, Instant};

// A datagram that is longer than any of ours is seen to be too long, since a receive has room for one byte more.
const _: () = prove!(LONGEST_DATAGRAM < RECEIVE_ROOM);

/// How often it is asked at most what came: far more often than it may come.
const MOST_LOOKS: u64 = 1_000_000;

/// The milliseconds that a rank stays on without a datagram once its script is done, beyond those that its loop stays:
/// one for each rank of its job. The more ranks there are, the later each of them has its turn on a machine, and the
/// more of what goes to one of them at one time is lost and has to go again. The transport's stay comes to it.
fn stay_of(size: u16) -> u64 {
    u64::from(size)
}

/// Takes in all datagrams that are there, and sends what the engine answers. Answers whether one came; none where the
/// transport failed.
fn answer_all<R: Print + Clock>(
    engine: &mut Engine,
    udp: &mut RankTransport<UdpWire<'_, R>>,
    buffer: &mut [u8],
) -> Option<bool> {
    let mut came = false;
    for _ in 0..MOST_LOOKS {
        let Ok(found) = udp.take(buffer) else {
            return None;
        };
        let Some(len) = found else {
            break;
        };
        came = true;
        let _ = engine.on_datagram(&buffer[..len]);
    }
    let out = engine.take_out();
    for (target, bytes) in &out {
        udp.hand_over(*target, bytes.as_slice()).ok()?;
    }
    engine.give_back(out);
    Some(came)
}

/// How many milliseconds of the stay are left, which began then.
fn left_of<R: Clock>(rt: &R, since: Option<Instant>, stay: u64) -> u64 {
    match since.and_then(|since| since.elapsed(rt).ok()) {
        Some(passed) => stay.saturating_sub(crate::clock::millis_of(passed)),
        None => 0,
    }
}

/// The rank of a job of this size, whose script is done, stays on for a while and answers what comes again: so who
/// missed its last acknowledgement gets one more. Nothing that happens here changes how it ends.
pub(crate) fn take_leave<R: Print + Clock>(
    rt: &R,
    engine: &mut Engine,
    udp: &mut RankTransport<UdpWire<'_, R>>,
    size: u16,
) {
    let mut buffer = [0u8; RECEIVE_ROOM];
    let stay = stay_of(size).saturating_add(udp.stay(size));
    let mut since = Instant::now(rt).ok();
    for _ in 0..MOST_LOOKS {
        let left = left_of(rt, since, stay);
        if left == 0 || udp.pause(left).is_err() {
            return;
        }
        match answer_all(engine, udp, &mut buffer) {
            Some(true) => since = Instant::now(rt).ok(),
            Some(false) => {}
            None => return,
        }
    }
}
