//! What may be on its way to each rank, where that is bounded: a rank without windows sends what its engine emits.

ghost use Rattle.std.specs.Prelude.{◌≡◌, filter, not, slice_get, IfOk};
ghost use Rattle.congestion_windows.specs.Flights.{asks_in, withholds};
ghost use Rattle.datagram.specs.ByteMeanings.{datagram_of};
ghost use Rattle.c_rank.specs.Windows.{admitted, admitted_within, asks, came, most_under_way, new_in, offered, offered_all, opened, released, released_to};
ghost use Rattle.c_rank.specs.Windows.{room_told};
ghost use Rattle.c_rank.specs.Windows.{told_asks, with_ask, with_asks};

use crate::records::PlaceRecord;
use congestion_windows::{CongestionWindows, WindowLimits};
use datagram::Bytes;
use engine::Engine;
use std::alloc::{AllocError, Global};

/// So many frames to a rank are unanswered at most.
const MOST_UNANSWERED: u64 = 64;

/// The bytes of a longest datagram beside the data of its frame.
const BESIDE_DATA: u64 = 208;

/// How many bytes are on their way to a rank at most, in a job of so many ranks whose frames have so many bytes of data at
/// most.
fn most_under_way(frame: u32, size: u16) -> u64
    ensures { result ≡ most_under_way frame size }
{
    (u64::from(frame) + BESIDE_DATA) * MOST_UNANSWERED * u64::from(size.saturating_sub(1))
}

/// How many bytes a rank is told that its socket keeps (`PlaceRecord::room`), where the system says `kept`, or 0: that,
/// where its job's ranks are at several addresses. On one machine nothing but a socket that is full loses a datagram. So it
/// is 0, and there are no windows, where the socket keeps all that may be on its way to a rank; else as much as that is,
/// so that nothing but what is lost bounds the windows.
pub fn room_told(is_apart: bool, kept: u32, frame: u32, size: u16) -> u32
    ensures { result ≡ room_told is_apart kept frame size }
{
    if is_apart {
        return kept;
    }
    let most = most_under_way(frame, size);
    if kept == 0 || most <= u64::from(kept) {
        return 0;
    }
    most.min(u64::from(u32::MAX)) as u32
}

/// The windows of a rank at this place: none where it isn't told how many bytes its socket keeps.
pub(crate) fn opened(
    alloc: Global,
    place: &PlaceRecord,
) -> Result<Option<CongestionWindows>, AllocError>
    ensures { IfOk result (λ windows. windows ≡ opened place.now) }
{
    if place.room == 0 {
        return Ok(None);
    }
    let limits = WindowLimits::of(place.frame_limit, place.room, place.size);
    let windows = CongestionWindows::new(alloc, limits, place.size)?;
    Ok(Some(windows))
}

/// The datagrams are offered to the windows, one after the other.
fn offer_all(windows: &mut CongestionWindows, list: &[(u16, Bytes)])
    ensures { windows.new ≡ offered_all windows.old list.now }
{
    for datagram in list {
        windows.offer(datagram.1.as_slice());
    }
}

/// Drops the frames that are answered or deferred.
fn drop_withheld(windows: &CongestionWindows, emitted: &mut Vec<(u16, Bytes)>)
    ensures { emitted.new.items ≡
        filter (λ p. not (withholds windows.now (datagram_of p.1))) emitted.old.items }
{
    emitted.retain(|datagram| !windows.withholds(datagram.1.as_slice()));
}

/// The datagrams are offered to the windows, and those stay that have room.
// It stands apart, since most ranks have no windows.
#[inline(never)]
fn admit_within(windows: &mut CongestionWindows, emitted: &mut Vec<(u16, Bytes)>)
    ensures windows { windows.new ≡ offered_all windows.old emitted.old.items }
    ensures emitted { emitted.new.items ≡ admitted_within windows.old emitted.old.items }
{
    offer_all(windows, emitted);
    drop_withheld(windows, emitted);
}

/// The same of a rank that may have none: then all stay.
pub(crate) fn admit(windows: &mut Option<CongestionWindows>, emitted: &mut Vec<(u16, Bytes)>)
    ensures windows { windows.new ≡ offered windows.old emitted.old.items }
    ensures emitted { emitted.new.items ≡ admitted windows.old emitted.old.items }
{
    if let Some(windows) = windows {
        admit_within(windows, emitted);
    }
}

/// A datagram came that the engine took.
pub(crate) fn note_came(windows: &mut Option<CongestionWindows>, bytes: &[u8])
    ensures { windows.new ≡ came windows.old bytes.now }
{
    if let Some(windows) = windows {
        windows.on_came(bytes);
    }
}

/// Whether acknowledgements made room for what is deferred.
pub(crate) fn asks(windows: &Option<CongestionWindows>) -> bool
    ensures { result ≡ asks windows.now }
{
    match windows {
        Some(windows) => windows.asks(),
        None => false,
    }
}

/// The engine is told that frames to a rank don't wait, if there may be room for them.
fn ask_one(engine: &mut Engine, windows: &CongestionWindows, rank: u16)
    ensures { engine.new ≡ with_ask engine.old rank (asks_in (slice_get windows.now.flights rank)) }
{
    if windows.asks_for(rank) {
        engine.set_wait(rank, 0);
    }
}

/// The same of all ranks of its job.
fn ask_all(engine: &mut Engine, windows: &CongestionWindows)
    ensures { engine.new ≡ with_asks engine.old windows.now engine.old.sessions.place.size }
{
    for rank in 0..engine.place().size {
        ask_one(engine, windows, rank);
    }
}

/// The same of a rank that may have no windows.
pub(crate) fn ask(engine: &mut Engine, windows: &Option<CongestionWindows>)
    ensures { engine.new ≡ told_asks engine.old windows.now }
{
    if let Some(windows) = windows {
        ask_all(engine, windows);
    }
}

/// Drops the frames that went before.
fn keep_new(windows: &CongestionWindows, emitted: &mut Vec<(u16, Bytes)>)
    ensures { emitted.new.items ≡ new_in windows.now emitted.old.items }
{
    emitted.retain(|datagram| windows.is_new(datagram.1.as_slice()));
}

/// Of what the engine emits once it was asked for what is deferred, that stays which didn't go before and has room.
pub(crate) fn admit_released(
    windows: &mut Option<CongestionWindows>,
    emitted: &mut Vec<(u16, Bytes)>,
)
    ensures windows { windows.new ≡ released_to windows.old emitted.old.items }
    ensures emitted { emitted.new.items ≡ released windows.old emitted.old.items }
{
    if let Some(windows) = windows {
        windows.settle();
        keep_new(windows, emitted);
        admit_within(windows, emitted);
    }
}
