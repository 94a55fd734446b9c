//! The payloads of collectives that a rank announced, and those that come to it: what is found, put in and taken out.

ghost use Rattle.std.specs.Prelude.{◌≡◌, ◌+◌, ◌≤◌, ◌<◌, not, ◌==◌, true, filter, insert, length, IfNone, IfSome, OnSome};
ghost use Rattle.std.specs.Prelude.{slice_set, vec_len, vec_capacity, option_map};
ghost use Rattle.std.specs.Option.{option_copied};
ghost use Rattle.rendezvous.specs.Payloads.{Announced, Coming, Taken, is_whole};
ghost use Rattle.rendezvous.specs.PayloadState.{announced_at, coming_at, grown_at, is_taken, place_from, place_to};
ghost use Rattle.rendezvous.specs.PayloadState.{whole_by, with_data_at, without};

use crate::payloads::{AnnouncedPayload, ComingPayload, WholePayload};

fn place_to(announced: &[AnnouncedPayload], target: u16, transfer: u32) -> Option<usize>
    ensures { result ≡ place_to target transfer announced.now }
{
    announced
        .iter()
        .position(|payload| payload.is_to(target, transfer))
}

fn place_from(coming: &[ComingPayload], source: u16, transfer: u32) -> Option<usize>
    ensures { result ≡ place_from source transfer coming.now }
{
    coming
        .iter()
        .position(|payload| payload.is_from(source, transfer))
}

/// The payload of the transfer to the rank that has this number, where it was announced.
pub(crate) fn find_announced(
    announced: &[AnnouncedPayload],
    target: u16,
    transfer: u32,
) -> Option<&AnnouncedPayload>
    ensures { option_copied result ≡ announced_at announced.now (place_to target transfer announced.now) }
{
    match place_to(announced, target, transfer) {
        Some(place) => announced.get(place),
        None => None,
    }
}

/// Takes away the transfer to the rank that has this number, where it was announced.
pub(crate) fn remove_announced(announced: &mut Vec<AnnouncedPayload>, target: u16, transfer: u32)
    ensures rest { announced.new.items ≡ without announced.old.items (place_to target transfer announced.old.items) }
    ensures bound { vec_len announced.new ≤ vec_len announced.old }
    ensures capacity { vec_capacity announced.new ≡ vec_capacity announced.old }
{
    if let Some(place) = place_to(announced.as_slice(), target, transfer) {
        announced.remove(place);
    }
}

/// The payload of the transfer from the rank that has this number, where it comes.
pub(crate) fn find_coming(
    coming: &[ComingPayload],
    source: u16,
    transfer: u32,
) -> Option<&ComingPayload>
    ensures { option_copied result ≡ coming_at coming.now (place_from source transfer coming.now) }
{
    match place_from(coming, source, transfer) {
        Some(place) => coming.get(place),
        None => None,
    }
}

/// Adds a piece, for which there is room, to the payload at a place, and tells whether all its bytes have come now.
fn push_piece(coming: &mut Vec<ComingPayload>, place: usize, bytes: &[u8]) -> bool
    requires there { place < length coming.old.items }
    requires room { length (grown_at coming.old.items place bytes.now).bytes
        ≤ (grown_at coming.old.items place bytes.now).total }
    ensures grown { coming.new.items ≡ slice_set coming.old.items place (grown_at coming.old.items place bytes.now) }
    ensures whole { result ≡ is_whole (grown_at coming.old.items place bytes.now) }
    ensures capacity { vec_capacity coming.new ≡ vec_capacity coming.old }
{
    let payload = &mut coming[place];
    payload.push(bytes);
    payload.is_whole()
}

/// Adds the next piece to the transfer from the rank that has this number; once it is whole, it is gone.
#[tactic(auto, using(crate::proofs::Steps::remove_set))]
pub(crate) fn take_piece(
    coming: &mut Vec<ComingPayload>,
    source: u16,
    transfer: u32,
    offset: u32,
    bytes: &[u8],
)
    requires { is_taken (coming_at coming.old.items (place_from source transfer coming.old.items)) offset bytes.now ≡
        true }
    ensures rest { coming.new.items ≡ with_data_at coming.old.items (place_from source transfer coming.old.items) bytes.now }
    ensures bound { vec_len coming.new ≤ vec_len coming.old }
    ensures capacity { vec_capacity coming.new ≡ vec_capacity coming.old }
{
    if let Some(place) = place_from(coming.as_slice(), source, transfer) {
        if push_piece(coming, place, bytes) {
            coming.remove(place);
        }
    }
}

/// Takes out the payload of the transfer from the rank that has this number, with these bytes behind those that came
/// before, where it is whole with them.
#[tactic(auto, using(crate::proofs::Steps::insert_removed))]
pub(crate) fn take_whole(
    coming: &mut Vec<ComingPayload>,
    source: u16,
    transfer: u32,
    bytes: &[u8],
) -> Option<WholePayload>
    ensures whole { option_map (λ (t : Taken). t.whole) result ≡
        whole_by (coming_at coming.old.items (place_from source transfer coming.old.items)) bytes.now }
    ensures rest { OnSome result
        (coming.new.items ≡ with_data_at coming.old.items (place_from source transfer coming.old.items) bytes.now) }
    ensures back { IfSome result (λ t. insert coming.new.items t.place t.before ≡ coming.old.items) }
    ensures place { IfSome result (λ t. t.place ≤ length coming.new.items) }
    ensures fewer { OnSome result (vec_len coming.new + 1 ≡ vec_len coming.old) }
    ensures kept { IfNone result (coming.new.items ≡ coming.old.items) }
    ensures capacity { vec_capacity coming.new ≡ vec_capacity coming.old }
{
    let place = place_from(coming.as_slice(), source, transfer)?;
    if !coming[place].is_last(bytes) {
        return None;
    }
    let payload = coming.remove(place);
    Some(WholePayload::new(place, payload, bytes))
}

/// Puts a payload in at a place, for which there is room.
pub(crate) fn put_at(coming: &mut Vec<ComingPayload>, place: usize, payload: ComingPayload)
    requires place { place ≤ length coming.old.items }
    requires room { vec_len coming.old < vec_capacity coming.old }
    ensures items { coming.new.items ≡ insert coming.old.items place payload }
    ensures more { vec_len coming.new ≡ vec_len coming.old + 1 }
    ensures capacity { vec_capacity coming.new ≡ vec_capacity coming.old }
{
    coming.insert(place, payload).unwrap();
}

pub(crate) fn drop_announced(announced: &mut Vec<AnnouncedPayload>, rank: u16)
    ensures items { announced.new.items ≡ filter (λ (a : Announced). not (a.target == rank)) announced.old.items }
    ensures bound { vec_len announced.new ≤ vec_len announced.old }
    ensures capacity { vec_capacity announced.new ≡ vec_capacity announced.old }
{
    announced.retain(|payload| payload.target() != rank);
}

pub(crate) fn drop_coming(coming: &mut Vec<ComingPayload>, rank: u16)
    ensures items { coming.new.items ≡ filter (λ (c : Coming). not (c.source == rank)) coming.old.items }
    ensures bound { vec_len coming.new ≤ vec_len coming.old }
    ensures capacity { vec_capacity coming.new ≡ vec_capacity coming.old }
{
    coming.retain(|payload| payload.source() != rank);
}
