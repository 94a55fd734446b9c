//! The session with each rank of the job.

ghost use Rattle.std.specs.Prelude.{◌≡◌, ◌≢◌, ◌≤◌, ◌<◌, ◌+◌, ◌-◌, ◌*◌, ◌++◌, length, All, IsTrue, IfOk, OnOk, OnErr};
ghost use Rattle.std.specs.Prelude.{IfErr, ◌^◌, [], ◌∷◌, if◌then◌else◌, slice_set, vec_len};
ghost use Rattle.reliable_link.specs.SenderState.{after_accept, after_ack, IsOfSent, entered_on_ack, due_at, out_end};
ghost use Rattle.reliable_link.specs.SenderState.{IsSomeDue, StandsAt};
ghost use Rattle.reliable_link.specs.Acceptance.{HasNumberLeft};
ghost use Rattle.reliable_link.specs.ReceiverState.{advanced, after_frame, discarded};
ghost use Rattle.std.specs.List.{range_with_len};
ghost use Rattle.sessions.specs.EventExecution.{taken_back};
ghost use Rattle.sessions.specs.Busy.{busy_among, busy_in};
ghost use Rattle.sessions.specs.Peers.{new_peers, peer_at, with_sender, with_receiver, with_new_session, frames_out};
ghost use Rattle.sessions.specs.Peers.{with_wait};
ghost use Rattle.sessions.specs.Peers.{IsAnyDue, due_out, after_all_due};

use crate::refusal::SessionRefusal;
use alike::Alike;
use datagram::{Bytes, Drafts};
use reliable_link::{Receiver, Sender};
use std::alloc::{AllocError, Global};
use std::mem;
use std::ops::Range;

/// Both directions of the session with one rank. That with the rank itself stays empty.
#[derive(Drop)]
pub struct Peer {
    /// What goes there.
    pub sender: Sender,
    /// What comes from there.
    pub receiver: Receiver,
}

/// A session with each of `size` ranks, none of which has begun.
pub(crate) fn new_peers(alloc: Global, size: u16) -> Result<Vec<Peer>, SessionRefusal>
    ensures ok { IfOk result (λ peers. peers.items ≡ new_peers size) }
    ensures err { IfErr result (λ e. e ≡ SessionRefusal.OutOfMemory) }
{
    let mut peers = Vec::new(alloc);
    for _built in 0..size {
        let peer = Peer {
            sender: Sender::new(alloc),
            receiver: Receiver::new(alloc),
        };
        peers.push(peer).map_err(|_| SessionRefusal::OutOfMemory)?;
    }
    Ok(peers)
}

/// The session with a rank.
pub(crate) fn peer_at(peers: &[Peer], rank: u16) -> &Peer
    requires { rank < length peers.now }
    ensures { result.now ≡ peer_at peers.now rank }
{
    &peers[rank as usize]
}

/// The session with a rank takes a frame over.
pub(crate) fn accept_at(
    peers: &mut Vec<Peer>,
    rank: u16,
    frame: Bytes,
) -> Result<(), SessionRefusal>
    requires there { rank < vec_len peers.old }
    requires left { HasNumberLeft (peer_at peers.old.items rank).sender }
    ensures state { OnOk result (peers.new.items ≡ with_sender peers.old.items rank
        (after_accept (peer_at peers.old.items rank).sender frame)) }
    ensures unchanged { OnErr result (peers.new.items ≡ peers.old.items) }
    ensures err { IfErr result (λ e. e ≡ SessionRefusal.OutOfMemory) }
{
    let peer = &mut peers[rank as usize];
    match peer.sender.accept(frame) {
        Ok(_) => Ok(()),
        Err(_) => Err(SessionRefusal::OutOfMemory),
    }
}

/// The session with a rank takes a frame over, which goes out at once.
fn accept_and_emit_at(
    peers: &mut Vec<Peer>,
    out: &mut Vec<(u16, Bytes)>,
    rank: u16,
    frame: Bytes,
) -> Result<(), SessionRefusal>
    requires there { rank < vec_len peers.old }
    requires left { HasNumberLeft (peer_at peers.old.items rank).sender }
    ensures state { OnOk result (peers.new.items ≡ with_sender peers.old.items rank
        (after_accept (peer_at peers.old.items rank).sender frame)) }
    ensures out { OnOk result (out.new.items ≡ out.old.items ++ (rank, frame) ∷ []) }
    ensures unchanged { OnErr result (peers.new.items ≡ peers.old.items) }
    ensures silent { OnErr result (out.new.items ≡ out.old.items) }
    ensures err { IfErr result (λ e. e ≡ SessionRefusal.OutOfMemory) }
{
    out.reserve(1).map_err(|_| SessionRefusal::OutOfMemory)?;
    let shared = frame.share().map_err(|_| SessionRefusal::OutOfMemory)?;
    accept_at(peers, rank, frame)?;
    // Nothing fails from here on.
    out.push_reserved((rank, shared));
    Ok(())
}

/// The session with a rank takes a frame over, which goes out at once if it comes into the window.
pub(crate) fn send_at(
    peers: &mut Vec<Peer>,
    out: &mut Vec<(u16, Bytes)>,
    rank: u16,
    frame: Bytes,
    enters: bool,
) -> Result<(), SessionRefusal>
    requires there { rank < vec_len peers.old }
    requires left { HasNumberLeft (peer_at peers.old.items rank).sender }
    ensures state { OnOk result (peers.new.items ≡ with_sender peers.old.items rank
        (after_accept (peer_at peers.old.items rank).sender frame)) }
    ensures out { OnOk result (out.new.items ≡ out.old.items ++ (if enters then (rank, frame) ∷ [] else [])) }
    ensures unchanged { OnErr result (peers.new.items ≡ peers.old.items) }
    ensures silent { OnErr result (out.new.items ≡ out.old.items) }
    ensures err { IfErr result (λ e. e ≡ SessionRefusal.OutOfMemory) }
{
    if enters {
        accept_and_emit_at(peers, out, rank, frame)
    } else {
        accept_at(peers, rank, frame)
    }
}

/// The session with a rank gives the frame back that it took over last.
pub(crate) fn take_back_at(peers: &mut Vec<Peer>, rank: u16)
    requires { rank < vec_len peers.old }
    ensures { peers.new.items ≡ taken_back peers.old.items rank }
{
    let peer = &mut peers[rank as usize];
    peer.sender.take_back();
}

/// The session with a rank hands its next frame up. The places for frames that are held are made with the first one.
pub(crate) fn raise_at(peers: &mut Vec<Peer>, rank: u16) -> Result<(), SessionRefusal>
    requires there { rank < vec_len peers.old }
    requires left { (peer_at peers.old.items rank).receiver.next ≢ 18446744073709551615 }
    ensures ok { OnOk result
        (peers.new.items ≡ with_receiver peers.old.items rank (advanced (peer_at peers.old.items rank).receiver)) }
    ensures unchanged { OnErr result (peers.new.items ≡ peers.old.items) }
    ensures err { IfErr result (λ e. e ≡ SessionRefusal.OutOfMemory) }
{
    let peer = &mut peers[rank as usize];
    // The number shows that it has 64 bits.
    let _next = peer.receiver.next();
    match peer.receiver.prepare() {
        Ok(()) => {
            peer.receiver.advance();
            Ok(())
        }
        Err(_) => Err(SessionRefusal::OutOfMemory),
    }
}

/// The next frame of the session with a rank isn't held any more.
pub(crate) fn discard_at(peers: &mut Vec<Peer>, rank: u16)
    requires { rank < vec_len peers.old }
    ensures { peers.new.items ≡ with_receiver peers.old.items rank (discarded (peer_at peers.old.items rank).receiver) }
{
    let peer = &mut peers[rank as usize];
    peer.receiver.discard();
}

/// Frames to a rank wait so long for their acknowledgements from now on.
pub(crate) fn set_wait_at(peers: &mut Vec<Peer>, rank: u16, wait: u64)
    requires { rank < vec_len peers.old }
    ensures { peers.new.items ≡ with_wait peers.old.items rank wait }
{
    let peer = &mut peers[rank as usize];
    peer.sender.set_wait(wait);
}

/// The session with a rank holds a frame that came before its turn.
pub(crate) fn hold_at(
    peers: &mut Vec<Peer>,
    rank: u16,
    number: u64,
    bytes: &[u8],
) -> Result<(), SessionRefusal>
    requires there { rank < vec_len peers.old }
    requires behind { (peer_at peers.old.items rank).receiver.next < number }
    requires near { number < (peer_at peers.old.items rank).receiver.next + 64 }
    ensures ok { OnOk result
        (peers.new.items ≡
        with_receiver peers.old.items rank (after_frame (peer_at peers.old.items rank).receiver number bytes.now)) }
    ensures unchanged { OnErr result (peers.new.items ≡ peers.old.items) }
    ensures err { IfErr result (λ e. e ≡ SessionRefusal.OutOfMemory) }
{
    let peer = &mut peers[rank as usize];
    match peer.receiver.hold(number, bytes) {
        Ok(()) => Ok(()),
        Err(_) => Err(SessionRefusal::OutOfMemory),
    }
}

/// The memory of the frames below `n` is kept for datagrams to come.
fn keep_below(drafts: &mut Drafts, sender: &Sender, n: u64) {
    let lowest = sender.next_number() - sender.kept() as u64;
    for number in lowest..n {
        if let Some(bytes) = sender.frame(number) {
            drafts.keep(bytes);
        }
    }
}

/// The session with a rank heeds an acknowledgement of all frames below `n`, which says of those behind it which are
/// held.
/// The memory of the former is kept for datagrams to come.
pub(crate) fn acknowledge_at(
    peers: &mut Vec<Peer>,
    drafts: &mut Drafts,
    rank: u16,
    n: u64,
    held: u64,
)
    requires room { rank < vec_len peers.old }
    requires sent { IsOfSent (peer_at peers.old.items rank).sender n held }
    ensures { peers.new.items ≡
        with_sender peers.old.items rank (after_ack (peer_at peers.old.items rank).sender n held) }
{
    let peer = &mut peers[rank as usize];
    keep_below(drafts, &peer.sender, n);
    let _ = peer.sender.on_ack(n, held);
}

/// Both directions of the session with a rank start anew; the former session is handed out.
pub(crate) fn begin_anew_at(peers: &mut Vec<Peer>, rank: u16) -> Peer
    requires { rank < vec_len peers.old }
    ensures former { result ≡ peer_at peers.old.items rank }
    ensures state { peers.new.items ≡ with_new_session peers.old.items rank }
{
    let peer = &mut peers[rank as usize];
    let anew = Peer {
        sender: peer.sender.for_new_session(),
        receiver: peer.receiver.for_new_session(),
    };
    mem::replace(peer, anew)
}

/// This is the session with a rank.
pub(crate) fn put_at(peers: &mut Vec<Peer>, rank: u16, peer: Peer)
    requires { rank < vec_len peers.old }
    ensures { peers.new.items ≡ slice_set peers.old.items rank peer }
{
    peers[rank as usize] = peer;
}

/// The places of the former session with a rank, which is done with, become those of the present one. Contracts see
/// nothing of it.
pub(crate) fn take_places_at(peers: &mut Vec<Peer>, rank: u16, former: Peer)
    requires { rank < vec_len peers.old }
    ensures { peers.new.items ≡ peers.old.items }
{
    let peer = &mut peers[rank as usize];
    let Peer { sender, receiver } = former;
    peer.sender.take_places(sender);
    peer.receiver.take_places(receiver);
}

/// A datagram for a rank goes out behind the others.
pub(crate) fn emit(
    out: &mut Vec<(u16, Bytes)>,
    rank: u16,
    bytes: Bytes,
) -> Result<(), SessionRefusal>
    ensures ok { OnOk result (out.new.items ≡ out.old.items ++ (rank, bytes) ∷ []) }
    ensures len { OnOk result (vec_len out.new ≡ vec_len out.old + 1) }
    ensures unchanged { OnErr result (out.new.items ≡ out.old.items) }
    ensures err { IfErr result (λ e. e ≡ SessionRefusal.OutOfMemory) }
{
    out.push((rank, bytes))
        .map_err(|_| SessionRefusal::OutOfMemory)
}

/// These datagrams go out behind the others.
pub(crate) fn emit_all(
    out: &mut Vec<(u16, Bytes)>,
    datagrams: Vec<(u16, Bytes)>,
) -> Result<(), SessionRefusal>
    ensures ok { OnOk result (out.new.items ≡ out.old.items ++ datagrams.items) }
    ensures len { OnOk result (vec_len out.new ≡ vec_len out.old + vec_len datagrams) }
    ensures unchanged { OnErr result (out.new.items ≡ out.old.items) }
    ensures err { IfErr result (λ e. e ≡ SessionRefusal.OutOfMemory) }
{
    let mut datagrams = datagrams;
    out.append(&mut datagrams)
        .map_err(|_| SessionRefusal::OutOfMemory)
}

/// A frame goes out to a rank behind the others, and is kept as well.
fn emit_shared(out: &mut Vec<(u16, Bytes)>, rank: u16, frame: &Bytes) -> Result<(), SessionRefusal>
    ensures ok { OnOk result (out.new.items ≡ out.old.items ++ (rank, frame.now) ∷ []) }
    ensures len { OnOk result (vec_len out.new ≡ vec_len out.old + 1) }
    ensures unchanged { OnErr result (out.new.items ≡ out.old.items) }
    ensures err { IfErr result (λ e. e ≡ SessionRefusal.OutOfMemory) }
{
    let shared = frame.share().map_err(|_| SessionRefusal::OutOfMemory)?;
    emit(out, rank, shared)
}

/// The frames of these numbers, as they go out to a rank.
pub(crate) fn frames_of(
    alloc: Global,
    target: u16,
    sender: &Sender,
    numbers: &[u64],
) -> Result<Vec<(u16, Bytes)>, SessionRefusal>
    ensures ok { IfOk result (λ frames. frames.items ≡ frames_out target sender.now numbers.now) }
    ensures few { IfOk result (λ frames. vec_len frames ≤ length numbers.now) }
    ensures err { IfErr result (λ e. e ≡ SessionRefusal.OutOfMemory) }
{
    let mut frames = Vec::new(alloc);
    for number in numbers {
        if let Some(frame) = sender.frame(*number) {
            emit_shared(&mut frames, target, frame)?;
        }
    }
    Ok(frames)
}

#[tactic(auto, using(crate::proofs::PeerLemmas::range_more))]
fn numbers_in(alloc: Global, range: Range<u64>) -> Result<Vec<u64>, AllocError>
    ensures { IfOk result (λ numbers. numbers.items ≡ range_with_len range.start (range.end - range.start)) }
{
    let mut numbers = Vec::new(alloc);
    for place in 0..range.end.saturating_sub(range.start) {
        numbers.push(range.start + place)?;
    }
    Ok(numbers)
}

/// The frames that an acknowledgement of all frames below `n` brings into the window, as they go out to a rank.
pub(crate) fn entering_frames(
    alloc: Global,
    target: u16,
    sender: &Sender,
    n: u64,
) -> Result<Vec<(u16, Bytes)>, SessionRefusal>
    requires { n ≤ out_end sender.now }
    ensures ok { IfOk result (λ frames. frames.items ≡ frames_out target sender.now (entered_on_ack sender.now n)) }
    ensures few { IfOk result (λ frames. vec_len frames ≤ 64) }
    ensures err { IfErr result (λ e. e ≡ SessionRefusal.OutOfMemory) }
{
    let range = sender.entering(n);
    match numbers_in(alloc, range) {
        Ok(numbers) => frames_of(alloc, target, sender, &numbers),
        Err(_) => Err(SessionRefusal::OutOfMemory),
    }
}

/// The frames of one session that are due at this time, as they go out to its rank.
#[tactic(auto, using(crate::proofs::PeerLemmas::few_due, crate::proofs::PeerLemmas::none_out))]
fn due_frames_of(
    alloc: Global,
    rank: u16,
    peer: &Peer,
    now: u64,
) -> Result<Vec<(u16, Bytes)>, SessionRefusal>
    requires { peer.now.sender.clock ≤ now }
    ensures ok { IfOk result (λ frames.
        frames.items ≡ frames_out rank peer.now.sender (due_at peer.now.sender now)) }
    ensures few { IfOk result (λ frames. vec_len frames ≤ 64) }
    ensures err { IfErr result (λ e. e ≡ SessionRefusal.OutOfMemory) }
    ensures memory { OnErr result (IsSomeDue peer.now.sender now) }
{
    if peer.sender.is_empty() {
        return Ok(Vec::new(alloc));
    }
    let Ok(numbers) = peer.sender.due(now) else {
        return Err(SessionRefusal::OutOfMemory);
    };
    if numbers.is_empty() {
        return Ok(Vec::new(alloc));
    }
    frames_of(alloc, rank, &peer.sender, &numbers)
}

/// The frames of one session that are due at this time go out behind the others. Memory is wanted only where one is due.
fn add_due_frames(
    frames: &mut Vec<(u16, Bytes)>,
    alloc: Global,
    rank: u16,
    peer: &Peer,
    now: u64,
) -> Result<(), SessionRefusal>
    requires { peer.now.sender.clock ≤ now }
    ensures ok { OnOk result (
        frames.new.items ≡ frames.old.items ++ frames_out rank peer.now.sender (due_at peer.now.sender now)) }
    ensures few { OnOk result (vec_len frames.new ≤ vec_len frames.old + 64) }
    ensures err { IfErr result (λ e. e ≡ SessionRefusal.OutOfMemory) }
    ensures memory { OnErr result (IsSomeDue peer.now.sender now) }
{
    let due = due_frames_of(alloc, rank, peer, now)?;
    if due.is_empty() {
        return Ok(());
    }
    emit_all(frames, due)
}

/// The frames that are due at this time, by rising rank.
#[tactic(auto, using(crate::proofs::PeerLemmas::due_out_more))]
pub(crate) fn due_frames(
    alloc: Global,
    peers: &[Peer],
    now: u64,
) -> Result<Vec<(u16, Bytes)>, SessionRefusal>
    requires small { length peers.now ≤ 1024 }
    requires clocks { All (λ p. p.sender.clock ≤ now) peers.now }
    ensures ok { IfOk result (λ frames. frames.items ≡ due_out 0 peers.now now) }
    ensures few { IfOk result (λ frames. vec_len frames ≤ 64 * length peers.now) }
    ensures err { IfErr result (λ e. e ≡ SessionRefusal.OutOfMemory) }
    ensures memory { OnErr result (IsAnyDue peers.now now) }
{
    let mut frames = Vec::new(alloc);
    for (rank, peer) in peers.iter().enumerate() {
        add_due_frames(&mut frames, alloc, rank as u16, peer, now)?;
    }
    Ok(frames)
}

fn mark_each_sent(peers: &mut [Peer], now: u64)
    requires { All (λ p. p.sender.clock ≤ now) peers.old }
    ensures { peers.new ≡ after_all_due peers.old now }
{
    for peer in peers.iter_mut() {
        peer.sender.mark_sent(now);
    }
}

/// Whether the last tick of each session was at this time, and nothing has become due since: then one more tick changes
/// nothing.
pub(crate) fn stand_at(peers: &[Peer], now: u64) -> bool
    ensures { IsTrue result → All (λ p. StandsAt p.sender now) peers.now }
{
    peers.iter().all(|peer| peer.sender.stands_at(now))
}

/// The frames that are due count as sent now.
pub(crate) fn mark_all_sent(peers: &mut Vec<Peer>, now: u64)
    requires { All (λ p. p.sender.clock ≤ now) peers.old.items }
    ensures { peers.new.items ≡ after_all_due peers.old.items now }
{
    mark_each_sent(peers, now);
}

/// 1 where a frame of the session waits or is unacknowledged, else 0.
fn busy_of(peer: &Peer) -> usize
    ensures count { result ≡ busy_in peer.now }
    ensures once { result ≤ 1 }
{
    if peer.sender.is_empty() { 0 } else { 1 }
}

/// The same of the session with a rank.
pub(crate) fn busy_at(peers: &[Peer], rank: u16) -> usize
    requires { rank < length peers.now }
    ensures count { result ≡ busy_in (peer_at peers.now rank) }
    ensures once { result ≤ 1 }
{
    busy_of(peer_at(peers, rank))
}

/// In how many sessions a frame waits or is unacknowledged.
#[tactic(auto, using(crate::proofs::Busy::busy_more))]
pub(crate) fn count_busy(peers: &[Peer]) -> usize
    ensures { result ≡ busy_among peers.now }
{
    let mut busy = 0;
    for peer in peers {
        busy += busy_of(peer);
    }
    busy
}

impl Alike for Peer {
    fn stands_as(&self, other: &Self) -> bool {
        self.sender.stands_as(&other.sender) && self.receiver.stands_as(&other.receiver)
    }
}
