//! Datagrams over UDP, and bytes to the standard output.

ghost use Rattle.std.specs.Prelude.{◌≡◌, ◌≤◌, false, length, take, IfOk, IfSome, OnOk};
ghost use Rattle.rank_addresses.specs.Addresses.{IsFromNamed};
ghost use Rattle.rank_process.specs.Stops.{GoesOnUnless};

use crate::error_kinds::{is_loss, is_of_network, is_transient};
use crate::stop::StopInput;
use delayed_acknowledgements::Delay;
use mio::net::UdpSocket;
use mio::unix::SourceFd;
use mio::{Events, Interest, Poll, Token};
use port_transport::{Wire, WireFault};
use rank_addresses::RankAddresses;
use start_marks::{MOST_MARKS, MarkFile, are_there, is_there};
use std::alloc::Global;
use std::io;
use std::io::{ErrorKind, Write};
use std::net::{Net, SocketAddr};
use std::rt::Env;
use std::thread::yield_now;
use std::time::{Clock, Duration, Instant};

/// How often a rank that waits behind a datagram lets other processes run and asks for the next one.
const TRIES: u32 = 24;

/// How many datagrams are passed over in one receive that don't come from the rank that they name.
const MOST_STRANGERS: u32 = 1_024;

/// A socket at the rank's own address and port, and the standard output.
#[derive(Drop)]
pub struct UdpWire<'a, R: Print + Clock> {
    rt: &'a R,
    socket: UdpSocket,
    /// Where the ranks are.
    addresses: RankAddresses,
    poll: Poll,
    events: Events<Global>,
    /// What tells the rank to stop.
    stop: StopInput,
    is_stopped: bool,
    /// The marks of the ranks, where some of them haven't begun.
    marks: Option<MarkFile>,
}

/// A datagram that stands in a buffer, and comes from the rank that it names.
struct Arrival {
    length: usize,
    from: SocketAddr,
}

/// Nothing where the error says no more than that nothing can be done now.
fn unless_transient(error: &io::Error) -> Result<(), WireFault> {
    if is_transient(error.kind()) {
        return Ok(());
    }
    Err(WireFault)
}

/// What tells that something came to this socket.
fn poll_over<R: Net>(rt: &R, socket: &mut UdpSocket) -> io::Result<Poll> {
    let poll = Poll::new(rt)?;
    poll.registry()
        .register(socket, Token(0), Interest::READABLE)?;
    Ok(poll)
}

impl<'a, R: Print + Clock> UdpWire<'a, R> {
    /// The socket of this rank, at its own address and port. Fails where they can't be used, or where the system or
    /// memory is wanting.
    pub fn new(
        rt: &'a R,
        alloc: Global,
        addresses: RankAddresses,
        rank: u16,
    ) -> io::Result<UdpWire<'a, R>>
    where
        R: Net + Env,
    {
        let Some(own) = addresses.of_rank(rank) else {
            return Err(io::Error::from(ErrorKind::AddrNotAvailable));
        };
        let mut socket = UdpSocket::bind(rt, SocketAddr::V4(own))?;
        let poll = poll_over(rt, &mut socket)?;
        let events = Events::with_capacity(alloc, 4)?;
        let stop = StopInput::new(rt);
        if let Some(fd) = stop.descriptor() {
            let _ = poll
                .registry()
                .register(&mut SourceFd(&fd), Token(1), Interest::READABLE);
        }
        Ok(UdpWire {
            rt,
            socket,
            addresses,
            poll,
            events,
            stop,
            is_stopped: false,
            marks: None,
        })
    }

    /// From now on nothing goes to a rank that hasn't begun by these marks: another program may have its port until then,
    /// and so would learn the job's number.
    pub fn heed(&mut self, marks: MarkFile) {
        self.marks = Some(marks);
    }

    /// Whether the rank of this port has it, as far as is known.
    fn may_reach(&mut self, port: u16) -> bool {
        let Some(marks) = self.marks else {
            return true;
        };
        let all = marks.all();
        if are_there(&all[..self.addresses.hosts.len().min(MOST_MARKS)]) {
            self.marks = None;
            return true;
        }
        let rank = port.wrapping_sub(self.addresses.first_port);
        all.get(usize::from(rank))
            .is_some_and(|mark| is_there(*mark))
    }

    /// Whether it was told to stop.
    pub fn is_stopped(&self) -> bool
        ensures { result ≡ self.now.is_stopped }
    {
        self.is_stopped
    }

    /// Whether something is there to be received.
    fn is_there(&self) -> bool {
        let mut first = [0u8; 1];
        self.socket.peek(&mut first).is_ok()
    }

    /// Whether this delay, if there is one, is late.
    fn is_late(&self, delay: Option<Delay>) -> bool {
        match delay {
            Some(delay) => delay.is_late(Instant::now(self.rt).ok()),
            None => false,
        }
    }

    /// The datagram that came next, if one is there now: none that doesn't come from the rank that it names.
    fn next_arrival(&self, buffer: &mut [u8]) -> Result<Option<Arrival>, WireFault>
        ensures within { IfOk result (λ found. IfSome found (λ came. came.length ≤ length buffer.new)) }
        ensures own { IfOk result (λ found. IfSome found (λ came. IsFromNamed self.now.addresses.hosts.items
            self.now.addresses.first_port (take came.length buffer.new) came.from)) }
    {
        for _ in 0..MOST_STRANGERS {
            match self.socket.recv_from(buffer) {
                Ok((length, from)) => {
                    if self.addresses.is_own(&buffer[..length], from) {
                        return Ok(Some(Arrival { length, from }));
                    }
                }
                Err(error) if is_of_network(error.kind()) => return Ok(None),
                Err(error) => {
                    unless_transient(&error)?;
                    return Ok(None);
                }
            }
        }
        Ok(None)
    }

    /// A fault where the rank is told to stop.
    fn heed_stop(&mut self) -> Result<(), WireFault>
        ensures { GoesOnUnless self.new.is_stopped result }
    {
        self.is_stopped = self.stop.is_closed();
        if self.is_stopped {
            return Err(WireFault);
        }
        Ok(())
    }
}

impl<'a, R: Print + Clock> Wire for UdpWire<'a, R> {
    ghost did = { λ _ _ _. Unit {0} };

    ghost tells = { λ _ _. Unit {0} };

    ghost answers = { λ _ _ _ _. Unit {0} };

    fn send(&mut self, port: u16, bytes: &[u8]) -> Result<(), WireFault> {
        let Some(place) = self.addresses.of_port(port) else {
            return Ok(());
        };
        if !self.may_reach(port) {
            return Ok(());
        }
        match self.socket.send_to(bytes, SocketAddr::V4(place)) {
            Ok(_) => Ok(()),
            Err(error) if is_loss(error.kind()) => Ok(()),
            Err(_) => Err(WireFault),
        }
    }

    fn receive(&mut self, buffer: &mut [u8]) -> Result<Option<usize>, WireFault> {
        match self.next_arrival(buffer)? {
            Some(Arrival { length, from: _ }) => Ok(Some(length)),
            None => Ok(None),
        }
    }

    fn write(&mut self, text: &[u8]) -> Result<(), WireFault> {
        let mut out = io::writer(self.rt);
        match out.write_all(text) {
            Ok(()) => Ok(()),
            Err(_) => Err(WireFault),
        }
    }

    fn wait(&mut self, most: u64) -> Result<(), WireFault>
        ensures did { OnOk result (Unit {0}) }
        ensures heeded { OnOk result (self.new.is_stopped ≡ false) }
    {
        self.heed_stop()?;
        let time = Some(Duration::from_millis(most));
        match self.poll.poll(&mut self.events, time) {
            Ok(()) => self.heed_stop(),
            Err(error) => unless_transient(&error),
        }
    }

    fn comes_soon(&mut self, delay: Option<Delay>) -> bool {
        for _ in 0..TRIES {
            if self.is_late(delay) {
                return false;
            }
            yield_now();
            if self.is_there() {
                return true;
            }
        }
        false
    }

    fn time(&self) -> Option<Instant> {
        Instant::now(self.rt).ok()
    }

    ghost none = { λ _. tt };

    ghost joined = { λ _ _ _ _ _ _ _. tt };
}
