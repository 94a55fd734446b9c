//! What a program may ask of its rank.

ghost use Rattle.std.specs.Prelude.{◌≡◌, IfOk, OnErr};
ghost use Rattle.engine_calls.specs.Calls.{OwnsData};

use collective_messages::Entry;
use communicators::Question;
use point_to_point_calls::{Probe, Receive, Send};
use requests::{Region, Request, RequestList};
use std::alloc::{AllocError, Global};

/// What a program may ask of its rank. Where a request is named, none is the null request; where a communicator is,
/// none is
/// MPI_COMM_NULL. A message that a matching probe took out is named by a request too, until it is received.
#[derive(Drop)]
pub enum Call {
    /// Starts a send.
    Isend(Send),
    /// Starts a receive.
    Irecv(Receive),
    /// Waits until the request is finished, and ends it (MPI 3.1, 3.7.3).
    Wait(Option<Request>),
    /// Ends the request, if it is finished (3.7.3).
    Test(Option<Request>),
    /// Waits until a request of the list is finished, and ends the first in the list that is (3.7.5).
    Waitany(RequestList),
    /// Waits until each request of the list is finished, and ends them all (3.7.5).
    Waitall(RequestList),
    /// Ends a receive that waits as cancelled; one that was matched goes on (3.8.4).
    Cancel(Option<Request>),
    /// Enters a collective of the communicator: a barrier (5.3), a broadcast (5.4), a gather (5.5), a scatter (5.6), a
    /// reduction (5.9.1, 5.9.6), a copy of it or a split (6.4.2). All members are to enter the same ones in the same
    /// order.
    Enter(Option<usize>, Entry),
    /// Asks about the communicator (6.4.1).
    Ask(Option<usize>, Question),
    /// Tells what message such a receive would take now, if there is one, and leaves it (3.8.1).
    Iprobe(Probe),
    /// Takes a message out of matching that such a receive would take now, if there is one (3.8.2).
    Improbe(Probe),
    /// Receives a message that was taken out, and waits until its data are there; `None` is that of the null process
    /// (3.8.3).
    Mrecv(Option<Request>, Region),
}

impl Call {
    /// The same call once more. The only error is want of memory, for a buffer or a list of requests.
    pub fn try_clone(&self, alloc: Global) -> Result<Call, AllocError>
        ensures copy { IfOk result (λ copy. copy ≡ self.now) }
        ensures data { OnErr result (OwnsData self.now) }
    {
        match self {
            Call::Isend(send) => Ok(Call::Isend(send.try_clone(alloc)?)),
            Call::Irecv(receive) => Ok(Call::Irecv(receive.try_clone(alloc)?)),
            Call::Wait(request) => Ok(Call::Wait(*request)),
            Call::Test(request) => Ok(Call::Test(*request)),
            Call::Waitany(list) => Ok(Call::Waitany(list.try_clone(alloc)?)),
            Call::Waitall(list) => Ok(Call::Waitall(list.try_clone(alloc)?)),
            Call::Cancel(request) => Ok(Call::Cancel(*request)),
            Call::Enter(comm, entry) => Ok(Call::Enter(*comm, entry.try_clone(alloc)?)),
            Call::Ask(comm, question) => Ok(Call::Ask(*comm, *question)),
            Call::Iprobe(probe) => Ok(Call::Iprobe(*probe)),
            Call::Improbe(probe) => Ok(Call::Improbe(*probe)),
            Call::Mrecv(message, into) => Ok(Call::Mrecv(*message, into.try_clone(alloc)?)),
        }
    }
}
