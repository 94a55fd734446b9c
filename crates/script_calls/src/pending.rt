//! What the answer to a call is awaited for, and what names stand for once it is here.

ghost use Rattle.std.specs.Prelude.{◌≡◌};
ghost use Rattle.script_calls.specs.NamedThings.{null};

use requests::Request;
use statements::{Name, RequestName, RequestNames};

/// What a name of a request stands for.
#[derive(Drop)]
pub struct NamedRequest {
    /// The request; none is the null request.
    pub request: Option<Request>,
    /// The name of the buffer that comes back with the request's outcome.
    pub buffer: Option<Name>,
}

impl NamedRequest {
    /// The null request (MPI 3.1, 3.7.3).
    pub fn null() -> NamedRequest
        ensures { result ≡ null }
    {
        NamedRequest {
            request: None,
            buffer: None,
        }
    }
}

/// What a name of a message stands for (MPI 3.1, 3.8.2).
#[derive(Clone, Copy)]
pub enum NamedMessage {
    /// A message that was taken out and isn't received; none is that of the null process.
    TakenOut(Option<Request>),
    /// One that was received.
    Ended,
}

/// A communicator that the rank holds.
#[derive(Clone, Copy)]
pub struct NamedCommunicator {
    /// Its place among those of the rank.
    pub place: usize,
    /// The rank's rank in it.
    pub rank: usize,
}

/// What the answer to a call is for.
#[derive(Drop)]
pub enum Pending {
    /// Nothing has a name by it, and no buffer comes back: a cancel, a probe, or a question whose answer is told.
    Nothing,
    /// An operation is started: its request has this name then, and the buffer of that name is lent to it, if it is a
    /// receive.
    Starting(Name, Option<Name>),
    /// An operation is started whose request has no name, to be waited for; the buffer of this name is lent to it.
    StartingToWait(Option<Name>),
    /// The request that a line names is waited for, or tested.
    Waiting(RequestName),
    /// An operation whose request has no name is waited for; the buffer of this name comes back with its outcome.
    WaitingUnnamed(Option<Name>),
    /// Any or all of several requests are waited for.
    WaitingForSeveral(RequestNames),
    /// A message is looked for, to be taken out under this name.
    Searching(Name),
    /// The message of the first name is received into the buffer of the other.
    Receiving(Name, Name),
    /// A communicator of this name is made.
    Making(Name),
    /// The rank in the communicator at this place is asked for, which was made and is to have this name.
    Seating(Name, usize),
    /// Another collective is entered; the buffer of this name gets what it gives.
    Entering(Option<Name>),
    /// The rank in the communicator at this place is asked for; its size is to be asked for next.
    AskingRank(Option<usize>),
    /// The size of a communicator is asked for, in which the rank is this.
    AskingSize(usize),
    /// The rank in the communicator is asked for, to tell how a collective with a block above all limits is refused.
    Oversized,
}
