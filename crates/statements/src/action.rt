//! What a line asks a rank to do.

ghost use Rattle.std.specs.Prelude.{◌≡◌, ◌++◌, [], ◌∷◌, OnOk};

use crate::collective_line::{Broadcasting, Gathering, Reducing, ReducingToAll, Scattering};
use crate::layout_line::LayoutLine;
use alike::{Alike, are_alike};
use datatypes::Buffer;
use std::alloc::{AllocFailed, Global};
use std::marker::Model;
use tokens::Name;
use vocabulary::Source;

/// The communicator that a line names.
#[derive(Drop)]
pub enum CommunicatorName {
    /// `world`: all ranks (MPI_COMM_WORLD).
    World,
    /// `self`: the rank alone (MPI_COMM_SELF).
    Own,
    /// A name.
    Named(Name),
}

/// The request that a line names.
#[derive(Drop)]
pub enum RequestName {
    /// `null`: the null request (MPI 3.1, 3.7.3).
    Null,
    /// A name.
    Named(Name),
}

impl Alike for RequestName {
    fn stands_as(&self, other: &Self) -> bool {
        match (self, other) {
            (RequestName::Null, RequestName::Null) => true,
            (RequestName::Named(name), RequestName::Named(other_name)) => {
                name.stands_as(other_name)
            }
            _ => false,
        }
    }
}

/// Requests that a line names, in order. Contracts see them as a list.
#[derive(Drop)]
pub struct RequestNames {
    items: Vec<RequestName>,
}

impl Model for RequestNames {
    ghost use Rattle.std.specs.Prelude.{List};
    ghost use Rattle.statements.specs.declared.action.RequestName.{RequestName};

    ghost Value = { List RequestName };

    ghost view = { λ r. r.items.items };
}

impl Alike for RequestNames {
    fn stands_as(&self, other: &Self) -> bool {
        are_alike(&self.items, &other.items)
    }
}

impl RequestNames {
    /// No requests. It takes no memory.
    pub(crate) fn new(alloc: Global) -> RequestNames
        ensures { result ≡ [] }
    {
        RequestNames {
            items: Vec::new(alloc),
        }
    }

    /// Adds a request at the end.
    pub(crate) fn push(&mut self, request: RequestName) -> Result<(), AllocFailed<RequestName>>
        ensures { OnOk result (self.new ≡ self.old ++ request ∷ []) }
    {
        self.items.push(request)
    }

    /// The requests, in order.
    pub fn as_slice(&self) -> &[RequestName]
        ensures { result.now ≡ self.now }
    {
        self.items.as_slice()
    }

    /// The requests, in order, each of which can be moved out.
    pub fn into_vec(self) -> Vec<RequestName>
        ensures { result.items ≡ self }
    {
        self.items
    }
}

/// `B TYPE V ..`: a buffer's name and elements.
#[derive(Drop)]
pub struct BufferLine {
    /// The buffer's name.
    pub name: Name,
    /// Its type and its elements.
    pub value: Buffer,
}

/// `as L N`: the places of a buffer that hold a message's data.
#[derive(Drop)]
pub struct LayoutClause {
    /// The name of the layout.
    pub layout: Name,
    /// How many copies of it. A number that 64 bits don't hold stands as the greatest that they hold.
    pub copies: u64,
}

/// `COMM DEST TAG B`, and `as L N` if it stands there: the arguments of a send (MPI 3.1, 3.2.1).
#[derive(Drop)]
pub struct Sending {
    /// The communicator in which the message goes.
    pub communicator: CommunicatorName,
    /// The rank that it goes to, or the null process (MPI 3.1, 3.11); never the wildcard. A rank that 16 bits don't
    /// hold stands as the greatest number that they hold, which is no rank either.
    pub target: Source,
    /// Its tag; none: `any`, which no send may have. A tag that 32 bits don't hold stands as the greatest number that
    /// they hold, which is no tag either.
    pub tag: Option<u32>,
    /// The name of the buffer whose elements go.
    pub buffer: Name,
    /// The places that they stand at; none: the buffer as it is.
    pub through: Option<LayoutClause>,
}

/// `COMM SRC TAG B`, and `as L N` if it stands there: the arguments of a receive (MPI 3.1, 3.2.4).
#[derive(Drop)]
pub struct Receiving {
    /// The communicator in which the message comes.
    pub communicator: CommunicatorName,
    /// From whom it is wanted; a rank that 16 bits don't hold stands as the greatest number that they hold.
    pub source: Source,
    /// The tag that is wanted; none: the wildcard. A tag that 32 bits don't hold stands as the greatest number that
    /// they hold.
    pub tag: Option<u32>,
    /// The name of the buffer that is lent.
    pub buffer: Name,
    /// The places that the data go to; none: the buffer as it is.
    pub through: Option<LayoutClause>,
}

/// `COMM SRC TAG`: the arguments of a probe (MPI 3.1, 3.8.1).
#[derive(Drop)]
pub struct Probing {
    /// The communicator in which the message comes.
    pub communicator: CommunicatorName,
    /// From whom it is wanted; a rank that 16 bits don't hold stands as the greatest number that they hold.
    pub source: Source,
    /// The tag that is wanted; none: the wildcard. A tag that 32 bits don't hold stands as the greatest number that
    /// they hold.
    pub tag: Option<u32>,
}

/// `B`, and `as L N` if it stands there: where the data of a message go that was taken out (MPI 3.1, 3.8.3).
#[derive(Drop)]
pub struct Landing {
    /// The name of the buffer that is lent.
    pub buffer: Name,
    /// The places that the data go to; none: the buffer as it is.
    pub through: Option<LayoutClause>,
}

/// `COMM COLOUR KEY`: the arguments of a split (MPI 3.1, 6.4.2).
#[derive(Drop)]
pub struct Splitting {
    /// The communicator that is split.
    pub communicator: CommunicatorName,
    /// Which of the new communicators the rank is to be in; none: `undefined`, in none of them.
    pub colour: Option<u32>,
    /// Where the rank is to stand among those of its colour: the lower, the further in front.
    pub key: i32,
}

/// What a line asks a rank to do, in a file of events as in a script.
#[derive(Drop)]
pub enum Action {
    /// `buf B TYPE V ..` sets a buffer.
    Buffer(BufferLine),
    /// `type L ..` sets a layout.
    Layout(LayoutLine),
    /// `isend Q COMM DEST TAG B` starts a send, and names its request.
    Isend(Name, Sending),
    /// `issend Q COMM DEST TAG B` starts a synchronous send, and names its request (MPI 3.1, 3.4).
    Issend(Name, Sending),
    /// `irecv Q COMM SRC TAG B` starts a receive, and names its request; the buffer is lent until the outcome.
    Irecv(Name, Receiving),
    /// `iprobe COMM SRC TAG` asks for the message that such a receive would take (MPI 3.1, 3.8.1).
    Iprobe(Probing),
    /// `improbe M COMM SRC TAG` takes the message out that such a receive would take, and names it (MPI 3.1, 3.8.2).
    Improbe(Name, Probing),
    /// `mrecv M B` receives a message that was taken out (MPI 3.1, 3.8.3).
    Mrecv(Name, Landing),
    /// `wait Q` waits for the request (MPI 3.1, 3.7.3).
    Wait(RequestName),
    /// `test Q` asks whether the request is finished (MPI 3.1, 3.7.3).
    Test(RequestName),
    /// `cancel Q` cancels a receive (MPI 3.1, 3.8.4).
    Cancel(RequestName),
    /// `waitany Q ..` waits for one of the requests, of which there may be none (MPI 3.1, 3.7.5).
    Waitany(RequestNames),
    /// `waitall Q ..` waits for all the requests, of which there may be none (MPI 3.1, 3.7.5).
    Waitall(RequestNames),
    /// `barrier COMM` waits until all members have entered (MPI 3.1, 5.3).
    Barrier(CommunicatorName),
    /// `bcast COMM ROOT B` gives the root's elements to all members (MPI 3.1, 5.4).
    Bcast(Broadcasting),
    /// `gather COMM ROOT B INTO` gives the elements of all members to the root (MPI 3.1, 5.5).
    Gather(Gathering),
    /// `scatter COMM ROOT B INTO` gives each member its block of the root's elements (MPI 3.1, 5.6).
    Scatter(Scattering),
    /// `reduce COMM ROOT OP B INTO` combines the elements of all members for the root (MPI 3.1, 5.9.1).
    Reduce(Reducing),
    /// `allreduce COMM OP B INTO` combines the elements of all members for each of them (MPI 3.1, 5.9.6).
    Allreduce(ReducingToAll),
    /// `dup NEW COMM` makes a communicator with the same group, and names it (MPI 3.1, 6.4.2).
    Dup(Name, CommunicatorName),
    /// `split NEW COMM COLOUR KEY` makes a communicator of those who give the same colour, and names it (MPI 3.1,
    /// 6.4.2).
    Split(Name, Splitting),
    /// `who COMM` asks for the rank in the communicator and for its size (MPI 3.1, 6.4.1).
    Who(CommunicatorName),
    /// `members COMM` asks for the communicator's group (MPI 3.1, 6.4.2).
    Members(CommunicatorName),
    /// `compare COMM COMM` asks how two communicators compare (MPI 3.1, 6.4.1).
    Compare(CommunicatorName, CommunicatorName),
}
