//! Calls and their replies.

ghost use Rattle.std.specs.Prelude.{◌≡◌, IfOk};

use crate::refusal::Refusal;
use communicator_members::Members;
use datagram::Outgoing;
use requests::{Region, Request};
use std::alloc::{AllocError, Global};
use vocabulary::{Mode, Source};

/// A send (MPI 3.1, 3.4 and 3.7.2).
#[derive(Drop)]
pub struct Send {
    /// Standard or synchronous: how it ends (3.4).
    pub mode: Mode,
    /// The communicator, by its place among those that the rank holds: `world` has place 0, `self` place 1. `None` is
    /// MPI_COMM_NULL, which is refused (6.4).
    pub comm: Option<usize>,
    /// The rank in the communicator that it goes to, or the null process (3.11). Any rank is no target: it is refused.
    pub target: Source,
    /// The tag, at most 2,147,483,647. The wildcard, `None`, is no tag of a send: it is refused.
    pub tag: Option<u32>,
    /// Where the data are taken from.
    pub from: Region,
}

/// A receive (MPI 3.1, 3.2.4 and 3.7.2).
#[derive(Drop)]
pub struct Receive {
    /// The communicator, by its place among those that the rank holds; `None` is MPI_COMM_NULL.
    pub comm: Option<usize>,
    /// Whom it names, as a rank in the communicator. Its status names the source so too (3.2.5).
    pub source: Source,
    /// The tag that it wants, at most 2,147,483,647; `None` is the wildcard.
    pub tag: Option<u32>,
    /// Where the data go. The receive takes the buffer with it, and its outcome hands it back.
    pub into: Region,
}

/// What a probe asks for (MPI 3.1, 3.8.1 and 3.8.2).
#[derive(Clone, Copy)]
pub struct Probe {
    /// The communicator, by its place among those that the rank holds; `None` is MPI_COMM_NULL.
    pub comm: Option<usize>,
    /// Whom it names, as a rank in the communicator. Its status names the source so too (3.2.5).
    pub source: Source,
    /// The tag that it wants, at most 2,147,483,647; `None` is the wildcard.
    pub tag: Option<u32>,
}

/// Where a call goes that names a communicator (MPI 3.1, 6.2.4). A core knows no communicator: it looks at this alone,
/// and at no communicator and no rank that the call itself names.
#[derive(Clone, Copy)]
pub struct CallRoute {
    /// What the rank that the call names is in `world`: a rank of `world`, any rank, or the null process (3.11).
    pub named: Source,
    /// The context of the communicator; that of `world` is 0.
    pub context: u64,
}

/// A send with its route.
#[derive(Drop)]
pub struct RoutedSend {
    /// Where it goes.
    pub route: CallRoute,
    /// The send, as it was handed in.
    pub send: Send,
}

/// A receive with its route.
#[derive(Drop)]
pub struct RoutedReceive {
    /// Where it goes.
    pub route: CallRoute,
    /// The group of the communicator, by which its status names the source (MPI 3.1, 3.2.5); `None` is that of `world`.
    pub group: Option<Members>,
    /// The receive, as it was handed in.
    pub receive: Receive,
}

/// A probe with its route.
#[derive(Drop)]
pub struct RoutedProbe {
    /// Where it goes.
    pub route: CallRoute,
    /// The group of the communicator, by which its status names the source (MPI 3.1, 3.2.5); `None` is that of `world`.
    pub group: Option<Members>,
    /// The probe, as it was handed in.
    pub probe: Probe,
}

/// A receive with its route, and the message that it would take.
#[derive(Drop)]
pub struct SoughtReceive {
    /// The receive.
    pub routed: RoutedReceive,
    /// Where that message stands among those that came unexpected: it is looked for once.
    pub found: Option<usize>,
    /// The frame that answers it, where it was announced by another rank.
    pub answer: Option<Outgoing<'static>>,
}

/// A probe with its route, and the message that such a receive would take.
#[derive(Drop)]
pub struct SoughtProbe {
    /// The probe.
    pub routed: RoutedProbe,
    /// Where that message stands among those that came unexpected: it is looked for once.
    pub found: Option<usize>,
}

/// The receive of a message that a matching probe took out (MPI 3.1, 3.8.3).
#[derive(Drop)]
pub struct MessageReceive {
    /// The message; `None` is that of the null process.
    pub message: Option<Request>,
    /// Where the data go.
    pub into: Region,
    /// The frame that answers it, where it was announced by another rank.
    pub answer: Option<Outgoing<'static>>,
}

/// A refusal, with what was handed in.
#[derive(Drop)]
pub struct HandedBack<T> {
    /// Why it was refused.
    pub refused: Refusal,
    /// What was handed in, as it was.
    pub value: T,
}

impl Send {
    /// The same send once more. The only error is want of memory.
    pub fn try_clone(&self, alloc: Global) -> Result<Send, AllocError>
        ensures { IfOk result (λ copy. copy ≡ self.now) }
    {
        Ok(Send {
            mode: self.mode,
            comm: self.comm,
            target: self.target,
            tag: self.tag,
            from: self.from.try_clone(alloc)?,
        })
    }
}

impl Receive {
    /// The same receive once more. The only error is want of memory.
    pub fn try_clone(&self, alloc: Global) -> Result<Receive, AllocError>
        ensures { IfOk result (λ copy. copy ≡ self.now) }
    {
        Ok(Receive {
            comm: self.comm,
            source: self.source,
            tag: self.tag,
            into: self.into.try_clone(alloc)?,
        })
    }
}
