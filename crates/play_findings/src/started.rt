//! What a call of a rank starts.

ghost use Rattle.std.specs.Prelude.{◌≡◌, ◌==◌};
ghost use Rattle.play_findings.specs.Started.{ended_by, finished_by, is_left, taken_by};

use engine::{Call, Outcome, Reply, Request, Send};
use play_waits::Communicators;
use vocabulary::{Source, Status};

/// What a rank started.
#[derive(Clone, Copy, Debug, PartialEq, Eq)]
pub enum OperationKind {
    /// A send to this rank of `world`, none of which is the null process, with this tag.
    Send(Option<u16>, Option<u32>),
    /// A receive.
    Receive,
    /// A message that a matching probe took out.
    TakenOut,
}

/// How far an operation has come.
#[derive(Clone, Copy, Debug, PartialEq, Eq)]
pub enum Standing {
    /// Its rank was told how it ended.
    Ended,
    /// It is finished, and nobody asked for that.
    Finished,
    /// It isn't finished, or it isn't known whether it is.
    Open,
}

/// A send, a receive, or a message that was taken out.
#[derive(Clone, Copy, Debug)]
pub struct Operation {
    /// The line of the script.
    pub line: usize,
    /// The request, which stands for a message that was taken out, too.
    pub request: Request,
    /// The communicator, by its place among all.
    pub group: usize,
    /// What it is.
    pub kind: OperationKind,
    /// The message that it took, as far as that is known.
    pub took: Option<Status>,
    /// How far it has come.
    pub standing: Standing,
}

/// The status of the message that an operation took which ended so.
pub(crate) fn taken_by(outcome: &Outcome) -> Option<Status>
    ensures { result ≡ taken_by outcome.now }
{
    match outcome {
        Outcome::Received(status, _) | Outcome::Ended(_, status, _) => Some(*status),
        _ => None,
    }
}

/// Where a send goes.
fn target_of(communicators: &Communicators, rank: u16, sent: &Send) -> Option<u16> {
    match sent.target {
        Source::Rank(member) => communicators.held_by(rank, sent.comm?)?.world_rank(member),
        _ => None,
    }
}

impl Operation {
    /// What a call of this rank at this line started.
    pub(crate) fn of(
        communicators: &Communicators,
        rank: u16,
        line: usize,
        call: &Call,
        reply: &Reply,
    ) -> Option<Operation> {
        let (request, comm, kind, took) = match (call, reply) {
            (Call::Isend(sent), Reply::Started(request)) => {
                let kind = OperationKind::Send(target_of(communicators, rank, sent), sent.tag);
                (*request, sent.comm, kind, None)
            }
            (Call::Irecv(asked), Reply::Started(request)) => {
                (*request, asked.comm, OperationKind::Receive, None)
            }
            (Call::Improbe(asked), Reply::Matched(Some((Some(message), status)))) => {
                (*message, asked.comm, OperationKind::TakenOut, Some(*status))
            }
            _ => return None,
        };
        Some(Operation {
            line,
            request,
            group: communicators.group_at(rank, comm?)?,
            kind,
            took,
            standing: Standing::Open,
        })
    }

    /// Whether this request stands for it.
    pub(crate) fn is_of(&self, request: Request) -> bool
        ensures { result ≡ (self.now.request.serial == request.serial) }
    {
        self.request.serial == request.serial
    }

    /// The same, once its rank was told that it ended so.
    pub(crate) fn ended_by(self, outcome: &Outcome) -> Operation
        ensures { result ≡ ended_by self outcome.now }
    {
        let took = match taken_by(outcome) {
            Some(status) => Some(status),
            None => self.took,
        };
        Operation {
            standing: Standing::Ended,
            took,
            ..self
        }
    }

    /// The same, once it is finished so, and its rank hasn't asked for that.
    pub(crate) fn finished_by(self, outcome: &Outcome) -> Operation
        ensures { result ≡ finished_by self outcome.now }
    {
        Operation {
            standing: Standing::Finished,
            took: taken_by(outcome),
            ..self
        }
    }

    /// Whether its rank was never told how it ended.
    pub(crate) fn is_left(&self) -> bool
        ensures { result ≡ is_left self.now.standing }
    {
        match self.standing {
            Standing::Ended => false,
            Standing::Finished | Standing::Open => true,
        }
    }

    /// Whether it took a message on this communicator from this member with this tag.
    pub(crate) fn took_of(&self, group: usize, source: Source, tag: Option<u32>) -> bool {
        match self.took {
            Some(status) => self.group == group && status.source == source && status.tag == tag,
            None => false,
        }
    }

    /// Whether it sends to this rank of `world` on this communicator with this tag.
    pub(crate) fn sends(&self, group: usize, target: u16, tag: Option<u32>) -> bool {
        self.group == group && self.kind == OperationKind::Send(Some(target), tag)
    }
}
