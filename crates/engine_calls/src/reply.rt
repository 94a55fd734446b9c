//! What calls answer.

use crate::call::Call;
use collectives::Ending;
use communicators::CommunicatorComparison;
use point_to_point::Refusal;
use requests::{Answer, Request};
use vocabulary::Status;

/// The answer to a question about a communicator (MPI 3.1, 6.4.1).
#[derive(Drop)]
pub enum Fact {
    /// A rank, or a number of members. A rank that is no member has the number of members (our own).
    Number(usize),
    /// The ranks of `world` of the members, in order.
    Ranks(Vec<u16>),
    /// How the two communicators compare.
    Compares(CommunicatorComparison),
}

/// What a call answers.
#[derive(Drop)]
pub enum Reply {
    /// The operation is started under this request.
    Started(Request),
    /// What was asked for is finished, and ended so.
    Done(Answer),
    /// The request of a test is unfinished.
    Pending,
    /// The cancel was taken.
    Accepted,
    /// The answer is not ready. It is handed out once, as the completion of the event in which it is.
    Blocked,
    /// The collective that was entered has ended at once, so.
    Left(Ending),
    /// What was asked about a communicator.
    Fact(Fact),
    /// What a probe found: the status of the message (MPI 3.1, 3.8.1).
    Probed(Option<Status>),
    /// What a matching probe found: the message, or that of the null process, which is `None`, with its status (3.8.2).
    Matched(Option<(Option<Request>, Status)>),
    /// The call broke this rule, or met a limit or want of memory. It is handed back, and nothing changed.
    Refused(Refusal, Call),
}

/// The answer of a call that was blocked.
#[derive(Drop)]
pub enum Completion {
    /// Of requests.
    Requests(Answer),
    /// Of a collective: with what it ended.
    Collective(Ending),
}
