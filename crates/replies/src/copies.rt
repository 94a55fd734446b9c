//! Copies of replies. The only error is want of memory.

ghost use Rattle.std.specs.Prelude.{◌≡◌, IfOk};
ghost use Rattle.replies.specs.Copies.{IsCopyOf, IsCopyOfFact, reply_of};

use collective_steps::Ending;
use datatypes::Buffer;
use engine_calls::{Completion, Fact, Reply};
use std::alloc::{AllocError, Global};

/// The answer of a blocked call, as the reply to it.
pub fn reply_of(completion: Completion) -> Reply
    ensures { result ≡ reply_of completion }
{
    match completion {
        Completion::Requests(answer) => Reply::Done(answer),
        Completion::Collective(ending) => Reply::Left(ending),
    }
}

fn buffer_copied(alloc: Global, buffer: &Option<Buffer>) -> Result<Option<Buffer>, AllocError>
    ensures { IfOk result (λ copy. copy ≡ buffer.now) }
{
    match buffer {
        Some(buffer) => Ok(Some(buffer.try_clone(alloc)?)),
        None => Ok(None),
    }
}

fn ending_copied(alloc: Global, ending: &Ending) -> Result<Ending, AllocError>
    ensures { IfOk result (λ copy. copy ≡ ending.now) }
{
    match ending {
        Ending::Left(buffer) => Ok(Ending::Left(buffer_copied(alloc, buffer)?)),
        Ending::Comm(place) => Ok(Ending::Comm(*place)),
        Ending::Replaced => Ok(Ending::Replaced),
        Ending::Mismatch => Ok(Ending::Mismatch),
    }
}

fn fact_copied(alloc: Global, fact: &Fact) -> Result<Fact, AllocError>
    ensures { IfOk result (λ copy. IsCopyOfFact fact.now copy) }
{
    match fact {
        Fact::Number(number) => Ok(Fact::Number(*number)),
        Fact::Ranks(ranks) => Ok(Fact::Ranks(Vec::from_slice(alloc, ranks.as_slice())?)),
        Fact::Compares(comparison) => Ok(Fact::Compares(*comparison)),
    }
}

/// The same reply once more.
pub fn reply_copied(alloc: Global, reply: &Reply) -> Result<Reply, AllocError>
    ensures { IfOk result (λ copy. IsCopyOf reply.now copy) }
{
    match reply {
        Reply::Started(request) => Ok(Reply::Started(*request)),
        Reply::Done(answer) => Ok(Reply::Done(answer.try_clone(alloc)?)),
        Reply::Pending => Ok(Reply::Pending),
        Reply::Accepted => Ok(Reply::Accepted),
        Reply::Blocked => Ok(Reply::Blocked),
        Reply::Left(ending) => Ok(Reply::Left(ending_copied(alloc, ending)?)),
        Reply::Fact(fact) => Ok(Reply::Fact(fact_copied(alloc, fact)?)),
        Reply::Probed(status) => Ok(Reply::Probed(*status)),
        Reply::Matched(found) => Ok(Reply::Matched(*found)),
        Reply::Refused(refused, call) => Ok(Reply::Refused(*refused, call.try_clone(alloc)?)),
    }
}

/// The answer of a blocked call once more, as the reply to it.
pub fn completion_as_reply(alloc: Global, completion: &Completion) -> Result<Reply, AllocError>
    ensures { IfOk result (λ copy. copy ≡ reply_of completion.now) }
{
    match completion {
        Completion::Requests(answer) => Ok(Reply::Done(answer.try_clone(alloc)?)),
        Completion::Collective(ending) => Ok(Reply::Left(ending_copied(alloc, ending)?)),
    }
}
