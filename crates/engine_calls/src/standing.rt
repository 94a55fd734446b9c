//! Whether calls and replies stand alike.

use crate::call::Call;
use crate::reply::{Completion, Fact, Reply};
use alike::Alike;

/// Sends, receives and probes, which block no call, stand alike with none.
impl Alike for Call {
    fn stands_as(&self, other: &Self) -> bool {
        match (self, other) {
            (Call::Wait(request), Call::Wait(other_request)) => request == other_request,
            (Call::Test(request), Call::Test(other_request)) => request == other_request,
            (Call::Waitany(list), Call::Waitany(other_list)) => list.stands_as(other_list),
            (Call::Waitall(list), Call::Waitall(other_list)) => list.stands_as(other_list),
            (Call::Cancel(request), Call::Cancel(other_request)) => request == other_request,
            (Call::Enter(comm, entry), Call::Enter(other_comm, other_entry)) => {
                comm == other_comm && entry.stands_as(other_entry)
            }
            (Call::Ask(comm, question), Call::Ask(other_comm, other_question)) => {
                comm == other_comm && question == other_question
            }
            (Call::Mrecv(message, into), Call::Mrecv(other_message, other_into)) => {
                message == other_message && into.stands_as(other_into)
            }
            _ => false,
        }
    }
}

/// Ranks stand alike with none: contracts see where they lie in memory.
impl Alike for Fact {
    fn stands_as(&self, other: &Self) -> bool {
        match (self, other) {
            (Fact::Number(number), Fact::Number(other_number)) => number == other_number,
            (Fact::Compares(comparison), Fact::Compares(other_comparison)) => {
                comparison == other_comparison
            }
            _ => false,
        }
    }
}

impl Alike for Reply {
    fn stands_as(&self, other: &Self) -> bool {
        match (self, other) {
            (Reply::Started(request), Reply::Started(other_request)) => request == other_request,
            (Reply::Done(answer), Reply::Done(other_answer)) => answer.stands_as(other_answer),
            (Reply::Pending, Reply::Pending) => true,
            (Reply::Accepted, Reply::Accepted) => true,
            (Reply::Blocked, Reply::Blocked) => true,
            (Reply::Left(ending), Reply::Left(other_ending)) => ending.stands_as(other_ending),
            (Reply::Fact(fact), Reply::Fact(other_fact)) => fact.stands_as(other_fact),
            (Reply::Probed(found), Reply::Probed(other_found)) => found == other_found,
            (Reply::Matched(found), Reply::Matched(other_found)) => found == other_found,
            (Reply::Refused(refused, call), Reply::Refused(other_refused, other_call)) => {
                refused == other_refused && call.stands_as(other_call)
            }
            _ => false,
        }
    }
}
