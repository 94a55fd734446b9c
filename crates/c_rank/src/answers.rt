//! What a rank's replies are in numbers.

ghost use Rattle.std.specs.Prelude.{◌≡◌, IfOk, OnErr};
ghost use Rattle.c_rank.specs.Answers.{BringsRanks, IsTold, TellsRanks};
ghost use Rattle.c_rank.specs.Answers.{answer_of_kind, code_told, communicator_number, comparison_number, done};
ghost use Rattle.c_rank.specs.Answers.{fact_answer, found, left, message_told, peer_number, plain, rank_elements};
ghost use Rattle.c_rank.specs.Answers.{refusal, request_told, started_answer, tag_number, told_by, told_by_answer, told_by_completion};
ghost use Rattle.c_rank.specs.Answers.{told_by_ending, told_by_fact, told_by_outcome, told_by_ranks, with_data};
ghost use Rattle.c_rank.specs.Answers.{with_status};

use crate::rank::ReceivedData;
use crate::records::{AnswerRecord, RequestRecord};
use datatypes::Buffer;
use engine::{
    Answer, CommunicatorComparison, Completion, Ending, Fact, Outcome, Reply, Request, Source,
    Status,
};
use std::alloc::{AllocError, Global};
use vocabulary::BasicType;

/// The number of any rank and of the wildcard; of MPI_COMM_NULL.
const NONE: u32 = u32::MAX;

/// The number of the null process.
const NULL_PROCESS: u32 = u32::MAX - 1;

// The kinds of answers.
const REFUSED: u32 = 0;

const STARTED: u32 = 1;

const DONE: u32 = 2;

const PENDING: u32 = 3;

const ACCEPTED: u32 = 4;

const BLOCKED: u32 = 5;

const LEFT: u32 = 6;

const FACT: u32 = 7;

const PROBED: u32 = 8;

const MATCHED: u32 = 9;

const NOTHING: u32 = 10;

// How operations end.
const SENT: u32 = 1;

const RECEIVED: u32 = 2;

const FAILED: u32 = 3;

const REPLACED: u32 = 4;

const CANCELLED: u32 = 5;

const EMPTY: u32 = 6;

/// What is told of a reply.
#[derive(Drop)]
pub struct Told {
    /// The answer in numbers.
    pub answer: AnswerRecord,
    /// The data, where it brings any.
    pub received: Option<ReceivedData>,
}

/// An answer of a kind, of which nothing more is told.
pub(crate) fn answer_of_kind(kind: u32) -> AnswerRecord
    ensures { result ≡ answer_of_kind kind }
{
    AnswerRecord {
        kind,
        number: 0,
        outcome: 0,
        basic: 0,
        request: RequestRecord { key: 0, serial: 0 },
        source: 0,
        tag: 0,
        count: 0,
        bytes: 0,
        fact: 0,
        communicator: 0,
    }
}

/// The answer to a call that is refused with this number.
pub fn refusal(number: u8) -> AnswerRecord
    ensures { result ≡ refusal number }
{
    AnswerRecord {
        number: u32::from(number),
        ..answer_of_kind(REFUSED)
    }
}

/// The answer to a question.
pub(crate) fn fact_answer(fact: u64) -> AnswerRecord
    ensures { result ≡ fact_answer fact }
{
    AnswerRecord {
        fact,
        ..answer_of_kind(FACT)
    }
}

fn peer_number(source: Source) -> u32
    ensures { result ≡ peer_number source }
{
    match source {
        Source::Any => NONE,
        Source::Null => NULL_PROCESS,
        Source::Rank(rank) => u32::from(rank),
    }
}

fn tag_number(tag: Option<u32>) -> u32
    ensures { result ≡ tag_number tag }
{
    match tag {
        Some(tag) => tag,
        None => NONE,
    }
}

/// Places of communicators are below 4,096.
fn communicator_number(place: Option<usize>) -> u32
    ensures { result ≡ communicator_number place }
{
    match place {
        Some(place) => place.min(NONE as usize) as u32,
        None => NONE,
    }
}

fn request_told(request: Request) -> RequestRecord
    ensures { result ≡ request_told request }
{
    RequestRecord {
        key: request.key as u64,
        serial: request.serial,
    }
}

/// The message of the null process has no request.
fn message_told(message: Option<Request>) -> RequestRecord
    ensures { result ≡ message_told message }
{
    match message {
        Some(message) => request_told(message),
        None => RequestRecord {
            key: u64::MAX,
            serial: u64::MAX,
        },
    }
}

/// The code of a type; 0 where it isn't known.
fn code_told(basic: Option<BasicType>) -> u32
    ensures { result ≡ code_told basic }
{
    match basic {
        Some(basic) => u32::from(basic.code()),
        None => 0,
    }
}

/// The answer with what is known of a message.
fn with_status(answer: AnswerRecord, status: Status) -> AnswerRecord
    ensures { result ≡ with_status answer status }
{
    AnswerRecord {
        source: peer_number(status.source),
        tag: tag_number(status.tag),
        count: status.count,
        ..answer
    }
}

/// An operation ended so.
fn done(outcome: u32, number: u8) -> AnswerRecord
    ensures { result ≡ done outcome number }
{
    AnswerRecord {
        outcome,
        number: u32::from(number),
        ..answer_of_kind(DONE)
    }
}

/// What is told where no data come.
fn plain(answer: AnswerRecord) -> Told
    ensures { result ≡ plain answer }
{
    Told {
        answer,
        received: None,
    }
}

/// What is told where the first elements of a buffer come.
fn with_data(answer: AnswerRecord, buffer: Buffer, count: u64) -> Told
    ensures { result ≡ with_data answer buffer count }
{
    let basic = buffer.basic();
    Told {
        answer: AnswerRecord {
            basic: u32::from(basic.code()),
            count,
            bytes: count.saturating_mul(u64::from(basic.size())),
            ..answer
        },
        received: Some(ReceivedData {
            buffer: buffer.into_front(count as usize),
            count,
        }),
    }
}

/// What is told of how an operation ended.
fn told_by_outcome(outcome: Outcome) -> Told
    ensures { result ≡ told_by_outcome outcome }
{
    match outcome {
        Outcome::Sent => plain(done(SENT, 0)),
        Outcome::Received(status, buffer) => {
            with_data(with_status(done(RECEIVED, 0), status), buffer, status.count)
        }
        Outcome::Ended(failure, status, buffer) => {
            drop(buffer);
            plain(with_status(done(FAILED, failure.number()), status))
        }
        Outcome::Replaced(buffer) => {
            drop(buffer);
            plain(done(REPLACED, 11))
        }
        Outcome::Cancelled(buffer) => {
            drop(buffer);
            plain(done(CANCELLED, 0))
        }
        Outcome::Empty => plain(done(EMPTY, 0)),
    }
}

/// What is told of what a completing call answers. C's calls complete one request.
pub(crate) fn told_by_answer(answer: Answer) -> Told
    ensures { result ≡ told_by_answer answer }
{
    match answer {
        Answer::One(outcome) | Answer::Index(_, outcome) => told_by_outcome(outcome),
        Answer::IndexUndefined => plain(done(EMPTY, 0)),
        Answer::All(outcomes) => {
            drop(outcomes);
            plain(done(EMPTY, 0))
        }
    }
}

/// A collective ended with this number.
fn left(number: u8) -> AnswerRecord
    ensures { result ≡ left number }
{
    AnswerRecord {
        number: u32::from(number),
        ..answer_of_kind(LEFT)
    }
}

/// What is told of how a collective ended.
fn told_by_ending(ending: Ending) -> Told
    ensures { result ≡ told_by_ending ending }
{
    match ending {
        Ending::Left(Some(buffer)) => {
            let count = buffer.len() as u64;
            with_data(left(0), buffer, count)
        }
        Ending::Left(None) => plain(left(0)),
        Ending::Comm(place) => plain(AnswerRecord {
            communicator: communicator_number(place),
            ..left(0)
        }),
        Ending::Replaced => plain(left(11)),
        Ending::Mismatch => plain(left(12)),
    }
}

fn comparison_number(comparison: CommunicatorComparison) -> u64
    ensures { result ≡ comparison_number comparison }
{
    match comparison {
        CommunicatorComparison::Ident => 0,
        CommunicatorComparison::Congruent => 1,
        CommunicatorComparison::Similar => 2,
        CommunicatorComparison::Unequal => 3,
    }
}

/// The ranks as elements of the type Uint16. The only error is want of memory.
fn rank_elements(alloc: Global, ranks: &[u16]) -> Result<Buffer, AllocError>
    ensures { IfOk result (λ buffer. buffer ≡ rank_elements ranks.now) }
{
    let mut buffer = Buffer::new(alloc, BasicType::Uint16);
    for rank in ranks {
        buffer.push_number(u64::from(*rank))?;
    }
    Ok(buffer)
}

/// What is told of the members of a communicator: how many, and the ranks as data.
fn told_by_ranks(alloc: Global, ranks: Vec<u16>) -> Result<Told, u8>
    ensures { IsTold (told_by_ranks ranks.items) result }
{
    let count = ranks.len() as u64;
    match rank_elements(alloc, ranks.as_slice()) {
        Ok(buffer) => Ok(with_data(fact_answer(count), buffer, count)),
        Err(_) => Err(14),
    }
}

/// What is told of the answer to a question. The only error is want of memory (14).
fn told_by_fact(alloc: Global, fact: Fact) -> Result<Told, u8>
    ensures told { IsTold (told_by_fact fact) result }
    ensures ranks { OnErr result (BringsRanks fact) }
{
    match fact {
        Fact::Number(number) => Ok(plain(fact_answer(number as u64))),
        Fact::Ranks(ranks) => told_by_ranks(alloc, ranks),
        Fact::Compares(comparison) => Ok(plain(fact_answer(comparison_number(comparison)))),
    }
}

/// What is told of a message that a probe found.
fn found(kind: u32, status: Status, basic: Option<BasicType>) -> AnswerRecord
    ensures { result ≡ found kind status basic }
{
    AnswerRecord {
        basic: code_told(basic),
        ..with_status(answer_of_kind(kind), status)
    }
}

/// A request was started.
pub(crate) fn started_answer(request: Request) -> AnswerRecord
    ensures { result ≡ started_answer request }
{
    AnswerRecord {
        request: request_told(request),
        ..answer_of_kind(STARTED)
    }
}

/// What is told of a reply; of a message that a probe found, this is the basic type. The only error is want of memory,
/// where members are to be told (14).
pub fn reply_told(alloc: Global, reply: Reply, basic: Option<BasicType>) -> Result<Told, u8>
    ensures told { IsTold (told_by reply basic) result }
    ensures ranks { OnErr result (TellsRanks reply) }
{
    match reply {
        Reply::Started(request) => Ok(plain(started_answer(request))),
        Reply::Done(answer) => Ok(told_by_answer(answer)),
        Reply::Pending => Ok(plain(answer_of_kind(PENDING))),
        Reply::Accepted => Ok(plain(answer_of_kind(ACCEPTED))),
        Reply::Blocked => Ok(plain(answer_of_kind(BLOCKED))),
        Reply::Left(ending) => Ok(told_by_ending(ending)),
        Reply::Fact(fact) => told_by_fact(alloc, fact),
        Reply::Probed(Some(status)) => Ok(plain(found(PROBED, status, basic))),
        Reply::Matched(Some((message, status))) => Ok(plain(AnswerRecord {
            request: message_told(message),
            ..found(MATCHED, status, basic)
        })),
        Reply::Probed(None) | Reply::Matched(None) => Ok(plain(answer_of_kind(NOTHING))),
        Reply::Refused(refused, call) => {
            drop(call);
            Ok(plain(refusal(refused.number())))
        }
    }
}

/// What is told of the answer of a call that was blocked.
pub fn told_by_completion(completion: Completion) -> Told
    ensures { result ≡ told_by_completion completion }
{
    match completion {
        Completion::Requests(answer) => told_by_answer(answer),
        Completion::Collective(ending) => told_by_ending(ending),
    }
}
