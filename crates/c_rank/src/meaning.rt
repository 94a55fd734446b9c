//! What the numbers of a call mean.

ghost use Rattle.std.specs.Prelude.{◌≡◌, Some};
ghost use Rattle.c_rank.specs.Kinds.{has_elements, kind_at};
ghost use Rattle.c_rank.specs.Meanings.{IsMeant, IsMeantBy, allreduce_meant, as_block, asking, block_handed, block_told};
ghost use Rattle.c_rank.specs.Meanings.{broadcast_meant, choice_at, communicator_at, elements_handed, entering};
ghost use Rattle.c_rank.specs.Meanings.{gather_meant, meaning, meaning_by, message_meant, peer_at, probe_at};
ghost use Rattle.c_rank.specs.Meanings.{receive_meant, receive_of, reduce_meant, reduction, reduction_to_all, request_at};
ghost use Rattle.c_rank.specs.Meanings.{request_named, room_asked, rooted_told, scatter_meant, scattered, send_meant, send_of};
ghost use Rattle.c_rank.specs.Meanings.{tag_at};
ghost use Rattle.vocabulary.specs.BasicTypes.{type_at};
ghost use Rattle.vocabulary.specs.Operations.{operation_at};

use crate::call_kind::CallKind;
use crate::elements::{elements_in, zero_elements};
use crate::records::{CallRecord, RequestRecord};
use datatypes::Buffer;
use engine::{
    Block, Call, Choice, Elements, Entry, Mode, Operation, Probe, Question, Receive, Region,
    Request, Rooted, Send, Source,
};
use std::alloc::Global;
use vocabulary::BasicType;

/// The number that means none: MPI_COMM_NULL, the wildcards, MPI_UNDEFINED.
const NONE: u32 = u32::MAX;

/// The number of the null process.
const NULL_PROCESS: u32 = u32::MAX - 1;

/// The key of the null request, and of the message of the null process.
const NULL_KEY: u64 = u64::MAX;

/// The most elements of a block.
const MOST_ELEMENTS: u64 = 4_294_967_295;

/// The number of a call that there isn't.
const NO_SUCH_CALL: u8 = 83;

/// What a call means.
#[derive(Drop)]
pub enum Meant {
    /// A call of the engine, which finds no message.
    Call(Call),
    /// A probe.
    Probe(Probe),
    /// A look at a request.
    Look(Request),
    /// The answer of the call that was blocked.
    Finish,
}

fn communicator_of(number: u32) -> Option<usize>
    ensures { result ≡ communicator_at number }
{
    if number == NONE {
        return None;
    }
    Some(number as usize)
}

/// A rank above 65,535 is one that no job has, as 65,535 is.
fn source_of(number: u32) -> Source
    ensures { result ≡ peer_at number }
{
    if number == NONE {
        return Source::Any;
    }
    if number == NULL_PROCESS {
        return Source::Null;
    }
    Source::Rank(number.min(65_535) as u16)
}

fn tag_of(number: u32) -> Option<u32>
    ensures { result ≡ tag_at number }
{
    if number == NONE { None } else { Some(number) }
}

fn request_of(named: RequestRecord) -> Request
    ensures { result ≡ request_at named }
{
    Request {
        key: named.key as usize,
        serial: named.serial,
    }
}

pub(crate) fn request_named(named: RequestRecord) -> Option<Request>
    ensures { result ≡ request_named named }
{
    if named.key == NULL_KEY {
        return None;
    }
    Some(request_of(named))
}

fn probe_of(asked: &CallRecord) -> Probe
    ensures { result ≡ probe_at asked.now }
{
    Probe {
        comm: communicator_of(asked.communicator),
        source: source_of(asked.peer),
        tag: tag_of(asked.tag),
    }
}

fn choice_of(asked: &CallRecord) -> Choice
    ensures { result ≡ choice_at asked.now }
{
    Choice {
        colour: tag_of(asked.colour),
        key: asked.order,
    }
}

/// The basic type that a code names.
fn basic_of(code: u32) -> Option<BasicType>
    ensures { result ≡ type_at code }
{
    if code > 255 {
        return None;
    }
    BasicType::from_code(code as u8)
}

/// The operation that a code names.
fn operation_of(code: u32) -> Option<Operation>
    ensures { result ≡ operation_at code }
{
    if code > 255 {
        return None;
    }
    Operation::from_code(code as u8)
}

/// The elements that the data are: 2 where the code names no type, 1 where the last one isn't whole, 14.
pub(crate) fn elements_handed(alloc: Global, code: u32, bytes: &[u8]) -> Result<Buffer, u8>
    ensures { IsMeant (elements_handed code bytes.now) result }
{
    let Some(basic) = basic_of(code) else {
        return Err(2);
    };
    if bytes.len() % usize::from(basic.size()) != 0 {
        return Err(1);
    }
    match elements_in(alloc, basic, bytes) {
        Ok(buffer) => Ok(buffer),
        Err(_) => Err(14),
    }
}

/// Room for so many elements: 2 where the code names no type, 14.
pub(crate) fn room_asked(alloc: Global, code: u32, count: u64) -> Result<Buffer, u8>
    ensures { IsMeant (room_asked code count) result }
{
    let Some(basic) = basic_of(code) else {
        return Err(2);
    };
    match zero_elements(alloc, basic, count) {
        Ok(buffer) => Ok(buffer),
        Err(_) => Err(14),
    }
}

/// The elements as a block, which has fewer than 2^32 of them: 1 where they are more.
fn block_of(buffer: Buffer) -> Result<Block, u8>
    ensures { result ≡ as_block buffer }
{
    match Block::new(buffer) {
        Ok(block) => Ok(block),
        Err(_) => Err(1),
    }
}

/// The block that is handed in.
fn block_handed(alloc: Global, asked: &CallRecord, bytes: &[u8]) -> Result<Block, u8>
    ensures { IsMeant (block_handed asked.now bytes.now) result }
{
    match elements_handed(alloc, asked.basic, bytes) {
        Ok(buffer) => block_of(buffer),
        Err(number) => Err(number),
    }
}

/// The block of a broadcast: what is handed in at the root, and elsewhere as many elements.
fn block_told(alloc: Global, asked: &CallRecord, bytes: &[u8]) -> Result<Block, u8>
    ensures { IsMeant (block_told asked.now bytes.now) result }
{
    if asked.has_data != 0 {
        return block_handed(alloc, asked, bytes);
    }
    if asked.count > MOST_ELEMENTS {
        return Err(1);
    }
    match room_asked(alloc, asked.basic, asked.count) {
        Ok(buffer) => block_of(buffer),
        Err(number) => Err(number),
    }
}

/// The send of these elements.
pub(crate) fn send_of(mode: Mode, asked: &CallRecord, elements: Buffer) -> Call
    ensures { result ≡ send_of mode asked.now elements }
{
    Call::Isend(Send {
        mode,
        comm: communicator_of(asked.communicator),
        target: source_of(asked.peer),
        tag: tag_of(asked.tag),
        from: Region::whole(elements),
    })
}

/// A send.
fn send_meant(alloc: Global, mode: Mode, asked: &CallRecord, bytes: &[u8]) -> Result<Meant, u8>
    ensures { IsMeant (send_meant mode asked.now bytes.now) result }
{
    match elements_handed(alloc, asked.basic, bytes) {
        Ok(elements) => Ok(Meant::Call(send_of(mode, asked, elements))),
        Err(number) => Err(number),
    }
}

/// The receive that has this room.
pub(crate) fn receive_of(asked: &CallRecord, room: Buffer) -> Call
    ensures { result ≡ receive_of asked.now room }
{
    Call::Irecv(Receive {
        comm: communicator_of(asked.communicator),
        source: source_of(asked.peer),
        tag: tag_of(asked.tag),
        into: Region::whole(room),
    })
}

/// A receive.
fn receive_meant(alloc: Global, asked: &CallRecord) -> Result<Meant, u8>
    ensures { IsMeant (receive_meant asked.now) result }
{
    match room_asked(alloc, asked.basic, asked.count) {
        Ok(room) => Ok(Meant::Call(receive_of(asked, room))),
        Err(number) => Err(number),
    }
}

/// The receive of a message that was taken out.
fn message_meant(alloc: Global, asked: &CallRecord) -> Result<Meant, u8>
    ensures { IsMeant (message_meant asked.now) result }
{
    match room_asked(alloc, asked.basic, asked.count) {
        Ok(buffer) => Ok(Meant::Call(Call::Mrecv(
            request_named(asked.request),
            Region::whole(buffer),
        ))),
        Err(number) => Err(number),
    }
}

/// What a call means that enters a collective with this.
fn entering(asked: &CallRecord, entry: Entry) -> Meant
    ensures { result ≡ entering asked.now entry }
{
    Meant::Call(Call::Enter(communicator_of(asked.communicator), entry))
}

/// A broadcast.
fn broadcast_meant(alloc: Global, asked: &CallRecord, bytes: &[u8]) -> Result<Meant, u8>
    ensures { IsMeant (broadcast_meant asked.now bytes.now) result }
{
    match block_told(alloc, asked, bytes) {
        Ok(block) => Ok(entering(asked, Entry::Bcast(asked.peer, block))),
        Err(number) => Err(number),
    }
}

/// A gather.
fn gather_meant(alloc: Global, asked: &CallRecord, bytes: &[u8]) -> Result<Meant, u8>
    ensures { IsMeant (gather_meant asked.now bytes.now) result }
{
    match block_handed(alloc, asked, bytes) {
        Ok(block) => Ok(entering(asked, Entry::Gather(asked.peer, block))),
        Err(number) => Err(number),
    }
}

/// What a member's block is in a scatter: 2 where the code names no type, 1 for 2^32 elements or more.
fn rooted_of(asked: &CallRecord) -> Result<Rooted, u8>
    ensures { result ≡ rooted_told asked.now }
{
    let Some(basic) = basic_of(asked.basic) else {
        return Err(2);
    };
    if asked.count > MOST_ELEMENTS {
        return Err(1);
    }
    Ok(Rooted {
        elements: Elements {
            basic,
            count: asked.count as u32,
        },
        root: asked.peer,
    })
}

/// What a member hands in in a scatter.
fn scattered(alloc: Global, asked: &CallRecord, bytes: &[u8]) -> Result<Option<Buffer>, u8>
    ensures { IsMeant (scattered asked.now bytes.now) result }
{
    if asked.has_data == 0 {
        return Ok(None);
    }
    match elements_handed(alloc, asked.basic, bytes) {
        Ok(buffer) => Ok(Some(buffer)),
        Err(number) => Err(number),
    }
}

/// A scatter.
fn scatter_meant(alloc: Global, asked: &CallRecord, bytes: &[u8]) -> Result<Meant, u8>
    ensures { IsMeant (scatter_meant asked.now bytes.now) result }
{
    let rooted = match rooted_of(asked) {
        Ok(rooted) => rooted,
        Err(number) => return Err(number),
    };
    match scattered(alloc, asked, bytes) {
        Ok(all) => Ok(entering(asked, Entry::Scatter(rooted, all))),
        Err(number) => Err(number),
    }
}

/// The reduction of a block to a root.
fn reduction(asked: &CallRecord, block: Block) -> Result<Meant, u8>
    ensures { result ≡ reduction asked.now block }
{
    match operation_of(asked.operation) {
        Some(operation) => Ok(entering(asked, Entry::Reduce(operation, asked.peer, block))),
        None => Err(9),
    }
}

/// The reduction of a block to all.
fn reduction_to_all(asked: &CallRecord, block: Block) -> Result<Meant, u8>
    ensures { result ≡ reduction_to_all asked.now block }
{
    match operation_of(asked.operation) {
        Some(operation) => Ok(entering(asked, Entry::Allreduce(operation, block))),
        None => Err(9),
    }
}

/// A reduction to a root.
fn reduce_meant(alloc: Global, asked: &CallRecord, bytes: &[u8]) -> Result<Meant, u8>
    ensures { IsMeant (reduce_meant asked.now bytes.now) result }
{
    match block_handed(alloc, asked, bytes) {
        Ok(block) => reduction(asked, block),
        Err(number) => Err(number),
    }
}

/// A reduction to all.
fn allreduce_meant(alloc: Global, asked: &CallRecord, bytes: &[u8]) -> Result<Meant, u8>
    ensures { IsMeant (allreduce_meant asked.now bytes.now) result }
{
    match block_handed(alloc, asked, bytes) {
        Ok(block) => reduction_to_all(asked, block),
        Err(number) => Err(number),
    }
}

/// A question about the call's communicator.
fn asking(asked: &CallRecord, question: Question) -> Meant
    ensures { result ≡ asking asked.now question }
{
    Meant::Call(Call::Ask(communicator_of(asked.communicator), question))
}

/// What a call of this kind means.
#[tactic(auto, using(crate::proofs::MeaningSteps::meant_with))]
fn meaning_by(alloc: Global, kind: CallKind, asked: &CallRecord, bytes: &[u8]) -> Result<Meant, u8>
    ensures { IsMeantBy (has_elements (Some kind)) (meaning_by kind asked.now bytes.now) result }
{
    match kind {
        CallKind::Isend => send_meant(alloc, Mode::Standard, asked, bytes),
        CallKind::Issend => send_meant(alloc, Mode::Synchronous, asked, bytes),
        CallKind::Irecv => receive_meant(alloc, asked),
        CallKind::Test => Ok(Meant::Call(Call::Test(request_named(asked.request)))),
        CallKind::Look => Ok(Meant::Look(request_of(asked.request))),
        CallKind::Cancel => Ok(Meant::Call(Call::Cancel(request_named(asked.request)))),
        CallKind::Iprobe => Ok(Meant::Probe(probe_of(asked))),
        CallKind::Improbe => Ok(Meant::Call(Call::Improbe(probe_of(asked)))),
        CallKind::Mrecv => message_meant(alloc, asked),
        CallKind::Finish => Ok(Meant::Finish),
        CallKind::Barrier => Ok(entering(asked, Entry::Barrier)),
        CallKind::Bcast => broadcast_meant(alloc, asked, bytes),
        CallKind::Gather => gather_meant(alloc, asked, bytes),
        CallKind::Scatter => scatter_meant(alloc, asked, bytes),
        CallKind::Reduce => reduce_meant(alloc, asked, bytes),
        CallKind::Allreduce => allreduce_meant(alloc, asked, bytes),
        CallKind::Dup => Ok(entering(asked, Entry::Dup)),
        CallKind::Split => Ok(entering(asked, Entry::Split(choice_of(asked)))),
        CallKind::Rank => Ok(asking(asked, Question::Rank)),
        CallKind::Size => Ok(asking(asked, Question::Size)),
        CallKind::Members => Ok(asking(asked, Question::Group)),
        CallKind::Compare => Ok(asking(asked, Question::Compare(communicator_of(asked.other)))),
    }
}

/// What the numbers of a call mean, and its data. They mean none where there is no such call (83), no such basic type
/// (2), the last element isn't whole or a block has 2^32 elements or more (1), or there is no such operation (9): the
/// first of these is told. The only other error is want of memory (14), for elements alone.
pub fn meaning_of(alloc: Global, asked: &CallRecord, bytes: &[u8]) -> Result<Meant, u8>
    ensures { IsMeantBy (has_elements (kind_at asked.now.kind)) (meaning asked.now bytes.now) result }
{
    match CallKind::from_number(asked.kind) {
        Some(kind) => meaning_by(alloc, kind, asked, bytes),
        None => Err(NO_SUCH_CALL),
    }
}
