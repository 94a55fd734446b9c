//! The ranks of a job.

ghost use Rattle.std.specs.Prelude.{◌≡◌, ◌⊎◌, [], IfErr, IfOk, IsFalse, IsTrue, List, OnOk};
ghost use Rattle.c_rank.specs.AnswerCopies.{TakesOf};
ghost use Rattle.c_rank.specs.Answers.{answer_of_kind};
ghost use Rattle.c_rank.specs.Calls.{look_told};
ghost use Rattle.c_rank.specs.Meanings.{meaning};
ghost use Rattle.world.specs.RunningSteps.{HasComeBy, opening_running};
ghost use Rattle.world.specs.declared.answered.Came.{Came};
ghost use Rattle.link_truth.specs.Quiet.{AreQuiet};
ghost use Rattle.observation.specs.Sessions.{sessions_in};
ghost use Rattle.engine_calls.specs.declared.call.Call.TheVariants as calls;
ghost use Rattle.joined_ranks.specs.Goings.{GoesOnAlone, IsCallOf, IsStepOf, LeavesAs, ended_or, finished_in, number_told};
ghost use Rattle.joined_ranks.specs.Goings.{type_out_in, type_probed_in};
ghost use Rattle.joined_ranks.specs.Kept.{AreNew, ComeInTurn, DeliversNext, Finishes, TellsReply, received_in};

use crate::part::{RankPart, keep_came, keep_data, new_parts, take_data, take_ended};
use c_rank::{
    AnswerRecord, CallRecord, Meant, RequestRecord, Told, meaning_of, refusal, reply_told,
};
use engine::{Call, Probe, Reply, Request};
use replies::reply_of;
use std::alloc::Global;
use std::marker::Model;
use vocabulary::{BasicType, MessageLimit};
use world::{Answered, RunningWorld, WorldRefusal};

/// The kinds of answers that no reply of an engine brings.
const PENDING: u32 = 3;

const FACT: u32 = 7;

/// The number of want of memory.
const OUT_OF_MEMORY: u8 = 14;

/// The number of a rank that isn't there.
const NO_SUCH_RANK: u8 = 5;

/// The number of a look at a request that there isn't.
const NO_SUCH_REQUEST: u8 = 6;

/// All ranks of a job, in one world, of which nothing past is kept. Contracts see the world, and what is kept of each
/// rank beside its engine.
#[derive(Drop)]
pub struct JoinedRanks {
    alloc: Global,
    world: RunningWorld,
    parts: Vec<RankPart>,
}

impl Model for JoinedRanks {
    ghost use Rattle.joined_ranks.specs.Kept.{JoinedState};

    ghost Value = { JoinedState };

    ghost view = { λ r. record { world = r.world; parts = r.parts.items } };
}

/// The number of a refusal of the world.
fn number_of(refused: WorldRefusal) -> u8
    ensures { result ≡ number_told refused }
{
    match refused {
        WorldRefusal::Engine(refused) => refused.number(),
        _ => NO_SUCH_RANK,
    }
}

/// What a call was answered at once, or what ended it at once.
fn reply_in(answered: Answered) -> Reply
    ensures { result ≡ ended_or answered.completion answered.reply }
{
    let Answered { reply, completion } = answered;
    match (completion, reply) {
        (Some(completion), _) => reply_of(completion),
        (None, Some(reply)) => reply,
        (None, None) => Reply::Pending,
    }
}

/// The oldest datagram that is on its way comes. Answers whether there was one, or why it couldn't come.
fn deliver_next(world: &mut RunningWorld, parts: &mut Vec<RankPart>) -> Result<bool, u8>
    ensures alone { GoesOnAlone world.old world.new }
    ensures comes { DeliversNext (record { world = world.old; parts = parts.old.items }) result
        (record { world = world.new; parts = parts.new.items }) }
    ensures all { IfOk result (λ comes. IsFalse comes → world.new.waiting ≡ []) }
    ensures refused { IfErr result (λ number. (number ≡ 14) ⊎ (number ≡ 5)) }
{
    match world.deliver_next() {
        Ok(None) => Ok(false),
        Ok(Some(came)) => {
            keep_came(parts, came);
            Ok(true)
        }
        Err(refused) => Err(number_of(refused)),
    }
}

/// All that was sent comes, and what is sent for it, until nothing more is.
#[tactic(auto, using(crate::proofs::Alone::stays_alone))]
fn deliver_all(world: &mut RunningWorld, parts: &mut Vec<RankPart>) -> Result<(), u8>
    ensures alone { GoesOnAlone world.old world.new }
    ensures comes { (came : List Came) × ComeInTurn came (record { world = world.old; parts = parts.old.items })
        (record { world = world.new; parts = parts.new.items }) }
    ensures all { OnOk result (world.new.waiting ≡ []) }
    ensures refused { IfErr result (λ number. (number ≡ 14) ⊎ (number ≡ 5)) }
{
    for _ in 0..u64::MAX {
        if !deliver_next(world, parts)? {
            return Ok(());
        }
    }
    // So many don't come while a machine stands.
    Err(OUT_OF_MEMORY)
}

/// The basic type of the message that a matching probe took out, if it did.
fn type_taken_out(world: &RunningWorld, rank: u16, reply: &Reply) -> Option<BasicType>
    ensures { result ≡ type_out_in world.now rank reply.now }
{
    let engine = world.engine(rank)?;
    match reply {
        Reply::Matched(Some((Some(message), _))) => engine.type_of_message(*message),
        _ => None,
    }
}

/// The basic type of the message that such a probe finds, if it finds one.
fn type_probed(world: &RunningWorld, rank: u16, probe: Probe) -> Option<BasicType>
    ensures { result ≡ type_probed_in world.now rank probe }
{
    world.engine(rank)?.type_of_probed(probe)
}

/// Whether a request of a rank is finished, where it is there.
fn is_finished(world: &RunningWorld, rank: u16, request: Request) -> Option<bool>
    ensures { result ≡ finished_in world.now rank request }
{
    world.engine(rank)?.is_finished(request)
}

/// An answer of a kind, of which nothing more is told.
fn answer_of_kind(kind: u32) -> AnswerRecord
    ensures { result ≡ answer_of_kind kind }
{
    AnswerRecord {
        kind,
        number: 0,
        outcome: 0,
        basic: 0,
        request: RequestRecord { key: 0, serial: 0 },
        source: 0,
        tag: 0,
        count: 0,
        bytes: 0,
        fact: 0,
        communicator: 0,
    }
}

/// Whether a request of a rank is finished (1) or not (0).
fn look(world: &RunningWorld, rank: u16, request: Request) -> AnswerRecord
    ensures { result ≡ look_told (finished_in world.now rank request) }
{
    match is_finished(world, rank, request) {
        Some(finished) => AnswerRecord {
            fact: u64::from(finished),
            ..answer_of_kind(FACT)
        },
        None => refusal(NO_SUCH_REQUEST),
    }
}

/// What is told of a reply, whose data take the place of what was there.
fn tell(
    alloc: Global,
    parts: &mut Vec<RankPart>,
    rank: u16,
    reply: Reply,
    basic: Option<BasicType>,
) -> AnswerRecord
    ensures { TellsReply rank reply basic parts.old.items result parts.new.items }
{
    match reply_told(alloc, reply, basic) {
        Ok(told) => {
            let Told { answer, received } = told;
            if let Some(received) = received {
                keep_data(parts, rank, received);
            }
            answer
        }
        Err(number) => refusal(number),
    }
}

impl JoinedRanks {
    /// So many ranks, at their start. Refused with 13 where there is no world of so many, and with 14. The run of the
    /// machine that they have come by is that of no event.
    pub fn new(alloc: Global, size: u16, limit: MessageLimit) -> Result<JoinedRanks, u8>
        ensures opening { IfOk result (λ ranks. ranks.world ≡ opening_running limit size) }
        ensures run { IfOk result (λ ranks. HasComeBy ranks.world []) }
        ensures parts { IfOk result (λ ranks. AreNew size ranks.parts) }
        ensures refused { IfErr result (λ number. (number ≡ 13) ⊎ (number ≡ 14)) }
    {
        let world = match RunningWorld::with_limit(alloc, size, limit) {
            Ok(world) => world,
            Err(refused) => return Err(number_of(refused)),
        };
        match new_parts(alloc, size) {
            Some(parts) => Ok(JoinedRanks {
                alloc,
                world,
                parts,
            }),
            None => {
                drop(world);
                Err(OUT_OF_MEMORY)
            }
        }
    }

    fn answer(&mut self, rank: u16, call: Call) -> AnswerRecord
        ensures { IsStepOf rank call (type_out_in self.new.world rank) self.old result self.new }
    {
        match self.world.call(rank, call) {
            Ok(answered) => {
                let reply = reply_in(answered);
                let basic = type_taken_out(&self.world, rank, &reply);
                tell(self.alloc, &mut self.parts, rank, reply, basic)
            }
            Err(refused) => refusal(number_of(refused)),
        }
    }

    fn answer_probe(&mut self, rank: u16, probe: Probe) -> AnswerRecord
        ensures { IsStepOf rank (calls.Iprobe probe) (λ reply. type_probed_in self.new.world rank probe) self.old result
            self.new }
    {
        match self.world.call(rank, Call::Iprobe(probe)) {
            Ok(answered) => {
                let reply = reply_in(answered);
                let basic = type_probed(&self.world, rank, probe);
                tell(self.alloc, &mut self.parts, rank, reply, basic)
            }
            Err(refused) => refusal(number_of(refused)),
        }
    }

    fn finish(&mut self, rank: u16) -> AnswerRecord
        ensures world { self.new.world ≡ self.old.world }
        ensures told { Finishes rank self.old.parts result self.new.parts }
    {
        match take_ended(&mut self.parts, rank) {
            Some(reply) => tell(self.alloc, &mut self.parts, rank, reply, None),
            None => answer_of_kind(PENDING),
        }
    }

    /// Answers the call of a rank that the numbers mean, and the data. What they mean is one step of the world, a call
    /// of this rank's engine, goes on from its run of the machine by one event of this call, and is told as the engine
    /// answers it, with the type of what a probe found; the data that it brings are kept of this rank. A look tells
    /// what the engine's table of requests says, and the question for the end of a blocked call what was kept of that,
    /// once; both leave the world as it is. So do numbers that mean nothing, and a call for whose data memory is wanting
    /// (14).
    pub fn call(&mut self, rank: u16, asked: &CallRecord, bytes: &[u8]) -> AnswerRecord
        ensures { IsCallOf rank (meaning asked.now bytes.now) self.old result self.new
            ⊎ LeavesAs self.old result self.new }
    {
        match meaning_of(self.alloc, asked, bytes) {
            Ok(Meant::Call(call)) => self.answer(rank, call),
            Ok(Meant::Probe(probe)) => self.answer_probe(rank, probe),
            Ok(Meant::Look(request)) => look(&self.world, rank, request),
            Ok(Meant::Finish) => self.finish(rank),
            Err(number) => refusal(number),
        }
    }

    /// All that was sent comes, each datagram once and in the order in which they were sent, until nothing more is sent.
    /// The ranks go on from their run of the machine by events in which nobody calls; and of each datagram that ended a
    /// blocked call the answer is kept. Answers whether they are quiet then: no session between ranks that know each
    /// other holds a frame. Fails with 14 for want of memory, and with 5 where a datagram is for a rank that there isn't;
    /// what hasn't come is on its way still.
    pub fn settle(&mut self) -> Result<bool, u8>
        ensures world { GoesOnAlone self.old.world self.new.world }
        ensures comes { (came : List Came) × ComeInTurn came self.old self.new }
        ensures all { OnOk result (self.new.world.waiting ≡ []) }
        ensures quiet { IfOk result (λ is_quiet. IsTrue is_quiet → AreQuiet (sessions_in self.new.world.engines)) }
        ensures refused { IfErr result (λ number. (number ≡ 14) ⊎ (number ≡ 5)) }
    {
        deliver_all(&mut self.world, &mut self.parts)?;
        Ok(self.world.is_quiet())
    }

    /// Copies data of the last answer of a rank out that brought any, from this element on: how many bytes.
    pub fn take(&self, rank: u16, first: u64, into: &mut [u8]) -> usize
        ensures { TakesOf (received_in self.now.parts rank) first into.old into.new result }
    {
        take_data(self.parts.as_slice(), rank, first, into)
    }
}
