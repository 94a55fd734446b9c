//! Questions about communicators.

ghost use Rattle.std.specs.Prelude.{◌≡◌, IfErr, IfOk, OnErr};
ghost use Rattle.communicators.specs.Questions.{fact_text};
ghost use Rattle.engine_calls.specs.Calls.{AskingGives, BringsRanks, fact_said};
ghost use Rattle.engine_calls.specs.Faults.{fault_of};
ghost use Rattle.engine_calls.specs.declared.call.Call.TheVariants as calls;

use crate::engine::Engine;
use communicators::Question;
use engine_calls::{Call, Fact, Reply, of_rule};
use point_to_point::Refusal;
use std::alloc::Global;

/// The ranks, copied.
fn copy_ranks(alloc: Global, ranks: &[u16]) -> Result<Vec<u16>, Refusal>
    ensures ok { IfOk result (λ copy. copy.items ≡ ranks.now) }
    ensures err { IfErr result (λ e. e ≡ Refusal.OutOfMemory) }
{
    match Vec::from_slice(alloc, ranks) {
        Ok(copy) => Ok(copy),
        Err(_) => Err(Refusal::OutOfMemory),
    }
}

/// An answer that lends nothing: ranks are copied. The only refusal is want of memory for ranks (14).
fn into_owned(alloc: Global, fact: communicators::FactRef<'_>) -> Result<Fact, Refusal>
    ensures ok { IfOk result (λ own. fact_said own ≡ fact_text fact.entry) }
    ensures err { IfErr result (λ e. e ≡ Refusal.OutOfMemory) }
    ensures need { OnErr result (BringsRanks (fact_text fact.entry)) }
{
    match fact {
        communicators::FactRef::Number(number) => Ok(Fact::Number(number)),
        communicators::FactRef::Ranks(ranks) => match copy_ranks(alloc, ranks) {
            Ok(ranks) => Ok(Fact::Ranks(ranks)),
            Err(refused) => Err(refused),
        },
        communicators::FactRef::Compares(comparison) => Ok(Fact::Compares(comparison)),
    }
}

impl Engine {
    /// The first rule that a question breaks, of 6 and 4. It takes no memory.
    pub(crate) fn fault_of_question(
        &self,
        comm: Option<usize>,
        question: Question,
    ) -> Option<Refusal>
        ensures { result ≡ fault_of self.now (calls.Ask comm question) }
    {
        match self
            .parts
            .communicators
            .fault_of_question(self.parts.core.is_blocked(), comm, question)
        {
            Some(fault) => Some(of_rule(fault)),
            None => None,
        }
    }

    /// Answers a question about a communicator (MPI 3.1, 6.4.1). Refused is the first that holds of 6, 4 and 14, which
    /// is for the members alone; a refusal hands the call back.
    pub(crate) fn ask(&self, comm: Option<usize>, question: Question) -> Reply
        ensures { AskingGives self.now comm question result self.now }
    {
        if let Some(fault) = self.fault_of_question(comm, question) {
            return Reply::Refused(fault, Call::Ask(comm, question));
        }
        let Some(fact) = self.parts.communicators.fact(comm, question) else {
            return Reply::Refused(Refusal::Communicator, Call::Ask(comm, question));
        };
        match into_owned(self.alloc, fact) {
            Ok(fact) => Reply::Fact(fact),
            Err(refused) => Reply::Refused(refused, Call::Ask(comm, question)),
        }
    }
}
