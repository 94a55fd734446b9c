//! A rank of a file of events: what its names stand for, and what its blocked call is for.

ghost use Rattle.std.specs.Prelude.{◌≡◌, Some, IfOk, IfSome, OnOk};
ghost use Rattle.interpreter.specs.StatementCalls.{acts_on};
ghost use Rattle.interpreter.specs.Answers.{hears, taken_back};
ghost use Rattle.simulation.specs.RankAnswers.{fresh, is_blocked, IsFaulty, IsMade, own_rank};
ghost use Rattle.simulation.specs.RankAnswers.{takes_completion, takes_reply, with_names};

use engine::{Call, Completion, Reply};
use interpreter::{Names, NextStep};
use line_diagnostics::LineFault;
use replies::{completion_as_reply, reply_copied};
use script_calls::Pending;
use statements::Action;
use std::alloc::{AllocError, Global};

/// What the names of a rank stand for, and what the answer of its blocked call is for, if one is blocked.
#[derive(Drop)]
pub struct RankNames {
    pub names: Names,
    pub blocked: Option<Pending>,
}

/// The rank of a world of this size, if it has it.
fn own_rank(size: u16, rank: u16) -> Option<u16>
    ensures { result ≡ own_rank size rank }
{
    if rank < size { Some(rank) } else { None }
}

/// Whether the answer is yet to come.
fn is_blocked(reply: &Reply) -> bool
    ensures { result ≡ is_blocked reply.now }
{
    matches!(reply, Reply::Blocked)
}

impl RankNames {
    /// A rank, which a world of this size may not have, in which no name is set.
    pub fn new(alloc: Global, size: u16, rank: u16) -> RankNames
        ensures { result ≡ fresh size rank }
    {
        RankNames {
            names: Names::new(alloc, own_rank(size, rank)),
            blocked: None,
        }
    }

    fn hear(&mut self, pending: Pending, reply: Reply) -> Result<NextStep, AllocError>
        ensures { IfOk result (λ heard. (hears pending reply self.old.names ≡ (heard, self.new.names))
            × (self.new.blocked ≡ self.old.blocked)) }
    {
        self.names.hear(pending, reply)
    }

    /// The answer to a call, which was for this: of one that blocks, its answer is yet to come. The only error is want
    /// of memory.
    #[tactic(auto, using(crate::proofs::RankLaws::reply_made))]
    pub fn hear_reply(&mut self, pending: Pending, reply: &Reply) -> Result<NextStep, AllocError>
        ensures { IfOk result (λ heard. IsMade (takes_reply pending reply.now self.old) heard self.new) }
    {
        if is_blocked(reply) {
            self.blocked = Some(pending);
            return Ok(NextStep::Nothing);
        }
        match reply_copied(self.names.allocator(), reply) {
            Ok(copy) => self.hear(pending, copy),
            Err(e) => {
                drop(pending);
                Err(e)
            }
        }
    }

    /// The answer of the call that was blocked. The only error is want of memory.
    #[tactic(auto, using(crate::proofs::RankLaws::same_made))]
    pub fn hear_completion(&mut self, completion: &Completion) -> Result<NextStep, AllocError>
        ensures { IfOk result (λ heard. IsMade (takes_completion completion.now self.old) heard self.new) }
    {
        let copy = completion_as_reply(self.names.allocator(), completion)?;
        match self.blocked.take() {
            Some(pending) => self.hear(pending, copy),
            None => {
                drop(copy);
                Ok(NextStep::Nothing)
            }
        }
    }

    /// A call that was refused comes back. The only error is want of memory.
    pub fn take_back(&mut self, pending: &Pending, call: Call) -> Result<(), AllocError>
        ensures { OnOk result (self.new ≡ with_names self.old (taken_back pending.now call self.old.names)) }
    {
        self.names.take_back(pending, call)
    }

    /// Why a statement can't be followed, as far as memory lasts to find it.
    pub fn lack_of(&self, action: &Action) -> Option<LineFault>
        ensures { IfSome result (λ fault. IsFaulty (Some fault) action.now self.now.names) }
    {
        match self.names.lack_of(action) {
            Ok(Some(fault)) => Some(fault),
            Ok(None) | Err(_) => None,
        }
    }

    /// What comes next of a statement; none where it can't be followed, and then nothing changes. The only error is
    /// want of memory.
    pub fn act(&mut self, action: Action) -> Result<Option<NextStep>, AllocError>
        ensures { IfOk result (λ next. (next ≡ (acts_on action self.old.names).0)
            × (self.new ≡ with_names self.old (acts_on action self.old.names).1)) }
    {
        self.names.act(action)
    }
}
