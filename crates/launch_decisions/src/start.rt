//! The starts of a rank's program.

ghost use Rattle.std.specs.Prelude.{◌≡◌, map, IfOk};
ghost use Rattle.rank_environment.specs.Variables.{variable_text, variables_of};
ghost use Rattle.launch_plan.specs.Launches.{words_of_rank};
ghost use Rattle.launch_decisions.specs.Starts.{place_of, after_of, IsFirst, IsNext};

use launch_keeper::{After, Keeper, ProgramEnding, Words};
use launch_plan::Plan;
use rank_environment::{RankPlace, Variable, variables_of};
use std::alloc::{AllocError, Global};

/// One start of a rank's program: of which launch, which rank, and at which incarnation.
#[derive(Clone, Copy)]
pub struct Start<'a> {
    plan: &'a Plan,
    rank: u16,
    incarnation: u16,
}

/// What follows once a rank's program has ended.
#[derive(Clone, Copy)]
pub enum Next<'a> {
    /// The rank has ended for good, with this status.
    Ends(u8),
    /// Its program is started again, so.
    Starts(Start<'a>),
}

impl<'a> Next<'a> {
    /// The same, as a keeper tells it.
    pub fn after(&self) -> After
        ensures { result ≡ after_of self.now }
    {
        match self {
            Next::Ends(status) => After::End(*status),
            Next::Starts(start) => After::Again(start.incarnation),
        }
    }
}

impl<'a> Start<'a> {
    /// The first start of a rank: its incarnation is 0.
    pub fn first(plan: &'a Plan, rank: u16) -> Start<'a>
        ensures { IsFirst plan.now rank result }
    {
        Start {
            plan,
            rank,
            incarnation: 0,
        }
    }

    /// What follows once the program of this start has ended so: it is started again at the next incarnation exactly
    /// where its ending counts as a status other than 0 and the launch allows one more restart.
    pub fn next(self, ending: ProgramEnding) -> Next<'a>
        ensures { IsNext self.entry ending result }
    {
        let keeper = Keeper::new(self.plan.restarts());
        match keeper.after(ending.status(), self.incarnation) {
            After::End(status) => Next::Ends(status),
            After::Again(incarnation) => Next::Starts(Start {
                incarnation,
                ..self
            }),
        }
    }

    /// The words of this start: those of the plan for this rank at this incarnation; `None` for a rank that the plan
    /// lacks. Only want of memory is an error.
    pub fn words(&self, alloc: Global) -> Result<Option<Words>, AllocError>
        ensures { IfOk result (λ words. words ≡ words_of_rank self.now.plan.now self.now.rank self.now.incarnation) }
    {
        self.plan.words(alloc, self.rank, self.incarnation)
    }

    /// The variables of this start, which say what its words say. Only want of memory is an error.
    pub fn variables(&self, alloc: Global) -> Result<Vec<Variable>, AllocError>
        ensures { IfOk result (λ variables. map variable_text variables.items ≡ variables_of (place_of self.now)) }
    {
        let place = RankPlace {
            rank: self.rank,
            size: self.plan.size(),
            incarnation: self.incarnation,
            job: self.plan.job(),
            base_port: self.plan.base_port(),
            patience: self.plan.patience(),
        };
        variables_of(alloc, place)
    }
}
