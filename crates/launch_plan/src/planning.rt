//! From words to a plan.

ghost use Rattle.std.specs.Prelude.{◌≡◌, IfOk, Ok};
ghost use Rattle.std.specs.Option.{option_copied};
ghost use Rattle.launch_plan.specs.Launches.{Launch};
ghost use Rattle.launch_plan.specs.Grammar.{AskFor};
ghost use Rattle.launch_plan.specs.Plans.{sets_behind, launch_of};
ghost use Rattle.launch_plan.specs.Openings.{opening_text};
ghost use Rattle.launch_plan.specs.Faults.{FaultsStay};
ghost use Rattle.launch_plan.specs.Results.{Gives, HasNoFault};

use crate::configuration::sets_of_file;
use crate::opening::{Opening, opening_of};
use crate::plan::Plan;
use crate::process_set::ProcessSet;
use crate::refusal::LaunchRefusal;
use crate::sets::sets_of;
use crate::validation::size_behind;
use launch_keeper::Word;
use std::alloc::Global;

/// The sets behind an opening, from the words or from the configuration file, where they have no
/// fault.
#[tactic(auto, unfolding(crate::specs::Plans::sets_behind))]
fn sets_behind(
    alloc: Global,
    opening: Opening<'_>,
    config: Option<&[u8]>,
) -> Result<Vec<ProcessSet>, LaunchRefusal>
    requires { HasNoFault (sets_behind (opening_text opening) (option_copied config)) }
    ensures { Gives (λ sets. sets.items) result
        (sets_behind (opening_text opening.entry) (option_copied config.entry)) }
{
    if opening.file.is_none() {
        return sets_of(alloc, opening.rest);
    }
    let sets = sets_of_file(alloc, config)?;
    if !opening.rest.is_empty() {
        return Err(LaunchRefusal::WrongOption);
    }
    Ok(sets)
}

/// What the words of the launcher ask for, or the first fault from left to right: 52 to 59, and 14
/// for want of memory, where there is no fault. `config` is what the configuration file that the words name holds, or
/// `None` where it can't be read.
///
/// MPI 3.1, 8.8 has the two forms of the words. The faults of the configuration file come at its
/// name, and 57 is judged last.
pub fn plan(alloc: Global, words: &[Word], config: Option<&[u8]>) -> Result<Plan, LaunchRefusal>
    // What is answered belongs to the words and to the file that they name.
    ensures found { IfOk result (λ plan. AskFor words.now (option_copied config.entry) plan) }
    // Where the words ask for a launch it is answered, unless memory runs out.
    ensures only { (launch : Launch) → AskFor words.now (option_copied config.entry) launch
        → Gives (λ plan. plan) result (Ok launch) }
    // Which fault it is: the first from left to right, and the limits last.
    ensures exact { Gives (λ plan. plan) result (launch_of words.now (option_copied config.entry)) }
{
    plan_of(alloc, words, config)
}

#[tactic(auto, using(crate::proofs::LaunchLaws::opening_fails, crate::proofs::LaunchLaws::size_fails, crate::proofs::LaunchLaws::sets_fail, crate::proofs::LaunchLaws::no_fault, crate::proofs::LaunchLaws::is_sized, crate::proofs::LaunchLaws::is_limited, crate::proofs::LaunchLaws::is_planned))]
fn plan_of(alloc: Global, words: &[Word], config: Option<&[u8]>) -> Result<Plan, LaunchRefusal>
    ensures { Gives (λ plan. plan) result (launch_of words.now (option_copied config.entry)) }
{
    let opening = opening_of(words)?;
    let size = size_behind(opening, config)?;
    let sets = sets_behind(alloc, opening, config)?;
    Ok(Plan::new(opening.given, size, sets))
}

/// No word behind a fault matters: where the words in front have a fault that is of a word and not
/// of a missing one, it is the fault of the words with any others behind them. So the fault that
/// `plan` answers is the first from the left.
pub fn first_fault_stays()
    ensures { FaultsStay }
{}
