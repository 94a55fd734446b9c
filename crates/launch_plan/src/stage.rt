//! How far the words of a set were read. It takes no memory.

ghost use Rattle.std.specs.Prelude.{◌≡◌};
ghost use Rattle.launch_plan.specs.Results.{GivesExactly};
ghost use Rattle.launch_plan.specs.SetFaults.{misplaced_fault, stage_after_first, stage_after_program, stage_after};
ghost use Rattle.launch_plan.specs.SetFaults.{count_at, total_or_none, total, total_with};

use crate::refusal::LaunchRefusal;
use crate::symbol::{Symbol, is_separator, symbol_of};
use numerals::number_between;
use vocabulary::MOST_RANKS;

/// More ranks than a launch may have: so many stand for any greater number, too.
const TOO_MANY: u32 = MOST_RANKS as u32 + 1;

/// How far the words of a set were read.
#[derive(Clone, Copy)]
pub(crate) enum Stage {
    /// No word was read.
    Empty,
    /// `-n` was read.
    Count,
    /// `-n` and the number of processes were read.
    Program(u16),
    /// The program was read, and maybe arguments.
    Arguments(u16),
}

/// How many ranks there are with those of one more set; 1,025 where there are more than 1,024.
fn total_with(ranks: u16, count: u16) -> u16
    ensures { result ≡ total_with ranks count }
{
    let sum = u32::from(ranks) + u32::from(count);
    sum.min(TOO_MANY) as u16
}

/// The fault of a word that can't stand where an option may stand.
fn misplaced_fault(symbol: Symbol) -> LaunchRefusal
    ensures { result ≡ misplaced_fault symbol }
{
    match symbol {
        Symbol::LeftOut => LaunchRefusal::LeftOut,
        _ => LaunchRefusal::WrongOption,
    }
}

fn stage_after_first(symbol: Symbol) -> Result<Stage, LaunchRefusal>
    ensures { GivesExactly (λ stage. stage) result (stage_after_first symbol) }
{
    match symbol {
        Symbol::Count => Ok(Stage::Count),
        Symbol::Program => Err(LaunchRefusal::NoCount),
        _ => Err(misplaced_fault(symbol)),
    }
}

fn stage_after_program(count: u16, symbol: Symbol) -> Result<Stage, LaunchRefusal>
    ensures { GivesExactly (λ stage. stage) result (stage_after_program count symbol) }
{
    match symbol {
        Symbol::Program => Ok(Stage::Arguments(count)),
        _ => Err(misplaced_fault(symbol)),
    }
}

impl Stage {
    /// The stage behind one more word of the set, or the word's fault.
    #[tactic(auto, unfolding(crate::specs::SetFaults::stage_after))]
    pub(crate) fn after(self, word: &[u8]) -> Result<Stage, LaunchRefusal>
        ensures { GivesExactly (λ stage. stage) result (stage_after self word.now) }
    {
        match self {
            Stage::Empty => stage_after_first(symbol_of(word)),
            Stage::Count => match number_between(word, 1, MOST_RANKS as u64) {
                Some(count) => Ok(Stage::Program(count as u16)),
                None => Err(LaunchRefusal::WrongValue),
            },
            Stage::Program(count) => stage_after_program(count, symbol_of(word)),
            Stage::Arguments(_) => {
                if is_separator(word) {
                    Err(LaunchRefusal::WrongOption)
                } else {
                    Ok(self)
                }
            }
        }
    }

    /// The count of the set whose words end here, or the fault of what is missing.
    pub(crate) fn count(self) -> Result<u16, LaunchRefusal>
        ensures { GivesExactly (λ count. count) result (count_at self) }
    {
        match self {
            Stage::Empty => Err(LaunchRefusal::NoSet),
            Stage::Count => Err(LaunchRefusal::WrongValue),
            Stage::Program(_) => Err(LaunchRefusal::NoProgram),
            Stage::Arguments(count) => Ok(count),
        }
    }

    /// How many ranks there are with those of the set whose words end here.
    pub(crate) fn total(self, ranks: u16) -> Result<u16, LaunchRefusal>
        ensures { GivesExactly (λ ranks. ranks) result (total ranks self) }
    {
        Ok(total_with(ranks, self.count()?))
    }

    /// How many ranks there are with those of the set whose words end here; no words are no set.
    pub(crate) fn total_or_none(self, ranks: u16) -> Result<u16, LaunchRefusal>
        ensures { GivesExactly (λ ranks. ranks) result (total_or_none ranks self) }
    {
        match self {
            Stage::Empty => Ok(ranks),
            _ => self.total(ranks),
        }
    }
}
