//! A set of words: how many processes, of which program, with which arguments.

ghost use Rattle.std.specs.Prelude.{◌≡◌, IfOk};
ghost use Rattle.launch_plan.specs.Results.{Gives, GivesExactly};
ghost use Rattle.launch_plan.specs.Sets.{set_of};
ghost use Rattle.launch_plan.specs.SetFaults.{last_count, count_of, IsCounted};

use crate::copies::copy_words;
use crate::refusal::LaunchRefusal;
use crate::stage::Stage;
use launch_keeper::{Word, Words};
use std::alloc::Global;

/// What one set of words asks for (MPI 3.1, 8.8): so many processes of a program.
#[derive(Drop)]
pub struct ProcessSet {
    /// The number of its processes, 1 to 1,024.
    pub count: u16,
    /// The program that each of them runs.
    pub program: Word,
    /// The program's own arguments.
    pub arguments: Words,
}

fn last_count(words: &[Word]) -> Result<u16, LaunchRefusal>
    ensures { GivesExactly (λ count. count) result (last_count words.now) }
{
    let mut stage = Stage::Empty;
    for word in words {
        stage = stage.after(word.as_bytes())?;
    }
    stage.count()
}

/// The number of processes of the set with these words, or the first fault. It takes no memory.
fn count_of(words: &[Word]) -> Result<u16, LaunchRefusal>
    ensures exact { GivesExactly (λ count. count) result (count_of words.now) }
    ensures counted { IfOk result (λ count. IsCounted words.now count) }
{
    last_count(words)
}

/// What the words of one set ask for, or the first fault.
pub(crate) fn set_of(alloc: Global, words: &[Word]) -> Result<ProcessSet, LaunchRefusal>
    ensures { Gives (λ set. set) result (set_of words.now) }
{
    let count = count_of(words)?;
    let program = Word::from_slice(alloc, words[2].as_bytes())?;
    let arguments = copy_words(alloc, &words[3..])?;
    Ok(ProcessSet {
        count,
        program,
        arguments,
    })
}
