//! The sets of `mpirun` as words of a launch, and back to programs.

ghost use Rattle.std.specs.Prelude.{◌≡◌, ◌++◌, ◌∷◌, [], ℕ, true, is_some, codes, IfOk, OnOk};
ghost use Rattle.std.specs.Str.{bytes_eq};
ghost use Rattle.launch_plan.specs.declared.process_set.ProcessSet.{ProcessSet};
ghost use Rattle.launch_plan.specs.Launches.{Launch, option_words, optional_words, words_of_process};
ghost use Rattle.run_plan.specs.Sets.{plain_sets, plain_word, plan_words, program_words};

use launch_keeper::{Word, Words};
use std::alloc::{AllocError, Global};

/// How many words tell a program its place in front of its own arguments.
const PLACE_WORDS: usize = 10;

/// How many of them there are where they tell its patience too.
const PLACE_WORDS_WITH_PATIENCE: usize = 12;

fn is(word: &[u8], name: &[u8]) -> bool
    ensures { result ≡ bytes_eq word.now name.now }
{
    word == name
}

/// A word of the sets, with `-n` in place of `-np` where a set begins.
fn plain_word(begins: bool, word: &[u8]) -> &[u8]
    ensures { result.now ≡ plain_word begins word.now }
{
    if begins && is(word, b"-np") {
        return b"-n";
    }
    word
}

/// Adds the words of the sets, with `-n` in place of `-np` where a set begins.
fn push_sets(alloc: Global, all: &mut Words, sets: &[Word]) -> Result<(), AllocError>
    ensures { OnOk result (all.new ≡ all.old ++ plain_sets true sets.now) }
{
    let mut begins = true;
    for word in sets {
        let bytes = word.as_bytes();
        all.push(Word::from_slice(alloc, plain_word(begins, bytes))?)?;
        begins = is(bytes, b":");
    }
    Ok(())
}

fn push_option(alloc: Global, words: &mut Words, name: &[u8], number: u64) -> Result<(), AllocError>
    ensures { OnOk result (words.new ≡ words.old ++ option_words name.now number) }
{
    words.push(Word::from_slice(alloc, name)?)?;
    words.push(Word::from_number(alloc, number)?)?;
    Ok(())
}

/// Adds the patience, where it was given.
fn push_patience(alloc: Global, words: &mut Words, patience: Option<u32>) -> Result<(), AllocError>
    ensures { OnOk result (words.new ≡ words.old ++ optional_words (codes "-patience") patience) }
{
    match patience {
        Some(patience) => push_option(alloc, words, b"-patience", u64::from(patience)),
        None => Ok(()),
    }
}

/// The words by which `launch_plan` plans these sets, with this job, this port of rank 0, so many restarts, and this
/// patience where one was given. Only want of memory is an error.
pub fn plan_words(
    alloc: Global,
    job: u64,
    base_port: u16,
    restarts: u16,
    patience: Option<u32>,
    sets: &[Word],
) -> Result<Words, AllocError>
    ensures { IfOk result (λ words. words ≡ plan_words job base_port restarts patience sets.now) }
{
    let mut words = Words::new(alloc);
    push_option(alloc, &mut words, b"-job", job)?;
    push_option(alloc, &mut words, b"-baseport", u64::from(base_port))?;
    push_option(alloc, &mut words, b"-restart", u64::from(restarts))?;
    push_patience(alloc, &mut words, patience)?;
    push_sets(alloc, &mut words, sets)?;
    Ok(words)
}

#[tactic(auto, using(crate::proofs::SetLaws::own_words))]
/// The words of a rank's start without those that tell its place: the program and its own arguments. Only want of memory
/// is an error.
pub fn program_words(alloc: Global, words: &[Word], has_patience: bool) -> Result<Words, AllocError>
    // They are the program and the arguments of the rank's process.
    ensures own { IfOk result (λ all. (launch : Launch) (rank incarnation : ℕ) (process : ProcessSet) →
        is_some launch.patience ≡ has_patience → words.now ≡ words_of_process launch rank incarnation process →
        all ≡ process.program ∷ process.arguments) }
    ensures exact { IfOk result (λ all. all ≡ program_words words.now has_patience) }
{
    words_of_program(alloc, words, has_patience)
}

fn words_of_program(alloc: Global, words: &[Word], has_patience: bool) -> Result<Words, AllocError>
    ensures { IfOk result (λ all. all ≡ program_words words.now has_patience) }
{
    let place = if has_patience {
        PLACE_WORDS_WITH_PATIENCE
    } else {
        PLACE_WORDS
    };
    let mut all = Words::new(alloc);
    let Some((program, behind)) = words.split_first() else {
        return Ok(all);
    };
    all.push(Word::from_slice(alloc, program.as_bytes())?)?;
    let (_, arguments) = behind.split_at(behind.len().min(place));
    all.extend(alloc, arguments)?;
    Ok(all)
}
