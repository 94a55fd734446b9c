//! Reading all words: whether they can be followed, and what they are as own words.

ghost use Rattle.std.specs.Prelude.{◌≡◌, IfOk};
ghost use Rattle.run_words.specs.Readings.{ended, exported_places, idle_places, is_exported, is_idle, option_words};
ghost use Rattle.run_words.specs.Readings.{own_words, read_words, set_words};
ghost use Rattle.run_words.specs.Arguments.{ArgumentsStay};

use crate::fault::{Trouble, WordFault};
use crate::pieces::{push_option_piece, push_set_piece};
use crate::steps::{Piece, Reading};
use crate::variables::Variable;
use launch_keeper::{Word, Words};
use std::alloc::{AllocError, Global};

/// What the words say beside what they are as own words.
#[derive(Clone, Copy, Debug)]
pub struct Asked {
    /// Whether what is taken and has no effect is told.
    pub is_verbose: bool,
    /// Whether a set has no number of processes.
    pub lacks_number: bool,
    /// The place of the name of a file of sets, which stands in place of all sets.
    pub file: Option<usize>,
}

impl Reading {
    /// What so many words say that were read whole, or that a value is missing behind them.
    fn end(self, place: usize) -> Result<Asked, WordFault>
        ensures { result ≡ ended self place }
    {
        if self.is_whole() {
            return Ok(Asked {
                is_verbose: self.is_verbose,
                lacks_number: self.lacks_number,
                file: self.file,
            });
        }
        Err(WordFault {
            place,
            trouble: Trouble::Missing,
        })
    }
}

/// Whether a word is an option without effect.
fn is_idle(piece: Piece) -> bool
    ensures { result ≡ is_idle piece }
{
    matches!(piece, Piece::Idle)
}

/// Whether a word hands on or sets a variable.
fn is_exported(piece: Piece) -> bool
    ensures { result ≡ is_exported piece }
{
    matches!(piece, Piece::Variable)
}

/// What these words, behind the program's own name, say beside what they are as own words, or the first fault from the
/// left. It takes no memory.
///
/// Options stand in front of the first program, in front of `-n` or behind it; two dashes in front of a name are one.
/// An option that others take as one of its set alone stands in front of the first `-n` where there are several sets.
/// Which names options have stands in docs/LAUNCHING.md; the values are judged by `run_plan`, and the sets by
/// `launch_plan`.
pub fn read_words(words: &[Word]) -> Result<Asked, WordFault>
    ensures { result ≡ read_words words.now }
{
    let mut reading = Reading::start();
    for (place, word) in words.iter().enumerate() {
        match reading.step(place, word.as_bytes()) {
            Ok(step) => reading = step.next,
            Err(fault) => return Err(fault),
        }
    }
    reading.end(words.len())
}

/// The options among these words, up to the first that can't be followed, each by its one name. A variable of `-x`
/// without a value has that of these variables, and is left out where it is none of them. Only want of memory is an
/// error.
pub fn option_words(
    alloc: Global,
    words: &[Word],
    variables: &[Variable],
) -> Result<Words, AllocError>
    ensures { IfOk result (λ all. all ≡ option_words variables.now words.now) }
{
    let mut all = Words::new(alloc);
    let mut reading = Reading::start();
    for (place, word) in words.iter().enumerate() {
        let Ok(step) = reading.step(place, word.as_bytes()) else {
            return Ok(all);
        };
        push_option_piece(alloc, &mut all, variables, step.piece, word.as_bytes())?;
        reading = step.next;
    }
    Ok(all)
}

/// The sets among these words, up to the first that can't be followed, each with `-n` and a number of processes in
/// front: this one where it has none. Only want of memory is an error.
pub fn set_words(alloc: Global, words: &[Word], count: u16) -> Result<Words, AllocError>
    ensures { IfOk result (λ all. all ≡ set_words count words.now) }
{
    let mut all = Words::new(alloc);
    let mut reading = Reading::start();
    for (place, word) in words.iter().enumerate() {
        let Ok(step) = reading.step(place, word.as_bytes()) else {
            return Ok(all);
        };
        push_set_piece(alloc, &mut all, count, step.piece, word.as_bytes())?;
        reading = step.next;
    }
    Ok(all)
}

/// These words as own words: the options, and behind them the sets. Only want of memory is an error.
pub fn own_words(
    alloc: Global,
    words: &[Word],
    variables: &[Variable],
    count: u16,
) -> Result<Words, AllocError>
    ensures { IfOk result (λ all. all ≡ own_words variables.now count words.now) }
{
    let mut all = option_words(alloc, words, variables)?;
    let sets = set_words(alloc, words, count)?;
    all.extend(alloc, sets.as_slice())?;
    Ok(all)
}

/// The places of the options that are taken and have no effect. Only want of memory is an error.
pub fn idle_places(alloc: Global, words: &[Word]) -> Result<Vec<usize>, AllocError>
    ensures { IfOk result (λ places. places.items ≡ idle_places words.now) }
{
    let mut places = Vec::new(alloc);
    let mut reading = Reading::start();
    for (place, word) in words.iter().enumerate() {
        let Ok(step) = reading.step(place, word.as_bytes()) else {
            return Ok(places);
        };
        if is_idle(step.piece) {
            places.push(place)?;
        }
        reading = step.next;
    }
    Ok(places)
}

/// The places of the words behind `-x`. Only want of memory is an error.
pub fn exported_places(alloc: Global, words: &[Word]) -> Result<Vec<usize>, AllocError>
    ensures { IfOk result (λ places. places.items ≡ exported_places words.now) }
{
    let mut places = Vec::new(alloc);
    let mut reading = Reading::start();
    for (place, word) in words.iter().enumerate() {
        let Ok(step) = reading.step(place, word.as_bytes()) else {
            return Ok(places);
        };
        if is_exported(step.piece) {
            places.push(place)?;
        }
        reading = step.next;
    }
    Ok(places)
}

/// Words behind a program, up to `:`, are its own: they stay as they are, and none is taken for an option.
pub fn arguments_stay()
    ensures { ArgumentsStay }
{}
