//! Reading the words of `mpirun` from left to right: its options, and where the sets begin.

ghost use Rattle.std.specs.Prelude.{◌≡◌, ◌≤◌, IfOk, IfSome};
ghost use Rattle.std.specs.Str.{bytes_eq};
ghost use Rattle.run_plan.specs.Readings.{after, at_option, at_number, at_text, is_name, unless, due, with_options};
ghost use Rattle.run_plan.specs.Readings.{ended, has_named, is_frame, number_in, start, request_of, setting_places};
ghost use Rattle.run_plan.specs.Readings.{wanted_number, wanted_of};
ghost use Rattle.run_plan.specs.Symbols.{greatest_of};

use crate::fault::{RunFault, Wanted};
use crate::options::RunOptions;
use crate::symbol::{NumberOption, Symbol, TextOption, symbol_of};
use launch_keeper::Word;
use numerals::number_between;
use rank_environment::frame_in;
use std::alloc::{AllocError, Global};

/// What the words of `mpirun` ask for.
#[derive(Clone, Copy, Debug)]
pub struct RunRequest {
    /// The options that were given.
    pub options: RunOptions,
    /// How many words stand in front of the first set.
    pub sets: usize,
}

/// What is due where the words were read so far.
#[derive(Clone, Copy, Debug)]
pub(crate) enum Stage {
    /// An option, or the first set.
    Option,
    /// The number of an option.
    Number(NumberOption),
    /// The text of an option.
    Text(TextOption),
    /// The name of a variable.
    Name,
    /// The value of a variable.
    Value,
    /// Nothing more: the sets began behind so many words.
    Sets(usize),
}

/// What was read so far.
#[derive(Clone, Copy, Debug)]
pub(crate) struct Reading {
    /// The options that were given.
    pub(crate) options: RunOptions,
    /// What is due.
    pub(crate) stage: Stage,
}

fn is(word: &[u8], name: &[u8]) -> bool
    ensures { result ≡ bytes_eq word.now name.now }
{
    word == name
}

/// Whether a word may name a variable: it isn't empty, has no `=`, and doesn't begin with `KOMBAZILY_`.
fn is_name(word: &[u8]) -> bool
    ensures { result ≡ is_name word.now }
{
    let (front, _) = word.split_at(word.len().min(10));
    !word.is_empty() && !is(front, b"KOMBAZILY_") && !word.contains(&b'=')
}

/// Whether the option's number is how long frames are.
fn is_frame(option: NumberOption) -> bool
    ensures { result ≡ is_frame option }
{
    matches!(option, NumberOption::Frame)
}

/// The number of this option that a word spells.
#[tactic(auto, unfolding(crate::specs::Readings::number_in))]
fn number_in(option: NumberOption, word: &[u8]) -> Option<u64>
    ensures exact { result ≡ number_in option word.now }
    ensures greatest { IfSome result (λ n. n ≤ greatest_of option) }
{
    if !is_frame(option) {
        return number_between(word, option.least(), option.greatest());
    }
    match frame_in(word) {
        Some(bytes) => Some(u64::from(bytes)),
        None => None,
    }
}

/// What may stand where this option's number is due.
fn wanted_number(option: NumberOption) -> Wanted
    ensures { result ≡ wanted_number option }
{
    if is_frame(option) {
        Wanted::Frame
    } else {
        Wanted::Number(option.least(), option.greatest())
    }
}

/// What may stand where this option's text is due.
fn wanted_of(option: TextOption) -> Wanted
    ensures { result ≡ wanted_of option }
{
    match option {
        TextOption::Folder => Wanted::Folder,
        TextOption::HostFile => Wanted::HostFile,
        TextOption::Hosts => Wanted::Hosts,
        TextOption::Launcher => Wanted::Launcher,
    }
}

/// This, unless the option was given before.
fn unless(given: bool, next: Reading) -> Result<Reading, Wanted>
    ensures { result ≡ unless given next }
{
    if given {
        return Err(Wanted::Once);
    }
    Ok(next)
}

impl Reading {
    /// Nothing was read.
    fn start() -> Reading
        ensures { result ≡ start }
    {
        Reading {
            options: RunOptions::none(),
            stage: Stage::Option,
        }
    }

    /// The same options, with this due.
    fn due(self, stage: Stage) -> Reading
        ensures { result ≡ due self stage }
    {
        Reading { stage, ..self }
    }

    /// These options, with an option or a set due.
    fn with(options: RunOptions) -> Reading
        ensures { result ≡ with_options options }
    {
        Reading {
            options,
            stage: Stage::Option,
        }
    }

    /// What was read with this at this place where an option may stand, or what may stand there.
    fn at_option(self, place: usize, symbol: Symbol) -> Result<Reading, Wanted>
        ensures { result ≡ at_option self place symbol }
    {
        let options = self.options;
        match symbol {
            Symbol::Number(option) => {
                unless(options.has(option), self.due(Stage::Number(option)))
            }
            Symbol::Prefix => {
                let marked = RunOptions {
                    marks_lines: true,
                    ..options
                };
                unless(options.marks_lines, Reading::with(marked))
            }
            Symbol::KeepGoing => {
                let going = RunOptions {
                    keeps_going: true,
                    ..options
                };
                unless(options.keeps_going, Reading::with(going))
            }
            Symbol::Oversubscribe => {
                let more = RunOptions {
                    oversubscribes: true,
                    ..options
                };
                unless(options.oversubscribes, Reading::with(more))
            }
            Symbol::Text(option) => {
                unless(options.has_text(option), self.due(Stage::Text(option)))
            }
            Symbol::Variable => Ok(self.due(Stage::Name)),
            Symbol::Set => Ok(self.due(Stage::Sets(place))),
            Symbol::Other => Err(Wanted::Set),
        }
    }

    /// What was read with a word where this option's number is due, or what may stand there.
    #[tactic(auto, unfolding(crate::specs::Readings::at_number))]
    fn at_number(self, option: NumberOption, word: &[u8]) -> Result<Reading, Wanted>
        ensures { result ≡ at_number self option word.now }
    {
        match number_in(option, word) {
            Some(number) => Ok(Reading::with(self.options.with(option, number))),
            None => Err(wanted_number(option)),
        }
    }

    /// What was read with a word at this place where this option's text is due, or what may stand there.
    fn at_text(self, option: TextOption, place: usize, word: &[u8]) -> Result<Reading, Wanted>
        ensures { result ≡ at_text self option place word.now }
    {
        if word.is_empty() {
            return Err(wanted_of(option));
        }
        Ok(Reading::with(self.options.with_text(option, place)))
    }

    /// What was read with one more word, which stands at this place, or what may stand there.
    #[tactic(auto, unfolding(crate::specs::Readings::after))]
    fn after(self, place: usize, word: &[u8]) -> Result<Reading, Wanted>
        ensures { result ≡ after self place word.now }
    {
        match self.stage {
            Stage::Option => self.at_option(place, symbol_of(word)),
            Stage::Number(option) => self.at_number(option, word),
            Stage::Text(option) => self.at_text(option, place, word),
            Stage::Name => {
                if is_name(word) {
                    Ok(self.due(Stage::Value))
                } else {
                    Err(Wanted::Name)
                }
            }
            Stage::Value => Ok(self.due(Stage::Option)),
            Stage::Sets(_) => Ok(self),
        }
    }

    /// What so many words ask for that were read whole, or what is missing behind them.
    fn end(self, place: usize) -> Result<RunRequest, RunFault>
        ensures { result ≡ ended self place }
    {
        let wanted = match self.stage {
            Stage::Sets(sets) => {
                return Ok(RunRequest {
                    options: self.options,
                    sets,
                });
            }
            Stage::Option => Wanted::Set,
            Stage::Number(option) => wanted_number(option),
            Stage::Text(option) => wanted_of(option),
            Stage::Name => Wanted::Name,
            Stage::Value => Wanted::Value,
        };
        Err(RunFault { place, wanted })
    }

    /// Whether the last word that was read names a variable.
    fn has_named(self) -> bool
        ensures { result ≡ has_named self }
    {
        match self.stage {
            Stage::Value => true,
            _ => false,
        }
    }
}

/// What the words of `mpirun` ask for, behind the program's own name, or the first fault from the left. It takes no
/// memory. The sets are judged by `launch_plan`.
///
/// Options stand in front of the first set, which `-n` or `-np` begins: `-job J`, `-baseport P`, `-restart K`,
/// `-patience MS`, `-timeout S`, `-frame N`, `-ppn K`, `-prefix`, `-keep-going`, `-oversubscribe`, `-wdir FOLDER`,
/// `-hostfile FILE`, `-host LIST` and `-launcher WORDS`, each once, and `-env NAME VALUE` any number of times. Words of others are made
/// these by `run_words`.
pub fn request_of(words: &[Word]) -> Result<RunRequest, RunFault>
    ensures { result ≡ request_of words.now }
{
    let mut reading = Reading::start();
    for (place, word) in words.iter().enumerate() {
        match reading.after(place, word.as_bytes()) {
            Ok(next) => reading = next,
            Err(wanted) => return Err(RunFault { place, wanted }),
        }
    }
    reading.end(words.len())
}

/// The places of the words that name variables, each in front of its value. Only want of memory is an error.
pub fn setting_places(alloc: Global, words: &[Word]) -> Result<Vec<usize>, AllocError>
    ensures { IfOk result (λ places. places.items ≡ setting_places words.now) }
{
    let mut places = Vec::new(alloc);
    let mut reading = Reading::start();
    for (place, word) in words.iter().enumerate() {
        let Ok(next) = reading.after(place, word.as_bytes()) else {
            return Ok(places);
        };
        if next.has_named() {
            places.push(place)?;
        }
        reading = next;
    }
    Ok(places)
}
