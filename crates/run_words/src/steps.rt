//! One word behind those that were read: what is due then, and what the word adds to the own words.

ghost use Rattle.std.specs.Prelude.{◌≡◌, IfOk};
ghost use Rattle.std.specs.Str.{bytes_eq};
ghost use Rattle.run_words.specs.Steps.{at_argument, at_option, begin_file, begin_number, begin_own, begin_program};
ghost use Rattle.run_words.specs.Steps.{begin_set, begin_variable, due, idle_behind, is_whole, kept, marked};
ghost use Rattle.run_words.specs.Steps.{of_set_from, refused, start, step, values_behind};

use crate::fault::{Trouble, WordFault};
use crate::symbol::{OwnOption, Symbol, symbol_of};

/// What is due behind the words that were read.
#[derive(Clone, Copy, Debug)]
pub(crate) enum Stage {
    /// An option, or the program of a set.
    Option,
    /// So many values of an option.
    Values(u8),
    /// So many values of an option without effect.
    IdleValues(u8),
    /// The number of processes.
    Number,
    /// A variable that is handed on or set.
    Variable,
    /// The name of a file of sets.
    File,
    /// Nothing: a file of sets was named.
    Nothing,
    /// The program of a set.
    Program,
    /// An argument of the program, or `:`.
    Argument,
}

/// What was read so far.
#[derive(Clone, Copy, Debug)]
pub(crate) struct Reading {
    /// What is due.
    pub(crate) stage: Stage,
    /// Whether the present set has its number of processes.
    pub(crate) has_number: bool,
    /// Whether sets stand in front of the present one.
    pub(crate) is_further: bool,
    /// Whether a set has no number of processes.
    pub(crate) lacks_number: bool,
    /// Whether what has no effect is told.
    pub(crate) is_verbose: bool,
    /// The place of the first option behind the first number that others take as one of that set alone.
    pub(crate) of_set: Option<usize>,
    /// The place of the name of the file of sets.
    pub(crate) file: Option<usize>,
}

/// What a word adds to the own words.
#[derive(Clone, Copy, Debug)]
pub(crate) enum Piece {
    /// Nothing.
    Nothing,
    /// Nothing: it is an option without effect.
    Idle,
    /// The one name of this option, to the options.
    Name(OwnOption),
    /// The word as it is, to the options.
    Value,
    /// The variable that it hands on or sets, to the options.
    Variable,
    /// `-n`, to the sets.
    Number,
    /// The word as it is, to the sets.
    OfSet,
    /// A program behind a number of processes of its own making, to the sets.
    Program,
}

/// What was read with one more word, and what that adds.
#[derive(Clone, Copy, Debug)]
pub(crate) struct Step {
    /// What was read.
    pub(crate) next: Reading,
    /// What the word adds.
    pub(crate) piece: Piece,
}

fn is(word: &[u8], name: &[u8]) -> bool
    ensures { result ≡ bytes_eq word.now name.now }
{
    word == name
}

/// What is due where so many values are left of an option.
fn values_behind(count: u8) -> Stage
    ensures { result ≡ values_behind count }
{
    if count > 0 {
        Stage::Values(count)
    } else {
        Stage::Option
    }
}

/// The same of an option without effect.
fn idle_behind(count: u8) -> Stage
    ensures { result ≡ idle_behind count }
{
    if count > 0 {
        Stage::IdleValues(count)
    } else {
        Stage::Option
    }
}

/// A word that can't be followed.
fn refused(place: usize, trouble: Trouble) -> Result<Step, WordFault>
    ensures { result ≡ refused place trouble }
{
    Err(WordFault { place, trouble })
}

impl Reading {
    /// Nothing was read.
    pub(crate) fn start() -> Reading
        ensures { result ≡ start }
    {
        Reading {
            stage: Stage::Option,
            has_number: false,
            is_further: false,
            lacks_number: false,
            is_verbose: false,
            of_set: None,
            file: None,
        }
    }

    /// The same, with this due.
    fn due(self, stage: Stage) -> Reading
        ensures { result ≡ due self stage }
    {
        Reading { stage, ..self }
    }

    /// The step to the same with this due, by a word that adds this.
    fn kept(self, stage: Stage, piece: Piece) -> Result<Step, WordFault>
        ensures { result ≡ kept self stage piece }
    {
        Ok(Step {
            next: self.due(stage),
            piece,
        })
    }

    /// The place of the first option of the first set alone, where one stands at this place.
    fn of_set_from(self, place: usize, is_of_set: bool) -> Option<usize>
        ensures { result ≡ of_set_from self place is_of_set }
    {
        match self.of_set {
            Some(first) => Some(first),
            None => {
                if is_of_set && self.has_number {
                    Some(place)
                } else {
                    None
                }
            }
        }
    }

    /// The same with an option at this place, which others may take as one of its set alone.
    fn marked(self, place: usize, is_of_set: bool) -> Reading
        ensures { result ≡ marked self place is_of_set }
    {
        Reading {
            of_set: self.of_set_from(place, is_of_set),
            ..self
        }
    }

    /// An option begins that has an effect.
    fn begin_own(self, place: usize, option: OwnOption) -> Result<Step, WordFault>
        ensures { result ≡ begin_own self place option }
    {
        if self.is_further {
            return refused(place, Trouble::InFront);
        }
        self.marked(place, option.is_of_set())
            .kept(values_behind(option.value_count()), Piece::Name(option))
    }

    /// A variable is to be handed on or set.
    fn begin_variable(self, place: usize) -> Result<Step, WordFault>
        ensures { result ≡ begin_variable self place }
    {
        if self.is_further {
            return refused(place, Trouble::InFront);
        }
        self.marked(place, true)
            .kept(Stage::Variable, Piece::Nothing)
    }

    /// The number of processes is due.
    fn begin_number(self, place: usize) -> Result<Step, WordFault>
        ensures { result ≡ begin_number self place }
    {
        if self.has_number {
            return refused(place, Trouble::Again);
        }
        self.kept(Stage::Number, Piece::Number)
    }

    /// The name of a file of sets is due.
    fn begin_file(self, place: usize) -> Result<Step, WordFault>
        ensures { result ≡ begin_file self place }
    {
        if self.is_further || self.has_number {
            return refused(place, Trouble::InFront);
        }
        self.kept(Stage::File, Piece::Nothing)
    }

    /// A program begins.
    fn begin_program(self) -> Result<Step, WordFault>
        ensures { result ≡ begin_program self }
    {
        let begun = Reading {
            lacks_number: self.lacks_number || !self.has_number,
            ..self
        };
        if self.has_number {
            begun.kept(Stage::Argument, Piece::OfSet)
        } else {
            begun.kept(Stage::Argument, Piece::Program)
        }
    }

    /// A further set begins.
    fn begin_set(self) -> Result<Step, WordFault>
        ensures { result ≡ begin_set self }
    {
        if let Some(first) = self.of_set {
            return refused(first, Trouble::InFront);
        }
        let begun = Reading {
            has_number: false,
            is_further: true,
            ..self
        };
        begun.kept(Stage::Option, Piece::OfSet)
    }

    /// What was read with this where an option may stand.
    fn at_option(self, place: usize, symbol: Symbol) -> Result<Step, WordFault>
        ensures { result ≡ at_option self place symbol }
    {
        match symbol {
            Symbol::Own(option) => self.begin_own(place, option),
            Symbol::Idle(count) => self.kept(idle_behind(count), Piece::Idle),
            Symbol::Count => self.begin_number(place),
            Symbol::Export => self.begin_variable(place),
            Symbol::Verbose => {
                let told = Reading {
                    is_verbose: true,
                    ..self
                };
                told.kept(Stage::Option, Piece::Nothing)
            }
            Symbol::File => self.begin_file(place),
            Symbol::OptionsEnd => self.kept(Stage::Program, Piece::Nothing),
            Symbol::Usage => refused(place, Trouble::Usage),
            Symbol::Version => refused(place, Trouble::Version),
            Symbol::Separator => refused(place, Trouble::Program),
            Symbol::Joined => refused(place, Trouble::Joined),
            Symbol::Unknown => refused(place, Trouble::NoOption),
            Symbol::Program => self.begin_program(),
        }
    }

    /// What was read with a word behind the program.
    fn at_argument(self, word: &[u8]) -> Result<Step, WordFault>
        ensures { result ≡ at_argument self word.now }
    {
        if is(word, b":") {
            return self.begin_set();
        }
        self.kept(Stage::Argument, Piece::OfSet)
    }

    /// What was read with one more word, which stands at this place, and what that adds; else why it can't be followed.
    #[tactic(auto, unfolding(crate::specs::Steps::step))]
    pub(crate) fn step(self, place: usize, word: &[u8]) -> Result<Step, WordFault>
        ensures { result ≡ step self place word.now }
    {
        match self.stage {
            Stage::Option => self.at_option(place, symbol_of(word)),
            Stage::Values(count) => self.kept(values_behind(count.saturating_sub(1)), Piece::Value),
            Stage::IdleValues(count) => {
                self.kept(idle_behind(count.saturating_sub(1)), Piece::Nothing)
            }
            Stage::Number => {
                let numbered = Reading {
                    has_number: true,
                    ..self
                };
                numbered.kept(Stage::Option, Piece::OfSet)
            }
            Stage::Variable => self.kept(Stage::Option, Piece::Variable),
            Stage::File => {
                let named = Reading {
                    file: Some(place),
                    ..self
                };
                named.kept(Stage::Nothing, Piece::Nothing)
            }
            Stage::Nothing => refused(place, Trouble::Further),
            Stage::Program => self.begin_program(),
            Stage::Argument => self.at_argument(word),
        }
    }

    /// Whether the words may end here.
    pub(crate) fn is_whole(self) -> bool
        ensures { result ≡ is_whole self }
    {
        !matches!(
            self.stage,
            Stage::Values(_) | Stage::IdleValues(_) | Stage::Variable | Stage::File
        )
    }
}
