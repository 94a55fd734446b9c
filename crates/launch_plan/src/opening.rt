//! The words before the first set: the launcher's own options, or a configuration file's name.

ghost use Rattle.std.specs.Prelude.{◌≡◌, Some, IfSome};
ghost use Rattle.std.specs.Option.{option_copied};
ghost use Rattle.launch_plan.specs.Options.{nothing_given, opening_of, name_in};
ghost use Rattle.launch_keeper.specs.Words.{Word};
ghost use Rattle.launch_plan.specs.Grammar.{ReachesFile};
ghost use Rattle.launch_plan.specs.Openings.{opening_text};
ghost use Rattle.launch_plan.specs.Results.{GivesExactly};

use crate::given_options::GivenOptions;
use crate::refusal::LaunchRefusal;
use crate::symbol::{Symbol, symbol_of};
use launch_keeper::Word;

/// The own options, and what stands behind them.
#[derive(Clone, Copy)]
pub(crate) struct Opening<'a> {
    /// The own options that were given.
    pub(crate) given: GivenOptions,
    /// The configuration file's name, where `-configfile` stands behind the options.
    pub(crate) file: Option<&'a Word>,
    /// The words after the file's name, or the words of the sets where no file is named.
    pub(crate) rest: &'a [Word],
}

/// Reads the own options, and a configuration file's name behind them, or answers the first fault.
#[tactic(auto, unfolding(crate::specs::Options::opening_of))]
pub(crate) fn opening_of(words: &[Word]) -> Result<Opening<'_>, LaunchRefusal>
    ensures { GivesExactly opening_text result (opening_of nothing_given words.now) }
{
    let mut given = GivenOptions::none();
    let mut rest = words;
    while let Some((word, after)) = rest.split_first() {
        match symbol_of(word.as_bytes()) {
            Symbol::File => {
                let Some((name, others)) = after.split_first() else {
                    return Err(LaunchRefusal::WrongValue);
                };
                return Ok(Opening {
                    given,
                    file: Some(name),
                    rest: others,
                });
            }
            Symbol::Own(option) => {
                if given.has(option) {
                    return Err(LaunchRefusal::WrongOption);
                }
                let Some((value, others)) = after.split_first() else {
                    return Err(LaunchRefusal::WrongValue);
                };
                given = given.with(option, value.as_bytes())?;
                rest = others;
            }
            _ => break,
        }
    }
    Ok(Opening {
        given,
        file: None,
        rest,
    })
}

/// The name of the configuration file, where the words reach one without a fault. It takes no
/// memory.
///
/// MPI 3.1, 8.8 has `-configfile`. The file's faults, and those of the words after its name, are
/// those of `plan`.
pub fn config_name(words: &[Word]) -> Option<&[u8]>
    ensures found { IfSome result (λ name. ReachesFile words.now name.now) }
    ensures only { (name : Word) → ReachesFile words.now name → option_copied result ≡ Some name }
{
    name_of(words)
}

pub(crate) fn name_of(words: &[Word]) -> Option<&[u8]>
    ensures { option_copied result ≡ name_in (opening_of nothing_given words.now) }
{
    match opening_of(words) {
        Ok(opening) => opening.file.map(|name| name.as_bytes()),
        Err(_) => None,
    }
}
