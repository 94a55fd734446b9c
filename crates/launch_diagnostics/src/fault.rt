//! Where words are at fault.

ghost use Rattle.std.specs.Prelude.{◌≡◌, ◌≤◌, length, None, Some, IfSome, MatchOption};
ghost use Rattle.std.specs.Option.{option_copied};
ghost use Rattle.launch_diagnostics.specs.Places.{rule_of, refusal_of, IsSettled, place_by, IsPlaced, IsFault};

use launch_keeper::Word;
use launch_plan::planning::plan;
use launch_plan::{LaunchRefusal, config_name};
use std::alloc::Global;

/// Where the words of a launch are at fault.
#[derive(Clone, Copy, Debug, PartialEq, Eq)]
pub struct LaunchFault {
    /// Why the words are refused.
    pub refused: LaunchRefusal,
    /// The least number of words from which on all longer fronts of the words are refused so too.
    pub settled: usize,
    /// How many words stand in front of the word at fault; all of them where a word is missing behind them. Where the
    /// limits are exceeded (57), those in front of the word with which they are.
    pub place: usize,
}

/// The refusal where it is a rule's, and not want of memory.
fn rule_of(refused: LaunchRefusal) -> Option<LaunchRefusal>
    ensures { result ≡ rule_of refused }
{
    match refused {
        LaunchRefusal::OutOfMemory => None,
        _ => Some(refused),
    }
}

/// The rule by which `plan` refuses these words.
#[tactic(auto, using(crate::proofs::PlaceLaws::rule_broken, crate::proofs::PlaceLaws::no_rule_broken))]
pub(crate) fn refusal_of(
    alloc: Global,
    words: &[Word],
    config: Option<&[u8]>,
) -> Option<LaunchRefusal>
    ensures { result ≡ refusal_of words.now (option_copied config.entry) }
{
    match plan(alloc, words, config) {
        Ok(_) => None,
        Err(refused) => rule_of(refused),
    }
}

/// The least number of words from which on all longer fronts of the words have this refusal.
fn settling_length(
    alloc: Global,
    words: &[Word],
    config: Option<&[u8]>,
    refused: LaunchRefusal,
) -> usize
    requires { refusal_of words.now (option_copied config) ≡ Some refused }
    ensures { IsSettled words.now (option_copied config.entry) refused result }
{
    let mut settled = words.len();
    while settled > 0 {
        if refusal_of(alloc, &words[..settled - 1], config) != Some(refused) {
            return settled;
        }
        settled -= 1;
    }
    settled
}

/// How many words stand in front of the word at fault, where so many words settle the refusal and name no file. A
/// missing word is missing behind those that settle it; any other fault is that of the last of them.
fn place_by(refused: LaunchRefusal, settled: usize) -> usize
    ensures exact { result ≡ place_by refused settled }
    ensures within { result ≤ settled }
{
    match refused {
        LaunchRefusal::NoSet | LaunchRefusal::WrongValue | LaunchRefusal::NoProgram => settled,
        _ => settled.saturating_sub(1),
    }
}

/// How many words stand in front of the word at fault, where so many words settle the refusal. A fault of a
/// configuration file is one of its name.
fn place(words: &[Word], refused: LaunchRefusal, settled: usize) -> usize
    requires { settled ≤ length words.now }
    ensures exact { IsPlaced words.now refused settled result }
    ensures within { result ≤ settled }
{
    match config_name(&words[..settled]) {
        Some(_) => settled.saturating_sub(1),
        None => place_by(refused, settled),
    }
}

/// Where the words of a launch are at fault; `None` where `plan` refuses them by no rule. `config` is what the
/// configuration file holds that they name, or `None` where it can't be read.
///
/// A front of the words is judged as if it were all of them, so what is told is of `plan` itself: from the word at
/// fault on, whatever of the words stands behind, the refusal is the same. The time grows with the words behind the
/// fault times those in front.
pub fn fault_place(alloc: Global, words: &[Word], config: Option<&[u8]>) -> Option<LaunchFault>
    // It is the word from which on the refusal stays.
    ensures exact { MatchOption result (refusal_of words.now (option_copied config.entry) ≡ None)
        (λ fault. IsFault words.now (option_copied config.entry) fault) }
    // No more words stand in front of it than there are.
    ensures within { IfSome result (λ fault. fault.place ≤ length words.now) }
{
    let refused = refusal_of(alloc, words, config)?;
    let settled = settling_length(alloc, words, config, refused);
    Some(LaunchFault {
        refused,
        settled,
        place: place(words, refused, settled),
    })
}
