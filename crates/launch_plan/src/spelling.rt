//! The words of a launch in one list, so that a configuration file is read only once.

ghost use Rattle.std.specs.Prelude.{◌≡◌, ◌-◌, ◌++◌, ℕ, List, Option, length, take, IfOk, OnOk};
ghost use Rattle.std.specs.Option.{option_copied};
ghost use Rattle.launch_plan.specs.Launches.{Launch};
ghost use Rattle.launch_plan.specs.Grammar.{AskFor};
ghost use Rattle.launch_plan.specs.Configuration.{lines_of};
ghost use Rattle.launch_plan.specs.WordLists.{sets_behind_colons, sets_joined, spelled_out};

use crate::configuration::lines_of;
use crate::copies::{copy_words, push_bytes};
use crate::opening::name_of;
use launch_keeper::{Word, Words};
use std::alloc::{AllocError, Global};

/// Adds `:` and the words of the line, for each of the lines.
fn push_others(alloc: Global, words: &mut Words, lines: &[Words]) -> Result<(), AllocError>
    ensures { OnOk result (words.new ≡ words.old ++ sets_behind_colons lines.now) }
{
    for line in lines {
        push_bytes(alloc, words, b":")?;
        words.extend(alloc, line.as_slice())?;
    }
    Ok(())
}

/// Adds the words of the lines, with `:` between two lines.
fn push_lines(alloc: Global, words: &mut Words, lines: &[Words]) -> Result<(), AllocError>
    ensures { OnOk result (words.new ≡ words.old ++ sets_joined lines.now) }
{
    let Some((first, others)) = lines.split_first() else {
        return Ok(());
    };
    words.extend(alloc, first.as_slice())?;
    push_others(alloc, words, others)
}

/// Adds the words of the sets of a configuration file.
fn push_sets(alloc: Global, words: &mut Words, bytes: &[u8]) -> Result<(), AllocError>
    ensures { OnOk result (words.new ≡ words.old ++ sets_joined (lines_of bytes.now)) }
{
    push_lines(alloc, words, &lines_of(alloc, bytes)?)
}

/// The words in front of a configuration file's name and option, and the words of its sets.
fn with_sets(alloc: Global, words: &[Word], bytes: &[u8]) -> Result<Words, AllocError>
    ensures { IfOk result (λ all.
        all ≡ take (length words.now - 2) words.now ++ sets_joined (lines_of bytes.now)) }
{
    let (own, _) = words.split_at(words.len().saturating_sub(2));
    let mut all = copy_words(alloc, own)?;
    push_sets(alloc, &mut all, bytes)?;
    Ok(all)
}

fn spelled_by(alloc: Global, words: &[Word], config: Option<&[u8]>) -> Result<Words, AllocError>
    ensures { IfOk result (λ all. all ≡ spelled_out words.now (option_copied config.entry)) }
{
    match (name_of(words), config) {
        (Some(_), Some(bytes)) => with_sets(alloc, words, bytes),
        _ => copy_words(alloc, words),
    }
}

/// The words of a launch with the sets of the configuration file in place of its name: they ask for
/// the same launch, whatever file there is. Words that name none are copied. Only want of memory is
/// an error.
pub fn spelled_out(
    alloc: Global,
    words: &[Word],
    config: Option<&[u8]>,
) -> Result<Words, AllocError>
    ensures same { IfOk result (λ all. (other : Option (List ℕ)) (launch : Launch)
        → AskFor words.now (option_copied config.entry) launch → AskFor all other launch) }
    ensures exact { IfOk result (λ all. all ≡ spelled_out words.now (option_copied config.entry)) }
{
    spelled_by(alloc, words, config)
}
