//! The sets of the words, one after the other.

ghost use Rattle.std.specs.Prelude.{◌≡◌, map, IfOk};
ghost use Rattle.std.specs.List.{slice_split};
ghost use Rattle.launch_plan.specs.Symbols.{is_separator};
ghost use Rattle.launch_plan.specs.Results.{Gives, HasNoFault};
ghost use Rattle.launch_plan.specs.Sets.{each_set, sets_of};

use crate::process_set::{ProcessSet, set_of};
use crate::refusal::LaunchRefusal;
use crate::symbol::is_separator;
use launch_keeper::Word;
use std::alloc::{AllocError, Global};

/// What each of these lists of words asks for, where none has a fault.
pub(crate) fn each_set(alloc: Global, lines: &[&[Word]]) -> Result<Vec<ProcessSet>, LaunchRefusal>
    requires { HasNoFault (each_set (map (λ line. line.now) lines.now)) }
    ensures { Gives (λ sets. sets.items) result (each_set (map (λ line. line.now) lines.now)) }
{
    let mut sets = Vec::new(alloc);
    for line in lines {
        let set = set_of(alloc, line)?;
        sets.push(set)?;
    }
    Ok(sets)
}

fn parts(alloc: Global, words: &[Word]) -> Result<Vec<&[Word]>, AllocError>
    ensures { IfOk result
        (λ parts. map (λ part. part.now) parts.items ≡ slice_split is_separator words.now) }
{
    words
        .split(|word| is_separator(word.as_bytes()))
        .collect(alloc)
}

/// What the sets ask for, which stand apart by words `:`, where none has a fault.
pub(crate) fn sets_of(alloc: Global, words: &[Word]) -> Result<Vec<ProcessSet>, LaunchRefusal>
    requires { HasNoFault (sets_of words.now) }
    ensures { Gives (λ sets. sets.items) result (sets_of words.now) }
{
    each_set(alloc, &parts(alloc, words)?)
}
