//! What a process of the launcher is to do: launch all ranks, or keep one of them.

ghost use Rattle.std.specs.Prelude.{◌≡◌, ◌≤◌, ◌∷◌, ◌++◌, [], ℕ, List, Some, IfSome, IfOk, OnOk, codes};
ghost use Rattle.std.specs.Fmt.{decimal};
ghost use Rattle.std.specs.Str.{bytes_eq};
ghost use Rattle.launch_keeper.specs.Words.{Word};
ghost use Rattle.launch_keeper.specs.Roles.{keeper_words, kept_text, kept_of};

use crate::word::Word;
use crate::words::Words;
use numerals::number_between;
use std::alloc::{AllocError, Global};
use vocabulary::MOST_RANKS;

/// The first word of a keeper.
const KEEPER: &[u8] = b"-keeper";

/// The greatest rank of a launch.
const GREATEST_RANK: u64 = MOST_RANKS as u64 - 1;

/// What a keeper's words say: the rank that it keeps, and the words of the launch.
#[derive(Clone, Copy)]
pub struct KeeperRole<'a> {
    /// The rank, 0 to 1,023.
    pub rank: u16,
    /// The words of the launch.
    pub words: &'a [Word],
}

fn is_keeper(word: &[u8]) -> bool
    ensures { result ≡ bytes_eq word.now (codes "-keeper") }
{
    word == KEEPER
}

/// Adds the word `-keeper` and the rank.
fn push_rank(alloc: Global, words: &mut Words, rank: u16) -> Result<(), AllocError>
    ensures { OnOk result (words.new ≡ words.old ++ codes "-keeper" ∷ decimal rank ∷ []) }
{
    words.push(Word::from_slice(alloc, KEEPER)?)?;
    words.push(Word::from_number(alloc, u64::from(rank))?)?;
    Ok(())
}

/// The words that start the keeper of a rank in a launch with these words: `-keeper`, the rank, and
/// the words of the launch. Only want of memory is an error.
pub fn keeper_words(alloc: Global, rank: u16, words: &[Word]) -> Result<Words, AllocError>
    ensures { IfOk result (λ all. all ≡ keeper_words rank words.now) }
{
    let mut all = Words::new(alloc);
    push_rank(alloc, &mut all, rank)?;
    all.extend(alloc, words)?;
    Ok(all)
}

#[tactic(auto, unfolding(crate::specs::Roles::kept_of))]
fn kept_of(words: &[Word]) -> Option<KeeperRole<'_>>
    ensures { kept_text result ≡ kept_of words.now }
{
    let Some((first, others)) = words.split_first() else {
        return None;
    };
    let Some((number, rest)) = others.split_first() else {
        return None;
    };
    if !is_keeper(first.as_bytes()) {
        return None;
    }
    match number_between(number.as_bytes(), 0, GREATEST_RANK) {
        Some(rank) => Some(KeeperRole {
            rank: rank as u16,
            words: rest,
        }),
        None => None,
    }
}

/// Which rank a process with these words keeps, and in which launch; `None` where they aren't a
/// keeper's. It takes no memory.
pub fn kept_rank(words: &[Word]) -> Option<KeeperRole<'_>>
    ensures found { IfSome result (λ kept. words.now ≡ keeper_words kept.rank kept.words.now) }
    ensures only { (rank : ℕ) (rest : List Word) → rank ≤ 1023 → words.now ≡ keeper_words rank rest
        → kept_text result ≡ Some (record { rank = rank; words = rest }) }
{
    kept_of(words)
}
