//! The words of a line from left to right, and what a word stands for whatever the line says.

ghost use Rattle.std.specs.Prelude.{◌≡◌, IfErr};
ghost use Rattle.tokens.specs.Fields.{first, end_of_line, name_of, rank_of, large_of};
ghost use Rattle.tokens.specs.Results.{Gives};

use crate::fault::LineError;
use crate::name::{Name, is_name};
use crate::number::number_or;
use crate::token::Token;
use std::alloc::Global;

/// A value that has to be there; where it isn't, the line is faulty.
pub fn require<T>(value: Option<T>) -> Result<T, LineError>
    ensures gives { Gives (λ x. x) result value }
    ensures err { IfErr result (λ e. e ≡ LineError.Faulty) }
{
    match value {
        Some(value) => Ok(value),
        None => Err(LineError::Faulty),
    }
}

/// The first word, and the words behind it.
#[tactic(auto, unfolding(crate::specs::Fields::first))]
pub fn first(words: &[Token]) -> Result<(&[u8], &[Token]), LineError>
    ensures gives { Gives (λ x. (x.0.now, x.1.now)) result (first words.now) }
    ensures err { IfErr result (λ e. e ≡ LineError.Faulty) }
{
    match words.split_first() {
        Some((word, rest)) => Ok((word.as_bytes(), rest)),
        None => Err(LineError::Faulty),
    }
}

/// Nothing more may stand in the line.
#[tactic(auto, unfolding(crate::specs::Fields::end_of_line))]
pub fn end_of_line(words: &[Token]) -> Result<(), LineError>
    ensures gives { Gives (λ x. x) result (end_of_line words.now) }
    ensures err { IfErr result (λ e. e ≡ LineError.Faulty) }
{
    if words.is_empty() {
        Ok(())
    } else {
        Err(LineError::Faulty)
    }
}

/// The name that the word is.
#[tactic(auto, unfolding(crate::specs::Fields::name_of))]
pub fn name_of(alloc: Global, word: &[u8]) -> Result<Name, LineError>
    ensures { Gives (λ x. x) result (name_of word.now) }
{
    if !is_name(word) {
        return Err(LineError::Faulty);
    }
    Ok(Name::from_slice(alloc, word)?)
}

/// A rank; one that 16 bits don't hold stands as the greatest number that they hold.
#[tactic(auto, unfolding(crate::specs::Fields::rank_of))]
pub fn rank_of(word: &[u8]) -> Result<u16, LineError>
    ensures gives { Gives (λ x. x) result (rank_of word.now) }
    ensures err { IfErr result (λ e. e ≡ LineError.Faulty) }
{
    match number_or(word, 65_535) {
        Some(rank) => Ok(rank as u16),
        None => Err(LineError::Faulty),
    }
}

/// A number that 64 bits don't hold stands as the greatest that they hold.
#[tactic(auto, unfolding(crate::specs::Fields::large_of))]
pub fn large_of(word: &[u8]) -> Result<u64, LineError>
    ensures gives { Gives (λ x. x) result (large_of word.now) }
    ensures err { IfErr result (λ e. e ≡ LineError.Faulty) }
{
    require(number_or(word, u64::MAX))
}
