//! Numbers in words.

ghost use Rattle.std.specs.Prelude.{◌≡◌, ◌≤◌, ◌<◌, ◌^◌, IfSome, IfErr};
ghost use Rattle.std.specs.Str.Parse.{digits_value};
ghost use Rattle.tokens.specs.Numbers.{number_up_to, number_or, count_of};
ghost use Rattle.tokens.specs.Results.{Gives};

use crate::fault::LineError;
use numerals::{is_numeral, numeral_value};

/// The number that the word spells, where it is at most this one.
#[tactic(auto, unfolding(crate::specs::Numbers::number_up_to))]
pub fn number_up_to(word: &[u8], most: u64) -> Option<u64>
    ensures exact { result ≡ number_up_to most word.now }
    ensures most { IfSome result (λ n. n ≤ most) }
{
    if !is_numeral(word) {
        return None;
    }
    let number = numeral_value(word)?;
    if number <= most { Some(number) } else { None }
}

/// The number that the word spells, or this one where it is greater.
#[tactic(auto, unfolding(crate::specs::Numbers::number_or))]
pub fn number_or(word: &[u8], most: u64) -> Option<u64>
    ensures exact { result ≡ number_or most word.now }
    ensures most { IfSome result (λ n. n ≤ most) }
{
    if !is_numeral(word) {
        return None;
    }
    match numeral_value(word) {
        Some(number) if number < most => Some(number),
        _ => Some(most),
    }
}

/// The number that the word spells. One that 64 bits don't hold counts more copies than memory does.
#[tactic(auto, unfolding(crate::specs::Numbers::count_of))]
pub fn numeral_of(word: &[u8]) -> Result<u64, LineError>
    ensures gives { Gives (λ x. x) result (count_of word.now) }
    ensures memory { IfErr result (λ e. e ≡ LineError.OutOfMemory → 2 ^ 64 ≤ digits_value 10 word.now) }
{
    if !is_numeral(word) {
        return Err(LineError::Faulty);
    }
    match numeral_value(word) {
        Some(number) => Ok(number),
        None => Err(LineError::OutOfMemory),
    }
}
