//! Numbers in words.

ghost use Rattle.std.specs.Prelude.{◌≡◌, ◌≤◌, ◌<◌, ◌^◌, ◌↔◌, IsTrue, IfSome};
ghost use Rattle.std.specs.Option.{SomeIff};
ghost use Rattle.std.specs.Str.{all_ascii_digits};
ghost use Rattle.std.specs.Str.Parse.{digits_value};
ghost use Rattle.numerals.specs.Numbers.{is_numeral, number_between};

use std::str;

fn are_digits(word: &[u8]) -> bool
    ensures { result ≡ all_ascii_digits word.now }
{
    for b in word {
        if !b.is_ascii_digit() {
            return false;
        }
    }
    true
}

/// Whether the word is decimal digits, at least one, without leading zeros.
pub fn is_numeral(word: &[u8]) -> bool
    ensures { result ≡ is_numeral word.now }
{
    if word.is_empty() {
        return false;
    }
    if word[0] == b'0' && word.len() > 1 {
        return false;
    }
    are_digits(word)
}

/// The number that a numeral stands for, where 64 bits hold it.
pub fn numeral_value(word: &[u8]) -> Option<u64>
    requires { IsTrue (is_numeral word.now) }
    ensures { SomeIff result (digits_value 10 word.now < 2 ^ 64) (digits_value 10 word.now) }
{
    match str::from_utf8(word) {
        Ok(text) => text.parse::<u64>().ok(),
        Err(_) => None,
    }
}

/// The number that the word spells in decimal digits without leading zeros, where it lies between
/// the two bounds, themselves included.
#[tactic(auto, unfolding(crate::specs::Numbers::number_between))]
pub fn number_between(word: &[u8], low: u64, high: u64) -> Option<u64>
    ensures exact { result ≡ number_between word.now low high }
    ensures low { IfSome result (λ n. low ≤ n) }
    ensures high { IfSome result (λ n. n ≤ high) }
{
    if !is_numeral(word) {
        return None;
    }
    let number = numeral_value(word)?;
    if low <= number && number <= high {
        Some(number)
    } else {
        None
    }
}
