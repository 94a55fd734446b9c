//! The elements of a buffer.

ghost use Rattle.std.specs.Prelude.{◌≡◌, ◌<◌, IfOk, IfSome};
ghost use Rattle.std.specs.List.{position};
ghost use Rattle.datatypes.specs.Elements.{numbers_of};
ghost use Rattle.statements.specs.LineWords.{value_of, is_star, copies_of, buffer_with, float_in, float_of, integer_of};
ghost use Rattle.std.specs.Float.Ieee.{binary32, binary64};
ghost use Rattle.tokens.specs.Results.{Gives};

use datatypes::{Buffer, number_of};
use std::alloc::Global;
use std::num::{f32_to_bits_with_nan, f64_to_bits_with_nan};
use tokens::{LineError, Token, number_up_to, numeral_of, require};
use vocabulary::BasicType;

/// The element of integers or bytes that the word spells.
fn integer_of(basic: BasicType, word: &[u8]) -> Option<u64>
    ensures exact { result ≡ integer_of basic word.now }
    ensures within { IfSome result (λ number. number < numbers_of basic) }
{
    if !word.is_empty() && word[0] == b'-' {
        let (_, digits) = word.split_at(1);
        let magnitude = number_up_to(digits, u64::MAX)?;
        number_of(basic, true, magnitude)
    } else {
        let magnitude = number_up_to(word, u64::MAX)?;
        number_of(basic, false, magnitude)
    }
}

fn star_place(word: &[u8]) -> Option<usize>
    ensures { result ≡ position is_star word.now }
{
    word.iter().position(|byte| *byte == b'*')
}

/// The bits of the float of eight bytes that is nearest to what the word says.
fn float_64(word: &[u8]) -> Option<u64>
    ensures { result ≡ float_in binary64 word.now }
{
    match fast_float::parse::<f64, &[u8]>(word) {
        Ok(value) => Some(f64_to_bits_with_nan(value)),
        Err(_) => None,
    }
}

/// The bits of the float of four bytes that is nearest to what the word says.
fn float_32(word: &[u8]) -> Option<u32>
    ensures { result ≡ float_in binary32 word.now }
{
    match fast_float::parse::<f32, &[u8]>(word) {
        Ok(value) => Some(f32_to_bits_with_nan(value)),
        Err(_) => None,
    }
}

/// The float that the word spells.
fn float_of(basic: BasicType, word: &[u8]) -> Option<u64>
    ensures exact { result ≡ float_of basic word.now }
    ensures within { IfSome result (λ number. number < numbers_of basic) }
{
    match (basic, star_place(word)) {
        (BasicType::Float32, None) => match float_32(word) {
            Some(number) => Some(u64::from(number)),
            None => None,
        },
        (BasicType::Float64, None) => float_64(word),
        _ => None,
    }
}

/// The element that the word spells.
#[tactic(auto, unfolding(crate::specs::LineWords::value_of))]
fn value_of(basic: BasicType, word: &[u8]) -> Option<u64>
    ensures exact { result ≡ value_of basic word.now }
    ensures within { IfSome result (λ number. number < numbers_of basic) }
{
    if basic.is_float() {
        float_of(basic, word)
    } else {
        integer_of(basic, word)
    }
}

/// How many copies, and of which element.
#[tactic(auto, unfolding(crate::specs::LineWords::copies_of))]
fn copies_of(basic: BasicType, word: &[u8]) -> Result<(u64, u64), LineError>
    ensures exact { Gives (λ x. x) result (copies_of basic word.now) }
    ensures within { IfOk result (λ copies. copies.1 < numbers_of basic) }
{
    let Some(place) = star_place(word) else {
        let number = required_value(basic, word)?;
        return Ok((1, number));
    };
    let (count, back) = word.split_at(place);
    let (_, value) = back.split_at(1);
    let number = required_value(basic, value)?;
    let count = numeral_of(count)?;
    Ok((count, number))
}

fn required_value(basic: BasicType, word: &[u8]) -> Result<u64, LineError>
    ensures exact { Gives (λ x. x) result (value_of basic word.now) }
    ensures within { IfOk result (λ number. number < numbers_of basic) }
{
    require(value_of(basic, word))
}

/// The buffer of the elements that the words spell.
pub(crate) fn buffer_with(
    alloc: Global,
    basic: BasicType,
    words: &[Token],
) -> Result<Buffer, LineError>
    ensures { Gives (λ x. x) result (buffer_with basic words.now) }
{
    let mut buffer = Buffer::new(alloc, basic);
    for word in words {
        let (count, number) = copies_of(basic, word.as_bytes())?;
        buffer.push_copies(number, count as usize)?;
    }
    Ok(buffer)
}
