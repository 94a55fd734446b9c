//! Numbers that their types don't hold.

ghost use Rattle.std.specs.Prelude.{◌≡◌, ◌||◌, is_some};
ghost use Rattle.std.specs.List.{list_any, position};
ghost use Rattle.statements.specs.LineWords.{integer_of, is_star, key_of};
ghost use Rattle.line_diagnostics.specs.Faults.{element_in, has_action_outside, has_element_outside, has_split_outside};
ghost use Rattle.line_diagnostics.specs.Faults.{has_tick_outside, is_colour_outside, is_integer, is_key_outside};
ghost use Rattle.line_diagnostics.specs.Faults.{is_out_of_range};

use datatypes::number_of;
use numerals::is_numeral;
use tokens::{Token, basic_type_of, is, number_up_to};
use vocabulary::BasicType;

/// The greatest colour of a split (MPI 3.1, 6.4.2), as a number of 32 bits.
const GREATEST_COLOUR: u64 = 4_294_967_295;

/// Whether the word is a number, with a sign in front or without.
fn is_integer(word: &[u8]) -> bool
    ensures { result ≡ is_integer word.now }
{
    if !word.is_empty() && word[0] == b'-' {
        let (_, digits) = word.split_at(1);
        is_numeral(digits)
    } else {
        is_numeral(word)
    }
}

/// Whether the word is an element of the type, which is no float's.
fn is_element(basic: BasicType, word: &[u8]) -> bool
    ensures { result ≡ is_some (integer_of basic word.now) }
{
    if !word.is_empty() && word[0] == b'-' {
        let (_, digits) = word.split_at(1);
        match number_up_to(digits, u64::MAX) {
            Some(magnitude) => number_of(basic, true, magnitude).is_some(),
            None => false,
        }
    } else {
        match number_up_to(word, u64::MAX) {
            Some(magnitude) => number_of(basic, false, magnitude).is_some(),
            None => false,
        }
    }
}

fn star_place(word: &[u8]) -> Option<usize>
    ensures { result ≡ position is_star word.now }
{
    word.iter().position(|byte| *byte == b'*')
}

/// `V` of `N*V`, or the whole word.
#[tactic(auto, unfolding(crate::specs::Faults::element_in))]
fn element_in(word: &[u8]) -> &[u8]
    ensures { result.now ≡ element_in word.now }
{
    match star_place(word) {
        Some(place) => {
            let (_, back) = word.split_at(place);
            let (_, element) = back.split_at(1);
            element
        }
        None => word,
    }
}

/// Whether the word is a number, or copies of one, that the type doesn't hold.
#[tactic(auto, unfolding(crate::specs::Faults::is_out_of_range))]
fn is_out_of_range(basic: BasicType, word: &[u8]) -> bool
    ensures { result ≡ is_out_of_range basic word.now }
{
    let element = element_in(word);
    !basic.is_float() && is_integer(element) && !is_element(basic, element)
}

fn is_any_out_of_range(basic: BasicType, words: &[Token]) -> bool
    ensures { result ≡ list_any (is_out_of_range basic) words.now }
{
    for word in words {
        if is_out_of_range(basic, word.as_bytes()) {
            return true;
        }
    }
    false
}

/// Whether an element of `B TYPE V ..` is a number that TYPE doesn't hold.
fn has_element_outside(words: &[Token]) -> bool
    ensures { result ≡ has_element_outside words.now }
{
    match words {
        [_, basic, elements @ ..] => match basic_type_of(basic.as_bytes()) {
            Some(basic) => is_any_out_of_range(basic, elements),
            None => false,
        },
        _ => false,
    }
}

/// Whether the word is a number that is no colour.
fn is_colour_outside(word: &[u8]) -> bool
    ensures { result ≡ is_colour_outside word.now }
{
    is_numeral(word) && number_up_to(word, GREATEST_COLOUR).is_none()
}

/// Whether the word is a key: a number of 32 bits with its sign.
#[tactic(auto, unfolding(statements::specs::LineWords::key_of))]
fn is_key(word: &[u8]) -> bool
    ensures { result ≡ is_some (key_of word.now) }
{
    if !word.is_empty() && word[0] == b'-' {
        let (_, digits) = word.split_at(1);
        number_up_to(digits, 2_147_483_648).is_some()
    } else {
        number_up_to(word, 2_147_483_647).is_some()
    }
}

/// Whether the word is a number that is no key.
fn is_key_outside(word: &[u8]) -> bool
    ensures { result ≡ is_key_outside word.now }
{
    is_integer(word) && !is_key(word)
}

/// Whether one of them is a number that its type doesn't hold.
fn is_either_outside(colour: &[u8], key: &[u8]) -> bool
    ensures { result ≡ (is_colour_outside colour.now || is_key_outside key.now) }
{
    is_colour_outside(colour) || is_key_outside(key)
}

/// Whether a number of `NEW COMM COLOUR KEY` is one that its type doesn't hold.
fn has_split_outside(words: &[Token]) -> bool
    ensures { result ≡ has_split_outside words.now }
{
    match words {
        [_, _, colour, key, ..] => is_either_outside(colour.as_bytes(), key.as_bytes()),
        _ => false,
    }
}

/// Whether the time of `R NOW` is a number that 64 bits don't hold.
pub(crate) fn has_tick_outside(words: &[Token]) -> bool
    ensures { result ≡ has_tick_outside words.now }
{
    match words {
        [_, now, ..] => {
            is_numeral(now.as_bytes()) && number_up_to(now.as_bytes(), u64::MAX).is_none()
        }
        _ => false,
    }
}

/// Whether a number behind this verb of what a rank does is one that its type doesn't hold.
pub(crate) fn has_action_outside(verb: &[u8], words: &[Token]) -> bool
    ensures { result ≡ has_action_outside verb.now words.now }
{
    if is(verb, b"buf") {
        has_element_outside(words)
    } else if is(verb, b"split") {
        has_split_outside(words)
    } else {
        false
    }
}
