//! Which words may stand for what a form names in capitals.

use numerals::is_numeral;
use std::alloc::Global;
use tokens::{basic_type_of, is, name_of};

/// The names of the operations of a reduction.
const OPERATIONS: [&str; 11] = [
    "max", "min", "sum", "prod", "land", "lor", "lxor", "band", "bor", "bxor", "affine",
];

fn is_name(alloc: Global, word: &[u8]) -> bool {
    name_of(alloc, word).is_ok()
}

/// Whether the word is a number, with a sign in front or without.
fn is_integer(word: &[u8]) -> bool {
    match word.strip_prefix(b"-") {
        Some(digits) => is_numeral(digits),
        None => is_numeral(word),
    }
}

/// The parts in front of and behind the first such byte.
fn halves(word: &[u8], byte: u8) -> Option<(&[u8], &[u8])> {
    let place = word.iter().position(|one| *one == byte)?;
    let (front, back) = word.split_at(place);
    let (_, back) = back.split_at(1);
    Some((front, back))
}

/// Whether the word is a value, or copies of one.
fn is_value(word: &[u8]) -> bool {
    match halves(word, b'*') {
        Some((copies, value)) => is_numeral(copies) && is_integer(value),
        None => is_integer(word),
    }
}

/// Whether the word is a rank, or one incarnation of it.
fn is_audience(word: &[u8]) -> bool {
    match halves(word, b'.') {
        Some((rank, incarnation)) => is_numeral(rank) && is_numeral(incarnation),
        None => is_numeral(word) || is(word, b"all"),
    }
}

fn is_block(word: &[u8]) -> bool {
    match halves(word, b':') {
        Some((length, place)) => is_numeral(length) && is_numeral(place),
        None => false,
    }
}

fn is_operation(word: &[u8]) -> bool {
    OPERATIONS.iter().any(|name| is(word, name.as_bytes()))
}

/// Whether the word may stand for a rank, a tag or a number.
fn fits_number(place: &[u8], word: &[u8]) -> bool {
    if is(place, b"DEST") {
        is_numeral(word) || is(word, b"null")
    } else if is(place, b"SRC") {
        is_numeral(word) || is(word, b"any") || is(word, b"null")
    } else if is(place, b"TAG") {
        is_numeral(word) || is(word, b"any")
    } else if is(place, b"COLOUR") {
        is_numeral(word) || is(word, b"undefined")
    } else if is(place, b"KEY") {
        is_integer(word)
    } else if is(place, b"V") {
        is_value(word)
    } else if is(place, b"R") {
        is_audience(word)
    } else if is(place, b"LEN:DISP") {
        is_block(word)
    } else {
        is_numeral(word)
    }
}

/// Whether what stands there in the form is a rank, a tag or a number.
fn is_number_place(place: &[u8]) -> bool {
    let places: [&str; 13] = [
        "DEST", "SRC", "TAG", "COLOUR", "KEY", "V", "R", "LEN:DISP", "ROOT", "N", "C", "S", "K",
    ];
    places.iter().any(|name| is(place, name.as_bytes()))
}

/// Whether the word may stand where this stands in a form: a place in capitals, or a word of the statement itself.
pub(crate) fn may_stand(alloc: Global, place: &[u8], word: &[u8]) -> bool {
    if is_number_place(place) {
        fits_number(place, word)
    } else if is(place, b"COMM") {
        is(word, b"world") || is(word, b"self") || is_name(alloc, word)
    } else if is(place, b"TYPE") {
        basic_type_of(word).is_some()
    } else if is(place, b"OLD") {
        basic_type_of(word).is_some() || is_name(alloc, word)
    } else if is(place, b"OP") {
        is_operation(word)
    } else if is(place, b"WORD") {
        true
    } else if is(place, b"Q") {
        is(word, b"null") || is_name(alloc, word)
    } else if place.iter().all(|byte| byte.is_ascii_uppercase()) {
        is_name(alloc, word)
    } else {
        is(place, word)
    }
}
