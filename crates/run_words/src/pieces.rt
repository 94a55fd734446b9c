//! What each word adds to the own words.

ghost use Rattle.std.specs.Prelude.{◌≡◌, ◌++◌, OnOk};
ghost use Rattle.run_words.specs.Pieces.{counted, option_piece, set_piece};

use crate::steps::Piece;
use crate::variables::{Variable, push_bytes, push_variable};
use launch_keeper::{Word, Words};
use std::alloc::{AllocError, Global};

/// Adds to the options what a word adds to them; a variable without a value has that of these variables.
pub(crate) fn push_option_piece(
    alloc: Global,
    options: &mut Words,
    variables: &[Variable],
    piece: Piece,
    word: &[u8],
) -> Result<(), AllocError>
    ensures { OnOk result (options.new ≡ options.old ++ option_piece variables.now piece word.now) }
{
    match piece {
        Piece::Name(option) => push_bytes(alloc, options, option.name()),
        Piece::Value => push_bytes(alloc, options, word),
        Piece::Variable => push_variable(alloc, options, variables, word),
        _ => Ok(()),
    }
}

/// Adds a program with a number of processes.
fn push_program(
    alloc: Global,
    sets: &mut Words,
    count: u16,
    program: &[u8],
) -> Result<(), AllocError>
    ensures { OnOk result (sets.new ≡ sets.old ++ counted count program.now) }
{
    push_bytes(alloc, sets, b"-n")?;
    sets.push(Word::from_number(alloc, u64::from(count))?)?;
    push_bytes(alloc, sets, program)
}

/// Adds to the sets what a word adds to them; a program without a number of processes gets this one.
pub(crate) fn push_set_piece(
    alloc: Global,
    sets: &mut Words,
    count: u16,
    piece: Piece,
    word: &[u8],
) -> Result<(), AllocError>
    ensures { OnOk result (sets.new ≡ sets.old ++ set_piece count piece word.now) }
{
    match piece {
        Piece::Number => push_bytes(alloc, sets, b"-n"),
        Piece::OfSet => push_bytes(alloc, sets, word),
        Piece::Program => push_program(alloc, sets, count, word),
        _ => Ok(()),
    }
}
