//! What a line asks for, by its words.

ghost use Rattle.std.specs.Prelude.{◌≡◌, ◌≤◌};
ghost use Rattle.tokens.specs.Results.{Gives};
ghost use Rattle.event_files.specs.LineWords.{delivery_of, tick_of, stray_of, restart_of, act_of, statement_of, size_of};

use crate::file::EventStatement;
use crate::hexadecimal::bytes_of;
use crate::verb::{EventVerb, verb_of};
use statements::action_of;
use std::alloc::Global;
use tokens::{LineError, Token, end_of_line, first, is, number_or, number_up_to, rank_of, require};

/// `D`
#[tactic(auto, unfolding(crate::specs::LineWords::delivery_of))]
fn delivery_of(words: &[Token]) -> Result<EventStatement, LineError>
    ensures { Gives (λ x. x) result (delivery_of words.now) }
{
    let (datagram, rest) = first(words)?;
    end_of_line(rest)?;
    let datagram = require(number_or(datagram, u64::MAX))?;
    Ok(EventStatement::Deliver(datagram as usize))
}

/// `R NOW`
#[tactic(auto, unfolding(crate::specs::LineWords::tick_of))]
fn tick_of(words: &[Token]) -> Result<EventStatement, LineError>
    ensures { Gives (λ x. x) result (tick_of words.now) }
{
    let (rank, rest) = first(words)?;
    let (now, rest) = first(rest)?;
    end_of_line(rest)?;
    let rank = rank_of(rank)?;
    let now = require(number_up_to(now, u64::MAX))?;
    Ok(EventStatement::Tick(rank, now))
}

/// `R HEX`
#[tactic(auto, unfolding(crate::specs::LineWords::stray_of))]
fn stray_of(alloc: Global, words: &[Token]) -> Result<EventStatement, LineError>
    ensures { Gives (λ x. x) result (stray_of words.now) }
{
    let (rank, rest) = first(words)?;
    let (bytes, rest) = first(rest)?;
    end_of_line(rest)?;
    let rank = rank_of(rank)?;
    Ok(EventStatement::Stray(rank, bytes_of(alloc, bytes)?))
}

/// `R`
#[tactic(auto, unfolding(crate::specs::LineWords::restart_of))]
fn restart_of(words: &[Token]) -> Result<EventStatement, LineError>
    ensures { Gives (λ x. x) result (restart_of words.now) }
{
    let (rank, rest) = first(words)?;
    end_of_line(rest)?;
    Ok(EventStatement::Restart(rank_of(rank)?))
}

/// What the rank of this word does.
#[tactic(auto, unfolding(crate::specs::LineWords::act_of))]
fn act_of(alloc: Global, rank: &[u8], words: &[Token]) -> Result<EventStatement, LineError>
    ensures { Gives (λ x. x) result (act_of rank.now words.now) }
{
    let rank = rank_of(rank)?;
    Ok(EventStatement::Rank(rank, action_of(alloc, words)?))
}

/// What a line asks for, by its words.
#[tactic(auto, unfolding(crate::specs::LineWords::statement_of))]
pub(crate) fn statement_of(alloc: Global, words: &[Token]) -> Result<EventStatement, LineError>
    ensures { Gives (λ x. x) result (statement_of words.now) }
{
    let (word, rest) = first(words)?;
    match verb_of(word) {
        None => act_of(alloc, word, rest),
        Some(EventVerb::Deliver) => delivery_of(rest),
        Some(EventVerb::Tick) => tick_of(rest),
        Some(EventVerb::Stray) => stray_of(alloc, rest),
        Some(EventVerb::Restart) => restart_of(rest),
    }
}

/// `world N`: how many ranks the world has.
#[tactic(auto, unfolding(crate::specs::LineWords::size_of))]
pub(crate) fn size_of(words: &[Token]) -> Result<u16, LineError>
    ensures { Gives (λ x. x) result (size_of words.now) }
{
    let (verb, rest) = first(words)?;
    let (size, rest) = first(rest)?;
    end_of_line(rest)?;
    if !is(verb, b"world") {
        return Err(LineError::Faulty);
    }
    match number_up_to(size, 1_024) {
        Some(size) if size > 0 => Ok(size as u16),
        _ => Err(LineError::Faulty),
    }
}
