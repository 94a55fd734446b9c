//! Datagrams that were mutated come to a rank in the middle of traffic: bits are flipped, two are spliced, lengths and
//! fields are others, and all have the job's number, or had it. Each is taken or refused, and what is refused changes
//! nothing: an engine beside it, which gets only what was taken, shows the same in all that follows.
//!
//! `mutated_datagrams COUNT SEED [counts]`: how many mutated datagrams come, and where chance begins. Prints whether
//! some were taken and by which numbers some were refused, with `counts` how many. Status 0, 1 where an engine showed
//! otherwise than it is to, or memory was wanting, and 2 where the words aren't these.
#![tactic(auto)]

mod calls;
mod chance;
mod game;
mod mutations;
mod shown;
mod tally;
mod watched;

use crate::game::{Fault, Game, new_game};
use crate::tally::Tally;
use std::alloc::Global;
use std::process::ExitCode;
use std::rt::Env;
use std::{env, io};

/// How many mutated datagrams come in one game.
const OF_A_GAME: u64 = 400;

/// What the program is asked for.
#[derive(Clone, Copy)]
struct Words {
    count: u64,
    seed: u64,
    counts: bool,
}

/// What the words ask for.
fn words_of(rt: &(impl Env + AllocGlobal)) -> Option<Words> {
    let mut words = env::args(rt).ok()?;
    let count = words.nth(1)?.as_str().parse::<u64>().ok()?;
    let seed = words.next()?.as_str().parse::<u64>().ok()?;
    let counts = words.next().is_some();
    Some(Words {
        count,
        seed,
        counts,
    })
}

/// So many mutated datagrams come in a game.
fn play(game: &mut Game, count: u64, tally: &mut Tally) -> Result<(), Fault> {
    for _turn in 0..count {
        game.go_on()?;
        match game.strike()? {
            Some(struck) => tally.count(struck),
            None => {}
        }
    }
    Ok(())
}

/// A game of this seed, with so many turns.
fn play_new(alloc: Global, seed: u64, count: u64, tally: &mut Tally) -> Result<(), Fault> {
    match new_game(alloc, seed) {
        Some(mut game) => {
            let played = play(&mut game, count, tally);
            drop(game);
            played
        }
        None => Err(Fault::OutOfMemory),
    }
}

/// Games of so many mutated datagrams in all; at a fault, the seed of its game.
fn play_all(alloc: Global, words: &Words, tally: &mut Tally) -> Result<(), (Fault, u64)> {
    let mut seed = words.seed;
    let mut left = words.count;
    for _game in 0..words.count {
        if left == 0 {
            break;
        }
        let count = left.min(OF_A_GAME);
        if let Err(fault) = play_new(alloc, seed, count, tally) {
            return Err((fault, seed));
        }
        seed = seed.wrapping_add(1);
        left = left.saturating_sub(count);
    }
    Ok(())
}

/// Plays, prints what became of the datagrams, and answers the status.
fn run(rt: &(impl Print + AllocGlobal), words: &Words) -> io::Result<u8> {
    let mut tally = Tally::new();
    match play_all(rt.alloc(), words, &mut tally) {
        Ok(()) => {
            tally.print(rt, words.counts)?;
            Ok(0)
        }
        Err((Fault::Unlike, seed)) => {
            println!(rt; "an engine showed otherwise than it is to, in the game of seed {seed}")?;
            Ok(1)
        }
        Err((Fault::OutOfMemory, _)) => {
            println!(rt; "memory was wanting")?;
            Ok(1)
        }
    }
}

fn main(rt: HostRuntime) -> io::Result<ExitCode> {
    match words_of(&rt) {
        Some(words) => Ok(ExitCode::from(run(&rt, &words)?)),
        None => {
            println!(rt; "usage: mutated_datagrams COUNT SEED [counts]")?;
            Ok(ExitCode::from(2))
        }
    }
}
