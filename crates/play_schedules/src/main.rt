//! Plays a script by schedules, and prints what each rank printed in each play.
//!
//! `play_schedules FILE RANKS SCHEDULES`. Each line of the file SCHEDULES is a schedule: words with spaces between
//! them. `gR`: the runner of rank R goes on; `dN`: datagram N is delivered; `tR`: the clock of rank R shows 100
//! milliseconds for each move before this one. `-` alone is the schedule of no moves.
//!
//! Of each play `play` with the number of datagrams is printed, and behind it for each rank its lines, the numbers of
//! its refused calls, and `ended` where its script has ended. Status 0; 1 where a file can't be read or is faulty, or
//! memory was wanting; 2 where the words aren't these.
#![tactic(auto)]

use script_files::{Script, parse};
use script_plays::{Move, Played, play};
use std::alloc::Global;
use std::process::ExitCode;
use std::rt::{Env, Files};
use std::{env, fs, io, str};
use world::World;

/// What the program is asked for: a script, how many ranks run it, and the schedules.
#[derive(Drop)]
struct Words {
    script: Vec<u8>,
    ranks: usize,
    schedules: Vec<u8>,
}

/// What the words ask for.
fn words_of(rt: &(impl Env + Files + AllocGlobal)) -> Option<Words> {
    let mut words = env::args(rt).ok()?;
    let script = words.nth(1)?;
    let ranks = words.next()?.as_str().parse::<usize>().ok()?;
    let schedules = words.next()?;
    Some(Words {
        script: fs::read(rt, script.as_str()).ok()?,
        ranks,
        schedules: fs::read(rt, schedules.as_str()).ok()?,
    })
}

/// The move that a word means, with so many before it.
fn move_of(word: &[u8], before: u64) -> Option<Move> {
    let (kind, digits) = word.split_first()?;
    let number = str::from_utf8(digits).ok()?.parse::<u16>().ok()?;
    match *kind {
        b'g' => Some(Move::Go(number)),
        b'd' => Some(Move::Deliver(number as usize)),
        b't' => Some(Move::Tick(number, before.saturating_mul(100))),
        _ => None,
    }
}

/// The schedule of a line.
fn schedule_of(alloc: Global, line: &[u8]) -> Option<Vec<Move>> {
    let mut schedule = Vec::new(alloc);
    if line.first() == Some(&b'-') {
        return Some(schedule);
    }
    for word in line.split(|byte| *byte == b' ') {
        let before = schedule.len() as u64;
        schedule.push(move_of(word, before)?).ok()?;
    }
    Some(schedule)
}

/// The script, once for each rank.
fn scripts(alloc: Global, text: &[u8], ranks: usize) -> Option<Vec<Script>> {
    let mut scripts = Vec::new(alloc);
    for _rank in 0..ranks {
        scripts.push(parse(alloc, text).ok()?).ok()?;
    }
    Some(scripts)
}

/// Prints what a rank printed, the numbers of its refused calls, and whether its script has ended.
fn show(rt: &impl Print, rank: usize, player: &Played) -> io::Result<()> {
    for line in player.lines() {
        match str::from_utf8(line.as_slice()) {
            Ok(line) => println!(rt; "[{rank}] {line}")?,
            Err(_) => println!(rt; "[{rank}]")?,
        }
    }
    for number in player.refused() {
        println!(rt; "{rank} refused {number}")?;
    }
    if player.has_ended() {
        println!(rt; "{rank} ended")?;
    }
    Ok(())
}

/// Prints what all ranks printed.
fn show_all(rt: &impl Print, players: &[Played]) -> io::Result<()> {
    for (rank, player) in players.iter().enumerate() {
        show(rt, rank, player)?;
    }
    Ok(())
}

/// How many datagrams were emitted, 65,536 at most.
fn emitted(world: &World) -> usize {
    for number in 0..65_536 {
        if world.datagram(number).is_none() {
            return number;
        }
    }
    65_536
}

/// Plays by the schedule of a line, if memory suffices and the files are sound; answers how many datagrams were
/// emitted, too.
fn played(alloc: Global, words: &Words, line: &[u8]) -> Option<(usize, Vec<Played>)> {
    let schedule = schedule_of(alloc, line)?;
    let scripts = scripts(alloc, &words.script, words.ranks)?;
    let (world, players) = play(alloc, scripts, &schedule).ok()?;
    let count = emitted(&world);
    drop(world);
    Some((count, players))
}

/// Plays by each schedule, and answers the status.
fn run(rt: &(impl Print + AllocGlobal), words: &Words) -> io::Result<u8> {
    for line in words.schedules.split(|byte| *byte == b'\n') {
        if line.is_empty() {
            continue;
        }
        match played(rt.alloc(), words, line) {
            Some((count, players)) => {
                println!(rt; "play {count}")?;
                let shown = show_all(rt, &players);
                drop(players);
                shown?;
            }
            None => return Ok(1),
        }
    }
    Ok(0)
}

fn main(rt: HostRuntime) -> io::Result<ExitCode> {
    match words_of(&rt) {
        Some(words) => Ok(ExitCode::from(run(&rt, &words)?)),
        None => {
            println!(rt; "usage: play_schedules FILE RANKS SCHEDULES")?;
            Ok(ExitCode::from(2))
        }
    }
}
