//! What is launched.

ghost use Rattle.std.specs.Prelude.{◌≡◌, ◌≤◌, ◌+◌, [], ◌∷◌, ◌++◌, slice_get, codes, IfOk, OnOk};
ghost use Rattle.std.specs.Option.{option_copied};
ghost use Rattle.launch_plan.specs.Launches.{processes, rank_count, launch_with, IsWithinLimits, option_words};
ghost use Rattle.launch_plan.specs.Launches.{optional_words, words_of_rank};

use crate::copies::push_bytes;
use crate::given_options::{BASE_PORT, GivenOptions};
use crate::process_set::ProcessSet;
use launch_keeper::{Word, Words};
use std::alloc::{AllocError, Global};
use std::marker::Model;

/// What is launched: the values of the own options, and the program and arguments of each rank.
///
/// Ranks are numbered from 0 through the sets in their order. A plan has at most 1,024 ranks, and no
/// port of a rank is above 65,535.
#[derive(Drop)]
pub struct Plan {
    job: u64,
    base_port: u16,
    restarts: u16,
    patience: Option<u32>,
    size: u16,
    sets: Vec<ProcessSet>,
}

impl Model for Plan {
    ghost use Rattle.std.specs.Prelude.{◌≡◌, ◌≤◌, ◌+◌};
    ghost use Rattle.launch_plan.specs.Launches.{Launch, rank_count};

    ghost Value = { Launch };

    ghost view = { λ p. record {
      job = p.job;
      base_port = p.base_port;
      restarts = p.restarts;
      patience = p.patience;
      sets = p.sets.items;
    } };

    ghost invariant = { λ p. (p.size ≡ rank_count p.sets.items) × (p.size ≤ 1024)
        × (p.base_port + p.size ≤ 65536) };
}

/// The process of a rank: the rank-th through the sets.
fn process_of(sets: &[ProcessSet], rank: u16) -> Option<&ProcessSet>
    ensures { option_copied result ≡ slice_get (processes sets.now) rank }
{
    let mut left = rank;
    for set in sets {
        if left < set.count {
            return Some(set);
        }
        left -= set.count;
    }
    None
}

fn push_option(alloc: Global, words: &mut Words, name: &[u8], number: u64) -> Result<(), AllocError>
    ensures { OnOk result (words.new ≡ words.old ++ option_words name.now number) }
{
    push_bytes(alloc, words, name)?;
    words.push(Word::from_number(alloc, number)?)?;
    Ok(())
}

/// Adds the rank, the number of ranks and the incarnation.
fn push_place(
    alloc: Global,
    words: &mut Words,
    rank: u16,
    size: u16,
    incarnation: u16,
) -> Result<(), AllocError>
    ensures { OnOk result (words.new ≡ words.old
        ++ option_words (codes "--rank") rank
        ++ option_words (codes "--size") size
        ++ option_words (codes "--inc") incarnation) }
{
    push_option(alloc, words, b"--rank", u64::from(rank))?;
    push_option(alloc, words, b"--size", u64::from(size))?;
    push_option(alloc, words, b"--inc", u64::from(incarnation))
}

/// Adds the patience, where it was given.
fn push_patience(alloc: Global, words: &mut Words, patience: Option<u32>) -> Result<(), AllocError>
    ensures { OnOk result (words.new ≡ words.old ++ optional_words (codes "--patience") patience) }
{
    match patience {
        Some(patience) => push_option(alloc, words, b"--patience", u64::from(patience)),
        None => Ok(()),
    }
}

/// Adds the job, the port, and the patience where it was given.
fn push_job(
    alloc: Global,
    words: &mut Words,
    job: u64,
    port: u64,
    patience: Option<u32>,
) -> Result<(), AllocError>
    ensures { OnOk result (words.new ≡ words.old
        ++ option_words (codes "--job") job
        ++ option_words (codes "--port") port
        ++ optional_words (codes "--patience") patience) }
{
    push_option(alloc, words, b"--job", job)?;
    push_option(alloc, words, b"--port", port)?;
    push_patience(alloc, words, patience)
}

impl Plan {
    /// The plan of these sets, which have so many processes, with the defaults of the options that
    /// were not given.
    pub(crate) fn new(given: GivenOptions, size: u16, sets: Vec<ProcessSet>) -> Plan
        requires size { size ≡ rank_count sets.items }
        requires limits { IsWithinLimits (launch_with given sets.items) }
        ensures { result ≡ launch_with given sets.items }
    {
        Plan {
            job: given.job.unwrap_or(1),
            base_port: given.base_port.unwrap_or(BASE_PORT),
            restarts: given.restarts.unwrap_or(0),
            patience: given.patience,
            size,
            sets,
        }
    }

    /// The job's number.
    pub fn job(&self) -> u64
        ensures { result ≡ self.now.job }
    {
        self.job
    }

    /// The port of rank 0.
    pub fn base_port(&self) -> u16
        ensures { result ≡ self.now.base_port }
    {
        self.base_port
    }

    /// How often each rank may be started again.
    pub fn restarts(&self) -> u16
        ensures { result ≡ self.now.restarts }
    {
        self.restarts
    }

    /// How long the ranks wait, in milliseconds, where it was given.
    pub fn patience(&self) -> Option<u32>
        ensures { result ≡ self.now.patience }
    {
        self.patience
    }

    /// The number of ranks.
    pub fn size(&self) -> u16
        ensures exact { result ≡ rank_count self.now.sets }
        ensures few { result ≤ 1024 }
        ensures ports { self.now.base_port + result ≤ 65536 }
    {
        self.size
    }

    /// The words by which a rank is started at an incarnation: its program, `--rank`, `--size`,
    /// `--inc`, `--job` and `--port` with their numbers, `--patience` where it was given, and then
    /// the program's own arguments. `None` for a rank that the plan lacks.
    ///
    /// A rank's port is the base port and the rank, at each incarnation. Only want of memory is an
    /// error.
    pub fn words(
        &self,
        alloc: Global,
        rank: u16,
        incarnation: u16,
    ) -> Result<Option<Words>, AllocError>
        ensures { IfOk result (λ words. words ≡ words_of_rank self.now rank incarnation) }
    {
        let Some(process) = process_of(&self.sets, rank) else {
            return Ok(None);
        };
        let mut words = Words::new(alloc);
        push_bytes(alloc, &mut words, process.program.as_bytes())?;
        push_place(alloc, &mut words, rank, self.size, incarnation)?;
        let port = u64::from(self.base_port) + u64::from(rank);
        push_job(alloc, &mut words, self.job, port, self.patience)?;
        words.extend(alloc, process.arguments.as_slice())?;
        Ok(Some(words))
    }
}
