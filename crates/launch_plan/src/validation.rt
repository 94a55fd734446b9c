//! Judging the launcher's words before any memory is taken: the first fault, or how many ranks are
//! asked for.

ghost use Rattle.std.specs.Prelude.{◌≡◌, ◌+◌, ◌&&◌, nat_le};
ghost use Rattle.std.specs.List.{slice_split};
ghost use Rattle.std.specs.Option.{option_copied};
ghost use Rattle.launch_plan.specs.Configuration.{is_line_end, words_of, sets_of_file};
ghost use Rattle.launch_plan.specs.Sets.{sets_of};
ghost use Rattle.launch_plan.specs.Results.{GivesExactly};
ghost use Rattle.launch_plan.specs.declared.stage.Stage.TheVariants.{Empty};
ghost use Rattle.launch_plan.specs.Plans.{sets_behind};
ghost use Rattle.launch_plan.specs.Openings.{opening_text};
ghost use Rattle.launch_plan.specs.SetFaults.{stage_behind, count_ranks, tally_line, tally_lines, nothing_tallied};
ghost use Rattle.launch_plan.specs.SetFaults.{ranks_of, size_behind};

use crate::configuration::{before_continuation, is_skipped};
use crate::cut::{first_line, first_piece};
use crate::given_options::BASE_PORT;
use crate::opening::Opening;
use crate::refusal::LaunchRefusal;
use crate::stage::Stage;
use crate::symbol::is_separator;
use launch_keeper::Word;
use vocabulary::MOST_RANKS;

/// What was read of a configuration file.
#[derive(Clone, Copy)]
pub(crate) struct Tally {
    /// How many ranks the sets have that were read whole; 1,025 where there are more than 1,024.
    pub(crate) ranks: u16,
    /// How far the words of the present line were read.
    pub(crate) stage: Stage,
    /// Whether the line before goes on in the next one.
    pub(crate) begun: bool,
}

/// The stage behind the words of a line.
#[tactic(auto, unfolding(crate::specs::Configuration::words_of))]
fn stage_behind(stage: Stage, line: &[u8]) -> Result<Stage, LaunchRefusal>
    ensures { GivesExactly (λ stage. stage) result (stage_behind stage (words_of line.now)) }
{
    let mut reached = stage;
    let mut left = Some(line);
    while let Some(text) = left {
        let cut = first_piece(text);
        if !cut.part.is_empty() {
            reached = reached.after(cut.part)?;
        }
        left = cut.rest;
    }
    Ok(reached)
}

/// What was read once this line is read too.
#[tactic(auto, unfolding(crate::specs::SetFaults::tally_line))]
fn tally_line(tally: Tally, line: &[u8]) -> Result<Tally, LaunchRefusal>
    ensures { GivesExactly (λ tally. tally) result (tally_line tally line.now) }
{
    if is_skipped(tally.begun, line) {
        return Ok(tally);
    }
    match before_continuation(line) {
        Some(front) => Ok(Tally {
            ranks: tally.ranks,
            stage: stage_behind(tally.stage, front)?,
            begun: true,
        }),
        None => Ok(Tally {
            ranks: stage_behind(tally.stage, line)?.total_or_none(tally.ranks)?,
            stage: Stage::Empty,
            begun: false,
        }),
    }
}

/// How many ranks the sets of a file have, which has one a line; none where it has no words.
fn tally_lines(bytes: &[u8]) -> Result<u16, LaunchRefusal>
    ensures { GivesExactly (λ ranks. ranks) result
        (tally_lines nothing_tallied (slice_split is_line_end bytes.now)) }
{
    let mut tally = Tally {
        ranks: 0,
        stage: Stage::Empty,
        begun: false,
    };
    let mut left = Some(bytes);
    while let Some(text) = left {
        let cut = first_line(text);
        tally = tally_line(tally, cut.part)?;
        left = cut.rest;
    }
    tally.stage.total_or_none(tally.ranks)
}

/// How many ranks the configuration file asks for, or its first fault.
#[tactic(auto, using(crate::proofs::JudgingLaws::file_of_fault, crate::proofs::JudgingLaws::file_of_some, crate::proofs::JudgingLaws::file_of_none))]
fn ranks_of_file(config: Option<&[u8]>) -> Result<u16, LaunchRefusal>
    ensures { GivesExactly (λ ranks. ranks) result
        (ranks_of 0 (sets_of_file (option_copied config.entry))) }
{
    let Some(bytes) = config else {
        return Err(LaunchRefusal::UnreadableFile);
    };
    let ranks = tally_lines(bytes)?;
    if ranks == 0 {
        return Err(LaunchRefusal::NoSet);
    }
    Ok(ranks)
}

/// How many ranks the words of the sets ask for, which stand apart by `:`.
fn count_ranks(words: &[Word]) -> Result<u16, LaunchRefusal>
    ensures { GivesExactly (λ ranks. ranks) result (count_ranks 0 Empty words.now) }
{
    let mut ranks = 0;
    let mut stage = Stage::Empty;
    for word in words {
        if is_separator(word.as_bytes()) {
            ranks = stage.total(ranks)?;
            stage = Stage::Empty;
        } else {
            stage = stage.after(word.as_bytes())?;
        }
    }
    stage.total(ranks)
}

fn ranks_of_words(words: &[Word]) -> Result<u16, LaunchRefusal>
    ensures { GivesExactly (λ ranks. ranks) result (ranks_of 0 (sets_of words.now)) }
{
    count_ranks(words)
}

/// How many ranks are asked for behind an opening, or the first fault.
#[tactic(auto, using(crate::proofs::JudgingLaws::behind_words, crate::proofs::JudgingLaws::behind_fault, crate::proofs::JudgingLaws::behind_alone, crate::proofs::JudgingLaws::behind_more))]
fn ranks_behind(opening: Opening<'_>, config: Option<&[u8]>) -> Result<u16, LaunchRefusal>
    ensures { GivesExactly (λ ranks. ranks) result
        (ranks_of 0 (sets_behind (opening_text opening.entry) (option_copied config.entry))) }
{
    match opening.file {
        None => ranks_of_words(opening.rest),
        Some(_) => {
            let ranks = ranks_of_file(config)?;
            if opening.rest.is_empty() {
                Ok(ranks)
            } else {
                Err(LaunchRefusal::WrongOption)
            }
        }
    }
}

fn is_within_limits(base_port: u16, ranks: u16) -> bool
    ensures { result ≡ (nat_le ranks 1024 && nat_le (base_port + ranks) 65536) }
{
    ranks <= MOST_RANKS && u32::from(base_port) + u32::from(ranks) <= 65_536
}

/// The number of ranks that are asked for behind an opening, or the first fault: the limits are
/// judged last. It takes no memory.
#[tactic(auto, using(crate::proofs::JudgingLaws::size_fits, crate::proofs::JudgingLaws::size_over, crate::proofs::JudgingLaws::size_fault))]
pub(crate) fn size_behind(opening: Opening<'_>, config: Option<&[u8]>) -> Result<u16, LaunchRefusal>
    ensures { GivesExactly (λ size. size) result
        (size_behind (opening_text opening.entry) (option_copied config.entry)) }
{
    let ranks = ranks_behind(opening, config)?;
    let base_port = opening.given.base_port.unwrap_or(BASE_PORT);
    if !is_within_limits(base_port, ranks) {
        return Err(LaunchRefusal::OverLimit);
    }
    Ok(ranks)
}
