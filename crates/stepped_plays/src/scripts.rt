//! The scripts of a text, as ranks have them.

ghost use Rattle.std.specs.Prelude.{IfOk};
ghost use Rattle.stepped_plays.specs.Beginnings.{AreScriptsOf};

use crate::error::PlayError;
use script_files::{RankLine, RankLines, Script, parse};
use std::alloc::{AllocError, Global};

/// The script of this text, once for each rank.
pub fn scripts_of(alloc: Global, text: &[u8], size: u16) -> Result<Vec<Script>, PlayError>
    ensures { IfOk result (λ scripts. AreScriptsOf text.now size scripts.items) }
{
    let mut scripts = Vec::new(alloc);
    for _ in 0..size {
        scripts.push(parse(alloc, text)?)?;
    }
    Ok(scripts)
}

fn collected(alloc: Global, mut lines: RankLines) -> Result<Vec<RankLine>, AllocError> {
    let mut all = Vec::new(alloc);
    while let Some(line) = lines.next() {
        all.push(line)?;
    }
    Ok(all)
}

/// The lines of this text for this rank at its first incarnation, in order.
pub fn rank_lines_of(alloc: Global, text: &[u8], rank: u16) -> Result<Vec<RankLine>, PlayError> {
    let lines = parse(alloc, text)?.into_lines_for(alloc, rank, 0)?;
    Ok(collected(alloc, lines)?)
}
