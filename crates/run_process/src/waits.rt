//! What ranks of C programs say of calls that wait, as they are ended.

use rank_lines::{Wait, wait_said};
use std::alloc::{AllocError, Global};
use std::io;

/// How many waits are kept at most: one for each rank, and some more.
const MOST_WAITS: usize = 4_096;

/// The first line of these bytes, its end included, and what stands behind it.
fn first_line(bytes: &[u8]) -> (&[u8], &[u8]) {
    let end = bytes.iter().position(|byte| *byte == b'\n');
    match end {
        Some(place) => bytes.split_at(place.saturating_add(1).min(bytes.len())),
        None => bytes.split_at(bytes.len()),
    }
}

/// Adds the waits of which these lines of a rank tell, by rising rank.
pub fn add_waits(waits: &mut Vec<Wait>, rank: usize, lines: &[u8]) -> io::Result<()> {
    let mut rest = lines;
    for _ in 0..lines.len() {
        let (line, behind) = first_line(rest);
        if line.is_empty() || waits.len() >= MOST_WAITS {
            break;
        }
        if let Some(wait) = wait_said(line) {
            if usize::from(wait.rank) == rank {
                let place = waits.iter().filter(|other| other.rank <= wait.rank).count();
                waits
                    .insert(place.min(waits.len()), wait)
                    .map_err(AllocError::from)?;
            }
        }
        rest = behind;
    }
    Ok(())
}

/// Whether a line of a rank says of a call that it waits.
fn tells_wait(alloc: Global, rank: usize, line: &[u8]) -> io::Result<bool> {
    let place = format!(in alloc; "rank {rank}: MPI_")?;
    let text = str::from_utf8(line).unwrap_or("");
    Ok(text.starts_with(place.as_str()) && text.contains(" waits for "))
}

/// The lines of a rank but for those that say of a call that it waits.
pub fn without_waits(alloc: Global, rank: usize, lines: &[u8]) -> io::Result<Vec<u8>> {
    let mut left = Vec::new(alloc);
    let mut rest = lines;
    for _ in 0..lines.len() {
        let (line, behind) = first_line(rest);
        if line.is_empty() {
            break;
        }
        if !tells_wait(alloc, rank, line)? {
            left.extend_from_slice(line)?;
        }
        rest = behind;
    }
    Ok(left)
}

/// A cycle of ranks in words: `a cycle: rank 0 waits for rank 1, which waits for rank 0`.
pub fn cycle_text(alloc: Global, cycle: &[u16]) -> io::Result<String> {
    let first = cycle.first().copied().unwrap_or(0);
    let mut text = format!(in alloc; "a cycle: rank {first} waits for ")?;
    for rank in cycle.iter().skip(1) {
        text.push_str(format!(in alloc; "rank {rank}, which waits for ")?.as_str())?;
    }
    text.push_str(format!(in alloc; "rank {first}")?.as_str())?;
    Ok(text)
}
