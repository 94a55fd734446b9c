//! The hosts of an allocation of other batch systems, as lines of a file of hosts.

ghost use Rattle.std.specs.Prelude.{◌≡◌, ◌++◌, IfOk, OnOk, map};
ghost use Rattle.std.specs.List.{slice_split};
ghost use Rattle.host_files.specs.Batch.{grid_line, grid_lines, spaced_lines, turned};
ghost use Rattle.host_files.specs.Files.{is_line_end};

use crate::line::words_of;
use std::alloc::{AllocError, Global};

/// The byte in whose place a line's end stands: a space.
fn turned(byte: u8) -> u8
    ensures { result ≡ turned byte }
{
    if byte == b' ' { b'\n' } else { byte }
}

/// Hosts that stand apart by spaces, one for each slot, as LSF tells them, as lines. Only want of memory is an error.
pub fn spaced_lines(alloc: Global, hosts: &[u8]) -> Result<Vec<u8>, AllocError>
    ensures { IfOk result (λ text. text.items ≡ spaced_lines hosts.now) }
{
    let mut text = Vec::new(alloc);
    for byte in hosts {
        text.push(turned(*byte))?;
    }
    Ok(text)
}

/// Adds a line of a host, whose second word says how many slots it has.
fn push_grid_line(text: &mut Vec<u8>, words: &[&[u8]]) -> Result<(), AllocError>
    ensures { OnOk result (text.new.items ≡ text.old.items ++ grid_line (map (λ word. word.now) words.now)) }
{
    if let Some((name, behind)) = words.split_first() {
        text.extend_from_slice(*name)?;
        if let Some(slots) = behind.first() {
            text.extend_from_slice(b" slots=")?;
            text.extend_from_slice(*slots)?;
        }
    }
    text.push(b'\n')?;
    Ok(())
}

fn lines_of(alloc: Global, file: &[u8]) -> Result<Vec<&[u8]>, AllocError>
    ensures { IfOk result (λ lines. map (λ line. line.now) lines.items ≡ slice_split is_line_end file.now) }
{
    file.split(|byte| *byte == b'\n').collect(alloc)
}

/// Adds the lines of hosts, each of which a line of the file tells.
fn push_grid_lines(alloc: Global, text: &mut Vec<u8>, lines: &[&[u8]]) -> Result<(), AllocError>
    ensures { OnOk result (text.new.items ≡ text.old.items ++ grid_lines (map (λ line. line.now) lines.now)) }
{
    for line in lines {
        let words = words_of(alloc, *line)?;
        push_grid_line(text, &words)?;
    }
    Ok(())
}

/// The hosts of a file of Grid Engine, whose lines begin with a host and its slots, as lines of a file of hosts. Only want of
/// memory is an error.
pub fn grid_lines(alloc: Global, file: &[u8]) -> Result<Vec<u8>, AllocError>
    ensures { IfOk result (λ text. text.items ≡ grid_lines (slice_split is_line_end file.now)) }
{
    let lines = lines_of(alloc, file)?;
    let mut text = Vec::new(alloc);
    push_grid_lines(alloc, &mut text, &lines)?;
    Ok(text)
}
