//! Hosts in the lines of a file, and in a list.

ghost use Rattle.std.specs.Prelude.{◌≡◌, IfOk, map};
ghost use Rattle.std.specs.List.{slice_split};
ghost use Rattle.host_files.specs.Files.{Gives, is_comma, is_line_end, told_from};
ghost use Rattle.host_files.specs.Lines.{shown};

use crate::fault::FileFault;
use crate::host::Host;
use crate::line::said_by;
use std::alloc::{AllocError, Global};

fn lines_of(alloc: Global, file: &[u8]) -> Result<Vec<&[u8]>, AllocError>
    ensures { IfOk result (λ lines. map (λ line. line.now) lines.items ≡ slice_split is_line_end file.now) }
{
    file.split(|byte| *byte == b'\n').collect(alloc)
}

/// The hosts that these lines tell, in order, or the first line that is at fault, by its number.
fn told_hosts<'a>(alloc: Global, lines: &[&'a [u8]]) -> Result<Vec<Host<'a>>, FileFault>
    ensures { Gives (λ hosts. map shown hosts.items) (told_from 1 (map (λ line. line.now) lines.now)) result }
{
    let mut hosts = Vec::new(alloc);
    for (place, line) in lines.iter().enumerate() {
        match said_by(alloc, *line)? {
            None => {}
            Some(Ok(host)) => hosts.push(host).map_err(AllocError::from)?,
            Some(Err(fault)) => return Err(FileFault::Line(place + 1, fault)),
        }
    }
    Ok(hosts)
}

/// The hosts that a file tells, in order, one a line: `HOST[:N] [slots=N] [max_slots=N] [local]`. A word that begins
/// with `#` begins a comment; lines without words are skipped. Else the first line that is at fault, by its number,
/// unless memory was wanting before.
pub fn hosts_of(alloc: Global, file: &[u8]) -> Result<Vec<Host<'_>>, FileFault>
    ensures { Gives (λ hosts. map shown hosts.items) (told_from 1 (slice_split is_line_end file.now)) result }
{
    let lines = lines_of(alloc, file)?;
    told_hosts(alloc, &lines)
}

fn items_of(alloc: Global, list: &[u8]) -> Result<Vec<&[u8]>, AllocError>
    ensures { IfOk result (λ items. map (λ item. item.now) items.items ≡ slice_split is_comma list.now) }
{
    list.split(|byte| *byte == b',').collect(alloc)
}

/// The hosts that a list tells, in order, with commas between them; each is told as in a line of a file. Else the first
/// that is at fault, by its number, unless memory was wanting before.
pub fn hosts_in_list(alloc: Global, list: &[u8]) -> Result<Vec<Host<'_>>, FileFault>
    ensures { Gives (λ hosts. map shown hosts.items) (told_from 1 (slice_split is_comma list.now)) result }
{
    let items = items_of(alloc, list)?;
    told_hosts(alloc, &items)
}
