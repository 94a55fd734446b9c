//! What keepers report.

ghost use Rattle.launch_process.specs.Endings.{IsReportBehind};

use launch_keeper::{LostKeeperLine, Report};
use std::alloc::Global;
use std::io;
use std::io::{ErrorKind, Read};
use std::process::{Child, ExitStatus, OpenProcess};

/// The report that these bytes of a keeper are, which ended so; `None` where there are none, or the keeper failed: then
/// they may be a part of it. It takes no memory.
pub fn whole_report(bytes: Vec<u8>, status: ExitStatus) -> Option<Report>
    ensures { IsReportBehind status bytes.items result }
{
    if !status.success() {
        return None;
    }
    Report::from_bytes(bytes)
}

/// What a keeper reports, once it has ended; `None` where it ended before that.
pub fn report_of<P: OpenProcess + Drop>(
    alloc: Global,
    mut keeper: Child<P>,
) -> io::Result<Option<Report>> {
    let mut bytes = Vec::new(alloc);
    if let Some(mut pipe) = keeper.stdout.take() {
        pipe.read_to_end(&mut bytes)?;
    }
    Ok(whole_report(bytes, keeper.wait()?))
}

/// Tells that a rank's keeper ended before its report, and answers that as an error.
pub fn tell_lost(rt: &impl Eprint, rank: usize) -> io::Error {
    let line = LostKeeperLine { rank };
    let _ = eprintln!(rt; "{line}");
    io::Error::from(ErrorKind::BrokenPipe)
}
