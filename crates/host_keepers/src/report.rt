//! What the keeper on a host reports, each of one rank there: what its program writes as it comes, and how it ends.

ghost use Rattle.std.specs.Prelude.{◌≡◌, ◌<◌, ◌++◌, ◌^◌, MatchOption, OnOk, length};
ghost use Rattle.host_keepers.specs.Ends.{ending_told, first_byte, told_end};
ghost use Rattle.host_keepers.specs.Frames.{HasNoFrame};
ghost use Rattle.host_keepers.specs.Reports.{IsFirstReport, kind_code, kind_of_code, report_text};

use crate::frame::{next_frame, push_frame};
use launch_keeper::ProgramEnding;
use std::alloc::AllocError;

/// What a report is of.
#[derive(Clone, Copy, Debug, PartialEq, Eq)]
pub enum ReportKind {
    /// The program wrote these bytes to its standard output.
    Output,
    /// The program wrote these bytes to its standard error.
    Errors,
    /// The program ended with the status that the one byte says.
    Status,
    /// A signal of the number that the one byte says ended the program.
    Signal,
    /// The program couldn't be started, or ended so that nobody knows how.
    Nothing,
    /// The keeper runs.
    Ready,
    /// The program took what was handed over of its standard input, or reads no more of it.
    Taken,
}

impl ReportKind {
    /// The byte that stands for the kind.
    fn code(self) -> u8
        ensures { result ≡ kind_code self }
    {
        match self {
            ReportKind::Output => b'o',
            ReportKind::Errors => b'e',
            ReportKind::Status => b's',
            ReportKind::Signal => b'k',
            ReportKind::Nothing => b'n',
            ReportKind::Ready => b'r',
            ReportKind::Taken => b't',
        }
    }

    /// The kind that a byte stands for; any other byte for none of the others.
    fn of_code(code: u8) -> ReportKind
        ensures { result ≡ kind_of_code code }
    {
        match code {
            b'o' => ReportKind::Output,
            b'e' => ReportKind::Errors,
            b's' => ReportKind::Status,
            b'k' => ReportKind::Signal,
            b'r' => ReportKind::Ready,
            b't' => ReportKind::Taken,
            _ => ReportKind::Nothing,
        }
    }
}

/// A report: of what, of which rank, and its bytes.
#[derive(Clone, Copy, Debug)]
pub struct Report<'a> {
    /// What it is of.
    pub kind: ReportKind,
    /// The rank that it is of.
    pub rank: u16,
    /// Its bytes.
    pub bytes: &'a [u8],
}

impl Report<'_> {
    /// The number that the report says: its first byte, 0 where it has none.
    pub fn number(&self) -> u8
        ensures { result ≡ first_byte self.now.bytes.now }
    {
        self.bytes.first().copied().unwrap_or(0)
    }

    /// How the program ended, where the report tells that.
    pub fn ending(&self) -> Option<ProgramEnding>
        ensures { result ≡ ending_told self.now.kind (first_byte self.now.bytes.now) }
    {
        match self.kind {
            ReportKind::Output | ReportKind::Errors | ReportKind::Ready | ReportKind::Taken => None,
            ReportKind::Status => Some(ProgramEnding::Status(self.number())),
            ReportKind::Signal => Some(ProgramEnding::Signal(self.number())),
            ReportKind::Nothing => Some(ProgramEnding::NotStarted),
        }
    }
}

/// The report of a program's end: of what it is, and the number that it says.
pub fn told_end(ending: ProgramEnding) -> (ReportKind, u8)
    ensures { result ≡ told_end ending }
{
    match ending {
        ProgramEnding::Status(status) => (ReportKind::Status, status),
        ProgramEnding::Signal(signal) => (ReportKind::Signal, signal),
        ProgramEnding::NotStarted | ProgramEnding::WithoutStatus => (ReportKind::Nothing, 0),
    }
}

/// Adds a report to a text: the byte of its kind, its rank as two bytes and how many bytes it has as four, the highest
/// first, and these. Only want of memory is an error.
pub fn push_report(
    text: &mut Vec<u8>,
    kind: ReportKind,
    rank: u16,
    bytes: &[u8],
) -> Result<(), AllocError>
    requires { length bytes.now < 2 ^ 32 }
    ensures { OnOk result (text.new.items ≡ text.old.items ++ report_text kind rank bytes.now) }
{
    push_frame(text, kind.code(), rank, bytes)
}

/// The report that stands whole at the front of a text, and what stands behind it; none where it isn't whole yet.
pub fn next_report(text: &[u8]) -> Option<(Report<'_>, &[u8])>
    ensures { MatchOption result (HasNoFrame text.now)
        (λ found. IsFirstReport text.now found.0.kind found.0.rank found.0.bytes.now found.1.now) }
{
    let (frame, rest) = next_frame(text)?;
    let kind = ReportKind::of_code(frame.code);
    let report = Report {
        kind,
        rank: frame.rank,
        bytes: frame.bytes,
    };
    Some((report, rest))
}
