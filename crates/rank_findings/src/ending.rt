//! How a run ends.

ghost use Rattle.std.specs.Prelude.{◌≡◌, Some};
ghost use Rattle.std.specs.List.{list_all, list_any};
ghost use Rattle.rank_findings.specs.Endings.{ending_at, ending_behind, ending_number, ending_of_ranks};
ghost use Rattle.rank_findings.specs.Endings.{finding_of_end, finding_of_status, is_all_ended, is_deadlock, is_kill, is_program};
ghost use Rattle.rank_findings.specs.Endings.{is_stuck, is_unexplored, with_open_end};

use crate::finding::Finding;

/// The status of a rank that plays a record which was over before its program was.
const RECORD_IS_OVER: u32 = 96;

/// So often ranks that only ask are told no where nobody else can go on.
const MOST_ROUNDS: u32 = 1_000;

/// The signal by which the explorer ends a process.
const KILL: u32 = 9;

/// How a run ends.
#[derive(Clone, Copy)]
pub enum Ending {
    /// All ranks ended.
    AllEnded,
    /// Nobody can go on, and somebody waits.
    Deadlock,
    /// An error ended it.
    ByError,
    /// It was cut short: all that comes of it comes of other runs.
    CutShort,
    /// A rank made no call for too long.
    RankSilent,
    /// The time was over.
    CutOff,
    /// What was recorded of a rank is over, so that it isn't known how the others go on.
    IsOpen,
    /// A call that can't be explored ended it.
    Unexplored,
}

/// How a process ended.
#[derive(Clone, Copy)]
pub enum Exit {
    /// By itself, with this status.
    Status(u32),
    /// By this signal.
    Signal(u32),
}

/// What is known of a rank whose process is at its end.
#[derive(Clone, Copy)]
pub struct ProcessEnd {
    /// It came to its end of its own, and not because the explorer ended it.
    pub is_own: bool,
    /// How.
    pub exit: Exit,
    /// It had called `MPI_Finalize`.
    pub has_finalized: bool,
    /// An error of it was told, or its `MPI_Abort`.
    pub has_failed: bool,
    /// It plays a record.
    pub is_played: bool,
}

impl Ending {
    /// The ending of this number.
    pub fn from_number(number: u32) -> Option<Ending>
        ensures { result ≡ ending_at number }
    {
        match number {
            1 => Some(Ending::AllEnded),
            2 => Some(Ending::Deadlock),
            3 => Some(Ending::ByError),
            4 => Some(Ending::CutShort),
            5 => Some(Ending::RankSilent),
            6 => Some(Ending::CutOff),
            7 => Some(Ending::IsOpen),
            8 => Some(Ending::Unexplored),
            _ => None,
        }
    }

    /// The number of this ending, and of no other one.
    pub fn number(self) -> u32
        ensures exact { result ≡ ending_number self }
        ensures own { ending_at result ≡ Some self }
    {
        match self {
            Ending::AllEnded => 1,
            Ending::Deadlock => 2,
            Ending::ByError => 3,
            Ending::CutShort => 4,
            Ending::RankSilent => 5,
            Ending::CutOff => 6,
            Ending::IsOpen => 7,
            Ending::Unexplored => 8,
        }
    }

    /// Whether all ranks ended.
    pub fn is_all_ended(self) -> bool
        ensures { result ≡ is_all_ended self }
    {
        match self {
            Ending::AllEnded => true,
            _ => false,
        }
    }

    /// Whether a call that can't be explored ended it.
    pub(crate) fn is_unexplored(self) -> bool
        ensures { result ≡ is_unexplored self }
    {
        match self {
            Ending::Unexplored => true,
            _ => false,
        }
    }

    fn is_deadlock(self) -> bool
        ensures { result ≡ is_deadlock self }
    {
        match self {
            Ending::Deadlock => true,
            _ => false,
        }
    }
}

fn are_all(flags: &[bool]) -> bool
    ensures { result ≡ list_all (λ f. f) flags.now }
{
    flags.iter().all(|flag| *flag)
}

/// Whether one of these is so.
pub(crate) fn is_any(flags: &[bool]) -> bool
    ensures { result ≡ list_any (λ f. f) flags.now }
{
    flags.iter().any(|flag| *flag)
}

fn is_any_killed(signals: &[u32]) -> bool
    ensures { result ≡ list_any is_kill signals.now }
{
    signals.iter().any(|signal| *signal != 0 && *signal != KILL)
}

/// How a run has ended whose ranks have ended or not, if it has: by what can't be explored; by an error where one ended
/// the job; else once all have.
pub fn ending_of_ranks(is_unexplored: bool, is_aborted: bool, has_ended: &[bool]) -> Option<Ending>
    ensures { result ≡ ending_of_ranks is_unexplored is_aborted has_ended.now }
{
    if is_unexplored {
        Some(Ending::Unexplored)
    } else if is_aborted {
        Some(Ending::ByError)
    } else if are_all(has_ended) {
        Some(Ending::AllEnded)
    } else {
        None
    }
}

/// Whether a run is a deadlock where no rank can go on and there is no move: nobody asks, or those that ask were told
/// no a thousand times in a row.
pub fn is_stuck(asks: &[bool], rounds: u32) -> bool
    ensures { result ≡ is_stuck asks.now rounds }
{
    rounds >= MOST_ROUNDS || !is_any(asks)
}

fn finding_of_status(end: &ProcessEnd, status: u32, ending: Ending) -> Option<Finding>
    ensures { result ≡ finding_of_status end.now status ending }
{
    if end.is_played && status == RECORD_IS_OVER {
        Some(Finding::RecordEnds)
    } else if !end.has_finalized && !end.has_failed {
        Some(Finding::NoFinalize)
    } else if ending.is_all_ended() && status != 0 {
        Some(Finding::OtherStatus)
    } else {
        None
    }
}

/// What is told of how a process ended, in a run that ends so as far as is known.
pub fn finding_of_end(end: &ProcessEnd, ending: Ending) -> Option<Finding>
    ensures { result ≡ finding_of_end end.now ending }
{
    if !end.is_own {
        return None;
    }
    match end.exit {
        Exit::Signal(_) => Some(Finding::Killed),
        Exit::Status(status) => finding_of_status(end, status, ending),
    }
}

/// How a run ends of which this is told besides: a process that dies ends it by an error.
pub fn ending_behind(ending: Ending, told: Option<Finding>) -> Ending
    ensures { result ≡ ending_behind ending told }
{
    match told {
        Some(finding) => {
            if finding.is_fault() {
                Ending::ByError
            } else {
                ending
            }
        }
        None => ending,
    }
}

/// How a run ends where the record of some rank was over: it isn't known, unless an error ended it or ranks wait for each
/// other.
pub fn with_open_end(ending: Ending, has_open_end: bool, has_cycle: bool) -> Ending
    ensures { result ≡ with_open_end ending has_open_end has_cycle }
{
    if has_open_end && (ending.is_all_ended() || (ending.is_deadlock() && !has_cycle)) {
        Ending::IsOpen
    } else {
        ending
    }
}

/// Whether what ran is a program of MPI: a rank called `MPI_Init`, or one was killed by another signal than the
/// explorer's own. These are the signals by which ranks ended, or 0.
pub fn is_program(has_begun: bool, signals: &[u32]) -> bool
    ensures { result ≡ is_program has_begun signals.now }
{
    has_begun || is_any_killed(signals)
}
