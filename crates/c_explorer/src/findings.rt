//! What is told of a run, as C asks for it. Findings and endings go by their numbers; 0 is none.

ghost use Rattle.std.specs.Prelude.{◌≡◌, slice_get};
ghost use Rattle.rank_findings.specs.Endings.{ending_at, ending_of_ranks, is_program, is_stuck};
ghost use Rattle.rank_findings.specs.Findings.{finding_at, weight_at};
ghost use Rattle.rank_findings.specs.Orders.{is_result_before};
ghost use Rattle.rank_findings.specs.Told.{call_at, finding_of_wait, is_absence_told, leaks, sends_told};
ghost use Rattle.rank_findings.specs.Verdicts.{is_cut_told, is_hint_told, status_of, weight_of_pass};
ghost use Rattle.c_explorer.specs.FindingNumbers.{behind_at, exit_at, fails_at, found, is_before_at, job_ends_at};
ghost use Rattle.c_explorer.specs.FindingNumbers.{is_rest_told_at, of_end_at, open_at, over, told_at};
ghost use Rattle.c_explorer.specs.FindingNumbers.{weight_of_run_at};

use rank_findings::{Call, Ending, Exit, Finding, Leaks, ProcessEnd, Told, Wait};

fn number_of(finding: Option<Finding>) -> u32
    ensures { result ≡ found finding }
{
    match finding {
        Some(finding) => finding.number(),
        None => 0,
    }
}

fn number_of_ending(ending: Option<Ending>) -> u32
    ensures { result ≡ over ending }
{
    match ending {
        Some(ending) => ending.number(),
        None => 0,
    }
}

fn exit_of(is_killed: bool, code: u32) -> Exit
    ensures { result ≡ exit_at is_killed code }
{
    if is_killed {
        Exit::Signal(code)
    } else {
        Exit::Status(code)
    }
}

/// How much a finding weighs: 3, the program is wrong; 2, something is left over; 1, it is worth knowing.
#[unsafe(no_mangle)]
pub extern "C" fn kombazily_finding_weight(finding: u32) -> u32
    ensures { result ≡ weight_at finding }
{
    rank_findings::weight_at(finding)
}

/// Whether its rank is known to have failed by it.
#[unsafe(no_mangle)]
pub extern "C" fn kombazily_finding_fails(finding: u32) -> bool
    ensures { result ≡ fails_at finding }
{
    match Finding::from_number(finding) {
        Some(finding) => finding.does_fail(),
        None => false,
    }
}

/// Whether it ends the job, where errors are to be returned or not.
#[unsafe(no_mangle)]
pub extern "C" fn kombazily_finding_ends_job(finding: u32, goes_on: bool) -> bool
    ensures { result ≡ job_ends_at finding goes_on }
{
    match Finding::from_number(finding) {
        Some(finding) => finding.ends_job(goes_on),
        None => false,
    }
}

fn told(finding: u32, rank: u32, number: u32) -> Option<Told>
    ensures { result ≡ told_at finding rank number }
{
    match Finding::from_number(finding) {
        Some(finding) => Some(Told {
            finding,
            rank,
            number,
        }),
        None => None,
    }
}

/// Whether one finding is told before another, each by its number, its rank, and the how-many-th it is.
#[unsafe(no_mangle)]
pub extern "C" fn kombazily_finding_is_before(
    finding: u32,
    rank: u32,
    number: u32,
    other_finding: u32,
    other_rank: u32,
    other_number: u32,
) -> bool
    ensures { result ≡ is_before_at (told_at finding rank number) (told_at other_finding other_rank other_number) }
{
    match (
        told(finding, rank, number),
        told(other_finding, other_rank, other_number),
    ) {
        (Some(one), Some(other)) => rank_findings::is_told_before(&one, &other),
        _ => false,
    }
}

/// What is told at this place of what a rank left behind, or 0.
#[unsafe(no_mangle)]
pub extern "C" fn kombazily_leak_at(
    requests: u32,
    communicators: u32,
    types: u32,
    messages: u32,
    place: u64,
) -> u32
    ensures { result ≡ found (slice_get (leaks (record {
      requests = requests;
      communicators = communicators;
      types = types;
      messages = messages;
    })) place) }
{
    let left = Leaks {
        requests,
        communicators,
        types,
        messages,
    };
    number_of(rank_findings::leak_at(&left, place))
}

/// What is told of a rank where nobody can go on, or 0, by the number of its ask.
#[unsafe(no_mangle)]
pub extern "C" fn kombazily_finding_of_wait(
    is_blocked: bool,
    has_finalized: bool,
    ask: u32,
    is_waiting: bool,
) -> u32
    ensures { result ≡ found (finding_of_wait (record {
      is_blocked = is_blocked;
      has_finalized = has_finalized;
      call = call_at ask;
      is_waiting = is_waiting;
    })) }
{
    let wait = Wait {
        is_blocked,
        has_finalized,
        call: Call::from_number(ask),
        is_waiting,
    };
    number_of(rank_findings::finding_of_wait(&wait))
}

/// How many of so many sends that wait are told.
#[unsafe(no_mangle)]
pub extern "C" fn kombazily_sends_told(waiting: u32, only_buffers: bool, was_told: bool) -> u32
    ensures { result ≡ sends_told waiting only_buffers was_told }
{
    rank_findings::sends_told(waiting, only_buffers, was_told)
}

/// Whether it is told that some member never entered a collective.
#[unsafe(no_mangle)]
pub extern "C" fn kombazily_is_absence_told(
    has_failed: &[bool],
    is_absent: bool,
    was_told: bool,
) -> bool
    ensures { result ≡ is_absence_told has_failed.now is_absent was_told }
{
    rank_findings::is_absence_told(has_failed, is_absent, was_told)
}

/// How a run has ended, or 0: it goes on.
#[unsafe(no_mangle)]
pub extern "C" fn kombazily_ending_of_ranks(
    is_unexplored: bool,
    is_aborted: bool,
    has_ended: &[bool],
) -> u32
    ensures { result ≡ over (ending_of_ranks is_unexplored is_aborted has_ended.now) }
{
    number_of_ending(rank_findings::ending_of_ranks(is_unexplored, is_aborted, has_ended))
}

/// Whether a run is a deadlock where no rank can go on and there is no move.
#[unsafe(no_mangle)]
pub extern "C" fn kombazily_is_stuck(asks: &[bool], rounds: u32) -> bool
    ensures { result ≡ is_stuck asks.now rounds }
{
    rank_findings::is_stuck(asks, rounds)
}

/// What is told of how a rank's process ended, or 0.
#[unsafe(no_mangle)]
pub extern "C" fn kombazily_finding_of_end(
    ending: u32,
    is_own: bool,
    is_killed: bool,
    code: u32,
    has_finalized: bool,
    has_failed: bool,
    is_played: bool,
) -> u32
    ensures { result ≡ of_end_at (ending_at ending) (record {
      is_own = is_own;
      exit = exit_at is_killed code;
      has_finalized = has_finalized;
      has_failed = has_failed;
      is_played = is_played;
    }) }
{
    let end = ProcessEnd {
        is_own,
        exit: exit_of(is_killed, code),
        has_finalized,
        has_failed,
        is_played,
    };
    match Ending::from_number(ending) {
        Some(ending) => number_of(rank_findings::finding_of_end(&end, ending)),
        None => 0,
    }
}

/// How a run ends of which this is told besides.
#[unsafe(no_mangle)]
pub extern "C" fn kombazily_ending_behind(ending: u32, finding: u32) -> u32
    ensures { result ≡ behind_at (ending_at ending) (finding_at finding) }
{
    match Ending::from_number(ending) {
        Some(ending) => {
            rank_findings::ending_behind(ending, Finding::from_number(finding)).number()
        }
        None => 0,
    }
}

/// How a run ends where the record of some rank was over.
#[unsafe(no_mangle)]
pub extern "C" fn kombazily_with_open_end(ending: u32, has_open_end: bool, has_cycle: bool) -> u32
    ensures { result ≡ open_at (ending_at ending) has_open_end has_cycle }
{
    match Ending::from_number(ending) {
        Some(ending) => rank_findings::with_open_end(ending, has_open_end, has_cycle).number(),
        None => 0,
    }
}

/// Whether it is told what nobody received, and who entered no collective.
#[unsafe(no_mangle)]
pub extern "C" fn kombazily_is_rest_told(ending: u32) -> bool
    ensures { result ≡ is_rest_told_at (ending_at ending) }
{
    match Ending::from_number(ending) {
        Some(ending) => rank_findings::is_rest_told(ending),
        None => false,
    }
}

/// Whether what ran is a program of MPI, by the signals by which its ranks ended, or 0.
#[unsafe(no_mangle)]
pub extern "C" fn kombazily_is_program(has_begun: bool, signals: &[u32]) -> bool
    ensures { result ≡ is_program has_begun signals.now }
{
    rank_findings::is_program(has_begun, signals)
}

/// How much a run weighs of which the findings of these numbers are told; where the number names no ending, as one that
/// is wrong.
#[unsafe(no_mangle)]
pub extern "C" fn kombazily_weight_of_run(ending: u32, findings: &[u32]) -> u32
    ensures { result ≡ weight_of_run_at (ending_at ending) findings.now }
{
    match Ending::from_number(ending) {
        Some(ending) => rank_findings::weight_of_run(ending, findings),
        None => 3,
    }
}

/// How much a pass weighs whose runs weigh so much.
#[unsafe(no_mangle)]
pub extern "C" fn kombazily_weight_of_pass(runs: &[u32], is_astray: bool) -> u32
    ensures { result ≡ weight_of_pass runs.now is_astray }
{
    rank_findings::weight_of_pass(runs, is_astray)
}

/// Whether a result is told before another.
#[unsafe(no_mangle)]
pub extern "C" fn kombazily_result_is_before(
    weight: u32,
    run: u64,
    other_weight: u32,
    other_run: u64,
) -> bool
    ensures { result ≡ is_result_before weight run other_weight other_run }
{
    rank_findings::is_result_before(weight, run, other_weight, other_run)
}

/// The status of the explorer, whose passes weigh so much, and which met a call that can't be explored or none.
#[unsafe(no_mangle)]
pub extern "C" fn kombazily_status_of_check(passes: &[u32], is_unexplored: bool) -> u32
    ensures { result ≡ status_of passes.now is_unexplored }
{
    rank_findings::status_of(passes, is_unexplored)
}

/// Whether a run is told of that was cut off when the time was over, by how many came to their ends, and by calls.
#[unsafe(no_mangle)]
pub extern "C" fn kombazily_is_cut_told(ended: u64, calls: u64, most_calls: u64) -> bool
    ensures { result ≡ is_cut_told ended calls most_calls }
{
    rank_findings::is_cut_told(ended, calls, most_calls)
}

/// Whether it is told that there is another pass.
#[unsafe(no_mangle)]
pub extern "C" fn kombazily_is_hint_told(
    passes: &[u32],
    is_unexplored: bool,
    was_asked: bool,
) -> bool
    ensures { result ≡ is_hint_told passes.now is_unexplored was_asked }
{
    rank_findings::is_hint_told(passes, is_unexplored, was_asked)
}
