//! Running a file of events.

ghost use Rattle.std.specs.Prelude.{◌≡◌, None, IfErr, OnOk};
ghost use Rattle.simulation.specs.Files.{FileRuns, FileStops, RunsWhole, Stops, StopsAnyhow};

use crate::SimulateError;
use crate::running::Simulation;
use event_files::{EventFile, parse};
use line_diagnostics::LineFault;
use statements::ParseError;
use std::alloc::Global;
use std::io::Write;

/// How a file of events stopped before its end.
#[derive(Drop)]
pub struct Stopped {
    /// Why it didn't run to its end.
    pub error: SimulateError,
    /// Why the line that it stopped at can't be followed, where it was reached; none where it is no statement, or for
    /// want of memory.
    pub fault: Option<LineFault>,
}

impl Stopped {
    /// It stopped without a line that can't be followed.
    fn by(error: SimulateError) -> Stopped
        ensures { result ≡ record { error = error; fault = None } }
    {
        Stopped { error, fault: None }
    }
}

/// Runs the lines of a file.
#[tactic(auto, using(crate::proofs::RunLaws::file_runs, crate::proofs::RunLaws::file_stops, crate::proofs::RunLaws::file_first))]
fn run_file<W: Write>(alloc: Global, file: EventFile, out: &mut W) -> Result<(), Stopped>
    ensures ok { OnOk result (FileRuns file (W.contents out.old) (W.contents out.new)) }
    ensures err { IfErr result (λ stopped.
        FileStops file stopped.error stopped.fault (W.contents out.old) (W.contents out.new)) }
{
    let EventFile { size, lines } = file;
    let mut simulation = match Simulation::new(alloc, size) {
        Ok(simulation) => simulation,
        Err(error) => {
            drop(lines);
            return Err(Stopped::by(error));
        }
    };
    match simulation.run_all(lines.into_vec(), out) {
        Ok(()) => Ok(()),
        Err(error) => {
            let fault = simulation.take_lack();
            Err(Stopped { error, fault })
        }
    }
}

/// Runs a file of events, and prints the answer of each.
///
/// The whole file is read before anything runs. `Line` names the first line that is no statement, or the line at
/// which a name that isn't set, or a buffer that is lent, was used; what ran before that is printed. The fault says
/// which name, where the line was reached.
#[tactic(auto, using(crate::proofs::RunLaws::text_runs, crate::proofs::RunLaws::text_stops, crate::proofs::RunLaws::text_faulty, crate::proofs::RunLaws::text_first))]
pub fn simulate_or_tell<W: Write>(alloc: Global, text: &[u8], out: &mut W) -> Result<(), Stopped>
    ensures ok { OnOk result (RunsWhole text.now (W.contents out.old) (W.contents out.new)) }
    ensures err { IfErr result (λ stopped.
        Stops text.now stopped.error stopped.fault (W.contents out.old) (W.contents out.new)) }
{
    match parse(alloc, text) {
        Ok(file) => run_file(alloc, file, out),
        Err(ParseError::Line(line)) => Err(Stopped::by(SimulateError::Line(line))),
        Err(ParseError::OutOfMemory) => Err(Stopped::by(SimulateError::OutOfMemory)),
    }
}

/// The same, for those who don't ask why a line can't be followed.
pub fn simulate<W: Write>(alloc: Global, text: &[u8], out: &mut W) -> Result<(), SimulateError>
    ensures ok { OnOk result (RunsWhole text.now (W.contents out.old) (W.contents out.new)) }
    ensures err { IfErr result (λ e. StopsAnyhow text.now e (W.contents out.old) (W.contents out.new)) }
{
    match simulate_or_tell(alloc, text, out) {
        Ok(()) => Ok(()),
        Err(stopped) => Err(stopped.error),
    }
}
