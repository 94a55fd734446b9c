//! Running a rank: its words, its script, its engine, and its end.

ghost use Rattle.std.specs.Prelude.{◌≡◌};

use crate::beginning::Beginning;
use crate::clock::HostClock;
use crate::environment::FoundTexts;
use crate::exit_status::ExitStatus;
use crate::failing::Failing;
use crate::farewell::take_leave;
use crate::judging::{forewarn, judged};
use crate::places::{addresses_of, first_port, new_engine, trips_of};
use crate::rank_transport::RankTransport;
use crate::stop::StopInput;
use crate::telling::{
    ErrorReport, print_help, print_version, tell, tell_of, tell_port, tell_unread, tell_usage,
    tell_words,
};
use crate::told_runner::ToldRunner;
use crate::udp_wire::UdpWire;
use event_loop::{Ended, Rank, TransportFault, drive};
use rank_settings::{Settings, SettingsRefusal, settings_in};
use script_files::{ParseError, Script, parse};
use script_runner::ScriptRunner;
use start_marks::MarkFile;
use std::io::ErrorKind;
use std::net::Net;
use std::rt::{Env, Files};
use std::sync::Wait;
use std::time::Clock;
use std::{env, fs, io};

fn is_help(word: &str) -> bool {
    word == "--help" || word == "-h"
}

fn is_version(word: &str) -> bool {
    word == "--version" || word == "-V"
}

/// The status with which a runner ends at a line that can't be followed.
const FAULTY_LINE: u8 = 1;

/// With what a start ends that failed so.
fn status_of(error: &io::Error) -> ExitStatus {
    match error.kind() {
        ErrorKind::OutOfMemory => ExitStatus::OutOfMemory,
        _ => ExitStatus::TransportFailed,
    }
}

/// The text of the script's file, or the status where it can't be read.
fn read_text<R: Files + Eprint + AllocGlobal>(
    rt: &R,
    settings: &Settings,
) -> Result<Vec<u8>, ExitStatus> {
    match fs::read(rt, settings.file) {
        Ok(text) => Ok(text),
        Err(error) => {
            if error.kind() == ErrorKind::OutOfMemory {
                return Err(ExitStatus::OutOfMemory);
            }
            tell_unread(rt, settings);
            Err(ExitStatus::NoScript)
        }
    }
}

/// The script of this text, or the status where there is none.
fn read_script<R: Eprint + AllocGlobal>(rt: &R, told: &ErrorReport) -> Result<Script, ExitStatus> {
    match parse(rt.alloc(), told.text) {
        Ok(script) => Ok(script),
        Err(ParseError::OutOfMemory) => Err(ExitStatus::OutOfMemory),
        Err(ParseError::Line(line)) => {
            told.tell_faulty(rt, line);
            Err(ExitStatus::NoScript)
        }
    }
}

/// Tells why a rank ended so, where its script doesn't say so itself.
fn tell_end<R: Print + Eprint + AllocGlobal + Clock>(
    rt: &R,
    told: &ErrorReport,
    runner: &ScriptRunner,
    udp: &RankTransport<UdpWire<'_, R>>,
    ended: Result<Ended, TransportFault>,
) {
    match ended {
        Ok(Ended::Runner(FAULTY_LINE, line)) => told.tell_stopped(rt, runner, line),
        Ok(Ended::Runner(_, _)) => {}
        Ok(Ended::Patience) => told.tell_patience(rt, runner),
        Err(_) => match Failing::of_rank(udp.wire().is_stopped(), udp.has_lost_line()) {
            Failing::Stop => told.tell_stop(rt, runner),
            Failing::Output => tell_of(rt, told.settings.rank, "its output failed"),
            Failing::Socket => tell_of(rt, told.settings.rank, "its socket failed"),
        },
    }
}

/// The status of a rank that ended so. What its socket kept back goes before.
fn end<R: Print + Eprint + AllocGlobal + Clock>(
    rt: &R,
    told: &ErrorReport,
    runner: &ScriptRunner,
    udp: &mut RankTransport<UdpWire<'_, R>>,
    ended: Result<Ended, TransportFault>,
) -> ExitStatus {
    let last = udp.finish();
    tell_end(rt, told, runner, udp, ended);
    if ended.is_ok() && last.is_err() {
        tell_of(rt, told.settings.rank, "its socket failed");
    }
    ExitStatus::of_ending(ended, last, udp.wire().is_stopped())
}

/// Says that the rank of these settings has its port, and waits for the others, where a launcher told it by which marks
/// that is known.
fn begin<'a, R: Env + Files + Print + AllocGlobal + Clock>(
    rt: &'a R,
    settings: &Settings,
    wire: &mut UdpWire<'a, R>,
) -> Option<Beginning<'a, R>> {
    let marks = MarkFile::told(rt, settings.size)?;
    marks.begin(settings.rank);
    wire.heed(marks);
    let mut beginning = Beginning::new(rt, marks, settings.size)?;
    beginning.wait(StopInput::new(rt));
    Some(beginning)
}

/// Drives the rank over its socket until it ends, and answers its status.
fn meet<R: Wait + Print + Eprint + AllocGlobal + Clock>(
    rt: &R,
    told: &ErrorReport,
    rank: &mut Rank<ToldRunner<'_, R>>,
    udp: &mut RankTransport<UdpWire<'_, R>>,
    beginning: Option<Beginning<'_, R>>,
) -> ExitStatus
    requires { udp.old.failures ≡ 0 }
{
    let mut clock = match HostClock::new(rt, beginning) {
        Ok(clock) => clock,
        Err(error) => return status_of(&error),
    };
    let ended = drive(rt, rank, told.settings.patience, udp, &mut clock);
    if let Ok(Ended::Runner(0, _)) = ended {
        take_leave(rt, &mut rank.engine, udp, told.settings.size);
    }
    end(rt, told, rank.runner.runner(), udp, ended)
}

/// The rank's socket.
fn wire_of<'a, R: Net + Env + Print + AllocGlobal + Clock>(
    rt: &'a R,
    settings: &Settings,
) -> io::Result<UdpWire<'a, R>> {
    let addresses = addresses_of(rt.alloc(), settings)?;
    UdpWire::new(rt, rt.alloc(), addresses, settings.rank)
}

/// Opens the rank's socket, and meets the others over it.
fn open<R: Net + Env + Wait + Files + Print + Eprint + AllocGlobal + Clock>(
    rt: &R,
    told: &ErrorReport,
    rank: &mut Rank<ToldRunner<'_, R>>,
) -> ExitStatus {
    match wire_of(rt, told.settings) {
        Ok(mut wire) => {
            let beginning = begin(rt, told.settings, &mut wire);
            let first = first_port(told.settings);
            match trips_of(rt.alloc(), told.settings) {
                Ok(trips) => {
                    let near = told.settings.hosts.is_none();
                    let mut udp = RankTransport::new(rt.alloc(), wire, first, trips, near);
                    let status = meet(rt, told, rank, &mut udp, beginning);
                    drop(udp);
                    status
                }
                Err(_) => {
                    drop(beginning);
                    drop(wire);
                    ExitStatus::OutOfMemory
                }
            }
        }
        Err(error) => {
            let status = status_of(&error);
            drop(error);
            if let ExitStatus::TransportFailed = status {
                tell_port(rt, told.settings);
            }
            status
        }
    }
}

/// Makes the rank's engine, and opens its socket.
fn start<R: Net + Env + Wait + Files + Print + Eprint + AllocGlobal + Clock>(
    rt: &R,
    told: &ErrorReport,
    runner: ToldRunner<'_, R>,
) -> ExitStatus {
    match new_engine(rt.alloc(), told.settings) {
        Ok(engine) => {
            let mut rank = Rank::new(engine, runner);
            let status = open(rt, told, &mut rank);
            drop(rank);
            status
        }
        Err(status) => {
            drop(runner);
            status
        }
    }
}

/// Runs the rank of these settings, and answers its status.
fn run_rank<R: Net + Env + Wait + Files + Print + Eprint + AllocGlobal + Clock>(
    rt: &R,
    settings: &Settings,
) -> ExitStatus {
    let text = match read_text(rt, settings) {
        Ok(text) => text,
        Err(status) => return status,
    };
    let told = ErrorReport {
        settings,
        text: &text,
    };
    let script = match read_script(rt, &told) {
        Ok(script) => script,
        Err(status) => return status,
    };
    if settings.incarnation == 0 {
        forewarn(rt, &text, &script, settings.rank, settings.size);
    }
    match ToldRunner::new(rt, &text, script, settings) {
        Ok(runner) => start(rt, &told, runner),
        Err(_) => ExitStatus::OutOfMemory,
    }
}

/// The status where the words ask for help, for the version, or for the judging of a script; none where they ask for
/// something else.
fn asked_aside<R: Files + Print + Eprint + AllocGlobal>(rt: &R, words: &[String]) -> Option<u8> {
    let printed = match words {
        [_, word] if is_help(word.as_str()) => print_help(rt),
        [_, word] if is_version(word.as_str()) => print_version(rt),
        _ => return judged(rt, words).map(ExitStatus::number),
    };
    if printed {
        return Some(0);
    }
    let _ = eprintln!(rt; "rank_main: the output can't be written");
    Some(ExitStatus::TransportFailed.number())
}

/// Runs the rank that these words ask for, the first of which is the program's name, at the place that they tell, or,
/// where a script stands in them alone, that the environment tells. Answers its status: 0 where the script ended, 1
/// where it is faulty or can't be read, 2 where the words are wrong, 3 where the socket or the output failed, 4 where
/// its patience was over, 5 where the script says so, and 6 where memory was wanting.
pub fn run_words<R: Net + Env + Wait + Files + Print + Eprint + AllocGlobal + Clock>(
    rt: &R,
    words: &[String],
) -> u8 {
    if let Some(status) = asked_aside(rt, words) {
        return status;
    }
    let texts = FoundTexts::new(rt);
    match settings_in(rt.alloc(), words, texts.place()) {
        Ok(settings) => {
            let status = run_rank(rt, &settings).number();
            if status == ExitStatus::OutOfMemory.number() {
                tell_of(rt, settings.rank, "memory was refused");
            }
            status
        }
        Err(SettingsRefusal::OutOfMemory) => ExitStatus::OutOfMemory.number(),
        Err(SettingsRefusal::Words) => {
            tell_words(rt, words);
            ExitStatus::WrongWords.number()
        }
    }
}

/// Runs the rank that the words of this process ask for, and answers its status.
pub fn run<R: Net + Wait + Env + Files + Print + Eprint + AllocGlobal + Clock>(rt: &R) -> u8 {
    let words = match env::args(rt) {
        Ok(words) => words.collect::<Vec<String>>(rt.alloc()),
        Err(error) => {
            if error.kind() == ErrorKind::OutOfMemory {
                return ExitStatus::OutOfMemory.number();
            }
            tell(rt, 64, None);
            tell_usage(rt);
            return ExitStatus::WrongWords.number();
        }
    };
    match words {
        Ok(words) => run_words(rt, words.as_slice()),
        Err(_) => ExitStatus::OutOfMemory.number(),
    }
}
