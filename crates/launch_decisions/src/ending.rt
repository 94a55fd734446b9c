//! How a program ended.

ghost use Rattle.std.specs.Prelude.{◌≡◌};
ghost use Rattle.launch_decisions.specs.Endings.{byte_in, byte_of, ending_by, ending_of};

use launch_keeper::ProgramEnding;
use std::os::unix::process::ExitStatusExt;
use std::process::ExitStatus;

/// How a program ended whose end told this status, or else this signal.
pub fn ending_by(status: Option<u8>, signal: Option<u8>) -> ProgramEnding
    ensures { result ≡ ending_by status signal }
{
    match (status, signal) {
        (Some(status), _) => ProgramEnding::Status(status),
        (None, Some(signal)) => ProgramEnding::Signal(signal),
        (None, None) => ProgramEnding::WithoutStatus,
    }
}

/// A number of the system's, where a byte holds it.
#[tactic(auto, using(crate::proofs::ByteLaws::read_byte, crate::proofs::ByteLaws::unread_byte))]
fn byte_in(number: i32) -> Option<u8>
    ensures { result ≡ byte_in number }
{
    match u8::try_from(number) {
        Ok(byte) => Some(byte),
        Err(_) => None,
    }
}

/// The same, where there is a number.
fn byte_of(number: Option<i32>) -> Option<u8>
    ensures { result ≡ byte_of number }
{
    byte_in(number?)
}

/// How a program ended that the system tells so of.
pub fn ending_of(status: ExitStatus) -> ProgramEnding
    ensures { result ≡ ending_of status }
{
    ending_by(byte_of(status.code()), byte_of(status.signal()))
}
