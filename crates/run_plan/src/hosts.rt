//! Ranks on other hosts: how a program is started there, and the variables that tell where the ranks are and how long
//! their frames.

ghost use Rattle.std.specs.Prelude.{◌≡◌, ◌∷◌, [], codes, map, IfOk, OnOk};
ghost use Rattle.std.specs.Fmt.{decimal};
ghost use Rattle.std.specs.List.{slice_split};
ghost use Rattle.std.specs.Process.{SameProgramAndArgs};
ghost use Rattle.process_commands.specs.Commands.{Sets};
ghost use Rattle.run_plan.specs.Hosts.{is_space, launcher_words, said_word, said_words};

use launch_keeper::{Word, Words};
use process_commands::set_text;
use std::alloc::{AllocError, Global};
use std::io;
use std::process::Command;

/// The words of `-launcher` where it isn't given.
pub const USUAL_LAUNCHER: &str = "ssh -o BatchMode=yes -o ConnectTimeout=20 -T {host}";

/// The word in whose place the host's name stands.
const PLACE: &[u8] = b"{host}";

fn pieces(alloc: Global, text: &[u8]) -> Result<Vec<&[u8]>, AllocError>
    ensures { IfOk result (λ pieces. map (λ piece. piece.now) pieces.items ≡ slice_split is_space text.now) }
{
    text.split(|byte| *byte == b' ').collect(alloc)
}

/// A word of a launcher, with the host in place of `{host}`.
fn said_word<'a>(piece: &'a [u8], host: &'a [u8]) -> &'a [u8]
    ensures { result.now ≡ said_word host.now piece.now }
{
    if piece == PLACE { host } else { piece }
}

/// The pieces that aren't empty, with the host in place of each `{host}`.
fn said_words(alloc: Global, pieces: &[&[u8]], host: &[u8]) -> Result<Words, AllocError>
    ensures { IfOk result (λ words. words ≡ said_words host.now (map (λ piece. piece.now) pieces.now)) }
{
    let mut words = Words::new(alloc);
    for piece in pieces {
        if !piece.is_empty() {
            words.push(Word::from_slice(alloc, said_word(piece, host))?)?;
        }
    }
    Ok(words)
}

/// The words that start a program on a host: those of a launcher's text, which stand apart by spaces, with the host's
/// name in place of each word `{host}`. Only want of memory is an error.
pub fn launcher_words(alloc: Global, text: &[u8], host: &[u8]) -> Result<Words, AllocError>
    ensures { IfOk result (λ words. words ≡ launcher_words text.now host.now) }
{
    let pieces = pieces(alloc, text)?;
    said_words(alloc, &pieces, host)
}

/// Lets a command tell its program at which addresses the ranks are, by the text that lists them.
pub fn set_hosts(alloc: Global, command: &mut Command, hosts: &Word) -> io::Result<()>
    ensures call { OnOk result (SameProgramAndArgs command.old command.new) }
    ensures set { OnOk result (Sets command.old ((codes "KOMBAZILY_HOSTS", hosts.now) ∷ []) command.new) }
{
    let name = Word::from_slice(alloc, b"KOMBAZILY_HOSTS")?;
    set_text(command, &name, hosts)
}

/// Lets a command tell its program how many bytes of data a frame of the job has at most.
pub fn set_frame(alloc: Global, command: &mut Command, bytes: u32) -> io::Result<()>
    ensures call { OnOk result (SameProgramAndArgs command.old command.new) }
    ensures set { OnOk result (Sets command.old ((codes "KOMBAZILY_FRAME", decimal bytes) ∷ []) command.new) }
{
    let name = Word::from_slice(alloc, b"KOMBAZILY_FRAME")?;
    let value = Word::from_number(alloc, u64::from(bytes))?;
    set_text(command, &name, &value)
}
