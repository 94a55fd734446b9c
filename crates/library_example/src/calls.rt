//! Calls of a rank, and what their answers print.

use datatypes::Buffer;
use engine::{Answer, Call, Mode, Outcome, Receive, Region, Send, Source};
use printed_lines::OutcomeText;
use std::alloc::{AllocError, Global};
use std::io;
use vocabulary::BasicType;

/// The communicator `world`, which has place 0 among those that a rank holds.
const WORLD: Option<usize> = Some(0);

/// The tag of the message.
const TAG: Option<u32> = Some(7);

/// A send of three integers of four bytes to a rank.
pub fn send(alloc: Global, target: u16) -> Result<Call, AllocError> {
    let mut integers = Buffer::new(alloc, BasicType::Int32);
    integers.push_number(1)?;
    integers.push_number(2)?;
    integers.push_number(3)?;
    Ok(Call::Isend(Send {
        mode: Mode::Standard,
        comm: WORLD,
        target: Source::Rank(target),
        tag: TAG,
        from: Region::whole(integers),
    }))
}

/// A receive from a rank, into a buffer of four integers.
pub fn receive(alloc: Global, source: u16) -> Result<Call, AllocError> {
    let mut integers = Buffer::new(alloc, BasicType::Int32);
    integers.push_copies(0, 4)?;
    Ok(Call::Irecv(Receive {
        comm: WORLD,
        source: Source::Rank(source),
        tag: TAG,
        into: Region::whole(integers),
    }))
}

/// Prints the message that a wait for a receive answered.
pub fn print_received(rt: &impl Print, answer: &Answer) -> io::Result<()> {
    match answer {
        Answer::One(Outcome::Received(status, buffer)) => {
            let text = OutcomeText::Received(*status, buffer);
            println!(rt; "  rank 1 received: {text}")
        }
        _ => println!(rt; "  rank 1 received nothing"),
    }
}
