//! A stream of a launcher, on which the lines of all ranks stand.

ghost use Rattle.std.specs.Prelude.{◌≡◌, ◌++◌, None, IfOk, OnOk, OnErr, if◌then◌else◌};
ghost use Rattle.launch_keeper.specs.JoinedOutput.{mark_of};
ghost use Rattle.rank_lines.specs.Streams.{lined, is_ended, begins_line, cut_by, text_on, unfinished_by, is_unfinished};

use std::alloc::{AllocError, Global};
use std::marker::Model;

/// A stream on which the lines of all ranks stand.
#[derive(Debug, Drop)]
pub struct SharedStream {
    /// The rank whose line stands at the stream's end and has no end yet.
    unfinished: Option<usize>,
}

/// What stands before each line of a rank: `[r] `.
fn mark_of(alloc: Global, rank: usize) -> Result<Vec<u8>, AllocError>
    ensures { IfOk result (λ mark. mark.items ≡ mark_of rank) }
{
    let mark = format!(in alloc; "[{rank}] ")?;
    Ok(mark.into_bytes())
}

/// Adds these bytes, with the mark in front of each line that begins with one of them.
fn push_lined(text: &mut Vec<u8>, mark: &[u8], begins: bool, bytes: &[u8]) -> Result<(), AllocError>
    ensures { OnOk result (text.new.items ≡ text.old.items ++ lined mark.now begins bytes.now) }
{
    let mut fresh = begins;
    for byte in bytes {
        if fresh {
            text.extend_from_slice(mark)?;
        }
        text.push(*byte)?;
        fresh = *byte == b'\n';
    }
    Ok(())
}

/// Whether the last of these bytes ends a line.
fn is_ended(bytes: &[u8]) -> bool
    ensures { result ≡ is_ended bytes.now }
{
    match bytes.last() {
        Some(last) => *last == b'\n',
        None => false,
    }
}

/// The same with the mark of the rank, behind the unfinished line of that rank or another.
fn marked_text(
    alloc: Global,
    unfinished: Option<usize>,
    rank: usize,
    bytes: &[u8],
) -> Result<Vec<u8>, AllocError>
    ensures { IfOk result (λ text. text.items ≡
        cut_by unfinished rank ++ lined (mark_of rank) (begins_line unfinished rank) bytes.now) }
{
    let mark = mark_of(alloc, rank)?;
    let mut text = Vec::new(alloc);
    let begins = match unfinished {
        None => true,
        Some(other) if other == rank => false,
        Some(_) => {
            text.push(b'\n')?;
            true
        }
    };
    push_lined(&mut text, &mark, begins, bytes)?;
    Ok(text)
}

impl Model for SharedStream {
    ghost use Rattle.std.specs.Prelude.{ℕ, Option};

    ghost Value = { Option ℕ };

    ghost view = { λ s. s.unfinished };
}

impl SharedStream {
    /// A stream on which nothing stands yet.
    pub fn new() -> SharedStream
        ensures { result ≡ None }
    {
        SharedStream { unfinished: None }
    }

    /// What is written on the stream where a rank writes these bytes: without marks the bytes, with marks `[r] ` in front
    /// of each line, and an end behind the line of another rank that has none. Only want of memory is an error, and leaves
    /// the stream as it was.
    pub fn write(
        &mut self,
        alloc: Global,
        rank: usize,
        marks: bool,
        bytes: Vec<u8>,
    ) -> Result<Vec<u8>, AllocError>
        ensures text { IfOk result (λ text. text.items ≡ text_on self.old rank marks bytes.items) }
        ensures end { OnOk result (self.new ≡ unfinished_by self.old rank bytes.items) }
        ensures kept { OnErr result (self.new ≡ self.old) }
    {
        if bytes.is_empty() {
            return Ok(bytes);
        }
        let next = if is_ended(&bytes) { None } else { Some(rank) };
        let text = if marks {
            marked_text(alloc, self.unfinished, rank, &bytes)?
        } else {
            bytes
        };
        self.unfinished = next;
        Ok(text)
    }

    /// A rank has ended: answers whether its line stands unfinished at the stream's end, and counts it as ended then.
    pub fn finish(&mut self, rank: usize) -> bool
        ensures own { result ≡ is_unfinished self.old rank }
        ensures left { self.new ≡ (if is_unfinished self.old rank then None else self.old) }
    {
        let is_own = match self.unfinished {
            None => false,
            Some(other) => other == rank,
        };
        if is_own {
            self.unfinished = None;
        }
        is_own
    }
}
