//! What a rank writes to one of its streams, line by line.

ghost use Rattle.std.specs.Prelude.{◌≡◌, ◌==◌, ◌++◌, [], length, IfOk, if◌then◌else◌};
ghost use Rattle.rank_lines.specs.Lines.{IsWholeLength, IsTaken, is_due};

use std::alloc::{AllocError, Global};
use std::marker::Model;
use std::mem;

/// For so many milliseconds nothing more of a line comes until its beginning is handed on.
pub const SILENCE: u64 = 100;

/// So many milliseconds after its first byte the beginning of a line is handed on, though more of it comes all the time.
pub const MOST_AGE: u64 = 1_000;

/// The beginning of a line that has no end yet, as far as it wasn't handed on.
#[derive(Drop)]
pub struct LineBuffer {
    bytes: Vec<u8>,
}

impl Model for LineBuffer {
    ghost use Rattle.std.specs.Prelude.{List, ℕ};
    ghost use Rattle.launch_keeper.specs.JoinedOutput.{IsLine};

    ghost Value = { List ℕ };

    ghost view = { λ b. b.bytes.items };

    ghost invariant = { λ b. IsLine b.bytes.items };
}

/// How many bytes there are up to the last end of a line, itself included.
#[tactic(auto, using(crate::proofs::LineLaws::rest_longer, crate::proofs::LineLaws::ends_there, crate::proofs::LineLaws::line_end))]
fn whole_length(bytes: &[u8]) -> usize
    ensures { IsWholeLength bytes.now result }
{
    let mut length = bytes.len();
    while length > 0 {
        if bytes[length - 1] == b'\n' {
            return length;
        }
        length -= 1;
    }
    length
}

/// Whether the beginning of a line is handed on of which nothing more came for so many milliseconds, and whose first byte
/// came so many milliseconds ago.
fn is_due(silence: u64, age: u64) -> bool
    ensures { result ≡ is_due silence age }
{
    silence >= SILENCE || age >= MOST_AGE
}

impl LineBuffer {
    /// No bytes came yet. It takes no memory.
    pub fn new(alloc: Global) -> LineBuffer
        ensures { result ≡ [] }
    {
        LineBuffer {
            bytes: Vec::new(alloc),
        }
    }

    /// The whole lines that there are with these bytes behind those that came before; what is left is kept. Only want of
    /// memory is an error.
    #[tactic(auto, using(crate::proofs::LineLaws::joined_line, crate::proofs::LineLaws::taken_none, crate::proofs::LineLaws::taken_some))]
    pub fn take(&mut self, alloc: Global, more: &[u8]) -> Result<Vec<u8>, AllocError>
        ensures { IfOk result (λ lines. IsTaken (self.old ++ more.now) lines.items self.new) }
    {
        let (whole, rest) = more.split_at(whole_length(more));
        if whole.is_empty() {
            self.bytes.extend_from_slice(rest)?;
            return Ok(Vec::new(alloc));
        }
        let rest = Vec::from_slice(alloc, rest)?;
        let mut lines = mem::replace(&mut self.bytes, rest);
        lines.extend_from_slice(whole)?;
        Ok(lines)
    }

    /// What is handed on of what waits once nothing more of it came for so many milliseconds, and its first byte came so
    /// many milliseconds ago: all of it from `SILENCE` or `MOST_AGE` on, or else nothing. It takes no memory.
    pub fn take_due(&mut self, alloc: Global, silence: u64, age: u64) -> Vec<u8>
        ensures handed { result.items ≡ (if is_due silence age then self.old else []) }
        ensures left { self.new ≡ (if is_due silence age then [] else self.old) }
    {
        if is_due(silence, age) {
            self.take_all(alloc)
        } else {
            Vec::new(alloc)
        }
    }

    /// What waits. It takes no memory.
    pub fn take_all(&mut self, alloc: Global) -> Vec<u8>
        ensures all { result.items ≡ self.old }
        ensures left { self.new ≡ [] }
    {
        mem::replace(&mut self.bytes, Vec::new(alloc))
    }

    /// Whether nothing waits.
    pub fn is_empty(&self) -> bool
        ensures { result ≡ (length self.now == 0) }
    {
        self.bytes.is_empty()
    }
}
