//! What a keeper reports of its rank.

ghost use Rattle.std.specs.Prelude.{◌≡◌, [], ◌∷◌, ◌++◌, IfOk, MatchOption};
ghost use Rattle.launch_keeper.specs.Reports.{IsReport};

use std::alloc::AllocError;

/// What a keeper reports of its rank: the outputs of its incarnations, one behind the other, and the
/// last one's status.
#[derive(Drop)]
pub struct Report {
    /// The bytes that the rank's programs wrote to standard output.
    pub output: Vec<u8>,
    /// The status of the last of them.
    pub status: u8,
}

impl Report {
    /// The report as bytes, from which `from_bytes` makes it again: the output, and the status behind
    /// it. Only want of memory is an error.
    pub fn into_bytes(self) -> Result<Vec<u8>, AllocError>
        ensures { IfOk result (λ bytes. IsReport bytes.items self) }
    {
        let mut bytes = self.output;
        bytes.push(self.status)?;
        Ok(bytes)
    }

    /// The report of these bytes; `None` where there are none, as of a keeper that was killed. It
    /// takes no memory.
    pub fn from_bytes(bytes: Vec<u8>) -> Option<Report>
        ensures { MatchOption result (bytes.items ≡ []) (λ report. IsReport bytes.items report) }
    {
        let mut output = bytes;
        let status = output.pop()?;
        Some(Report { output, status })
    }
}
