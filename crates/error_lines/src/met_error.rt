//! An error that a call or an operation met.

ghost use Rattle.std.specs.Prelude.{◌≡◌};

use vocabulary::Status;

/// An error that a call or an operation met.
#[derive(Drop)]
pub struct MetError {
    /// Its number, as a script prints it.
    pub number: u8,
    /// Why it came, in words of ASCII.
    pub why: String,
    /// What the message says of itself that a receive used up; none where no message was.
    pub status: Option<Status>,
    /// The number of the line that started the operation, where that is another line than the one that tells its end.
    pub started: Option<usize>,
}

impl MetError {
    /// An error of this number, of which no more is known.
    pub(crate) fn new(number: u8, why: String) -> MetError
        ensures { result.number ≡ number }
    {
        MetError {
            number,
            why,
            status: None,
            started: None,
        }
    }
}
