//! What the names of a rank stand for, as far as a line can be followed by it.

use statements::CommunicatorName;
use tokens::Name;

/// What the name of a buffer stands for.
#[derive(Clone, Copy, Debug, PartialEq, Eq)]
pub enum Slot {
    /// Nothing: it isn't set.
    Unset,
    /// A buffer that is lent to a receive.
    Lent,
    /// A buffer that is here.
    Here,
}

/// What knows what the names of a rank stand for.
pub trait Holder {
    ghost use Rattle.std.specs.Prelude.{◌≡◌};
    ghost use Rattle.line_diagnostics.specs.Lacks.{Holdings};

    /// What the names stand for.
    ghost held: { Self → Holdings };

    /// Whether a communicator has this name.
    fn has_communicator(&self, name: &Name) -> bool
        ensures { result ≡ (held self.now).communicators name.now };

    /// Whether a layout has this name.
    fn has_layout(&self, name: &Name) -> bool
        ensures { result ≡ (held self.now).layouts name.now };

    /// Whether a request, which may be null, has this name.
    fn has_request(&self, name: &Name) -> bool
        ensures { result ≡ (held self.now).requests name.now };

    /// Whether a message, which may have ended, has this name.
    fn has_message(&self, name: &Name) -> bool
        ensures { result ≡ (held self.now).messages name.now };

    /// What the name of a buffer stands for.
    fn slot(&self, name: &Name) -> Slot
        ensures { result ≡ (held self.now).slots name.now };

    /// Whether the rank is the member with this rank of the communicator that a line names.
    fn is_member(&self, communicator: &CommunicatorName, rank: u16) -> bool
        ensures { result ≡ (held self.now).members communicator.now rank };
}
