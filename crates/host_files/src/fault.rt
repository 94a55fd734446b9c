//! What is wrong with a file of hosts.

use std::alloc::AllocError;
use std::fmt;

/// Why a line tells no host.
#[derive(Clone, Copy, Debug, PartialEq, Eq)]
pub enum HostFault {
    /// Its first word is no name of a host and no address.
    Name,
    /// The number behind its name isn't one from 1 to 1,024, a word behind it is neither `slots=N` nor `max_slots=N`
    /// with such an N nor `local`, or the line has one of them twice.
    Option,
}

impl fmt::Display for HostFault {
    ghost use Rattle.std.specs.Prelude.{Some};
    ghost use Rattle.host_files.specs.Texts.{fault_text};

    ghost output = { λ f. Some (fault_text f) };

    fn fmt<W: fmt::Write>(&self, f: &mut fmt::Formatter<W>) -> fmt::Result {
        f.write_str(match self {
            HostFault::Name => "a host begins the line: an IPv4 address or a name",
            HostFault::Option =>
                "behind the host stand slots=N, max_slots=N, with N from 1 to 1024, and local, each once at most",
        })
    }
}

/// Why a file tells no hosts.
#[derive(Clone, Copy, Debug)]
pub enum FileFault {
    /// Memory was wanting.
    OutOfMemory,
    /// The line of this number, the first of which is 1, is at fault.
    Line(usize, HostFault),
}

impl From<AllocError> for FileFault {
    ghost use Rattle.std.specs.Prelude.{◌≡◌};
    ghost use Rattle.host_files.specs.declared.fault.FileFault.TheVariants.{OutOfMemory};

    ghost from_gives = { λ _ e. e ≡ OutOfMemory };

    fn from(_error: AllocError) -> FileFault {
        FileFault::OutOfMemory
    }
}
