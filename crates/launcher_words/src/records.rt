//! What C is handed: numbers alone.

ghost use Rattle.std.specs.Prelude.{◌≡◌, ◌≤◌, ◌++◌, drop, length};
ghost use Rattle.launcher_words.specs.Records.{IsPlaceOf, IsPut, answer_number, ends_of, fault_number, launcher_record};
ghost use Rattle.launcher_words.specs.Records.{place_record, way_record, wire_number, wire_of_number};

use crate::answer::{Answer, Wire};
use crate::place::ToldPlace;
use crate::ports::PortRange;
use crate::way::{Fault, LauncherPlace, Way};
use std::net::Ipv4Addr;

/// A way, as numbers. Of what it doesn't tell the fields are 0.
#[repr(C)]
#[derive(Clone, Copy, Default)]
pub struct WayRecord {
    /// 1 words, 2 variables, 3 a launcher, 4 alone, 5 refused.
    pub kind: u32,
    /// The fault: 1 and more, in the order of [`Fault`].
    pub fault: u32,
    /// The descriptor over which a launcher speaks.
    pub descriptor: u32,
    /// 1 or 2: the version of PMI.
    pub wire: u32,
    /// To which address the network leads; 10.0.0.1 is 0x0a000001.
    pub towards: u32,
    /// The patience in milliseconds, or 0.
    pub patience: u32,
    /// The rank.
    pub rank: u16,
    /// How many ranks the job has.
    pub size: u16,
    /// The first of the ports of which one is taken, or 0: any may be taken.
    pub first_port: u16,
    /// The last of them, or 0.
    pub last_port: u16,
}

/// A rank's place, as numbers.
#[repr(C)]
#[derive(Clone, Copy, Default)]
pub struct ToldPlaceRecord {
    /// The job's number, or 0.
    pub job: u64,
    /// The address; 10.0.0.1 is 0x0a000001.
    pub address: u32,
    /// The port.
    pub port: u16,
    /// Whether the job's number is told.
    pub has_job: bool,
}

/// A way that tells nothing.
const NOTHING: WayRecord = WayRecord {
    kind: 0,
    fault: 0,
    descriptor: 0,
    wire: 0,
    towards: 0,
    patience: 0,
    rank: 0,
    size: 0,
    first_port: 0,
    last_port: 0,
};

impl Fault {
    /// The number that stands for it.
    fn number(self) -> u32
        ensures { result ≡ fault_number self }
    {
        match self {
            Fault::Descriptor => 1,
            Fault::Size => 2,
            Fault::Rank => 3,
            Fault::Order => 4,
            Fault::Wire => 5,
            Fault::Ports => 6,
            Fault::Network => 7,
            Fault::Patience => 8,
            Fault::Slurm => 9,
            Fault::OpenMpi => 10,
            Fault::Pmix => 11,
        }
    }
}

impl Answer {
    /// The number that stands for it.
    pub fn number(self) -> u32
        ensures { result ≡ answer_number self }
    {
        match self {
            Answer::Given => 0,
            Answer::Failed => 1,
            Answer::Other => 2,
        }
    }
}

impl Wire {
    /// The number that stands for it.
    fn number(self) -> u32
        ensures { result ≡ wire_number self }
    {
        match self {
            Wire::Lines => 1,
            Wire::Records => 2,
        }
    }

    /// That for which a number stands: lines, unless it is 2.
    pub fn of_number(number: u32) -> Wire
        ensures { result ≡ wire_of_number number }
    {
        if number == 2 {
            Wire::Records
        } else {
            Wire::Lines
        }
    }
}

/// The ends of a range, or twice 0.
fn ends_of(ports: Option<PortRange>) -> (u16, u16)
    ensures { result ≡ ends_of ports }
{
    match ports {
        Some(range) => (range.first, range.last),
        None => (0, 0),
    }
}

/// A place that a launcher tells.
fn launcher_record(place: LauncherPlace) -> WayRecord
    ensures { result ≡ launcher_record place }
{
    let (first_port, last_port) = ends_of(place.ports);
    WayRecord {
        kind: 3,
        fault: 0,
        descriptor: place.descriptor,
        wire: place.wire.number(),
        towards: place.towards.to_bits(),
        patience: place.patience.unwrap_or(0),
        rank: place.rank,
        size: place.size,
        first_port,
        last_port,
    }
}

impl Way {
    /// The way as numbers.
    pub fn record(self) -> WayRecord
        ensures { result ≡ way_record self }
    {
        match self {
            Way::Words => WayRecord { kind: 1, ..NOTHING },
            Way::Variables => WayRecord { kind: 2, ..NOTHING },
            Way::Launcher(place) => launcher_record(place),
            Way::Alone => WayRecord { kind: 4, ..NOTHING },
            Way::Refused(fault) => WayRecord {
                kind: 5,
                fault: fault.number(),
                ..NOTHING
            },
        }
    }
}

impl ToldPlace {
    /// The place as numbers.
    pub fn record(self) -> ToldPlaceRecord
        ensures { result ≡ place_record self }
    {
        ToldPlaceRecord {
            job: self.job.unwrap_or(0),
            address: self.host.to_bits(),
            port: self.port,
            has_job: self.job.is_some(),
        }
    }

    /// The place that these numbers tell.
    pub fn of_record(told: ToldPlaceRecord) -> ToldPlace
        ensures { IsPlaceOf told result }
    {
        ToldPlace {
            host: Ipv4Addr::from_bits(told.address),
            port: told.port,
            job: if told.has_job { Some(told.job) } else { None },
        }
    }
}

/// Puts bytes over the first ones.
fn copy_front(from: &[u8], into: &mut [u8])
    requires { length from.now ≤ length into.old }
    ensures { into.new ≡ from.now ++ drop (length from.now) into.old }
{
    into[..from.len()].copy_from_slice(from);
}

/// Puts a text over the first bytes of `into`: how many bytes it has. Where it has more than there are it is 0, and
/// nothing is put.
pub fn put(text: &[u8], into: &mut [u8]) -> usize
    ensures { IsPut text.now into.old into.new result }
{
    if into.len() < text.len() {
        return 0;
    }
    copy_front(text, into);
    text.len()
}
