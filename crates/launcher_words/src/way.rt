//! By which way a process has its place in a job.

ghost use Rattle.std.specs.Prelude.{◌≡◌, ◌≤◌, IfSome, MatchResult};
ghost use Rattle.std.specs.Option.{option_copied};
ghost use Rattle.launcher_words.specs.Ways.{HasNetwork, HasPorts, IsFault, IsRankOfSize, IsWay, Tells, is_many};
ghost use Rattle.launcher_words.specs.Ways.{is_named, is_there, is_told_by_pmi, number_in, other_launcher, other_way};
ghost use Rattle.launcher_words.specs.Ways.{patience_in, variable, wire_in};

use crate::answer::Wire;
use crate::place::address_in;
use crate::ports::{PortRange, port_range};
use crate::words::value_of;
use numerals::number_between;
use std::net::Ipv4Addr;

/// A place that a launcher of the site tells by PMI, and how the rank finds its address.
#[derive(Clone, Copy)]
pub struct LauncherPlace {
    /// How it speaks.
    pub wire: Wire,
    /// The file descriptor over which it speaks, 0 to 2,147,483,647.
    pub descriptor: u32,
    /// The rank, below the size.
    pub rank: u16,
    /// How many ranks the job has, 1 to 1,024.
    pub size: u16,
    /// Of which ports the rank takes a free one; any where there are none.
    pub ports: Option<PortRange>,
    /// To which address the network leads in which the ranks are.
    pub towards: Ipv4Addr,
    /// For how many milliseconds nothing may move until the rank gives up, 1 to 3,600,000, where that is told.
    pub patience: Option<u32>,
}

/// Why a process has no place.
#[derive(Clone, Copy, Debug, PartialEq, Eq)]
pub enum Fault {
    /// `PMI_FD` is absent or tells no descriptor.
    Descriptor,
    /// `PMI_SIZE` is absent or no number from 1 to 1,024.
    Size,
    /// `PMI_RANK` is absent or no number up to 1,023.
    Rank,
    /// The rank isn't below the size.
    Order,
    /// `KOMBAZILY_PMI` is neither 1 nor 2.
    Wire,
    /// `KOMBAZILY_PORTS` is no range of ports.
    Ports,
    /// `KOMBAZILY_TOWARDS` is no address.
    Network,
    /// `KOMBAZILY_PATIENCE` is no number from 1 to 3,600,000.
    Patience,
    /// SLURM started several tasks, and nothing speaks PMI.
    Slurm,
    /// Open MPI's launcher started several processes.
    OpenMpi,
    /// A launcher that speaks PMIx alone started the process.
    Pmix,
}

/// By which way a process has its place.
#[derive(Clone, Copy)]
pub enum Way {
    /// By the words in front of its own.
    Words,
    /// By the variables `KOMBAZILY_RANK`, `KOMBAZILY_SIZE`, ..
    Variables,
    /// By a launcher that speaks PMI.
    Launcher(LauncherPlace),
    /// It is a job of one rank.
    Alone,
    /// It has none.
    Refused(Fault),
}

/// The value of a variable.
fn variable<'a>(environment: &'a [u8], name: &[u8]) -> Option<&'a [u8]>
    ensures { option_copied result ≡ variable environment.now name.now }
{
    value_of(environment, name, 0)
}

/// Whether a variable is there.
fn is_there(environment: &[u8], name: &[u8]) -> bool
    ensures { result ≡ is_there environment.now name.now }
{
    variable(environment, name).is_some()
}

/// The number between these bounds that a variable tells.
fn number_in(environment: &[u8], name: &[u8], low: u64, high: u64) -> Option<u64>
    ensures exact { result ≡ number_in environment.now name.now low high }
    ensures most { IfSome result (λ n. n ≤ high) }
{
    match variable(environment, name) {
        Some(text) => number_between(text, low, high),
        None => None,
    }
}

/// Whether a variable that tells the rank's place is there.
fn is_named(environment: &[u8]) -> bool
    ensures { result ≡ is_named environment.now }
{
    is_there(environment, b"KOMBAZILY_RANK")
        || is_there(environment, b"KOMBAZILY_SIZE")
        || is_there(environment, b"KOMBAZILY_INCARNATION")
        || is_there(environment, b"KOMBAZILY_JOB")
        || is_there(environment, b"KOMBAZILY_PORT")
}

/// Whether a variable of PMI is there.
fn is_told_by_pmi(environment: &[u8]) -> bool
    ensures { result ≡ is_told_by_pmi environment.now }
{
    is_there(environment, b"PMI_FD")
        || is_there(environment, b"PMI_RANK")
        || is_there(environment, b"PMI_SIZE")
        || is_there(environment, b"PMI_PORT")
}

/// Which version of PMI is spoken.
fn wire_in(environment: &[u8]) -> Option<Wire>
    ensures { result ≡ wire_in environment.now }
{
    if !is_there(environment, b"KOMBAZILY_PMI") {
        return Some(Wire::Lines);
    }
    match number_in(environment, b"KOMBAZILY_PMI", 1, 2) {
        Some(2) => Some(Wire::Records),
        Some(_) => Some(Wire::Lines),
        None => None,
    }
}

/// The ports that are told.
fn ports_in(environment: &[u8]) -> Option<Option<PortRange>>
    ensures { HasPorts environment.now result }
{
    match variable(environment, b"KOMBAZILY_PORTS") {
        Some(text) => match port_range(text) {
            Some(range) => Some(Some(range)),
            None => None,
        },
        None => Some(None),
    }
}

/// The address that is told.
fn network_in(environment: &[u8]) -> Option<Ipv4Addr>
    ensures { HasNetwork environment.now result }
{
    match variable(environment, b"KOMBAZILY_TOWARDS") {
        Some(text) => address_in(text),
        None => Some(Ipv4Addr::new(192, 0, 2, 1)),
    }
}

/// The patience that is told.
fn patience_in(environment: &[u8]) -> Option<Option<u32>>
    ensures { result ≡ patience_in environment.now }
{
    if !is_there(environment, b"KOMBAZILY_PATIENCE") {
        return Some(None);
    }
    match number_in(environment, b"KOMBAZILY_PATIENCE", 1, 3_600_000) {
        Some(patience) => Some(Some(patience as u32)),
        None => None,
    }
}

/// The rank and the size that are told.
fn rank_and_size(environment: &[u8]) -> Result<(u16, u16), Fault>
    ensures { MatchResult result (λ told. IsRankOfSize environment.now told.0 told.1) (IsFault environment.now) }
{
    let Some(size) = number_in(environment, b"PMI_SIZE", 1, 1_024) else {
        return Err(Fault::Size);
    };
    let Some(rank) = number_in(environment, b"PMI_RANK", 0, 1_023) else {
        return Err(Fault::Rank);
    };
    if size <= rank {
        return Err(Fault::Order);
    }
    Ok((rank as u16, size as u16))
}

/// What a launcher tells.
fn launcher_place(environment: &[u8]) -> Result<LauncherPlace, Fault>
    ensures { MatchResult result (Tells environment.now) (IsFault environment.now) }
{
    let Some(descriptor) = number_in(environment, b"PMI_FD", 0, 2_147_483_647) else {
        return Err(Fault::Descriptor);
    };
    let (rank, size) = rank_and_size(environment)?;
    let Some(wire) = wire_in(environment) else {
        return Err(Fault::Wire);
    };
    let Some(ports) = ports_in(environment) else {
        return Err(Fault::Ports);
    };
    let Some(towards) = network_in(environment) else {
        return Err(Fault::Network);
    };
    let Some(patience) = patience_in(environment) else {
        return Err(Fault::Patience);
    };
    Ok(LauncherPlace {
        wire,
        descriptor: descriptor as u32,
        rank,
        size,
        ports,
        towards,
        patience,
    })
}

/// Whether a variable tells of more than one process.
fn is_many(environment: &[u8], name: &[u8]) -> bool
    ensures { result ≡ is_many environment.now name.now }
{
    number_in(environment, name, 2, u64::MAX).is_some()
}

/// Whether another launcher started several processes, each of which would be a job of its own.
fn other_launcher(environment: &[u8]) -> Option<Fault>
    ensures { result ≡ other_launcher environment.now }
{
    if is_many(environment, b"SLURM_STEP_NUM_TASKS") {
        return Some(Fault::Slurm);
    }
    if is_many(environment, b"OMPI_COMM_WORLD_SIZE") {
        return Some(Fault::OpenMpi);
    }
    if is_there(environment, b"PMIX_NAMESPACE")
        && !is_there(environment, b"SLURM_STEP_NUM_TASKS")
        && !is_there(environment, b"OMPI_COMM_WORLD_SIZE")
    {
        return Some(Fault::Pmix);
    }
    None
}

/// The way of a process that no launcher of ours and none that speaks PMI started.
fn other_way(environment: &[u8]) -> Way
    ensures { result ≡ other_way environment.now }
{
    if is_there(environment, b"KOMBAZILY_PARENT") {
        return Way::Alone;
    }
    match other_launcher(environment) {
        Some(fault) => Way::Refused(fault),
        None => Way::Alone,
    }
}

/// By which way a process has its place: by its words, where they tell it; else by the variables of this project's
/// launchers, where one of them is there; else by PMI, where one of its variables is there. Where nothing of these
/// tells a place the process is a job of one rank, unless another launcher started several such. What a rank itself
/// started (`KOMBAZILY_PARENT` is there) is such a job in any case.
///
/// The environment is its variables, `NAME=value` each, with a byte 0 behind each. It takes no memory.
pub fn way_of(has_words: bool, environment: &[u8]) -> Way
    ensures { IsWay has_words environment.now result }
{
    if has_words {
        return Way::Words;
    }
    if is_named(environment) {
        return Way::Variables;
    }
    if is_told_by_pmi(environment) {
        return match launcher_place(environment) {
            Ok(place) => Way::Launcher(place),
            Err(fault) => Way::Refused(fault),
        };
    }
    other_way(environment)
}
