//! The hosts of a job: on which of them each rank is, and at which addresses.

use crate::allocation::{count_of_batch, hosts_of_batch};
use crate::own_machine::{OwnName, address_towards, is_here};
use host_files::{
    FileFault, Host, hosts_in_list, hosts_of, hosts_of_more_ranks, hosts_of_ranks, slot_count,
};
use host_keepers::keeper_of;
use launch_keeper::Word;
use process_commands::text_of;
use rank_addresses::list_text;
use run_plan::RunOptions;
use shown_words::Shown;
use std::alloc::{AllocError, Global};
use std::io::ErrorKind;
use std::net::{Ipv4Addr, Net, SocketAddr, ToSocketAddrs};
use std::rt::{Env, Files};
use std::{fs, io};

/// The status of a file that is refused.
const REFUSED: u8 = 2;

/// The status where memory was wanting.
const FAILED: u8 = 3;

/// The most ranks that a job has.
const MOST_RANKS: u16 = 1_024;

/// The hosts of a job.
#[derive(Drop)]
pub struct JobHosts {
    /// The keeper of each rank, by its place; none where its program starts without help, since it is on this machine.
    keepers: Vec<Option<usize>>,
    /// The name of each keeper's host.
    names: Vec<Word>,
    /// The first rank of each keeper.
    firsts: Vec<usize>,
    /// The text that lists the address of each rank.
    pub list: Word,
    /// Whether they are nodes of an allocation of SLURM.
    pub is_of_slurm: bool,
}

impl JobHosts {
    /// The place of a rank's keeper, where its program is started by one.
    pub fn keeper_of(&self, rank: usize) -> Option<usize> {
        match self.keepers.get(rank) {
            Some(place) => *place,
            None => None,
        }
    }

    /// How many keepers there are: one for each other host.
    pub fn keeper_count(&self) -> usize {
        self.names.len()
    }

    /// The name of the host of the keeper at this place.
    pub fn keeper_host(&self, place: usize) -> Option<&Word> {
        self.names.get(place)
    }

    /// The first rank of the keeper at this place.
    pub fn first_rank(&self, place: usize) -> usize {
        self.firsts.get(place).copied().unwrap_or(0)
    }

    /// Whether the programs of all ranks start on this machine without help.
    pub fn are_here(&self) -> bool {
        self.names.is_empty()
    }
}

/// The first IPv4 address of a name, or the one that is written there.
fn address_of<R: Net>(rt: &R, name: &str) -> Option<Ipv4Addr> {
    let found = (name, 1u16).to_socket_addrs(rt).ok()?;
    for one in found {
        if let SocketAddr::V4(place) = one {
            return Some(*place.ip());
        }
    }
    None
}

/// What tells the hosts of a job.
#[derive(Drop)]
pub struct HostText<'a> {
    /// What it is called where a fault is told: the file's name, the option, or the variable of a batch system.
    pub name: &'a str,
    /// The file's content, or the list.
    pub text: Vec<u8>,
    /// Whether it is a list.
    pub is_list: bool,
    /// Whether a batch system tells them, and the user doesn't.
    pub is_of_batch: bool,
    /// Whether SLURM tells them.
    pub starts_by_srun: bool,
}

/// Tells why hosts are refused.
fn tell_fault<R: Eprint>(rt: &R, from: &HostText<'_>, fault: FileFault) -> u8 {
    match fault {
        FileFault::OutOfMemory => FAILED,
        FileFault::Line(number, fault) => {
            let (name, part) = (from.name, if from.is_list { "host" } else { "line" });
            let _ = eprintln!(rt; "mpirun: {name} {part} {number}: {fault}");
            REFUSED
        }
    }
}

/// The address of each of these hosts; tells the first that has none.
fn addresses_of<R: Net + Eprint + AllocGlobal>(
    rt: &R,
    hosts: &[Host<'_>],
) -> Result<Vec<Ipv4Addr>, u8> {
    let mut addresses = Vec::new(rt.alloc());
    for host in hosts {
        let name = str::from_utf8(host.name).unwrap_or("");
        let Some(address) = address_of(rt, name) else {
            let _ = eprintln!(rt; "mpirun: the host {name} has no IPv4 address");
            return Err(REFUSED);
        };
        if addresses.push(address).is_err() {
            return Err(FAILED);
        }
    }
    Ok(addresses)
}

/// The place of the keeper of a rank on this host, which has one from now on.
fn keeper_on(
    alloc: Global,
    names: &mut Vec<Word>,
    firsts: &mut Vec<usize>,
    host: &[u8],
    rank: usize,
) -> io::Result<usize> {
    if let Some(place) = keeper_of(names, host) {
        return Ok(place);
    }
    let place = names.len();
    let name = Word::from_slice(alloc, host)?;
    names.push(name).map_err(AllocError::from)?;
    firsts.push(rank).map_err(AllocError::from)?;
    Ok(place)
}

/// The hosts of ranks, each of which is on the host at its place of these.
fn placed(
    alloc: Global,
    hosts: &[Host<'_>],
    addresses: &[Ipv4Addr],
    places: &[usize],
) -> io::Result<JobHosts> {
    let (mut keepers, mut listed) = (Vec::new(alloc), Vec::new(alloc));
    let (mut names, mut firsts) = (Vec::new(alloc), Vec::new(alloc));
    for (rank, place) in places.iter().enumerate() {
        let (Some(host), Some(address)) = (hosts.get(*place), addresses.get(*place)) else {
            return Err(io::Error::from(ErrorKind::InvalidInput));
        };
        let keeper = if host.is_local {
            None
        } else {
            Some(keeper_on(alloc, &mut names, &mut firsts, host.name, rank)?)
        };
        keepers.push(keeper).map_err(AllocError::from)?;
        listed.push(*address).map_err(AllocError::from)?;
    }
    let list = Word::from_vec(list_text(alloc, &listed)?);
    Ok(JobHosts {
        keepers,
        names,
        firsts,
        list,
        is_of_slurm: false,
    })
}

/// These hosts, each marked as this machine where it is: by its line, its name or its address.
fn marked<'a, R: Net + AllocGlobal>(
    rt: &R,
    hosts: &[Host<'a>],
    addresses: &[Ipv4Addr],
) -> Result<Vec<Host<'a>>, AllocError> {
    let own = OwnName::now();
    let mut all = Vec::new(rt.alloc());
    for (host, address) in hosts.iter().zip(addresses.iter()) {
        let is_local = host.is_local || is_here(rt, &own, host, *address);
        all.push(Host { is_local, ..*host })?;
    }
    Ok(all)
}

/// The addresses of hosts as all ranks are told them: where others are beside this machine, it has one that they reach, and
/// where it is alone, one that it has. Tells which host can't be reached by the others.
fn told_addresses<R: Net + Eprint + AllocGlobal>(
    rt: &R,
    hosts: &[Host<'_>],
    addresses: &[Ipv4Addr],
) -> Result<Vec<Ipv4Addr>, u8> {
    let other = addresses.iter().find(|one| !one.is_loopback());
    let mut all = Vec::new(rt.alloc());
    for (host, address) in hosts.iter().zip(addresses.iter()) {
        let found = match other {
            Some(other) if address.is_loopback() => {
                if host.is_local {
                    address_towards(rt, *other)
                } else {
                    None
                }
            }
            _ => Some(*address),
        };
        let Some(found) = found else {
            let name = str::from_utf8(host.name).unwrap_or("");
            let _ = eprintln!(rt;
                "mpirun: other hosts can't reach {name}: its address is this machine's own"
            );
            return Err(REFUSED);
        };
        if all.push(found).is_err() {
            return Err(FAILED);
        }
    }
    Ok(all)
}

/// How many ranks these hosts take.
fn slots_of_all(hosts: &[Host<'_>], per_host: Option<u16>) -> u64 {
    hosts.iter().fold(
        0u64,
        |all, host| all.saturating_add(u64::from(slot_count(host, per_host))),
    )
}

/// The host of each of so many ranks, by its place, where these hosts take them.
fn places_by(
    alloc: Global,
    hosts: &[Host<'_>],
    options: RunOptions,
    size: u16,
) -> Result<Option<Vec<usize>>, AllocError> {
    if let Some(places) = hosts_of_ranks(alloc, hosts, options.per_host, size)? {
        return Ok(Some(places));
    }
    if options.oversubscribes {
        return hosts_of_more_ranks(alloc, hosts, options.per_host, size);
    }
    Ok(None)
}

/// Tells that these hosts don't take so many ranks, and what would let them.
fn tell_too_many<R: Eprint>(
    rt: &R,
    name: &str,
    hosts: &[Host<'_>],
    options: RunOptions,
    size: u16,
) -> u8 {
    let slots = slots_of_all(hosts, options.per_host);
    let behind = if slots == 0 {
        ""
    } else if options.oversubscribes {
        ", and max_slots says how many one takes at most"
    } else {
        "; with -oversubscribe hosts take more"
    };
    let ranks = if size == 1 { "rank" } else { "ranks" };
    let places = if slots == 1 { "slot" } else { "slots" };
    let _ = eprintln!(rt; "mpirun: {size} {ranks}, and {slots} {places} in {name}{behind}");
    REFUSED
}

/// The hosts of so many ranks, which these hosts take; tells where they are too many.
fn shared_out<R: Net + Eprint + AllocGlobal>(
    rt: &R,
    name: &str,
    hosts: &[Host<'_>],
    options: RunOptions,
    size: u16,
) -> Result<JobHosts, u8> {
    let Ok(found) = places_by(rt.alloc(), hosts, options, size) else {
        return Err(FAILED);
    };
    let Some(places) = found else {
        return Err(tell_too_many(rt, name, hosts, options, size));
    };
    let count = match places.iter().max() {
        Some(last) => last.saturating_add(1),
        None => 0,
    };
    let (used, _) = hosts.split_at(count.min(hosts.len()));
    let addresses = addresses_of(rt, used)?;
    let Ok(used) = marked(rt, used, &addresses) else {
        return Err(FAILED);
    };
    let addresses = told_addresses(rt, &used, &addresses)?;
    match placed(rt.alloc(), &used, &addresses, &places) {
        Ok(hosts) => Ok(hosts),
        Err(_) => Err(FAILED),
    }
}

/// The word at this place as a text.
fn text_at(words: &[Word], place: usize) -> Result<&str, u8> {
    let Some(word) = words.get(place) else {
        return Err(FAILED);
    };
    text_of(word).map_err(|_| REFUSED)
}

/// The file that tells the hosts; tells where it can't be read.
fn file_text<'a, R: Files + Eprint + AllocGlobal>(
    rt: &R,
    file: &'a str,
) -> Result<HostText<'a>, u8> {
    let Ok(text) = fs::read(rt, file) else {
        let word = Shown {
            word: file.as_bytes(),
        };
        let _ = eprintln!(rt; "mpirun: '{word}' can't be read");
        return Err(REFUSED);
    };
    Ok(HostText {
        name: file,
        text,
        is_list: false,
        is_of_batch: false,
        starts_by_srun: false,
    })
}

/// What tells the hosts, by these options or else by the allocation of a batch system; tells where that is two things.
fn host_text<'a, R: Env + Files + Eprint + AllocGlobal>(
    rt: &R,
    words: &'a [Word],
    options: RunOptions,
) -> Result<Option<HostText<'a>>, u8> {
    match (options.host_file, options.hosts) {
        (Some(_), Some(_)) => {
            let _ = eprintln!(rt; "mpirun: -host and -hostfile both say where the ranks are");
            Err(REFUSED)
        }
        (Some(place), None) => Ok(Some(file_text(rt, text_at(words, place)?)?)),
        (None, Some(place)) => {
            let list = text_at(words, place)?;
            match Vec::from_slice(rt.alloc(), list.as_bytes()) {
                Ok(text) => Ok(Some(HostText {
                    name: "-host",
                    text,
                    is_list: true,
                    is_of_batch: false,
                    starts_by_srun: false,
                })),
                Err(_) => Err(FAILED),
            }
        }
        (None, None) => hosts_of_batch(rt),
    }
}

/// The hosts that a text tells; tells where it is at fault.
fn told_in<'a, R: Eprint + AllocGlobal>(
    rt: &R,
    from: &'a HostText<'_>,
) -> Result<Vec<Host<'a>>, u8> {
    let told = if from.is_list {
        hosts_in_list(rt.alloc(), &from.text)
    } else {
        hosts_of(rt.alloc(), &from.text)
    };
    match told {
        Ok(hosts) => Ok(hosts),
        Err(fault) => Err(tell_fault(rt, from, fault)),
    }
}

/// How many ranks the hosts take that these options or a batch system say, at most 1,024, if they say any; tells why they
/// can't be read.
pub fn slots_by<R: Env + Files + Eprint + AllocGlobal>(
    rt: &R,
    words: &[Word],
    options: RunOptions,
) -> Result<Option<u16>, u8> {
    let Some(from) = host_text(rt, words, options)? else {
        return Ok(None);
    };
    if from.starts_by_srun && options.per_host.is_none() {
        if let Some(count) = count_of_batch(rt, MOST_RANKS) {
            return Ok(Some(count));
        }
    }
    let hosts = told_in(rt, &from)?;
    let count = slots_of_all(&hosts, options.per_host);
    let count = u16::try_from(count).unwrap_or(MOST_RANKS);
    Ok(Some(count.min(MOST_RANKS).max(1)))
}

/// Whether all these hosts are this machine.
fn are_here<R: Net + Eprint + AllocGlobal>(rt: &R, hosts: &[Host<'_>]) -> Result<bool, u8> {
    let addresses = addresses_of(rt, hosts)?;
    let Ok(hosts) = marked(rt, hosts, &addresses) else {
        return Err(FAILED);
    };
    Ok(hosts.iter().all(|one| one.is_local))
}

/// The hosts of so many ranks by these options, or else by a batch system that allocated others than this machine; none
/// where all ranks are here. Tells why there are none that take them.
pub fn hosts_by<R: Net + Env + Files + Eprint + AllocGlobal>(
    rt: &R,
    words: &[Word],
    options: RunOptions,
    size: u16,
) -> Result<Option<JobHosts>, u8> {
    let Some(from) = host_text(rt, words, options)? else {
        return Ok(None);
    };
    let hosts = told_in(rt, &from)?;
    if from.is_of_batch && are_here(rt, &hosts)? {
        return Ok(None);
    }
    let mut shared = shared_out(rt, from.name, &hosts, options, size)?;
    shared.is_of_slurm = from.starts_by_srun;
    Ok(Some(shared))
}
