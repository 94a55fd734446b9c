//! What the settings of a rank say of its engine and its ports.

ghost use Rattle.std.specs.Prelude.{◌≡◌, IfOk, option_map};
ghost use Rattle.engine_calls.specs.EngineState.{opening};
ghost use Rattle.rank_process.specs.Places.{AreAddresses, AreListed, KnowsTrips, first_port, place_of};

use crate::exit_status::ExitStatus;
use engine::{Engine, Place};
use rank_addresses::{RankAddresses, host_list};
use rank_settings::Settings;
use round_trips::RoundTrips;
use std::alloc::{AllocError, Global};
use std::net::Ipv4Addr;
use vocabulary::{Endpoint, MessageLimit};

/// Where the rank of these settings stands in its job.
pub fn place_of(settings: &Settings) -> Place
    ensures { result ≡ place_of settings.now }
{
    Place {
        endpoint: Endpoint {
            rank: settings.rank,
            incarnation: settings.incarnation,
        },
        size: settings.size,
        job: settings.job,
        // Scripts have one limit.
        message_limit: MessageLimit::least(),
    }
}

/// The port of rank 0 of the job of these settings: rank s has the port that is s above.
pub fn first_port(settings: &Settings) -> u16
    ensures { result ≡ first_port settings.now }
{
    settings.port.saturating_sub(settings.rank)
}

/// The addresses that the settings list, if they do.
#[tactic(auto, using(crate::proofs::PlaceLaws::found_listed))]
fn listed_hosts(alloc: Global, settings: &Settings) -> Result<Option<Vec<Ipv4Addr>>, AllocError>
    ensures { IfOk result (λ found. AreListed settings.now.hosts (option_map (λ hosts. hosts.items) found)) }
{
    match settings.hosts {
        Some(text) => host_list(alloc, text.as_bytes()),
        None => Ok(None),
    }
}

/// Where the ranks of these settings are: at the addresses that the settings list, or, where they list none, all at
/// 127.0.0.1. Only want of memory is an error.
#[tactic(auto, using(crate::proofs::PlaceLaws::listed_at, crate::proofs::PlaceLaws::local_at))]
pub fn addresses_of(alloc: Global, settings: &Settings) -> Result<RankAddresses, AllocError>
    ensures { IfOk result (λ all. AreAddresses settings.now all) }
{
    let first_port = first_port(settings);
    match listed_hosts(alloc, settings)? {
        Some(hosts) => Ok(RankAddresses { hosts, first_port }),
        None => RankAddresses::local(alloc, settings.size, first_port),
    }
}

/// What the rank of these settings knows of round trips at its start: where its settings list hosts, nothing of any rank;
/// else that all ranks are near. Only want of memory is an error.
pub(crate) fn trips_of(alloc: Global, settings: &Settings) -> Result<RoundTrips, AllocError>
    ensures { IfOk result (λ trips. KnowsTrips settings.now trips) }
{
    if settings.hosts.is_some() {
        RoundTrips::new(alloc, settings.size)
    } else {
        RoundTrips::near(alloc, settings.size)
    }
}

/// The engine of the rank of these settings, at its start.
pub(crate) fn new_engine(alloc: Global, settings: &Settings) -> Result<Engine, ExitStatus>
    ensures { IfOk result (λ engine. engine ≡ opening (place_of settings.now)) }
{
    match Engine::new(alloc, place_of(settings)) {
        Ok(engine) => Ok(engine),
        Err(_) => Err(ExitStatus::OutOfMemory),
    }
}
