//! Where a rank is, as ranks tell it one another through their launcher.

ghost use Rattle.std.specs.Prelude.{◌≡◌, ℕ, ◌++◌, ◌<◌, ◌≤◌, ◌^◌, IfOk, IfSome, None, OnOk, Option, Some};
ghost use Rattle.std.specs.Fmt.{decimal};
ghost use Rattle.std.specs.Net.Addr.{IsIpv4Addr};
ghost use Rattle.launcher_words.specs.Places.{IsPlace, IsTail, address_text, job_text, place_text, tail_text};

use crate::cut::around;
use crate::ports::port_in;
use numerals::number_between;
use std::alloc::{AllocError, Global};
use std::net::Ipv4Addr;

/// Where a rank is.
#[derive(Clone, Copy)]
pub struct ToldPlace {
    /// Its address.
    pub host: Ipv4Addr,
    /// Its port, 1 to 65,535.
    pub port: u16,
    /// The job's number: rank 0 tells it, and no other rank.
    pub job: Option<u64>,
}

/// What stands behind the address.
#[derive(Clone, Copy)]
struct Tail {
    port: u16,
    job: Option<u64>,
}

/// The address that a text writes.
#[tactic(auto, using(crate::proofs::PlaceLaws::written_address, crate::proofs::PlaceLaws::read_address))]
pub(crate) fn address_in(text: &[u8]) -> Option<Ipv4Addr>
    ensures written { IfSome result (λ host. IsIpv4Addr host × (text.now ≡ address_text host)) }
    ensures read { (host : Ipv4Addr) → IsIpv4Addr host → text.now ≡ address_text host → result ≡ Some host }
{
    match Ipv4Addr::parse_ascii(text) {
        Ok(host) => Some(host),
        Err(_) => None,
    }
}

/// The job's number that a text writes.
fn job_in(text: &[u8]) -> Option<u64>
    ensures written { IfSome result (λ job. text.now ≡ decimal job) }
    ensures read { (job : ℕ) → job < 2 ^ 64 → text.now ≡ decimal job → result ≡ Some job }
{
    number_between(text, 0, u64::MAX)
}

/// The port and the job's number that a text of rank 0 writes.
fn first_tail_in(text: &[u8]) -> Option<Tail>
    ensures written { IfSome result (λ tail. IsTail 0 tail.port tail.job × (text.now ≡ tail_text tail.port tail.job)) }
    ensures read { (port : ℕ) → (job : Option ℕ) → IsTail 0 port job → text.now ≡ tail_text port job →
        result ≡ Some (record { port = port; job = job }) }
{
    let Some((port, job)) = around(text, b':') else {
        return None;
    };
    match (port_in(port), job_in(job)) {
        (Some(port), Some(job)) => Some(Tail {
            port,
            job: Some(job),
        }),
        _ => None,
    }
}

/// The port that a text of another rank writes.
fn other_tail_in(text: &[u8]) -> Option<Tail>
    ensures written { IfSome result (λ tail. (1 ≤ tail.port) × (tail.port ≤ 65535) × (tail.job ≡ None) ×
        (text.now ≡ tail_text tail.port None)) }
    ensures read { (port : ℕ) → 1 ≤ port → port ≤ 65535 → text.now ≡ tail_text port None →
        result ≡ Some (record { port = port; job = None }) }
{
    let port = port_in(text)?;
    Some(Tail { port, job: None })
}

/// What a text of this rank writes behind the address.
fn tail_in(text: &[u8], rank: u16) -> Option<Tail>
    ensures written { IfSome result (λ tail. IsTail rank tail.port tail.job ×
        (text.now ≡ tail_text tail.port tail.job)) }
    ensures read { (port : ℕ) → (job : Option ℕ) → IsTail rank port job → text.now ≡ tail_text port job →
        result ≡ Some (record { port = port; job = job }) }
{
    if rank == 0 {
        first_tail_in(text)
    } else {
        other_tail_in(text)
    }
}

/// The place that a text of this rank tells. It tells one just where it is what `place_text` writes of a place of that
/// rank: an address, a port from 1 on, and the job's number of rank 0 alone. It takes no memory.
pub fn read_place(text: &[u8], rank: u16) -> Option<ToldPlace>
    ensures written { IfSome result (λ place. IsPlace rank place × (text.now ≡ place_text place)) }
    ensures read { (place : ToldPlace) → IsPlace rank place → text.now ≡ place_text place → result ≡ Some place }
{
    let Some((host, behind)) = around(text, b':') else {
        return None;
    };
    match (address_in(host), tail_in(behind, rank)) {
        (Some(host), Some(tail)) => Some(ToldPlace {
            host,
            port: tail.port,
            job: tail.job,
        }),
        _ => None,
    }
}

/// Adds the job's number, where there is one.
fn push_job(alloc: Global, text: &mut Vec<u8>, job: Option<u64>) -> Result<(), AllocError>
    ensures { OnOk result (text.new.items ≡ text.old.items ++ job_text job) }
{
    let Some(job) = job else {
        return Ok(());
    };
    let shown = format!(in alloc; ":{job}")?;
    text.extend_from_slice(shown.as_bytes())?;
    Ok(())
}

/// The text that tells a place: `address:port`, and `address:port:job` where it has the job's number. Only want of
/// memory is an error.
pub fn place_text(alloc: Global, place: ToldPlace) -> Result<Vec<u8>, AllocError>
    ensures { IfOk result (λ text. text.items ≡ place_text place) }
{
    let host = place.host;
    let port = place.port;
    let shown = format!(in alloc; "{host}:{port}")?;
    let mut text = Vec::from_slice(alloc, shown.as_bytes())?;
    push_job(alloc, &mut text, place.job)?;
    Ok(text)
}
