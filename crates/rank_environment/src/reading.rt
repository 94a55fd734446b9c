//! What a rank reads of its environment.

ghost use Rattle.std.specs.Prelude.{◌≡◌, ◌≤◌, ◌↔◌, IfSome, IsTrue};
ghost use Rattle.rank_environment.specs.VariableMeanings.{number_in, patience_in, are_given, Fit, Finds, IsFound};

use crate::place::RankPlace;
use numerals::number_between;
use rank_addresses::is_host_list;

/// The values of the variables that tell a rank its place, where they are there.
#[derive(Clone, Copy, Debug)]
pub struct EnvironmentTexts<'a> {
    /// `KOMBAZILY_RANK`.
    pub rank: Option<&'a str>,
    /// `KOMBAZILY_SIZE`.
    pub size: Option<&'a str>,
    /// `KOMBAZILY_INCARNATION`.
    pub incarnation: Option<&'a str>,
    /// `KOMBAZILY_JOB`.
    pub job: Option<&'a str>,
    /// `KOMBAZILY_PORT`.
    pub base_port: Option<&'a str>,
    /// `KOMBAZILY_PATIENCE`.
    pub patience: Option<&'a str>,
    /// `KOMBAZILY_HOSTS`.
    pub hosts: Option<&'a str>,
}

/// What an environment says of a rank's place.
#[derive(Clone, Copy, Debug)]
pub enum FoundPlace<'a> {
    /// None of the variables but the patience and the hosts is there: no launcher started this process.
    Missing,
    /// Some are missing, or a value is none that a launcher sets.
    Faulty,
    /// They tell this place, and the addresses of the ranks, as a text that lists one for each; without it all are at
    /// 127.0.0.1.
    At(RankPlace, Option<&'a str>),
}

/// The number that a variable spells, between these bounds.
fn number_in(text: Option<&str>, low: u64, high: u64) -> Option<u64>
    ensures exact { result ≡ number_in text.entry low high }
    ensures low { IfSome result (λ n. low ≤ n) }
    ensures high { IfSome result (λ n. n ≤ high) }
{
    number_between(text?.as_bytes(), low, high)
}

/// The patience that a variable spells; none where it isn't there.
fn patience_in(text: Option<&str>) -> Option<Option<u32>>
    ensures { result ≡ patience_in text.entry }
{
    match text {
        Some(text) => match number_between(text.as_bytes(), 1, 3_600_000) {
            Some(number) => Some(Some(number as u32)),
            None => None,
        },
        None => Some(None),
    }
}

/// Whether one of the variables is there that have to be.
fn are_given(texts: &EnvironmentTexts) -> bool
    ensures { result ≡ are_given texts.now }
{
    texts.rank.is_some()
        || texts.size.is_some()
        || texts.incarnation.is_some()
        || texts.job.is_some()
        || texts.base_port.is_some()
}

/// Whether a text, if there is one, lists the addresses of so many ranks.
fn are_hosts(text: Option<&str>, size: u64) -> bool
    ensures { IsTrue result ↔ Fit text.entry size }
{
    match text {
        Some(text) => is_host_list(text.as_bytes(), size),
        None => true,
    }
}

/// The place that these values tell.
fn place_of(texts: &EnvironmentTexts) -> Option<RankPlace>
    ensures { Finds texts.now result }
{
    let rank = number_in(texts.rank, 0, 1_023)?;
    let size = number_in(texts.size, 1, 1_024)?;
    let incarnation = number_in(texts.incarnation, 0, 65_535)?;
    let job = number_in(texts.job, 0, u64::MAX)?;
    let base_port = number_in(texts.base_port, 1, 65_535)?;
    let patience = patience_in(texts.patience)?;
    if rank >= size || base_port + size > 65_536 || !are_hosts(texts.hosts, size) {
        return None;
    }
    Some(RankPlace {
        rank: rank as u16,
        size: size as u16,
        incarnation: incarnation as u16,
        job,
        base_port: base_port as u16,
        patience,
    })
}

/// The place that these values of the environment tell: each is decimal digits without leading zeros and in its
/// range, the rank is below the size, no port of a rank is above 65,535, and the hosts, where they are there, are an
/// address for each rank, with a comma between each two. It takes no memory.
pub fn place_in<'a>(texts: &EnvironmentTexts<'a>) -> FoundPlace<'a>
    ensures { IsFound texts.now result }
{
    if !are_given(texts) {
        return FoundPlace::Missing;
    }
    match place_of(texts) {
        Some(place) => FoundPlace::At(place, texts.hosts),
        None => FoundPlace::Faulty,
    }
}
