//! Reading the words.

ghost use Rattle.std.specs.Prelude.{◌≡◌, ◌≤◌, ◌↔◌, Err, IfOk, IsTrue, codes, map};
ghost use Rattle.clap.specs.Words.{first_of, found_of, kind_of, rows_of};
ghost use Rattle.rank_settings.specs.Settings.{Answers, AreHosts, ArePorts, Finds, RowsAnswer, number_in, patience_of};
ghost use Rattle.rank_settings.specs.Settings.{refusal_of, text_in};

use crate::program::rank_program;
use crate::refusal::SettingsRefusal;
use crate::settings::Settings;
use clap::error::ErrorKind;
use clap::{ArgMatches, Error};
use numerals::number_between;
use rank_addresses::is_host_list;
use std::alloc::Global;
use std::convert::AsStr;

/// For how many milliseconds nothing may move until a rank gives up, where the words give no patience.
pub(crate) const USUAL_PATIENCE: u64 = 10_000;

/// The value of an option that has to be there.
fn value_of<'a>(matches: &ArgMatches<'a>, name: &str) -> Result<&'a str, SettingsRefusal>
    ensures { Finds (λ text. text.now) result (first_of name.now (rows_of (found_of matches.now))) }
{
    match matches.get_str(name) {
        Some(text) => Ok(text),
        None => Err(SettingsRefusal::Words),
    }
}

/// The number that the value of an option spells, between these bounds.
fn number_of(matches: &ArgMatches, name: &str, low: u64, high: u64) -> Result<u64, SettingsRefusal>
    ensures exact { Finds (λ n. n) result (number_in (rows_of (found_of matches.now)) name.now low high) }
    ensures low { IfOk result (λ n. low ≤ n) }
    ensures high { IfOk result (λ n. n ≤ high) }
{
    let text = value_of(matches, name)?;
    match number_between(text.as_bytes(), low, high) {
        Some(number) => Ok(number),
        None => Err(SettingsRefusal::Words),
    }
}

/// The patience that the words give, or the usual one.
fn patience_in(matches: &ArgMatches) -> Result<u64, SettingsRefusal>
    ensures { Finds (λ n. n) result (patience_of (first_of (codes "patience") (rows_of (found_of matches.now)))) }
{
    match matches.get_str("patience") {
        Some(text) => match number_between(text.as_bytes(), 1, 3_600_000) {
            Some(number) => Ok(number),
            None => Err(SettingsRefusal::Words),
        },
        None => Ok(USUAL_PATIENCE),
    }
}

/// The hosts that the words give, if they give any.
fn hosts_in<'a>(matches: &ArgMatches<'a>) -> Option<&'a str>
    ensures { text_in result ≡ first_of (codes "hosts") (rows_of (found_of matches.now)) }
{
    matches.get_str("hosts")
}

/// Whether a text, if there is one, lists the addresses of so many ranks.
fn are_hosts(text: Option<&str>, size: u64) -> bool
    ensures { IsTrue result ↔ AreHosts (text_in text.entry) size }
{
    match text {
        Some(text) => is_host_list(text.as_bytes(), size),
        None => true,
    }
}

/// Whether the ports of all ranks are 1 to 65,535.
fn are_ports(rank: u64, size: u64, port: u64) -> bool
    requires rank { rank ≤ 1023 }
    requires size { size ≤ 1024 }
    requires port { port ≤ 65535 }
    ensures { IsTrue result ↔ ArePorts rank size port }
{
    rank < port && port + size <= 65_536 + rank
}

/// What the matches give.
fn found_settings<'a>(matches: &ArgMatches<'a>) -> Result<Settings<'a>, SettingsRefusal>
    ensures { RowsAnswer (rows_of (found_of matches.now)) result }
{
    let rank = number_of(matches, "rank", 0, 1_023)?;
    let size = number_of(matches, "size", 1, 1_024)?;
    let incarnation = number_of(matches, "inc", 0, 65_535)?;
    let job = number_of(matches, "job", 0, u64::MAX)?;
    let port = number_of(matches, "port", 1, 65_535)?;
    let patience = patience_in(matches)?;
    let file = value_of(matches, "FILE")?;
    let hosts = hosts_in(matches);
    if rank >= size || !are_ports(rank, size, port) || !are_hosts(hosts, size) {
        return Err(SettingsRefusal::Words);
    }
    Ok(Settings {
        rank: rank as u16,
        size: size as u16,
        incarnation: incarnation as u16,
        job,
        port: port as u16,
        patience,
        hosts,
        file,
    })
}

fn refusal_of(error: &Error) -> SettingsRefusal
    ensures { result ≡ refusal_of (kind_of error.now) }
{
    match error.kind() {
        ErrorKind::OutOfMemory => SettingsRefusal::OutOfMemory,
        _ => SettingsRefusal::Words,
    }
}

/// What words answer that were refused with this error.
fn refused_with<'a>(error: &Error) -> Result<Settings<'a>, SettingsRefusal>
    ensures { result ≡ Err (refusal_of (kind_of error.now)) }
{
    Err(refusal_of(error))
}

/// The settings that the words give; the first word is the program's own name.
///
/// `--rank r --size n --inc i --job j --port p [--patience ms] [--hosts A,B,..] FILE`, the options in any order, each at
/// most once; a number is decimal digits without leading zeros, and the hosts are the IPv4 addresses of the ranks, in
/// rank order.
///
/// Refused with 64 exactly where the words are others, a value is out of its range, the rank isn't below the size, the
/// port of some rank isn't 1 to 65,535, or the hosts are no list of an address for each rank, unless memory was wanting
/// before that was seen: 14.
pub fn settings_of<'a, S: AsStr>(
    alloc: Global,
    words: &'a [S],
) -> Result<Settings<'a>, SettingsRefusal>
    ensures { Answers (map S.text words.entry.now) result }
{
    let program = rank_program(alloc)?;
    match program.try_get_matches_from(words) {
        Ok(matches) => found_settings(&matches),
        Err(error) => refused_with(&error),
    }
}
