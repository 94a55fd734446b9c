//! Lists of addresses as texts, with a comma between each two.

ghost use Rattle.std.specs.Bool.{MatchBool};
ghost use Rattle.std.specs.Prelude.{◌≡◌, ◌↔◌, ◌++◌, ◌∷◌, ◌==◌, if◌then◌else◌, IfOk, IsTrue, MatchOption, OnOk};
ghost use Rattle.std.specs.Prelude.{length, map};
ghost use Rattle.std.specs.List.{slice_split};
ghost use Rattle.rank_addresses.specs.HostLists.{AreAddresses, IsAddressText, IsHostList, IsNoHostList, Lists};
ghost use Rattle.rank_addresses.specs.HostLists.{address_text, behind_first, is_comma, list_text};

use std::alloc::{AllocError, Global};
use std::net::Ipv4Addr;

/// What stands between the commas of a text.
fn words_of(alloc: Global, text: &[u8]) -> Result<Vec<&[u8]>, AllocError>
    ensures { IfOk result (λ words. map (λ word. word.now) words.items ≡ slice_split is_comma text.now) }
{
    text.split(|byte| *byte == b',').collect(alloc)
}

/// Whether this is the text of an address.
fn is_address(word: &[u8]) -> bool
    ensures { MatchBool result (IsAddressText word.now) (IsAddressText word.now → ⊥) }
{
    match Ipv4Addr::parse_ascii(word) {
        Ok(_) => true,
        Err(_) => false,
    }
}

/// 1 for a comma, 0 for any other byte.
fn comma_count(byte: u8) -> usize
    ensures { result ≡ (if byte == 44 then 1 else 0) }
{
    if byte == b',' { 1 } else { 0 }
}

/// How many words stand between the commas of a text.
fn word_count(text: &[u8]) -> usize
    ensures { result ≡ length (slice_split is_comma text.now) }
{
    let mut commas = 0;
    for byte in text {
        commas += comma_count(*byte);
    }
    commas + 1
}

/// Whether the text of an address stands between each two commas of a text.
fn are_addresses(text: &[u8]) -> bool
    ensures { MatchBool result (AreAddresses (slice_split is_comma text.now))
        (IsNoHostList (slice_split is_comma text.now)) }
{
    text.split(|byte| *byte == b',')
        .all(|word| is_address(word))
}

/// The addresses that stand in these words, one in each; none where one of them is no address.
fn addresses_in(alloc: Global, words: &[&[u8]]) -> Result<Option<Vec<Ipv4Addr>>, AllocError>
    ensures { IfOk result (λ found. MatchOption found (IsNoHostList (map (λ word. word.now) words.now))
        (λ hosts. IsHostList (map (λ word. word.now) words.now) hosts.items)) }
{
    let mut hosts = Vec::new(alloc);
    for word in words {
        match Ipv4Addr::parse_ascii(word) {
            Ok(host) => hosts.push(host)?,
            Err(_) => return Ok(None),
        }
    }
    Ok(Some(hosts))
}

/// The addresses that a text lists: IPv4 addresses, each as four decimal numbers without leading zeros, with a comma
/// between each two and nothing else; none where the text is no such list. Only want of memory is an error.
pub fn host_list(alloc: Global, text: &[u8]) -> Result<Option<Vec<Ipv4Addr>>, AllocError>
    ensures { IfOk result (λ found. MatchOption found (IsNoHostList (slice_split is_comma text.now))
        (λ hosts. IsHostList (slice_split is_comma text.now) hosts.items)) }
{
    let words = words_of(alloc, text)?;
    addresses_in(alloc, &words)
}

/// Whether a text lists so many addresses, as `host_list` reads them. It takes no memory.
pub fn is_host_list(text: &[u8], count: u64) -> bool
    ensures { IsTrue result ↔ Lists text.now count }
{
    if word_count(text) as u64 != count {
        return false;
    }
    are_addresses(text)
}

/// Adds an address.
fn push_address(alloc: Global, text: &mut Vec<u8>, host: Ipv4Addr) -> Result<(), AllocError>
    ensures { OnOk result (text.new.items ≡ text.old.items ++ address_text host) }
{
    let shown = format!(in alloc; "{host}")?;
    text.extend_from_slice(shown.as_bytes())?;
    Ok(())
}

/// Adds a comma and an address.
fn push_behind(alloc: Global, text: &mut Vec<u8>, host: Ipv4Addr) -> Result<(), AllocError>
    ensures { OnOk result (text.new.items ≡ text.old.items ++ 44 ∷ address_text host) }
{
    text.push(b',')?;
    push_address(alloc, text, host)
}

/// Adds addresses, with a comma in front of each.
fn push_others(alloc: Global, text: &mut Vec<u8>, others: &[Ipv4Addr]) -> Result<(), AllocError>
    ensures { OnOk result (text.new.items ≡ text.old.items ++ behind_first others.now) }
{
    for host in others {
        push_behind(alloc, text, *host)?;
    }
    Ok(())
}

/// The text that lists these addresses, with a comma between each two. Only want of memory is an error.
pub fn list_text(alloc: Global, hosts: &[Ipv4Addr]) -> Result<Vec<u8>, AllocError>
    ensures { IfOk result (λ text. text.items ≡ list_text hosts.now) }
{
    let mut text = Vec::new(alloc);
    let Some((first, others)) = hosts.split_first() else {
        return Ok(text);
    };
    push_address(alloc, &mut text, *first)?;
    push_others(alloc, &mut text, others)?;
    Ok(text)
}
