//! What a line of the file says.

ghost use Rattle.std.specs.Prelude.{◌≡◌, IfOk, map, option_map};
ghost use Rattle.std.specs.List.{list_all, slice_split};
ghost use Rattle.std.specs.List.{position_from};
ghost use Rattle.std.specs.Str.{bytes_eq};
ghost use Rattle.host_files.specs.Lines.{after, finished, host_in, is_blank, is_colon, is_name, is_name_byte};
ghost use Rattle.host_files.specs.Lines.{is_own_name, most_in, named_in, option_of, said, shown, shown_result};
ghost use Rattle.host_files.specs.Lines.{told_in, value_in, with_value, words_of};

use crate::fault::HostFault;
use crate::host::Host;
use numerals::number_between;
use std::alloc::{AllocError, Global};

/// What may stand behind a host's name.
#[derive(Clone, Copy, Debug)]
pub(crate) enum HostOption {
    /// `slots=N`.
    Slots(u16),
    /// `max_slots=N`, `max-slots=N`.
    Most(u16),
    /// `local`.
    Local,
}

fn pieces(alloc: Global, line: &[u8]) -> Result<Vec<&[u8]>, AllocError>
    ensures { IfOk result (λ pieces. map (λ piece. piece.now) pieces.items ≡ slice_split is_blank line.now) }
{
    line.split(|byte| *byte == b' ' || *byte == b'\t' || *byte == b'\r')
        .collect(alloc)
}

/// The words in front of the first that begins with `#`.
pub(crate) fn words_of(alloc: Global, line: &[u8]) -> Result<Vec<&[u8]>, AllocError>
    ensures { IfOk result (λ words. map (λ word. word.now) words.items ≡ words_of line.now) }
{
    let pieces = pieces(alloc, line)?;
    said_in(alloc, &pieces)
}

/// The pieces that aren't empty, up to the first that begins with `#`.
fn said_in<'a>(alloc: Global, pieces: &[&'a [u8]]) -> Result<Vec<&'a [u8]>, AllocError>
    ensures { IfOk result (λ words. map (λ word. word.now) words.items ≡ said (map (λ piece. piece.now) pieces.now)) }
{
    let mut words = Vec::new(alloc);
    for piece in pieces {
        if piece.is_empty() {
            continue;
        }
        if piece[0] == b'#' {
            return Ok(words);
        }
        words.push(*piece)?;
    }
    Ok(words)
}

/// Whether a byte may stand in a host's name.
fn is_name_byte(byte: u8) -> bool
    ensures { result ≡ is_name_byte byte }
{
    matches!(byte, b'a'..=b'z' | b'A'..=b'Z' | b'0'..=b'9' | b'.' | b'-' | b'_')
}

/// Whether all bytes may stand in a host's name.
fn are_name_bytes(word: &[u8]) -> bool
    ensures { result ≡ list_all is_name_byte word.now }
{
    for byte in word {
        if !is_name_byte(*byte) {
            return false;
        }
    }
    true
}

/// Whether a word names a host.
fn is_name(word: &[u8]) -> bool
    ensures { result ≡ is_name word.now }
{
    !word.is_empty() && word[0] != b'-' && are_name_bytes(word)
}

fn is(word: &[u8], name: &[u8]) -> bool
    ensures { result ≡ bytes_eq word.now name.now }
{
    word == name
}

/// The number of ranks that a word tells behind this name.
fn value_in(name: &[u8], word: &[u8]) -> Option<u16>
    ensures { result ≡ value_in name.now word.now }
{
    let (front, number) = word.split_at(word.len().min(name.len()));
    if !is(front, name) {
        return None;
    }
    let number = number_between(number, 1, 1_024)?;
    Some(number as u16)
}

/// How many ranks a host takes at most, where the word tells that.
fn most_in(word: &[u8]) -> Option<u16>
    ensures { result ≡ most_in word.now }
{
    if let Some(most) = value_in(b"max_slots=", word) {
        return Some(most);
    }
    value_in(b"max-slots=", word)
}

/// What a word says behind a host's name.
fn option_of(word: &[u8]) -> Option<HostOption>
    ensures { result ≡ option_of word.now }
{
    if is(word, b"local") {
        return Some(HostOption::Local);
    }
    if let Some(slots) = value_in(b"slots=", word) {
        return Some(HostOption::Slots(slots));
    }
    let most = most_in(word)?;
    Some(HostOption::Most(most))
}

/// Whether this name is the launcher's own machine, whatever it is.
fn is_own_name(name: &[u8]) -> bool
    ensures { result ≡ is_own_name name.now }
{
    is(name, b"localhost") || is(name, b"127.0.0.1")
}

/// The place of the first `:`.
fn colon_place(word: &[u8]) -> Option<usize>
    ensures { result ≡ position_from is_colon 0 word.now }
{
    word.iter().position(|byte| *byte == b':')
}

impl<'a> Host<'a> {
    /// With one more word behind its name, where that may stand there.
    fn after(self, word: &[u8]) -> Option<Host<'a>>
        ensures { option_map shown result ≡ after (shown self.entry) word.now }
    {
        match option_of(word)? {
            HostOption::Slots(_) if self.slots.is_some() => None,
            HostOption::Most(_) if self.most.is_some() => None,
            HostOption::Local if self.is_local => None,
            HostOption::Slots(slots) => Some(Host {
                slots: Some(slots),
                ..self
            }),
            HostOption::Most(most) => Some(Host {
                most: Some(most),
                ..self
            }),
            HostOption::Local => Some(Host {
                is_local: true,
                ..self
            }),
        }
    }

    /// The same host, as this machine where its name says so.
    fn finished(self) -> Host<'a>
        ensures { shown result ≡ finished (shown self.entry) }
    {
        Host {
            is_local: self.is_local || is_own_name(self.name),
            ..self
        }
    }
}

/// A host of which only its name and, maybe, its slots are known.
fn with_value<'a>(name: &'a [u8], slots: Option<u16>) -> Result<Host<'a>, HostFault>
    ensures { shown_result result ≡ with_value name.now slots }
{
    if !is_name(name) {
        return Err(HostFault::Name);
    }
    Ok(Host {
        name,
        slots,
        most: None,
        is_local: false,
    })
}

/// The host that a word tells: `HOST` or `HOST:N`.
fn named_in<'a>(word: &'a [u8]) -> Result<Host<'a>, HostFault>
    ensures { shown_result result ≡ named_in word.now }
{
    let Some(place) = colon_place(word) else {
        return with_value(word, None);
    };
    let (name, number) = word.split_at(place.min(word.len()));
    match value_in(b":", number) {
        Some(slots) => with_value(name, Some(slots)),
        None => Err(HostFault::Option),
    }
}

/// The host that these words tell, of which there is one at least.
fn host_in<'a>(first: &'a [u8], options: &[&[u8]]) -> Result<Host<'a>, HostFault>
    ensures { shown_result result ≡ host_in first.now (map (λ word. word.now) options.now) }
{
    let mut host = match named_in(first) {
        Ok(host) => host,
        Err(fault) => return Err(fault),
    };
    for word in options {
        match host.after(word) {
            Some(next) => host = next,
            None => return Err(HostFault::Option),
        }
    }
    Ok(host.finished())
}

/// What a line says: a host, nothing where it has no words, or its fault. Only want of memory is an error.
pub(crate) fn said_by<'a>(
    alloc: Global,
    line: &'a [u8],
) -> Result<Option<Result<Host<'a>, HostFault>>, AllocError>
    ensures { IfOk result (λ found. option_map shown_result found ≡ told_in line.now) }
{
    let words = words_of(alloc, line)?;
    let Some((name, options)) = words.split_first() else {
        return Ok(None);
    };
    Ok(Some(host_in(*name, options)))
}
