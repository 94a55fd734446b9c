//! The nodes of an allocation of SLURM, as lines of a file of hosts.

ghost use Rattle.std.specs.Prelude.{◌≡◌, ◌≤◌, ◌++◌, IfOk, IfSome, OnOk, None, length, map, option_map, replicate};
ghost use Rattle.std.specs.List.{position_from, slice_split};
ghost use Rattle.std.specs.Str.{bytes_eq};
ghost use Rattle.host_files.specs.Files.{is_comma};
ghost use Rattle.host_files.specs.Nodes.{Pushes, count_in, counts_in, digits_number, in_brackets, is_bracket, is_dash, is_no_zero};
ghost use Rattle.host_files.specs.Nodes.{is_open, item_in, line_of, lines_of, names_in, node_names, padded, range_names, range_of};
ghost use Rattle.host_files.specs.Nodes.{repeated_in, shown_item, slurm_lines};

use launch_keeper::{Word, Words};
use numerals::number_between;
use std::alloc::{AllocError, Global};

/// The greatest number of a node.
const MOST_NUMBER: u64 = 999_999_999;

/// One item of a list of nodes: a name, or what stands in front of brackets and numbers within them.
#[derive(Clone, Copy, Debug)]
pub(crate) struct NodeItem<'a> {
    /// The name, or what stands in front of the brackets.
    pub(crate) front: &'a [u8],
    /// One number, or two with a `-` between them.
    pub(crate) numbers: Option<&'a [u8]>,
    /// Whether the next item stands within no brackets.
    pub(crate) is_last: bool,
}

fn is(text: &[u8], other: &[u8]) -> bool
    ensures { result ≡ bytes_eq text.now other.now }
{
    text == other
}

/// The place of the first byte that isn't `0`.
fn other_place(text: &[u8]) -> Option<usize>
    ensures { result ≡ position_from is_no_zero 0 text.now }
{
    text.iter().position(|byte| *byte != b'0')
}

/// The number that digits spell, up to 999,999,999; zeros may stand in front.
fn digits_number(text: &[u8]) -> Option<u64>
    ensures is { result ≡ digits_number text.now }
    ensures bound { IfSome result (λ number. number ≤ 999999999) }
{
    let Some(place) = other_place(text) else {
        return if text.is_empty() { None } else { Some(0) };
    };
    let (_, digits) = text.split_at(place.min(text.len()));
    number_between(digits, 1, MOST_NUMBER)
}

/// The place of the first byte `-`.
fn dash_place(text: &[u8]) -> Option<usize>
    ensures { result ≡ position_from is_dash 0 text.now }
{
    text.iter().position(|byte| *byte == b'-')
}

/// The numbers from one to another, the first of which has so many digits.
#[derive(Clone, Copy, Debug)]
pub(crate) struct NodeRange {
    pub(crate) low: u64,
    pub(crate) high: u64,
    pub(crate) width: usize,
}

/// The range that a text tells: `A-B`, or one number.
fn range_of(text: &[u8]) -> Option<NodeRange>
    ensures is { result ≡ range_of text.now }
    ensures order { IfSome result (λ range. (range.low ≤ range.high) × (range.high ≤ 999999999)) }
{
    let (first, last) = match dash_place(text) {
        Some(place) => {
            let (first, behind) = text.split_at(place.min(text.len()));
            let (_, last) = behind.split_at(behind.len().min(1));
            (first, last)
        }
        None => (text, text),
    };
    let low = digits_number(first)?;
    let high = digits_number(last)?;
    if low <= high {
        Some(NodeRange {
            low,
            high,
            width: first.len(),
        })
    } else {
        None
    }
}

/// Adds a byte so many times.
fn push_bytes(name: &mut Vec<u8>, byte: u8, count: usize) -> Result<(), AllocError>
    ensures { OnOk result (name.new.items ≡ name.old.items ++ replicate count byte) }
{
    for _ in 0..count {
        name.push(byte)?;
    }
    Ok(())
}

/// The name of a node: its number has zeros in front up to so many digits.
fn node_name(alloc: Global, front: &[u8], width: usize, number: u64) -> Result<Word, AllocError>
    ensures { IfOk result (λ name. name ≡ front.now ++ padded width number) }
{
    let text = format!(in alloc; "{number}")?;
    let digits = text.as_bytes();
    let mut name = Vec::from_slice(alloc, front)?;
    push_bytes(&mut name, b'0', width.saturating_sub(digits.len()))?;
    name.extend_from_slice(digits)?;
    Ok(Word::from_vec(name))
}

/// The names of the nodes of a range.
#[tactic(auto, using(crate::proofs::SlotLaws::names_more))]
fn range_names(alloc: Global, front: &[u8], range: NodeRange) -> Result<Words, AllocError>
    requires order { range.low ≤ range.high }
    requires bound { range.high ≤ 999999999 }
    ensures { IfOk result (λ names. names ≡ range_names front.now range) }
{
    let mut names = Words::new(alloc);
    let count = range.high - range.low + 1;
    for step in 0..count {
        names.push(node_name(alloc, front, range.width, range.low + step)?)?;
    }
    Ok(names)
}

/// Adds the names of an item. Answers whether it has any: else it is at fault.
fn push_names(alloc: Global, names: &mut Words, item: NodeItem<'_>) -> Result<bool, AllocError>
    ensures { IfOk result (λ is_named. Pushes names.old (names_in (shown_item item.entry)) is_named names.new) }
{
    let Some(numbers) = item.numbers else {
        names.push(Word::from_slice(alloc, item.front)?)?;
        return Ok(true);
    };
    let Some(range) = range_of(numbers) else {
        return Ok(false);
    };
    let more = range_names(alloc, item.front, range)?;
    names.extend(alloc, more.as_slice())?;
    Ok(true)
}

/// The place of the first byte `[`.
fn open_place(text: &[u8]) -> Option<usize>
    ensures { result ≡ position_from is_open 0 text.now }
{
    text.iter().position(|byte| *byte == b'[')
}

/// Numbers within brackets behind this, of which the byte `]` ends the last ones.
fn in_brackets<'a>(front: &'a [u8], text: &'a [u8]) -> NodeItem<'a>
    ensures { shown_item result ≡ in_brackets front.now text.now }
{
    let (numbers, behind) = text.split_at(text.len().saturating_sub(1));
    if is(behind, b"]") {
        return NodeItem {
            front,
            numbers: Some(numbers),
            is_last: true,
        };
    }
    NodeItem {
        front,
        numbers: Some(text),
        is_last: false,
    }
}

/// What a piece between commas says, where it stands within brackets behind this, or within none.
fn item_in<'a>(inside: Option<&'a [u8]>, piece: &'a [u8]) -> NodeItem<'a>
    ensures { shown_item result ≡ item_in (option_map (λ front. front.now) inside.entry) piece.now }
{
    if let Some(front) = inside {
        return in_brackets(front, piece);
    }
    let Some(place) = open_place(piece) else {
        return NodeItem {
            front: piece,
            numbers: None,
            is_last: true,
        };
    };
    let (front, behind) = piece.split_at(place.min(piece.len()));
    let (_, numbers) = behind.split_at(behind.len().min(1));
    in_brackets(front, numbers)
}

fn pieces(alloc: Global, text: &[u8]) -> Result<Vec<&[u8]>, AllocError>
    ensures { IfOk result (λ pieces. map (λ piece. piece.now) pieces.items ≡ slice_split is_comma text.now) }
{
    text.split(|byte| *byte == b',').collect(alloc)
}

/// The names that pieces tell.
fn node_names(alloc: Global, pieces: &[&[u8]]) -> Result<Option<Words>, AllocError>
    ensures { IfOk result (λ found. found ≡ node_names None (map (λ piece. piece.now) pieces.now)) }
{
    let mut names = Words::new(alloc);
    let mut inside = None;
    for piece in pieces {
        let item = item_in(inside, *piece);
        if !push_names(alloc, &mut names, item)? {
            return Ok(None);
        }
        inside = if item.is_last { None } else { Some(item.front) };
    }
    if inside.is_some() {
        return Ok(None);
    }
    Ok(Some(names))
}

/// The place of the first byte `(`.
fn bracket_place(text: &[u8]) -> Option<usize>
    ensures { result ≡ position_from is_bracket 0 text.now }
{
    text.iter().position(|byte| *byte == b'(')
}

/// How often a number stands by what is written behind it: `(xN)`.
fn repeated_in(text: &[u8]) -> Option<u64>
    ensures { result ≡ repeated_in text.now }
{
    let (front, behind) = text.split_at(text.len().min(2));
    let (number, end) = behind.split_at(behind.len().saturating_sub(1));
    if is(front, b"(x") && is(end, b")") {
        number_between(number, 1, 1_048_576)
    } else {
        None
    }
}

/// How many tasks a node has by a piece between commas, and how many nodes in turn: `N`, or `N(xK)`.
fn count_in(piece: &[u8]) -> Option<(u64, u64)>
    ensures { result ≡ count_in piece.now }
{
    let (number, behind) = piece.split_at(
        bracket_place(piece).unwrap_or(piece.len()).min(piece.len()),
    );
    let count = number_between(number, 1, 1_048_576)?;
    if behind.is_empty() {
        return Some((count, 1));
    }
    let times = repeated_in(behind)?;
    Some((count, times))
}

/// Adds a number so many times.
fn push_times(counts: &mut Vec<u64>, count: u64, times: u64) -> Result<(), AllocError>
    ensures { OnOk result (counts.new.items ≡ counts.old.items ++ replicate times count) }
{
    for _ in 0..times {
        counts.push(count)?;
    }
    Ok(())
}

/// How many tasks each node has, by pieces.
fn counts_in(alloc: Global, pieces: &[&[u8]]) -> Result<Option<Vec<u64>>, AllocError>
    ensures { IfOk result (λ found. option_map (λ counts. counts.items) found
        ≡ counts_in (map (λ piece. piece.now) pieces.now)) }
{
    let mut counts = Vec::new(alloc);
    for piece in pieces {
        let Some((count, times)) = count_in(*piece) else {
            return Ok(None);
        };
        push_times(&mut counts, count, times)?;
    }
    Ok(Some(counts))
}

/// The line of a node with so many tasks.
fn push_line(alloc: Global, text: &mut Vec<u8>, name: &[u8], count: u64) -> Result<(), AllocError>
    ensures { OnOk result (text.new.items ≡ text.old.items ++ line_of name.now count) }
{
    let number = format!(in alloc; "{count}")?;
    text.extend_from_slice(name)?;
    text.extend_from_slice(b" slots=")?;
    text.extend_from_slice(number.as_bytes())?;
    text.push(b'\n')?;
    Ok(())
}

/// The lines of nodes with these numbers of tasks.
fn lines_of(alloc: Global, names: &[Word], counts: &[u64]) -> Result<Vec<u8>, AllocError>
    requires { length names.now ≡ length counts.now }
    ensures { IfOk result (λ text. text.items ≡ lines_of names.now counts.now) }
{
    let mut text = Vec::new(alloc);
    for (place, name) in names.iter().enumerate() {
        push_line(alloc, &mut text, name.as_bytes(), counts[place])?;
    }
    Ok(text)
}

/// The nodes of an allocation of SLURM as the lines of a file of hosts, each with as many slots as it has tasks: by the list
/// of nodes (`n[1-3,07],m02`) and by the tasks of each (`2(x3),1,4`), as SLURM tells them. None where they aren't such, or
/// don't fit together. Only want of memory is an error.
pub fn slurm_lines(alloc: Global, nodes: &[u8], tasks: &[u8]) -> Result<Option<Vec<u8>>, AllocError>
    ensures { IfOk result (λ found. option_map (λ text. text.items) found ≡ slurm_lines nodes.now tasks.now) }
{
    let Some(names) = node_names(alloc, &pieces(alloc, nodes)?)? else {
        return Ok(None);
    };
    let Some(counts) = counts_in(alloc, &pieces(alloc, tasks)?)? else {
        return Ok(None);
    };
    if names.len() != counts.len() {
        return Ok(None);
    }
    Ok(Some(lines_of(alloc, names.as_slice(), &counts)?))
}
