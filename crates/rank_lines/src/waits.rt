//! What a rank of a C program says of a call that waits.

ghost use Rattle.std.specs.Prelude.{◌≡◌, ◌++◌, IfSome, codes};
ghost use Rattle.rank_lines.specs.Waits.{BeginsWithPlace, EndsWith, NamesRank, SaysWait, SpellsRank};

use crate::cycle::Wait;
use numerals::number_between;

/// What stands behind these bytes, where the text begins with them.
#[tactic(auto, using(crate::proofs::WaitLaws::stripped))]
fn behind<'a>(text: &'a str, front: &'static str) -> Option<&'a str>
    ensures { IfSome result (λ rest. text.now ≡ front.now ++ rest.now) }
{
    text.strip_prefix(front)
}

/// What stands in front of and behind these bytes, where they stand in the text.
#[tactic(auto, using(crate::proofs::WaitLaws::split))]
fn around<'a>(text: &'a str, middle: &'static str) -> Option<(&'a str, &'a str)>
    ensures { IfSome result (λ parts. text.now ≡ parts.0.now ++ middle.now ++ parts.1.now) }
{
    text.split_once(middle)
}

/// The rank that a word spells.
fn rank_by(word: &str) -> Option<u16>
    ensures { IfSome result (λ rank. SpellsRank word.now rank) }
{
    let number = number_between(word.as_bytes(), 0, 1_023)?;
    Some(number as u16)
}

/// The first item of a wait: what stands behind `all of N requests: `, or all of it.
#[tactic(auto, using(crate::proofs::WaitLaws::ends_with_itself, crate::proofs::WaitLaws::ends_behind))]
fn first_item(items: &str) -> &str
    ensures { EndsWith items.now result.now }
{
    if items.starts_with("all of ") {
        if let Some((_, first)) = around(items, " requests: ") {
            return first;
        }
    }
    items
}

/// What stands behind `a message of `, or all of it.
#[tactic(auto, using(crate::proofs::WaitLaws::ends_with_itself, crate::proofs::WaitLaws::ends_after))]
fn without_message(item: &str) -> &str
    ensures { EndsWith item.now result.now }
{
    match behind(item, "a message of ") {
        Some(rest) => rest,
        None => item,
    }
}

/// What stands behind the word `rank` of the first item of a wait, where that names a rank.
fn named_item(items: &str) -> Option<&str>
    ensures { IfSome result (λ rest. EndsWith items.now (codes "rank " ++ rest.now)) }
{
    let item = first_item(items);
    behind(without_message(item), "rank ")
}

/// The rank that the line of a call of a C program is of, and the call, from behind `MPI_` on.
fn place_of(line: &str) -> Option<(u16, &str)>
    ensures { IfSome result (λ found. BeginsWithPlace line.now found.0 found.1.now) }
{
    let (place, call) = around(behind(line, "rank ")?, ": MPI_")?;
    let rank = rank_by(place)?;
    Some((rank, call))
}

/// The rank that the first item of a wait names.
fn named_rank(items: &str) -> Option<u16>
    ensures { IfSome result (λ other. NamesRank items.now other) }
{
    let (name, _) = around(named_item(items)?, " ")?;
    rank_by(name)
}

/// That a rank waits for another one, where this line of a rank of a C program says so: `rank R: CALL waits for ITEM`,
/// whose first item is a message of another rank, or that one to receive a message. What suffices beside others (`any of`)
/// or may come from any rank is none.
pub fn wait_said(line: &[u8]) -> Option<Wait>
    ensures { IfSome result (λ wait. SaysWait line.now wait) }
{
    let Ok(text) = str::from_utf8(line) else {
        return None;
    };
    let (rank, call) = place_of(text)?;
    let (_, items) = around(call, " waits for ")?;
    let other = named_rank(items)?;
    Some(Wait { rank, other })
}
