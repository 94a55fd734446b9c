//! What is printed of what was found.

use crate::exploring::{Explored, ToldResult};
use play_findings::Verdict;
use schedule_search::Visited;
use std::alloc::{AllocError, Global};

/// Adds text.
fn add(page: &mut Vec<u8>, text: &str) -> Result<(), AllocError> {
    page.extend_from_slice(text.as_bytes())?;
    Ok(())
}

/// `s` where there isn't one.
fn plural(count: u64) -> &'static str {
    if count == 1 { "" } else { "s" }
}

fn add_plays(alloc: Global, page: &mut Vec<u8>, explored: &Explored) -> Result<(), AllocError> {
    let (plays, random) = (explored.plays, explored.random_plays);
    if explored.tried_findings {
        add(
            page,
            "not every choice was tried, plays that stood alike were broken off.\n",
        )
    } else if !explored.tried_all {
        let text = format!(in alloc;
            "not every choice was tried, {random} of them are at random.\n"
        )?;
        add(page, text.as_str())
    } else if plays == 1 {
        add(
            page,
            "no outcome depends on timing, so one schedule covers all.\n",
        )
    } else {
        add(page, "every choice was tried.\n")
    }
}

/// Adds that each state was visited, or wasn't, though no choice was left.
fn add_visited(alloc: Global, page: &mut Vec<u8>, explored: &Explored) -> Result<(), AllocError> {
    match explored.visited {
        Visited::All(states) => {
            let text = format!(in alloc;
                "No end is left out: each of the {states} states that the ranks can come to together was visited.\n"
            )?;
            add(page, text.as_str())
        }
        Visited::NotAll if explored.tried_all => add(
            page,
            "That no end is left out is tested, and not proved: not each state was visited (--states K visits more).\n",
        ),
        _ => Ok(()),
    }
}

fn add_head(
    alloc: Global,
    page: &mut Vec<u8>,
    size: u16,
    explored: &Explored,
) -> Result<(), AllocError> {
    let plays = explored.plays;
    let (ranks, many) = (plural(u64::from(size)), plural(plays));
    let front = format!(in alloc; "{size} rank{ranks}, {plays} play{many}: ")?;
    add(page, front.as_str())?;
    add_plays(alloc, page, explored)?;
    add_visited(alloc, page, explored)?;
    if explored.strict {
        add(
            page,
            "Collectives are entered differently, so the order of their messages was tried too.\n",
        )?;
    }
    Ok(())
}

fn verdict_text(verdict: Verdict) -> &'static str {
    match verdict {
        Verdict::Ended => "all ranks ended",
        Verdict::Failed => "all ranks ended, not all of them well",
        Verdict::Deadlock => "DEADLOCK",
        Verdict::UnderWay => "something is still under way",
    }
}

/// Adds how many plays came to a result, and how many results it stands for.
fn add_front(
    alloc: Global,
    page: &mut Vec<u8>,
    number: usize,
    explored: &Explored,
    found: &ToldResult,
) -> Result<(), AllocError> {
    let (count, plays, times) = (explored.count(), explored.plays, found.plays);
    let many = plural(plays);
    let front = format!(in alloc;
        "\nresult {number} of {count}, in {times} of {plays} play{many}: "
    )?;
    add(page, front.as_str())
}

fn add_alike(alloc: Global, page: &mut Vec<u8>, alike: u64) -> Result<(), AllocError> {
    if alike == 1 {
        return Ok(());
    }
    let text = format!(in alloc;
        "one of {alike}, which differ in nothing but the order in which a rank printed its lines:\n"
    )?;
    add(page, text.as_str())
}

fn add_result(
    alloc: Global,
    page: &mut Vec<u8>,
    number: usize,
    explored: &Explored,
    found: &ToldResult,
) -> Result<(), AllocError> {
    add_front(alloc, page, number, explored, found)?;
    add(page, verdict_text(found.report.verdict))?;
    if number <= explored.told {
        return add(page, ", as was told when it was found\n");
    }
    add(page, "\n")?;
    add_alike(alloc, page, found.alike)?;
    page.extend_from_slice(&found.report.text)?;
    Ok(())
}

/// Adds how many results aren't told.
fn add_rest(alloc: Global, page: &mut Vec<u8>, explored: &Explored) -> Result<(), AllocError> {
    let (wrong, well) = (explored.more_findings, explored.more_well);
    if wrong > 0 {
        let many = plural(wrong);
        let text = format!(in alloc;
            "\n{wrong} more result{many} in which something is wrong (--results K tells K)\n"
        )?;
        add(page, text.as_str())?;
    }
    if well > 0 {
        let many = plural(well);
        let text = format!(in alloc;
            "\n{well} more result{many} in which all ranks end well (--results K tells K)\n"
        )?;
        add(page, text.as_str())?;
    }
    Ok(())
}

/// What is printed of what was found of a script at so many ranks.
pub fn summary_of(alloc: Global, size: u16, explored: &Explored) -> Result<Vec<u8>, AllocError> {
    let mut page = Vec::new(alloc);
    if explored.told > 0 {
        add(&mut page, "\n")?;
    }
    add_head(alloc, &mut page, size, explored)?;
    for (place, found) in explored.results.iter().enumerate() {
        add_result(alloc, &mut page, place + 1, explored, found)?;
    }
    add_rest(alloc, &mut page, explored)?;
    Ok(page)
}

/// What is printed of a result when it is found, as the last by this play.
pub(crate) fn told_at_once(
    alloc: Global,
    number: usize,
    plays: u64,
    report: &play_findings::Report,
) -> Result<Vec<u8>, AllocError> {
    let verdict = verdict_text(report.verdict);
    let mut page = Vec::new(alloc);
    if number > 1 {
        add(&mut page, "\n")?;
    }
    let front = format!(in alloc;
        "result {number}, found in the first {plays} plays: {verdict}\n"
    )?;
    add(&mut page, front.as_str())?;
    page.extend_from_slice(&report.text)?;
    Ok(page)
}

/// What is said where no rank waits for ever, though each send is synchronous.
fn undisturbed_text(explored: &Explored) -> &'static str {
    let has_failed = explored
        .results
        .iter()
        .any(|found| found.report.verdict == Verdict::Failed);
    if has_failed {
        "No rank waits for ever; what a rank that failed would have done behind that isn't known.\n"
    } else {
        "No rank waits for ever, whether all sends are buffered or none is.\n"
    }
}

/// What is said where something goes wrong with synchronous sends, of a script that is well as it is written, or isn't.
fn disturbed_text(explored: &Explored, is_well: bool) -> &'static str {
    if !is_well {
        "More goes wrong than with messages that are buffered.\n"
    } else if explored.has_deadlock {
        "The script works only because messages are buffered.\n"
    } else {
        "The script is well only because messages are buffered.\n"
    }
}

/// Whether a result is told of synchronous sends: where a rank waits for ever, and whatever else is wrong with a script
/// that is well as it is written.
fn is_told(found: &ToldResult, is_well: bool) -> bool {
    found.report.verdict == Verdict::Deadlock || is_well && !found.report.ends_well()
}

/// What is printed of a script whose sends are synchronous, where no rank waits for ever otherwise: what goes wrong
/// then. Of a script that isn't well as it is written only what waits for ever is told.
pub fn summary_of_synchronous(
    alloc: Global,
    size: u16,
    explored: &Explored,
    is_well: bool,
) -> Result<Vec<u8>, AllocError> {
    let mut page = Vec::new(alloc);
    add(&mut page, "\nWith every send synchronous: ")?;
    add_head(alloc, &mut page, size, explored)?;
    if !explored.has_deadlock && (!is_well || explored.is_well()) {
        add(&mut page, undisturbed_text(explored))?;
        return Ok(page);
    }
    add(&mut page, disturbed_text(explored, is_well))?;
    for (place, found) in explored.results.iter().enumerate() {
        if is_told(found, is_well) {
            add_result(alloc, &mut page, place + 1, explored, found)?;
        }
    }
    if !explored.tells_deadlock() {
        add_rest(alloc, &mut page, explored)?;
    }
    Ok(page)
}
