//! The report of a play.

ghost use Rattle.std.specs.Prelude.{◌≡◌, ◌↔◌, IfOk, IsTrue};
ghost use Rattle.play_findings.specs.Outcomes.{EndsWell, IsVerdictOf};

use crate::asking::asked_of;
use crate::ending::Verdict;
use crate::operations::operations_of;
use crate::outcome::outcome_of;
use crate::teller::Teller;
use play_events::{ShownLines, account_of};
use play_waits::{Page, communicators_of};
use script_plays::Move;
use std::alloc::Global;
use stepped_plays::{PlayError, scripts_of};

/// The report of a play.
#[derive(Drop)]
pub struct Report {
    /// How it ended.
    pub verdict: Verdict,
    /// What each rank printed, and what else is to be told, in lines.
    pub text: Vec<u8>,
    /// The play as a file of events.
    pub events: Vec<u8>,
    /// Whether a collective was entered differently by two ranks.
    pub is_entered_differently: bool,
    /// Whether there is something to be told but what each rank printed and that it ended with status 0.
    pub has_findings: bool,
}

impl Report {
    /// Whether all ranks ended with status 0, and nothing else is to be told.
    pub fn ends_well(&self) -> bool
        ensures { IsTrue result ↔ EndsWell self.now }
    {
        self.verdict == Verdict::Ended && !self.has_findings
    }
}

/// What is told of a play but how it ended.
#[derive(Drop)]
struct Told {
    text: Vec<u8>,
    is_entered_differently: bool,
    has_findings: bool,
}

/// What each rank printed, and behind it what else is to be told.
fn tell(teller: &Teller<'_, '_, '_>) -> Result<Told, PlayError> {
    let mut page = Page::new(teller.alloc);
    teller.add_all_printed(&mut page)?;
    let mut findings = Page::new(teller.alloc);
    let is_entered_differently = teller.add_findings(&mut findings)?;
    page.add_bytes(findings.as_slice())?;
    Ok(Told {
        text: page.into_text(),
        is_entered_differently,
        has_findings: !findings.is_empty(),
    })
}

/// The play by this schedule of the script of this text, at so many ranks, as it is told of.
fn teller_of<'t, 's, 'o>(
    alloc: Global,
    text: &'t [u8],
    lines: &'s ShownLines<'o>,
    size: u16,
    schedule: &[Move],
) -> Result<Teller<'t, 's, 'o>, PlayError>
    ensures { IfOk result (λ teller. IsVerdictOf text.now size schedule.now teller.outcome.verdict) }
{
    let outcome = outcome_of(alloc, scripts_of(alloc, text, size)?, schedule)?;
    let account = account_of(alloc, text, size, schedule)?;
    let history = outcome.world.history();
    let communicators = communicators_of(alloc, size, history, &account.calls)?;
    let mut operations = operations_of(alloc, size, history, &account.calls, &communicators)?;
    let asked = asked_of(
        alloc,
        text,
        schedule,
        &outcome.players,
        &communicators,
        &mut operations,
    )?;
    Ok(Teller {
        alloc,
        text,
        lines,
        size,
        account,
        outcome,
        communicators,
        operations,
        asked,
    })
}

fn reported(verdict: Verdict, teller: Teller<'_, '_, '_>, told: Told) -> Report
    ensures { result.verdict ≡ verdict }
{
    Report {
        verdict,
        text: told.text,
        events: teller.account.into_events(),
        is_entered_differently: told.is_entered_differently,
        has_findings: told.has_findings,
    }
}

/// The report of the play by this schedule of the script of this text, at so many ranks. How it ended is how that play
/// ended, as `outcome_of` gives it; its lines are told of as these.
pub fn report_of(
    alloc: Global,
    text: &[u8],
    lines: &ShownLines<'_>,
    size: u16,
    schedule: &[Move],
) -> Result<Report, PlayError>
    ensures { IfOk result (λ report. IsVerdictOf text.now size schedule.now report.verdict) }
{
    let teller = teller_of(alloc, text, lines, size, schedule)?;
    let told = tell(&teller)?;
    let verdict = teller.outcome.verdict;
    Ok(reported(verdict, teller, told))
}
