//! Running the lines of a file of events.

ghost use Rattle.std.specs.Prelude.{◌≡◌, ℕ, IfErr, IfOk, OnOk};
ghost use Rattle.simulation.specs.Beginnings.{BreaksOff, EventBegins};
ghost use Rattle.simulation.specs.Courses.{IsOpening, scene};
ghost use Rattle.simulation.specs.Files.{LineStops, LinesRun, StopsBy};
ghost use Rattle.simulation.specs.StepLines.{refused_lines};
ghost use Rattle.simulation.specs.Output.{Prints};
ghost use Rattle.simulation.specs.Turns.{EventRuns, LineRuns, RestartRuns};
ghost use Rattle.world.specs.Headline.{IsRunOfMachine};

use crate::SimulateError;
use crate::calls::Acted;
use crate::event_printing::{print_refused, print_stepped};
use crate::rank_table::{RankTable, act_in, clear, complete};
use crate::ranks::RankNames;
use event_files::{EventLine, EventStatement};
use line_diagnostics::LineFault;
use statements::Action;
use std::alloc::Global;
use std::collections::BTreeMap;
use std::io::Write;
use std::marker::Model;
use vocabulary::replace;
use world::{Event, Failed, World};

/// A world that follows a file of events, and the names of its ranks' lines.
#[derive(Drop)]
pub struct Simulation {
    world: World,
    table: RankTable,
    /// Why the line at which it stopped can't be followed, where it stopped at one.
    lack: Option<LineFault>,
}

impl Model for Simulation {
    ghost use Rattle.simulation.specs.Courses.{scene};
    ghost use Rattle.simulation.specs.Files.{SimulationState};

    ghost Value = { SimulationState };

    ghost view = { λ s. record { scene = scene s.table.size s.world s.table.ranks.entries; lack = s.lack } };
}

/// A refusal is printed, and its event is let go.
fn tell_refused<W: Write>(world: &World, failed: Failed, out: &mut W) -> Result<(), SimulateError>
    ensures ok { OnOk result (Prints (W.contents out.old) (W.contents out.new) (refused_lines world.now failed)) }
    ensures err { IfErr result (λ e. e ≡ SimulateError.Output) }
{
    let printed = print_refused(world, &failed, out);
    drop(failed);
    Ok(printed?)
}

/// One event that is no call, with what it prints, and what follows from the answer of a blocked call that comes with it.
#[tactic(auto, using(crate::proofs::EventLaws::event_taken, crate::proofs::EventLaws::event_refused, crate::proofs::StopLaws::event_cut, crate::proofs::StopLaws::event_breaks, crate::proofs::BreakLaws::breaks_output))]
fn on_event<W: Write>(
    alloc: Global,
    world: &mut World,
    ranks: &mut BTreeMap<u16, RankNames>,
    event: Event,
    out: &mut W,
) -> Result<(), SimulateError>
    ensures ok { OnOk result ((size : ℕ) → EventRuns event (scene size world.old ranks.old.entries)
        (W.contents out.old) (W.contents out.new) (scene size world.new ranks.new.entries)) }
    ensures err { IfErr result (λ e. (size : ℕ) → BreaksOff e
        (λ part. EventBegins event (scene size world.old ranks.old.entries) part) (W.contents out.old) (W.contents out.new)) }
{
    match world.step(event) {
        Ok(stepped) => {
            print_stepped(alloc, world, stepped, out)?;
            complete(world, ranks, stepped, out)
        }
        Err(failed) => tell_refused(world, failed, out),
    }
}

/// A rank is started anew, and its names stand for nothing any more; where the restart is refused, they stand for what
/// they did.
#[tactic(auto, using(crate::proofs::EventLaws::restart_taken, crate::proofs::EventLaws::restart_refused, crate::proofs::StopLaws::event_cut, crate::proofs::BreakLaws::breaks_output))]
fn restart<W: Write>(
    world: &mut World,
    table: &mut RankTable,
    rank: u16,
    out: &mut W,
) -> Result<(), SimulateError>
    ensures ok { OnOk result (RestartRuns rank (scene table.old.size world.old table.old.ranks.entries)
        (W.contents out.old) (W.contents out.new) (scene table.new.size world.new table.new.ranks.entries)) }
    ensures err { IfErr result (λ e. BreaksOff e
        (λ part. EventBegins (Event.Restart rank) (scene table.old.size world.old table.old.ranks.entries) part)
        (W.contents out.old) (W.contents out.new)) }
{
    match world.step(Event::Restart(rank)) {
        Ok(stepped) => {
            print_stepped(table.alloc, world, stepped, out)?;
            clear(table.alloc, table.size, &mut table.ranks, rank);
            Ok(())
        }
        Err(failed) => tell_refused(world, failed, out),
    }
}

impl Simulation {
    /// A world of so many ranks in which nothing happened yet. Refused for want of memory, and for a number outside 1
    /// to 1,024.
    pub fn new(alloc: Global, size: u16) -> Result<Simulation, SimulateError>
        ensures opening { IfOk result (λ s. IsOpening size s.scene) }
        ensures seen { IfOk result (λ s. IsRunOfMachine s.scene.world) }
        ensures err { IfErr result (λ e. e ≡ SimulateError.OutOfMemory) }
    {
        let Ok(world) = World::new(alloc, size) else {
            return Err(SimulateError::OutOfMemory);
        };
        // What happened is a run of the machine, here too where that is nothing.
        let _history = world.history();
        let table = RankTable {
            alloc,
            size,
            ranks: BTreeMap::new(alloc),
        };
        Ok(Simulation {
            world,
            table,
            lack: None,
        })
    }

    /// The world as it is now.
    pub fn world(&self) -> &World
        ensures { result.now ≡ self.now.scene.world }
    {
        &self.world
    }

    /// Why the line at which it stopped can't be followed, where it stopped at one.
    pub fn take_lack(&mut self) -> Option<LineFault>
        ensures { result ≡ self.old.lack }
    {
        self.lack.take()
    }

    /// A statement of a rank, in the line of this number, is done, if it can be followed.
    #[tactic(auto, using(crate::proofs::StopLaws::line_cut, crate::proofs::StopLaws::line_faulty))]
    fn act<W: Write>(
        &mut self,
        rank: u16,
        line: usize,
        action: Action,
        out: &mut W,
    ) -> Result<(), SimulateError>
        ensures ok { OnOk result (LineRuns (EventStatement.Rank rank action) self.old.scene
            (W.contents out.old) (W.contents out.new) self.new.scene) }
        ensures err { IfErr result (λ e. LineStops e self.new.lack self.old.scene
            (record { number = line; statement = EventStatement.Rank rank action })
            (W.contents out.old) (W.contents out.new)) }
    {
        match act_in(&mut self.world, &mut self.table, rank, action, out)? {
            Acted::Done => Ok(()),
            Acted::Faulty(fault) => {
                replace(&mut self.lack, fault);
                Err(SimulateError::Line(line))
            }
        }
    }

    /// An event that is no call.
    fn pass<W: Write>(&mut self, event: Event, out: &mut W) -> Result<(), SimulateError>
        ensures ok { OnOk result (EventRuns event self.old.scene (W.contents out.old) (W.contents out.new)
            self.new.scene) }
        ensures err { IfErr result (λ e. BreaksOff e (λ part. EventBegins event self.old.scene part)
            (W.contents out.old) (W.contents out.new)) }
    {
        on_event(
            self.table.alloc,
            &mut self.world,
            &mut self.table.ranks,
            event,
            out,
        )
    }

    /// One line of a file of events, with what it prints.
    ///
    /// `Line` names the line where a name that isn't set, or a buffer that is lent, was used; then the line has
    /// printed nothing, and `take_lack` tells why.
    #[tactic(auto, using(crate::proofs::StopLaws::line_breaks))]
    pub fn run<W: Write>(&mut self, line: EventLine, out: &mut W) -> Result<(), SimulateError>
        ensures ok { OnOk result (LineRuns line.statement self.old.scene (W.contents out.old) (W.contents out.new)
            self.new.scene) }
        ensures err { IfErr result (λ e. LineStops e self.new.lack self.old.scene line (W.contents out.old)
            (W.contents out.new)) }
    {
        let EventLine { number, statement } = line;
        match statement {
            EventStatement::Rank(rank, action) => self.act(rank, number, action, out),
            EventStatement::Deliver(number) => self.pass(Event::Deliver(number), out),
            EventStatement::Tick(rank, now) => self.pass(Event::Tick(rank, now), out),
            EventStatement::Stray(rank, bytes) => self.pass(Event::Stray(rank, bytes), out),
            EventStatement::Restart(rank) => restart(&mut self.world, &mut self.table, rank, out),
        }
    }

    /// These lines, one after the other, until one can't be followed, or for want of memory or where the output fails.
    #[tactic(auto, using(crate::proofs::CourseLaws::lines_none, crate::proofs::CourseLaws::lines_more, crate::proofs::CourseLaws::lines_stop))]
    pub fn run_all<W: Write>(
        &mut self,
        lines: Vec<EventLine>,
        out: &mut W,
    ) -> Result<(), SimulateError>
        ensures ok { OnOk result (LinesRun self.old.scene lines.items (W.contents out.old) (W.contents out.new)
            self.new.scene) }
        ensures err { IfErr result (λ e. StopsBy e self.new.lack self.old.scene lines.items (W.contents out.old)
            (W.contents out.new)) }
    {
        for line in lines {
            self.run(line, out)?;
        }
        Ok(())
    }
}
