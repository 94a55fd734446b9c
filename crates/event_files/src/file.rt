//! What a file of events says.

ghost use Rattle.std.specs.Prelude.{◌≡◌, ◌++◌, [], ◌∷◌, OnOk};

use datagram::Bytes;
use statements::Action;
use std::alloc::{AllocFailed, Global};
use std::marker::Model;

/// What a line asks for. The ranks that it names may be beyond the world's; a rank that 16 bits don't hold stands as
/// the greatest number that they hold.
#[derive(Drop)]
pub enum EventStatement {
    /// `R ..`: a rank does something.
    Rank(u16, Action),
    /// `deliver D`: the datagram of this number is delivered. A number that 64 bits don't hold stands as the greatest
    /// that they hold.
    Deliver(usize),
    /// `tick R NOW`: a rank's clock says so many milliseconds.
    Tick(u16, u64),
    /// `stray R HEX`: stray bytes come to a rank.
    Stray(u16, Bytes),
    /// `restart R`: a rank is started anew.
    Restart(u16),
}

/// A line that isn't skipped, and asks for something.
#[derive(Drop)]
pub struct EventLine {
    /// The number of the line; the first line is 1, and skipped ones count.
    pub number: usize,
    /// What the line asks for.
    pub statement: EventStatement,
}

/// Lines, in order. Contracts see them as a list.
#[derive(Drop)]
pub struct EventLines {
    items: Vec<EventLine>,
}

impl Model for EventLines {
    ghost use Rattle.std.specs.Prelude.{List};
    ghost use Rattle.event_files.specs.declared.file.EventLine.{EventLine};

    ghost Value = { List EventLine };

    ghost view = { λ l. l.items.items };
}

impl EventLines {
    /// No lines. It takes no memory.
    pub(crate) fn new(alloc: Global) -> EventLines
        ensures { result ≡ [] }
    {
        EventLines {
            items: Vec::new(alloc),
        }
    }

    /// Adds a line at the end.
    pub(crate) fn push(&mut self, line: EventLine) -> Result<(), AllocFailed<EventLine>>
        ensures { OnOk result (self.new ≡ self.old ++ line ∷ []) }
    {
        self.items.push(line)
    }

    /// The lines, in order.
    pub fn as_slice(&self) -> &[EventLine]
        ensures { result.now ≡ self.now }
    {
        self.items.as_slice()
    }

    /// The lines, in order, each of which can be moved out.
    pub fn into_vec(self) -> Vec<EventLine>
        ensures { result.items ≡ self }
    {
        self.items
    }
}

/// A file of events, read whole.
#[derive(Drop)]
pub struct EventFile {
    /// How many ranks the world has: 1 to 1,024.
    pub size: u16,
    /// The lines behind `world N` that aren't skipped.
    pub lines: EventLines,
}
