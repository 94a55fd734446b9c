//! What a drawing shows.

ghost use Rattle.std.specs.Prelude.{◌≡◌, ◌++◌, ◌∷◌, [], OnOk, OnErr, vec_len};
ghost use Rattle.run_drawings.specs.Pictures.{HasComeAgain, IsArrived, IsEmitted};
ghost use Rattle.run_drawings.specs.declared.picture.Row.TheVariants as rows;

use printed_lines::{FrameKind, LoadText};
use std::alloc::{AllocError, Global};
use vocabulary::Endpoint;

/// What becomes of a rank's line of life in a row.
#[derive(Clone, Copy, Debug, PartialEq, Eq)]
pub enum Change {
    /// It goes on as it was.
    Stays,
    /// A call blocks the rank from here on.
    Blocks,
    /// The blocked call was answered.
    Resumes,
    /// The rank was started anew, and is at this incarnation now.
    StartsAnew(u16),
    /// The rank has ended.
    Ends,
    /// The blocked call is never answered.
    WaitsForEver,
}

/// What a note is about, which says how it looks.
#[derive(Clone, Copy, Debug, PartialEq, Eq)]
pub enum Tone {
    /// A call and its answer, or what happened.
    Plain,
    /// What a rank printed.
    Prints,
    /// Something failed.
    Fails,
}

/// What a rank did, or what happened to it.
#[derive(Drop)]
pub struct Note {
    /// The rank, below the size of the picture.
    pub rank: u16,
    /// What was called or what happened; nothing where an earlier call is answered.
    pub call: Vec<u8>,
    /// What it answered; nothing where there is nothing to tell.
    pub answer: Vec<u8>,
    /// What it is about.
    pub tone: Tone,
    /// What becomes of the rank's line of life.
    pub change: Change,
}

/// A datagram that goes out.
#[derive(Drop)]
pub struct Emission {
    /// From whom.
    pub source: Endpoint,
    /// For whom.
    pub target: Endpoint,
    /// What it carries.
    pub load: LoadText,
    /// The words that stand on its arrow. Where there are none, its number and what it carries stand there.
    pub words: Vec<u8>,
}

/// A datagram that comes.
#[derive(Drop)]
pub struct Delivery {
    /// The datagram's number.
    pub datagram: usize,
    /// With what it was refused; nothing where it was taken.
    pub answer: Vec<u8>,
}

/// A rank of a cycle, each of which waits for others of it.
#[derive(Drop)]
pub struct CycleWait {
    /// The rank, below the size of the picture.
    pub rank: u16,
    /// The ranks of the cycle for which it waits, below the size of the picture.
    pub whom: Vec<u16>,
    /// For what it waits.
    pub words: Vec<u8>,
}

/// What a row shows.
#[derive(Drop)]
pub enum Row {
    /// What a rank did, or what happened to it.
    Told(Note),
    /// The datagram of this number goes out.
    Emitted(usize),
    /// A datagram comes.
    Delivered(Delivery),
    /// What was asked of a rank or a datagram that isn't there, and what that answered.
    Outside(Vec<u8>),
    /// What the arrows of the rows below are: ranks wait for one another.
    Cycle,
    /// A rank of that cycle waits.
    Waits(CycleWait),
}

/// Where a datagram came.
#[derive(Clone, Copy, Debug, PartialEq, Eq)]
pub struct Arrival {
    /// The row.
    pub row: usize,
    /// Whether it was taken; else it was refused.
    pub is_taken: bool,
}

/// The ways of a datagram: from where it was emitted to each place where it was delivered. One with no arrival is lost.
#[derive(Drop)]
pub struct Arrow {
    /// From whom.
    pub source: Endpoint,
    /// For whom.
    pub target: Endpoint,
    /// What it carries.
    pub load: LoadText,
    /// The words that stand on it. Where there are none, its number and what it carries stand there.
    pub words: Vec<u8>,
    /// Whether it is a frame that went out before.
    pub is_resent: bool,
    /// The row in which it was emitted.
    pub row: usize,
    /// Where it came, in order.
    pub arrivals: Vec<Arrival>,
}

/// A run as it is drawn.
#[derive(Drop)]
pub struct Picture {
    /// How many ranks there are.
    pub size: u16,
    /// What happened, in order.
    pub rows: Vec<Row>,
    /// The datagrams that went out, by their numbers.
    pub arrows: Vec<Arrow>,
}

/// Whether a datagram of this kind is a frame, which goes out again until it is acknowledged.
fn is_frame(kind: FrameKind) -> bool {
    !matches!(kind, FrameKind::Ack | FrameKind::Reset)
}

impl Arrow {
    /// Whether it carries the frame of this number from this endpoint to that one.
    fn is_frame_of(&self, source: Endpoint, target: Endpoint, sequence: u64) -> bool {
        is_frame(self.load.kind)
            && self.source == source
            && self.target == target
            && self.load.sequence == sequence
    }
}

/// Adds where a datagram came behind where it came before.
fn push_arrival(arrow: &mut Arrow, arrival: Arrival) -> Result<(), AllocError>
    ensures { OnOk result (HasComeAgain arrival arrow.old arrow.new) }
{
    match arrow.arrivals.push(arrival) {
        Ok(()) => Ok(()),
        Err(failed) => Err(AllocError::from(failed)),
    }
}

/// Adds an arrow behind the others.
fn push_arrow(arrows: &mut Vec<Arrow>, arrow: Arrow) -> Result<(), AllocError>
    ensures { OnOk result (arrows.new.items ≡ arrows.old.items ++ arrow ∷ []) }
{
    match arrows.push(arrow) {
        Ok(()) => Ok(()),
        Err(failed) => Err(AllocError::from(failed)),
    }
}

/// Adds where a datagram came to its arrow, if there is one of this number.
fn add_arrival(arrows: &mut Vec<Arrow>, number: usize, arrival: Arrival) -> Result<(), AllocError>
    ensures { OnOk result (IsArrived number arrival arrows.old.items arrows.new.items) }
{
    if number < arrows.len() {
        push_arrival(&mut arrows[number], arrival)
    } else {
        Ok(())
    }
}

/// Adds a row, if there is room for one.
fn push_row(rows: &mut Vec<Row>, row: Row) -> Result<(), AllocError>
    ensures added { OnOk result (rows.new.items ≡ rows.old.items ++ row ∷ []) }
    ensures same { OnErr result (rows.new.items ≡ rows.old.items) }
{
    match rows.push(row) {
        Ok(()) => Ok(()),
        Err(failed) => Err(AllocError::from(failed)),
    }
}

impl Picture {
    /// So many ranks, of which nothing is told yet.
    pub fn new(alloc: Global, size: u16) -> Picture
        ensures size { result.size ≡ size }
        ensures rows { result.rows.items ≡ [] }
        ensures arrows { result.arrows.items ≡ [] }
    {
        Picture {
            size,
            rows: Vec::new(alloc),
            arrows: Vec::new(alloc),
        }
    }

    /// Adds a row that tells what a rank did, or what happened to it. The only error is want of memory.
    pub fn tell(&mut self, note: Note) -> Result<(), AllocError>
        ensures added { OnOk result (self.new.rows.items ≡ self.old.rows.items ++ rows.Told note ∷ []) }
        ensures arrows { self.new.arrows ≡ self.old.arrows }
    {
        push_row(&mut self.rows, Row::Told(note))
    }

    /// Adds a row that tells what was asked of a rank or a datagram that isn't there. The only error is want of memory.
    pub fn tell_outside(&mut self, text: Vec<u8>) -> Result<(), AllocError>
        ensures added { OnOk result (self.new.rows.items ≡ self.old.rows.items ++ rows.Outside text ∷ []) }
        ensures arrows { self.new.arrows ≡ self.old.arrows }
    {
        push_row(&mut self.rows, Row::Outside(text))
    }

    /// Adds a row that tells that the rows below it are of ranks that wait for one another. The only error is want of
    /// memory.
    pub fn tell_cycle(&mut self) -> Result<(), AllocError>
        ensures added { OnOk result (self.new.rows.items ≡ self.old.rows.items ++ rows.Cycle ∷ []) }
        ensures arrows { self.new.arrows ≡ self.old.arrows }
    {
        push_row(&mut self.rows, Row::Cycle)
    }

    /// Adds a row in which a rank of a cycle waits. The only error is want of memory.
    pub fn tell_wait(&mut self, wait: CycleWait) -> Result<(), AllocError>
        ensures added { OnOk result (self.new.rows.items ≡ self.old.rows.items ++ rows.Waits wait ∷ []) }
        ensures arrows { self.new.arrows ≡ self.old.arrows }
    {
        push_row(&mut self.rows, Row::Waits(wait))
    }

    /// Whether a frame of this number went out from this endpoint to that one before.
    fn has_frame(&self, source: Endpoint, target: Endpoint, sequence: u64) -> bool {
        self.arrows
            .iter()
            .any(|arrow| arrow.is_frame_of(source, target, sequence))
    }

    /// Adds a row in which the next datagram goes out. The only error is want of memory.
    pub fn emit(&mut self, alloc: Global, emission: Emission) -> Result<(), AllocError>
        ensures row { OnOk result
            (self.new.rows.items ≡ self.old.rows.items ++ rows.Emitted (vec_len self.old.arrows) ∷ []) }
        ensures arrow { OnOk result
            (IsEmitted emission (vec_len self.old.rows) self.old.arrows.items self.new.arrows.items) }
    {
        let Emission {
            source,
            target,
            load,
            words,
        } = emission;
        let is_resent = is_frame(load.kind) && self.has_frame(source, target, load.sequence);
        let number = self.arrows.len();
        let arrow = Arrow {
            source,
            target,
            load,
            words,
            is_resent,
            row: self.rows.len(),
            arrivals: Vec::new(alloc),
        };
        push_arrow(&mut self.arrows, arrow)?;
        push_row(&mut self.rows, Row::Emitted(number))
    }

    /// Adds a row in which a datagram comes that went out before. The only error is want of memory.
    pub fn deliver(&mut self, delivery: Delivery) -> Result<(), AllocError>
        ensures row { OnOk result (self.new.rows.items ≡ self.old.rows.items ++ rows.Delivered delivery ∷ []) }
    {
        let arrival = Arrival {
            row: self.rows.len(),
            is_taken: delivery.answer.is_empty(),
        };
        add_arrival(&mut self.arrows, delivery.datagram, arrival)?;
        push_row(&mut self.rows, Row::Delivered(delivery))
    }
}
