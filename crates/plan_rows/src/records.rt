//! The records by which a plan is asked for and told: numbers alone.

use std::default::Default;

/// Which plan is asked for.
#[repr(C)]
#[derive(Clone, Copy, Debug, Default, PartialEq, Eq)]
pub struct PlanRecord {
    /// Which collective it is of.
    pub kind: u32,
    /// How many members there are.
    pub size: u32,
    /// Whose plan it is.
    pub rank: u32,
    /// The root; only gather, scatter, broadcast and reduce have one.
    pub root: u32,
    /// 1 where the operation of a reduction is associative on the elements, else 0; what all members say alike.
    pub regroups: u32,
    /// How many bytes each block of all members has, where all have as many and know so; else the greatest number.
    pub bytes: u64,
}

/// A block that a step names.
#[repr(C)]
#[derive(Clone, Copy, Debug, Default, PartialEq, Eq)]
pub struct SlotRecord {
    /// 0: none; 1: what the member hands in; 2: its result; 3: room that the plan needs.
    pub kind: u32,
    /// Which of them.
    pub place: u32,
}

/// A step.
#[repr(C)]
#[derive(Clone, Copy, Debug, Default, PartialEq, Eq)]
pub struct StepRecord {
    /// 1: a copy; 2: a send; 3: a receive; 4: a fold.
    pub kind: u32,
    /// The member that a block goes to or comes from.
    pub peer: u32,
    /// 1 where the next step's block is in the same message, else 0.
    pub joined: u32,
    /// The block that is copied or sent, or the one of lower ranks that is folded.
    pub from: SlotRecord,
    /// The other block that is folded.
    pub high: SlotRecord,
    /// The block that becomes what is copied, received or folded.
    pub into: SlotRecord,
}
