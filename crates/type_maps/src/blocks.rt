//! What constructors are given.

ghost use Rattle.std.specs.Prelude.{◌≡◌, MatchResult, pos, true};
ghost use Rattle.std.specs.Int.{is_negative};
ghost use Rattle.type_maps.specs.Parts.{IsPartOfRow};

use crate::refusal::Refusal;

/// A block of copies.
#[derive(Clone, Copy)]
pub struct Block {
    /// How many copies.
    pub length: u64,
    /// Where the first one begins: in bytes, or in extents, as the constructor says.
    pub at: i64,
}

/// A dimension of an array, and the part of it that is taken.
#[derive(Clone, Copy)]
pub struct Dimension {
    /// How many indices the array has.
    pub size: u64,
    /// How many are taken.
    pub subsize: u64,
    /// The first that is taken.
    pub start: u64,
}

/// How a dimension of an array is distributed over processes, and which of them is asked for.
#[derive(Clone, Copy)]
pub struct Distribution {
    /// How many indices the array has.
    pub size: u64,
    /// How many indices stand in a block.
    pub block: u64,
    /// Over how many processes the blocks go round.
    pub processes: u64,
    /// Which of them.
    pub process: u64,
}

impl Block {
    /// So many copies from a place on.
    ///
    /// Refused where the length is negative.
    pub fn new(length: i64, at: i64) -> Result<Block, Refusal>
        ensures { MatchResult result (λ block. (length ≡ pos block.length) × (block.at ≡ at))
            (λ e. (e ≡ Refusal.NegativeCount) × (is_negative length ≡ true)) }
    {
        if length < 0 {
            return Err(Refusal::NegativeCount);
        }
        Ok(Block {
            length: length as u64,
            at,
        })
    }
}

impl Dimension {
    /// Of so many indices so many, from one on.
    ///
    /// Refused where none is taken, or one that isn't there (4.1.3).
    pub fn new(size: i64, subsize: i64, start: i64) -> Result<Dimension, Refusal>
        ensures { MatchResult result
            (λ d. IsPartOfRow size subsize start ×
            (size ≡ pos d.size) × (subsize ≡ pos d.subsize) × (start ≡ pos d.start))
            (λ e. (e ≡ Refusal.WrongArray) × (IsPartOfRow size subsize start → ⊥)) }
    {
        if subsize < 1 || size < subsize || start < 0 || size - subsize < start {
            return Err(Refusal::WrongArray);
        }
        Ok(Dimension {
            size: size as u64,
            subsize: subsize as u64,
            start: start as u64,
        })
    }
}
