//! The texts of what is told of communicators.

use std::fmt;

/// `comm C`: a communicator that was made, as it is written (MPI 3.1, 6.4.2).
#[derive(Clone, Copy)]
pub struct CommunicatorText {
    /// Its place among those of the rank, of which world has 0 and self 1; none: MPI_COMM_NULL.
    pub place: Option<usize>,
}

impl fmt::Display for CommunicatorText {
    ghost use Rattle.std.specs.Prelude.{Some};
    ghost use Rattle.printed_lines.specs.CommunicatorTexts.{communicator_text};

    ghost output = { λ c. Some (communicator_text c.place) };

    fn fmt<W: fmt::Write>(&self, f: &mut fmt::Formatter<W>) -> fmt::Result {
        match self.place {
            None => f.write_str("comm null"),
            Some(place) => write!(f, "comm {place}"),
        }
    }
}

/// `rank R of N`: the caller's rank in a communicator and the communicator's size, as they are written (MPI 3.1,
/// 6.4.1).
#[derive(Clone, Copy)]
pub struct PositionText {
    /// The rank in the communicator.
    pub rank: usize,
    /// How many members the communicator has.
    pub size: usize,
}

impl fmt::Display for PositionText {
    ghost use Rattle.std.specs.Prelude.{Some};
    ghost use Rattle.printed_lines.specs.CommunicatorTexts.{position_text};

    ghost output = { λ p. Some (position_text p.rank p.size) };

    fn fmt<W: fmt::Write>(&self, f: &mut fmt::Formatter<W>) -> fmt::Result {
        let rank = self.rank;
        let size = self.size;
        write!(f, "rank {rank} of {size}")
    }
}

/// Further members of a group as they are written behind the first: a space and the rank of world of each.
#[derive(Clone, Copy)]
struct FurtherMembers<'a> {
    ranks: &'a [u16],
}

impl<'a> fmt::Display for FurtherMembers<'a> {
    ghost use Rattle.std.specs.Prelude.{Some};
    ghost use Rattle.printed_lines.specs.CommunicatorTexts.{further_members_text};

    ghost output = { λ m. Some (further_members_text m.ranks.now) };

    fn fmt<W: fmt::Write>(&self, f: &mut fmt::Formatter<W>) -> fmt::Result {
        for place in 0..self.ranks.len() {
            let rank = self.ranks[place];
            write!(f, " {rank}")?;
        }
        Ok(())
    }
}

/// The members of a group as they are written: their ranks of world in order, a space between two (MPI 3.1, 6.3.1).
#[derive(Clone, Copy)]
pub struct MembersText<'a> {
    /// The ranks of world, in the order of the group.
    pub ranks: &'a [u16],
}

impl<'a> fmt::Display for MembersText<'a> {
    ghost use Rattle.std.specs.Prelude.{Some};
    ghost use Rattle.printed_lines.specs.CommunicatorTexts.{members_text};

    ghost output = { λ m. Some (members_text m.ranks.now) };

    fn fmt<W: fmt::Write>(&self, f: &mut fmt::Formatter<W>) -> fmt::Result {
        match self.ranks.split_first() {
            None => Ok(()),
            Some((first, rest)) => {
                let further = FurtherMembers { ranks: rest };
                write!(f, "{first}{further}")
            }
        }
    }
}

/// How two communicators compare, as it is written (MPI 3.1, 6.4.1).
#[derive(Clone, Copy)]
pub enum ComparisonText {
    /// MPI_IDENT: they are one.
    Ident,
    /// MPI_CONGRUENT: they have the same members in the same order.
    Congruent,
    /// MPI_SIMILAR: they have the same members in another order.
    Similar,
    /// MPI_UNEQUAL: one has a member that the other lacks.
    Unequal,
}

impl ComparisonText {
    ghost use Rattle.std.specs.Prelude.{◌≡◌};
    ghost use Rattle.printed_lines.specs.CommunicatorTexts.{comparison_text};

    /// The word of this comparison.
    fn word(self) -> &'static str
        ensures { result.now ≡ comparison_text self }
    {
        match self {
            ComparisonText::Ident => "ident",
            ComparisonText::Congruent => "congruent",
            ComparisonText::Similar => "similar",
            ComparisonText::Unequal => "unequal",
        }
    }
}

impl fmt::Display for ComparisonText {
    ghost use Rattle.std.specs.Prelude.{Some};
    ghost use Rattle.printed_lines.specs.CommunicatorTexts.{comparison_text};

    ghost output = { λ c. Some (comparison_text c) };

    fn fmt<W: fmt::Write>(&self, f: &mut fmt::Formatter<W>) -> fmt::Result {
        f.write_str(self.word())
    }
}
