//! Communicators, as all their members know them.

use std::alloc::{AllocError, Global};

/// A communicator, as all its members know it.
#[derive(Drop)]
pub struct Group {
    /// That from which it came, by its place among all; of `world` and `self` their own.
    pub parent: usize,
    /// The number of the collective that made it, of those on the one from which it came.
    pub number: usize,
    /// The colour, where a split made it.
    pub colour: Option<u32>,
    /// The line of the first rank that made it; 0 of `world` and `self`.
    pub line: usize,
    /// The ranks in `world` of its members, in order.
    pub members: Vec<u16>,
}

fn ranks_below(alloc: Global, size: u16) -> Result<Vec<u16>, AllocError> {
    let mut ranks = Vec::new(alloc);
    for rank in 0..size {
        ranks.push(rank)?;
    }
    Ok(ranks)
}

fn alone(alloc: Global, rank: u16) -> Result<Vec<u16>, AllocError> {
    let mut ranks = Vec::new(alloc);
    ranks.push(rank)?;
    Ok(ranks)
}

/// `world`, and behind it `self` of each rank.
pub fn first_groups(alloc: Global, size: u16) -> Result<Vec<Group>, AllocError> {
    let mut groups = Vec::new(alloc);
    groups.push(Group {
        parent: 0,
        number: 0,
        colour: None,
        line: 0,
        members: ranks_below(alloc, size)?,
    })?;
    for rank in 0..size {
        let place = groups.len();
        groups.push(Group {
            parent: place,
            number: 0,
            colour: None,
            line: 0,
            members: alone(alloc, rank)?,
        })?;
    }
    Ok(groups)
}

impl Group {
    /// Whether the collective of this number on this communicator made it, with this colour.
    pub fn was_made_by(&self, parent: usize, number: usize, colour: Option<u32>) -> bool {
        self.line != 0 && self.parent == parent && self.number == number && self.colour == colour
    }

    /// The rank in `world` of this member.
    pub fn world_rank(&self, member: u16) -> Option<u16> {
        self.members.get(member as usize).copied()
    }
}
