//! The names that a script uses though no line before sets them.

use crate::known_names::KnownNames;
use crate::parties::{Parties, Party, is_lowest_of};
use crate::slips::is_slip;
use line_diagnostics::{LineFault, lack_of_statement};
use script_files::{Audience, Item, Script, ScriptStatement};
use shown_words::Shown;
use statements::Action;
use std::alloc::{AllocError, Global};
use tokens::Name;

/// A name that a line uses though no line before it sets it, at ranks that have the line.
#[derive(Drop)]
pub struct UnsetName {
    /// The number of the line.
    pub line: usize,
    /// The name.
    pub name: Name,
    /// The lowest of the ranks at which it isn't set there.
    pub rank: u16,
    /// How many other ranks have the line and don't have the name set.
    pub others: usize,
    /// The name, or the word, that differs by a slip from it, if there is one.
    pub meant: Option<Vec<u8>>,
}

/// The name that a line lacks, by what may be set before.
fn lacked(
    alloc: Global,
    names: &KnownNames,
    statement: &ScriptStatement,
) -> Result<Option<Name>, AllocError> {
    match lack_of_statement(alloc, names, statement)? {
        Some(LineFault::Unset(name)) => Ok(Some(name)),
        Some(other) => {
            drop(other);
            Ok(None)
        }
        None => Ok(None),
    }
}

/// The name that a statement sets, if it sets one.
fn set_by(statement: &ScriptStatement) -> Option<&Name> {
    let ScriptStatement::Action(action) = statement else {
        return None;
    };
    match action {
        Action::Buffer(line) => Some(&line.name),
        Action::Layout(line) => Some(&line.name),
        Action::Isend(name, _) | Action::Issend(name, _) => Some(name),
        Action::Irecv(name, _) | Action::Improbe(name, _) => Some(name),
        Action::Gather(line) => Some(&line.into),
        Action::Reduce(line) => Some(&line.into),
        Action::Allreduce(line) => Some(&line.into),
        Action::Dup(name, _) | Action::Split(name, _) => Some(name),
        _ => None,
    }
}

/// A word of the language, or a name that a line of the script sets, that differs from the name by a slip.
fn meant_by(alloc: Global, script: &Script, name: &Name) -> Result<Option<Vec<u8>>, AllocError> {
    for word in ["world", "self", "null"] {
        if is_slip(word.as_bytes(), name.as_bytes()) {
            return Ok(Some(Vec::from_slice(alloc, word.as_bytes())?));
        }
    }
    for line in script.lines() {
        if let Item::Does(statement) = &line.item {
            if let Some(set) = set_by(statement) {
                if is_slip(set.as_bytes(), name.as_bytes()) {
                    return Ok(Some(Vec::from_slice(alloc, set.as_bytes())?));
                }
            }
        }
    }
    Ok(None)
}

/// A script that is followed, and the unset names that were found in it.
#[derive(Drop)]
struct Search<'a> {
    alloc: Global,
    script: &'a Script,
    found: Vec<UnsetName>,
}

impl Search<'_> {
    /// Notes that a rank of this party lacks the name at a line.
    fn note(&mut self, line: usize, party: &Party, name: Name) -> Result<(), AllocError> {
        if let Some(last) = self.found.last_mut() {
            if last.line == line && last.name.is(&name) {
                last.others = last.others.saturating_add(party.count);
                drop(name);
                return Ok(());
            }
        }
        let meant = meant_by(self.alloc, self.script, &name)?;
        self.found.push(UnsetName {
            line,
            name,
            rank: party.lowest,
            others: party.count.saturating_sub(1),
            meant,
        })?;
        Ok(())
    }

    /// The line of this number is followed by the party, as far as it sets names.
    fn follow(
        &mut self,
        line: usize,
        party: &mut Party,
        statement: &ScriptStatement,
    ) -> Result<(), AllocError> {
        if let Some(name) = lacked(self.alloc, &party.names, statement)? {
            self.note(line, party, name)?;
        }
        party.names.learn(statement)
    }
}

/// The names that lines of a script use for so many ranks, at their first incarnations, though no line before sets
/// them. The rank that reaches such a line ends there, whatever the others do. The only error is want of memory.
pub fn unset_names(
    alloc: Global,
    script: &Script,
    size: u16,
) -> Result<Vec<UnsetName>, AllocError> {
    let mut parties = Parties::new(alloc, script, size)?;
    let mut meant = parties.meant(alloc, &Audience::All)?;
    let mut search = Search {
        alloc,
        script,
        found: Vec::new(alloc),
    };
    for line in script.lines() {
        match &line.item {
            Item::On(audience) => meant = parties.meant(alloc, audience)?,
            Item::Does(statement) => {
                for place in meant.as_slice() {
                    if let Some(party) = parties.items.get_mut(*place) {
                        search.follow(line.number, party, statement)?;
                    }
                }
            }
        }
    }
    Ok(search.found)
}

/// The lines for this rank are followed by its party, as far as they set names; of those that are for other ranks too
/// what they lack is noted where it is the lowest of them. Nothing is owned here, since what is would be dropped at each
/// error.
fn follow_own(
    search: &mut Search,
    party: &mut Party,
    rank: u16,
    size: u16,
) -> Result<(), AllocError> {
    let (mut here, mut tells) = (true, rank == 0);
    for line in search.script.lines() {
        match &line.item {
            Item::On(audience) => {
                here = audience.includes(rank, 0);
                tells = is_lowest_of(audience, rank, size);
            }
            Item::Does(statement) => {
                if here && tells {
                    search.follow(line.number, party, statement)?;
                } else if here {
                    party.names.learn(statement)?;
                }
            }
        }
    }
    Ok(())
}

/// The names that lines for this rank use, at its first incarnation, though no line before sets them; of lines that are
/// for other ranks too those alone of which it is the lowest. So where each rank of a job tells its own, each is told
/// once. The only error is want of memory.
pub fn unset_names_of(
    alloc: Global,
    script: &Script,
    rank: u16,
    size: u16,
) -> Result<Vec<UnsetName>, AllocError> {
    let mut party = Party {
        lowest: rank,
        count: 1,
        names: KnownNames::new(alloc),
    };
    let mut search = Search {
        alloc,
        script,
        found: Vec::new(alloc),
    };
    follow_own(&mut search, &mut party, rank, size)?;
    Ok(search.found)
}

/// `line L: the name X isn't set at rank R: STATEMENT`: a name that isn't set where the line with this text uses it.
/// The only error is want of memory.
pub fn unset_line(alloc: Global, unset: &UnsetName, text: &[u8]) -> Result<String, AllocError> {
    let (line, rank, others) = (unset.line, unset.rank, unset.others);
    let (name, text) = (
        Shown {
            word: unset.name.as_bytes(),
        },
        Shown { word: text },
    );
    let ranks = match others {
        0 => format!(in alloc; "rank {rank}")?,
        1 => format!(in alloc; "rank {rank} and one more")?,
        _ => format!(in alloc; "rank {rank} and {others} more")?,
    };
    match &unset.meant {
        Some(meant) => {
            let meant = Shown { word: meant };
            format!(in alloc;
                "line {line}: no line sets the name {name} before at {ranks} ('{meant}' may be meant): {text}"
            )
        }
        None => format!(in alloc;
            "line {line}: no line sets the name {name} before at {ranks}: {text}"
        ),
    }
}
