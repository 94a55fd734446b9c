//! What became of mutated datagrams.

use crate::watched::Struck;
use std::io;

/// How many were taken, and how many were refused by each number.
#[derive(Clone, Copy)]
pub struct Tally {
    taken: u64,
    refused: [u64; 32],
}

impl Tally {
    /// None came yet.
    pub fn new() -> Tally {
        Tally {
            taken: 0,
            refused: [0; 32],
        }
    }

    /// One more.
    pub fn count(&mut self, struck: Struck) {
        match struck {
            Struck::Taken => self.taken = self.taken.saturating_add(1),
            Struck::Refused(number) => {
                if let Some(count) = self.refused.get_mut(usize::from(number)) {
                    *count = count.saturating_add(1);
                }
            }
            Struck::Unlike => {}
        }
    }

    /// Prints whether some were taken and by which numbers some were refused, or how many.
    pub fn print(&self, rt: &impl Print, counts: bool) -> io::Result<()> {
        print_line(rt, "taken", self.taken, counts)?;
        for (number, count) in self.refused.iter().enumerate() {
            print_number(rt, number, *count, counts)?;
        }
        println!(rt; "no refusal changed anything")
    }
}

fn print_line(rt: &impl Print, title: &str, count: u64, counts: bool) -> io::Result<()> {
    if counts {
        println!(rt; "{title}: {count}")
    } else if count > 0 {
        println!(rt; "{title}")
    } else {
        Ok(())
    }
}

fn print_number(rt: &impl Print, number: usize, count: u64, counts: bool) -> io::Result<()> {
    if count == 0 {
        Ok(())
    } else if counts {
        println!(rt; "refused with {number}: {count}")
    } else {
        println!(rt; "refused with {number}")
    }
}
