//! Three ranks in the middle of traffic: by chance one calls, a datagram comes to one, a clock goes on, or one is
//! started anew. All that they emitted may come at any time, again and again, or never.

use crate::calls::call;
use crate::chance::Chance;
use crate::mutations::mutated;
use crate::watched::{Struck, Watched, new_watched, rank_of_three};
use datagram::Bytes;
use engine::Engine;
use std::alloc::Global;
use std::mem;

/// How many datagrams may come again.
const KEPT: usize = 64;

/// Why a game ended before its end.
#[derive(Clone, Copy, Debug, PartialEq, Eq)]
pub enum Fault {
    /// The two engines of rank 0 didn't show the same.
    Unlike,
    /// Memory was wanting.
    OutOfMemory,
}

/// The three ranks, and what is on its way.
#[derive(Drop)]
pub struct Game {
    alloc: Global,
    chance: Chance,
    zero: Watched,
    one: Engine,
    two: Engine,
    incarnations: [u16; 3],
    clock: u64,
    sent: Vec<(u16, Bytes)>,
}

/// All three, if all are here.
// In code for every type a drop is one step of a proof.
fn all<A: Drop, B: Drop>(zero: Option<A>, one: Option<B>, two: Option<B>) -> Option<(A, B, B)> {
    match (zero, one, two) {
        (Some(zero), Some(one), Some(two)) => Some((zero, one, two)),
        _ => None,
    }
}

/// A game at its start.
pub fn new_game(alloc: Global, seed: u64) -> Option<Game> {
    let zero = new_watched(alloc, 0);
    let one = rank_of_three(alloc, 1, 0);
    let two = rank_of_three(alloc, 2, 0);
    match all(zero, one, two) {
        Some((zero, one, two)) => Some(Game {
            alloc,
            chance: Chance::new(seed),
            zero,
            one,
            two,
            incarnations: [0; 3],
            clock: 0,
            sent: Vec::new(alloc),
        }),
        None => None,
    }
}

/// What an engine has emitted. The answer of a blocked call is dropped.
fn emitted(engine: &mut Engine) -> Vec<(u16, Bytes)> {
    drop(engine.take_completion());
    engine.take_out()
}

/// Another engine takes the place of one.
fn replace(engine: &mut Engine, fresh: Option<Engine>) -> Option<()> {
    let fresh = fresh?;
    drop(mem::replace(engine, fresh));
    Some(())
}

impl Game {
    /// What goes out may come from now on, and takes the place of others where too many may.
    fn keep(&mut self, sent: Vec<(u16, Bytes)>) -> Option<()> {
        for each in sent {
            if self.sent.len() < KEPT {
                self.sent.push(each).ok()?;
            } else {
                let place = self.chance.place(KEPT);
                if let Some(old) = self.sent.get_mut(place) {
                    drop(mem::replace(old, each));
                }
            }
        }
        Some(())
    }

    /// What the ranks have emitted may come.
    fn collect(&mut self) -> Result<(), Fault> {
        let Some(of_zero) = self.zero.take() else {
            return Err(Fault::Unlike);
        };
        let of_one = emitted(&mut self.one);
        let of_two = emitted(&mut self.two);
        match (self.keep(of_zero), self.keep(of_one), self.keep(of_two)) {
            (Some(()), Some(()), Some(())) => Ok(()),
            _ => Err(Fault::OutOfMemory),
        }
    }

    /// A rank calls something. Answers whether the engines of rank 0 are alike.
    fn call(&mut self) -> Option<bool> {
        let asked = call(self.alloc, &mut self.chance)?;
        match self.chance.small(3) {
            0 => {
                let copy = asked.try_clone(self.alloc).ok()?;
                Some(self.zero.call(asked, copy))
            }
            1 => {
                drop(self.one.call(asked));
                Some(true)
            }
            _ => {
                drop(self.two.call(asked));
                Some(true)
            }
        }
    }

    /// One of the datagrams that may come, by chance.
    fn pick(&mut self) -> Option<(u16, Bytes)> {
        let place = self.chance.place(self.sent.len());
        let (target, bytes) = self.sent.get(place)?;
        Some((*target, bytes.share().ok()?))
    }

    /// A datagram comes to a rank.
    fn deliver(&mut self) -> bool {
        let Some((target, bytes)) = self.pick() else {
            return true;
        };
        match target {
            0 => self.zero.deliver(bytes.as_slice()),
            1 => {
                let _answer = self.one.on_datagram(bytes.as_slice());
                true
            }
            _ => {
                let _answer = self.two.on_datagram(bytes.as_slice());
                true
            }
        }
    }

    /// All clocks go on.
    fn tick(&mut self) -> bool {
        self.clock = self.clock.saturating_add(11);
        let _one = self.one.tick(self.clock);
        let _two = self.two.tick(self.clock);
        self.zero.tick(self.clock)
    }

    /// A rank is started anew, at its next incarnation.
    fn restart(&mut self) -> Option<()> {
        let rank = self.chance.small(3);
        let place = self.incarnations.get_mut(usize::from(rank))?;
        *place = place.saturating_add(1);
        let incarnation = *place;
        match rank {
            0 => {
                let fresh = new_watched(self.alloc, incarnation)?;
                self.zero.restart(fresh);
                self.clock = 0;
                Some(())
            }
            1 => replace(&mut self.one, rank_of_three(self.alloc, 1, incarnation)),
            _ => replace(&mut self.two, rank_of_three(self.alloc, 2, incarnation)),
        }
    }

    /// Something happens. Answers whether the engines of rank 0 are alike.
    fn happen(&mut self) -> Option<bool> {
        match self.chance.small(64) {
            0..=19 => self.call(),
            20..=24 => Some(self.tick()),
            25 => {
                self.restart()?;
                Some(true)
            }
            _ => Some(self.deliver()),
        }
    }

    /// Something happens, and what goes out may come.
    pub fn go_on(&mut self) -> Result<(), Fault> {
        match self.happen() {
            Some(true) => self.collect(),
            Some(false) => Err(Fault::Unlike),
            None => Err(Fault::OutOfMemory),
        }
    }

    /// A datagram that is made of two that may come.
    fn make(&mut self) -> Option<Vec<u8>> {
        let (_, one) = self.pick()?;
        let (_, other) = self.pick()?;
        mutated(
            self.alloc,
            one.as_slice(),
            other.as_slice(),
            self.incarnations[0],
            &mut self.chance,
        )
    }

    /// A mutated datagram comes to rank 0, if something was sent; what became of it.
    pub fn strike(&mut self) -> Result<Option<Struck>, Fault> {
        if self.sent.is_empty() {
            return Ok(None);
        }
        let Some(bytes) = self.make() else {
            return Err(Fault::OutOfMemory);
        };
        let struck = self.zero.strike(&bytes);
        drop(bytes);
        if struck == Struck::Unlike {
            return Err(Fault::Unlike);
        }
        self.collect()?;
        Ok(Some(struck))
    }
}
