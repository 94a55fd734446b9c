//! The communicators of a rank, and the contexts that it gives.

ghost use Rattle.std.specs.Prelude.{◌≡◌, ◌<◌, ◌≤◌, ◌+◌, ◌^◌, ◌↔◌, position, length, slice_get, IsTrue, IfOk};
ghost use Rattle.std.specs.Prelude.{OnOk, IsOkUnless};
ghost use Rattle.std.specs.Option.{option_copied};
ghost use Rattle.context_agreement.specs.Communicators.{opening, context_after, NextGives, after_draw};
ghost use Rattle.context_agreement.specs.Communicators.{after_install, is_same, place_of};

use crate::communicator::Communicator;
use crate::context::Context;
use crate::refusal::ContextRefusal;
use alike::are_alike;
use groups::Group;
use std::alloc::Global;
use std::marker::Model;

/// The serial of the first context that a rank draws: 0 and 1 are those of `world` and of its
/// `self`.
const FIRST_SERIAL: u64 = 2;

/// One above the last serial: serials have 32 bits.
const END_OF_SERIALS: u64 = 0x1_0000_0000;

/// How many communicators a rank holds at most, `world` and `self` included.
const MOST_COMMUNICATORS: usize = 4096;

/// The communicators that a rank holds at one incarnation, in the order in which it got them, and
/// the contexts that it gives as a creator.
#[derive(Drop)]
pub struct Contexts {
    rank: u16,
    incarnation: u16,
    next_serial: u64,
    held: Vec<Communicator>,
}

impl Model for Contexts {
    ghost use Rattle.std.specs.Prelude.{◌≤◌, ◌^◌, ◌-◌, length, vec_len, vec_capacity};
    ghost use Rattle.context_agreement.specs.Communicators.{Held};

    ghost Value = { Held };

    ghost view = { λ c. record {
      state = record {
        rank = c.rank;
        incarnation = c.incarnation;
        next_serial = c.next_serial;
        held = c.held.items;
      };
      more = vec_capacity c.held - vec_len c.held;
    } };

    ghost invariant = { λ c. (c.next_serial ≤ 2 ^ 32) × (length c.held.items ≤ 4096) };
}

impl Contexts {
    /// The contexts of a rank at an incarnation, in a world of this many ranks: it holds `world` at
    /// place 0 and `self` at place 1.
    pub fn new(
        alloc: Global,
        rank: u16,
        incarnation: u16,
        size: u16,
    ) -> Result<Self, ContextRefusal>
        ensures ok { IfOk result (λ contexts. contexts.state ≡ opening rank incarnation size) }
        ensures err { IsOkUnless result ContextRefusal.OutOfMemory }
    {
        let Ok(group) = Group::of_first_ranks(alloc, size) else {
            return Err(ContextRefusal::OutOfMemory);
        };
        let Ok(mut held) = Vec::with_capacity(alloc, 2) else {
            return Err(ContextRefusal::OutOfMemory);
        };
        let world = Communicator {
            context: Context::WORLD,
            group,
        };
        let own = Communicator {
            context: Context::of_self(rank, incarnation),
            group: Group::of_rank(alloc, rank),
        };
        if held.push(world).is_err() || held.push(own).is_err() {
            return Err(ContextRefusal::OutOfMemory);
        }
        Ok(Contexts {
            rank,
            incarnation,
            next_serial: FIRST_SERIAL,
            held,
        })
    }

    /// Gives a context that was never given before. `ContextRefusal::Limit` comes where no serial is left.
    /// It takes no memory.
    pub fn next(&mut self) -> Result<Context, ContextRefusal>
        ensures exact { NextGives self.old.state result self.new.state }
        ensures more { self.new.more ≡ self.old.more }
    {
        if self.next_serial == END_OF_SERIALS {
            return Err(ContextRefusal::Limit);
        }
        let serial = self.next_serial as u32;
        self.next_serial += 1;
        Ok(Context {
            rank: self.rank,
            incarnation: self.incarnation,
            serial,
        })
    }

    /// How many contexts are left to give.
    pub fn serials_left(&self) -> u64
        ensures { result + self.now.state.next_serial ≡ 2 ^ 32 }
    {
        END_OF_SERIALS - self.next_serial
    }

    /// Whether the rank holds as many communicators as it may: 4,096.
    pub fn is_full(&self) -> bool
        ensures full { IsTrue result ↔ (length self.now.state.held ≡ 4096) }
        ensures never_more { length self.now.state.held ≤ 4096 }
    {
        self.held.len() == MOST_COMMUNICATORS
    }

    /// Makes room for one more communicator, or finds that there is no memory. Nothing else changes.
    pub fn reserve(&mut self) -> Result<(), ContextRefusal>
        ensures room { OnOk result (0 < self.new.more) }
        ensures kept { self.new.state ≡ self.old.state }
        ensures err { IsOkUnless result ContextRefusal.OutOfMemory }
    {
        self.held
            .reserve(1)
            .map_err(|_| ContextRefusal::OutOfMemory)
    }

    /// The context that is given once `further` others are, where as many are left to give. It takes
    /// no memory.
    pub fn context_after(&self, further: u64) -> Option<Context>
        ensures { result ≡ context_after self.now.state further }
    {
        if further >= self.serials_left() {
            return None;
        }
        Some(Context {
            rank: self.rank,
            incarnation: self.incarnation,
            serial: (self.next_serial + further) as u32,
        })
    }

    /// Gives the next contexts, as many as `count`: those that `context_after` shows from 0 on.
    pub fn draw(&mut self, count: u64)
        requires { self.old.state.next_serial + count ≤ 2 ^ 32 }
        ensures state { self.new.state ≡ after_draw self.old.state count }
        ensures more { self.new.more ≡ self.old.more }
    {
        self.next_serial += count;
    }

    /// Takes a communicator in for which there is room, behind those that the rank holds, and
    /// answers its place. It takes no memory.
    pub fn install_reserved(&mut self, communicator: Communicator) -> usize
        requires room { 0 < self.old.more }
        requires few { length self.old.state.held < 4096 }
        ensures place { result ≡ length self.old.state.held }
        ensures state { self.new.state ≡ after_install self.old.state communicator }
    {
        let place = self.held.len();
        self.held.push(communicator).unwrap();
        place
    }

    /// The communicator at a place, where there is one.
    pub fn communicator(&self, place: usize) -> Option<&Communicator>
        ensures { option_copied result ≡ slice_get self.now.state.held place }
    {
        self.held.get(place)
    }

    /// Whether both are of one rank and incarnation, hold the same communicators in the same order and give the same
    /// context next, whatever room they have.
    pub fn stands_as(&self, other: &Contexts) -> bool
        ensures { IsTrue result → self.now.state ≡ other.now.state }
    {
        self.rank == other.rank
            && self.incarnation == other.incarnation
            && self.next_serial == other.next_serial
            && are_alike(&self.held, &other.held)
    }

    /// The place of the communicator with this context, where the rank holds it.
    pub fn place_of(&self, context: Context) -> Option<usize>
        ensures { result ≡ place_of self.now.state context }
    {
        first_place(&self.held, context)
    }
}

/// The index of the first communicator with this context.
fn first_place(held: &[Communicator], context: Context) -> Option<usize>
    ensures { result ≡ position (λ h. is_same h.context context) held.now }
{
    held.iter()
        .position(|communicator| communicator.context == context)
}
