//! A transport and a clock in memory.

ghost use Rattle.std.specs.Prelude.{◌≡◌, ◌+◌, ◌<◌, ◌≤◌, ◌^◌, min, [], ◌∷◌, ◌++◌, length, take, true, false, OnOk};
ghost use Rattle.std.specs.Prelude.{OnErr};
ghost use Rattle.event_loop.specs.Memories.{HasFailed, HasPassed};

use crate::clock::Clock;
use crate::exchange::Exchange;
use crate::transport::{Transport, TransportFault};
use datagram::Bytes;
use std::alloc::Global;
use std::collections::VecDeque;
use std::marker::Model;

/// A transport in memory. It gives the datagrams that were put into it, in their order, and keeps what passed. So many
/// of its calls succeed, and each later one fails; so does one, and each later one, for which memory is wanting.
#[derive(Drop)]
pub struct Memory {
    alloc: Global,
    waiting: VecDeque<Bytes>,
    log: Vec<Exchange>,
    calls_left: u64,
    failures: u64,
}

impl Model for Memory {
    ghost use Rattle.std.specs.Prelude.{◌≡◌, ◌<◌, ◌++◌, replicate};
    ghost use Rattle.event_loop.specs.Memories.{MemoryState};
    ghost use Rattle.event_loop.specs.declared.exchange.Exchange.TheVariants.{Failed};

    ghost Value = { MemoryState };

    ghost view = { λ m. record {
      log = m.log.items ++ replicate m.failures Failed;
      failed = m.failures;
      waiting = m.waiting.items;
      calls = m.calls_left;
    } };

    ghost invariant = { λ m. 0 < m.calls_left → m.failures ≡ 0 };
}

/// Copies as many bytes as fit to the front of the buffer, and answers how many.
fn put(buffer: &mut [u8], bytes: &[u8]) -> usize
    ensures count { result ≡ min (length buffer.old) (length bytes.now) }
    ensures within { result ≤ length buffer.new }
    ensures copied { take result buffer.new ≡ take result bytes.now }
{
    let len = buffer.len().min(bytes.len());
    buffer[..len].copy_from_slice(&bytes[..len]);
    len
}

/// Puts a value behind the others, and answers whether there was memory for it; where there was none it is dropped.
fn put_behind<T: Drop>(values: &mut Vec<T>, value: T) -> bool
    ensures put { result ≡ true → values.new.items ≡ values.old.items ++ value ∷ [] }
    ensures dropped { result ≡ false → values.new.items ≡ values.old.items }
{
    values.push(value).is_ok()
}

impl Memory {
    /// A transport that gives these datagrams, in order, and of whose calls so many succeed.
    pub fn new(alloc: Global, waiting: VecDeque<Bytes>, calls: u64) -> Memory
        ensures { result ≡ record { log = []; failed = 0; waiting = waiting.items; calls = calls } }
    {
        Memory {
            alloc,
            waiting,
            log: Vec::new(alloc),
            calls_left: calls,
            failures: 0,
        }
    }

    /// It fails now, and from now on.
    #[tactic(auto, using(crate::specs::MemoryLaws::one_more))]
    fn fail(&mut self) -> TransportFault
        requires { self.old.failed + 1 < 2 ^ 64 }
        ensures { HasFailed self.old self.new }
    {
        self.calls_left = 0;
        self.failures += 1;
        TransportFault
    }

    /// This passes, or a fault.
    fn pass(&mut self, exchange: Exchange) -> Result<(), TransportFault>
        requires { self.old.failed + 1 < 2 ^ 64 }
        ensures ok { OnOk result (HasPassed self.old exchange self.new) }
        ensures err { OnErr result (HasFailed self.old self.new) }
    {
        if self.calls_left == 0 {
            drop(exchange);
            return Err(self.fail());
        }
        if !put_behind(&mut self.log, exchange) {
            return Err(self.fail());
        }
        self.calls_left -= 1;
        Ok(())
    }

    /// A copy of these bytes passes, or a fault.
    fn pass_copy(&mut self, bytes: &[u8]) -> Result<(), TransportFault>
        requires { self.old.failed + 1 < 2 ^ 64 }
        ensures ok { OnOk result (HasPassed self.old (Exchange.Received bytes.now) self.new) }
        ensures err { OnErr result (HasFailed self.old self.new) }
    {
        match Bytes::from_slice(self.alloc, bytes) {
            Ok(copy) => self.pass(Exchange::Received(copy)),
            Err(_) => Err(self.fail()),
        }
    }
}

impl Transport for Memory {
    ghost use Rattle.std.specs.Prelude.{◌≡◌, ◌++◌, []};
    ghost use Rattle.event_loop.specs.Memories.{Comes};
    ghost use Rattle.event_loop.specs.MemoryLaws.{comes_joined, none_came, nothing_more, two_steps};

    ghost passed = { λ s xs t. (t.log ≡ s.log ++ xs) × Comes s.waiting xs t.waiting };

    ghost failed = { λ m. m.failed };

    ghost waits = { λ _. [] };

    fn receive(&mut self, buffer: &mut [u8]) -> Result<Option<usize>, TransportFault> {
        let Some(bytes) = self.waiting.front() else {
            return match self.pass(Exchange::Nothing) {
                Ok(_) => Ok(None),
                Err(_) => Err(TransportFault),
            };
        };
        let len = put(buffer, bytes.as_slice());
        match self.pass_copy(&buffer[..len]) {
            Ok(_) => {
                let _ = self.waiting.pop_front();
                Ok(Some(len))
            }
            Err(_) => Err(TransportFault),
        }
    }

    fn send(&mut self, target: u16, bytes: &[u8]) -> Result<(), TransportFault> {
        match Bytes::from_slice(self.alloc, bytes) {
            Ok(copy) => self.pass(Exchange::Sent(target, copy)),
            Err(_) => Err(self.fail()),
        }
    }

    fn print(&mut self, line: &[u8]) -> Result<(), TransportFault> {
        match Bytes::from_slice(self.alloc, line) {
            Ok(copy) => self.pass(Exchange::Printed(copy)),
            Err(_) => Err(self.fail()),
        }
    }

    fn wait(&mut self, most: u64) -> Result<(), TransportFault> {
        self.pass(Exchange::Waited(most))
    }

    fn wait_of(&self, _rank: u16) -> Option<u64> {
        None
    }

    fn failures(&self) -> u64 {
        self.failures
    }

    ghost none = { λ t. (nothing_more t.log, none_came t.waiting) };

    ghost joined = { λ s t u xs ys p q. (
      two_steps s.log t.log u.log xs ys p.0 q.0,
      comes_joined s.waiting t.waiting u.waiting xs ys p.1 q.1,
    ) };
}

/// A clock that rises by a millisecond at each reading, and stands still once 64 bits hold no later one.
#[derive(Clone, Copy)]
pub struct Rising {
    /// The time that it told last.
    pub time: u64,
}

impl Clock for Rising {
    ghost use Rattle.std.specs.Prelude.{◌≡◌};
    ghost use Rattle.event_loop.specs.Memories.{later};

    ghost told = { λ s now t. (now ≡ later s.time) × (now ≡ t.time) };

    fn now(&mut self) -> u64 {
        self.time = self.time.saturating_add(1);
        self.time
    }
}
