//! What the names of a rank stand for.

ghost use Rattle.std.specs.Prelude.{◌≡◌, IfOk, OnOk, Option, Some, None};
ghost use Rattle.script_calls.specs.Tables.{value_at};
ghost use Rattle.interpreter.specs.NamesState.{no_names, here, is_lent, is_root, place_named, with_buffer, given_back};

use alike::Alike;
use datatypes::{Buffer, Layout};
use line_diagnostics::{Holder, Slot};
use script_calls::{NamedCommunicator, NamedMessage, NamedRequest, Table, empty_status};
use statements::{CommunicatorName, Name};
use std::alloc::{AllocError, Global};
use std::marker::Model;
use vocabulary::Status;

/// What the names of a rank stand for. Each kind of thing has its own.
pub struct Names {
    pub(crate) alloc: Global,
    /// The rank in world; none where world has no such rank.
    pub(crate) rank: Option<u16>,
    pub(crate) buffers: Table<Option<Buffer>>,
    pub(crate) layouts: Table<Layout>,
    pub(crate) requests: Table<NamedRequest>,
    pub(crate) messages: Table<NamedMessage>,
    pub(crate) communicators: Table<Option<NamedCommunicator>>,
    pub(crate) last: Status,
}

/// A drop of its own is proved here alone, and not in each crate above.
impl Drop for Names {
    fn drop(self) {
        let Names {
            alloc: _,
            rank: _,
            buffers,
            layouts,
            requests,
            messages,
            communicators,
            last: _,
        } = self;
        drop(buffers);
        drop(layouts);
        drop(requests);
        drop(messages);
        drop(communicators);
    }
}

impl Model for Names {
    ghost use Rattle.interpreter.specs.NamesState.{NamesState};

    ghost Value = { NamesState };

    ghost view = { λ n. record {
      rank = n.rank;
      buffers = n.buffers;
      layouts = n.layouts;
      requests = n.requests;
      messages = n.messages;
      communicators = n.communicators;
      last = n.last;
    } };
}

impl Alike for Names {
    fn stands_as(&self, other: &Self) -> bool {
        self.rank == other.rank
            && self.buffers.stands_as(&other.buffers)
            && self.layouts.stands_as(&other.layouts)
            && self.requests.stands_as(&other.requests)
            && self.messages.stands_as(&other.messages)
            && self.communicators.stands_as(&other.communicators)
            && self.last == other.last
    }
}

impl Names {
    /// No name is set at this rank of `world`; none is one that `world` doesn't have.
    pub fn new(alloc: Global, rank: Option<u16>) -> Names
        ensures { result ≡ no_names rank }
    {
        Names {
            alloc,
            rank,
            buffers: Table::new(alloc),
            layouts: Table::new(alloc),
            requests: Table::new(alloc),
            messages: Table::new(alloc),
            communicators: Table::new(alloc),
            last: empty_status(),
        }
    }

    /// From where the memory is taken for what the names stand for.
    pub fn allocator(&self) -> Global {
        self.alloc
    }

    /// Lets a buffer's name stand for these elements, or be lent.
    pub(crate) fn set_buffer(&mut self, name: &Name, slot: Option<Buffer>) -> Result<(), AllocError>
        ensures { OnOk result (self.new ≡ with_buffer self.old name.now slot) }
    {
        self.buffers.set(name, slot)
    }

    /// The status of the last receive or probe, or that of the null request.
    pub fn last_status(&self) -> Status
        ensures { result ≡ self.now.last }
    {
        self.last
    }

    /// A copy of the layout of this name, if it is set.
    pub(crate) fn layout_of(&self, name: &Name) -> Result<Option<Layout>, AllocError>
        ensures { IfOk result (λ layout. layout ≡ value_at self.now.layouts name.now) }
    {
        match self.layouts.get(name) {
            Some(layout) => Ok(Some(layout.try_clone(self.alloc)?)),
            None => Ok(None),
        }
    }

    /// The place of the communicator that a line names, if it is set; none is MPI_COMM_NULL.
    pub(crate) fn place_named(&self, communicator: &CommunicatorName) -> Option<Option<usize>>
        ensures { result ≡ place_named self.now communicator.now }
    {
        match communicator {
            CommunicatorName::World => Some(Some(0)),
            CommunicatorName::Own => Some(Some(1)),
            CommunicatorName::Named(name) => match self.communicators.get(name) {
                Some(held) => match held {
                    Some(seat) => Some(Some(seat.place)),
                    None => Some(None),
                },
                None => None,
            },
        }
    }

    /// Whether the rank, which world has, is the member with this rank of the communicator that a line names.
    pub(crate) fn is_root(&self, communicator: &CommunicatorName, root: u16) -> bool
        ensures { result ≡ is_root self.now communicator.now root }
    {
        let Some(rank) = self.rank else {
            return false;
        };
        match communicator {
            CommunicatorName::World => rank == root,
            CommunicatorName::Own => root == 0,
            CommunicatorName::Named(name) => match self.communicators.get(name) {
                Some(held) => match held {
                    Some(seat) => seat.rank == usize::from(root),
                    None => false,
                },
                None => false,
            },
        }
    }

    /// A buffer comes back to the name that lent it, if one did.
    pub(crate) fn give_back(
        &mut self,
        name: &Option<Name>,
        buffer: Buffer,
    ) -> Result<(), AllocError>
        ensures { OnOk result (self.new ≡ given_back self.old name.now buffer) }
    {
        match name {
            Some(name) => self.set_buffer(name, Some(buffer)),
            None => Ok(()),
        }
    }

    /// Whether the buffer of this name is lent.
    pub(crate) fn is_lent(&self, name: &Name) -> bool
        ensures { result ≡ is_lent self.now name.now }
    {
        match self.buffers.get(name) {
            Some(slot) => slot.is_none(),
            None => false,
        }
    }

    /// A copy of the buffer of this name, unless it is lent or isn't set. The only error is want of memory.
    pub fn copy_of(&self, name: &Name) -> Result<Option<Buffer>, AllocError>
        ensures { IfOk result (λ copy. copy ≡ here self.now name.now) }
    {
        match self.buffers.get(name) {
            Some(slot) => match slot {
                Some(buffer) => Ok(Some(buffer.try_clone(self.alloc)?)),
                None => Ok(None),
            },
            None => Ok(None),
        }
    }
}

impl Holder for Names {
    ghost use Rattle.interpreter.specs.NamesState.{holdings};

    ghost held = { λ n. holdings n };

    fn has_communicator(&self, name: &Name) -> bool {
        self.communicators.get(name).is_some()
    }

    fn has_layout(&self, name: &Name) -> bool {
        self.layouts.get(name).is_some()
    }

    fn has_request(&self, name: &Name) -> bool {
        self.requests.get(name).is_some()
    }

    fn has_message(&self, name: &Name) -> bool {
        self.messages.get(name).is_some()
    }

    fn slot(&self, name: &Name) -> Slot {
        match self.buffers.get(name) {
            Some(slot) => {
                if slot.is_some() {
                    Slot::Here
                } else {
                    Slot::Lent
                }
            }
            None => Slot::Unset,
        }
    }

    fn is_member(&self, communicator: &CommunicatorName, rank: u16) -> bool {
        self.is_root(communicator, rank)
    }
}
