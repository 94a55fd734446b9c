//! The names that lines may have set.

ghost use Rattle.std.specs.Prelude.{◌≡◌, OnOk};
ghost use Rattle.script_judgement.specs.KnownNames.{after_action, after_statement, holdings_of, nothing_known};

use line_diagnostics::{Holder, Slot};
use script_calls::Table;
use script_files::ScriptStatement;
use statements::{Action, CommunicatorName};
use std::alloc::{AllocError, Global};
use std::marker::Model;
use tokens::Name;

/// The names that the lines of a rank so far may have set, each kind by itself.
#[derive(Drop)]
pub struct KnownNames {
    communicators: Table<()>,
    layouts: Table<()>,
    requests: Table<()>,
    messages: Table<()>,
    buffers: Table<()>,
}

impl Model for KnownNames {
    ghost use Rattle.script_judgement.specs.KnownNames.{KnownState};

    ghost Value = { KnownState };

    ghost view = { λ k. record {
      communicators = k.communicators;
      layouts = k.layouts;
      requests = k.requests;
      messages = k.messages;
      buffers = k.buffers;
    } };
}

impl KnownNames {
    /// No names. It takes no memory.
    pub fn new(alloc: Global) -> KnownNames
        ensures { result ≡ nothing_known }
    {
        KnownNames {
            communicators: Table::new(alloc),
            layouts: Table::new(alloc),
            requests: Table::new(alloc),
            messages: Table::new(alloc),
            buffers: Table::new(alloc),
        }
    }

    /// What a line sets that files of events have too.
    fn learn_action(&mut self, action: &Action) -> Result<(), AllocError>
        ensures { OnOk result (self.new ≡ after_action action.now self.old) }
    {
        match action {
            Action::Buffer(line) => self.buffers.set(&line.name, ()),
            Action::Layout(line) => self.layouts.set(&line.name, ()),
            Action::Isend(name, _) | Action::Issend(name, _) => self.requests.set(name, ()),
            Action::Irecv(name, _) => self.requests.set(name, ()),
            Action::Improbe(name, _) => self.messages.set(name, ()),
            Action::Gather(line) => self.buffers.set(&line.into, ()),
            Action::Reduce(line) => self.buffers.set(&line.into, ()),
            Action::Allreduce(line) => self.buffers.set(&line.into, ()),
            Action::Dup(name, _) => self.communicators.set(name, ()),
            Action::Split(name, _) => self.communicators.set(name, ()),
            _ => Ok(()),
        }
    }

    /// What a line may set is known from now on. The only error is want of memory.
    pub fn learn(&mut self, statement: &ScriptStatement) -> Result<(), AllocError>
        ensures { OnOk result (self.new ≡ after_statement statement.now self.old) }
    {
        match statement {
            ScriptStatement::Action(action) => self.learn_action(action),
            _ => Ok(()),
        }
    }
}

impl Holder for KnownNames {
    ghost held = { λ k. holdings_of k };

    fn has_communicator(&self, name: &Name) -> bool {
        self.communicators.get(name).is_some()
    }

    fn has_layout(&self, name: &Name) -> bool {
        self.layouts.get(name).is_some()
    }

    fn has_request(&self, name: &Name) -> bool {
        self.requests.get(name).is_some()
    }

    fn has_message(&self, name: &Name) -> bool {
        self.messages.get(name).is_some()
    }

    fn slot(&self, name: &Name) -> Slot {
        if self.buffers.get(name).is_some() {
            Slot::Here
        } else {
            Slot::Unset
        }
    }

    fn is_member(&self, _communicator: &CommunicatorName, _rank: u16) -> bool {
        false
    }
}
