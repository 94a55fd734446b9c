//! What collectives ask of the engine that make no communicator: barrier, bcast, gather, scatter, reduce and allreduce.

ghost use Rattle.std.specs.Prelude.{◌≡◌, IfOk, Some};
ghost use Rattle.interpreter.specs.NamesState.{here, is_root, place_named};
ghost use Rattle.interpreter.specs.StatementCalls.{block_for, blocks_named, broadcasts, enters, gathers, hands_in_to};
ghost use Rattle.interpreter.specs.StatementCalls.{is_lent_at_root, reduces, reduces_to_all, scatter_call, scatters};

use crate::calls::asked_by;
use crate::names::Names;
use crate::steps::NextStep;
use collective_messages::Entry;
use communicators::Question;
use datatypes::Buffer;
use engine_calls::Call;
use payload::Rooted;
use script_calls::{
    Pending, broadcast_of, elements_like, gather_of, reduction_of, reduction_to_all_of,
};
use statements::{
    Broadcasting, CommunicatorName, Gathering, Name, Reducing, ReducingToAll, Scattering,
};
use std::alloc::AllocError;

impl Names {
    /// Hands a block in to a collective on the communicator, which may set a buffer; none is one of 2^32 elements or
    /// more.
    fn hand_in_to(
        &self,
        comm: Option<usize>,
        name: Option<Name>,
        entry: Option<Entry>,
    ) -> Option<NextStep>
        ensures { hands_in_to comm name entry self.now ≡ (result, self.now) }
    {
        match entry {
            Some(entry) => Some(NextStep::calling(
                Call::Enter(comm, entry),
                Pending::Entering(name),
            )),
            None => Some(NextStep::calling(Call::Ask(comm, Question::Rank), Pending::Oversized)),
        }
    }

    /// Whether the buffer of this name is lent, at the root; elsewhere that isn't looked at.
    fn is_lent_at_root(&self, is_root: bool, name: &Name) -> bool
        ensures { result ≡ is_lent_at_root self.now is_root name.now }
    {
        if is_root { self.is_lent(name) } else { false }
    }

    /// Enters a collective that hands no block in, if the communicator is set.
    pub(crate) fn enter(
        &self,
        communicator: &CommunicatorName,
        entry: Entry,
        pending: Pending,
    ) -> Option<NextStep>
        ensures { enters (place_named self.now communicator.now) entry pending self.now ≡ (result, self.now) }
    {
        match self.place_named(communicator) {
            Some(comm) => Some(NextStep::calling(Call::Enter(comm, entry), pending)),
            None => {
                drop(entry);
                drop(pending);
                None
            }
        }
    }

    /// `bcast`
    pub(crate) fn broadcast(&self, said: Broadcasting) -> Result<Option<NextStep>, AllocError>
        ensures { IfOk result (λ next. broadcasts said self.now ≡ (next, self.now)) }
    {
        let Some(comm) = self.place_named(&said.communicator) else {
            return Ok(None);
        };
        let Some(buffer) = self.copy_of(&said.buffer)? else {
            return Ok(None);
        };
        let entry = broadcast_of(said.root, buffer);
        Ok(self.hand_in_to(comm, Some(said.buffer), entry))
    }

    /// The place of the communicator and a copy of the buffer, if both are here and what is to be set isn't lent.
    fn block_for(
        &self,
        communicator: &CommunicatorName,
        lent: bool,
        buffer: &Name,
    ) -> Result<Option<(Option<usize>, Buffer)>, AllocError>
        ensures { IfOk result
            (λ found. found ≡ block_for (place_named self.now communicator.now) lent (here self.now buffer.now)) }
    {
        let Some(comm) = self.place_named(communicator) else {
            return Ok(None);
        };
        if lent {
            return Ok(None);
        }
        match self.copy_of(buffer)? {
            Some(block) => Ok(Some((comm, block))),
            None => Ok(None),
        }
    }

    /// `gather`
    pub(crate) fn gather(&self, said: Gathering) -> Result<Option<NextStep>, AllocError>
        ensures { IfOk result (λ next. gathers said self.now ≡ (next, self.now)) }
    {
        let Gathering {
            communicator,
            root,
            buffer,
            into,
        } = said;
        let is_root = self.is_root(&communicator, root);
        let lent = self.is_lent_at_root(is_root, &into);
        let found = self.block_for(&communicator, lent, &buffer);
        drop(communicator);
        drop(buffer);
        let Some((comm, block)) = found? else {
            return Ok(None);
        };
        let entry = gather_of(root, block);
        Ok(self.hand_in_to(comm, Some(into), entry))
    }

    /// `reduce`
    pub(crate) fn reduce(&self, said: Reducing) -> Result<Option<NextStep>, AllocError>
        ensures { IfOk result (λ next. reduces said self.now ≡ (next, self.now)) }
    {
        let Reducing {
            communicator,
            operation,
            root,
            buffer,
            into,
        } = said;
        let is_root = self.is_root(&communicator, root);
        let lent = self.is_lent_at_root(is_root, &into);
        let found = self.block_for(&communicator, lent, &buffer);
        drop(communicator);
        drop(buffer);
        let Some((comm, block)) = found? else {
            return Ok(None);
        };
        let entry = reduction_of(operation, root, block);
        Ok(self.hand_in_to(comm, Some(into), entry))
    }

    /// `allreduce`
    pub(crate) fn reduce_to_all(&self, said: ReducingToAll) -> Result<Option<NextStep>, AllocError>
        ensures { IfOk result (λ next. reduces_to_all said self.now ≡ (next, self.now)) }
    {
        let ReducingToAll {
            communicator,
            operation,
            buffer,
            into,
        } = said;
        let lent = self.is_lent(&into);
        let found = self.block_for(&communicator, lent, &buffer);
        drop(communicator);
        drop(buffer);
        let Some((comm, block)) = found? else {
            return Ok(None);
        };
        let entry = reduction_to_all_of(operation, block);
        Ok(self.hand_in_to(comm, Some(into), entry))
    }

    /// What a scatter hands in: at the root a buffer that is here, elsewhere nothing.
    fn blocks_named(
        &self,
        is_root: bool,
        name: &Option<Name>,
    ) -> Result<Option<Option<Buffer>>, AllocError>
        ensures { IfOk result (λ blocks. blocks ≡ blocks_named self.now is_root name.now) }
    {
        if !is_root {
            return Ok(Some(None));
        }
        match name {
            Some(name) => match self.copy_of(name)? {
                Some(buffer) => Ok(Some(Some(buffer))),
                None => Ok(None),
            },
            None => Ok(None),
        }
    }

    /// The call of a scatter, if its communicator is set and its buffers are here.
    fn scatter_call(&self, said: &Scattering) -> Result<Option<Call>, AllocError>
        ensures { IfOk result (λ call.
            call ≡ scatter_call said.now (place_named self.now said.now.communicator) (here self.now said.now.into)
            (blocks_named self.now (is_root self.now said.now.communicator said.now.root) said.now.buffer)) }
    {
        let Some(comm) = self.place_named(&said.communicator) else {
            return Ok(None);
        };
        let elements = match self.copy_of(&said.into)? {
            Some(into) => elements_like(&into),
            None => return Ok(None),
        };
        let is_root = self.is_root(&said.communicator, said.root);
        let rooted = Rooted {
            elements,
            root: u32::from(said.root),
        };
        match self.blocks_named(is_root, &said.buffer)? {
            Some(blocks) => Ok(Some(Call::Enter(comm, Entry::Scatter(rooted, blocks)))),
            None => Ok(None),
        }
    }

    /// `scatter`
    pub(crate) fn scatter(&self, said: Scattering) -> Result<Option<NextStep>, AllocError>
        ensures { IfOk result (λ next. scatters said self.now ≡ (next, self.now)) }
    {
        let call = self.scatter_call(&said)?;
        Ok(asked_by(call, Pending::Entering(Some(said.into))))
    }
}
