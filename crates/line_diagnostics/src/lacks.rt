//! What a line lacks now that it is reached.

ghost use Rattle.std.specs.Prelude.{◌≡◌, IfOk, Some, true};
ghost use Rattle.line_diagnostics.specs.Lacks.{lacks_buffer, lacks_communicator, lacks_gathering, lacks_layout};
ghost use Rattle.line_diagnostics.specs.Lacks.{lacks_message, lacks_old, lacks_place, lacks_places, lacks_block};
ghost use Rattle.line_diagnostics.specs.Lacks.{lacks_request, lacks_requests, lacks_scatter, lacks_setting};
ghost use Rattle.line_diagnostics.specs.Lacks.{lacks_together, lacks_two, lack_of_action, lack_of_statement};

use crate::fault::LineFault;
use crate::holder::{Holder, Slot};
use script_files::ScriptStatement;
use statements::{
    Action, CommunicatorName, Gathering, Landing, LayoutClause, OldLayout, Reducing, ReducingToAll,
    RequestName, Scattering,
};
use std::alloc::{AllocError, Global};
use tokens::Name;

/// The name isn't set.
fn unset_fault(alloc: Global, name: &Name) -> Result<Option<LineFault>, AllocError>
    ensures { IfOk result (λ fault. fault ≡ Some (LineFault.Unset name.now)) }
{
    Ok(Some(LineFault::Unset(name.try_clone(alloc)?)))
}

/// The buffer of this name is lent.
fn lent_fault(alloc: Global, name: &Name) -> Result<Option<LineFault>, AllocError>
    ensures { IfOk result (λ fault. fault ≡ Some (LineFault.Lent name.now)) }
{
    Ok(Some(LineFault::Lent(name.try_clone(alloc)?)))
}

/// A buffer that is used has to be here.
fn lacks_buffer<H: Holder>(
    alloc: Global,
    names: &H,
    name: &Name,
) -> Result<Option<LineFault>, AllocError>
    ensures { IfOk result (λ fault. fault ≡ lacks_buffer (H.held names.now) name.now) }
{
    match names.slot(name) {
        Slot::Unset => unset_fault(alloc, name),
        Slot::Lent => lent_fault(alloc, name),
        Slot::Here => Ok(None),
    }
}

/// A buffer that is set must not be lent.
fn lacks_setting<H: Holder>(
    alloc: Global,
    names: &H,
    name: &Name,
) -> Result<Option<LineFault>, AllocError>
    ensures { IfOk result (λ fault. fault ≡ lacks_setting (H.held names.now) name.now) }
{
    match names.slot(name) {
        Slot::Lent => lent_fault(alloc, name),
        Slot::Unset | Slot::Here => Ok(None),
    }
}

fn lacks_layout<H: Holder>(
    alloc: Global,
    names: &H,
    name: &Name,
) -> Result<Option<LineFault>, AllocError>
    ensures { IfOk result (λ fault. fault ≡ lacks_layout (H.held names.now) name.now) }
{
    if names.has_layout(name) {
        Ok(None)
    } else {
        unset_fault(alloc, name)
    }
}

/// The layout that a `type` starts from.
fn lacks_old<H: Holder>(
    alloc: Global,
    names: &H,
    old: &OldLayout,
) -> Result<Option<LineFault>, AllocError>
    ensures { IfOk result (λ fault. fault ≡ lacks_old (H.held names.now) old.now) }
{
    match old {
        OldLayout::Basic(_) => Ok(None),
        OldLayout::Named(name) => lacks_layout(alloc, names, name),
    }
}

fn lacks_communicator<H: Holder>(
    alloc: Global,
    names: &H,
    communicator: &CommunicatorName,
) -> Result<Option<LineFault>, AllocError>
    ensures { IfOk result (λ fault. fault ≡ lacks_communicator (H.held names.now) communicator.now) }
{
    match communicator {
        CommunicatorName::World | CommunicatorName::Own => Ok(None),
        CommunicatorName::Named(name) => {
            if names.has_communicator(name) {
                Ok(None)
            } else {
                unset_fault(alloc, name)
            }
        }
    }
}

/// Two communicators, one after the other.
fn lacks_two<H: Holder>(
    alloc: Global,
    names: &H,
    one: &CommunicatorName,
    other: &CommunicatorName,
) -> Result<Option<LineFault>, AllocError>
    ensures { IfOk result (λ fault. fault ≡ lacks_two (H.held names.now) one.now other.now) }
{
    if let Some(fault) = lacks_communicator(alloc, names, one)? {
        return Ok(Some(fault));
    }
    lacks_communicator(alloc, names, other)
}

fn lacks_request<H: Holder>(
    alloc: Global,
    names: &H,
    requested: &RequestName,
) -> Result<Option<LineFault>, AllocError>
    ensures { IfOk result (λ fault. fault ≡ lacks_request (H.held names.now) requested.now) }
{
    match requested {
        RequestName::Null => Ok(None),
        RequestName::Named(name) => {
            if names.has_request(name) {
                Ok(None)
            } else {
                unset_fault(alloc, name)
            }
        }
    }
}

/// Each of several requests, in order.
fn lacks_requests<H: Holder>(
    alloc: Global,
    names: &H,
    several: &[RequestName],
) -> Result<Option<LineFault>, AllocError>
    ensures { IfOk result (λ fault. fault ≡ lacks_requests (H.held names.now) several.now) }
{
    for requested in several {
        if let Some(fault) = lacks_request(alloc, names, requested)? {
            return Ok(Some(fault));
        }
    }
    Ok(None)
}

/// The layout through which a buffer is used, if one is named.
fn lacks_places<H: Holder>(
    alloc: Global,
    names: &H,
    through: &Option<LayoutClause>,
) -> Result<Option<LineFault>, AllocError>
    ensures { IfOk result (λ fault. fault ≡ lacks_places (H.held names.now) through.now) }
{
    match through {
        None => Ok(None),
        Some(through) => lacks_layout(alloc, names, &through.layout),
    }
}

/// A send or a receive: its communicator, its layout and its buffer.
fn lacks_place<H: Holder>(
    alloc: Global,
    names: &H,
    communicator: &CommunicatorName,
    through: &Option<LayoutClause>,
    buffer: &Name,
) -> Result<Option<LineFault>, AllocError>
    ensures { IfOk result (λ fault. fault ≡ lacks_place (H.held names.now) communicator.now through.now buffer.now) }
{
    if let Some(fault) = lacks_communicator(alloc, names, communicator)? {
        return Ok(Some(fault));
    }
    if let Some(fault) = lacks_places(alloc, names, through)? {
        return Ok(Some(fault));
    }
    lacks_buffer(alloc, names, buffer)
}

/// The receive of a message that was taken out: its message, its layout and its buffer.
fn lacks_message<H: Holder>(
    alloc: Global,
    names: &H,
    message: &Name,
    said: &Landing,
) -> Result<Option<LineFault>, AllocError>
    ensures { IfOk result (λ fault. fault ≡ lacks_message (H.held names.now) message.now said.now) }
{
    if !names.has_message(message) {
        return unset_fault(alloc, message);
    }
    if let Some(fault) = lacks_places(alloc, names, &said.through)? {
        return Ok(Some(fault));
    }
    lacks_buffer(alloc, names, &said.buffer)
}

/// A collective that hands a buffer in, and sets another one where it `sets`.
fn lacks_gathering<H: Holder>(
    alloc: Global,
    names: &H,
    communicator: &CommunicatorName,
    sets: bool,
    into: &Name,
    buffer: &Name,
) -> Result<Option<LineFault>, AllocError>
    ensures { IfOk result
        (λ fault. fault ≡ lacks_gathering (H.held names.now) communicator.now sets into.now buffer.now) }
{
    if let Some(fault) = lacks_communicator(alloc, names, communicator)? {
        return Ok(Some(fault));
    }
    if sets {
        if let Some(fault) = lacks_setting(alloc, names, into)? {
            return Ok(Some(fault));
        }
    }
    lacks_buffer(alloc, names, buffer)
}

/// What the root of a scatter hands in. `-` is no buffer.
fn lacks_block<H: Holder>(
    alloc: Global,
    names: &H,
    is_root: bool,
    block: &Option<Name>,
) -> Result<Option<LineFault>, AllocError>
    ensures { IfOk result (λ fault. fault ≡ lacks_block (H.held names.now) is_root block.now) }
{
    if !is_root {
        return Ok(None);
    }
    match block {
        Some(name) => lacks_buffer(alloc, names, name),
        None => Ok(Some(LineFault::UnfitWords)),
    }
}

fn lacks_scatter<H: Holder>(
    alloc: Global,
    names: &H,
    said: &Scattering,
) -> Result<Option<LineFault>, AllocError>
    ensures { IfOk result (λ fault. fault ≡ lacks_scatter (H.held names.now) said.now) }
{
    if let Some(fault) = lacks_communicator(alloc, names, &said.communicator)? {
        return Ok(Some(fault));
    }
    if let Some(fault) = lacks_buffer(alloc, names, &said.into)? {
        return Ok(Some(fault));
    }
    let is_root = names.is_member(&said.communicator, said.root);
    lacks_block(alloc, names, is_root, &said.buffer)
}

/// A gather sets a buffer at the root.
fn lacks_gather<H: Holder>(
    alloc: Global,
    names: &H,
    said: &Gathering,
) -> Result<Option<LineFault>, AllocError>
    ensures { IfOk result (λ fault. fault ≡
        lacks_gathering (H.held names.now) said.now.communicator
        ((H.held names.now).members said.now.communicator said.now.root) said.now.into said.now.buffer) }
{
    let sets = names.is_member(&said.communicator, said.root);
    lacks_gathering(
        alloc,
        names,
        &said.communicator,
        sets,
        &said.into,
        &said.buffer,
    )
}

/// A reduction sets a buffer at the root.
fn lacks_reduce<H: Holder>(
    alloc: Global,
    names: &H,
    said: &Reducing,
) -> Result<Option<LineFault>, AllocError>
    ensures { IfOk result (λ fault. fault ≡
        lacks_gathering (H.held names.now) said.now.communicator
        ((H.held names.now).members said.now.communicator said.now.root) said.now.into said.now.buffer) }
{
    let sets = names.is_member(&said.communicator, said.root);
    lacks_gathering(
        alloc,
        names,
        &said.communicator,
        sets,
        &said.into,
        &said.buffer,
    )
}

/// A reduction for all sets a buffer at each member.
fn lacks_reduce_to_all<H: Holder>(
    alloc: Global,
    names: &H,
    said: &ReducingToAll,
) -> Result<Option<LineFault>, AllocError>
    ensures { IfOk result (λ fault. fault ≡
        lacks_gathering (H.held names.now) said.now.communicator true said.now.into said.now.buffer) }
{
    let sets = true;
    lacks_gathering(
        alloc,
        names,
        &said.communicator,
        sets,
        &said.into,
        &said.buffer,
    )
}

/// What a line on a communicator lacks: a collective, or a question about it.
fn lacks_together<H: Holder>(
    alloc: Global,
    names: &H,
    action: &Action,
) -> Result<Option<LineFault>, AllocError>
    ensures { IfOk result (λ fault. fault ≡ lacks_together (H.held names.now) action.now) }
{
    match action {
        Action::Barrier(communicator)
        | Action::Dup(_, communicator)
        | Action::Who(communicator)
        | Action::Members(communicator) => lacks_communicator(alloc, names, communicator),
        Action::Split(_, said) => lacks_communicator(alloc, names, &said.communicator),
        Action::Iprobe(said) | Action::Improbe(_, said) => {
            lacks_communicator(alloc, names, &said.communicator)
        }
        Action::Compare(one, other) => lacks_two(alloc, names, one, other),
        Action::Bcast(said) => {
            lacks_place(alloc, names, &said.communicator, &None, &said.buffer)
        }
        Action::Gather(said) => lacks_gather(alloc, names, said),
        Action::Reduce(said) => lacks_reduce(alloc, names, said),
        Action::Allreduce(said) => lacks_reduce_to_all(alloc, names, said),
        Action::Scatter(said) => lacks_scatter(alloc, names, said),
        _ => Ok(None),
    }
}

/// Why a rank whose names stand for this can't do what a line of a file of events or of a script asks for: the first of
/// the names that the line uses, in its order of use, that isn't set or whose buffer is lent. None where it can. The
/// only error is want of memory.
pub fn lack_of_action<H: Holder>(
    alloc: Global,
    names: &H,
    action: &Action,
) -> Result<Option<LineFault>, AllocError>
    ensures { IfOk result (λ fault. fault ≡ lack_of_action (H.held names.now) action.now) }
{
    match action {
        Action::Buffer(line) => lacks_setting(alloc, names, &line.name),
        Action::Layout(line) => lacks_old(alloc, names, &line.made_of),
        Action::Isend(_, said) | Action::Issend(_, said) => {
            lacks_place(
                alloc,
                names,
                &said.communicator,
                &said.through,
                &said.buffer,
            )
        }
        Action::Irecv(_, said) => {
            lacks_place(
                alloc,
                names,
                &said.communicator,
                &said.through,
                &said.buffer,
            )
        }
        Action::Mrecv(message, said) => lacks_message(alloc, names, message, said),
        Action::Wait(requested) | Action::Test(requested) | Action::Cancel(requested) => {
            lacks_request(alloc, names, requested)
        }
        Action::Waitany(several) | Action::Waitall(several) => {
            lacks_requests(alloc, names, several.as_slice())
        }
        together => lacks_together(alloc, names, together),
    }
}

/// What a line of a script lacks now that it is reached.
pub fn lack_of_statement<H: Holder>(
    alloc: Global,
    names: &H,
    statement: &ScriptStatement,
) -> Result<Option<LineFault>, AllocError>
    ensures { IfOk result (λ fault. fault ≡ lack_of_statement (H.held names.now) statement.now) }
{
    match statement {
        ScriptStatement::Action(action) => lack_of_action(alloc, names, action),
        ScriptStatement::Send(said) => {
            lacks_place(
                alloc,
                names,
                &said.communicator,
                &said.through,
                &said.buffer,
            )
        }
        ScriptStatement::Recv(said) => {
            lacks_place(
                alloc,
                names,
                &said.communicator,
                &said.through,
                &said.buffer,
            )
        }
        ScriptStatement::Print(name) => lacks_buffer(alloc, names, name),
        ScriptStatement::Count(name) => lacks_layout(alloc, names, name),
        ScriptStatement::Status | ScriptStatement::Say(_) | ScriptStatement::Fail => Ok(None),
    }
}
