//! Two engines, whose datagrams the program carries itself.

use crate::calls::{print_received, receive, send};
use anyhow::bail;
use engine::{Call, Completion, Engine, Place, Refusal, Reply, Request};
use std::alloc::Global;
use std::io;
use vocabulary::{Endpoint, MessageLimit};

/// The engine of a rank in a job of two, at the rank's first incarnation.
fn engine_of(alloc: Global, rank: u16) -> Result<Engine, Refusal> {
    let endpoint = Endpoint {
        rank,
        incarnation: 0,
    };
    Engine::new(
        alloc,
        Place {
            endpoint,
            size: 2,
            job: 1,
            message_limit: MessageLimit::least(),
        },
    )
}

/// The request that a call started.
fn started(reply: &Reply) -> Result<Request, anyhow::Error> {
    match reply {
        Reply::Started(request) => Ok(*request),
        Reply::Refused(refused, _) => Err(anyhow::Error::from(*refused)),
        _ => bail!("no request was answered"),
    }
}

/// Calls an engine for an operation, and answers its request.
// `drop` in place of the brace: what owns much is dropped by one proof for all types.
fn start(engine: &mut Engine, call: Call) -> Result<Request, anyhow::Error> {
    let reply = engine.call(call);
    let request = started(&reply);
    drop(reply);
    request
}

/// The network: brings to one engine all that the other one has emitted.
fn carry(from: &mut Engine, to: &mut Engine) -> Result<(), Refusal> {
    for (_target, bytes) in from.take_out() {
        to.on_datagram(bytes.as_slice())?;
    }
    Ok(())
}

/// Rank 1 starts a receive, and is blocked in a wait for it.
fn await_message(alloc: Global, receiver: &mut Engine) -> Result<(), anyhow::Error> {
    let request = start(receiver, receive(alloc, 0)?)?;
    drop(receiver.call(Call::Wait(Some(request))));
    Ok(())
}

/// Rank 0 sends, and what goes out is lost.
fn send_in_vain(rt: &(impl Print + AllocGlobal), sender: &mut Engine) -> Result<(), anyhow::Error> {
    let _sent = start(sender, send(rt.alloc(), 1)?)?;
    let lost = sender.take_out().len();
    println!(rt; "  lost: {lost}, idle: {}", sender.is_idle())?;
    Ok(())
}

/// Prints the answer of the wait, if it is there.
fn print_answer(rt: &impl Print, receiver: &mut Engine) -> io::Result<()> {
    let completion = receiver.take_completion();
    let printed = match &completion {
        Some(Completion::Requests(answer)) => print_received(rt, answer),
        _ => Ok(()),
    };
    drop(completion);
    printed
}

/// 20 ms later rank 0 sends again; rank 1 takes the message in and acknowledges it.
fn send_again(
    rt: &impl Print,
    sender: &mut Engine,
    receiver: &mut Engine,
) -> Result<(), anyhow::Error> {
    sender.tick(20)?;
    carry(sender, receiver)?;
    print_answer(rt, receiver)?;
    carry(receiver, sender)?;
    println!(rt; "  idle: {}", sender.is_idle())?;
    Ok(())
}

/// A message goes from rank 0 to rank 1, over a network that loses its first datagram.
fn converse(
    rt: &(impl Print + AllocGlobal),
    sender: &mut Engine,
    receiver: &mut Engine,
) -> Result<(), anyhow::Error> {
    await_message(rt.alloc(), receiver)?;
    send_in_vain(rt, sender)?;
    send_again(rt, sender, receiver)
}

/// Rank 1 joins rank 0.
fn join(rt: &(impl Print + AllocGlobal), sender: &mut Engine) -> Result<(), anyhow::Error> {
    let mut receiver = engine_of(rt.alloc(), 1)?;
    let conversed = converse(rt, sender, &mut receiver);
    drop(receiver);
    conversed
}

/// Two engines, and what passes between them.
// Each function owns one engine, and has one exit behind it.
pub fn run(rt: &(impl Print + AllocGlobal)) -> Result<(), anyhow::Error> {
    let mut sender = engine_of(rt.alloc(), 0)?;
    let joined = join(rt, &mut sender);
    drop(sender);
    joined
}
