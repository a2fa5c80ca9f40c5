//! Links for themselves.

ghost use Rattle.std.specs.Prelude.{◌≡◌, ◌<◌, ◌≤◌};

use super::expect;
use mapdb_exchange::{
    Batch, Incoming, MOST_CAPACITY, Message, NextFault, Ops, Outgoing, PutFault, link, settle,
};
use std::alloc::Global;
use std::process::Abort;
use std::sync::Wait;
use std::test::Fail;
use std::thread;
use std::time::Duration;

/// A batch with no operation.
fn batch(alloc: Global, index: u32) -> Message {
    Message::Batch(Batch {
        from: 0,
        to: 1,
        index,
        ops: Ops::from_vec(Vec::new(alloc)),
    })
}

/// What an end of a link answers.
#[derive(Clone, Copy, Debug, PartialEq, Eq)]
enum Answer {
    Put,
    AfterFin,
    Batch(u32),
    Fin,
    Finished,
    Gone,
}

/// What a put answers.
fn put<R: Wait>(rt: &R, outgoing: &mut Outgoing, message: Message) -> Answer
    ensures { outgoing.new.link ≡ outgoing.old.link }
{
    match outgoing.put(rt, message) {
        Ok(()) => Answer::Put,
        Err(PutFault::AfterFin(_)) => Answer::AfterFin,
        Err(PutFault::Gone(_)) => Answer::Gone,
    }
}

/// What the next message is.
fn next<R: Wait>(rt: &R, incoming: &mut Incoming) -> Answer
    ensures { incoming.new.link ≡ incoming.old.link }
{
    match incoming.next(rt) {
        Ok(Message::Batch(batch)) => Answer::Batch(batch.index),
        Ok(Message::Fin) => Answer::Fin,
        Err(NextFault::Finished) => Answer::Finished,
        Err(NextFault::Gone) => Answer::Gone,
    }
}

/// Asserts what an end answers to a batch, to Fin, and then to another batch.
fn put_all<R: Abort + Wait>(rt: &R, alloc: Global, outgoing: &mut Outgoing)
    ensures { outgoing.new.link ≡ outgoing.old.link }
{
    expect(rt, put(rt, outgoing, batch(alloc, 0)), Answer::Put);
    expect(rt, put(rt, outgoing, Message::Fin), Answer::Put);
    expect(rt, put(rt, outgoing, batch(alloc, 1)), Answer::AfterFin);
}

/// Asserts that a batch comes, then Fin, and then nothing.
fn receive_all<R: Abort + Wait>(rt: &R, incoming: &mut Incoming)
    ensures { incoming.new.link ≡ incoming.old.link }
{
    expect(rt, next(rt, incoming), Answer::Batch(0));
    expect(rt, next(rt, incoming), Answer::Fin);
    expect(rt, next(rt, incoming), Answer::Finished);
}

#[test]
fn link_fin(rt: HostRuntime) -> Result<(), Fail> {
    let Ok((mut outgoing, mut incoming)) = link(&rt, rt.alloc(), 2) else {
        return Err(Fail::from("no link"));
    };
    put_all(&rt, rt.alloc(), &mut outgoing);
    receive_all(&rt, &mut incoming);
    settle(&rt, outgoing, incoming);
    Ok(())
}

/// Puts so many batches on a new link before the first is received, and receives them. A put that
/// waits for a receiver waits for good.
fn fill<R: Abort + Wait>(rt: &R, alloc: Global, capacity: u32) -> Result<(), Fail>
    requires some { 0 < capacity }
    requires most { capacity ≤ MOST_CAPACITY }
{
    let Ok((mut outgoing, mut incoming)) = link(rt, alloc, capacity as usize) else {
        return Err(Fail::from("no link"));
    };
    for index in 0..capacity {
        expect(rt, put(rt, &mut outgoing, batch(alloc, index)), Answer::Put);
    }
    for index in 0..capacity {
        expect(rt, next(rt, &mut incoming), Answer::Batch(index));
    }
    Ok(())
}

#[test]
fn a_link_holds_its_capacity(rt: HostRuntime) -> Result<(), Fail> {
    fill(&rt, rt.alloc(), 1)?;
    fill(&rt, rt.alloc(), 3)?;
    fill(&rt, rt.alloc(), 1_024)
}

/// Puts more batches than the link holds and the other end receives. Answers whether one was handed
/// back.
fn put_until_gone<R: Wait>(rt: &R, alloc: Global, outgoing: Outgoing) -> bool {
    let mut outgoing = outgoing;
    for index in 0..5 {
        if put(rt, &mut outgoing, batch(alloc, index)) == Answer::Gone {
            return true;
        }
    }
    false
}

#[test]
fn receiver_goes(rt: HostRuntime) -> Result<(), Fail> {
    let Ok((outgoing, mut incoming)) = link(&rt, rt.alloc(), 1) else {
        return Err(Fail::from("no link"));
    };
    let rt = &rt;
    let alloc = rt.alloc();
    let (gone, received) = thread::join(
        rt,
        move || put_until_gone(rt, alloc, outgoing),
        move || {
            let received = next(rt, &mut incoming);
            thread::sleep(rt, Duration::from_millis(50));
            drop(incoming);
            received
        },
    );
    expect(rt, gone, true);
    expect(rt, received, Answer::Batch(0));
    Ok(())
}

#[test]
fn sender_goes(rt: HostRuntime) -> Result<(), Fail> {
    let Ok((outgoing, mut incoming)) = link(&rt, rt.alloc(), 1) else {
        return Err(Fail::from("no link"));
    };
    let rt = &rt;
    let ((), missed) = thread::join(
        rt,
        move || {
            thread::sleep(rt, Duration::from_millis(50));
            drop(outgoing);
        },
        move || next(rt, &mut incoming),
    );
    expect(rt, missed, Answer::Gone);
    Ok(())
}
