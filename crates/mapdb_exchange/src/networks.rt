//! The links among the processors of an exchange: one from each to each other.

ghost use Rattle.std.specs.Prelude.{◌<◌, ◌≤◌};

use crate::limits::MOST_CAPACITY;
use crate::links::link;
use crate::receivers::BatchReceiver;
use crate::senders::BatchSender;
use std::alloc::{AllocError, Global};
use std::sync::Wait;

/// The ends of the links that lead to a processor, ascending by the processor that each hears.
#[derive(Drop)]
pub(crate) struct Inbox {
    pub(crate) processor: u8,
    pub(crate) links: Vec<BatchReceiver>,
}

/// The inboxes of so many processors, with no link.
pub(crate) fn inboxes_of(alloc: Global, count: u8) -> Result<Vec<Inbox>, AllocError> {
    let mut inboxes = Vec::new(alloc);
    for processor in 0..count {
        inboxes.push(Inbox {
            processor,
            links: Vec::new(alloc),
        })?;
    }
    Ok(inboxes)
}

/// Makes all links among so many processors. Their ends that receive go to the inboxes; those that
/// put are given for each processor in order.
pub(crate) fn outboxes_of<R: Wait>(
    rt: &R,
    alloc: Global,
    count: u8,
    inboxes: &mut [Inbox],
    capacity: usize,
) -> Result<Vec<Vec<BatchSender>>, AllocError>
    requires some { 0 < capacity }
    requires most { capacity ≤ MOST_CAPACITY }
{
    let mut outboxes = Vec::new(alloc);
    for from in 0..count {
        outboxes.push(links_from(rt, alloc, from, inboxes, capacity)?)?;
    }
    Ok(outboxes)
}

/// Makes a link from this processor to each other one.
fn links_from<R: Wait>(
    rt: &R,
    alloc: Global,
    from: u8,
    inboxes: &mut [Inbox],
    capacity: usize,
) -> Result<Vec<BatchSender>, AllocError>
    requires some { 0 < capacity }
    requires most { capacity ≤ MOST_CAPACITY }
{
    let mut links = Vec::new(alloc);
    for inbox in inboxes {
        let to = inbox.processor;
        if to != from {
            let (outgoing, incoming) = link(rt, alloc, capacity)?;
            links.push(BatchSender::new(from, to, outgoing))?;
            inbox.links.push(BatchReceiver::new(from, to, incoming))?;
        }
    }
    Ok(links)
}
