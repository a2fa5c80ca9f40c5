//! The workers of a processor: one issues, and one for each other processor receives.

ghost use Rattle.std.specs.Prelude.{◌≡◌, None, IfSome};
ghost use Rattle.mapdb_exchange.specs.Workers.{HasWorked, MayTell, TellsItsNode};

use crate::faults::WorkFault;
use crate::issuing::{Issuing, issue_all};
use crate::receivers::BatchReceiver;
use mapdb_node::{Gate, Node, Seat};
use std::alloc::Global;
use std::sync::Wait;

/// What a receiving worker has: its seat, and its end of the link from the processor that it hears.
#[derive(Drop)]
pub(crate) struct Receiving {
    pub(crate) seat: Seat,
    pub(crate) link: BatchReceiver,
}

/// What a worker does.
#[derive(Drop)]
pub(crate) enum Job<'a> {
    Issue(Issuing<'a>),
    Receive(Receiving),
}

/// A worker's node, and what it does there.
#[derive(Drop)]
pub(crate) struct Post<'a> {
    pub(crate) node: &'a Node,
    pub(crate) job: Job<'a>,
}

/// What a worker ends with: its seat, and why it ended early.
#[derive(Drop)]
pub(crate) struct Ended {
    pub(crate) seat: Seat,
    pub(crate) fault: Option<WorkFault>,
}

/// Works, and gives the seat back. The ends of the links are dropped, so that no other worker waits
/// for this one. A fault that the node told is the one that is told.
pub(crate) fn work<R: Wait, G: Gate>(rt: &R, alloc: Global, gate: &G, post: Post) -> Ended
    ensures worked { result.fault ≡ None → HasWorked post.entry.job result.seat }
    ensures fault { IfSome result.fault (MayTell post.entry.job) }
    ensures told { TellsItsNode post.entry.job result.seat result.fault }
{
    let Post { node, job } = post;
    match job {
        Job::Issue(
            Issuing {
                script,
                mut seat,
                links,
            },
        ) => {
            let fault = issue_all(rt, alloc, node, script, gate, &mut seat, links).err();
            Ended { seat, fault }
        }
        Job::Receive(Receiving { mut seat, link }) => {
            let fault = link.receive_all(rt, node, &mut seat).err();
            Ended { seat, fault }
        }
    }
}
