//! The issuing worker of a processor: it runs the script, and puts what is issued on the links.

ghost use Rattle.std.specs.Prelude.{◌≡◌, ◌⊎◌, ◌++◌, length, map, IfErr, IfOk, OnOk};
ghost use Rattle.mapdb_exchange.specs.Calls.{IsIssuingFault, IsReadingFault, IsSendingFault};
ghost use Rattle.mapdb_exchange.specs.Calls.{IsToldSince, commands_in, faults_in, issued_in};
ghost use Rattle.mapdb_exchange.specs.Calls.{own_in, place_after};
ghost use Rattle.mapdb_exchange.specs.Finishing.{AreFinished, sent_on};

use crate::faults::{NodeFault, WorkFault};
use crate::links::Outgoing;
use crate::messages::Ops;
use crate::senders::BatchSender;
use mapdb_facts::Op;
use mapdb_node::{Gate, Node, NodeEvent, NodeReply, Seat};
use mapdb_replica::{Command, IssueFault};
use std::alloc::Global;
use std::sync::Wait;

/// What an issuing worker has: its script, its seat, and its ends of the links to all other
/// processors.
#[derive(Drop)]
pub(crate) struct Issuing<'a> {
    pub(crate) script: &'a [Command],
    pub(crate) seat: Seat,
    pub(crate) links: Vec<BatchSender>,
}

/// Runs the commands in order through the gate. After each that issued something it puts one batch
/// on each link, and at the end Fin. At Ok the seat's commands are those of the script, in order.
/// Where a reply tells a fault, that one is told, unless the gate lets no more pass.
pub(crate) fn issue_all<R: Wait, G: Gate>(
    rt: &R,
    alloc: Global,
    node: &Node,
    script: &[Command],
    gate: &G,
    seat: &mut Seat,
    links: Vec<BatchSender>,
) -> Result<Vec<Outgoing>, WorkFault>
    ensures finished { IfOk result (λ ends. AreFinished (map sent_on links.items) ends.items) }
    ensures commands { OnOk result (commands_in seat.new.calls
        ≡ commands_in seat.old.calls ++ script.now) }
    ensures none_told { OnOk result (faults_in seat.new.calls ≡ faults_in seat.old.calls) }
    ensures fault { IfErr result (λ fault. (fault ≡ WorkFault.Link) ⊎ IsIssuingFault fault) }
    ensures told { IfErr result (λ fault. (fault ≡ WorkFault.Gate)
        ⊎ IsToldSince IsSendingFault seat.old.calls seat.new.calls fault) }
{
    let mut links = links;
    let mut first = 0u32;
    for command in script {
        let reply = node.call_at(rt, seat, NodeEvent::Issue(*command), gate)?;
        let count = issued_count(&reply)?;
        if count > 0 {
            let ops = own_ops(rt, alloc, node, seat, first, count)?;
            send_all(rt, alloc, links.as_mut_slice(), ops.as_slice())?;
            first = place_after(first, count)?;
        }
    }
    finish_all(rt, alloc, links)
}

/// How many operations a command issued, by its reply.
fn issued_count(reply: &NodeReply) -> Result<u32, WorkFault>
    ensures { result ≡ issued_in reply.now }
{
    match *reply {
        NodeReply::Issued { first: _, count } => Ok(count),
        NodeReply::Revoked(count) => Ok(count),
        NodeReply::Ended => Ok(1),
        NodeReply::IssueRefused(IssueFault::Memory { .. }) => Err(WorkFault::Memory),
        NodeReply::IssueRefused(_) => Ok(0),
        // No other reply follows a command, which no contract of a lock can say.
        _ => Err(WorkFault::Link),
    }
}

/// Reads so many own operations of a copy, from a place on.
#[tactic(auto, using(crate::proofs::MoreCalls::own_is_read))]
fn own_ops<R: Wait>(
    rt: &R,
    alloc: Global,
    node: &Node,
    seat: &mut Seat,
    first: u32,
    count: u32,
) -> Result<Vec<Op>, WorkFault>
    ensures commands { OnOk result (commands_in seat.new.calls ≡ commands_in seat.old.calls) }
    ensures none_told { OnOk result (faults_in seat.new.calls ≡ faults_in seat.old.calls) }
    ensures count { IfOk result (λ ops. length ops.items ≡ count) }
    ensures fault { IfErr result IsReadingFault }
    ensures told { IfErr result (IsToldSince IsSendingFault seat.old.calls seat.new.calls) }
{
    let mut ops = Vec::new(alloc);
    for step in 0..count {
        let place = place_after(first, step)?;
        let reply = node.call(rt, seat, NodeEvent::OwnAt(place))?;
        ops.push(own_in(&reply)?)?;
    }
    Ok(ops)
}

/// The place so many places on, of an own operation. There is none beyond the places that a copy
/// can have.
fn place_after(first: u32, count: u32) -> Result<u32, WorkFault>
    ensures { result ≡ place_after first count }
{
    first
        .checked_add(count)
        .ok_or(WorkFault::Node(NodeFault::Own))
}

/// The own operation that a reply tells.
fn own_in(reply: &NodeReply) -> Result<Op, WorkFault>
    ensures { result ≡ own_in reply.now }
{
    match *reply {
        NodeReply::Own(Some(op)) => Ok(op),
        _ => Err(WorkFault::Node(NodeFault::Own)),
    }
}

/// Puts a batch with these operations on each link.
#[tactic(auto, using(crate::proofs::Finished::same_sent, crate::proofs::Finished::same_links))]
fn send_all<R: Wait>(
    rt: &R,
    alloc: Global,
    links: &mut [BatchSender],
    ops: &[Op],
) -> Result<(), WorkFault>
    ensures links { map sent_on links.new ≡ map sent_on links.old }
    ensures fault { IfErr result (λ fault. (fault ≡ WorkFault.Link) ⊎ (fault ≡ WorkFault.Memory)) }
{
    for at in 0..links.len() {
        let copied = Vec::from_slice(alloc, ops)?;
        links[at].send(rt, Ops::from_vec(copied))?;
    }
    Ok(())
}

/// Puts Fin on each link.
#[tactic(auto, using(crate::proofs::Finished::finished_put))]
fn finish_all<R: Wait>(
    rt: &R,
    alloc: Global,
    links: Vec<BatchSender>,
) -> Result<Vec<Outgoing>, WorkFault>
    ensures finished { IfOk result (λ ends. AreFinished (map sent_on links.items) ends.items) }
    ensures fault { IfErr result (λ fault. (fault ≡ WorkFault.Link) ⊎ (fault ≡ WorkFault.Memory)) }
{
    let mut ends = Vec::with_capacity(alloc, links.len())?;
    for link in links {
        ends.push_reserved(link.finish(rt)?);
    }
    Ok(ends)
}
