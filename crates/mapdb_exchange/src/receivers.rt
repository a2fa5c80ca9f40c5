//! Ends of links that receive the batches of a processor, which are taken into the copy of another.

ghost use Rattle.std.specs.Prelude.{◌≡◌, ◌⊎◌, true, [], ◌∷◌, ◌++◌, IfErr, IfOk, OnOk};
ghost use Rattle.mapdb_exchange.specs.Calls.{IsCallFault, IsReceivingFault, IsTakingFault};
ghost use Rattle.mapdb_exchange.specs.Calls.{IsToldSince, faults_in, held_in, ops_in, taken_in};
ghost use Rattle.mapdb_exchange.specs.Links.{AreNumbered, is_expected};

use crate::faults::{NodeFault, WorkFault};
use crate::links::Incoming;
use crate::messages::Message;
use mapdb_facts::Op;
use mapdb_node::{Node, NodeEvent, NodeReply, Seat};
use mapdb_replica::TakeFault;
use std::sync::Wait;

/// An end of a new link that is to receive the batches of one processor for another.
#[derive(Drop)]
pub(crate) struct BatchReceiver {
    /// The processor that issues.
    from: u8,
    /// The processor that takes what is issued.
    to: u8,
    end: Incoming,
    ghost new: { end.received ≡ [] },
}

impl BatchReceiver {
    /// Receives batches from a new link.
    pub(crate) fn new(from: u8, to: u8, end: Incoming) -> BatchReceiver
        requires { end.received ≡ [] }
        ensures { (result.from ≡ from) × (result.to ≡ to) × (result.end ≡ end) }
    {
        BatchReceiver { from, to, end }
    }

    /// Receives until Fin, and takes each operation of each batch into the node. What was received
    /// then is batches of this link, numbered from 0 on, and Fin; and what was taken from the seat
    /// and is held is what these batches carried, in order. Where a reply tells a fault, that one
    /// is told.
    #[tactic(auto, using(crate::proofs::MoreCalls::message_taken))]
    pub(crate) fn receive_all<R: Wait>(
        self,
        rt: &R,
        node: &Node,
        seat: &mut Seat,
    ) -> Result<Incoming, WorkFault>
        ensures numbered { IfOk result (λ end. AreNumbered self.from self.to 0 end.received) }
        ensures taken { IfOk result (λ end. held_in seat.new.calls
            ≡ held_in seat.old.calls ++ ops_in end.received) }
        ensures none_told { OnOk result (faults_in seat.new.calls ≡ faults_in seat.old.calls) }
        ensures fault { IfErr result (λ fault. (fault ≡ WorkFault.Link) ⊎ IsTakingFault fault) }
        ensures told { IfErr result
            (IsToldSince IsReceivingFault seat.old.calls seat.new.calls) }
    {
        let BatchReceiver { from, to, mut end } = self;
        let mut next = 0u32;
        for _ in rt.forever() {
            let Message::Batch(batch) = next_message(&mut end, rt, from, to, next)? else {
                return Ok(end);
            };
            take_all(rt, node, seat, batch.ops.as_slice())?;
            next = next.checked_add(1).ok_or(WorkFault::Link)?;
        }
        unreachable!()
    }
}

/// Receives Fin, or the batch of the link between these processors that has this index.
fn next_message<R: Wait>(
    end: &mut Incoming,
    rt: &R,
    from: u8,
    to: u8,
    index: u32,
) -> Result<Message, WorkFault>
    ensures received { IfOk result (λ message. end.new.received
        ≡ end.old.received ++ message ∷ []) }
    ensures expected { IfOk result (λ message. is_expected from to index message ≡ true) }
    ensures fault { IfErr result (λ fault. fault ≡ WorkFault.Link) }
{
    match end.next(rt) {
        Ok(message) if is_expected(&message, from, to, index) => Ok(message),
        _ => Err(WorkFault::Link),
    }
}

/// Whether the message is Fin, or a batch of the link between these processors with this index.
fn is_expected(message: &Message, from: u8, to: u8, index: u32) -> bool
    ensures { result ≡ is_expected from to index message.now }
{
    match message {
        Message::Batch(batch) => batch.from == from && batch.to == to && batch.index == index,
        Message::Fin => true,
    }
}

/// Takes operations into a node, one by one. At Ok these were taken from the seat, in order, and
/// are held. Where a reply tells a fault, that one is told.
fn take_all<R: Wait>(rt: &R, node: &Node, seat: &mut Seat, ops: &[Op]) -> Result<(), WorkFault>
    ensures taken { OnOk result (held_in seat.new.calls ≡ held_in seat.old.calls ++ ops.now) }
    ensures none_told { OnOk result (faults_in seat.new.calls ≡ faults_in seat.old.calls) }
    ensures fault { IfErr result IsTakingFault }
    ensures told { IfErr result (IsToldSince IsCallFault seat.old.calls seat.new.calls) }
{
    for op in ops {
        let reply = node.call(rt, seat, NodeEvent::Take(*op))?;
        see_taken(&reply)?;
    }
    Ok(())
}

/// Ok where the reply to a Take tells that the operation is held, and else the fault that it tells.
fn see_taken(reply: &NodeReply) -> Result<(), WorkFault>
    ensures { result ≡ taken_in reply.now }
{
    match *reply {
        NodeReply::Taken(_) => Ok(()),
        NodeReply::TakeRefused(TakeFault::Memory { .. }) => Err(WorkFault::Memory),
        NodeReply::TakeRefused(why) => Err(WorkFault::Node(NodeFault::Refused(why))),
        // No other reply follows a Take, which no contract of a lock can say.
        _ => Err(WorkFault::Link),
    }
}
