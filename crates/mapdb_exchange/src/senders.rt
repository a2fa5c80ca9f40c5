//! Ends of links that put the batches of a processor, numbered.

use crate::faults::WorkFault;
use crate::links::Outgoing;
use crate::messages::{Batch, Message, Ops};
use std::marker::Model;
use std::sync::Wait;

/// An end of a link that has put the batches of one processor for another, numbered from 0 on.
#[derive(Drop)]
pub(crate) struct BatchSender {
    /// The processor that issues.
    from: u8,
    /// The processor that is to take what is issued.
    to: u8,
    /// The index of the next batch.
    next: u32,
    end: Outgoing,
}

impl Model for BatchSender {
    ghost use Rattle.mapdb_exchange.specs.Ends.{Sending};

    ghost Value = { Sending };

    ghost use Rattle.mapdb_exchange.specs.Links.{AreBatches};

    ghost view = { λ s. record { from = s.from; to = s.to; next = s.next; end = s.end } };

    ghost invariant = { λ s. AreBatches s.from s.to 0 s.next s.end.put };
}

impl BatchSender {
    ghost use Rattle.std.specs.Prelude.{◌≡◌, ◌∷◌, ◌++◌, [], IfErr, IfOk, OnOk};
    ghost use Rattle.mapdb_exchange.specs.Links.{AreNumbered, batch};

    /// Puts batches on a new link.
    pub(crate) fn new(from: u8, to: u8, end: Outgoing) -> BatchSender
        requires { end.put ≡ [] }
        ensures { result ≡ record { from = from; to = to; next = 0; end = end } }
    {
        BatchSender {
            from,
            to,
            next: 0,
            end,
        }
    }

    /// Puts what a command issued as the next batch.
    #[tactic(auto, using(crate::proofs::Numbering::batches_put))]
    pub(crate) fn send<R: Wait>(&mut self, rt: &R, ops: Ops) -> Result<(), WorkFault>
        ensures put { OnOk result (self.new.end.put
            ≡ self.old.end.put ++ batch self.old.from self.old.to self.old.next ops ∷ []) }
        ensures from { self.new.from ≡ self.old.from }
        ensures to { self.new.to ≡ self.old.to }
        ensures link { self.new.end.link ≡ self.old.end.link }
        ensures fault { IfErr result (λ fault. fault ≡ WorkFault.Link) }
    {
        let next = self.next.checked_add(1).ok_or(WorkFault::Link)?;
        let batch = Batch {
            from: self.from,
            to: self.to,
            index: self.next,
            ops,
        };
        if self.end.put(rt, Message::Batch(batch)).is_err() {
            return Err(WorkFault::Link);
        }
        self.next = next;
        Ok(())
    }

    /// Puts Fin. What was put is then the batches of the link, numbered from 0 on, and Fin.
    #[tactic(auto, using(crate::proofs::Numbering::fin_put))]
    pub(crate) fn finish<R: Wait>(self, rt: &R) -> Result<Outgoing, WorkFault>
        ensures numbered { IfOk result (λ end. AreNumbered self.from self.to 0 end.put) }
        ensures link { IfOk result (λ end. end.link ≡ self.end.link) }
        ensures fault { IfErr result (λ fault. fault ≡ WorkFault.Link) }
    {
        let BatchSender {
            from: _,
            to: _,
            next: _,
            mut end,
        } = self;
        if end.put(rt, Message::Fin).is_err() {
            return Err(WorkFault::Link);
        }
        Ok(end)
    }
}
