//! A link from one worker to another. What is received is a beginning of what was put.

ghost use Rattle.std.specs.Prelude.{◌≡◌, ◌≤◌, ◌<◌, ◌↔◌, List, true, false, [], ◌∷◌, ◌++◌, IfOk};
ghost use Rattle.std.specs.Prelude.{IfErr, OnErr};
ghost use Rattle.mapdb_exchange.specs.Faults.{is_after_fin, put_message};
ghost use Rattle.mapdb_exchange.specs.Links.{has_fin};
ghost use Rattle.mapdb_exchange.specs.declared.messages.Message.{Message};

use crate::limits::MOST_CAPACITY;
use crate::messages::Message;
use crate::rules::{Compares, Ends, InOrder, PassView, Puts, Receives};
use crossbeam_channel::{Pass, RuledReceiver, RuledSender, bounded_with};
use std::alloc::{AllocError, Global};
use std::marker::Model;
use std::sync::Wait;

/// The end of a link that puts. Contracts see which link it is of, and what was put.
#[derive(Drop)]
pub struct Outgoing {
    sender: RuledSender<Message, PassView, InOrder>,
    pass: Pass<Message, PassView>,
    /// Whether [`Message::Fin`] was put.
    is_ended: bool,
}

impl Model for Outgoing {
    ghost use Rattle.mapdb_exchange.specs.Ends.{Outlet};

    ghost Value = { Outlet };

    ghost use Rattle.std.specs.Prelude.{◌≡◌, true};
    ghost use Rattle.crossbeam_channel.specs.Claims.{view as known, IsSeatAt};
    ghost use Rattle.crossbeam_channel.specs.Ends.{sends_on};
    ghost use Rattle.mapdb_exchange.specs.Links.{has_fin, IsFinLast};

    ghost view = { λ o. record {
      link = record { table = o.pass.table_id; key = o.pass.me.0.of };
      put =
          (known o.pass).put;
    } };

    ghost invariant = { λ o. IsSeatAt (sends_on o.sender) o.pass × ((known o.pass).sends ≡ true)
        × (o.is_ended ≡ has_fin (known o.pass).put) × IsFinLast (known o.pass).put };
}

/// The end of a link that receives. Contracts see which link it is of, and what was received.
#[derive(Drop)]
pub struct Incoming {
    receiver: RuledReceiver<Message, PassView, InOrder>,
    pass: Pass<Message, PassView>,
    /// Whether [`Message::Fin`] was received.
    is_finished: bool,
}

impl Model for Incoming {
    ghost use Rattle.mapdb_exchange.specs.Ends.{Inlet};

    ghost Value = { Inlet };

    ghost use Rattle.std.specs.Prelude.{◌≡◌, true};
    ghost use Rattle.crossbeam_channel.specs.Claims.{view as known, IsSeatAt};
    ghost use Rattle.crossbeam_channel.specs.Ends.{receives_on};
    ghost use Rattle.mapdb_exchange.specs.Links.{has_fin};
    ghost use Rattle.mapdb_exchange.specs.declared.messages.Message.{Message};

    ghost view = { λ o. record {
      link = record { table = o.pass.table_id; key = o.pass.me.0.of };
      received =
          (known o.pass).received;
    } };

    ghost invariant = { λ o. IsSeatAt (receives_on o.receiver) o.pass
        × ((known o.pass).receives ≡ true) × (o.is_finished ≡ has_fin (known o.pass).received) };
}

/// Why a message was not put. Each hands the message back, and adds nothing to what was put.
#[derive(Drop)]
pub enum PutFault {
    /// [`Message::Fin`] was put before.
    AfterFin(Message),
    /// The channel did not carry the message, as where the other end is gone.
    Gone(Message),
}

/// Why no message was received. Nothing is added to what was received.
#[derive(Clone, Copy, Debug, PartialEq, Eq)]
pub enum NextFault {
    /// [`Message::Fin`] was received before.
    Finished,
    /// The channel gave no message, as where the other end is gone.
    Gone,
}

/// The two ends of a new link, on which nothing was put. It holds at most `capacity` messages. The
/// only error is out of memory.
pub fn link<R: Wait>(
    _rt: &R,
    alloc: Global,
    capacity: usize,
) -> Result<(Outgoing, Incoming), AllocError>
    requires some { 0 < capacity }
    requires most { capacity ≤ MOST_CAPACITY }
    ensures one { IfOk result (λ ends. ends.0.link ≡ ends.1.link) }
    ensures put { IfOk result (λ ends. ends.0.put ≡ []) }
    ensures received { IfOk result (λ ends. ends.1.received ≡ []) }
{
    let (sender, receiver, mut pass) = bounded_with::<Message, PassView, InOrder, Global>(
        alloc, capacity,
    )?;
    let other = sender.another::<Ends>(&mut pass);
    let outgoing = Outgoing {
        sender,
        pass,
        is_ended: false,
    };
    let incoming = Incoming {
        receiver,
        pass: other,
        is_finished: false,
    };
    Ok((outgoing, incoming))
}

impl Outgoing {
    /// Puts a message at the back. It waits while the link is full. Behind [`Message::Fin`], or
    /// where the other end is gone, the message is handed back, as [`PutFault`] tells.
    pub fn put<R: Wait>(&mut self, rt: &R, message: Message) -> Result<(), PutFault>
        ensures put { IfOk result (λ _. self.new.put ≡ self.old.put ++ message ∷ []) }
        ensures kept { OnErr result (self.new.put ≡ self.old.put) }
        ensures back { IfErr result (λ fault. put_message fault ≡ message) }
        ensures going { IfOk result (λ _. has_fin self.old.put ≡ false) }
        ensures after_fin { IfErr result (λ fault. is_after_fin fault ≡ has_fin self.old.put) }
        ensures link { self.new.link ≡ self.old.link }
    {
        if self.is_ended {
            return Err(PutFault::AfterFin(message));
        }
        let is_last = message.is_fin();
        match self.sender.send_as::<Puts, R>(rt, &mut self.pass, message) {
            Ok(()) => {
                self.is_ended = is_last;
                Ok(())
            }
            Err(error) => Err(PutFault::Gone(error.into_inner())),
        }
    }
}

impl Incoming {
    /// Receives the message at the front. It waits while there is none. Behind [`Message::Fin`], or
    /// where the other end is gone, there is none, as [`NextFault`] tells.
    pub fn next<R: Wait>(&mut self, rt: &R) -> Result<Message, NextFault>
        ensures received { IfOk result (λ message. self.new.received
            ≡ self.old.received ++ message ∷ []) }
        ensures kept { OnErr result (self.new.received ≡ self.old.received) }
        ensures going { IfOk result (λ message. has_fin self.old.received ≡ false) }
        ensures finished { IfErr result (λ fault. (fault ≡ NextFault.Finished)
            ↔ (has_fin self.old.received ≡ true)) }
        ensures link { self.new.link ≡ self.old.link }
    {
        if self.is_finished {
            return Err(NextFault::Finished);
        }
        match self.receiver.recv_as::<Receives, R>(rt, &mut self.pass) {
            Ok(message) => {
                self.is_finished = message.is_fin();
                Ok(message)
            }
            Err(_) => Err(NextFault::Gone),
        }
    }
}

/// Gives both ends of a link up, and compares what they saw.
pub fn settle<R: Wait>(_rt: &R, outgoing: Outgoing, incoming: Incoming)
    requires { outgoing.link ≡ incoming.link }
    ensures beginning { (rest : List Message) × (outgoing.put ≡ incoming.received ++ rest) }
    ensures whole { has_fin incoming.received ≡ true → outgoing.put ≡ incoming.received }
{
    let Outgoing {
        sender,
        mut pass,
        is_ended: _,
    } = outgoing;
    let Incoming {
        receiver: _,
        pass: other,
        is_finished: _,
    } = incoming;
    sender.absorb::<Ends>(&mut pass, other);
    sender.learn_as::<Compares>(&mut pass);
}
