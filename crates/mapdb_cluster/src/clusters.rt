//! A cluster, and what one event does in it.

ghost use Rattle.std.specs.Prelude.{◌≡◌, ◌≤◌, IfOk, map};
ghost use Rattle.std.specs.List.{range_with_len};
ghost use Rattle.mapdb_replica.specs.Replica.{empty};

use crate::events::{Event, Refusal, Reply};
use crate::issuing::issue;
use crate::messages::Message;
use crate::sending::{send, sent_reply};
use crate::taking::{join, take};
use mapdb_facts::PROCESSOR_LIMIT;
use mapdb_replica::{Command, Replica};
use std::alloc::{AllocError, Global};
use std::marker::Model;

/// Copies of the mapping database, one for each processor, with the messages that were sent between
/// them.
#[derive(Drop)]
pub struct Cluster {
    pub(crate) alloc: Global,
    pub(crate) copies: Vec<Replica>,
    pub(crate) messages: Vec<Message>,
}

impl Model for Cluster {
    ghost use Rattle.mapdb_cluster.specs.Kept.{IsKeptNet};
    ghost use Rattle.mapdb_cluster.specs.Net.{Net};

    ghost Value = { Net };

    ghost view = { λ c. record { copies = c.copies.items; messages = c.messages.items } };

    ghost invariant = { λ c. IsKeptNet (record {
      copies = c.copies.items;
      messages = c.messages.items;
    }) };
}

/// Copies that hold nothing, of processors from 0 on. There are at most 64 processors. The only
/// error is that memory ran out.
#[tactic(auto, using(crate::proofs::Steps::NewCopies::one_copy_more))]
pub fn new_copies(alloc: Global, count: u8) -> Result<Vec<Replica>, AllocError>
    requires { count ≤ PROCESSOR_LIMIT }
    ensures { IfOk result (λ copies. copies.items ≡ map empty (range_with_len 0 count)) }
{
    let mut copies = Vec::new(alloc);
    for processor in 0..count {
        copies.push(Replica::new(alloc, processor))?;
    }
    Ok(copies)
}

impl Cluster {
    ghost use Rattle.std.specs.Prelude.{◌≡◌, ◌<◌, ◌≤◌, IfOk, option_copied, slice_get};
    ghost use Rattle.mapdb_cluster.specs.Honest.{IsHonest, IsTrusted};
    ghost use Rattle.mapdb_cluster.specs.Net.{new_net};
    ghost use Rattle.mapdb_cluster.specs.Steps.{Steps};
    ghost use Rattle.mapdb_cluster.specs.declared.events.Event.TheVariants as event;

    /// Copies that hold nothing, of processors from 0 on, and no messages. There are at most 64
    /// processors. The only error is that memory ran out.
    pub fn new(alloc: Global, processors: u8) -> Result<Cluster, AllocError>
        requires some { 0 < processors }
        requires most { processors ≤ PROCESSOR_LIMIT }
        ensures { IfOk result (λ cluster. cluster ≡ new_net processors) }
    {
        let copies = new_copies(alloc, processors)?;
        Ok(Cluster {
            alloc,
            copies,
            messages: Vec::new(alloc),
        })
    }

    /// The copy of a processor, if there is one of this number.
    pub fn copy(&self, at: u8) -> Option<&Replica>
        ensures found { option_copied result ≡ slice_get self.now.copies at }
        ensures honest { IsHonest self.now }
    {
        self.copies.as_slice().get(at as usize)
    }

    /// Does a command at a processor.
    fn issue(&mut self, at: u8, command: &Command) -> Reply
        ensures steps { Steps self.old (event.Issue at command.now) result self.new }
        ensures trusted { IsTrusted result }
    {
        let at = at as usize;
        if at >= self.copies.len() {
            return Reply::Refused(Refusal::NoProcessor);
        }
        issue(&mut self.copies[at], command)
    }

    /// Sends a message of a processor's operations.
    fn send(&mut self, from: u8, first: u32, end: u32) -> Reply
        ensures steps { Steps self.old (event.Send from first end) result self.new }
        ensures trusted { IsTrusted result }
    {
        let from = from as usize;
        if from >= self.copies.len() {
            return Reply::Refused(Refusal::NoProcessor);
        }
        sent_reply(send(&self.copies[from], first, end, &mut self.messages))
    }

    /// Delivers a message to a processor.
    fn deliver(&mut self, message: u64, to: u8) -> Reply
        ensures steps { Steps self.old (event.Deliver message to) result self.new }
        ensures trusted { IsTrusted result }
    {
        let to = to as usize;
        if to >= self.copies.len() {
            return Reply::Refused(Refusal::NoProcessor);
        }
        let message = message as usize;
        if message >= self.messages.len() {
            return Reply::Refused(Refusal::NoMessage);
        }
        take(&mut self.copies[to], self.messages[message].ops())
    }

    /// Joins one copy into another.
    fn join(&mut self, into: u8, from: u8) -> Reply
        ensures steps { Steps self.old (event.Join into from) result self.new }
        ensures trusted { IsTrusted result }
    {
        let (into, from) = (into as usize, from as usize);
        if into >= self.copies.len() || from >= self.copies.len() {
            return Reply::Refused(Refusal::NoProcessor);
        }
        if into == from {
            return Reply::Taken(0);
        }
        join(self.copies.as_mut_slice(), into, from)
    }

    /// Does one event, and answers the reply. That memory ran out is a reply too, which tells what
    /// stands.
    pub fn step(&mut self, event: &Event) -> Reply
        ensures steps { Steps self.old event.now result self.new }
        ensures trusted { IsTrusted result }
    {
        match *event {
            Event::Issue { at, command } => self.issue(at, &command),
            Event::Send { from, first, end } => self.send(from, first, end),
            Event::Deliver { message, to } => self.deliver(message, to),
            Event::Join { into, from } => self.join(into, from),
        }
    }
}
