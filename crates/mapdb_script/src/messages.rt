//! What copies tell each other by the lines of a script, and how they compare.

use crate::answering::{Reply, ScriptCluster};
use crate::marks::{Mark, known_from, known_of, note};
use crate::replies::Refusal;
use crate::sendings::{Sending, known_after, take_sending};
use crate::turn_fault::TurnFault;
use mapdb_cluster::SentMessage;
use mapdb_lines::LineFault;
use std::alloc::AllocError;

impl ScriptCluster {
    ghost use Rattle.std.specs.Prelude.{◌≡◌, ◌<◌, ◌&&◌, IfOk, IfSome, OnOk, OnErr, Err, Some};
    ghost use Rattle.std.specs.Prelude.{None, length, nat_lt, slice_get, if◌then◌else◌};
    ghost use Rattle.mapdb_cluster.specs.Net.{with_message};
    ghost use Rattle.mapdb_cluster.specs.declared.events.Event.TheVariants as event;
    ghost use Rattle.mapdb_replica.specs.Agreement.{knows_all};
    ghost use Rattle.mapdb_replica.specs.Replica.{Log};
    ghost use Rattle.mapdb_script.specs.Accepting.{Accepted};
    ghost use Rattle.mapdb_script.specs.Answering.{compared, covers_answer, happened, same_answer};
    ghost use Rattle.mapdb_script.specs.Sendings.{IsSent, ops_sent};
    ghost use Rattle.mapdb_script.specs.States.{Does, TellsTaken, beside, net_of};

    /// The places of two processors' copies, if the cluster has both.
    fn places(&self, at: u8, other: u8) -> Result<Option<(usize, usize)>, LineFault>
        ensures there { IfOk result (λ found. IfSome found (λ i. (i.0 ≡ at)
            × (i.0 < length (net_of self.now).copies)
            × (i.1 ≡ other) × (i.1 < length (net_of self.now).copies))) }
        ensures found { IfOk result (λ found. found
            ≡ (if nat_lt at (length (net_of self.now).copies)
            && nat_lt other (length (net_of self.now).copies) then Some (at, other)
            else None)) }
        ensures some { OnOk result (0 < length (net_of self.now).copies) }
        ensures none { OnErr result ((length (net_of self.now).copies ≡ 0)
            × (result ≡ Err LineFault.NoProcessors)) }
    {
        let Some(at) = self.place(at)? else {
            return Ok(None);
        };
        let Some(other) = self.place(other)? else {
            return Ok(None);
        };
        Ok(Some((at, other)))
    }

    /// Keeps a message behind those that were sent before. An error where memory ran out.
    #[cold]
    fn post(&mut self, sending: Sending) -> Result<(), AllocError>
        requires { IsSent self.old.copies.items sending }
        ensures { OnOk result (net_of self.new ≡ with_message (net_of self.old)
            (ops_sent self.old.copies.items sending)) }
    {
        self.messages.push(sending)?;
        Ok(())
    }

    /// Sends a message with the operations of a processor's copy, from the mark `first` on and up
    /// to before the mark `end`.
    #[cold]
    pub(crate) fn send(&mut self, at: u8, first: u32, end: u32) -> Result<Reply, TurnFault>
        ensures { (accepted : Accepted) → Does result (net_of self.new)
            (happened (beside self.old accepted) (event.Send at first end)) }
    {
        let Some(at) = self.place(at)? else {
            return Ok(Reply::Refused(Refusal::NoProcessor));
        };
        let (first, end) = (first as usize, end as usize);
        if first > end || end > self.copies[at].ops().len() {
            return Ok(Reply::Refused(Refusal::BadMark));
        }
        let sent = SentMessage {
            message: self.messages.len() as u64,
            count: (end - first) as u32,
        };
        self.post(Sending {
            sender: at,
            first,
            end,
        })?;
        Ok(Reply::Sent(sent))
    }

    /// Has a copy take what one of them sent, behind what it is known to hold of it, and notes what
    /// it holds then.
    #[cold]
    fn take(&mut self, at: usize, sending: Sending) -> Result<Reply, TurnFault>
        requires at { at < length self.old.copies.items }
        requires sent { IsSent self.old.copies.items sending }
        ensures { TellsTaken self.old at sending result self.new }
    {
        let mark = known_of(self.marks.as_slice(), at, sending.sender);
        let taken = take_sending(self.copies.as_mut_slice(), at, sending, mark);
        let known = known_after(mark, sending, taken.is_ok());
        let other = sending.sender;
        note(&mut self.marks, Mark { at, other, known });
        Reply::taken(&taken)
    }

    /// Brings a message to a processor, whose copy takes its operations.
    #[cold]
    pub(crate) fn deliver(&mut self, message: u32, at: u8) -> Result<Reply, TurnFault>
        ensures { (accepted : Accepted) → Does result (net_of self.new)
            (happened (beside self.old accepted) (event.Deliver message at)) }
    {
        let Some(at) = self.place(at)? else {
            return Ok(Reply::Refused(Refusal::NoProcessor));
        };
        let Some(&sending) = self.messages.as_slice().get(message as usize) else {
            return Ok(Reply::Refused(Refusal::NoMessage));
        };
        self.take(at, sending)
    }

    /// Has a processor's copy take all that another one's holds, in its order of arrival.
    #[cold]
    pub(crate) fn merge(&mut self, into: u8, from: u8) -> Result<Reply, TurnFault>
        ensures { (accepted : Accepted) → Does result (net_of self.new)
            (happened (beside self.old accepted) (event.Join into from)) }
    {
        let Some((into, from)) = self.places(into, from)? else {
            return Ok(Reply::Refused(Refusal::NoProcessor));
        };
        if into == from {
            return Reply::taken(&Ok(0));
        }
        let all = Sending {
            sender: from,
            first: 0,
            end: self.copies[from].ops().len(),
        };
        self.take(into, all)
    }

    /// Whether the copy at one place holds all that the one at another holds: what is known of them
    /// is not looked up again, and what is found out now is noted.
    fn covered(&mut self, at: usize, other: usize) -> bool
        requires at { at < length self.old.copies.items }
        requires other { other < length self.old.copies.items }
        ensures kept { net_of self.new ≡ net_of self.old }
        ensures covers { (one : Log) × (two : Log)
            × (slice_get (net_of self.old).copies at ≡ Some one)
            × (slice_get (net_of self.old).copies other ≡ Some two)
            × (result ≡ knows_all one.ops two.ops) }
    {
        let mark = known_of(self.marks.as_slice(), at, other);
        let ops = self.copies[other].ops();
        let known = known_from(&self.copies[at], ops, mark);
        let covers = known == ops.len();
        note(&mut self.marks, Mark { at, other, known });
        covers
    }

    /// Asks whether the copies of two processors hold the same.
    #[cold]
    pub(crate) fn same(&mut self, at: u8, other: u8) -> Result<Reply, TurnFault>
        ensures { (accepted : Accepted) → Does result (net_of self.new)
            (compared (beside self.old accepted) at other same_answer) }
    {
        let Some((at, other)) = self.places(at, other)? else {
            return Ok(Reply::Refused(Refusal::NoProcessor));
        };
        let covers = self.covered(at, other);
        if !covers {
            return Ok(Reply::Same(false));
        }
        let covered = self.covered(other, at);
        Ok(Reply::Same(covered))
    }

    /// Asks whether a processor's copy holds all that another one's holds.
    #[cold]
    pub(crate) fn covers(&mut self, at: u8, other: u8) -> Result<Reply, TurnFault>
        ensures { (accepted : Accepted) → Does result (net_of self.new)
            (compared (beside self.old accepted) at other covers_answer) }
    {
        let Some((at, other)) = self.places(at, other)? else {
            return Ok(Reply::Refused(Refusal::NoProcessor));
        };
        let covers = self.covered(at, other);
        Ok(Reply::Covers(covers))
    }
}
