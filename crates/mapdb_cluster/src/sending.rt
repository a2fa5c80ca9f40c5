//! What sending at one copy comes to, and what it is replied.

ghost use Rattle.std.specs.Prelude.{◌≡◌};
ghost use Rattle.mapdb_replica.specs.Giving.{given};
ghost use Rattle.mapdb_cluster.specs.Steps.{Sends, sent_reply};

use crate::events::{Refusal, Reply};
use crate::messages::Message;
use mapdb_replica::{GiveFault, Replica};

/// A message that was sent.
#[derive(Clone, Copy, Debug, PartialEq, Eq)]
pub struct SentMessage {
    /// Its place among all messages, from 0 on.
    pub message: u64,
    /// How many operations it has.
    pub count: u32,
}

/// Sends a message with the operations of a copy, from the mark `first` on and up to before the
/// mark `end`: it is kept behind all that were sent before. Marks that the copy's list does not
/// have are refused, and then no message is sent; nor is one where memory ran out.
pub fn send(
    copy: &Replica,
    first: u32,
    end: u32,
    messages: &mut Vec<Message>,
) -> Result<SentMessage, GiveFault>
    ensures { Sends (given copy.now.ops first end) messages.old.items result messages.new.items }
{
    let ops = copy.give(first, end)?;
    let sent = SentMessage {
        message: messages.len() as u64,
        count: ops.len() as u32,
    };
    match messages.push(Message::new(ops)) {
        Ok(()) => Ok(sent),
        Err(_) => Err(GiveFault::Memory),
    }
}

/// The reply to a message that was sent, or was not.
pub(crate) fn sent_reply(sent: Result<SentMessage, GiveFault>) -> Reply
    ensures { result ≡ sent_reply sent }
{
    match sent {
        Ok(SentMessage { message, count }) => Reply::Sent { message, count },
        Err(GiveFault::BadMark) => Reply::Refused(Refusal::Mark),
        Err(GiveFault::Memory) => Reply::Refused(Refusal::Memory),
    }
}
