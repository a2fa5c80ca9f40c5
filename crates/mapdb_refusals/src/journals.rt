//! How a command at a book or a node ends, and what the journal tells of commands.

use crate::comparing::is_front;
use mapdb_node::{Entry, NodeEvent, NodeReply};
use mapdb_replica::{Command, IssueFault, Replica};

/// How a command at a book or a node ended.
#[derive(Clone, Copy, Debug, PartialEq, Eq)]
pub enum End {
    /// It is done.
    Done,
    /// Memory ran out, for the journal or inside the event.
    Refused,
    /// Something else, which no case is to meet.
    Strange,
}

/// How far commands came that were asked one after the other.
#[derive(Clone, Copy, Debug, PartialEq, Eq)]
pub struct Asked {
    /// How many are done.
    pub done: usize,
    /// How the last one ended that was asked.
    pub end: End,
}

/// How a command ended that was replied so.
pub fn end_of(reply: &NodeReply) -> End {
    match *reply {
        NodeReply::Issued { .. } | NodeReply::Revoked(_) | NodeReply::Ended => End::Done,
        NodeReply::IssueRefused(IssueFault::Memory { .. }) => End::Refused,
        _ => End::Strange,
    }
}

/// How many operations were issued, by this reply.
fn issued_by(reply: &NodeReply) -> u64 {
    match *reply {
        NodeReply::Issued { count, .. } => u64::from(count),
        NodeReply::Revoked(count) => u64::from(count),
        NodeReply::Ended => 1,
        NodeReply::IssueRefused(IssueFault::Memory { issued }) => u64::from(issued),
        _ => 0,
    }
}

/// How many operations were issued, by all entries.
fn issued(entries: &[Entry]) -> u64 {
    let mut count: u64 = 0;
    for entry in entries {
        count = count.saturating_add(issued_by(&entry.reply));
    }
    count
}

/// Whether the entry asks for this command.
fn asks(entry: &Entry, command: Option<&Command>) -> bool {
    match command {
        Some(command) => entry.event == NodeEvent::Issue(*command),
        None => false,
    }
}

/// Whether the entries ask for these commands from the first one on, each until it is done.
fn are_asked(entries: &[Entry], commands: &[Command]) -> bool {
    let mut place: usize = 0;
    for entry in entries {
        if !asks(entry, commands.get(place)) {
            return false;
        }
        if end_of(&entry.reply) == End::Done {
            place = place.saturating_add(1);
        }
    }
    true
}

/// Whether the journal tells of these commands, from the first one on, and of all that the copy
/// holds, which is the first of what the wanted one issued.
pub fn is_told(entries: &[Entry], commands: &[Command], copy: &Replica, wanted: &Replica) -> bool {
    are_asked(entries, commands) && is_front(copy, wanted, issued(entries))
}
