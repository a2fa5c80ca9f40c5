//! What happens in a cluster, and what is replied.

use mapdb_replica::{Command, IssueFault, TakeFault};

/// One event of a cluster.
#[derive(Clone, Copy, Debug, PartialEq, Eq)]
pub enum Event {
    /// A command at a processor's copy.
    Issue { at: u8, command: Command },
    /// A processor sends a message with the operations of its copy, in order of arrival, from the
    /// mark `first` on and up to before the mark `end`.
    Send { from: u8, first: u32, end: u32 },
    /// A message comes to a processor, whose copy takes its operations. Messages are numbered from
    /// 0.
    Deliver { message: u64, to: u8 },
    /// The copy `into` takes the operations of the copy `from`, in their order of arrival.
    Join { into: u8, from: u8 },
}

/// What an event is replied.
#[derive(Clone, Copy, Debug, PartialEq, Eq)]
pub enum Reply {
    /// A Map issued so many records, with numbers that rise by one from the first; none is `first:
    /// 0, count: 0`.
    Issued { first: u64, count: u32 },
    /// An Unmap issued so many revocations.
    Revoked(u32),
    /// A space has ended.
    Ended,
    /// A message with so many operations was sent, under this number.
    Sent { message: u64, count: u32 },
    /// So many operations were new to the copy that took them.
    Taken(u32),
    /// The event did nothing, or where memory ran out not all.
    Refused(Refusal),
}

/// Why an event did nothing, or not all. They are looked for in this order.
#[derive(Clone, Copy, Debug, PartialEq, Eq)]
pub enum Refusal {
    /// There is no processor of this number.
    NoProcessor,
    /// There is no message of this number.
    NoMessage,
    /// The marks of a message fall, or lie behind the end of the list.
    Mark,
    /// The command was refused.
    Issue(IssueFault),
    /// The operations were not taken, or not all.
    Take(TakeFault),
    /// Memory ran out for the message. Nothing is changed.
    Memory,
}
