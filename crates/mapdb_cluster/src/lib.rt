//! A cluster of copies of the mapping database, one for each processor, and the messages between
//! them.
//!
//! Messages are kept for good, and may be delivered in any order, again, or never. Whatever the
//! schedule, copies agree wherever they took the same operations; module [`laws`] says so of every
//! run.
//!
//! # A use
//!
//! ```
//! let mut cluster = Cluster::new(rt.alloc(), 2)?;
//! let command = Command::End { space: Space::first(3) };
//! assert!(rt; cluster.step(&Event::Issue { at: 0, command }) == Reply::Ended);
//! let sent = cluster.step(&Event::Send { from: 0, first: 0, end: 1 });
//! assert!(rt; sent == Reply::Sent { message: 0, count: 1 });
//! let event = Event::Deliver { message: 0, to: 1 };
//! assert!(rt; cluster.step(&event) == Reply::Taken(1));
//! assert!(rt; cluster.step(&event) == Reply::Taken(0));
//! ```
#![tactic(auto)]

mod clusters;
mod events;
mod issuing;
pub mod laws;
mod messages;
mod runs;
mod sending;
mod taking;

pub use clusters::{Cluster, new_copies};
pub use events::{Event, Refusal, Reply};
pub use messages::Message;
pub use runs::RunFault;
pub use sending::{SentMessage, send};
