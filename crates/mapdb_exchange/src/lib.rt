//! Processors that run their scripts side by side, each in threads of its own, and tell each other
//! over links what they issue.
//!
//! A [`link`] carries [`Message`]s in order from an [`Outgoing`] end to an [`Incoming`] one.
//!
//! # A use
//!
//! ```
//! let end = |number| Command::End { space: Space::first(number) };
//! let mut scripts = Vec::new(rt.alloc());
//! scripts.push(vec![in rt.alloc(); end(1), end(2)]?)?;
//! scripts.push(vec![in rt.alloc(); end(3)]?)?;
//! let Ok(report) = run(&rt, rt.alloc(), scripts, 16, &Open) else {
//!     return Ok(());
//! };
//! let (first, second) = (&report.parts[0], &report.parts[1]);
//! assert!(rt; first.history.copy().same(second.history.copy()));
//! ```
#![tactic(auto)]

mod exchange;
mod faults;
mod issuing;
pub mod laws;
mod limits;
mod links;
mod messages;
mod networks;
mod pool;
mod receivers;
mod reports;
mod rules;
mod senders;
mod workers;

pub use exchange::run;
pub use faults::{NodeFault, RunFault};
pub use limits::{MOST_CAPACITY, MOST_SCRIPTS};
pub use links::{Incoming, NextFault, Outgoing, PutFault, link, settle};
pub use messages::{Batch, Message, Ops};
pub use reports::{Part, Report};
