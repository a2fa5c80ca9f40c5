//! The program `l4map`, all but its `main`: what the words of a command line ask for, over any
//! reader and writers.
//!
//! [`start`] takes the words of the environment, and answers the [`Status`] that the process ends
//! with; [`serve`] does what given words ask for, and answers the [`Ending`].
#![tactic(auto)]

mod commands;
mod endings;
mod environment;
mod help;
mod messages;
mod served;
mod snapshots;
mod threaded;

pub use endings::Ending;
pub use environment::{Status, start};
pub use served::serve;
