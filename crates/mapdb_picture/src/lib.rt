//! What a copy of a mapping database holds, for people to look at.
//!
//! [`picture`] writes it as Graphviz text: each space is a box, each record a node in it, with
//! lines from the record that its pages come from. [`explanation`] tells for a page of a space,
//! record by record, the chain from it to the frame, with what each record of the chain names and
//! what is revoked of it. [`snapshot_picture`] and [`snapshot_explanation`] do so for a snapshot.
//!
//! # A use
//!
//! ```
//! let mut copy = Replica::new(rt.alloc(), 0);
//! let (page, window) = (Fpage::new(0x1_0000, 12).ok(), Fpage::new(0x4_0000, 12).ok());
//! let item = MapItem { send_base: 0, page, rights: Rights::ALL };
//! assert!(rt; copy.map(Space::FIRST, &item, Space::first(1), window).is_ok());
//! let drawn = picture(rt.alloc(), &copy)?;
//! assert!(rt; drawn.as_str().starts_with("digraph"));
//! let told = explanation(rt.alloc(), &copy, Space::first(1), 0x40)?;
//! assert!(rt; told.as_str().starts_with("record 1.0"));
//! ```
#![tactic(auto)]

mod chains;
mod explanations;
mod faults;
mod labels;
pub mod laws;
mod loading;
mod pictures;
mod steps;

pub use explanations::explanation;
pub use faults::LoadFault;
pub use loading::{snapshot_copy, snapshot_explanation, snapshot_picture};
pub use pictures::picture;
