//! Tests of nodes, and of processors that run side by side, through what these libraries offer to
//! others.
//!
//! They stand in a crate beside the libraries, so that each library is proved once for all of them.
#![tactic(auto)]

#[cfg(test)]
mod exchange;
#[cfg(test)]
mod node;
