//! What no clause says of calls that neither a script nor the library for C makes: that they
//! succeed with ample memory, and at great sizes; and that an index is there.
//!
//! They stand in a crate beside the libraries, so that each library is proved once for all of them.
//! Values are made before copies, and assertions stand in functions of their own: a test with many
//! borrows and ways out is long to prove.
#![tactic(auto)]

#[cfg(test)]
mod clusters;
#[cfg(test)]
mod commands;
#[cfg(test)]
mod facts;
#[cfg(test)]
mod faults;
#[cfg(test)]
mod indexes;
#[cfg(test)]
mod joins;
#[cfg(test)]
mod orders;
#[cfg(test)]
mod scripts;
#[cfg(test)]
mod tables;
