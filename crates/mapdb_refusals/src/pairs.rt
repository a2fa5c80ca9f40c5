//! A copy as it is wanted, and one that is to become like it: a case owns one pair of them.

use crate::commands::copy_after;
use mapdb_replica::{Command, Replica};
use std::alloc::Global;

/// Both copies.
#[derive(Drop)]
pub struct Pair {
    /// The copy as it is wanted.
    pub wanted: Replica,
    /// The copy that is to become like it.
    pub copy: Replica,
}

/// A copy beside the wanted one, where there is one.
fn beside(wanted: Option<Replica>, copy: Replica) -> Option<Pair> {
    Some(Pair {
        wanted: wanted?,
        copy,
    })
}

/// A copy after these commands, where the wanted one did a last one too.
pub fn before_the_last(alloc: Global, commands: &[Command], last: &Command) -> Option<Pair> {
    let copy = copy_after(alloc, commands, &[])?;
    beside(copy_after(alloc, commands, &[*last]), copy)
}

/// An empty copy of processor 1, where the wanted one did these commands.
pub fn empty_beside(alloc: Global, commands: &[Command]) -> Option<Pair> {
    beside(copy_after(alloc, commands, &[]), Replica::new(alloc, 1))
}
