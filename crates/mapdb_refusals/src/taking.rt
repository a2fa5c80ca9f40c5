//! A batch of which some operations are taken, and which is taken again.

use crate::commands::one_page_there_and_back;
use crate::comparing::is_same_copy;
use crate::found::{Again, Found, refused, refused_again_if, whole_again_if, whole_if};
use crate::pairs::{Pair, empty_beside};
use mapdb_facts::Op;
use mapdb_replica::{Replica, TakeFault};
use std::alloc::Global;

/// Whether the copy holds all of these operations.
fn holds_all(copy: &Replica, batch: &[Op]) -> bool {
    for op in batch {
        if copy.facts().is_new(op) {
            return false;
        }
    }
    true
}

/// Whether the first so many operations of the batch stand, which are not all, and no other.
fn stands(copy: &Replica, batch: &[Op], taken: usize) -> bool {
    match batch.get(..taken) {
        Some(front) => {
            taken < batch.len() && copy.log_len() as usize == taken && holds_all(copy, front)
        }
        None => false,
    }
}

/// Whether so many were new of a batch that is now held whole, before which so many were held.
fn is_taken(copy: &Replica, batch: &[Op], wanted: &Replica, before: u32, count: u32) -> bool {
    u64::from(before).saturating_add(u64::from(count)) == batch.len() as u64
        && copy.log_len() as usize == batch.len()
        && is_same_copy(copy, wanted)
}

/// What the batch comes to, taken again: it brings what is missing.
fn take_again(copy: &mut Replica, batch: &[Op], wanted: &Replica) -> Option<Again> {
    let before = copy.log_len();
    match copy.take(batch) {
        Ok(count) => whole_again_if(is_taken(copy, batch, wanted, before, count)),
        Err(TakeFault::Memory { taken }) => {
            let more = (taken as u64).saturating_sub(u64::from(before));
            refused_again_if(is_again_front(copy, batch, taken, before), more)
        }
        Err(_) => None,
    }
}

/// Whether the first so many operations of the batch stand, some of which may have stood before;
/// where it was refused as a whole, what stood before.
fn is_again_front(copy: &Replica, batch: &[Op], taken: usize, before: u32) -> bool {
    if taken == 0 {
        stands(copy, batch, before as usize)
    } else {
        stands(copy, batch, taken)
    }
}

/// What is found of a batch of new operations, at a copy that holds nothing.
fn found_of(copy: &mut Replica, batch: &[Op], wanted: &Replica) -> Found {
    match copy.take(batch) {
        Ok(count) => whole_if(is_taken(copy, batch, wanted, 0, count)),
        Err(TakeFault::Memory { taken }) if stands(copy, batch, taken) => {
            refused(taken as u64, take_again(copy, batch, wanted))
        }
        Err(_) => Found::Wrong,
    }
}

/// What is found of a copy that takes all that the wanted one issued.
fn take_all(pair: &mut Pair) -> Found {
    match pair.wanted.give_own(0, pair.wanted.own_len()) {
        Ok(batch) => found_of(&mut pair.copy, batch.as_slice(), &pair.wanted),
        Err(_) => Found::Unmade,
    }
}

/// An empty copy takes all that another one issued.
pub fn take(alloc: Global) -> Found {
    match empty_beside(alloc, &one_page_there_and_back()) {
        Some(mut pair) => take_all(&mut pair),
        None => Found::Unmade,
    }
}
