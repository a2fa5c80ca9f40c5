//! A run of a cluster that stops, and goes on with the events that are left.

use crate::commands::{one_page_for_many, take_it_back};
use crate::comparing::{is_front, is_same_copy, is_whole as is_whole_copy};
use crate::found::{Again, Found, refused, refused_again_if, whole_again_if, whole_if};
use mapdb_cluster::{Cluster, Event, Reply, RunFault};
use mapdb_replica::Replica;
use std::alloc::{AllocError, Global};

/// What the run of a cluster is compared with.
#[derive(Drop)]
struct Wanted {
    /// The events.
    events: Vec<Event>,
    /// Their replies.
    replies: Vec<Reply>,
    /// A cluster after them.
    cluster: Cluster,
}

/// Commands at processor 0, a message with all that they issue, and the end of its way.
fn events_of(alloc: Global) -> Result<Vec<Event>, AllocError> {
    let mut events = Vec::new(alloc);
    for command in one_page_for_many() {
        events.push(Event::Issue { at: 0, command })?;
    }
    events.push(Event::Issue {
        at: 0,
        command: take_it_back(),
    })?;
    events.push(Event::Send {
        from: 0,
        first: 0,
        end: 13,
    })?;
    events.push(Event::Deliver { message: 0, to: 1 })?;
    Ok(events)
}

/// Runs the events at a cluster that is compared with.
fn wanted_of(alloc: Global) -> Option<Wanted> {
    let events = events_of(alloc).ok()?;
    let mut cluster = Cluster::new(alloc, 2).ok()?;
    match cluster.run(events.as_slice()) {
        Ok(replies) => Some(Wanted {
            events,
            replies,
            cluster,
        }),
        Err(_) => None,
    }
}

/// How many operations were issued by this reply.
fn issued_by(reply: &Reply) -> u64 {
    match *reply {
        Reply::Issued { count, .. } => u64::from(count),
        Reply::Revoked(count) => u64::from(count),
        Reply::Ended => 1,
        _ => 0,
    }
}

/// How many operations were issued by these replies.
fn issued(replies: &[Reply]) -> u64 {
    let mut count: u64 = 0;
    for reply in replies {
        count = count.saturating_add(issued_by(reply));
    }
    count
}

/// Whether the copy that issues has what the done events issued, and of the next one a part.
fn has_issued(copy: &Replica, wanted: &Replica, replies: &[Reply], done: usize) -> bool {
    let count = u64::from(copy.own_len());
    let least = issued(replies.get(..done).unwrap_or(&[]));
    let most = issued(replies.get(..=done).unwrap_or(&[]));
    is_front(copy, wanted, count) && (count == least || (least < count && count < most))
}

/// Whether the copy that receives holds the first of what the other one issued, not all; nothing
/// before the last event.
fn has_received(copy: &Replica, wanted: &Replica, is_last: bool) -> bool {
    let held = copy.log_len();
    for place in 0..held {
        match wanted.own_at(place) {
            Some(op) if !copy.facts().is_new(&op) => {}
            _ => return false,
        }
    }
    copy.own_len() == 0 && held < wanted.own_len() && (is_last || held == 0)
}

/// Whether so many events of a cluster stand, and of the next one a part.
fn stands(cluster: &Cluster, wanted: &Wanted, done: usize) -> bool {
    let is_last = done.checked_add(1) == Some(wanted.events.len());
    match (cluster.copy(0), cluster.copy(1), wanted.cluster.copy(0)) {
        (Some(one), Some(other), Some(all)) => {
            has_issued(one, all, wanted.replies.as_slice(), done)
                && has_received(other, all, is_last)
        }
        _ => false,
    }
}

/// Whether both copies of a cluster are as they are wanted.
fn is_whole(cluster: &Cluster, wanted: &Wanted) -> bool {
    match (cluster.copy(0), cluster.copy(1), wanted.cluster.copy(0)) {
        (Some(one), Some(other), Some(all)) => {
            is_whole_copy(one, all) && is_same_copy(other, all) && other.log_len() == all.log_len()
        }
        _ => false,
    }
}

/// Whether these are the wanted replies from a place on. What was issued before a refusal is
/// missing in the first.
fn are_replies(replies: &[Reply], wanted: &Wanted, done: usize) -> bool {
    let Some(left) = wanted.replies.get(done..) else {
        return false;
    };
    match (replies.split_first(), left.split_first()) {
        (Some((first, rest)), Some((wanted_first, wanted_rest))) => {
            issued_by(first) <= issued_by(wanted_first) && rest == wanted_rest
        }
        _ => false,
    }
}

/// What the events behind the first so many come to.
fn run_again(cluster: &mut Cluster, wanted: &Wanted, done: usize) -> Option<Again> {
    match cluster.run(wanted.events.get(done..)?) {
        Ok(replies) => whole_again_if(
            are_replies(replies.as_slice(), wanted, done) && is_whole(cluster, wanted),
        ),
        Err(RunFault::Memory { done: more }) => refused_again_if(
            stands(cluster, wanted, done.saturating_add(more)),
            more as u64,
        ),
    }
}

/// What is found of a run of the events.
fn found_of(cluster: &mut Cluster, wanted: &Wanted) -> Found {
    match cluster.run(wanted.events.as_slice()) {
        Ok(replies) => {
            whole_if(replies.as_slice() == wanted.replies.as_slice() && is_whole(cluster, wanted))
        }
        Err(RunFault::Memory { done }) if stands(cluster, wanted, done) => {
            refused(done as u64, run_again(cluster, wanted, done))
        }
        Err(_) => Found::Wrong,
    }
}

/// A run of ten events.
pub fn run(alloc: Global) -> Found {
    let Some(wanted) = wanted_of(alloc) else {
        return Found::Unmade;
    };
    match Cluster::new(alloc, 2) {
        Ok(mut cluster) => found_of(&mut cluster, &wanted),
        Err(_) => Found::Unmade,
    }
}
