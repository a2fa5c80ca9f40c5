//! A node, which is closed after a call that ran out of memory, or without its seats.

use crate::commands::{copy_after, one_page_there_and_back};
use crate::comparing::{is_front, is_whole};
use crate::found::{Again, Found, refused};
use crate::journals::{Asked, End, end_of, is_told};
use mapdb_node::{CallFault, CloseFault, History, Node, NodeEvent, Seat};
use mapdb_replica::{Command, Replica};
use std::alloc::Global;
use std::sync::Wait;

/// Does a command at a node.
fn call<R: Wait>(rt: &R, node: &Node, seat: &mut Seat, command: &Command) -> End {
    match node.call(rt, seat, NodeEvent::Issue(*command)) {
        Ok(reply) => end_of(&reply),
        Err(CallFault::Memory) => End::Refused,
        Err(_) => End::Strange,
    }
}

/// Does commands one after the other, up to the first that is not done.
fn call_all<R: Wait>(rt: &R, node: &Node, seat: &mut Seat, commands: &[Command]) -> Asked {
    for (done, command) in commands.iter().enumerate() {
        let end = call(rt, node, seat, command);
        if end != End::Done {
            return Asked { done, end };
        }
    }
    Asked {
        done: commands.len(),
        end: End::Done,
    }
}

/// What the commands behind the first so many come to.
fn call_again<R: Wait>(
    rt: &R,
    node: &Node,
    seat: &mut Seat,
    commands: &[Command],
    done: usize,
) -> Option<Again> {
    let before = seat.calls().len();
    match call_all(rt, node, seat, commands.get(done..)?).end {
        End::Done => Some(Again::Whole),
        End::Refused => Some(Again::Refused(seat.calls().len().saturating_sub(before) as u64)),
        End::Strange => None,
    }
}

/// What is found of these commands at a node, by what the seat is told.
fn found_at_seat<R: Wait>(rt: &R, node: &Node, seat: &mut Seat, commands: &[Command]) -> Found {
    let asked = call_all(rt, node, seat, commands);
    let told = seat.calls().len() as u64;
    match asked.end {
        End::Done => Found::Whole,
        End::Refused => refused(told, call_again(rt, node, seat, commands, asked.done)),
        End::Strange => Found::Wrong,
    }
}

/// The history of a node that is closed with its seat, in a list that has room for it.
fn history_of(node: Node, mut seats: Vec<Seat>, seat: Seat) -> Option<History> {
    seats.push(seat).ok()?;
    node.close(seats).ok()
}

/// Whether a history tells of these commands, and of all if they are done.
fn tells(history: &History, commands: &[Command], wanted: &Replica, is_done: bool) -> bool {
    is_told(history.entries(), commands, history.copy(), wanted)
        && (!is_done || is_whole(history.copy(), wanted))
}

/// What is found of a node that is closed with its seat.
fn found_closed(
    found: Found,
    history: Option<History>,
    commands: &[Command],
    wanted: &Replica,
) -> Found {
    match history {
        Some(history) => found.and_if(tells(&history, commands, wanted, found.is_done())),
        None => Found::Wrong,
    }
}

/// The copy of a history without entries.
fn of_empty(history: History) -> Option<Replica> {
    if history.entries().is_empty() {
        Some(history.into_copy())
    } else {
        None
    }
}

/// The copy that a node hands back, which is closed without the seat that called. Where no call was
/// told, none is missing, and the history has the copy.
fn handed_back(alloc: Global, node: Node) -> Option<Replica> {
    match node.close(Vec::new(alloc)) {
        Err(CloseFault::Mismatch(copy)) => Some(copy),
        Err(CloseFault::StrangeSeat(_)) => None,
        Ok(history) => of_empty(history),
    }
}

/// Whether a copy holds the first of what the wanted one issued, and all if the commands are done.
fn holds(copy: &Replica, wanted: &Replica, is_done: bool) -> bool {
    is_front(copy, wanted, u64::from(copy.own_len())) && (!is_done || is_whole(copy, wanted))
}

/// What is found of a node that is closed without its seat.
fn found_back(found: Found, copy: Option<Replica>, wanted: &Replica) -> Found {
    match copy {
        Some(copy) => found.and_if(holds(&copy, wanted, found.is_done())),
        None => Found::Wrong,
    }
}

/// What is found of these commands at a node from one seat, which is closed with the seat.
fn found_with_seat<R: Wait>(
    rt: &R,
    node: Node,
    seats: Vec<Seat>,
    commands: &[Command],
    wanted: &Replica,
) -> Found {
    match node.seat(rt) {
        Ok(mut seat) => {
            let found = found_at_seat(rt, &node, &mut seat, commands);
            found_closed(found, history_of(node, seats, seat), commands, wanted)
        }
        Err(_) => Found::Wrong,
    }
}

/// The same at a new node, where a list has room for the seat.
fn found_at_node<R: Wait>(rt: &R, alloc: Global, commands: &[Command], wanted: &Replica) -> Found {
    match Vec::with_capacity(alloc, 1) {
        Ok(seats) => found_with_seat(rt, Node::new(alloc, 0), seats, commands, wanted),
        Err(_) => Found::Unmade,
    }
}

/// Commands at a node from one seat, which is closed with the seat: the history has the calls that
/// the seat was told, and no other.
pub fn close<R: Wait>(rt: &R, alloc: Global) -> Found {
    let commands = one_page_there_and_back();
    match copy_after(alloc, &commands, &[]) {
        Some(wanted) => found_at_node(rt, alloc, &commands, &wanted),
        None => Found::Unmade,
    }
}

/// What is found of these commands at a node from one seat, which is closed without it.
fn found_without_seat<R: Wait>(
    rt: &R,
    alloc: Global,
    node: Node,
    commands: &[Command],
    wanted: &Replica,
) -> Found {
    match node.seat(rt) {
        Ok(mut seat) => {
            let found = found_at_seat(rt, &node, &mut seat, commands);
            found_back(found, handed_back(alloc, node), wanted)
        }
        Err(_) => Found::Wrong,
    }
}

/// A node that is closed without the seat that called hands the copy back, with all that was done.
pub fn close_without_seats<R: Wait>(rt: &R, alloc: Global) -> Found {
    let commands = one_page_there_and_back();
    match copy_after(alloc, &commands, &[]) {
        Some(wanted) => found_without_seat(rt, alloc, Node::new(alloc, 0), &commands, &wanted),
        None => Found::Unmade,
    }
}
