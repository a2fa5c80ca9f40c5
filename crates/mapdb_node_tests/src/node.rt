//! What no contract says of nodes: that their calls succeed, and what threads that share one leave.
//!
//! Assertions stand in functions of their own, and tests are short: a test with many borrows and
//! ways out is long to prove.

use mapdb_facts::Space;
use mapdb_fpage::{Fpage, MapItem, PAGE_BYTES, Rights};
use mapdb_node::{CloseFault, Node, NodeEvent, NodeReply, Seat};
use mapdb_replica::Command;
use std::alloc::Global;
use std::fmt::Debug;
use std::process::Abort;
use std::sync::Wait;
use std::test::Fail;
use std::thread;
use std::thread::Threads;

mod books;
mod gates;
mod seats;

/// Asserts that what was found is what is wanted.
fn expect<T: Copy + Debug + PartialEq>(rt: &impl Abort, found: T, wanted: T) {
    assert_eq!(rt; found, wanted);
}

/// The place of one page.
fn place(page: u64) -> Option<Fpage> {
    Fpage::new(page.checked_mul(PAGE_BYTES)?, 12).ok()
}

/// Maps a page of the first space to the same page of another space, with all rights.
fn map(page: u64, to: u16) -> NodeEvent {
    NodeEvent::Issue(Command::Map {
        sender: Space::FIRST,
        item: MapItem {
            send_base: 0,
            page: place(page),
            rights: Rights::ALL,
        },
        receiver: Space::first(to),
        window: place(page),
    })
}

/// What a page of a space is served from.
fn served(page: u64, number: u16) -> NodeEvent {
    NodeEvent::Served {
        space: Space::first(number),
        page,
    }
}

/// Maps a page to a space, and reads it back. Answers whether it is there.
fn map_and_read<R: Wait>(rt: &R, node: &Node, seat: &mut Seat, page: u64, to: u16) -> bool {
    let mapped = node.call(rt, seat, map(page, to));
    let read = node.call(rt, seat, served(page, to));
    matches!(mapped, Ok(NodeReply::Issued { count: 1, .. }))
        && read.ok() == Some(NodeReply::Served(Some((page, Rights::ALL))))
}

/// Maps 100 pages of a thread to its space, and reads each back at once. Answers whether each is
/// there.
fn work<R: Wait>(rt: &R, node: &Node, seat: &mut Seat, thread: u8) -> bool {
    let mut all_there = true;
    for turn in 0..100 {
        let page = 100 * u64::from(thread) + turn;
        all_there &= map_and_read(rt, node, seat, page, u16::from(thread) + 1);
    }
    all_there
}

/// Two threads share a node, each with a seat. Answers whether each found what it mapped.
fn share<R: Threads + Wait + Sync>(rt: &R, node: &Node, one: &mut Seat, other: &mut Seat) -> bool {
    let (first, second) = thread::join(rt, || work(rt, node, one, 0), || work(rt, node, other, 1));
    first && second
}

/// A node with two seats.
fn two_seats<R: Wait>(rt: &R, alloc: Global) -> Option<(Node, Seat, Seat)> {
    let node = Node::new(alloc, 3);
    let one = node.seat(rt).ok()?;
    let other = node.seat(rt).ok()?;
    Some((node, one, other))
}

/// What a node closes with.
#[derive(Clone, Copy, Debug, PartialEq, Eq)]
enum Closed {
    Entries(usize),
    StrangeSeat,
    Mismatch,
}

/// What a fault says of how a node closed.
fn closed_by(fault: &CloseFault) -> Closed {
    match fault {
        CloseFault::StrangeSeat(_) => Closed::StrangeSeat,
        CloseFault::Mismatch(_) => Closed::Mismatch,
    }
}

/// Closes a node.
fn close(node: Node, seats: Vec<Seat>) -> Closed {
    match node.close(seats) {
        Ok(history) => Closed::Entries(history.entries().len()),
        Err(fault) => closed_by(&fault),
    }
}

/// Asserts what a node closes with, of one of its seats.
fn expect_one(
    rt: &impl Abort,
    alloc: Global,
    node: Node,
    one: Seat,
    wanted: Closed,
) -> Result<(), Fail> {
    let mut seats = Vec::new(alloc);
    seats.push(one)?;
    expect(rt, close(node, seats), wanted);
    Ok(())
}

/// Asserts what a node closes with, of two seats.
fn expect_two(
    rt: &impl Abort,
    alloc: Global,
    node: Node,
    pair: [Seat; 2],
    wanted: Closed,
) -> Result<(), Fail> {
    let seats = Vec::from_array(alloc, pair)?;
    expect(rt, close(node, seats), wanted);
    Ok(())
}

#[test]
fn two_threads_one_node(rt: HostRuntime) -> Result<(), Fail> {
    let Some((node, mut one, mut other)) = two_seats(&rt, rt.alloc()) else {
        return Err(Fail::from("no seats"));
    };
    assert!(rt; share(&rt, &node, &mut one, &mut other));
    expect_two(&rt, rt.alloc(), node, [one, other], Closed::Entries(400))
}

#[test]
fn close_leaves_entries_out(rt: HostRuntime) -> Result<(), Fail> {
    let Some((node, one, mut other)) = two_seats(&rt, rt.alloc()) else {
        return Err(Fail::from("no seats"));
    };
    assert!(rt; map_and_read(&rt, &node, &mut other, 7, 1));
    expect_one(&rt, rt.alloc(), node, one, Closed::Mismatch)
}

/// How many operations the copy holds that a fault hands back.
fn held_back(fault: &CloseFault) -> u32 {
    match fault {
        CloseFault::StrangeSeat(copy) | CloseFault::Mismatch(copy) => copy.log_len(),
    }
}

/// How many operations the copy holds that a node hands back with a fault.
fn handed_back(node: Node, seats: Vec<Seat>) -> Option<u32> {
    match node.close(seats) {
        Ok(_) => None,
        Err(fault) => Some(held_back(&fault)),
    }
}

#[test]
fn mismatch_hands_the_copy_back(rt: HostRuntime) -> Result<(), Fail> {
    let node = Node::new(rt.alloc(), 3);
    let Ok(mut seat) = node.seat(&rt) else {
        return Err(Fail::from("no seat"));
    };
    assert!(rt; map_and_read(&rt, &node, &mut seat, 7, 1));
    expect(&rt, handed_back(node, Vec::new(rt.alloc())), Some(1));
    Ok(())
}

#[test]
fn strange_seat_hands_the_copy_back(rt: HostRuntime) -> Result<(), Fail> {
    let node = Node::new(rt.alloc(), 3);
    let Some((_another, mut one, strange)) = two_seats(&rt, rt.alloc()) else {
        return Err(Fail::from("no seats"));
    };
    assert!(rt; node.seat(&rt).is_ok());
    assert!(rt; map_and_read(&rt, &node, &mut one, 7, 1));
    let seats = Vec::from_array(rt.alloc(), [strange])?;
    expect(&rt, handed_back(node, seats), Some(1));
    Ok(())
}

#[test]
fn entries_of_two_seats(rt: HostRuntime) -> Result<(), Fail> {
    let Some((node, mut one, mut other)) = two_seats(&rt, rt.alloc()) else {
        return Err(Fail::from("no seats"));
    };
    assert!(rt; map_and_read(&rt, &node, &mut one, 7, 1));
    assert!(rt; map_and_read(&rt, &node, &mut other, 8, 1));
    expect_two(&rt, rt.alloc(), node, [one, other], Closed::Entries(4))
}

#[test]
fn copy_per_seat(rt: HostRuntime) -> Result<(), Fail> {
    let Some((node, mut one, mut other)) = two_seats(&rt, rt.alloc()) else {
        return Err(Fail::from("no seats"));
    };
    assert!(rt; map_and_read(&rt, &node, &mut one, 7, 1));
    let read = node.call(&rt, &mut other, served(7, 1)).ok();
    let wanted = NodeReply::Served(Some((7, Rights::ALL)));
    expect(&rt, read, Some(wanted));
    Ok(())
}
