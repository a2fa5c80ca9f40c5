//! Seats of a node: strange ones, all that there are, and calls until the journal is full.

use super::{Closed, close, expect, expect_one, expect_two, served, two_seats};
use mapdb_facts::PROCESSOR_LIMIT;
use mapdb_node::{CallFault, MOST_ENTRIES, MOST_SEATS, Node, Open, Seat, SeatFault};
use std::process::Abort;
use std::sync::Wait;
use std::test::Fail;

#[test]
fn seat_of_another_node(rt: HostRuntime) -> Result<(), Fail> {
    let node = Node::new(rt.alloc(), 0);
    let another = Node::new(rt.alloc(), 1);
    match (node.seat(&rt), another.seat(&rt)) {
        (Ok(one), Ok(strange)) => expect_two(
            &rt,
            rt.alloc(),
            node,
            [one, strange],
            Closed::StrangeSeat,
        ),
        _ => Err(Fail::from("no seats")),
    }
}

/// A node that gave one seat takes no second one for its own.
#[test]
fn strange_seat_of_the_next_number(rt: HostRuntime) -> Result<(), Fail> {
    let node = Node::new(rt.alloc(), 3);
    let Some((_another, _one, strange)) = two_seats(&rt, rt.alloc()) else {
        return Err(Fail::from("no seats"));
    };
    assert!(rt; node.seat(&rt).is_ok());
    expect_one(&rt, rt.alloc(), node, strange, Closed::StrangeSeat)
}

/// A seat that has made a call.
fn used_seat<R: Wait>(rt: &R, node: &Node) -> Option<Seat> {
    let mut seat = node.seat(rt).ok()?;
    node.call(rt, &mut seat, served(7, 1)).ok()?;
    Some(seat)
}

/// All seats that a node has, each of which has made a call; a call takes none of them.
fn take_all<R: Wait>(rt: &R, node: &Node, seats: &mut Vec<Seat>) -> Result<(), Fail> {
    for _ in 0..MOST_SEATS {
        seats.push(used_seat(rt, node).ok_or("a seat")?)?;
    }
    Ok(())
}

#[test]
fn all_seats(rt: HostRuntime) -> Result<(), Fail> {
    let node = Node::new(rt.alloc(), 0);
    let mut seats = Vec::new(rt.alloc());
    take_all(&rt, &node, &mut seats)?;
    expect(&rt, node.seat(&rt).err(), Some(SeatFault::NoSeat));
    expect(&rt, close(node, seats), Closed::Entries(64));
    Ok(())
}

/// Asserts that a node hands back the copy of its processor.
fn expect_processor(rt: &impl Abort, node: Node, seats: Vec<Seat>, processor: u8) {
    match node.close(seats) {
        Ok(history) => expect(rt, history.copy().processor(), processor),
        Err(_) => panic!(rt; "the node does not close"),
    }
}

#[test]
fn copies_of_all_processors(rt: HostRuntime) {
    for processor in 0..PROCESSOR_LIMIT {
        let node = Node::new(rt.alloc(), processor);
        expect_processor(&rt, node, Vec::new(rt.alloc()), processor);
    }
}

/// Makes so many calls, and answers whether each was done.
fn call_often<R: Wait>(rt: &R, node: &Node, seat: &mut Seat, count: usize) -> bool {
    let mut all_done = true;
    for _ in 0..count {
        all_done &= node.call(rt, seat, served(7, 1)).is_ok();
    }
    all_done
}

/// Asserts that the journal has no room for a call.
fn expect_full<R: Abort + Wait>(rt: &R, node: &Node, seat: &mut Seat) {
    let full = Some(CallFault::JournalFull);
    expect(rt, node.call(rt, seat, served(7, 1)).err(), full);
    expect(rt, node.call_at(rt, seat, served(7, 1), &Open).err(), full);
}

/// As many calls as a journal has room for, and more.
#[test]
fn full_journal(rt: HostRuntime) -> Result<(), Fail> {
    let node = Node::new(rt.alloc(), 3);
    let Ok(mut seat) = node.seat(&rt) else {
        return Err(Fail::from("no seat"));
    };
    assert!(rt; call_often(&rt, &node, &mut seat, MOST_ENTRIES));
    expect_full(&rt, &node, &mut seat);
    expect_one(&rt, rt.alloc(), node, seat, Closed::Entries(MOST_ENTRIES))
}
