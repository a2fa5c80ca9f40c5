//! A book for itself.

use super::{expect, map, served};
use mapdb_facts::{Op, Space};
use mapdb_fpage::{PAGE_LIMIT, Rights};
use mapdb_node::{Book, BookFault, MOST_ENTRIES, NodeEvent, NodeReply};
use std::process::Abort;

/// Asserts what an event of a seat is replied, and its place.
fn expect_reply(
    rt: &impl Abort,
    book: &mut Book,
    seat: u32,
    event: &NodeEvent,
    place: u32,
    reply: &NodeReply,
) {
    match book.apply(seat, *event) {
        Ok(told) => {
            assert_eq!(rt; told.place, place);
            assert_eq!(rt; told.reply, *reply);
        }
        Err(_) => panic!(rt; "the event is not done"),
    }
}

/// Another copy has ended a space.
fn take_end() -> NodeEvent {
    NodeEvent::Take(Op::Closed(Space::first(5)))
}

#[test]
fn each_event(rt: HostRuntime) {
    let events = [map(7, 1), take_end(), take_end(), NodeEvent::OwnAt(1)];
    let issued = NodeReply::Issued { first: 1, count: 1 };
    let replies = [
        issued,
        NodeReply::Taken(true),
        NodeReply::Taken(false),
        NodeReply::Own(None),
    ];
    let mut book = Book::new(rt.alloc(), 0);
    for (place, (event, reply)) in events.iter().zip(&replies).enumerate() {
        expect_reply(&rt, &mut book, 0, event, place as u32, reply);
    }
    expect(&rt, book.journal().len(), 4);
    expect(&rt, book.copy().log_len(), 2);
}

#[test]
fn served_pages(rt: HostRuntime) {
    let last = PAGE_LIMIT - 1;
    let found = NodeReply::Served(Some((last, Rights::ALL)));
    let mut book = Book::new(rt.alloc(), 0);
    expect_reply(&rt, &mut book, 0, &served(last, 0), 0, &found);
    let beyond = served(PAGE_LIMIT, 0);
    let nothing = NodeReply::Served(None);
    expect_reply(&rt, &mut book, u32::MAX, &beyond, 1, &nothing);
}

#[test]
fn full_journal(rt: HostRuntime) {
    let mut book = Book::new(rt.alloc(), 0);
    let mut all_done = true;
    for _ in 0..MOST_ENTRIES {
        all_done &= book.apply(0, served(7, 1)).is_ok();
    }
    assert!(rt; all_done);
    expect(
        &rt,
        book.apply(0, served(7, 1)).err(),
        Some(BookFault::JournalFull),
    );
    expect(&rt, book.journal().len(), MOST_ENTRIES);
}
