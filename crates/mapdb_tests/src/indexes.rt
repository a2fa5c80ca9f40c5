//! What the index of a copy tells, beside what the recursion of rights says.

use crate::commands::{end, id, map, space, unmap};
use crate::orders::ORDERS;
use mapdb_facts::{Facts, RecordId, Space};
use mapdb_fpage::Rights;
use mapdb_replica::{Command, Replica};
use mapdb_rights::{RightsIndex, RightsRun, live_after, rights_of};
use std::process::Abort;

/// Does commands at a copy, and asserts that they are done.
fn issue_all(rt: &impl Abort, copy: &mut Replica, commands: &[Command]) {
    for command in commands {
        assert!(rt; copy.apply(command).is_ok());
    }
}

/// Pages round those that the commands of these tests name.
const PAGES: [u64; 10] = [0, 0x0f, 0x10, 0x11, 0x1f, 0x20, 0x21, 0x2f, 0x30, 0x31];

/// The rights at a page, by runs.
fn rights_in(runs: &[RightsRun], page: u64) -> Rights {
    for run in runs {
        if page >= run.first_page && page - run.first_page < run.page_count {
            return run.rights;
        }
    }
    Rights::NONE
}

/// Asserts that runs say of the pages what the recursion says of a record.
fn expect_pages_of(rt: &impl Abort, facts: &Facts, name: RecordId, runs: &[RightsRun]) {
    for page in &PAGES {
        assert_eq!(rt; rights_in(runs, *page), rights_of(facts, name, *page));
    }
}

/// Asserts that the index is there, and has the runs of a record.
fn expect_runs(rt: &impl Abort, facts: &Facts, index: &RightsIndex, name: RecordId) {
    match index.runs(name) {
        Ok(Some(runs)) => expect_pages_of(rt, facts, name, runs.as_slice()),
        _ => panic!(rt; "no runs are told"),
    }
}

/// Asserts that names are those of the records of a space with a right at a page, in their order.
fn expect_live(rt: &impl Abort, facts: &Facts, space: Space, page: u64, names: &[RecordId]) {
    let mut after = None;
    for name in names {
        assert_eq!(rt; live_after(facts, space, page, after), Some(*name));
        after = Some(*name);
    }
    assert_eq!(rt; live_after(facts, space, page, after), None);
}

/// Asserts that the index of a copy is there, and names the records of a space with a right at a
/// page.
fn expect_in_space(rt: &impl Abort, copy: &Replica, space: Space, page: u64) {
    let facts = copy.facts();
    let index = copy.index();
    match index.in_space(facts, space, page) {
        Ok(Some(names)) => expect_live(rt, facts, space, page, names.as_slice()),
        _ => panic!(rt; "no names are told"),
    }
}

/// Asserts all of this of spaces, pages and records of a copy.
fn expect_index(rt: &impl Abort, copy: &Replica) {
    let facts = copy.facts();
    let index = copy.index();
    for number in 0..3 {
        expect_runs(rt, facts, index, id(number));
    }
    for number in 0..4 {
        for page in &PAGES {
            expect_in_space(rt, copy, space(number), *page);
        }
    }
}

/// Takes the operation at a place of another copy, and asserts what the index tells then.
fn take_one(rt: &impl Abort, copy: &mut Replica, other: &Replica, place: u32) {
    match other.give(place, place.saturating_add(1)) {
        Ok(given) => assert_eq!(rt; copy.take(given.as_slice()), Ok(1)),
        Err(_) => panic!(rt; "no operation is given"),
    }
    expect_index(rt, copy);
}

/// Takes four operations of another copy in an order, and asserts what the index tells behind each.
fn take_all(rt: &impl Abort, copy: &mut Replica, other: &Replica, order: &[u32; 4]) {
    for place in order {
        take_one(rt, copy, other, *place);
    }
}

#[test]
fn index_in_every_delivery_order(rt: HostRuntime) {
    let commands = [
        map((0, 0x10000), (1, 0x20000), 12, 6),
        map((1, 0x20000), (2, 0x30000), 12, 6),
        unmap(1, 0x20000, 12, 2),
        end(3),
    ];
    let mut copy = Replica::new(rt.alloc(), 0);
    issue_all(&rt, &mut copy, &commands);
    for order in &ORDERS {
        let mut other = Replica::new(rt.alloc(), 1);
        take_all(&rt, &mut other, &copy, order);
    }
}

#[test]
fn index_of_revoked_grandchild(rt: HostRuntime) {
    let commands = [
        map((0, 0x10000), (1, 0x20000), 12, 6),
        map((1, 0x20000), (2, 0x30000), 12, 7),
        unmap(0, 0x10000, 12, 2),
    ];
    let mut copy = Replica::new(rt.alloc(), 0);
    issue_all(&rt, &mut copy, &commands);
    expect_index(&rt, &copy);
    issue_all(&rt, &mut copy, &[end(1)]);
    expect_index(&rt, &copy);
}
