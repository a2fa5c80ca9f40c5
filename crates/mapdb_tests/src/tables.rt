//! Tables of many spaces and of all pages. Both builds are asked. Tests are short, since one with
//! many borrows is long to prove.

use crate::commands::{place, space};
use mapdb_fpage::{Fpage, MapItem, Rights};
use mapdb_replica::Replica;
use mapdb_table::{TableRow, build, build_plain, find};
use std::alloc::{AllocError, Global};
use std::process::Abort;
use std::test::Fail;
use std::thread::Threads;

/// A row with all rights.
fn row(number: u16, page: u64, count: u64, frame: u64) -> TableRow {
    TableRow {
        space: space(number),
        page,
        count,
        frame,
        rights: Rights::ALL,
    }
}

/// Maps a place of one space into a window of another, with all rights, and asserts that it was
/// done.
fn map(
    rt: &impl Abort,
    copy: &mut Replica,
    from: u16,
    source: Option<Fpage>,
    to: u16,
    window: Option<Fpage>,
) {
    let item = MapItem {
        send_base: 0,
        page: source,
        rights: Rights::ALL,
    };
    assert!(rt; copy.map(space(from), &item, space(to), window).is_ok());
}

/// Whether the rows were built, and are these.
fn are(built: Result<Vec<TableRow>, AllocError>, wanted: &[TableRow]) -> bool {
    match built {
        Ok(rows) => rows.as_slice() == wanted,
        Err(_) => false,
    }
}

/// Asserts that both builds give these rows.
fn expect_rows<R: Abort + Threads + Sync>(
    rt: &R,
    alloc: Global,
    copy: &Replica,
    wanted: &[TableRow],
) {
    assert!(rt; are(build_plain(alloc, copy), wanted));
    assert!(rt; are(build(rt, alloc, copy), wanted));
}

/// Maps one page of the first space into another.
fn map_page(rt: &impl Abort, copy: &mut Replica, number: u16) {
    map(rt, copy, 0, place(0x10000, 12), number, place(0x20000, 12));
}

/// Maps one page of the first space into each space from 1 up to a number.
fn map_into_many(rt: &impl Abort, copy: &mut Replica, last: u16) {
    for number in 1..=last {
        map_page(rt, copy, number);
    }
}

#[test]
fn many_spaces(rt: HostRuntime) -> Result<(), Fail> {
    let mut copy = Replica::new(rt.alloc(), 0);
    map_into_many(&rt, &mut copy, 3000);
    let mut wanted = Vec::new(rt.alloc());
    wanted.push(row(0, 0, 1 << 36, 0))?;
    for number in 1..=3000u16 {
        wanted.push(row(number, 0x20, 1, 0x10))?;
    }
    expect_rows(&rt, rt.alloc(), &copy, wanted.as_slice());
    Ok(())
}

#[test]
fn many_spaces_are_found(rt: HostRuntime) -> Result<(), Fail> {
    let mut copy = Replica::new(rt.alloc(), 0);
    map_into_many(&rt, &mut copy, 3000);
    let rows = build_plain(rt.alloc(), &copy)?;
    assert_eq!(rt;
        find(rows.as_slice(), space(3000), 0x20),
        Some((0x10, Rights::ALL))
    );
    assert_eq!(rt; find(rows.as_slice(), space(3000), 0x21), None);
    Ok(())
}

#[test]
fn one_row_of_all_pages(rt: HostRuntime) -> Result<(), Fail> {
    let copy = Replica::new(rt.alloc(), 0);
    expect_rows(&rt, rt.alloc(), &copy, &[row(0, 0, 1 << 36, 0)]);
    let rows = build_plain(rt.alloc(), &copy)?;
    let last = (1 << 36) - 1;
    assert_eq!(rt;
        find(rows.as_slice(), space(0), last),
        Some((last, Rights::ALL))
    );
    assert_eq!(rt; find(rows.as_slice(), space(0), 1 << 36), None);
    Ok(())
}
