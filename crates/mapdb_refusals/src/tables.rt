//! A table that is not built, and built at the next call.

use crate::commands::{copy_after, one_page_for_many, space};
use crate::found::{Again, Found, refused, whole_again_if, whole_if};
use mapdb_replica::Replica;
use mapdb_table::{TableRow, build, build_plain};
use std::alloc::Global;
use std::thread::Threads;

/// A copy with its table.
#[derive(Drop)]
struct Tabled {
    copy: Replica,
    rows: Vec<TableRow>,
}

/// A copy with its table, which is made where memory may be refused too.
fn table_beside(alloc: Global, copy: Replica) -> Option<Tabled> {
    match build_plain(alloc, &copy) {
        Ok(rows) => Some(Tabled { copy, rows }),
        Err(_) => None,
    }
}

/// A copy that holds a page for seven spaces, with its table.
fn copy_with_table(alloc: Global) -> Option<Tabled> {
    match copy_after(alloc, &one_page_for_many(), &[]) {
        Some(copy) => table_beside(alloc, copy),
        None => None,
    }
}

/// Whether a row is of the space of this number, and says what its first page is served from.
fn is_row(row: &TableRow, number: u16, copy: &Replica) -> bool {
    row.space == space(number) && copy.served(row.space, row.page) == Some((row.frame, row.rights))
}

/// Whether the rows are those of memory and of the seven spaces that received a page, and all that
/// is wanted.
fn are_rows(rows: &[TableRow], tabled: &Tabled) -> bool {
    let mut number: u16 = 0;
    for row in rows {
        if !is_row(row, number, &tabled.copy) {
            return false;
        }
        number = number.saturating_add(1);
    }
    number == 8 && rows == tabled.rows.as_slice()
}

/// What a table that was refused comes to at the next call.
fn plain_again(alloc: Global, tabled: &Tabled) -> Option<Again> {
    match build_plain(alloc, &tabled.copy) {
        Ok(rows) => whole_again_if(are_rows(rows.as_slice(), tabled)),
        Err(_) => Some(Again::Refused(0)),
    }
}

/// What is found of a table that is built in one thread.
fn found_plain(alloc: Global, tabled: &Tabled) -> Found {
    match build_plain(alloc, &tabled.copy) {
        Ok(rows) => whole_if(are_rows(rows.as_slice(), tabled)),
        Err(_) => refused(0, plain_again(alloc, tabled)),
    }
}

/// What a table in threads that was refused comes to at the next call.
fn in_threads_again<R: Threads + Sync>(rt: &R, alloc: Global, tabled: &Tabled) -> Option<Again> {
    match build(rt, alloc, &tabled.copy) {
        Ok(rows) => whole_again_if(are_rows(rows.as_slice(), tabled)),
        Err(_) => Some(Again::Refused(0)),
    }
}

/// What is found of a table that is built in threads.
fn found_in_threads<R: Threads + Sync>(rt: &R, alloc: Global, tabled: &Tabled) -> Found {
    match build(rt, alloc, &tabled.copy) {
        Ok(rows) => whole_if(are_rows(rows.as_slice(), tabled)),
        Err(_) => refused(0, in_threads_again(rt, alloc, tabled)),
    }
}

/// The table of a copy, in one thread.
pub fn plain(alloc: Global) -> Found {
    match copy_with_table(alloc) {
        Some(tabled) => found_plain(alloc, &tabled),
        None => Found::Unmade,
    }
}

/// The table of a copy, space by space in threads.
pub fn in_threads<R: Threads + Sync>(rt: &R, alloc: Global) -> Found {
    match copy_with_table(alloc) {
        Some(tabled) => found_in_threads(rt, alloc, &tabled),
        None => Found::Unmade,
    }
}
