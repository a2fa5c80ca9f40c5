//! How a copy that met a refusal compares with one that met none. None of this takes memory.

use crate::commands::space;
use mapdb_facts::{Op, Space};
use mapdb_replica::Replica;

/// The spaces of the cases have lesser numbers.
const SPACES: u16 = 10;
/// The pages that the cases map, and one that none maps.
const PAGES: [u64; 11] = [
    0x20, 0x21, 0x30, 0x40, 0x41, 0x42, 0x43, 0x80, 0x81, 0x82, 0x83,
];

/// Whether two operations are one.
fn is_same(found: Option<Op>, wanted: Option<Op>) -> bool {
    found == wanted
}

/// Whether the operations that the copy issued are the first ones that the wanted one issued.
fn issued_first(copy: &Replica, wanted: &Replica) -> bool {
    for place in 0..copy.own_len() {
        if !is_same(copy.own_at(place), wanted.own_at(place)) {
            return false;
        }
    }
    true
}

/// Whether the copy holds what it issued and nothing else, and that is the first so many operations
/// that the wanted one issued.
pub fn is_front(copy: &Replica, wanted: &Replica, count: u64) -> bool {
    u64::from(copy.own_len()) == count
        && copy.log_len() == copy.own_len()
        && issued_first(copy, wanted)
        && wanted.covers(copy)
}

/// Whether both serve a page of a space alike.
fn serve_page_alike(copy: &Replica, wanted: &Replica, space: Space, page: u64) -> bool {
    copy.served(space, page) == wanted.served(space, page)
}

/// Whether both serve the pages of a space alike.
fn serve_space_alike(copy: &Replica, wanted: &Replica, space: Space) -> bool {
    for page in PAGES {
        if !serve_page_alike(copy, wanted, space, page) {
            return false;
        }
    }
    true
}

/// Whether both serve the pages of the cases alike.
pub fn serve_alike(copy: &Replica, wanted: &Replica) -> bool {
    for number in 0..SPACES {
        if !serve_space_alike(copy, wanted, space(number)) {
            return false;
        }
    }
    true
}

/// Whether both hold the same and serve alike.
pub fn is_same_copy(copy: &Replica, wanted: &Replica) -> bool {
    copy.same(wanted) && serve_alike(copy, wanted)
}

/// Whether the copy issued what the wanted one issued, in its order, and serves as it does.
pub fn is_whole(copy: &Replica, wanted: &Replica) -> bool {
    is_front(copy, wanted, u64::from(wanted.own_len())) && is_same_copy(copy, wanted)
}
