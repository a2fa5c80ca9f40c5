//! Commands that issue some of their operations, and are made again.

use crate::commands::{issue, map as map_place, one_page_for_many, take_it_back};
use crate::comparing::{is_front, is_whole, serve_alike};
use crate::found::{Again, Found, refused, refused_again_if, whole_again_if, whole_if};
use crate::pairs::before_the_last;
use mapdb_facts::{Op, Record, RecordId};
use mapdb_replica::{Command, IssueFault, Replica};
use std::alloc::Global;

/// How many operations the wanted copy issued in its last command, behind so many.
fn missing(wanted: &Replica, before: u32) -> u64 {
    u64::from(wanted.own_len().saturating_sub(before))
}

/// Whether the first so many operations of the last command stand behind those before it, and these
/// are not all.
fn stands(copy: &Replica, wanted: &Replica, before: u32, issued: u32) -> bool {
    let count = u64::from(before).saturating_add(u64::from(issued));
    count < u64::from(wanted.own_len()) && is_front(copy, wanted, count)
}

/// What an Unmap comes to, made again: it issues what is missing.
fn unmap_again(copy: &mut Replica, last: &Command, wanted: &Replica) -> Option<Again> {
    let before = copy.own_len();
    match issue(copy, last) {
        Ok(count) => whole_again_if(count == missing(wanted, before) && is_whole(copy, wanted)),
        Err(IssueFault::Memory { issued }) => {
            refused_again_if(stands(copy, wanted, before, issued), u64::from(issued))
        }
        Err(_) => None,
    }
}

/// What is found of an Unmap, after which the copy is to be as the wanted one.
fn found_of_unmap(copy: &mut Replica, last: &Command, wanted: &Replica) -> Found {
    let before = copy.own_len();
    match issue(copy, last) {
        Ok(count) => whole_if(count == missing(wanted, before) && is_whole(copy, wanted)),
        Err(IssueFault::Memory { issued }) if stands(copy, wanted, before, issued) => {
            refused(u64::from(issued), unmap_again(copy, last, wanted))
        }
        Err(_) => Found::Wrong,
    }
}

/// A record but for its name, whose number is greater by so much.
fn renumbered(record: &Record, more: u32) -> Record {
    Record {
        id: RecordId::saturating(
            record.id.number().saturating_add(u64::from(more)),
            record.id.processor(),
        ),
        ..*record
    }
}

/// Whether an operation has a record that is the other's, with a number that is greater by so much.
fn is_renumbered(found: Option<Op>, wanted: Option<Op>, more: u32) -> bool {
    match (found, wanted) {
        (Some(Op::Born(record)), Some(Op::Born(other))) => record == renumbered(&other, more),
        _ => false,
    }
}

/// Whether the records of a Map that was made again stand behind the part of the first one: they
/// are those of the whole Map, whose first stands at a place, with numbers behind the part.
fn are_repeated(copy: &Replica, wanted: &Replica, first: u32, part: u32) -> bool {
    let begin = first.saturating_add(part);
    for place in begin..copy.own_len() {
        let found = copy.own_at(place);
        if !is_renumbered(found, wanted.own_at(place.saturating_sub(part)), part) {
            return false;
        }
    }
    copy.log_len() == copy.own_len()
}

/// Whether a copy issued so many operations behind the first ones.
fn has_grown(copy: &Replica, before: u32, count: u64) -> bool {
    u64::from(copy.own_len()) == u64::from(before).saturating_add(count)
}

/// What a Map comes to, made again: it issues all its records anew, behind the part that stands.
fn map_again(
    copy: &mut Replica,
    last: &Command,
    wanted: &Replica,
    first: u32,
    part: u32,
) -> Option<Again> {
    let before = copy.own_len();
    match issue(copy, last) {
        Ok(count) => whole_again_if(
            count == missing(wanted, first)
                && has_grown(copy, before, count)
                && are_repeated(copy, wanted, first, part)
                && serve_alike(copy, wanted),
        ),
        Err(IssueFault::Memory { issued }) => {
            let more = u64::from(issued);
            let is_part = more < missing(wanted, first) && has_grown(copy, before, more);
            refused_again_if(is_part && are_repeated(copy, wanted, first, part), more)
        }
        Err(_) => None,
    }
}

/// What is found of a Map, after which the copy is to be as the wanted one.
fn found_of_map(copy: &mut Replica, last: &Command, wanted: &Replica) -> Found {
    let before = copy.own_len();
    match issue(copy, last) {
        Ok(count) => whole_if(count == missing(wanted, before) && is_whole(copy, wanted)),
        Err(IssueFault::Memory { issued }) if stands(copy, wanted, before, issued) => {
            let again = map_again(copy, last, wanted, before, issued);
            refused(u64::from(issued), again)
        }
        Err(_) => Found::Wrong,
    }
}

/// A page is taken from the six spaces that received it.
pub fn unmap(alloc: Global) -> Found {
    let commands = one_page_for_many();
    let last = take_it_back();
    match before_the_last(alloc, &commands, &last) {
        Some(mut pair) => found_of_unmap(&mut pair.copy, &last, &pair.wanted),
        None => Found::Unmade,
    }
}

/// Six pages for three spaces, four of them for space 1.
fn four_pages_apart() -> [Command; 6] {
    [
        map_place((0, 0x1_0000), (1, 0x4_0000), 12),
        map_place((0, 0x1_3000), (1, 0x4_1000), 12),
        map_place((0, 0x1_5000), (1, 0x4_2000), 12),
        map_place((0, 0x1_7000), (1, 0x4_3000), 12),
        map_place((0, 0x1_9000), (3, 0x4_0000), 12),
        map_place((0, 0x1_b000), (4, 0x4_0000), 12),
    ]
}

/// Four pages of a space, each of another mapping, are mapped to another space, which is four
/// records.
pub fn map(alloc: Global) -> Found {
    let commands = four_pages_apart();
    let last = map_place((1, 0x4_0000), (2, 0x8_0000), 14);
    match before_the_last(alloc, &commands, &last) {
        Some(mut pair) => found_of_map(&mut pair.copy, &last, &pair.wanted),
        None => Found::Unmade,
    }
}
