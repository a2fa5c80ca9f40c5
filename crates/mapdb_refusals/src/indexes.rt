//! An index for which there is no memory: no call fails for it, and the next operation has it built
//! anew.

use crate::commands::{copy_after, issue, map, one_page_for_many};
use crate::comparing::is_whole;
use crate::found::{Again, Found, refused, refused_again_if, whole_again_if};
use crate::pairs::{Pair, before_the_last};
use mapdb_replica::{Command, IssueFault, Replica};
use std::alloc::Global;

/// What the next command comes to where the index is absent: it leaves one. Where there is no
/// memory for it either, the command is refused with nothing issued, or it is done without an
/// index, and the copy answers as ever.
fn issue_next(pair: &mut Pair, next: &Command, end: &Replica) -> Option<Again> {
    match issue(&mut pair.copy, next) {
        Ok(_) if pair.copy.index().is_absent() => refused_again_if(is_whole(&pair.copy, end), 1),
        Ok(_) => whole_again_if(is_whole(&pair.copy, end)),
        Err(IssueFault::Memory { issued: 0 }) => {
            refused_again_if(is_whole(&pair.copy, &pair.wanted), 0)
        }
        Err(_) => None,
    }
}

/// What is found of a command at a copy, after which its index may be absent, and of the next one,
/// behind which the copy is to be like another.
fn found_of(pair: &mut Pair, last: &Command, next: &Command, end: &Replica) -> Found {
    match issue(&mut pair.copy, last) {
        Ok(_) if !is_whole(&pair.copy, &pair.wanted) => Found::Wrong,
        Ok(_) if pair.copy.index().is_absent() => refused(1, issue_next(pair, next, end)),
        Ok(_) => Found::Whole,
        // What stands then is another case's.
        Err(IssueFault::Memory { .. }) => Found::Unmade,
        Err(_) => Found::Wrong,
    }
}

/// What is found of two commands at a copy that did these.
fn found_behind(
    alloc: Global,
    pair: &mut Pair,
    commands: &[Command],
    last: &Command,
    next: &Command,
) -> Found {
    match copy_after(alloc, commands, &[*last, *next]) {
        Some(end) => found_of(pair, last, next, &end),
        None => Found::Unmade,
    }
}

/// A page is mapped to one space more, and to another one.
pub fn index(alloc: Global) -> Found {
    let page = (1, 0x2_0000);
    let last = map(page, (8, 0x2_0000), 12);
    let next = map(page, (9, 0x2_0000), 12);
    let commands = one_page_for_many();
    match before_the_last(alloc, &commands, &last) {
        Some(mut pair) => found_behind(alloc, &mut pair, &commands, &last, &next),
        None => Found::Unmade,
    }
}
