//! The tree, which is no longer known where a command ran out of memory.

use crate::commands::space;
use crate::found::{Again, Found, refused, whole_if};
use mapdb_fpage::{Fpage, MapItem, Rights};
use mapdb_tree::{Tree, TreeFault};
use std::alloc::Global;

/// How many commands there are.
const COMMANDS: u64 = 5;
/// The page that spaces receive the first page at.
const TARGET: u64 = 0x20;
/// The frame that they receive there.
const FRAME: u64 = 0x10;

/// Why a run of the commands stopped, and how many were done before.
#[derive(Clone, Copy, Debug, PartialEq, Eq)]
struct Stopped {
    done: u64,
    fault: TreeFault,
}

/// Maps four pages of memory to a space.
fn map(tree: &mut Tree, to: u16) -> Result<(), TreeFault> {
    let item = MapItem {
        send_base: 0,
        page: Fpage::new(0x1_0000, 14).ok(),
        rights: Rights::ALL,
    };
    tree.map(space(0), &item, space(to), Fpage::new(0x2_0000, 14).ok())
}

/// Takes all rights of memory from the pages that were mapped from it.
fn unmap(tree: &mut Tree) -> Result<(), TreeFault> {
    tree.unmap(space(0), Fpage::new(0x1_0000, 14).ok(), Rights::ALL, false)
}

/// Does the command at a place: the pages are mapped to two spaces and taken from both, one ends,
/// and a third one receives them.
fn command(tree: &mut Tree, place: u64) -> Result<(), TreeFault> {
    match place {
        0 => map(tree, 1),
        1 => map(tree, 2),
        2 => unmap(tree),
        3 => tree.end(space(1)),
        _ => map(tree, 3),
    }
}

/// Does the commands, up to the first that is refused.
fn commands(tree: &mut Tree) -> Result<(), Stopped> {
    for place in 0..COMMANDS {
        if let Err(fault) = command(tree, place) {
            return Err(Stopped { done: place, fault });
        }
    }
    Ok(())
}

/// Whether a page of a space shows this frame with all rights.
fn shows(tree: &Tree, number: u16, page: u64, frame: u64) -> bool {
    tree.rights(space(number), page) == Some((frame, Rights::ALL))
}

/// Whether the third space alone shows the pages.
fn is_whole(tree: &Tree) -> bool {
    for place in 0..4 {
        let page = TARGET + place;
        if !shows(tree, 3, page, FRAME + place)
            || tree.rights(space(1), page).is_some()
            || tree.rights(space(2), page).is_some()
        {
            return false;
        }
    }
    true
}

/// Whether each command is refused as failed.
fn has_failed(tree: &mut Tree) -> bool {
    for place in 0..COMMANDS {
        if command(tree, place) != Err(TreeFault::Failed) {
            return false;
        }
    }
    true
}

/// What a tree that ran out of memory comes to.
fn failed(tree: &mut Tree) -> Option<Again> {
    if has_failed(tree) {
        Some(Again::Failed)
    } else {
        None
    }
}

/// Commands at a tree, one of which may run out of memory.
pub fn tree(alloc: Global) -> Found {
    let mut tree = Tree::new(alloc);
    match commands(&mut tree) {
        Ok(()) => whole_if(is_whole(&tree)),
        Err(
            Stopped {
                done,
                fault: TreeFault::Memory(_),
            },
        ) => refused(done, failed(&mut tree)),
        Err(_) => Found::Wrong,
    }
}
