//! Commands, and copies that did them.

use mapdb_facts::Space;
use mapdb_fpage::{Fpage, MapItem, Rights};
use mapdb_replica::{Applied, Command, IssueFault, Replica};
use std::alloc::Global;

/// The space of this number.
pub fn space(number: u16) -> Space {
    Space::first(number)
}

/// Maps `2^order` bytes from an address of one space to one of another, with all rights.
pub fn map((from, source): (u16, u64), (to, target): (u16, u64), order: u8) -> Command {
    Command::Map {
        sender: space(from),
        item: MapItem {
            send_base: 0,
            page: Fpage::new(source, order).ok(),
            rights: Rights::ALL,
        },
        receiver: space(to),
        window: Fpage::new(target, order).ok(),
    }
}

/// Unmaps `2^order` bytes of a space with all rights. The space keeps its own.
pub fn unmap(number: u16, address: u64, order: u8) -> Command {
    Command::Unmap {
        space: space(number),
        page: Fpage::new(address, order).ok(),
        rights: Rights::ALL,
        flush: false,
    }
}

/// A page for space 1, which six other spaces receive from it.
pub fn one_page_for_many() -> [Command; 7] {
    let page = (1, 0x2_0000);
    [
        map((0, 0x1_0000), page, 12),
        map(page, (2, 0x2_0000), 12),
        map(page, (3, 0x2_0000), 12),
        map(page, (4, 0x2_0000), 12),
        map(page, (5, 0x2_0000), 12),
        map(page, (6, 0x2_0000), 12),
        map(page, (7, 0x2_0000), 12),
    ]
}

/// The page is taken from the six spaces.
pub fn take_it_back() -> Command {
    unmap(1, 0x2_0000, 12)
}

/// The page is given to the spaces, and taken from the six.
pub fn one_page_there_and_back() -> [Command; 8] {
    let [first, second, third, fourth, fifth, sixth, seventh] = one_page_for_many();
    [
        first,
        second,
        third,
        fourth,
        fifth,
        sixth,
        seventh,
        take_it_back(),
    ]
}

/// Does a command at a copy, and answers how many operations it issued.
pub fn issue(copy: &mut Replica, command: &Command) -> Result<u64, IssueFault> {
    match copy.apply(command) {
        Ok(Applied::Mapped(names)) => Ok(names.len() as u64),
        Ok(Applied::Revoked(count)) => Ok(u64::from(count)),
        Ok(Applied::Ended(_)) => Ok(1),
        Err(fault) => Err(fault),
    }
}

/// Does commands one after the other, and answers whether all are done.
fn issue_all(copy: &mut Replica, commands: &[Command]) -> bool {
    for command in commands {
        if issue(copy, command).is_err() {
            return false;
        }
    }
    true
}

/// The copy of processor 0 after these commands and the last ones, or None where one was refused.
pub fn copy_after(alloc: Global, commands: &[Command], last: &[Command]) -> Option<Replica> {
    let mut copy = Replica::new(alloc, 0);
    if issue_all(&mut copy, commands) && issue_all(&mut copy, last) {
        Some(copy)
    } else {
        None
    }
}
