//! Commands, and what they are made of.

use mapdb_facts::{RecordId, Space};
use mapdb_fpage::{Fpage, MapItem, Rights};
use mapdb_replica::Command;

/// The space of this number.
pub fn space(number: u16) -> Space {
    Space::first(number)
}

/// The name of a record of processor 0.
pub fn id(number: u64) -> RecordId {
    RecordId::saturating(number, 0)
}

/// The rights of these bits, which are a set of rights.
pub fn rights(bits: u8) -> Rights {
    Rights::from_bits(bits).unwrap_or(Rights::NONE)
}

/// The place of `2^order` bytes from an address on, which is one; nil where it is not.
pub fn place(address: u64, order: u8) -> Option<Fpage> {
    Fpage::new(address, order).ok()
}

/// Maps `2^order` bytes from an address of one space to one of another.
pub fn map((from, source): (u16, u64), (to, target): (u16, u64), order: u8, bits: u8) -> Command {
    Command::Map {
        sender: space(from),
        item: MapItem {
            send_base: 0,
            page: place(source, order),
            rights: rights(bits),
        },
        receiver: space(to),
        window: place(target, order),
    }
}

/// Unmaps `2^order` bytes of a space, which keeps its own.
pub fn unmap(number: u16, address: u64, order: u8, bits: u8) -> Command {
    Command::Unmap {
        space: space(number),
        page: place(address, order),
        rights: rights(bits),
        flush: false,
    }
}

/// The end of a space.
pub fn end(number: u16) -> Command {
    Command::End {
        space: space(number),
    }
}
