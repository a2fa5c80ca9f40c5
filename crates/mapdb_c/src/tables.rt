//! The translation table of a copy, into the caller's array.

ghost use Rattle.std.specs.Prelude.{◌≡◌, map};
ghost use Rattle.std.specs.declared.option.Option.TheVariants.{None, Some};
ghost use Rattle.mapdb_replica.specs.Replica.{Log};
ghost use Rattle.mapdb_table.specs.Table.{table};
ghost use Rattle.mapdb_c.specs.Filling.{Fills};
ghost use Rattle.mapdb_c.specs.RawRows.{raw_row};
ghost use Rattle.mapdb_c.specs.StatusNumbers.{Tells, status_number};
ghost use Rattle.mapdb_c.specs.declared.statuses.Status.TheVariants as status;

use crate::filling::{ToRaw, fill};
use crate::handles::Handle;
use crate::raw_places::{RawSpace, raw_space};
use crate::statuses::Status;
use mapdb_replica::Replica;
use mapdb_table::{TableRow, build_plain};
use std::alloc::Global;

/// Pages of a space, one behind the other, that are served from frames that rise by one, with equal
/// rights, 40 bytes.
#[repr(C)]
#[derive(Clone, Copy)]
pub struct RawRow {
    /// The space.
    pub space: RawSpace,
    /// The first of the pages, by its number.
    pub page: u64,
    /// How many pages there are.
    pub count: u64,
    /// The frame that the first page is served from, by its number.
    pub frame: u64,
    /// The rights: 4 to read, 2 to write, 1 to execute, added up.
    pub rights: u32,
    /// Nothing.
    pub reserved: u32,
}

impl ToRaw for TableRow {
    type Raw = RawRow;

    ghost raw = { raw_row };

    fn to_raw(&self) -> RawRow {
        RawRow {
            space: raw_space(self.space),
            page: self.page,
            count: self.count,
            frame: self.frame,
            rights: self.rights.bits() as u32,
            reserved: 0,
        }
    }
}

/// Writes the table of a copy into the caller's array.
#[tactic(auto, using(crate::proofs::GivingTold::fills, crate::proofs::GivingTold::fills_none))]
fn table_at(alloc: Global, replica: &Replica, room: &mut [RawRow], count: &mut u64) -> Status
    ensures { Fills (map raw_row (table replica.now.ops))
        result room.old room.new count.old count.new }
{
    match build_plain(alloc, replica) {
        Ok(rows) => fill(rows.as_slice(), room, count),
        Err(_) => Status::Memory,
    }
}

/// Writes the translation table of the copy into the caller's array.
#[unsafe(no_mangle)]
pub extern "C" fn mapdb_table(
    alloc: Global,
    handle: &mut Handle,
    room: &mut [RawRow],
    count: &mut u64,
) -> u32
    ensures kept { handle.new.held ≡ handle.old.held }
    ensures none { handle.old.held ≡ None
        → (result ≡ status_number status.NoCopy) × (room.new ≡ room.old) × (count.new ≡ count.old) }
    ensures table { (log : Log) → handle.old.held ≡ Some log
        → Tells result (λ answer. Fills (map raw_row (table log.ops))
        answer room.old room.new count.old count.new) }
{
    let Some(replica) = handle.take(alloc) else {
        return Status::NoCopy.number();
    };
    let answer = table_at(alloc, &*replica, room, count);
    handle.put(replica);
    answer.number()
}
