//! Snapshots of a copy: out into the caller's array, and in.

ghost use Rattle.std.specs.Prelude.{◌≡◌};
ghost use Rattle.std.specs.declared.option.Option.TheVariants.{None, Some};
ghost use Rattle.mapdb_replica.specs.Replica.{Log};
ghost use Rattle.mapdb_snapshot.specs.Snapshot.{snapshot_text};
ghost use Rattle.mapdb_c.specs.Filling.{Fills};
ghost use Rattle.mapdb_c.specs.Loading.{LoadsAs, text_status};
ghost use Rattle.mapdb_c.specs.StatusNumbers.{Tells, status_number};
ghost use Rattle.mapdb_c.specs.Taking.{taken_with};
ghost use Rattle.mapdb_c.specs.declared.statuses.Status.TheVariants as status;

use crate::faults::place_status;
use crate::filling::{ToRaw, fill};
use crate::handles::Handle;
use crate::statuses::Status;
use crate::taking::{Taken, take_at, taken_with};
use mapdb_replica::Replica;
use mapdb_snapshot::{SnapshotFault, snapshot_read, snapshot_text};
use std::alloc::Global;

/// The status of a text that is no snapshot.
fn text_status(fault: SnapshotFault) -> Status
    ensures { result ≡ text_status fault }
{
    match fault {
        SnapshotFault::NotJson => Status::NotJson,
        SnapshotFault::Shape => Status::SnapshotShape,
        SnapshotFault::Version => Status::SnapshotVersion,
        SnapshotFault::Page(why) => place_status(why),
        SnapshotFault::Memory => Status::Memory,
    }
}

impl ToRaw for u8 {
    type Raw = u8;

    ghost raw = { λ byte. byte };

    /// The byte of a text, which goes out as it is.
    fn to_raw(&self) -> u8 {
        *self
    }
}

/// Writes the snapshot of a copy into the caller's array.
#[tactic(auto, using(crate::proofs::GivingTold::fills, crate::proofs::GivingTold::fills_none))]
fn snapshot_at(alloc: Global, replica: &Replica, room: &mut [u8], count: &mut u64) -> Status
    ensures { Fills (snapshot_text replica.now.ops) result room.old room.new count.old count.new }
{
    match snapshot_text(alloc, replica) {
        Ok(text) => fill(text.as_bytes(), room, count),
        Err(_) => Status::Memory,
    }
}

/// Writes the snapshot of the copy into the caller's array.
#[unsafe(no_mangle)]
pub extern "C" fn mapdb_snapshot(
    alloc: Global,
    handle: &mut Handle,
    room: &mut [u8],
    count: &mut u64,
) -> u32
    ensures kept { handle.new.held ≡ handle.old.held }
    ensures none { handle.old.held ≡ None
        → (result ≡ status_number status.NoCopy) × (room.new ≡ room.old) × (count.new ≡ count.old) }
    ensures text { (log : Log) → handle.old.held ≡ Some log
        → Tells result (λ answer. Fills (snapshot_text log.ops)
        answer room.old room.new count.old count.new) }
{
    let Some(replica) = handle.take(alloc) else {
        return Status::NoCopy.number();
    };
    let answer = snapshot_at(alloc, &*replica, room, count);
    handle.put(replica);
    answer.number()
}

/// Takes what a snapshot says at a copy, and tells what became of it.
#[tactic(auto, using(crate::proofs::LoadingTold::not_read))]
fn load_at(alloc: Global, replica: &mut Replica, text: &[u8], taken: &mut Taken) -> Status
    ensures { LoadsAs text.now result taken.new replica.old replica.new }
{
    match snapshot_read(alloc, text) {
        Ok(batch) => take_at(replica, batch.as_slice(), taken),
        Err(why) => {
            *taken = taken_with(0);
            text_status(why)
        }
    }
}

/// Takes what a snapshot says, as one batch.
#[unsafe(no_mangle)]
pub extern "C" fn mapdb_load(
    alloc: Global,
    handle: &mut Handle,
    text: &[u8],
    taken: &mut Taken,
) -> u32
    ensures stays { handle.new.held ≡ None → handle.old.held ≡ None }
    ensures none { handle.old.held ≡ None
        → (result ≡ status_number status.NoCopy) × (taken.new ≡ taken.old)
        × (handle.new.held ≡ None) }
    ensures loads { (log after : Log) → handle.old.held ≡ Some log → handle.new.held ≡ Some after
        → Tells result (λ answer. LoadsAs text.now answer taken.new log after) }
{
    let Some(mut replica) = handle.take(alloc) else {
        return Status::NoCopy.number();
    };
    let answer = load_at(alloc, &mut *replica, text, taken);
    handle.put(replica);
    answer.number()
}
