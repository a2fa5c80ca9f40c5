//! What a copy gives into the caller's array: operations between marks, and the rights of a page.

ghost use Rattle.std.specs.Prelude.{◌≡◌, map};
ghost use Rattle.std.specs.declared.option.Option.TheVariants.{None, Some};
ghost use Rattle.std.specs.declared.result.Result.TheVariants.{Err, Ok};
ghost use Rattle.mapdb_facts.specs.declared.names.Space.{Space};
ghost use Rattle.mapdb_replica.specs.Giving.{given};
ghost use Rattle.mapdb_replica.specs.Pairs.{page_rights};
ghost use Rattle.mapdb_replica.specs.Replica.{Log};
ghost use Rattle.mapdb_c.specs.Asking.{found_of};
ghost use Rattle.mapdb_c.specs.Filling.{Fills};
ghost use Rattle.mapdb_c.specs.Giving.{GivesAs, give_status};
ghost use Rattle.mapdb_c.specs.RawPlaces.{space_given};
ghost use Rattle.mapdb_c.specs.StatusNumbers.{Tells, status_number};
ghost use Rattle.mapdb_c.specs.declared.statuses.Status.{Status};
ghost use Rattle.mapdb_c.specs.declared.statuses.Status.TheVariants as status;

use crate::asking::Found;
use crate::filling::fill;
use crate::handles::Handle;
use crate::operations::RawOperation;
use crate::raw_places::{RawSpace, space_of};
use crate::statuses::Status;
use mapdb_facts::Space;
use mapdb_replica::{GiveFault, Replica};
use std::alloc::Global;

/// The status of operations that are not given.
fn give_status(fault: GiveFault) -> Status
    ensures { result ≡ give_status fault }
{
    match fault {
        GiveFault::BadMark => Status::BadMark,
        GiveFault::Memory => Status::Memory,
    }
}

/// Writes the operations that a copy holds between two marks into the caller's array.
#[tactic(auto, using(crate::proofs::GivingTold::gives, crate::proofs::GivingTold::gives_none))]
fn give_at(
    replica: &Replica,
    first: u32,
    end: u32,
    room: &mut [RawOperation],
    count: &mut u64,
) -> Status
    ensures { GivesAs (given replica.now.ops first end)
        result room.old room.new count.old count.new }
{
    match replica.give(first, end) {
        Ok(ops) => fill(ops.as_slice(), room, count),
        Err(fault) => give_status(fault),
    }
}

/// Writes the operations that a copy has issued between two marks into the caller's array.
#[tactic(auto, using(crate::proofs::GivingTold::gives, crate::proofs::GivingTold::gives_none))]
fn give_own_at(
    replica: &Replica,
    first: u32,
    end: u32,
    room: &mut [RawOperation],
    count: &mut u64,
) -> Status
    ensures { GivesAs (given replica.now.own first end)
        result room.old room.new count.old count.new }
{
    match replica.give_own(first, end) {
        Ok(ops) => fill(ops.as_slice(), room, count),
        Err(fault) => give_status(fault),
    }
}

/// Writes the rights of a page at a copy into the caller's array.
#[tactic(auto, using(crate::proofs::GivingTold::fills, crate::proofs::GivingTold::fills_none))]
fn rights_at(
    replica: &Replica,
    space: Space,
    page: u64,
    room: &mut [Found],
    count: &mut u64,
) -> Status
    ensures { Fills (map found_of (page_rights replica.now.ops space page))
        result room.old room.new count.old count.new }
{
    match replica.rights(space, page) {
        Ok(pairs) => fill(pairs.as_slice(), room, count),
        Err(_) => Status::Memory,
    }
}

/// Writes the operations that the copy holds, in order of arrival, from the mark `first` on up to
/// before the mark `end`, into the caller's array.
#[unsafe(no_mangle)]
pub extern "C" fn mapdb_give(
    alloc: Global,
    handle: &mut Handle,
    first: u32,
    end: u32,
    room: &mut [RawOperation],
    count: &mut u64,
) -> u32
    ensures kept { handle.new.held ≡ handle.old.held }
    ensures none { handle.old.held ≡ None
        → (result ≡ status_number status.NoCopy) × (room.new ≡ room.old) × (count.new ≡ count.old) }
    ensures gives { (log : Log) → handle.old.held ≡ Some log
        → Tells result (λ answer. GivesAs (given log.ops first end)
        answer room.old room.new count.old count.new) }
{
    let Some(replica) = handle.take(alloc) else {
        return Status::NoCopy.number();
    };
    let answer = give_at(&*replica, first, end, room, count);
    handle.put(replica);
    answer.number()
}

/// Writes the operations that the copy has issued, in order, from the mark `first` on up to before
/// the mark `end`, into the caller's array.
#[unsafe(no_mangle)]
pub extern "C" fn mapdb_give_own(
    alloc: Global,
    handle: &mut Handle,
    first: u32,
    end: u32,
    room: &mut [RawOperation],
    count: &mut u64,
) -> u32
    ensures kept { handle.new.held ≡ handle.old.held }
    ensures none { handle.old.held ≡ None
        → (result ≡ status_number status.NoCopy) × (room.new ≡ room.old) × (count.new ≡ count.old) }
    ensures gives { (log : Log) → handle.old.held ≡ Some log
        → Tells result (λ answer. GivesAs (given log.own first end)
        answer room.old room.new count.old count.new) }
{
    let Some(replica) = handle.take(alloc) else {
        return Status::NoCopy.number();
    };
    let answer = give_own_at(&*replica, first, end, room, count);
    handle.put(replica);
    answer.number()
}

/// Writes each frame that a page of a space has some right to, with its rights, ascending by frame,
/// into the caller's array.
#[unsafe(no_mangle)]
pub extern "C" fn mapdb_rights(
    alloc: Global,
    handle: &mut Handle,
    space: RawSpace,
    page: u64,
    room: &mut [Found],
    count: &mut u64,
) -> u32
    ensures kept { handle.new.held ≡ handle.old.held }
    ensures refused { (why : Status) → space_given space ≡ Err why
        → (result ≡ status_number why) × (room.new ≡ room.old) × (count.new ≡ count.old) }
    ensures none { (named : Space) → space_given space ≡ Ok named → handle.old.held ≡ None
        → (result ≡ status_number status.NoCopy) × (room.new ≡ room.old) × (count.new ≡ count.old) }
    ensures rights { (named : Space) (log : Log) → space_given space ≡ Ok named
        → handle.old.held ≡ Some log
        → Tells result (λ answer. Fills (map found_of (page_rights log.ops named page))
        answer room.old room.new count.old count.new) }
{
    let space = match space_of(space) {
        Ok(space) => space,
        Err(why) => return why.number(),
    };
    let Some(replica) = handle.take(alloc) else {
        return Status::NoCopy.number();
    };
    let answer = rights_at(&*replica, space, page, room, count);
    handle.put(replica);
    answer.number()
}
