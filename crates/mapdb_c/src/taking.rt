//! Taking operations that other copies issued.

ghost use Rattle.std.specs.Prelude.{◌≡◌};
ghost use Rattle.std.specs.declared.option.Option.TheVariants.{None, Some};
ghost use Rattle.mapdb_replica.specs.Replica.{Log};
ghost use Rattle.mapdb_c.specs.StatusNumbers.{Tells, status_number};
ghost use Rattle.mapdb_c.specs.Taking.{TakesAs, TakesGiven, part_taken, take_fault_told};
ghost use Rattle.mapdb_c.specs.Taking.{take_status, taken_with, unread_told};
ghost use Rattle.mapdb_c.specs.declared.statuses.Status.TheVariants as status;

use crate::faults::op_status;
use crate::handles::Handle;
use crate::operations::RawOperation;
use crate::reading::{Unread, operations_of};
use crate::statuses::Status;
use mapdb_facts::Op;
use mapdb_replica::{Replica, TakeFault};
use std::alloc::Global;

/// What became of a batch, 32 bytes.
#[repr(C)]
#[derive(Clone, Copy)]
pub struct Taken {
    /// How many operations were new to the copy, where the batch was taken. 0 where memory ran out,
    /// though some stand then.
    pub count: u64,
    /// Of a bad operation its place in the batch, counted from 0; where memory ran out, of how
    /// many first operations of the batch what is new stands, which are not all.
    pub place: u64,
    /// Of a clash the number of the name, 0 otherwise.
    pub number: u64,
    /// Of a clash the processor of the name, 0 otherwise.
    pub processor: u32,
    /// Nothing.
    pub reserved: u32,
}

/// So many operations were new.
pub fn taken_with(count: u64) -> Taken
    ensures { result ≡ taken_with count }
{
    Taken {
        count,
        place: 0,
        number: 0,
        processor: 0,
        reserved: 0,
    }
}

/// A place of the batch.
fn part_taken(place: u64) -> Taken
    ensures { result ≡ part_taken place }
{
    Taken {
        count: 0,
        place,
        number: 0,
        processor: 0,
        reserved: 0,
    }
}

/// What is told of a batch that was not taken, or not all of it.
fn take_fault_told(fault: &TakeFault) -> Taken
    ensures { result ≡ take_fault_told fault.now }
{
    match fault {
        TakeFault::Bad(place, _) => part_taken(*place as u64),
        TakeFault::Clash(id) => Taken {
            count: 0,
            place: 0,
            number: id.number(),
            processor: id.processor() as u32,
            reserved: 0,
        },
        TakeFault::Full => taken_with(0),
        TakeFault::Memory { taken } => part_taken(*taken as u64),
    }
}

/// The status of a batch that was not taken, or not all of it.
fn take_status(fault: TakeFault) -> Status
    ensures { result ≡ take_status fault }
{
    match fault {
        TakeFault::Bad(_, why) => op_status(why),
        TakeFault::Clash(_) => Status::Clash,
        TakeFault::Full => Status::Full,
        TakeFault::Memory { taken: _ } => Status::Memory,
    }
}

/// Takes a batch at a copy, and tells what became of it.
#[tactic(auto, using(crate::proofs::TakingTold::taking_told))]
pub fn take_at(replica: &mut Replica, batch: &[Op], taken: &mut Taken) -> Status
    ensures { TakesAs batch.now result taken.new replica.old replica.new }
{
    match replica.take(batch) {
        Ok(count) => {
            *taken = taken_with(count as u64);
            Status::Done
        }
        Err(fault) => {
            *taken = take_fault_told(&fault);
            take_status(fault)
        }
    }
}

/// What is told where an operation of C's is none, or memory ran out to read them.
fn unread_told(unread: Unread) -> Taken
    ensures { result ≡ unread_told unread }
{
    match unread {
        Unread::Bad(_, place) => part_taken(place as u64),
        Unread::Memory => taken_with(0),
    }
}

/// Takes a batch of C's at a copy, and tells what became of it.
fn take_given(
    alloc: Global,
    replica: &mut Replica,
    operations: &[RawOperation],
    taken: &mut Taken,
) -> Status
    ensures { TakesGiven operations.now result taken.new replica.old replica.new }
{
    match operations_of(alloc, operations) {
        Ok(batch) => take_at(replica, batch.as_slice(), taken),
        Err(unread) => {
            *taken = unread_told(unread);
            unread.status()
        }
    }
}

/// Takes operations of other copies, as one batch.
#[unsafe(no_mangle)]
pub extern "C" fn mapdb_take(
    alloc: Global,
    handle: &mut Handle,
    operations: &[RawOperation],
    taken: &mut Taken,
) -> u32
    ensures stays { handle.new.held ≡ None → handle.old.held ≡ None }
    ensures none { handle.old.held ≡ None
        → (result ≡ status_number status.NoCopy) × (taken.new ≡ taken.old)
        × (handle.new.held ≡ None) }
    ensures takes { (log after : Log) → handle.old.held ≡ Some log → handle.new.held ≡ Some after
        → Tells result (λ answer. TakesGiven operations.now answer taken.new log after) }
{
    let Some(mut replica) = handle.take(alloc) else {
        return Status::NoCopy.number();
    };
    let answer = take_given(alloc, &mut *replica, operations, taken);
    handle.put(replica);
    answer.number()
}
