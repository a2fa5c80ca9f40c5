//! What a copy answers of one page or one space.

ghost use Rattle.std.specs.Prelude.{◌≡◌, ◌<◌, length, OnOk};
ghost use Rattle.std.specs.declared.option.Option.TheVariants.{None, Some};
ghost use Rattle.std.specs.declared.result.Result.TheVariants.{Err, Ok};
ghost use Rattle.mapdb_facts.specs.declared.names.Space.{Space};
ghost use Rattle.mapdb_replica.specs.Replica.{Log};
ghost use Rattle.mapdb_replica.specs.Running.{IsRunEnd};
ghost use Rattle.mapdb_replica.specs.Served.{served};
ghost use Rattle.mapdb_replica.specs.Versions.{free_version};
ghost use Rattle.mapdb_c.specs.Asking.{ServesAs, found_of, space_with_page};
ghost use Rattle.mapdb_c.specs.RawPlaces.{number_within, space_given};
ghost use Rattle.mapdb_c.specs.StatusNumbers.{Tells, status_number};
ghost use Rattle.mapdb_c.specs.declared.statuses.Status.{Status};
ghost use Rattle.mapdb_c.specs.declared.statuses.Status.TheVariants as status;

use crate::filling::ToRaw;
use crate::handles::Handle;
use crate::raw_places::{RawSpace, number_within, space_of};
use crate::statuses::Status;
use mapdb_facts::Space;
use mapdb_fpage::{PAGE_LIMIT, Rights};
use mapdb_replica::Replica;
use std::alloc::Global;

/// A frame, with rights to it, 16 bytes.
#[repr(C)]
#[derive(Clone, Copy)]
pub struct Found {
    /// The frame, by its number.
    pub frame: u64,
    /// The rights: 4 to read, 2 to write, 1 to execute, added up.
    pub rights: u32,
    /// Nothing.
    pub reserved: u32,
}

impl ToRaw for (u64, Rights) {
    type Raw = Found;

    ghost raw = { found_of };

    fn to_raw(&self) -> Found {
        let (frame, rights) = *self;
        Found {
            frame,
            rights: rights.bits() as u32,
            reserved: 0,
        }
    }
}

/// What a copy serves a page from.
fn served_at(replica: &Replica, space: Space, page: u64, found: &mut Found) -> Status
    ensures { ServesAs (served replica.now.ops space page) result found.old found.new }
{
    match replica.served(space, page) {
        Some(pair) => {
            *found = pair.to_raw();
            Status::Done
        }
        None => Status::NotServed,
    }
}

/// The frame that a page of a space is served from, with its rights there.
#[unsafe(no_mangle)]
pub extern "C" fn mapdb_served(
    alloc: Global,
    handle: &mut Handle,
    space: RawSpace,
    page: u64,
    found: &mut Found,
) -> u32
    ensures kept { handle.new.held ≡ handle.old.held }
    ensures refused { (why : Status) → space_given space ≡ Err why
        → (result ≡ status_number why) × (found.new ≡ found.old) }
    ensures none { (given : Space) → space_given space ≡ Ok given → handle.old.held ≡ None
        → (result ≡ status_number status.NoCopy) × (found.new ≡ found.old) }
    ensures serves { (given : Space) (log : Log) → space_given space ≡ Ok given
        → handle.old.held ≡ Some log
        → Tells result (λ answer. ServesAs (served log.ops given page) answer found.old found.new) }
{
    let space = match space_of(space) {
        Ok(space) => space,
        Err(why) => return why.number(),
    };
    let Some(replica) = handle.take(alloc) else {
        return Status::NoCopy.number();
    };
    let answer = served_at(&*replica, space, page, found);
    handle.put(replica);
    answer.number()
}

/// The space, unless its number is too great or the page lies beyond the space.
fn space_with_page(space: RawSpace, page: u64) -> Result<Space, Status>
    ensures told { result ≡ space_with_page (space_given space) page }
    ensures within { OnOk result (page < PAGE_LIMIT) }
{
    let space = space_of(space)?;
    if page < PAGE_LIMIT {
        Ok(space)
    } else {
        Err(Status::PageOutOfSpace)
    }
}

/// One past the last page up to which what a page of a space is served from goes on from this page:
/// nothing at any of them, or frames that rise by one with each page, with equal rights.
#[unsafe(no_mangle)]
pub extern "C" fn mapdb_run_end(
    alloc: Global,
    handle: &mut Handle,
    space: RawSpace,
    page: u64,
    end: &mut u64,
) -> u32
    ensures kept { handle.new.held ≡ handle.old.held }
    ensures refused { (why : Status) → space_with_page (space_given space) page ≡ Err why
        → (result ≡ status_number why) × (end.new ≡ end.old) }
    ensures none { (given : Space) → space_with_page (space_given space) page ≡ Ok given
        → handle.old.held ≡ None
        → (result ≡ status_number status.NoCopy) × (end.new ≡ end.old) }
    ensures ends { (given : Space) (log : Log) → space_with_page (space_given space) page ≡ Ok given
        → handle.old.held ≡ Some log
        → (result ≡ status_number status.Done) × IsRunEnd (served log.ops given) page end.new }
{
    let space = match space_with_page(space, page) {
        Ok(space) => space,
        Err(why) => return why.number(),
    };
    let Some(replica) = handle.take(alloc) else {
        return Status::NoCopy.number();
    };
    *end = replica.run_end(space, page);
    handle.put(replica);
    Status::Done.number()
}

/// How many operations the copy holds, and how many of them it issued.
#[unsafe(no_mangle)]
pub extern "C" fn mapdb_counts(
    alloc: Global,
    handle: &mut Handle,
    held: &mut u32,
    own: &mut u32,
) -> u32
    ensures kept { handle.new.held ≡ handle.old.held }
    ensures none { handle.old.held ≡ None
        → (result ≡ status_number status.NoCopy) × (held.new ≡ held.old) × (own.new ≡ own.old) }
    ensures counts { (log : Log) → handle.old.held ≡ Some log
        → (result ≡ status_number status.Done) × (held.new ≡ length log.ops)
        × (own.new ≡ length log.own) }
{
    let Some(replica) = handle.take(alloc) else {
        return Status::NoCopy.number();
    };
    *held = replica.log_len();
    *own = replica.own_len();
    handle.put(replica);
    Status::Done.number()
}

/// The least version of a space of this number whose end the copy does not hold.
#[unsafe(no_mangle)]
pub extern "C" fn mapdb_free_version(
    alloc: Global,
    handle: &mut Handle,
    number: u32,
    version: &mut u32,
) -> u32
    ensures kept { handle.new.held ≡ handle.old.held }
    ensures refused { (why : Status) → number_within number ≡ Err why
        → (result ≡ status_number why) × (version.new ≡ version.old) }
    ensures none { number_within number ≡ Ok number → handle.old.held ≡ None
        → (result ≡ status_number status.NoCopy) × (version.new ≡ version.old) }
    ensures free { (log : Log) → number_within number ≡ Ok number → handle.old.held ≡ Some log
        → (result ≡ status_number status.Done) × (version.new ≡ free_version log.ops number) }
{
    let number = match number_within(number) {
        Ok(number) => number,
        Err(why) => return why.number(),
    };
    let Some(replica) = handle.take(alloc) else {
        return Status::NoCopy.number();
    };
    *version = replica.free_version(number);
    handle.put(replica);
    Status::Done.number()
}
