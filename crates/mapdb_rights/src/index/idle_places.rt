//! The places of the records without rights: an Unmap goes over them too, since something may be
//! left to revoke there.

ghost use Rattle.std.specs.Prelude.{◌≡◌, true, OnOk, Some};
ghost use Rattle.mapdb_facts.specs.Facts.{state_of_facts};
ghost use Rattle.mapdb_facts.specs.Looking.{Holds};
ghost use Rattle.mapdb_facts.specs.declared.names.RecordId.{RecordId};
ghost use Rattle.mapdb_facts.specs.declared.operations.Record.{Record};
ghost use Rattle.mapdb_lists.specs.Changes.{Cached, cached_in};
ghost use Rattle.mapdb_lists.specs.Listing.{is_listed};
ghost use Rattle.mapdb_lists.specs.declared.places.Listed.{Listed};
ghost use Rattle.mapdb_rights.specs.Following.{AreListed};
ghost use Rattle.mapdb_rights.specs.HeldPlaces.{place_of};
ghost use Rattle.mapdb_rights.specs.IdlePlaces.{HasIdle, HasIdleBut, IsNoted};
ghost use Rattle.mapdb_rights.specs.LivePlaces.{HasSome};
ghost use Rattle.mapdb_rights.specs.Meeting.{is_named};

use super::listing::{list_place, place_of};
use mapdb_facts::{Facts, Record, RecordId};
use mapdb_lists::{AllChanges, Places, add_item, has_rights};
use smallvec::SmallVec;
use std::alloc::AllocError;

/// Notes the name of a record, unless it has a right at some page. An error where memory ran out.
#[inline(always)]
pub(crate) fn note_without_rights(
    idle: &mut SmallVec<RecordId, 1>,
    changes: &AllChanges,
    mapping: &Record,
) -> Result<(), AllocError>
    ensures kept { OnOk result ((id : RecordId) → is_named idle.old.items id ≡ true
        → is_named idle.new.items id ≡ true) }
    ensures noted { OnOk result (IsNoted (cached_in changes.now.own.entries) idle.new.items
        mapping.now.id) }
{
    if has_rights(changes, mapping.id) {
        return Ok(());
    }
    add_item(idle, mapping.id)
}

/// The same where it may be known that the record has a right: then nothing is looked up.
#[inline(always)]
pub(crate) fn note_unless_known(
    idle: &mut SmallVec<RecordId, 1>,
    changes: &AllChanges,
    mapping: &Record,
    has_some: bool,
) -> Result<(), AllocError>
    requires { has_some ≡ true → HasSome (cached_in changes.now.own.entries mapping.now.id) }
    ensures kept { OnOk result ((id : RecordId) → is_named idle.old.items id ≡ true
        → is_named idle.new.items id ≡ true) }
    ensures noted { OnOk result (IsNoted (cached_in changes.now.own.entries) idle.new.items
        mapping.now.id) }
{
    if has_some {
        return Ok(());
    }
    note_without_rights(idle, changes, mapping)
}

/// Notes the names of all held records without rights. An error where memory ran out.
#[cold]
pub(crate) fn note_all_without_rights(
    idle: &mut SmallVec<RecordId, 1>,
    changes: &AllChanges,
    facts: &Facts,
) -> Result<(), AllocError>
    ensures { OnOk result ((r : Record) → Holds (state_of_facts facts.now) r
        → IsNoted (cached_in changes.now.own.entries) idle.new.items r.id) }
{
    for mapping in facts.records() {
        note_without_rights(idle, changes, &mapping)?;
    }
    Ok(())
}

/// Lists the place of the record that is held under a name, where there is one.
fn list_under(listed: &mut Places, facts: &Facts, id: RecordId) -> Result<(), AllocError>
    requires { AreListed (state_of_facts facts.now) listed.old }
    ensures listed { OnOk result (AreListed (state_of_facts facts.now) listed.new) }
    ensures kept { OnOk result ((e : Listed) → is_listed listed.old e ≡ true
        → is_listed listed.new e ≡ true) }
    ensures there { OnOk result ((r : Record) → (state_of_facts facts.now).record_at id ≡ Some r
        → is_listed listed.new (place_of r) ≡ true) }
{
    match facts.record(id) {
        Some(mapping) => list_place(listed, place_of(&mapping)),
        None => Ok(()),
    }
}

/// Lists the places of the records whose names are noted. An error where memory ran out.
#[inline(always)]
pub(crate) fn list_idle(
    listed: &mut Places,
    facts: &Facts,
    names: &[RecordId],
) -> Result<(), AllocError>
    requires { AreListed (state_of_facts facts.now) listed.old }
    ensures listed { OnOk result (AreListed (state_of_facts facts.now) listed.new) }
    ensures idle { OnOk result ((cached : Cached)
        → HasIdleBut (state_of_facts facts.now) cached names.now listed.old
        → HasIdle (state_of_facts facts.now) cached listed.new) }
{
    for id in names {
        list_under(listed, facts, *id)?;
    }
    Ok(())
}
