//! The places of the records that have a right at some page: what a question goes over. A record
//! comes there with its first right and goes with its last one.

ghost use Rattle.std.specs.Prelude.{◌≡◌, ◌⊎◌, ℕ, false, true, OnOk, Some};
ghost use Rattle.mapdb_fpage.specs.RightSets.{is_empty};
ghost use Rattle.mapdb_facts.specs.Facts.{state_of_facts};
ghost use Rattle.mapdb_facts.specs.Merging.{IsNamed};
ghost use Rattle.mapdb_facts.specs.Names.{same_id};
ghost use Rattle.mapdb_facts.specs.declared.names.RecordId.{RecordId};
ghost use Rattle.mapdb_facts.specs.declared.operations.Record.{Record};
ghost use Rattle.mapdb_lists.specs.Changes.{Cached, cached_in};
ghost use Rattle.mapdb_lists.specs.Listing.{AllAligned, is_listed};
ghost use Rattle.mapdb_lists.specs.declared.places.Listed.{Listed};
ghost use Rattle.mapdb_rights.specs.HeldPlaces.{place_of};
ghost use Rattle.mapdb_rights.specs.IdlePlaces.{StayNoted};
ghost use Rattle.mapdb_rights.specs.LivePlaces.{IsPlaceUnder, ListedLive, ListsLive};

use super::listing::{list_place, place_of};
use super::runs::has_some;
use super::stale::Stale;
use mapdb_facts::{Facts, RecordId};
use mapdb_fpage::Rights;
use mapdb_lists::{AllChanges, Places, add_item};
use smallvec::SmallVec;
use std::alloc::AllocError;

/// Lists the place of the record that is held under a name, where there is one. Each held record
/// stands under its own name.
fn list_live(live: &mut Places, facts: &Facts, id: RecordId) -> Result<(), AllocError>
    requires { AllAligned live.old }
    ensures aligned { OnOk result (AllAligned live.new) }
    ensures there { OnOk result ((r : Record) → (state_of_facts facts.now).record_at id ≡ Some r
        → is_listed live.new (place_of r) ≡ true) }
    ensures kept { OnOk result ((e : Listed) → is_listed live.old e ≡ true
        → is_listed live.new e ≡ true) }
    ensures no_more { OnOk result ((e : Listed) → is_listed live.new e ≡ true
        → IsPlaceUnder (state_of_facts facts.now) id e ⊎ (is_listed live.old e ≡ true)) }
    ensures held_named { IsNamed (state_of_facts facts.now) }
{
    match facts.record(id) {
        Some(mapping) => list_place(live, place_of(&mapping)),
        None => Ok(()),
    }
}

/// Lets go of the place of the record that is held under a name.
fn unlist_live(live: &mut Places, facts: &Facts, id: RecordId)
    ensures less { (e : Listed) → is_listed live.new e ≡ true → is_listed live.old e ≡ true }
    ensures gone { (r : Record) → (state_of_facts facts.now).record_at id ≡ Some r
        → is_listed live.new (place_of r) ≡ false }
    ensures others { (e : Listed) → same_id id e.id ≡ false → is_listed live.old e ≡ true
        → is_listed live.new e ≡ true }
{
    if let Some(mapping) = facts.record(id) {
        live.remove(place_of(&mapping));
    }
}

/// After rights of a record were written over pages: its place is listed where it had no right
/// before and has one now, and goes where it had one and has none; its name is noted then. An error
/// where memory ran out.
#[inline(always)]
pub(crate) fn follow_live(
    live: &mut Places,
    idle: &mut SmallVec<RecordId, 1>,
    changes: &AllChanges,
    facts: &Facts,
    run: Stale,
    rights: Rights,
    had_some: bool,
) -> Result<(), AllocError>
    requires written { rights ≡ cached_in changes.now.own.entries run.id run.first }
    requires before { ListedLive (state_of_facts facts.now) (cached_in changes.now.own.entries)
        live.old run.id had_some }
    ensures live { OnOk result (ListsLive (state_of_facts facts.now)
        (cached_in changes.now.own.entries) live.new) }
    ensures noted { OnOk result ((before : Cached) → (had_some ≡ false
        → (page : ℕ) → is_empty (before run.id page) ≡ true)
        → ((other : RecordId) (page : ℕ) → same_id run.id other ≡ false
        → cached_in changes.now.own.entries other page ≡ before other page)
        → StayNoted before idle.old.items (cached_in changes.now.own.entries) idle.new.items) }
{
    let has = has_some(changes, run.id, run.first, rights);
    if has == had_some {
        return Ok(());
    }
    if has {
        return list_live(live, facts, run.id);
    }
    unlist_live(live, facts, run.id);
    add_item(idle, run.id)
}
