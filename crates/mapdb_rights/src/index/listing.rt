//! Which places are listed: the source of each held record, and the place of one without rights, as
//! far as something is left to revoke there.

ghost use Rattle.std.specs.Prelude.{◌≡◌, ◌⊎◌, ◌∷◌, [], true, OnOk, Some};
ghost use Rattle.mapdb_fpage.specs.Place.{IsPlace};
ghost use Rattle.mapdb_facts.specs.Facts.{state_of_facts};
ghost use Rattle.mapdb_facts.specs.Looking.{Holds};
ghost use Rattle.mapdb_facts.specs.Merging.{IsNamed};
ghost use Rattle.mapdb_facts.specs.State.{State, join, said};
ghost use Rattle.mapdb_facts.specs.WellFormed.{IsFormedRecord};
ghost use Rattle.mapdb_facts.specs.declared.operations.Op.{Op};
ghost use Rattle.mapdb_facts.specs.declared.operations.Record.{Record};
ghost use Rattle.mapdb_lists.specs.Changes.{Cached};
ghost use Rattle.mapdb_lists.specs.Listing.{AllAligned, IsAligned, is_listed};
ghost use Rattle.mapdb_lists.specs.declared.places.Listed.{Listed};
ghost use Rattle.mapdb_rights.specs.Following.{AreListed, WereListed};
ghost use Rattle.mapdb_rights.specs.HeldPlaces.{AreOfHeld, HasSource, place_of, source_of};
ghost use Rattle.mapdb_rights.specs.IdlePlaces.{HasIdle, HasIdleBut};
ghost use Rattle.mapdb_rights.specs.Revoked.{IsRevoked};

use super::unlisting::is_revoked;
use mapdb_facts::{Facts, Record, RecordId};
use mapdb_lists::{Listed, Owner, Places};
use std::alloc::AllocError;

/// A record's place, which stands under its space.
pub(crate) fn place_of(mapping: &Record) -> Listed
    ensures is { result ≡ place_of mapping.now }
    ensures place { IsPlace mapping.now.place }
    ensures aligned { IsAligned result }
{
    Listed {
        owner: Owner::Space(mapping.space),
        order: mapping.place.order(),
        first: mapping.place.first_page(),
        id: mapping.id,
    }
}

/// A record's source, which stands under its parent.
pub(crate) fn source_of(mapping: &Record) -> Listed
    ensures is { result ≡ source_of mapping.now }
    ensures place { IsPlace mapping.now.place }
    ensures aligned { IsFormedRecord mapping.now → IsAligned result }
{
    Listed {
        owner: Owner::Record(mapping.parent),
        order: mapping.place.order(),
        first: mapping.source,
        id: mapping.id,
    }
}

/// Lists one place more.
#[inline(always)]
pub(crate) fn list_place(listed: &mut Places, place: Listed) -> Result<(), AllocError>
    requires place { IsAligned place }
    requires aligned { AllAligned listed.old }
    ensures aligned { OnOk result (AllAligned listed.new) }
    ensures there { OnOk result (is_listed listed.new place ≡ true) }
    ensures kept { OnOk result ((other : Listed) → is_listed listed.old other ≡ true
        → is_listed listed.new other ≡ true) }
    ensures no_more { OnOk result ((other : Listed) → is_listed listed.new other ≡ true
        → (other ≡ place) ⊎ (is_listed listed.old other ≡ true)) }
{
    listed.insert(place)?;
    Ok(())
}

/// Lists the source of a record for its parent, which may be held or not.
fn list_source(listed: &mut Places, mapping: &Record) -> Result<(), AllocError>
    requires formed { IsFormedRecord mapping.now }
    requires aligned { AllAligned listed.old }
    ensures aligned { OnOk result (AllAligned listed.new) }
    ensures there { OnOk result (HasSource listed.new mapping.now) }
    ensures kept { OnOk result ((other : Listed) → is_listed listed.old other ≡ true
        → is_listed listed.new other ≡ true) }
    ensures no_more { OnOk result ((other : Listed) → is_listed listed.new other ≡ true
        → (other ≡ source_of mapping.now) ⊎ (is_listed listed.old other ≡ true)) }
{
    list_place(listed, source_of(mapping))
}

/// Lists the source of the record that is held under a name, where there is one. Each held record
/// stands under its own name and is well-formed.
fn list_held(listed: &mut Places, facts: &Facts, id: RecordId) -> Result<(), AllocError>
    requires aligned { AllAligned listed.old }
    requires held { AreOfHeld (state_of_facts facts.now) listed.old }
    ensures aligned { OnOk result (AllAligned listed.new) }
    ensures there { OnOk result ((r : Record) → (state_of_facts facts.now).record_at id ≡ Some r
        → HasSource listed.new r) }
    ensures kept { OnOk result ((other : Listed) → is_listed listed.old other ≡ true
        → is_listed listed.new other ≡ true) }
    ensures held { OnOk result (AreOfHeld (state_of_facts facts.now) listed.new) }
    ensures held_named { IsNamed (state_of_facts facts.now) }
    ensures held_formed { (r : Record) → Holds (state_of_facts facts.now) r → IsFormedRecord r }
{
    match facts.record(id) {
        Some(mapping) => list_source(listed, &mapping),
        None => Ok(()),
    }
}

/// Lists the place of a new child's parent again, where it may be missing: where the parent is held
/// and revoked. There may be something to revoke below it now.
fn list_parent(listed: &mut Places, facts: &Facts, parent: RecordId) -> Result<(), AllocError>
    requires aligned { AllAligned listed.old }
    requires held { AreOfHeld (state_of_facts facts.now) listed.old }
    ensures aligned { OnOk result (AllAligned listed.new) }
    ensures there { OnOk result ((p : Record)
        → (state_of_facts facts.now).record_at parent ≡ Some p
        → IsRevoked (state_of_facts facts.now) p → is_listed listed.new (place_of p) ≡ true) }
    ensures kept { OnOk result ((other : Listed) → is_listed listed.old other ≡ true
        → is_listed listed.new other ≡ true) }
    ensures held { OnOk result (AreOfHeld (state_of_facts facts.now) listed.new) }
{
    match facts.record(parent) {
        Some(mapping) if is_revoked(facts, &mapping) => list_place(listed, place_of(&mapping)),
        _ => Ok(()),
    }
}

/// Lists the source of a record that came, and the place of its parent again where it may be
/// missing. Its own place is not listed: it may have rights.
pub(crate) fn list_came(
    listed: &mut Places,
    facts: &Facts,
    mapping: &Record,
) -> Result<(), AllocError>
    requires { WereListed listed.old (Op.Born mapping.now) (state_of_facts facts.now) }
    ensures listed { OnOk result (AreListed (state_of_facts facts.now) listed.new) }
    ensures idle { OnOk result ((before : State) (cached : Cached)
        → state_of_facts facts.now ≡ join before (said (Op.Born mapping.now))
        → HasIdle before cached listed.old
        → HasIdleBut (state_of_facts facts.now) cached (mapping.now.id ∷ []) listed.new) }
{
    list_held(listed, facts, mapping.id)?;
    list_parent(listed, facts, mapping.parent)?;
    Ok(())
}

/// Lists the source of each held record.
#[cold]
pub(crate) fn list_sources(listed: &mut Places, facts: &Facts) -> Result<(), AllocError>
    requires aligned { AllAligned listed.old }
    requires held { AreOfHeld (state_of_facts facts.now) listed.old }
    ensures listed { OnOk result (AreListed (state_of_facts facts.now) listed.new) }
    ensures all { OnOk result ((r : Record) → Holds (state_of_facts facts.now) r
        → HasSource listed.new r) }
{
    for mapping in facts.records() {
        list_source(listed, &mapping)?;
    }
    Ok(())
}
