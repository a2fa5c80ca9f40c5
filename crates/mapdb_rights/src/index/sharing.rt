//! The records of an owner that share pages with a place, found among what is listed.

ghost use Rattle.std.specs.Prelude.{◌≡◌, ◌+◌, true, All, IfOk, OnOk, filter};
ghost use Rattle.std.specs.List.{filter_map};
ghost use Rattle.std.specs.List.Sorted.{IsStrictlySortedBy};
ghost use Rattle.mapdb_fpage.specs.Place.{page_total};
ghost use Rattle.mapdb_facts.specs.Facts.{records_of_facts, state_of_facts};
ghost use Rattle.mapdb_facts.specs.Kept.{id_cmp};
ghost use Rattle.mapdb_facts.specs.Looking.{Holds};
ghost use Rattle.mapdb_facts.specs.Merging.{IsNamed};
ghost use Rattle.mapdb_facts.specs.WellFormed.{IsFormedRecord};
ghost use Rattle.mapdb_facts.specs.declared.names.RecordId.{RecordId};
ghost use Rattle.mapdb_facts.specs.declared.operations.Record.{Record};
ghost use Rattle.mapdb_lists.specs.Listing.{AllAligned, is_listed, meets};
ghost use Rattle.mapdb_lists.specs.OwnPlaces.{AreAligned, own_list, own_meets, stands};
ghost use Rattle.mapdb_lists.specs.declared.own_place.OwnPlace.{OwnPlace};
ghost use Rattle.mapdb_lists.specs.declared.places.Listed.{Listed};
ghost use Rattle.mapdb_rights.specs.AllBut.{IsAllBut};
ghost use Rattle.mapdb_rights.specs.Meeting.{IsUnnamed, is_named, record_if, shares_part};

use mapdb_facts::{Facts, Record, RecordId};
use mapdb_fpage::Fpage;
use mapdb_lists::{Owner, Places, add_item};
use smallvec::SmallVec;
use std::alloc::{AllocError, Global};

/// Adds the names of all entries of the owner that meet the pages of a place.
pub(crate) fn add_names(
    names: &mut SmallVec<RecordId, 1>,
    listed: &Places,
    owner: Owner,
    part: &Fpage,
) -> Result<(), AllocError>
    requires { AllAligned listed.now }
    ensures kept { OnOk result ((id : RecordId) → is_named names.old.items id ≡ true
        → is_named names.new.items id ≡ true) }
    ensures named { OnOk result ((e : Listed) → is_listed listed.now e ≡ true → e.owner ≡ owner
        → meets e part.now.first_page (part.now.first_page + page_total part.now) ≡ true
        → is_named names.new.items e.id ≡ true) }
{
    match listed.own(owner) {
        Some(own) => own.add_names(names, part.first_page(), part.end()),
        None => Ok(()),
    }
}

/// Puts names in ascending order, each once. Mostly there is one, or none.
fn put_in_order(names: &mut SmallVec<RecordId, 1>)
    ensures ordered { IsStrictlySortedBy id_cmp names.new.items }
    ensures kept { (id : RecordId) → is_named names.old.items id ≡ true
        → is_named names.new.items id ≡ true }
{
    if names.len() < 2 {
        return;
    }
    names.as_mut_slice().sort_unstable();
    names.dedup();
}

/// Whether the record is the owner's and shares pages with the place: a space's by its place, a
/// record's by its source.
fn shares(owner: &Owner, part: &Fpage, mapping: &Record) -> bool
    requires { IsFormedRecord mapping.now }
    ensures { result ≡ shares_part owner.now part.now mapping.now }
{
    match owner {
        Owner::Space(space) => mapping.space.is(*space) && mapping.place.meet(part).is_some(),
        Owner::Record(parent) => {
            let source = mapping.place.moved_to(mapping.source);
            mapping.parent.is(*parent) && source.meet(part).is_some()
        }
    }
}

/// The record of a name, where it is the owner's and shares pages with the place.
fn record_sharing(facts: &Facts, owner: &Owner, part: &Fpage, id: RecordId) -> Option<Record>
    ensures { result
        ≡ record_if (shares_part owner.now part.now) ((state_of_facts facts.now).record_at id) }
{
    match facts.record(id) {
        Some(mapping) if shares(owner, part, &mapping) => Some(mapping),
        _ => None,
    }
}

/// Of the records of these names, those that are the owner's and share pages with the place, in the
/// order of the names.
fn named_sharing(
    alloc: Global,
    names: &[RecordId],
    facts: &Facts,
    owner: &Owner,
    part: &Fpage,
) -> Result<SmallVec<Record, 1>, AllocError>
    ensures { IfOk result (λ found. found.items ≡ filter_map
        (λ id. record_if (shares_part owner.now part.now) ((state_of_facts facts.now).record_at id))
        names.now) }
{
    let mut found = SmallVec::new(alloc);
    found.reserve_exact(names.len())?;
    for id in names {
        if let Some(mapping) = record_sharing(facts, owner, part, *id) {
            add_item(&mut found, mapping)?;
        }
    }
    Ok(found)
}

/// All records that are the owner's and share pages with the place, in ascending order of name, but
/// for those whose names are not among these.
pub(crate) fn all_sharing(
    alloc: Global,
    names: &mut SmallVec<RecordId, 1>,
    facts: &Facts,
    owner: Owner,
    part: &Fpage,
) -> Result<SmallVec<Record, 1>, AllocError>
    requires named { IsNamed (state_of_facts facts.now) }
    requires formed { (r : Record) → Holds (state_of_facts facts.now) r → IsFormedRecord r }
    ensures sharing { IfOk result (λ found.
        IsAllBut (IsUnnamed (state_of_facts facts.now) names.old.items owner part.now)
        (filter (shares_part owner part.now) (records_of_facts facts.now)) found.items) }
    ensures formed { IfOk result (λ found. All IsFormedRecord found.items) }
{
    put_in_order(names);
    named_sharing(alloc, names.as_slice(), facts, &owner, part)
}
