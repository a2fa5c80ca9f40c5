//! The places of owners: those of records by name, and those of spaces by number.

ghost use Rattle.std.specs.Prelude.{◌≡◌, [], OnOk};
ghost use Rattle.std.specs.Map.{lookup};
ghost use Rattle.std.specs.Option.{option_copied};
ghost use Rattle.mapdb_facts.specs.Names.{same_id, same_space};
ghost use Rattle.mapdb_facts.specs.declared.names.RecordId.{RecordId};
ghost use Rattle.mapdb_facts.specs.declared.names.Space.{Space};
ghost use Rattle.mapdb_lists.specs.Listing.{IsPut, IsRemoved};
ghost use Rattle.mapdb_lists.specs.Owners.{same_owner};
ghost use Rattle.mapdb_lists.specs.declared.places.Owner.{Owner};

use crate::by_space::BySpace;
use crate::own_place::OwnPlace;
use crate::own_places::OwnPlaces;
use crate::places::Owner;
use mapdb_facts::{ByName, RecordId, Space};
use std::alloc::{AllocError, Global};
use std::marker::Model;

/// The places of owners, each owner's by themselves: there are many records, and few spaces.
#[derive(Drop)]
pub struct OwnersPlaces {
    records: ByName<OwnPlaces>,
    spaces: BySpace<OwnPlaces>,
    alloc: Global,
}

impl Model for OwnersPlaces {
    ghost use Rattle.mapdb_lists.specs.Owners.{PlacesByOwner, by_owner};

    ghost Value = { PlacesByOwner };

    ghost view = { λ a. by_owner a.records.entries a.spaces.entries };
}

/// Puts a place among those of a record. An error where memory ran out.
fn put_for_record(
    records: &mut ByName<OwnPlaces>,
    alloc: Global,
    id: RecordId,
    place: OwnPlace,
) -> Result<(), AllocError>
    ensures { OnOk result (IsPut RecordId same_id records.old.entries records.new.entries id
        place) }
{
    if let Some(at) = records.places.get(id) {
        return records.values[at].insert(alloc, place);
    }
    let mut own = OwnPlaces::new(alloc);
    own.insert(alloc, place)?;
    records.insert(id, own)
}

/// Puts a place among those of a space. An error where memory ran out.
fn put_for_space(
    spaces: &mut BySpace<OwnPlaces>,
    alloc: Global,
    space: Space,
    place: OwnPlace,
) -> Result<(), AllocError>
    ensures { OnOk result (IsPut Space same_space spaces.old.entries spaces.new.entries space
        place) }
{
    if let Some(at) = spaces.places.get(space) {
        return spaces.values[at].insert(alloc, place);
    }
    let mut own = OwnPlaces::new(alloc);
    own.insert(alloc, place)?;
    spaces.insert(space, own)
}

/// Takes a place out of those of a record, where it has places. It takes no memory.
fn remove_for_record(records: &mut ByName<OwnPlaces>, alloc: Global, id: RecordId, place: OwnPlace)
    ensures { IsRemoved RecordId same_id records.old.entries records.new.entries id place }
{
    if let Some(at) = records.places.get(id) {
        records.values[at].remove(alloc, place);
    }
}

/// Takes a place out of those of a space, where it has places. It takes no memory.
fn remove_for_space(spaces: &mut BySpace<OwnPlaces>, alloc: Global, space: Space, place: OwnPlace)
    ensures { IsRemoved Space same_space spaces.old.entries spaces.new.entries space place }
{
    if let Some(at) = spaces.places.get(space) {
        spaces.values[at].remove(alloc, place);
    }
}

impl OwnersPlaces {
    /// No places. It takes no memory.
    pub(crate) fn new(alloc: Global) -> OwnersPlaces
        ensures { result.entries ≡ [] }
    {
        OwnersPlaces {
            records: ByName::new(alloc),
            spaces: BySpace::new(alloc),
            alloc,
        }
    }

    /// The places of an owner, where it has some.
    #[inline(always)]
    pub(crate) fn get(&self, owner: &Owner) -> Option<&OwnPlaces>
        ensures { option_copied result ≡ lookup (same_owner owner.now) self.now.entries }
    {
        match owner {
            Owner::Record(id) => self.records.get(*id),
            Owner::Space(space) => self.spaces.get(*space),
        }
    }

    /// Expects so many records, of which few may have places: those of one with a great number are
    /// found as fast then.
    pub(crate) fn expect(&mut self, records: usize)
        ensures { self.new ≡ self.old }
    {
        self.records.expect(records);
    }

    /// Puts a place among those of an owner. An error where memory ran out.
    #[inline(always)]
    pub(crate) fn put(&mut self, owner: Owner, place: OwnPlace) -> Result<(), AllocError>
        ensures { OnOk result (IsPut Owner same_owner self.old.entries self.new.entries owner
            place) }
    {
        match owner {
            Owner::Record(id) => put_for_record(&mut self.records, self.alloc, id, place),
            Owner::Space(space) => put_for_space(&mut self.spaces, self.alloc, space, place),
        }
    }

    /// Takes a place out of those of an owner, where it has places. It takes no memory: an owner
    /// that has lost all of them stays, with none.
    pub(crate) fn remove(&mut self, owner: Owner, place: OwnPlace)
        ensures { IsRemoved Owner same_owner self.old.entries self.new.entries owner place }
    {
        match owner {
            Owner::Record(id) => remove_for_record(&mut self.records, self.alloc, id, place),
            Owner::Space(space) => remove_for_space(&mut self.spaces, self.alloc, space, place),
        }
    }
}
