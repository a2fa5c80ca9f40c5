//! The places of records, by owner: a space has those of its records, a record those that its
//! children's pages come from.

ghost use Rattle.std.specs.Prelude.{◌≡◌, ◌<◌, ◌&&◌, ◌||◌, false, IfSome, None, OnOk, not, option_map};
ghost use Rattle.std.specs.BTreeMap.{is_at};
ghost use Rattle.std.specs.Option.{option_copied};
ghost use Rattle.std.specs.declared.ops.Bound.TheVariants.{Excluded, Included};
ghost use Rattle.mapdb_lists.specs.Listing.{AllAligned, IsFirstInside, IsNextMeeting, is_listed};
ghost use Rattle.mapdb_lists.specs.Listing.{listed_cmp, listed_for, own_place, places_in};
ghost use Rattle.mapdb_lists.specs.Listing.{owner_places};
ghost use Rattle.mapdb_lists.specs.declared.places.Listed.{Listed};

use crate::limits::FIRST_LIMIT;
use crate::own_place::OwnPlace;
use crate::own_places::OwnPlaces;
use crate::owners_places::OwnersPlaces;
use mapdb_facts::{RecordId, Space};
use std::alloc::{AllocError, Global};

/// Who has a place listed.
#[derive(Clone, Copy, Debug, PartialEq, Eq)]
pub enum Owner {
    /// A record, the sources of its children.
    Record(RecordId),
    /// A space, the places of its records.
    Space(Space),
}

/// A place of an owner, and the record that stands for it.
#[derive(Clone, Copy, Debug, PartialEq, Eq)]
pub struct Listed {
    /// Whose place it is.
    pub owner: Owner,
    /// The order of the place.
    pub order: u8,
    /// The first page of it.
    pub first: u64,
    /// The record that stands for it.
    pub id: RecordId,
}

impl Listed {
    /// The place alone, whoever owns it.
    fn own_place(self) -> OwnPlace
        requires { self.first < FIRST_LIMIT }
        ensures { result ≡ own_place self }
    {
        OwnPlace::new(self.order, self.first, self.id)
    }
}

/// The place of an entry, where there is one.
fn place_of(entry: Option<Listed>) -> Option<OwnPlace>
    requires { IfSome entry (λ e. e.first < FIRST_LIMIT) }
    ensures { result ≡ option_map own_place entry }
{
    match entry {
        Some(entry) => Some(entry.own_place()),
        None => None,
    }
}

/// A place as the owner's, where there is one.
fn listed_for(owner: Owner, place: Option<OwnPlace>) -> Option<Listed>
    ensures { result ≡ option_map (listed_for owner) place }
{
    match place {
        Some(place) => Some(Listed {
            owner,
            order: place.order(),
            first: place.first(),
            id: place.id(),
        }),
        None => None,
    }
}

/// The places of all owners, each owner's by themselves.
#[derive(Drop)]
pub struct Places {
    own: OwnersPlaces,
}

impl Places {
    /// No places. It takes no memory.
    pub fn new(alloc: Global) -> Places
        ensures { (e : Listed) → is_listed result e ≡ false }
    {
        Places {
            own: OwnersPlaces::new(alloc),
        }
    }

    /// Expects so many records, of which few may own places: those of one with a great number are
    /// found as fast then.
    pub fn expect(&mut self, records: usize)
        ensures { self.new ≡ self.old }
    {
        self.own.expect(records);
    }

    /// Lists one entry more. An error where memory ran out.
    #[inline(always)]
    pub fn insert(&mut self, entry: Listed) -> Result<(), AllocError>
        requires { entry.first < FIRST_LIMIT }
        ensures { OnOk result ((e : Listed) → is_listed self.new e
            ≡ (is_at (listed_cmp entry) e || is_listed self.old e)) }
    {
        self.own.put(entry.owner, entry.own_place())
    }

    /// Lets go of an entry, where it is listed; it takes no memory.
    pub fn remove(&mut self, entry: Listed)
        requires { entry.first < FIRST_LIMIT }
        ensures { (e : Listed) → is_listed self.new e
            ≡ (not (is_at (listed_cmp entry) e) && is_listed self.old e) }
    {
        self.own.remove(entry.owner, entry.own_place())
    }

    /// The places of an owner, where it has some: a walk over them looks them up once.
    #[inline(always)]
    pub fn own(&self, owner: Owner) -> Option<&OwnPlaces>
        ensures { places_in (option_copied result) ≡ owner_places self.now owner }
    {
        self.own.get(&owner)
    }

    /// The least entry of its owner from one on.
    pub fn first_from(&self, from: Listed) -> Option<Listed>
        requires { from.first < FIRST_LIMIT }
        ensures { IsFirstInside self.now from.owner (Included from) result }
    {
        match self.own.get(&from.owner) {
            Some(own) => listed_for(from.owner, own.first_from(from.own_place())),
            None => None,
        }
    }

    /// The least entry of its owner above one.
    pub fn first_above(&self, after: Listed) -> Option<Listed>
        requires { after.first < FIRST_LIMIT }
        ensures { IsFirstInside self.now after.owner (Excluded after) result }
    {
        match self.own.get(&after.owner) {
            Some(own) => listed_for(after.owner, own.first_above(after.own_place())),
            None => None,
        }
    }

    /// The least entry of the owner, above another, that meets the pages from `first` on up to
    /// before `end`.
    pub fn next_meeting(
        &self,
        owner: Owner,
        first: u64,
        end: u64,
        after: Option<Listed>,
    ) -> Option<Listed>
        requires aligned { AllAligned self.now }
        requires owned { IfSome after (λ e. e.owner ≡ owner) }
        requires near { IfSome after (λ e. e.first < FIRST_LIMIT) }
        ensures { IsNextMeeting self.now owner first end after result }
    {
        match self.own.get(&owner) {
            Some(own) => listed_for(owner, own.next_meeting(first, end, place_of(after))),
            None => None,
        }
    }
}
