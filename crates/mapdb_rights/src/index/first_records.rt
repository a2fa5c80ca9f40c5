//! The first record of a space that has a right at a page, found in one walk over the places that
//! hold it.

ghost use Rattle.std.specs.Prelude.{◌≡◌, true};
ghost use Rattle.mapdb_facts.specs.Facts.{state_of_facts};
ghost use Rattle.mapdb_facts.specs.Names.{root};
ghost use Rattle.mapdb_lists.specs.Changes.{seen_in};
ghost use Rattle.mapdb_lists.specs.Listing.{owner_places};
ghost use Rattle.mapdb_lists.specs.OwnPlaces.{own_list};
ghost use Rattle.mapdb_lists.specs.declared.places.Owner.TheVariants as owners;
ghost use Rattle.mapdb_rights.specs.Among.{is_shown};
ghost use Rattle.mapdb_rights.specs.First.{IsBehindFirst, IsFirstFound, IsFirstOfAll, both_of};
ghost use Rattle.mapdb_rights.specs.First.{earlier_of, first_where, first_with};
ghost use Rattle.mapdb_rights.specs.Following.{Shows};
ghost use Rattle.mapdb_rights.specs.Live.{IsLive};
ghost use Rattle.mapdb_rights.specs.PageRights.{is_record_into};

use mapdb_facts::{Facts, RecordId, Space};
use mapdb_lists::{AllChanges, Change, OwnPlaces, Owner, Places, Sweep, seen_at};

/// The first of the records of a space that were found to have a right at a page.
#[derive(Clone, Copy, Debug)]
pub enum First {
    /// None was found.
    Nothing,
    /// The first of those found, which all reach one frame, and the rights that they have of it.
    Alike(RecordId, Change),
    /// The first of those found, which reach several frames, and how far its own is.
    Mixed(RecordId, Change),
}

/// Of two records whose frames differ, the one that comes first.
fn earlier_of(other: RecordId, seen: Change, id: RecordId, change: Change) -> First
    ensures { result ≡ earlier_of other seen id change }
{
    if id.is_before(other) {
        First::Mixed(id, change)
    } else {
        First::Mixed(other, seen)
    }
}

/// Of two records whose frames are one, the one that comes first, with the rights of both.
fn both(other: RecordId, seen: Change, id: RecordId, change: Change) -> First
    ensures { result ≡ both_of other seen id change }
{
    let first = if id.is_before(other) { id } else { other };
    let rights = seen.rights.union(&change.rights);
    First::Alike(first, Change { rights, ..seen })
}

impl First {
    /// With one record more.
    pub(crate) fn with(&self, id: RecordId, change: Change) -> First
        ensures { result ≡ first_with id change self.now }
    {
        match self {
            First::Nothing => First::Alike(id, change),
            First::Alike(other, seen) if seen.shift == change.shift => {
                both(*other, *seen, id, change)
            }
            First::Alike(other, seen) => earlier_of(*other, *seen, id, change),
            First::Mixed(other, seen) => earlier_of(*other, *seen, id, change),
        }
    }
}

/// The root, where it is of the space and has a right at the page.
pub(crate) fn root_first(
    changes: &AllChanges,
    live: &Places,
    facts: &Facts,
    space: Space,
    page: u64,
) -> First
    requires { Shows changes.now live.now (state_of_facts facts.now) }
    ensures found { IsFirstFound (state_of_facts facts.now) changes.now.own.entries space page
        result }
    ensures there { IsLive (state_of_facts facts.now) space page root
        → IsBehindFirst changes.now.own.entries page result root }
{
    if !space.is_first() {
        return First::Nothing;
    }
    let change = seen_at(changes, RecordId::ROOT, page);
    if change.is_none() {
        return First::Nothing;
    }
    First::Alike(RecordId::ROOT, change)
}

/// What was found, with the record of this name, which is one of the space, where it has a right at
/// the page.
fn with_record(
    found: First,
    changes: &AllChanges,
    live: &Places,
    facts: &Facts,
    space: Space,
    page: u64,
    id: RecordId,
) -> First
    requires stands { Shows changes.now live.now (state_of_facts facts.now) }
    requires into { is_record_into ((state_of_facts facts.now).record_at id) space ≡ true }
    ensures { result ≡ first_where (is_shown (state_of_facts facts.now) space page id) id
        (seen_in changes.now.own.entries id page) found }
{
    let change = seen_at(changes, id, page);
    if change.is_none() {
        return found;
    }
    found.with(id, change)
}

/// The first record of the space, whose places these are, that has a right at the page.
fn first_among(
    own: &OwnPlaces,
    changes: &AllChanges,
    live: &Places,
    facts: &Facts,
    space: Space,
    page: u64,
) -> First
    requires stands { Shows changes.now live.now (state_of_facts facts.now) }
    requires places { owner_places live.now (owners.Space space) ≡ own_list own.now }
    ensures { IsFirstOfAll (state_of_facts facts.now) changes.now.own.entries space page result }
{
    let end = page.saturating_add(1);
    let mut found = root_first(changes, live, facts, space, page);
    let mut sweep = Sweep::start();
    'places: while let Some(next) = own.next_place(page, end, sweep) {
        found = with_record(found, changes, live, facts, space, page, next.place.id());
        sweep = next.sweep;
    }
    found
}

/// The first record of the space that has a right at the page; in the first space the root is one
/// of them. It takes no memory.
pub(crate) fn first_live(
    changes: &AllChanges,
    live: &Places,
    facts: &Facts,
    space: Space,
    page: u64,
) -> First
    requires { Shows changes.now live.now (state_of_facts facts.now) }
    ensures { IsFirstOfAll (state_of_facts facts.now) changes.now.own.entries space page result }
{
    match live.own(Owner::Space(space)) {
        Some(own) => first_among(own, changes, live, facts, space, page),
        None => root_first(changes, live, facts, space, page),
    }
}
