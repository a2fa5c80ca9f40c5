//! All rights of one frame that the records of a space have at a page, found in one walk over the
//! places that hold it, or from a list of these.

ghost use Rattle.std.specs.Prelude.{◌≡◌, ◌+◌, true};
ghost use Rattle.mapdb_facts.specs.Facts.{state_of_facts};
ghost use Rattle.mapdb_facts.specs.Names.{root};
ghost use Rattle.mapdb_lists.specs.Changes.{seen_in};
ghost use Rattle.mapdb_lists.specs.Listing.{is_listed, listed_for, owner_places};
ghost use Rattle.mapdb_lists.specs.OwnPlaces.{own_list, own_meets, stands};
ghost use Rattle.mapdb_lists.specs.declared.own_place.OwnPlace.{OwnPlace};
ghost use Rattle.mapdb_lists.specs.declared.places.Owner.TheVariants as owners;
ghost use Rattle.mapdb_rights.specs.First.{AreAsFar, IsAllAsFar, IsJoined, joined_as_far};
ghost use Rattle.mapdb_rights.specs.Following.{Shows};
ghost use Rattle.mapdb_rights.specs.Live.{IsLive};

use mapdb_facts::{Facts, RecordId, Space};
use mapdb_fpage::Rights;
use mapdb_lists::{AllChanges, OwnPlace, OwnPlaces, Owner, Places, Sweep, seen_at};

/// Rights, with those of the record of this name at the page, where its frame is so far from it.
fn with_record(known: Rights, changes: &AllChanges, page: u64, shift: u64, id: RecordId) -> Rights
    ensures { result ≡ joined_as_far shift (seen_in changes.now.own.entries id page) known }
{
    let change = seen_at(changes, id, page);
    if change.shift == shift {
        known.union(&change.rights)
    } else {
        known
    }
}

/// The root's rights at the page, where it is of the space and its frame is so far from it.
fn root_rights(
    changes: &AllChanges,
    live: &Places,
    facts: &Facts,
    space: Space,
    page: u64,
    shift: u64,
) -> Rights
    requires { Shows changes.now live.now (state_of_facts facts.now) }
    ensures found { AreAsFar (state_of_facts facts.now) changes.now.own.entries space page shift
        result }
    ensures there { IsLive (state_of_facts facts.now) space page root
        → IsJoined changes.now.own.entries page shift result root }
{
    if space.is_first() {
        with_record(Rights::NONE, changes, page, shift, RecordId::ROOT)
    } else {
        Rights::NONE
    }
}

/// All rights that the records of the space, whose places these are, have at the page of the frame
/// that is so far from it.
fn rights_among(
    own: &OwnPlaces,
    changes: &AllChanges,
    live: &Places,
    facts: &Facts,
    space: Space,
    page: u64,
    shift: u64,
) -> Rights
    requires stands { Shows changes.now live.now (state_of_facts facts.now) }
    requires places { owner_places live.now (owners.Space space) ≡ own_list own.now }
    ensures { IsAllAsFar (state_of_facts facts.now) changes.now.own.entries space page shift
        result }
{
    let end = page.saturating_add(1);
    let mut known = root_rights(changes, live, facts, space, page, shift);
    let mut sweep = Sweep::start();
    'places: while let Some(next) = own.next_place(page, end, sweep) {
        known = with_record(known, changes, page, shift, next.place.id());
        sweep = next.sweep;
    }
    known
}

/// All rights that the records of the space have at the page of the frame that is so far from it;
/// in the first space the root is one of them. It takes no memory.
pub(crate) fn frame_rights(
    changes: &AllChanges,
    live: &Places,
    facts: &Facts,
    space: Space,
    page: u64,
    shift: u64,
) -> Rights
    requires { Shows changes.now live.now (state_of_facts facts.now) }
    ensures { IsAllAsFar (state_of_facts facts.now) changes.now.own.entries space page shift
        result }
{
    match live.own(Owner::Space(space)) {
        Some(own) => rights_among(own, changes, live, facts, space, page, shift),
        None => root_rights(changes, live, facts, space, page, shift),
    }
}

/// All rights that the records of the space have at the page of the frame that is so far from it,
/// where each place of the space that holds the page is one of these.
pub(crate) fn held_frame_rights(
    held: &[OwnPlace],
    changes: &AllChanges,
    live: &Places,
    facts: &Facts,
    space: Space,
    page: u64,
    shift: u64,
) -> Rights
    requires stands { Shows changes.now live.now (state_of_facts facts.now) }
    requires listed { (p : OwnPlace) → stands held.now p ≡ true
        → is_listed live.now (listed_for (owners.Space space) p) ≡ true }
    requires all { (p : OwnPlace) → stands (owner_places live.now (owners.Space space)) p ≡ true
        → own_meets p page (page + 1) ≡ true → stands held.now p ≡ true }
    ensures { IsAllAsFar (state_of_facts facts.now) changes.now.own.entries space page shift
        result }
{
    let mut known = root_rights(changes, live, facts, space, page, shift);
    for place in held {
        known = with_record(known, changes, page, shift, place.id());
    }
    known
}
