//! The first record of a space that has a right at a page, and how far all records of the space go
//! on with what they have there, found in one walk over the places from the page on, or from a
//! list of those that meet the pages.

ghost use Rattle.std.specs.Prelude.{◌≡◌, ◌≤◌, ◌<◌, ℕ, true};
ghost use Rattle.mapdb_facts.specs.Facts.{state_of_facts};
ghost use Rattle.mapdb_facts.specs.Names.{is_first_space, root};
ghost use Rattle.mapdb_lists.specs.Changes.{cached_in, seen_in};
ghost use Rattle.mapdb_lists.specs.Listing.{is_listed, listed_for, owner_places};
ghost use Rattle.mapdb_lists.specs.OwnPlaces.{own_list, own_meets, stands};
ghost use Rattle.mapdb_lists.specs.declared.own_place.OwnPlace.{OwnPlace};
ghost use Rattle.mapdb_lists.specs.declared.places.Owner.TheVariants as owners;
ghost use Rattle.mapdb_rights.specs.Among.{is_shown};
ghost use Rattle.mapdb_rights.specs.First.{IsFirstOfAll, first_where};
ghost use Rattle.mapdb_rights.specs.Following.{Shows};
ghost use Rattle.mapdb_rights.specs.Live.{ShowUntil};

use super::first_records::{First, root_first};
use mapdb_facts::{Facts, RecordId, Space};
use mapdb_fpage::PAGE_LIMIT;
use mapdb_lists::{
    AllChanges, OwnPlace, OwnPlaces, Owner, Places, Sweep, stretch_at, unchanged_until,
};

/// The first of the records that were looked at, and how far these go on.
#[derive(Clone, Copy, Debug)]
pub struct FirstUntil {
    /// The first of them that has a right at the page.
    pub first: First,
    /// The end of pages over which each of them has what it has at the page.
    pub end: u64,
}

/// How far the root's rights go on, where it is of the space.
fn root_until(changes: &AllChanges, space: Space, page: u64) -> u64
    requires { page < PAGE_LIMIT }
    ensures above { page < result }
    ensures limit { result ≤ PAGE_LIMIT }
    ensures same { is_first_space space ≡ true → (q : ℕ) → page ≤ q → q < result
        → cached_in changes.now.own.entries root q ≡ cached_in changes.now.own.entries root page }
{
    if space.is_first() {
        unchanged_until(changes, RecordId::ROOT, page)
    } else {
        PAGE_LIMIT
    }
}

/// What was found, with the record of a place, and how far that one goes on: up to where the place
/// begins, if that is behind the page.
fn with_place(
    found: First,
    changes: &AllChanges,
    live: &Places,
    facts: &Facts,
    space: Space,
    page: u64,
    place: OwnPlace,
) -> FirstUntil
    requires page { page < PAGE_LIMIT }
    requires stands { Shows changes.now live.now (state_of_facts facts.now) }
    requires listed { is_listed live.now (listed_for (owners.Space space) place) ≡ true }
    ensures first { result.first
        ≡ first_where (is_shown (state_of_facts facts.now) space page place.id) place.id
        (seen_in changes.now.own.entries place.id page) found }
    ensures above { page < result.end }
    ensures same { own_meets place page result.end ≡ true → (q : ℕ) → page ≤ q → q < result.end
        → cached_in changes.now.own.entries place.id q
        ≡ cached_in changes.now.own.entries place.id page }
{
    if place.first() > page {
        return FirstUntil {
            first: found,
            end: place.first(),
        };
    }
    let own = stretch_at(changes, place.id(), page);
    if own.change.is_none() {
        return FirstUntil {
            first: found,
            end: own.end,
        };
    }
    FirstUntil {
        first: found.with(place.id(), own.change),
        end: own.end,
    }
}

/// The first record of the space, whose places these are, that has a right at the page, and the end
/// of pages over which all go on.
fn first_until_among(
    own: &OwnPlaces,
    changes: &AllChanges,
    live: &Places,
    facts: &Facts,
    space: Space,
    page: u64,
) -> FirstUntil
    requires page { page < PAGE_LIMIT }
    requires stands { Shows changes.now live.now (state_of_facts facts.now) }
    requires places { owner_places live.now (owners.Space space) ≡ own_list own.now }
    ensures first { IsFirstOfAll (state_of_facts facts.now) changes.now.own.entries space page
        result.first }
    ensures above { page < result.end }
    ensures limit { result.end ≤ PAGE_LIMIT }
    ensures shown { ShowUntil (state_of_facts facts.now) space page result.end }
{
    let mut first = root_first(changes, live, facts, space, page);
    let mut end = root_until(changes, space, page);
    let mut sweep = Sweep::start();
    'places: while let Some(next) = own.next_place(page, end, sweep) {
        let with = with_place(first, changes, live, facts, space, page, next.place);
        first = with.first;
        end = end.min(with.end);
        sweep = next.sweep;
    }
    FirstUntil { first, end }
}

/// The first record of the space that has a right at the page, and the end of pages over which each
/// record of the space has equal rights, and where it has some, a frame that rises by one with each
/// page. In the first space the root is one of them. It takes no memory.
pub(crate) fn first_until(
    changes: &AllChanges,
    live: &Places,
    facts: &Facts,
    space: Space,
    page: u64,
) -> FirstUntil
    requires page { page < PAGE_LIMIT }
    requires stands { Shows changes.now live.now (state_of_facts facts.now) }
    ensures first { IsFirstOfAll (state_of_facts facts.now) changes.now.own.entries space page
        result.first }
    ensures above { page < result.end }
    ensures limit { result.end ≤ PAGE_LIMIT }
    ensures shown { ShowUntil (state_of_facts facts.now) space page result.end }
{
    match live.own(Owner::Space(space)) {
        Some(own) => first_until_among(own, changes, live, facts, space, page),
        None => FirstUntil {
            first: root_first(changes, live, facts, space, page),
            end: root_until(changes, space, page),
        },
    }
}

/// The first record of the space that has a right at the page, and the end of pages over which all
/// go on, where each place of the space that meets the pages up to before an end is one of these.
pub(crate) fn first_until_held(
    held: &[OwnPlace],
    until: u64,
    changes: &AllChanges,
    live: &Places,
    facts: &Facts,
    space: Space,
    page: u64,
) -> FirstUntil
    requires above { page < until }
    requires limit { until ≤ PAGE_LIMIT }
    requires stands { Shows changes.now live.now (state_of_facts facts.now) }
    requires listed { (p : OwnPlace) → stands held.now p ≡ true
        → is_listed live.now (listed_for (owners.Space space) p) ≡ true }
    requires all { (p : OwnPlace) → stands (owner_places live.now (owners.Space space)) p ≡ true
        → own_meets p page until ≡ true → stands held.now p ≡ true }
    ensures first { IsFirstOfAll (state_of_facts facts.now) changes.now.own.entries space page
        result.first }
    ensures above { page < result.end }
    ensures limit { result.end ≤ PAGE_LIMIT }
    ensures shown { ShowUntil (state_of_facts facts.now) space page result.end }
{
    let mut first = root_first(changes, live, facts, space, page);
    let mut end = root_until(changes, space, page).min(until);
    for place in held {
        let with = with_place(first, changes, live, facts, space, page, *place);
        first = with.first;
        end = with.end.min(end);
    }
    FirstUntil { first, end }
}
