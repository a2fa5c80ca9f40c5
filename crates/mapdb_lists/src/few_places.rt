//! A few places as they came: the least of them is found by looking at each.

ghost use Rattle.std.specs.Prelude.{◌≡◌, ◌&&◌, false, not, true};
ghost use Rattle.std.specs.BTreeMap.{is_at};
ghost use Rattle.std.specs.BTreeMap.Range.{is_from_start};
ghost use Rattle.mapdb_lists.specs.OwnPlaces.{AreAligned, IsAlignedPlace, IsFirstPlaceWhere};
ghost use Rattle.mapdb_lists.specs.OwnPlaces.{IsNextPlace, IsSweptOn, few_ahead, is_beyond};
ghost use Rattle.mapdb_lists.specs.OwnPlaces.{is_next, lesser_place, lesser_where, own_meets};
ghost use Rattle.mapdb_lists.specs.OwnPlaces.{place_cmp, stands};
ghost use Rattle.mapdb_lists.specs.declared.own_place.OwnPlace.{OwnPlace};

use crate::own_place::OwnPlace;
use crate::own_places::{NextPlace, Sweep};
use std::ops::Bound;

/// The lesser of two places, where there is another.
fn lesser(found: Option<OwnPlace>, place: OwnPlace) -> OwnPlace
    ensures { result ≡ lesser_place found place }
{
    match found {
        Some(other) if other.is_before(&place) => other,
        _ => place,
    }
}

/// Whether the place is inside the bound.
fn is_inside(start: &Bound<OwnPlace>, place: &OwnPlace) -> bool
    ensures { result ≡ is_from_start place_cmp start.now place.now }
{
    match start {
        Bound::Included(from) => from.cmp(place).is_le(),
        Bound::Excluded(after) => after.cmp(place).is_lt(),
        Bound::Unbounded => true,
    }
}

/// The lesser of the place that was found and this one, where this one is inside the bound.
fn lesser_inside(
    found: Option<OwnPlace>,
    start: &Bound<OwnPlace>,
    place: OwnPlace,
) -> Option<OwnPlace>
    ensures { result ≡ lesser_where (is_from_start place_cmp start.now) found place }
{
    if is_inside(start, &place) {
        Some(lesser(found, place))
    } else {
        found
    }
}

/// The least of the places inside the bound.
pub(crate) fn least_inside(places: &[OwnPlace], start: &Bound<OwnPlace>) -> Option<OwnPlace>
    ensures { IsFirstPlaceWhere (is_from_start place_cmp start.now) places.now result }
{
    let mut found = None;
    for place in places {
        found = lesser_inside(found, start, *place);
    }
    found
}

/// Whether the place comes after another, where there is one.
fn is_beyond(after: &Option<OwnPlace>, place: &OwnPlace) -> bool
    ensures { result ≡ is_beyond after.now place.now }
{
    match after {
        Some(other) => other.is_before(place),
        None => true,
    }
}

/// The lesser of the place that was found and this one, where this one comes after another and
/// meets the pages from `first` on up to before `end`.
fn lesser_meeting(
    found: Option<OwnPlace>,
    first: u64,
    end: u64,
    after: &Option<OwnPlace>,
    place: OwnPlace,
) -> Option<OwnPlace>
    requires { IsAlignedPlace place }
    ensures { result ≡ lesser_where (is_next after.now first end) found place }
{
    if is_beyond(after, &place) && place.meets(first, end) {
        Some(lesser(found, place))
    } else {
        found
    }
}

/// The least of the places, above another, that meets the pages from `first` on up to before `end`.
pub(crate) fn least_meeting(
    places: &[OwnPlace],
    first: u64,
    end: u64,
    after: Option<OwnPlace>,
) -> Option<OwnPlace>
    requires { AreAligned places.now }
    ensures { IsNextPlace places.now first end after result }
{
    let mut found = None;
    for place in places {
        found = lesser_meeting(found, first, end, &after, *place);
    }
    found
}

/// The next of a few places, in a sweep over those that meet the pages from `first` on up to before
/// `end`.
#[inline(always)]
pub(crate) fn next_of_few(
    places: &[OwnPlace],
    first: u64,
    end: u64,
    sweep: Sweep,
) -> Option<NextPlace>
    requires { AreAligned places.now }
    ensures { IsSweptOn places.now (few_ahead places.now) first end sweep result }
{
    'places: for at in sweep.passed..places.len() {
        let place = places[at];
        if place.meets(first, end) {
            return Some(NextPlace {
                place,
                sweep: sweep.past(at + 1),
            });
        }
    }
    None
}

/// Whether one of a few places meets the pages from `first` on up to before `end`.
#[inline(always)]
pub(crate) fn few_meet(places: &[OwnPlace], first: u64, end: u64) -> bool
    requires { AreAligned places.now }
    ensures some { result ≡ true → (p : OwnPlace) × (stands places.now p ≡ true)
        × (own_meets p first end ≡ true) }
    ensures none { result ≡ false → (p : OwnPlace) → stands places.now p ≡ true
        → own_meets p first end ≡ false }
{
    for place in places {
        if place.meets(first, end) {
            return true;
        }
    }
    false
}

/// Takes a place out of a few, as often as it stands among them. It takes no memory.
pub(crate) fn few_remove(places: &mut Vec<OwnPlace>, place: OwnPlace)
    ensures { (k : OwnPlace) → stands places.new.items k
        ≡ (not (is_at (place_cmp place) k) && stands places.old.items k) }
{
    places.retain(|other| *other != place);
}
