//! The names of all places that meet pages, gathered in one go.

ghost use Rattle.std.specs.Prelude.{◌≡◌, ◌<◌, ◌&&◌, ◌⊎◌, OnOk, nat_eq, nat_lt, true};
ghost use Rattle.std.specs.BTreeMap.Range.{is_from_start};
ghost use Rattle.std.specs.declared.ops.Bound.TheVariants.{Included};
ghost use Rattle.mapdb_facts.specs.declared.names.RecordId.{RecordId};
ghost use Rattle.mapdb_lists.specs.Ascending.{Ascend};
ghost use Rattle.mapdb_lists.specs.OwnPlaces.{AreAligned, IsNameFrom, IsNameMeeting, own_meets};
ghost use Rattle.mapdb_lists.specs.OwnPlaces.{place_cmp, stands};
ghost use Rattle.mapdb_lists.specs.Standing.{is_named};
ghost use Rattle.mapdb_lists.specs.declared.own_place.OwnPlace.{OwnPlace};

use crate::own_place::OwnPlace;
use crate::place_lists::index_for;
use crate::short_lists::add_item;
use mapdb_facts::RecordId;
use smallvec::SmallVec;
use std::alloc::AllocError;
use std::collections::BTreeSet;
use std::ops::Bound;

/// Adds the names of a few places that meet the pages from `first` on up to before `end`, as they
/// come.
#[inline(always)]
pub(crate) fn few_names(
    names: &mut SmallVec<RecordId, 1>,
    places: &[OwnPlace],
    first: u64,
    end: u64,
) -> Result<(), AllocError>
    requires { AreAligned places.now }
    ensures kept { OnOk result ((id : RecordId) → is_named names.old.items id ≡ true
        → is_named names.new.items id ≡ true) }
    ensures named { OnOk result ((p : OwnPlace) → stands places.now p ≡ true
        → own_meets p first end ≡ true → is_named names.new.items p.id ≡ true) }
    ensures only { OnOk result ((id : RecordId) → is_named names.new.items id ≡ true
        → (is_named names.old.items id ≡ true) ⊎ IsNameMeeting places.now first end id) }
{
    for place in places {
        if place.meets(first, end) {
            add_item(names, place.id())?;
        }
    }
    Ok(())
}

/// Whether a place is of another's order and begins before an end.
fn is_of_order(place: &OwnPlace, from: &OwnPlace, end: u64) -> bool
    ensures { result ≡ (nat_eq place.now.order from.now.order && nat_lt place.now.first end) }
{
    place.order() == from.order() && place.first() < end
}

/// Adds the names of the places of a tree from one on that are of its order and begin before an
/// end.
pub(crate) fn tree_names(
    names: &mut SmallVec<RecordId, 1>,
    tree: &BTreeSet<OwnPlace>,
    from: OwnPlace,
    end: u64,
) -> Result<(), AllocError>
    ensures kept { OnOk result ((id : RecordId) → is_named names.old.items id ≡ true
        → is_named names.new.items id ≡ true) }
    ensures named { OnOk result ((p : OwnPlace) → stands tree.now.keys p ≡ true
        → is_from_start place_cmp (Included from) p ≡ true → p.order ≡ from.order → p.first < end
        → is_named names.new.items p.id ≡ true) }
    ensures only { OnOk result ((id : RecordId) → is_named names.new.items id ≡ true
        → (is_named names.old.items id ≡ true) ⊎ IsNameFrom tree.now.keys from end id) }
{
    for place in tree.range((Bound::Included(&from), Bound::Unbounded)) {
        if !is_of_order(place, &from, end) {
            return Ok(());
        }
        add_item(names, place.id())?;
    }
    Ok(())
}

/// Adds the names of the places of a list from one on that are of its order and begin before an
/// end.
pub(crate) fn list_names(
    names: &mut SmallVec<RecordId, 1>,
    list: &[OwnPlace],
    from: OwnPlace,
    end: u64,
) -> Result<(), AllocError>
    requires { Ascend list.now }
    ensures kept { OnOk result ((id : RecordId) → is_named names.old.items id ≡ true
        → is_named names.new.items id ≡ true) }
    ensures named { OnOk result ((p : OwnPlace) → stands list.now p ≡ true
        → is_from_start place_cmp (Included from) p ≡ true → p.order ≡ from.order → p.first < end
        → is_named names.new.items p.id ≡ true) }
    ensures only { OnOk result ((id : RecordId) → is_named names.new.items id ≡ true
        → (is_named names.old.items id ≡ true) ⊎ IsNameFrom list.now from end id) }
{
    'places: for at in index_for(list, from)..list.len() {
        let place = list[at];
        if !is_of_order(&place, &from, end) {
            return Ok(());
        }
        add_item(names, place.id())?;
    }
    Ok(())
}
