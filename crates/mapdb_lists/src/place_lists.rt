//! Places of an owner in a list in ascending order, found by halving it.

ghost use Rattle.std.specs.Prelude.{◌≡◌, ◌≤◌, ◌<◌, ◌&&◌, ◌||◌, IfSome, OnOk, OnErr, length};
ghost use Rattle.std.specs.Prelude.{option_map, false, get_or, not, slice_get, true};
ghost use Rattle.std.specs.BTreeMap.{is_at};
ghost use Rattle.std.specs.BTreeMap.Range.{is_from_start};
ghost use Rattle.std.specs.List.Sorted.{IsPartitionPoint};
ghost use Rattle.std.specs.Ordering.{is_lt};
ghost use Rattle.std.specs.declared.ops.Bound.TheVariants.{Excluded, Included};
ghost use Rattle.mapdb_lists.specs.Ascending.{Ascend, IsAtIndex};
ghost use Rattle.mapdb_lists.specs.OwnPlaces.{IsBehind, IsFirstPlaceWhere, place_cmp, spot_place};
ghost use Rattle.mapdb_lists.specs.OwnPlaces.{stands};
ghost use Rattle.mapdb_lists.specs.declared.own_place.OwnPlace.{OwnPlace};

use crate::own_place::OwnPlace;
use crate::place_sets::Spot;
use std::alloc::AllocError;

/// The place at an index, and the one behind it.
fn spot_at(list: &[OwnPlace], index: usize) -> Option<Spot>
    requires { Ascend list.now }
    ensures here { option_map spot_place result ≡ slice_get list.now index }
    ensures behind { IfSome result (IsBehind list.now) }
{
    if index >= list.len() {
        return None;
    }
    let place = list[index];
    if index + 1 < list.len() {
        let next = Some(list[index + 1]);
        Some(Spot { place, next })
    } else {
        let next = None;
        Some(Spot { place, next })
    }
}

/// Where a place belongs: behind all that come before it.
pub(crate) fn index_for(list: &[OwnPlace], place: OwnPlace) -> usize
    requires { Ascend list.now }
    ensures bound { result ≤ length list.now }
    ensures parted { IsPartitionPoint (λ y. is_lt (place_cmp y place) ≡ true)
        (λ y. is_lt (place_cmp y place) ≡ false) list.now result }
{
    list.partition_point(|other| other.is_before(&place))
}

/// Where the least place from one on stands: the list's length where there is none.
pub(crate) fn index_from(list: &[OwnPlace], from: OwnPlace) -> usize
    requires { Ascend list.now }
    ensures { IsFirstPlaceWhere (is_from_start place_cmp (Included from)) list.now
        (slice_get list.now result) }
{
    index_for(list, from)
}

/// Where the least place above one stands: the list's length where there is none. Where that one
/// stands at the index `at`, no search is needed.
pub(crate) fn index_above(list: &[OwnPlace], after: OwnPlace, at: usize) -> usize
    requires { Ascend list.now }
    ensures { IsFirstPlaceWhere (is_from_start place_cmp (Excluded after)) list.now
        (slice_get list.now result) }
{
    if is_there(list, at, after) {
        return at + 1;
    }
    list.partition_point(|place| !after.is_before(place))
}

/// The least place from one on, and the one behind it.
pub(crate) fn list_from(list: &[OwnPlace], from: OwnPlace) -> Option<Spot>
    requires { Ascend list.now }
    ensures least { IsFirstPlaceWhere (is_from_start place_cmp (Included from)) list.now
        (option_map spot_place result) }
    ensures behind { IfSome result (IsBehind list.now) }
{
    spot_at(list, index_from(list, from))
}

/// The least place above one, and the one behind it.
pub(crate) fn list_above(list: &[OwnPlace], after: OwnPlace) -> Option<Spot>
    requires { Ascend list.now }
    ensures least { IsFirstPlaceWhere (is_from_start place_cmp (Excluded after)) list.now
        (option_map spot_place result) }
    ensures behind { IfSome result (IsBehind list.now) }
{
    spot_at(list, index_above(list, after, 0))
}

/// Whether a place stands at an index.
fn is_there(list: &[OwnPlace], index: usize, place: OwnPlace) -> bool
    ensures there { result ≡ true → stands list.now place ≡ true }
    ensures here { result ≡ true → IsAtIndex list.now index place }
    ensures not_there { result ≡ false → (d : OwnPlace) → index < length list.now
        → ¬ (get_or list.now index d ≡ place) }
{
    index < list.len() && list[index] == place
}

/// Puts one place more where it belongs. An error where memory ran out, and then nothing has
/// changed.
pub(crate) fn list_put(list: &mut Vec<OwnPlace>, place: OwnPlace) -> Result<(), AllocError>
    requires { Ascend list.old.items }
    ensures ascends { Ascend list.new.items }
    ensures put { OnOk result ((k : OwnPlace) → stands list.new.items k
        ≡ (is_at (place_cmp place) k || stands list.old.items k)) }
    ensures err { OnErr result (list.new.items ≡ list.old.items) }
{
    let index = index_for(list.as_slice(), place);
    if is_there(list.as_slice(), index, place) {
        return Ok(());
    }
    list.insert(index, place)?;
    Ok(())
}

/// Takes a place out, where it stands in the list. It takes no memory.
pub(crate) fn list_remove(list: &mut Vec<OwnPlace>, place: OwnPlace)
    requires { Ascend list.old.items }
    ensures ascends { Ascend list.new.items }
    ensures removed { (k : OwnPlace) → stands list.new.items k
        ≡ (not (is_at (place_cmp place) k) && stands list.old.items k) }
{
    let index = index_for(list.as_slice(), place);
    if is_there(list.as_slice(), index, place) {
        list.remove(index);
    }
}
