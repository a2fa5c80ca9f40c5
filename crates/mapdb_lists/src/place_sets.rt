//! The least of a set of places, found in their order.

ghost use Rattle.std.specs.Prelude.{◌≡◌, ◌<◌, ◌≤◌, ◌-◌, ◌%◌, ◌^◌, IfSome, option_map};
ghost use Rattle.std.specs.BTreeMap.Range.{is_from_start};
ghost use Rattle.std.specs.declared.ops.Bound.TheVariants.{Excluded, Included};
ghost use Rattle.mapdb_lists.specs.OwnPlaces.{IsBehind, IsFirstPlaceWhere, place_cmp, spot_place};
ghost use Rattle.mapdb_lists.specs.OwnPlaces.{start};

use crate::limits::FIRST_LIMIT;
use crate::own_place::OwnPlace;
use mapdb_facts::RecordId;
use mapdb_fpage::{LEAST_ORDER, TOP_ORDER, pages_of_order};
use std::collections::BTreeSet;
use std::ops::Bound;

/// A place of a set, and the one that comes behind it.
#[derive(Clone, Copy, Debug)]
pub struct Spot {
    /// The place.
    pub place: OwnPlace,
    /// The least one above it.
    pub next: Option<OwnPlace>,
}

/// Where the place of an order that holds a page begins.
pub(crate) fn start_of(order: u8, page: u64) -> OwnPlace
    requires least { LEAST_ORDER ≤ order }
    requires most { order ≤ TOP_ORDER }
    requires near { page < FIRST_LIMIT }
    ensures { result ≡ start order (page - page % 2 ^ (order - LEAST_ORDER)) }
{
    let first = page - page % pages_of_order(order);
    OwnPlace::new(order, first, RecordId::ROOT)
}

/// The least place from one on, and the one behind it.
pub(crate) fn set_from(set: &BTreeSet<OwnPlace>, from: OwnPlace) -> Option<Spot>
    ensures least { IsFirstPlaceWhere (is_from_start place_cmp (Included from)) set.now.keys
        (option_map spot_place result) }
    ensures behind { IfSome result (IsBehind set.now.keys) }
{
    let mut inside = set.range((Bound::Included(&from), Bound::Unbounded));
    let Some(place) = inside.next() else {
        return None;
    };
    match inside.next() {
        Some(next) => Some(Spot {
            place: *place,
            next: Some(*next),
        }),
        None => Some(Spot {
            place: *place,
            next: None,
        }),
    }
}

/// The least place above one, and the one behind it.
pub(crate) fn set_above(set: &BTreeSet<OwnPlace>, after: OwnPlace) -> Option<Spot>
    ensures least { IsFirstPlaceWhere (is_from_start place_cmp (Excluded after)) set.now.keys
        (option_map spot_place result) }
    ensures behind { IfSome result (IsBehind set.now.keys) }
{
    let mut above = set.range((Bound::Excluded(&after), Bound::Unbounded));
    let Some(place) = above.next() else {
        return None;
    };
    match above.next() {
        Some(next) => Some(Spot {
            place: *place,
            next: Some(*next),
        }),
        None => Some(Spot {
            place: *place,
            next: None,
        }),
    }
}
