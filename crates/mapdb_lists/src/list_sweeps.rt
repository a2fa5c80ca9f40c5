//! The next of many places that meets pages, where they stand in a list that is halved.

ghost use Rattle.std.specs.Prelude.{◌≡◌, ◌<◌, ℕ, IfSome, None, Some, false, option_map};
ghost use Rattle.std.specs.Prelude.{slice_get, true};
ghost use Rattle.mapdb_lists.specs.Ascending.{Ascend};
ghost use Rattle.mapdb_lists.specs.OwnPlaces.{AreAligned, HasReached, HasReachedFrom};
ghost use Rattle.mapdb_lists.specs.OwnPlaces.{IsLastWhereSaid, IsNextPlace, found_place};
ghost use Rattle.mapdb_lists.specs.OwnPlaces.{orders_ahead, own_meets, stands};
ghost use Rattle.mapdb_lists.specs.Standing.{HaveOrders};

use crate::limits::FIRST_LIMIT;
use crate::orders::Orders;
use crate::own_place::OwnPlace;
use crate::own_places::FoundPlace;
use crate::place_lists::{index_above, index_from};
use crate::place_sets::start_of;
use mapdb_fpage::{LEAST_ORDER, TOP_ORDER};

/// Where the first place stands, of an order from one on, that may hold a page or come behind it.
/// As for all of these indices, the list's length says that there is none.
fn list_reach(list: &[OwnPlace], orders: Orders, order: u8, page: u64) -> usize
    requires ascend { Ascend list.now }
    requires aligned { AreAligned list.now }
    requires ordered { HaveOrders list.now orders }
    requires near { page < FIRST_LIMIT }
    ensures { (end : ℕ) → HasReachedFrom list.now order page end (slice_get list.now result) }
{
    let Some(next) = orders.next_from(order.max(LEAST_ORDER)) else {
        return list.len();
    };
    if next > TOP_ORDER {
        return list.len();
    }
    index_from(list, start_of(next, page))
}

/// Where the first place above another stands, where there is one, that may meet the pages. The
/// other may stand at the index `at`.
fn list_begin(
    list: &[OwnPlace],
    orders: Orders,
    first: u64,
    end: u64,
    after: Option<OwnPlace>,
    at: usize,
) -> usize
    requires ascend { Ascend list.now }
    requires aligned { AreAligned list.now }
    requires ordered { HaveOrders list.now orders }
    requires near { first < FIRST_LIMIT }
    ensures { HasReached list.now first end after (slice_get list.now result) }
{
    let Some(place) = after else {
        return list_reach(list, orders, 0, first);
    };
    if place.first() >= end {
        return list_reach(list, orders, place.order().saturating_add(1), first);
    }
    index_above(list, place, at)
}

/// Where that stands which comes next and may meet the pages, behind a place that does not.
fn list_pass(list: &[OwnPlace], orders: Orders, place: OwnPlace, first: u64, end: u64) -> usize
    requires ascend { Ascend list.now }
    requires aligned { AreAligned list.now }
    requires ordered { HaveOrders list.now orders }
    requires held { stands list.now place ≡ true }
    requires pages { first < end }
    requires apart { own_meets place first end ≡ false }
    requires near { first < FIRST_LIMIT }
    ensures reached { HasReached list.now first end (Some place) (slice_get list.now result) }
    ensures fewer { orders_ahead first (slice_get list.now result)
        < orders_ahead first (Some place) }
{
    if place.first() >= end {
        return list_reach(list, orders, place.order() + 1, first);
    }
    index_from(list, start_of(place.order(), first))
}

/// Whether no place behind the one at an index can begin before the end of the pages.
fn list_is_last(list: &[OwnPlace], orders: Orders, at: usize, place: OwnPlace, end: u64) -> bool
    requires ascend { Ascend list.now }
    requires aligned { AreAligned list.now }
    requires ordered { HaveOrders list.now orders }
    requires here { slice_get list.now at ≡ Some place }
    ensures { (first : ℕ) → result ≡ true
        → IsNextPlace list.now first end (Some place) None }
{
    let Some(next) = list.get(at + 1) else {
        return true;
    };
    if next.order() == place.order() && next.first() < end {
        return false;
    }
    orders.next_from(place.order().saturating_add(1)).is_none()
}

/// The least place, above another, that meets the pages from `first` on up to before `end`. The
/// other may stand at the index `at`: then it is not searched for.
pub(crate) fn list_next(
    list: &[OwnPlace],
    orders: Orders,
    first: u64,
    end: u64,
    after: Option<OwnPlace>,
    at: usize,
) -> Option<FoundPlace>
    requires ascend { Ascend list.now }
    requires aligned { AreAligned list.now }
    requires ordered { HaveOrders list.now orders }
    requires pages { first < end }
    requires near { first < FIRST_LIMIT }
    ensures next { IsNextPlace list.now first end after (option_map found_place result) }
    ensures last { IfSome result (IsLastWhereSaid list.now first end) }
{
    let mut index = list_begin(list, orders, first, end, after, at);
    'orders: while let Some(reached) = list.get(index) {
        let place = *reached;
        if place.meets(first, end) {
            let last = list_is_last(list, orders, index, place, end);
            let at = index;
            return Some(FoundPlace { place, at, last });
        }
        index = list_pass(list, orders, place, first, end);
    }
    None
}
