//! Many places of an owner, found in their order.

ghost use Rattle.mapdb_lists.specs.Standing.{HaveOrders};

use crate::limits::FIRST_LIMIT;
use crate::list_sweeps::list_next;
use crate::orders::Orders;
use crate::own_place::OwnPlace;
use crate::own_places::FoundPlace;
use crate::place_sets::{Spot, start_of};
use crate::sorted_places::SortedPlaces;
use mapdb_facts::RecordId;
use mapdb_fpage::{LEAST_ORDER, TOP_ORDER};
use smallvec::SmallVec;
use std::alloc::{AllocError, Global};

/// Many places of an owner, in ascending order, and which orders they have.
#[derive(Drop)]
pub struct ManyPlaces {
    places: SortedPlaces,
    orders: Orders,
    ghost ordered: { HaveOrders places orders },
}

impl ManyPlaces {
    ghost use Rattle.std.specs.Prelude.{◌≡◌, ◌<◌, ◌&&◌, ◌||◌, ℕ, IfSome, OnOk, [], false, None};
    ghost use Rattle.std.specs.Prelude.{◌⊎◌, Some, not, option_map, true};
    ghost use Rattle.std.specs.BTreeMap.{is_at};
    ghost use Rattle.std.specs.BTreeMap.Range.{is_from_start};
    ghost use Rattle.std.specs.declared.ops.Bound.TheVariants.{Excluded, Included};
    ghost use Rattle.mapdb_facts.specs.declared.names.RecordId.{RecordId};
    ghost use Rattle.mapdb_lists.specs.OwnPlaces.{AreAligned, HasReached, HasReachedFrom, IsBehind};
    ghost use Rattle.mapdb_lists.specs.OwnPlaces.{IsFirstPlaceWhere, IsLastWhereSaid, IsNameMeeting};
    ghost use Rattle.mapdb_lists.specs.OwnPlaces.{IsNextPlace, found_place, orders_ahead, own_meets};
    ghost use Rattle.mapdb_lists.specs.OwnPlaces.{place_cmp, spot_place, stands};
    ghost use Rattle.mapdb_lists.specs.Standing.{is_named};
    ghost use Rattle.mapdb_lists.specs.declared.own_place.OwnPlace.{OwnPlace};

    /// No places. It takes no memory.
    pub(crate) fn new(alloc: Global) -> ManyPlaces
        ensures { result.places ≡ [] }
    {
        ManyPlaces {
            places: SortedPlaces::new(alloc),
            orders: Orders::NONE,
        }
    }

    /// Puts one place more. An error where memory ran out.
    pub(crate) fn insert(&mut self, alloc: Global, place: OwnPlace) -> Result<(), AllocError>
        ensures { OnOk result ((k : OwnPlace) → stands self.new.places k
            ≡ (is_at (place_cmp place) k || stands self.old.places k)) }
    {
        self.orders.add(place.order());
        self.places.insert(alloc, place)
    }

    /// Takes a place out, where it stands here. It takes no memory. The orders stay: one that no
    /// place has any more costs a look, and misses none.
    pub(crate) fn remove(&mut self, place: OwnPlace)
        ensures { (k : OwnPlace) → stands self.new.places k
            ≡ (not (is_at (place_cmp place) k) && stands self.old.places k) }
    {
        self.places.remove(place);
    }

    /// The least place from one on.
    pub(crate) fn first_from(&self, from: OwnPlace) -> Option<OwnPlace>
        ensures { IsFirstPlaceWhere (is_from_start place_cmp (Included from)) self.now.places
            result }
    {
        let spot = self.places.first_from(from)?;
        Some(spot.place)
    }

    /// The least place above one.
    pub(crate) fn first_above(&self, after: OwnPlace) -> Option<OwnPlace>
        ensures { IsFirstPlaceWhere (is_from_start place_cmp (Excluded after)) self.now.places
            result }
    {
        let spot = self.places.first_above(after)?;
        Some(spot.place)
    }

    /// The first place, of an order from one on, that may hold a page or come behind it.
    fn reach(&self, order: u8, page: u64) -> Option<Spot>
        requires aligned { AreAligned self.now.places }
        requires near { page < FIRST_LIMIT }
        ensures reached { (end : ℕ) → HasReachedFrom self.now.places order page end
            (option_map spot_place result) }
        ensures behind { IfSome result (IsBehind self.now.places) }
    {
        match self.orders.next_from(order.max(LEAST_ORDER)) {
            Some(next) if next <= TOP_ORDER => self.places.first_from(start_of(next, page)),
            _ => None,
        }
    }

    /// The first place above another, where there is one, that may meet the pages.
    fn begin(&self, first: u64, end: u64, after: Option<OwnPlace>) -> Option<Spot>
        requires aligned { AreAligned self.now.places }
        requires near { first < FIRST_LIMIT }
        ensures reached { HasReached self.now.places first end after
            (option_map spot_place result) }
        ensures behind { IfSome result (IsBehind self.now.places) }
    {
        let Some(place) = after else {
            return self.reach(0, first);
        };
        if place.first() >= end {
            return self.reach(place.order().saturating_add(1), first);
        }
        self.places.first_above(place)
    }

    /// What comes next that may meet the pages, behind a place that does not: from its order's
    /// place that holds the first page on, or of the orders above.
    fn pass(&self, place: OwnPlace, first: u64, end: u64) -> Option<Spot>
        requires aligned { AreAligned self.now.places }
        requires held { stands self.now.places place ≡ true }
        requires pages { first < end }
        requires apart { own_meets place first end ≡ false }
        requires near { first < FIRST_LIMIT }
        ensures reached { HasReached self.now.places first end (Some place)
            (option_map spot_place result) }
        ensures fewer { orders_ahead first (option_map spot_place result)
            < orders_ahead first (Some place) }
        ensures behind { IfSome result (IsBehind self.now.places) }
    {
        if place.first() >= end {
            return self.reach(place.order() + 1, first);
        }
        self.places.first_from(start_of(place.order(), first))
    }

    /// Whether no place above a spot's can begin before the end of the pages.
    fn is_last(&self, spot: Spot, first: u64, end: u64) -> bool
        requires aligned { AreAligned self.now.places }
        requires behind { IsBehind self.now.places spot }
        ensures { result ≡ true
            → IsNextPlace self.now.places first end (Some spot.place) None }
    {
        let order = spot.place.order();
        let Some(next) = spot.next else {
            return true;
        };
        if next.order() == order && next.first() < end {
            return false;
        }
        self.orders.next_from(order.saturating_add(1)).is_none()
    }

    /// The least place, above another, that meets the pages from `first` on up to before `end`. The
    /// other may stand at the index `at` of a list: then it is not searched for there.
    pub(crate) fn next_meeting(
        &self,
        first: u64,
        end: u64,
        after: Option<OwnPlace>,
        at: usize,
    ) -> Option<FoundPlace>
        requires { AreAligned self.now.places }
        ensures next { IsNextPlace self.now.places first end after
            (option_map found_place result) }
        ensures last { IfSome result (IsLastWhereSaid self.now.places first end) }
    {
        if first >= end.min(FIRST_LIMIT) {
            return None;
        }
        if let Some(list) = self.places.listed() {
            return list_next(list, self.orders, first, end, after, at);
        }
        let mut reached = self.begin(first, end, after);
        'orders: while let Some(spot) = reached {
            let place = spot.place;
            if place.meets(first, end) {
                let last = self.is_last(spot, first, end);
                return Some(FoundPlace { place, at: 0, last });
            }
            reached = self.pass(place, first, end);
        }
        None
    }

    /// Adds the names of all places that meet the pages from `first` on up to before `end`. An
    /// error where memory ran out.
    pub(crate) fn add_names(
        &self,
        names: &mut SmallVec<RecordId, 1>,
        first: u64,
        end: u64,
    ) -> Result<(), AllocError>
        requires { AreAligned self.now.places }
        ensures kept { OnOk result ((id : RecordId) → is_named names.old.items id ≡ true
            → is_named names.new.items id ≡ true) }
        ensures named { OnOk result ((p : OwnPlace) → stands self.now.places p ≡ true
            → own_meets p first end ≡ true → is_named names.new.items p.id ≡ true) }
        ensures only { OnOk result ((id : RecordId) → is_named names.new.items id ≡ true
            → (is_named names.old.items id ≡ true) ⊎ IsNameMeeting self.now.places first end id) }
    {
        if first >= end.min(FIRST_LIMIT) {
            return Ok(());
        }
        let mut reached = self.orders.next_from(LEAST_ORDER);
        'orders: while let Some(order) = reached {
            if order > TOP_ORDER {
                return Ok(());
            }
            self.places.add_names(names, start_of(order, first), end)?;
            reached = self.orders.next_from(order + 1);
        }
        Ok(())
    }
}
