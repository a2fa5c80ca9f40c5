//! A place of one owner, and the record that stands for it.

ghost use Rattle.std.specs.Prelude.{◌≡◌, ◌<◌};
ghost use Rattle.std.specs.Ordering.{is_lt};
ghost use Rattle.mapdb_lists.specs.OwnPlaces.{IsAlignedPlace, own_meets, place_cmp};

use crate::limits::FIRST_LIMIT;
use mapdb_facts::RecordId;
use mapdb_fpage::pages_of_order;
use std::cmp::Ordering;
use std::marker::Model;

/// A place of an owner, and the record that stands for it. Places are ordered by their order, then
/// their first page, then the record's name; order and first page are kept as one number, so that
/// one comparison orders most places.
#[derive(Clone, Copy, Debug)]
pub struct OwnPlace {
    /// The order, times [`FIRST_LIMIT`], and the first page.
    key: u64,
    id: RecordId,
}

impl Model for OwnPlace {
    ghost use Rattle.mapdb_lists.specs.PlaceKeys.{OrderedPlace, key_comes_back, key_of, place_of_key};

    ghost Value = { OrderedPlace };

    ghost view = { λ p. place_of_key p.key p.id };

    ghost inverse = { λ p. record { key = key_of p.order p.first; id = p.id } };

    ghost inverse_ok = { λ p _ i. record { key = key_comes_back p.key i; id = p.id } };
}

/// Two places are the same where order, first page and name are.
impl PartialEq for OwnPlace {
    ghost use Rattle.std.specs.Cmp.{partial_equiv_from_equiv};
    ghost use Rattle.mapdb_lists.specs.PlaceOrders.{same_own, same_own_equivalence};

    ghost eq = { same_own };

    ghost laws = { partial_equiv_from_equiv same_own_equivalence };

    fn eq(&self, other: &OwnPlace) -> bool {
        self.key == other.key && self.id == other.id
    }
}

impl Eq for OwnPlace {
    ghost use Rattle.mapdb_lists.specs.PlaceOrders.{same_own_equivalence};

    ghost laws = { same_own_equivalence };
}

impl PartialOrd for OwnPlace {
    ghost use Rattle.std.specs.Ordering.{as_partial_cmp};
    ghost use Rattle.mapdb_lists.specs.Standing.{place_cmp};
    ghost use Rattle.mapdb_lists.specs.PlaceOrders.{places_partly_ordered};

    ghost partial_cmp = { as_partial_cmp place_cmp };

    ghost laws = { places_partly_ordered };

    fn partial_cmp(&self, other: &OwnPlace) -> Option<Ordering> {
        Some(self.cmp(other))
    }
}

impl Ord for OwnPlace {
    ghost use Rattle.std.specs.Prelude.{refl};
    ghost use Rattle.mapdb_lists.specs.Standing.{place_cmp};
    ghost use Rattle.mapdb_lists.specs.PlaceOrders.{place_total, same_where_equal};

    ghost cmp = { place_cmp };

    ghost total = { place_total };

    ghost matches_partial_cmp = { λ x y. refl };

    ghost matches_eq = { same_where_equal };

    fn cmp(&self, other: &OwnPlace) -> Ordering {
        match self.key.cmp(&other.key) {
            Ordering::Equal => self.id.cmp(&other.id),
            unequal => unequal,
        }
    }
}

impl OwnPlace {
    /// The place of this order from a page on, for a record.
    #[inline(always)]
    pub fn new(order: u8, first: u64, id: RecordId) -> OwnPlace
        requires { first < FIRST_LIMIT }
        ensures { result ≡ record { order = order; first = first; id = id } }
    {
        OwnPlace {
            key: order as u64 * FIRST_LIMIT + first,
            id,
        }
    }

    /// The order of the place.
    #[inline(always)]
    pub fn order(&self) -> u8
        ensures { result ≡ self.now.order }
    {
        (self.key / FIRST_LIMIT) as u8
    }

    /// The first page of it.
    #[inline(always)]
    pub fn first(&self) -> u64
        ensures page { result ≡ self.now.first }
        ensures limit { result < FIRST_LIMIT }
    {
        self.key % FIRST_LIMIT
    }

    /// The record that stands for it.
    #[inline(always)]
    pub fn id(&self) -> RecordId
        ensures { result ≡ self.now.id }
    {
        self.id
    }

    /// Whether a page of the place lies among the pages from `first` on up to before `end`.
    #[inline(always)]
    pub fn meets(&self, first: u64, end: u64) -> bool
        requires { IsAlignedPlace self.now }
        ensures { result ≡ own_meets self.now first end }
    {
        first < end && self.first() < end && first < self.first() + pages_of_order(self.order())
    }

    /// Whether the place comes before another.
    pub(crate) fn is_before(&self, other: &OwnPlace) -> bool
        ensures { result ≡ is_lt (place_cmp self.now other.now) }
    {
        self.cmp(other).is_lt()
    }
}
