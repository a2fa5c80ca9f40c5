//! A set of orders of places.

ghost use Rattle.mapdb_lists.specs.Standing.{IsNextOrder, IsWithOrder};

use crate::limits::ORDER_LIMIT;

/// A set of orders of places.
#[derive(Clone, Copy, Debug)]
pub struct Orders {
    /// The bit of each order of the set is 1.
    bits: u64,
}

impl Orders {
    /// No orders.
    pub(crate) const NONE: Orders = Orders { bits: 0 };

    /// Adds an order, where a bit stands for it.
    pub(crate) fn add(&mut self, order: u8)
        ensures { IsWithOrder self.old order self.new }
    {
        if order < ORDER_LIMIT {
            self.bits |= 1 << order;
        }
    }

    /// The least order of the set from one on.
    pub(crate) fn next_from(self, order: u8) -> Option<u8>
        ensures { IsNextOrder self order result }
    {
        if order >= ORDER_LIMIT {
            return None;
        }
        let behind = self.bits >> order;
        if behind == 0 {
            return None;
        }
        Some(order + behind.trailing_zeros() as u8)
    }
}
