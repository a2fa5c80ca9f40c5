//! Bits for pages that lie one behind the other.

ghost use Rattle.std.specs.Prelude.{◌≡◌, ◌≤◌, ◌<◌, ◌+◌};

use crate::runs::bounds::{BITS_LIMIT, RUN_LIMIT};
use std::marker::Model;

/// So many pages from a first one on, and the bits that each of them has.
#[derive(Clone, Copy, Debug, PartialEq, Eq)]
pub struct Region {
    first: u64,
    count: u64,
    bits: u8,
}

impl Model for Region {
    ghost use Rattle.mapdb_join.specs.Regions.{IsPageRange, PageRange};

    ghost Value = { PageRange };

    ghost view = { λ r. record { first = r.first; count = r.count; bits = r.bits } };

    ghost invariant = { λ r. IsPageRange (record {
      first = r.first;
      count = r.count;
      bits = r.bits;
    }) };

    ghost inverse = { λ r. record { first = r.first; count = r.count; bits = r.bits } };
}

impl Region {
    /// The region of these pages and bits.
    pub fn new(first: u64, count: u64, bits: u8) -> Region
        requires limit { first + count ≤ RUN_LIMIT }
        requires small { bits < BITS_LIMIT }
        ensures { result ≡ record { first = first; count = count; bits = bits } }
    {
        Region { first, count, bits }
    }

    /// The first page.
    pub fn first(&self) -> u64
        ensures first { result ≡ self.now.first }
        ensures limit { self.now.first + self.now.count ≤ RUN_LIMIT }
    {
        self.first
    }

    /// How many pages there are.
    pub fn count(&self) -> u64
        ensures { result ≡ self.now.count }
    {
        self.count
    }

    /// The bits of each page.
    pub fn bits(&self) -> u8
        ensures bits { result ≡ self.now.bits }
        ensures small { self.now.bits < BITS_LIMIT }
    {
        self.bits
    }
}
