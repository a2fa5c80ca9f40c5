//! The law of a node's limits, the contract of a function that does nothing.

ghost use Rattle.std.specs.Prelude.{◌≡◌, ◌^◌};

use crate::limits::{MOST_ENTRIES, MOST_SEATS};

/// The numbers that the limits are.
pub fn node_limits()
    ensures { (MOST_ENTRIES ≡ 2 ^ 20) × (MOST_SEATS ≡ 64) }
{}
