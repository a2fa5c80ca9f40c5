//! The law of the limits of a run, the contract of a function that does nothing.

ghost use Rattle.std.specs.Prelude.{◌≡◌};

use crate::limits::{MOST_CAPACITY, MOST_SCRIPTS};

/// The numbers that the limits are.
pub fn exchange_limits()
    ensures { (MOST_SCRIPTS ≡ 4) × (MOST_CAPACITY ≡ 1024) }
{}
