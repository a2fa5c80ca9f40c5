//! The law of a tree's limit, the contract of a function that does nothing.

ghost use Rattle.std.specs.Prelude.{◌≡◌};

use crate::limits::WIDEST_ORDER;

/// The number that the limit is: 2^32 bytes.
pub fn tree_limit()
    ensures { WIDEST_ORDER ≡ 32 }
{}
