//! The limit of a copy.

/// A copy holds at most this many operations.
pub const MOST_OPERATIONS: usize = 65_536;
