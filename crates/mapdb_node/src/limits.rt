//! The limits of a node.

/// A journal has at most this many entries.
pub const MOST_ENTRIES: usize = 1_048_576;

/// A node gives at most this many seats.
pub const MOST_SEATS: u32 = 64;
