//! The limits of an exchange.

/// An exchange runs at most this many scripts, each at a processor of its own.
pub const MOST_SCRIPTS: usize = 4;

/// A link holds at most this many messages.
pub const MOST_CAPACITY: usize = 1_024;
