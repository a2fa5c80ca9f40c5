//! The bounds of pages and bits.

/// Pages of runs are numbered below this.
pub const RUN_LIMIT: u64 = 1 << 36;

/// The bits of a page are below this.
pub const BITS_LIMIT: u8 = 1 << 3;
