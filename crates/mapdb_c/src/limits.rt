//! The limits of numbers that C hands over.

/// The numbers of spaces lie below this.
pub(crate) const SPACE_LIMIT: u32 = 1 << 16;

/// Values of rights lie below this.
pub(crate) const RIGHTS_LIMIT: u32 = 1 << 3;
