//! The limits of names.

/// The numbers of records lie below this.
pub const NUMBER_LIMIT: u64 = 1 << 40;

/// The numbers of processors lie below this.
pub const PROCESSOR_LIMIT: u8 = 64;

/// How far beyond twice the names that came before it, or that are expected, the number of a near
/// name may lie. It is this great since operations may come in any order, and each list of near
/// names may be as long.
pub(crate) const NEAR_NUMBERS: u64 = 16_384;

/// So many numbers has a byte, as which a name has its processor.
pub(crate) const PROCESSOR_NUMBERS: u64 = 1 << 8;

/// The numbers of names lie below this. Those of well-formed operations lie far below it.
pub const NAME_NUMBERS: u64 = 1 << 56;
