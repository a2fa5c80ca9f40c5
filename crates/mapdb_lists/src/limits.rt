//! How long the lists of an index may be, and how many orders it has bits for.

/// How many changes stand in a list that is halved; more stand in a map.
pub(crate) const FEW_CHANGES: usize = 32;

/// For how many changes more a full list of changes gets room: pages in the midst of a record that
/// get other rights are two, and where some did, more do.
pub(crate) const ROOM_FOR_CHANGES: usize = 4;

/// How many places are looked through one by one; more stand in their order.
pub(crate) const FEW_PLACES: usize = 32;

/// How many places stand in a list that is halved; more stand in a tree.
pub(crate) const SOME_PLACES: usize = 256;

/// For each order below this there is a bit.
pub(crate) const ORDER_LIMIT: u8 = 64;

/// First pages of places lie below this: a place's order and first page are one number.
pub const FIRST_LIMIT: u64 = 1 << 56;
