//! The limit of a tree.

/// The greatest order of a place that a Map carries or an Unmap names: the tree goes over its pages
/// one by one.
pub const WIDEST_ORDER: u8 = 32;
