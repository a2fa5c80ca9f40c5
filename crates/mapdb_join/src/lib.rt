//! Values that merge: copies that change apart agree again once they have merged, in any order and
//! however often.
//!
//! # What a join is
//!
//! A value is seen as a finite set of *atoms*. One value covers another where it has each of the
//! other's atoms. The *join* of two values is the least value that covers both: the one with the
//! atoms of both and no others. So a join is commutative, associative and idempotent ([`laws`]).
//!
//! Some atoms exclude each other, and no value has two that do. Two values *clash* where one has
//! an atom that excludes an atom of the other. Exactly these have no join, nor any common upper
//! bound. [`Merge::clash`] names the spot, and [`Merge::merge`] then changes nothing.
//!
//! | Type | Its atoms | What clashes | A spot |
//! |---|---|---|---|
//! | [`Flat`] | its one value | two different values | `()` |
//! | [`BitsOr`] | the bits that are set in a byte | nothing | `()` |
//! | [`Grow`] | its keys | nothing | `()` |
//! | [`Runs`] | the bits of each page | nothing | `()` |
//! | [`JoinMap`] | each atom of a value, with its key | values under a key | a key and a spot |
//! | [`Both`] | the atoms of its two parts | the parts | the part and a spot |
//!
//! The spot of a map is the least key under which values clash, with the spot there. The spot of
//! two parts is the part, the first one first, with the spot there.
//!
//! # One value
//!
//! ```
//! let mut owner = Flat::new(7u32);
//! assert!(rt; owner.merge(&Flat::new(7)) == Ok(()));
//! assert!(rt; owner.merge(&Flat::new(8)) == Err(MergeFault::Clash(())));
//! assert_eq!(rt; owner.get(), 7);
//! ```
//!
//! # Bits
//!
//! ```
//! let mut rights = BitsOr::new(0b001);
//! assert!(rt; rights.merge(&BitsOr::new(0b100)) == Ok(()));
//! assert!(rt; !rights.add(0b101));
//! assert_eq!(rt; rights.bits(), 0b101);
//! ```
//!
//! # A set that grows
//!
//! ```
//! let mut ended = Grow::new(rt.alloc());
//! assert!(rt; ended.add(3u16)?);
//! assert!(rt; !ended.add(3)?);
//! assert!(rt; ended.has(&3) && !ended.has(&4));
//! ```
//!
//! # Bits of pages
//!
//! ```
//! let mut taken = Runs::new(rt.alloc());
//! assert!(rt; taken.add(3, 2, 0b010)? && taken.add(5, 4, 0b010)?);
//! assert!(rt; taken.run_from(0) == Some((3, 6, 0b010)));
//! assert!(rt; !taken.add(4, 2, 0b010)? && taken.at(8) == 0b010);
//! ```
//!
//! # A map
//!
//! ```
//! let mut owners = JoinMap::new(rt.alloc());
//! owners.insert(2u8, Flat::new(20u32))?;
//! assert!(rt; owners.next(None).is_some() && owners.next(Some(2)).is_none());
//! assert!(rt; owners.last() == Some(2));
//! ```
//!
//! # Two values side by side
//!
//! ```
//! let mut page = Both { first: BitsOr::new(1), second: Flat::new(9u64) };
//! let wrong = Both { first: BitsOr::new(2), second: Flat::new(8u64) };
//! assert!(rt; page.merge(&wrong) == Err(MergeFault::Clash(OneOf::Second(()))));
//! assert_eq!(rt; page.first.bits(), 1);
//! ```
//!
//! # Nesting
//!
//! The values of a map are of any type that merges, so of maps too. A part of nested maps is the
//! path to an innermost value with what to merge there, and [`MergePart::merge_part`] takes it as a
//! whole or not at all:
//!
//! ```
//! let mut records: JoinMap<u64, JoinMap<u8, Flat<u32>>> = JoinMap::new(rt.alloc());
//! assert!(rt; records.merge_part((5, (1, 10))) == Ok(()));
//! assert!(rt; records.merge_part((5, (2, 20))) == Ok(()));
//! assert!(rt; records.merge_part((5, (1, 11))) == Err(MergeFault::Clash(())));
//! ```
//!
//! # Memory
//!
//! A value that may grow takes its allocator when it is made, and making it takes no memory. Only
//! calls whose answer has an error take any. A `merge` that is refused memory leaves something
//! between the old value and the join; every other call leaves all as it was. The one entry of a
//! map lies in the map itself, and a tree is made for the second.
//!
//! # Types of your own
//!
//! A key, or the value of a [`Flat`], is of a type that is [`Exact`]; its [`Representable`] says
//! which values a program can have of it. A type that implements [`Merge`] nests like those here.
#![tactic(auto)]

mod bits;
mod both;
mod entries;
mod exact;
mod flat;
mod grow;
pub mod laws;
mod least;
mod map;
mod merge;
mod part;
mod runs;
mod walks;

pub use bits::BitsOr;
pub use both::{Both, OneOf};
pub use exact::{Exact, Representable};
pub use flat::Flat;
pub use grow::Grow;
pub use least::least_above;
pub use map::JoinMap;
pub use merge::{Merge, MergeFault};
pub use part::MergePart;
pub use runs::{BITS_LIMIT, RUN_LIMIT, Region, Runs};
