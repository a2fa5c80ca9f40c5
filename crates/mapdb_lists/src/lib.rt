//! What an index of rights keeps: what records have at pages, and where records stand.
//!
//! [`AllChanges`] has the pages of each record from which something else stands. [`Places`] has the
//! places of each owner, a space or the record that its children come from. Nothing here knows what
//! the facts say: that what is kept agrees with them is the caller's to see to.
//!
//! # A use
//!
//! ```
//! let id = RecordId::new(1, 0);
//! let mut changes = AllChanges::new(rt.alloc());
//! let all = Change { rights: Rights::ALL, shift: PAGE_LIMIT };
//! replace(&mut changes, id, 0x40, 0x44, all)?;
//! assert!(rt; cached_at(&changes, id, 0x43) == Rights::ALL);
//! assert!(rt; cached_at(&changes, id, 0x44) == Rights::NONE);
//! ```
#![tactic(auto)]

mod by_space;
mod change_lists;
mod changes;
mod few_changes;
mod few_places;
mod limits;
mod list_sweeps;
mod list_writes;
mod many_changes;
mod many_places;
mod orders;
mod own_changes;
mod own_place;
mod own_places;
mod owners_places;
mod place_lists;
mod place_names;
mod place_sets;
mod places;
mod short_lists;
mod sorted_places;
mod space_places;

pub use changes::{
    AllChanges, Change, Replaced, Stretch, begin, cached_at, has_rights, is_bare, replace, seen_at,
    stretch_at, unchanged_until,
};
pub use limits::FIRST_LIMIT;
pub use own_place::OwnPlace;
pub use own_places::{NextPlace, OwnPlaces, Sweep};
pub use places::{Listed, Owner, Places};
pub use short_lists::add_item;
