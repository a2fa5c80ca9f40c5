//! The copy of the mapping database for kernels in C.
//!
//! A [`handles::Handle`] has a copy or none. Each call takes the copy out of its handle, asks it,
//! and puts it back. Which statuses a call answers, and in which order they are looked for,
//! include/mapdb.h says.
//!
//! # A use
//!
//! ```c
//! mapdb_copy copy = MAPDB_EMPTY;
//! mapdb_space root = {0, 0}, task = {1, 0};
//! mapdb_fpage page = {0x10000, 12, MAPDB_READ}, window = {0x40000, 12, 0};
//! mapdb_issued issued;
//! mapdb_found found;
//! if (mapdb_create(&copy, 0) == MAPDB_DONE
//!     && mapdb_map(&copy, root, 0, &page, task, &window, &issued) == MAPDB_DONE
//!     && mapdb_served(&copy, task, 0x40, &found) == MAPDB_DONE)
//!     enter(found.frame, found.rights);
//! mapdb_destroy(&copy);
//! ```
#![tactic(auto)]

mod asking;
mod commands;
mod comparing;
mod faults;
mod filling;
mod giving;
mod handles;
mod issuing;
mod life;
mod limits;
mod loose;
mod operations;
mod raw_places;
mod reading;
mod snapshots;
mod statuses;
mod tables;
mod taking;
