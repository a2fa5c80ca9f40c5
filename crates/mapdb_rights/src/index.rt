//! What is kept beside facts, so that a question looks at the records that it concerns and no
//! others: the rights of records at pages, and where each record stands.

mod building;
mod children;
mod coming;
mod first_records;
mod first_until;
mod following;
mod frame_rights;
mod idle_places;
mod listing;
mod live_names;
mod live_places;
mod meeting;
mod ordered_places;
mod page_pairs;
mod page_rights;
mod place_walk;
mod questions;
mod rights_index;
mod runs;
mod served_pages;
mod settling;
mod sharing;
mod shown_spaces;
mod stale;
mod stepping;
mod unlisting;

pub use rights_index::RightsIndex;
pub use runs::RightsRun;
pub use served_pages::SteadyPages;
