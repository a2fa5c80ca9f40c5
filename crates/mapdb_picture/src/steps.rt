//! From a page of a record to the page of the parent that it comes from.

ghost use Rattle.std.specs.Prelude.{◌≡◌, ◌<◌, IfSome};
ghost use Rattle.mapdb_facts.specs.Facts.{state_of_facts};
ghost use Rattle.mapdb_picture.specs.Chain.{step_up};

use mapdb_facts::{Facts, RecordId};
use mapdb_rights::source_of;

/// A page of a record.
#[derive(Clone, Copy, Debug)]
pub struct Spot {
    /// The record's name.
    pub id: RecordId,
    /// The page.
    pub page: u64,
}

/// The page of the parent that a page of a record comes from: none from the root, and none where
/// the record is not held, or where the page lies outside of its place.
pub fn step_up(facts: &Facts, spot: Spot) -> Option<Spot>
    ensures source { result ≡ step_up (state_of_facts facts.now) spot }
    ensures earlier { IfSome result (λ source. source.id.number < spot.id.number) }
{
    if spot.id.is_root() {
        return None;
    }
    let mapping = facts.record(spot.id)?;
    if !mapping.place.holds(spot.page) {
        return None;
    }
    Some(Spot {
        id: mapping.parent,
        page: source_of(&mapping, spot.page),
    })
}
