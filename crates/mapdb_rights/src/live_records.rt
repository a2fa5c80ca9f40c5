//! The records of a space that have a right at a page, found by going over all records.

ghost use Rattle.std.specs.Prelude.{◌≡◌, ◌&&◌, not, false};
ghost use Rattle.mapdb_fpage.specs.RightSets.{is_empty};
ghost use Rattle.mapdb_facts.specs.Facts.{state_of_facts};
ghost use Rattle.mapdb_facts.specs.Names.{is_after, is_first_space, root, same_space};
ghost use Rattle.mapdb_rights.specs.Live.{IsLive, IsLiveFrom};
ghost use Rattle.mapdb_rights.specs.Right.{rights_at};

use crate::record_rights::rights_of;
use mapdb_facts::{Facts, Record, RecordId, Space};

/// Whether the root comes: it is one of the space, has a right at the page, and nothing stands
/// before it.
fn root_comes(facts: &Facts, space: Space, page: u64, after: &Option<RecordId>) -> bool
    ensures { result ≡ (is_after after.now root && is_first_space space
        && not (is_empty (rights_at (state_of_facts facts.now) root page))) }
{
    after.is_none() && space.is_first() && !rights_of(facts, RecordId::ROOT, page).is_none()
}

/// Whether a record is one of the space, and has a right at the page.
fn is_live(facts: &Facts, space: Space, page: u64, mapping: &Record) -> bool
    ensures { result ≡ (same_space mapping.now.space space
        && not (is_empty (rights_at (state_of_facts facts.now) mapping.now.id page))) }
{
    mapping.space.is(space) && !rights_of(facts, mapping.id, page).is_none()
}

/// The least record of the space above another that has a right at the page, where the root is none
/// of these.
fn record_after(facts: &Facts, space: Space, page: u64, after: Option<RecordId>) -> Option<RecordId>
    requires { IsLive (state_of_facts facts.now) space page root → is_after after root ≡ false }
    ensures { IsLiveFrom (state_of_facts facts.now) space page after result }
{
    let mut from = after;
    'records: while let Some(mapping) = facts.next_record(from) {
        if is_live(facts, space, page, &mapping) {
            return Some(mapping.id);
        }
        from = Some(mapping.id);
    }
    None
}

/// The least record of the space above another name, or of all, that has a right at the page; in
/// the first space the root is one of them. It takes no memory, and goes over all records.
pub fn live_after(
    facts: &Facts,
    space: Space,
    page: u64,
    after: Option<RecordId>,
) -> Option<RecordId>
    ensures { IsLiveFrom (state_of_facts facts.now) space page after result }
{
    if root_comes(facts, space, page, &after) {
        return Some(RecordId::ROOT);
    }
    record_after(facts, space, page, after)
}
