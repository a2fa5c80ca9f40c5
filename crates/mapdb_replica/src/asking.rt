//! What is asked of the index of rights, and of the facts alone where the index is absent.

ghost use Rattle.std.specs.Prelude.{◌≡◌, ◌≤◌, ◌<◌, ℕ};
ghost use Rattle.mapdb_facts.specs.Facts.{state_of_facts};
ghost use Rattle.mapdb_rights.specs.Index.{KeepsUp};
ghost use Rattle.mapdb_rights.specs.Live.{IsLiveFrom};
ghost use Rattle.mapdb_rights.specs.Right.{rights_at};
ghost use Rattle.mapdb_replica.specs.Pairs.{holder_pair};

use crate::page_rights::pair_at;
use mapdb_facts::{Facts, RecordId, Space};
use mapdb_fpage::{PAGE_LIMIT, Rights};
use mapdb_rights::{RightsIndex, live_after, rights_of, steady_until};

/// The rights of a record, or of the root, at a page: none where the record is not held.
pub(crate) fn held_rights(facts: &Facts, index: &RightsIndex, id: RecordId, page: u64) -> Rights
    requires { KeepsUp index.now (state_of_facts facts.now) }
    ensures { result ≡ rights_at (state_of_facts facts.now) id page }
{
    match index.right_at(id, page) {
        Some(rights) => rights,
        None => rights_of(facts, id, page),
    }
}

/// What a record has at a page: its frame with its rights, where it has any.
pub(crate) fn held_pair(
    facts: &Facts,
    index: &RightsIndex,
    id: RecordId,
    page: u64,
) -> Option<(u64, Rights)>
    requires { KeepsUp index.now (state_of_facts facts.now) }
    ensures { result ≡ holder_pair (state_of_facts facts.now) page id }
{
    match index.pair_at(id, page) {
        Some(pair) => pair,
        None => pair_at(facts, id, page),
    }
}

/// The end of pages, from one on, over which a record has equal rights. It may have them behind
/// this end too.
pub(crate) fn equal_until(facts: &Facts, index: &RightsIndex, id: RecordId, page: u64) -> u64
    requires page { page < PAGE_LIMIT }
    requires kept { KeepsUp index.now (state_of_facts facts.now) }
    ensures above { page < result }
    ensures same { (q : ℕ) → page ≤ q → q < result
        → rights_at (state_of_facts facts.now) id q ≡ rights_at (state_of_facts facts.now) id page }
{
    match index.unchanged_until(id, page) {
        Some(end) => end,
        None => steady_until(facts, id, page),
    }
}

/// The least record of the space above another name, or of all, that has a right at the page; in
/// the first space the root is one of them.
pub(crate) fn next_live(
    facts: &Facts,
    index: &RightsIndex,
    space: Space,
    page: u64,
    after: Option<RecordId>,
) -> Option<RecordId>
    requires { KeepsUp index.now (state_of_facts facts.now) }
    ensures { IsLiveFrom (state_of_facts facts.now) space page after result }
{
    match index.live_at(facts, space, page, &after) {
        Some(found) => found,
        None => live_after(facts, space, page, after),
    }
}
