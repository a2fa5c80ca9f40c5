//! The records of a space that have a right at a page, found among the places that hold it.

ghost use Rattle.std.specs.Prelude.{◌≡◌, ◌<◌, ◌&&◌, not, true, IfOk};
ghost use Rattle.mapdb_facts.specs.Facts.{records_of_facts, state_of_facts};
ghost use Rattle.mapdb_facts.specs.Names.{is_after, is_first_space, root};
ghost use Rattle.mapdb_fpage.specs.Bounds.{page_limit};
ghost use Rattle.mapdb_fpage.specs.RightSets.{is_empty};
ghost use Rattle.mapdb_lists.specs.Listing.{IsFirstInside};
ghost use Rattle.mapdb_lists.specs.declared.places.Owner.TheVariants as owners;
ghost use Rattle.mapdb_rights.specs.Among.{behind_name, IsLeastOf, IsLiveRoot, IsShown, IsShownAt};
ghost use Rattle.mapdb_rights.specs.Among.{StandsAt, is_shown, lesser};
ghost use Rattle.mapdb_rights.specs.Following.{Shows};
ghost use Rattle.mapdb_rights.specs.Live.{IsLive, IsLiveFrom, live_names};
ghost use Rattle.mapdb_rights.specs.PageRights.{is_record_into};
ghost use Rattle.mapdb_rights.specs.Right.{rights_at};

use mapdb_facts::{Facts, RecordId, Space};
use mapdb_fpage::PAGE_LIMIT;
use mapdb_lists::{AllChanges, FIRST_LIMIT, Listed, Owner, Places, cached_at};
use std::alloc::{AllocError, Global};

/// The lesser of two names.
fn lesser(one: Option<RecordId>, other: Option<RecordId>) -> Option<RecordId>
    ensures { result ≡ lesser one other }
{
    match (one, other) {
        (Some(a), Some(b)) => Some(if b.is_before(a) { b } else { a }),
        (Some(a), None) => Some(a),
        (None, found) => found,
    }
}

/// The first entry of a place's owner that stands at the place under a name above another, or
/// behind the place.
fn entry_after(live: &Places, place: &Listed, after: Option<RecordId>) -> Option<Listed>
    requires { place.now.first < FIRST_LIMIT }
    ensures { IsFirstInside live.now place.now.owner (behind_name place.now after) result }
{
    match after {
        Some(id) => live.first_above(Listed { id, ..*place }),
        None => live.first_from(Listed {
            id: RecordId::ROOT,
            ..*place
        }),
    }
}

/// The least name above another, or of all, that stands at the place.
fn name_after(live: &Places, place: &Listed, after: Option<RecordId>) -> Option<RecordId>
    requires { place.now.first < FIRST_LIMIT }
    ensures { IsLeastOf (StandsAt live.now place.now) (StandsAt live.now place.now) after result }
{
    let Some(entry) = entry_after(live, place, after) else {
        return None;
    };
    if entry.order != place.order || entry.first != place.first {
        return None;
    }
    let id = entry.id;
    Some(id)
}

/// Whether the name, which is that of a record into the space, has a right at the page.
fn is_shown(
    changes: &AllChanges,
    live: &Places,
    facts: &Facts,
    space: Space,
    page: u64,
    id: RecordId,
) -> bool
    requires stands { Shows changes.now live.now (state_of_facts facts.now) }
    requires into { is_record_into ((state_of_facts facts.now).record_at id) space ≡ true }
    ensures { result ≡ is_shown (state_of_facts facts.now) space page id }
{
    !cached_at(changes, id, page).is_none()
}

/// The least of the names at a place above another, or of all, whose records of the space have a
/// right at the page.
fn shown_after(
    changes: &AllChanges,
    live: &Places,
    facts: &Facts,
    space: Space,
    page: u64,
    place: &Listed,
    after: &Option<RecordId>,
) -> Option<RecordId>
    requires stands { Shows changes.now live.now (state_of_facts facts.now) }
    requires owned { place.now.owner ≡ owners.Space space }
    requires near { place.now.first < FIRST_LIMIT }
    ensures { IsLeastOf (IsShown (state_of_facts facts.now) space page)
        (IsShownAt live.now (state_of_facts facts.now) space page place.now) after.now result }
{
    let mut from = *after;
    'names: while let Some(id) = name_after(live, place, from) {
        if is_shown(changes, live, facts, space, page, id) {
            return Some(id);
        }
        from = Some(id);
    }
    None
}

/// Whether the root comes: it is of the space, has a right at the page, and nothing stands before
/// it.
fn root_comes(
    changes: &AllChanges,
    live: &Places,
    facts: &Facts,
    space: Space,
    page: u64,
    after: &Option<RecordId>,
) -> bool
    requires { Shows changes.now live.now (state_of_facts facts.now) }
    ensures { result ≡ (is_after after.now root && is_first_space space
        && not (is_empty (rights_at (state_of_facts facts.now) root page))) }
{
    after.is_none() && space.is_first() && !cached_at(changes, RecordId::ROOT, page).is_none()
}

/// The root, where it comes.
fn root_after(
    changes: &AllChanges,
    live: &Places,
    facts: &Facts,
    space: Space,
    page: u64,
    after: &Option<RecordId>,
) -> Option<RecordId>
    requires { Shows changes.now live.now (state_of_facts facts.now) }
    ensures { IsLeastOf (IsLive (state_of_facts facts.now) space page)
        (IsLiveRoot (state_of_facts facts.now) space page) after.now result }
{
    if root_comes(changes, live, facts, space, page, after) {
        Some(RecordId::ROOT)
    } else {
        None
    }
}

/// What stands behind all entries of an entry's order.
fn behind_order(entry: Listed) -> Listed
    ensures { result ≡ record entry { first = page_limit } }
{
    Listed {
        first: PAGE_LIMIT,
        ..entry
    }
}

/// The least record of the space above another name, or of all, that has a right at the page; in
/// the first space the root is one of them. It takes no memory: of each order one place holds the
/// page, and its names ascend.
pub(crate) fn live_after(
    changes: &AllChanges,
    live: &Places,
    facts: &Facts,
    space: Space,
    page: u64,
    after: Option<RecordId>,
) -> Option<RecordId>
    requires { Shows changes.now live.now (state_of_facts facts.now) }
    ensures { IsLiveFrom (state_of_facts facts.now) space page after result }
{
    let end = page.saturating_add(1);
    let mut found = root_after(changes, live, facts, space, page, &after);
    let mut passed = None;
    'orders: while let Some(entry) = live.next_meeting(Owner::Space(space), page, end, passed) {
        let shown = shown_after(changes, live, facts, space, page, &entry, &after);
        found = lesser(found, shown);
        passed = Some(behind_order(entry));
    }
    found
}

/// The names of all records of the space that have a right at the page, in ascending order; in the
/// first space the root is one of them.
pub(crate) fn all_live(
    alloc: Global,
    changes: &AllChanges,
    live: &Places,
    facts: &Facts,
    space: Space,
    page: u64,
) -> Result<Vec<RecordId>, AllocError>
    requires { Shows changes.now live.now (state_of_facts facts.now) }
    ensures { IfOk result (λ found. found.items
        ≡ live_names (state_of_facts facts.now) (records_of_facts facts.now) space page) }
{
    let mut found = Vec::new(alloc);
    let mut after = None;
    'names: while let Some(id) = live_after(changes, live, facts, space, page, after) {
        found.push(id)?;
        after = Some(id);
    }
    Ok(found)
}
