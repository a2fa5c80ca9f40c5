//! Many changes of a record, found in their order.

ghost use Rattle.std.specs.Prelude.{◌≡◌, ◌≤◌, ◌<◌, ℕ, false, true, Some, None, OnOk, nat_eq};
ghost use Rattle.std.specs.Prelude.{if◌then◌else◌};
ghost use Rattle.std.specs.Option.{unwrap_or};
ghost use Rattle.mapdb_lists.specs.Changes.{IsRewritten, IsStretch, left_before};
ghost use Rattle.mapdb_lists.specs.OwnChanges.{IsLastUpTo, IsNoneUntil, mapped_change};
ghost use Rattle.mapdb_lists.specs.Replacing.{HasNoRights, HasRights};

use crate::changes::{Change, Stretch};
use mapdb_fpage::PAGE_LIMIT;
use std::alloc::AllocError;
use std::collections::BTreeMap;
use std::ops::Bound;

/// The last change up to a page, and where it stands.
pub(crate) fn many_last(map: &BTreeMap<u64, Change>, page: u64) -> Option<(u64, Change)>
    ensures { IsLastUpTo (mapped_change map.now) page result }
{
    match map
        .range((Bound::Unbounded, Bound::Included(&page)))
        .next_back()
    {
        Some((at, change)) => Some((*at, *change)),
        None => None,
    }
}

/// The page of the next change behind a page: the end of the space where there is none.
pub(crate) fn many_next(map: &BTreeMap<u64, Change>, page: u64) -> u64
    requires { page < PAGE_LIMIT }
    ensures above { page < result }
    ensures limit { result ≤ PAGE_LIMIT }
    ensures none { IsNoneUntil (mapped_change map.now) page result }
{
    match map.range((Bound::Excluded(&page), Bound::Unbounded)).next() {
        Some((at, _)) => (*at).min(PAGE_LIMIT),
        None => PAGE_LIMIT,
    }
}

/// What stands at a page, and how far, where this stands before any change.
pub(crate) fn many_stretch(map: &BTreeMap<u64, Change>, first: &Change, page: u64) -> Stretch
    requires { page < PAGE_LIMIT }
    ensures { IsStretch (mapped_change map.now) first.now page result }
{
    let end = many_next(map, page);
    match many_last(map, page) {
        Some((_, change)) => Stretch { change, end },
        None => Stretch {
            change: *first,
            end,
        },
    }
}

/// Whether there are rights at some page, where this stands before any change.
pub(crate) fn many_rights(map: &BTreeMap<u64, Change>, before: &Change) -> bool
    ensures some { result ≡ true → HasRights (mapped_change map.now) before.now }
    ensures none { result ≡ false → HasNoRights (mapped_change map.now) before.now }
{
    let mut page = 0;
    'pages: while page < PAGE_LIMIT {
        let next = many_stretch(map, before, page);
        if !next.change.is_none() {
            return true;
        }
        page = next.end;
    }
    false
}

/// Puts a change, in place of one that stands at its page. An error where memory ran out.
pub(crate) fn many_put(
    map: &mut BTreeMap<u64, Change>,
    page: u64,
    change: Change,
) -> Result<(), AllocError>
    ensures { OnOk result ((q : ℕ) → mapped_change map.new q
        ≡ (if nat_eq page q then Some change else mapped_change map.old q)) }
{
    map.insert(page, change)?;
    Ok(())
}

/// Takes the change at a page away, if one stands there.
fn many_remove(map: &mut BTreeMap<u64, Change>, page: u64)
    ensures { (q : ℕ) → mapped_change map.new q
        ≡ (if nat_eq page q then None else mapped_change map.old q) }
{
    map.remove(&page);
}

/// What stands in front of a page, where this stands before any change.
fn many_before(map: &BTreeMap<u64, Change>, first: Change, page: u64) -> Change
    ensures { result ≡ left_before (mapped_change map.now) first page }
{
    if page == 0 {
        return first;
    }
    match many_last(map, page - 1) {
        Some((_, change)) => change,
        None => first,
    }
}

/// At the end of pages that get this change, what follows stays as it was. A change there that says
/// no more than this one is not kept. An error where memory ran out.
fn many_write_end(
    map: &mut BTreeMap<u64, Change>,
    end: u64,
    was: Change,
    change: &Change,
) -> Result<(), AllocError>
    ensures there { OnOk result (end < PAGE_LIMIT
        → unwrap_or (mapped_change map.new end) change.now
        ≡ unwrap_or (mapped_change map.old end) was) }
    ensures once { OnOk result (end < PAGE_LIMIT → mapped_change map.old end ≡ Some change.now
        → mapped_change map.new end ≡ None) }
    ensures elsewhere { OnOk result ((q : ℕ) → (end ≡ q → ⊥)
        → mapped_change map.new q ≡ mapped_change map.old q) }
{
    if end >= PAGE_LIMIT {
        return Ok(());
    }
    let Some(next) = map.get(&end).copied() else {
        return many_put(map, end, was);
    };
    if next.is(change) {
        many_remove(map, end);
    }
    Ok(())
}

/// Puts a change, if it is not what stands in front of its page, in place of one that stands there.
/// An error where memory ran out.
fn many_write_first(
    map: &mut BTreeMap<u64, Change>,
    before: Change,
    page: u64,
    change: Change,
) -> Result<(), AllocError>
    ensures there { OnOk result (unwrap_or (mapped_change map.new page)
        (left_before (mapped_change map.old) before page) ≡ change) }
    ensures once { OnOk result (change ≡ left_before (mapped_change map.old) before page
        → mapped_change map.new page ≡ None) }
    ensures elsewhere { OnOk result ((q : ℕ) → (page ≡ q → ⊥)
        → mapped_change map.new q ≡ mapped_change map.old q) }
{
    if change.is(&many_before(map, before, page)) {
        many_remove(map, page);
        return Ok(());
    }
    many_put(map, page, change)
}

/// Gives a change to pages over which another stood, where this stands before any change. An error
/// where memory ran out.
pub(crate) fn many_write(
    map: &mut BTreeMap<u64, Change>,
    before: Change,
    first: u64,
    end: u64,
    was: Change,
    change: Change,
) -> Result<(), AllocError>
    requires { first < end }
    ensures { OnOk result (IsRewritten (mapped_change map.old) before first end was change
        (mapped_change map.new)) }
{
    many_write_end(map, end, was, &change)?;
    many_write_first(map, before, first, change)
}
