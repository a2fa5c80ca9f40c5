//! Rights of a record by page in a list in ascending order of page, found by halving it.

ghost use Rattle.std.specs.Prelude.{◌≡◌, ◌≤◌, ◌<◌, ℕ, false, true, Some, IfErr, IfOk, get_or};
ghost use Rattle.std.specs.Prelude.{◌&&◌, length, nat_lt, not};
ghost use Rattle.mapdb_fpage.specs.Bounds.{page_limit};
ghost use Rattle.mapdb_fpage.specs.RightSets.{is_empty};
ghost use Rattle.mapdb_fpage.specs.declared.right_sets.Rights.{Rights};
ghost use Rattle.mapdb_lists.specs.FewChanges.{listed_rights, shown};
ghost use Rattle.mapdb_lists.specs.OwnChanges.{IsLastUpTo, IsNoneUntil, mapped_change};
ghost use Rattle.mapdb_lists.specs.PageOrder.{IsGap, IsSpot, PagesRise, StandsAtPage};
ghost use Rattle.mapdb_lists.specs.declared.few_changes.PageRights.{PageRights};

use crate::changes::Change;
use crate::few_changes::PageRights;
use crate::many_changes::many_put;
use mapdb_fpage::{PAGE_LIMIT, Rights};
use std::alloc::{AllocError, Global};
use std::collections::BTreeMap;

/// How many of the changes stand at a page or in front of it.
#[inline(always)]
pub(crate) fn spot_of(list: &[PageRights], page: u64) -> usize
    requires { PagesRise list.now }
    ensures { IsSpot list.now page result }
{
    list.partition_point(|next| next.page() <= page)
}

/// The last change of so many, and where it stands.
#[inline(always)]
pub(crate) fn last_at(list: &[PageRights], spot: usize) -> Option<(u64, Rights)>
    requires rise { PagesRise list.now }
    requires inside { spot ≤ length list.now }
    ensures { (page : ℕ) → IsSpot list.now page spot
        → IsLastUpTo (listed_rights list.now) page result }
{
    if spot == 0 {
        return None;
    }
    let last = list[spot - 1];
    Some((last.page(), last.rights()))
}

/// The last change up to a page, and where it stands.
pub(crate) fn list_last(list: &[PageRights], page: u64) -> Option<(u64, Rights)>
    requires { PagesRise list.now }
    ensures { IsLastUpTo (listed_rights list.now) page result }
{
    last_at(list, spot_of(list, page))
}

/// The page of the change at a spot: the end of the space where there is none.
pub(crate) fn end_at(list: &[PageRights], spot: usize) -> u64
    ensures there { (d : PageRights) → spot < length list.now
        → result ≤ (get_or list.now spot d).page }
    ensures limit { result ≤ PAGE_LIMIT }
    ensures above { (page : ℕ) → page < PAGE_LIMIT → ((d : PageRights) → spot < length list.now
        → page < (get_or list.now spot d).page) → page < result }
{
    if spot < list.len() {
        list[spot].page().min(PAGE_LIMIT)
    } else {
        PAGE_LIMIT
    }
}

/// The page of the next change behind a page: the end of the space where there is none.
pub(crate) fn list_next(list: &[PageRights], page: u64) -> u64
    requires rise { PagesRise list.now }
    requires limit { page < PAGE_LIMIT }
    ensures above { page < result }
    ensures limit { result ≤ PAGE_LIMIT }
    ensures none { IsNoneUntil (listed_rights list.now) page result }
{
    let spot = spot_of(list, page);
    end_at(list, spot)
}

/// Whether a change is at a page of the space and has rights.
fn has_some(next: &PageRights) -> bool
    ensures { result ≡ (nat_lt next.now.page page_limit && not (is_empty next.now.rights)) }
{
    next.page() < PAGE_LIMIT && !next.rights().is_none()
}

/// Whether one of the changes, at a page of the space, has rights.
#[inline(always)]
pub(crate) fn any_rights(list: &[PageRights]) -> bool
    requires { PagesRise list.now }
    ensures some { result ≡ true → (page : ℕ) × (rights : Rights) × (page < PAGE_LIMIT)
        × (listed_rights list.now page ≡ Some rights) × (is_empty rights ≡ false) }
    ensures none { result ≡ false → (page : ℕ) (rights : Rights) → page < PAGE_LIMIT
        → listed_rights list.now page ≡ Some rights → is_empty rights ≡ true }
{
    for next in list {
        if has_some(next) {
            return true;
        }
    }
    false
}

/// Where the change at a page stands, or else where one belongs: so many stand at the page or in
/// front of it.
#[inline(always)]
pub(crate) fn index_at(list: &[PageRights], page: u64, spot: usize) -> Result<usize, usize>
    requires rise { PagesRise list.now }
    requires spot { IsSpot list.now page spot }
    ensures there { IfOk result (StandsAtPage list.now page) }
    ensures gap { IfErr result (IsGap list.now page) }
{
    if spot > 0 && list[spot - 1].page() == page {
        Ok(spot - 1)
    } else {
        Err(spot)
    }
}

/// These rights as a map of changes, all that are some with this shift. An error where memory ran
/// out.
pub(crate) fn map_of(
    alloc: Global,
    shift: u64,
    list: &[PageRights],
) -> Result<BTreeMap<u64, Change>, AllocError>
    requires { PagesRise list.now }
    ensures { IfOk result (λ map. (page : ℕ) → mapped_change map page
        ≡ shown shift (listed_rights list.now page)) }
{
    let mut map = BTreeMap::new(alloc);
    for next in list {
        many_put(
            &mut map,
            next.page(),
            Change::with_shift(shift, next.rights()),
        )?;
    }
    Ok(map)
}
