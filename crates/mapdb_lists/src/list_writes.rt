//! Changes written to a list in ascending order of page, by one search.

ghost use Rattle.std.specs.Prelude.{◌≡◌, ◌≤◌, ◌<◌, ◌↔◌, ◌++◌, ◌∷◌, ℕ, Some, None, IfErr, IfNone};
ghost use Rattle.std.specs.Prelude.{IfOk, IfSome, IsTrue, OnErr, OnOk, [], false, get_or, length};
ghost use Rattle.std.specs.Prelude.{slice_set, true};
ghost use Rattle.std.specs.List.{insert, remove};
ghost use Rattle.std.specs.Option.{unwrap_or};
ghost use Rattle.smallvec.specs.SmallVec.{HasRoomFor};
ghost use Rattle.mapdb_lists.specs.Changes.{IsOneForOne, IsRewritten, MovesBack, MovesOn};
ghost use Rattle.mapdb_lists.specs.Changes.{left_before, no_change};
ghost use Rattle.mapdb_lists.specs.FewChanges.{listed_rights};
ghost use Rattle.mapdb_lists.specs.OwnChanges.{IsNoneUntil};
ghost use Rattle.mapdb_lists.specs.PageOrder.{AreInFront, IsGap, IsSpot, PagesRise, StandsAtPage};
ghost use Rattle.mapdb_lists.specs.declared.few_changes.PageRights.{PageRights};

use crate::change_lists::index_at;
use crate::few_changes::PageRights;
use crate::limits::ROOM_FOR_CHANGES;
use mapdb_fpage::{PAGE_LIMIT, Rights};
use smallvec::SmallVec;
use std::alloc::AllocError;

/// Puts a change at a place of the list.
fn set_at(list: &mut [PageRights], index: usize, next: PageRights)
    requires { index < length list.old }
    ensures { list.new ≡ slice_set list.old index next }
{
    list[index] = next;
}

/// Makes room for one change more. A full list gets room for as many changes more as records mostly
/// get, and not twice its own, as it would by itself. An error where memory ran out.
#[inline(always)]
fn make_room(list: &mut SmallVec<PageRights, 2>) -> Result<(), AllocError>
    ensures room { OnOk result (HasRoomFor list.new 1) }
    ensures same { list.new.items ≡ list.old.items }
{
    if list.len() == list.capacity() {
        list.reserve_exact(ROOM_FOR_CHANGES)?;
    }
    Ok(())
}

/// Puts a change in front of those from an index on. An error where memory ran out, and then the
/// same changes stand there.
#[inline(always)]
fn insert_at(
    list: &mut SmallVec<PageRights, 2>,
    index: usize,
    next: PageRights,
) -> Result<(), AllocError>
    requires { index ≤ length list.old.items }
    ensures ok { OnOk result (list.new.items ≡ insert list.old.items index next) }
    ensures err { OnErr result (list.new.items ≡ list.old.items) }
{
    make_room(list)?;
    list.insert(index, next)?;
    Ok(())
}

/// Takes out the change at an index. Of the last two one goes without moving others.
#[inline(always)]
fn take_out(list: &mut SmallVec<PageRights, 2>, index: usize)
    requires { index < length list.old.items }
    ensures { list.new.items ≡ remove list.old.items index }
{
    if list.len() - index <= 2 {
        list.swap_remove(index);
    } else {
        list.remove(index);
    }
}

/// What stands in front of the change at an index, where this stands before any change.
fn in_front(list: &[PageRights], index: usize, before: Rights) -> Rights
    requires rise { PagesRise list.now }
    requires inside { index ≤ length list.now }
    ensures { (page : ℕ) → AreInFront list.now page index
        → result ≡ left_before (listed_rights list.now) before page }
{
    if index == 0 {
        return before;
    }
    list[index - 1].rights()
}

/// Puts a change in place of the one that stands at its page, if it is not what stands in front of
/// it: then none is kept. Answers how many stand at the page or in front of it.
fn write_over(
    list: &mut SmallVec<PageRights, 2>,
    index: usize,
    before: Rights,
    page: u64,
    rights: Rights,
) -> usize
    requires rise { PagesRise list.old.items }
    requires there { StandsAtPage list.old.items page index }
    requires limit { page < PAGE_LIMIT }
    ensures rise { PagesRise list.new.items }
    ensures spot { IsSpot list.new.items page result }
    ensures there { unwrap_or (listed_rights list.new.items page)
        (left_before (listed_rights list.old.items) before page) ≡ rights }
    ensures once { rights ≡ left_before (listed_rights list.old.items) before page
        → listed_rights list.new.items page ≡ None }
    ensures elsewhere { (q : ℕ) → (page ≡ q → ⊥)
        → listed_rights list.new.items q ≡ listed_rights list.old.items q }
{
    if rights == in_front(list.as_slice(), index, before) {
        take_out(list, index);
        return index;
    }
    set_at(list.as_mut_slice(), index, PageRights::new(page, rights));
    index + 1
}

/// Puts a change where none stands at its page, if it is not what stands in front of it. Answers
/// how many stand at the page or in front of it. An error where memory ran out.
fn write_between(
    list: &mut SmallVec<PageRights, 2>,
    index: usize,
    before: Rights,
    page: u64,
    rights: Rights,
) -> Result<usize, AllocError>
    requires rise { PagesRise list.old.items }
    requires gap { IsGap list.old.items page index }
    requires limit { page < PAGE_LIMIT }
    ensures rise { PagesRise list.new.items }
    ensures spot { IfOk result (IsSpot list.new.items page) }
    ensures there { OnOk result (unwrap_or (listed_rights list.new.items page)
        (left_before (listed_rights list.old.items) before page) ≡ rights) }
    ensures once { OnOk result (rights ≡ left_before (listed_rights list.old.items) before page
        → listed_rights list.new.items page ≡ None) }
    ensures elsewhere { OnOk result ((q : ℕ) → (page ≡ q → ⊥)
        → listed_rights list.new.items q ≡ listed_rights list.old.items q) }
{
    if rights == in_front(list.as_slice(), index, before) {
        return Ok(index);
    }
    insert_at(list, index, PageRights::new(page, rights))?;
    Ok(index + 1)
}

/// Puts a change, if it is not what stands in front of its page, in place of one that was found
/// there, and answers how many stand at the page or in front of it. An error where memory ran out.
#[inline(always)]
fn write_first(
    list: &mut SmallVec<PageRights, 2>,
    found: Result<usize, usize>,
    before: Rights,
    page: u64,
    rights: Rights,
) -> Result<usize, AllocError>
    requires rise { PagesRise list.old.items }
    requires there { IfOk found (StandsAtPage list.old.items page) }
    requires gap { IfErr found (IsGap list.old.items page) }
    requires limit { page < PAGE_LIMIT }
    ensures rise { PagesRise list.new.items }
    ensures spot { IfOk result (IsSpot list.new.items page) }
    ensures there { OnOk result (unwrap_or (listed_rights list.new.items page)
        (left_before (listed_rights list.old.items) before page) ≡ rights) }
    ensures elsewhere { OnOk result ((q : ℕ) → (page ≡ q → ⊥)
        → listed_rights list.new.items q ≡ listed_rights list.old.items q) }
{
    match found {
        Ok(index) => Ok(write_over(list, index, before, page, rights)),
        Err(index) => write_between(list, index, before, page, rights),
    }
}

/// The change at an index, where it is one at this page.
fn change_there(list: &[PageRights], index: usize, page: u64) -> Option<Rights>
    requires { PagesRise list.now }
    ensures there { IfSome result (λ _. StandsAtPage list.now page index) }
    ensures change { IfSome result (λ rights. listed_rights list.now page ≡ Some rights) }
    ensures none { IfNone result ((d : PageRights) → index < length list.now
        → (get_or list.now index d).page ≡ page → ⊥) }
{
    if index < list.len() && list[index].page() == page {
        Some(list[index].rights())
    } else {
        None
    }
}

/// At the end of pages that get this change, what follows stays as it was. A change there that says
/// no more than this one is not kept. So many stand at the first of the pages or in front of it,
/// and none behind it before the end. An error where memory ran out.
#[inline(always)]
fn write_end(
    list: &mut SmallVec<PageRights, 2>,
    spot: usize,
    first: u64,
    end: u64,
    was: Rights,
    rights: Rights,
) -> Result<(), AllocError>
    requires rise { PagesRise list.old.items }
    requires spot { IsSpot list.old.items first spot }
    requires some { first < end }
    requires one { IsNoneUntil (listed_rights list.old.items) first end }
    ensures rise { PagesRise list.new.items }
    ensures there { OnOk result (end < PAGE_LIMIT
        → unwrap_or (listed_rights list.new.items end) rights
        ≡ unwrap_or (listed_rights list.old.items end) was) }
    ensures once { OnOk result (end < PAGE_LIMIT
        → listed_rights list.old.items end ≡ Some rights
        → listed_rights list.new.items end ≡ None) }
    ensures elsewhere { OnOk result ((q : ℕ) → (end ≡ q → ⊥)
        → listed_rights list.new.items q ≡ listed_rights list.old.items q) }
{
    if end >= PAGE_LIMIT {
        return Ok(());
    }
    match change_there(list.as_slice(), spot, end) {
        Some(next) if next == rights => {
            take_out(list, spot);
        }
        Some(_) => {}
        None => {
            let follows = PageRights::new(end, was);
            insert_at(list, spot, follows)?;
        }
    }
    Ok(())
}

/// Whether the change at the first of pages goes, since they get what stands in front of them, and
/// one comes at their end, where none stands.
#[inline(always)]
fn moves_on(list: &[PageRights], index: usize, before: Rights, end: u64, rights: Rights) -> bool
    requires rise { PagesRise list.now }
    requires inside { index < length list.now }
    ensures { (first : ℕ) → StandsAtPage list.now first index → first < end
        → IsNoneUntil (listed_rights list.now) first end
        → IsTrue result ↔ MovesOn (listed_rights list.now) before first end rights }
{
    rights == in_front(list, index, before) && change_there(list, index + 1, end).is_none()
}

/// Whether the change at the end of pages goes, since they get the same, and one comes at the first
/// of them, where none stands.
#[inline(always)]
fn moves_back(list: &[PageRights], index: usize, before: Rights, end: u64, rights: Rights) -> bool
    requires rise { PagesRise list.now }
    requires inside { index ≤ length list.now }
    ensures there { IsTrue result → StandsAtPage list.now end index }
    ensures back { (first : ℕ) → IsGap list.now first index → first < end
        → IsNoneUntil (listed_rights list.now) first end
        → IsTrue result ↔ MovesBack (listed_rights list.now) before first end rights }
{
    match change_there(list, index, end) {
        Some(next) => next == rights && rights != in_front(list, index, before),
        None => false,
    }
}

/// Where one change goes and one comes at the same index, exchanges them: no other one moves.
/// Answers whether that was so; if not, nothing has changed.
#[inline(always)]
fn move_one(
    list: &mut SmallVec<PageRights, 2>,
    found: Result<usize, usize>,
    before: Rights,
    first: u64,
    end: u64,
    was: Rights,
    rights: Rights,
) -> bool
    requires rise { PagesRise list.old.items }
    requires there { IfOk found (StandsAtPage list.old.items first) }
    requires gap { IfErr found (IsGap list.old.items first) }
    requires some { first < end }
    requires one { IsNoneUntil (listed_rights list.old.items) first end }
    requires limit { end ≤ PAGE_LIMIT }
    ensures when { IsTrue result
        ↔ IsOneForOne (listed_rights list.old.items) before first end rights }
    ensures rise { PagesRise list.new.items }
    ensures moved { result ≡ true → IsRewritten (listed_rights list.old.items) before first end was
        rights (listed_rights list.new.items) }
    ensures kept { result ≡ false → list.new.items ≡ list.old.items }
{
    if end >= PAGE_LIMIT {
        return false;
    }
    let changes = list.as_slice();
    let (index, next) = match found {
        Ok(index) if moves_on(changes, index, before, end, rights) => {
            let next = PageRights::new(end, was);
            (index, next)
        }
        Err(index) if moves_back(changes, index, before, end, rights) => {
            let next = PageRights::new(first, rights);
            (index, next)
        }
        _ => return false,
    };
    set_at(list.as_mut_slice(), index, next);
    true
}

/// Gives a change to pages over which another stood, where this stands before any change, and so
/// many stand at the first of the pages or in front of it. An error where memory ran out.
#[inline(always)]
pub(crate) fn list_write(
    list: &mut SmallVec<PageRights, 2>,
    spot: usize,
    before: Rights,
    first: u64,
    end: u64,
    was: Rights,
    rights: Rights,
) -> Result<(), AllocError>
    requires rise { PagesRise list.old.items }
    requires spot { IsSpot list.old.items first spot }
    requires some { first < end }
    requires one { IsNoneUntil (listed_rights list.old.items) first end }
    requires limit { end ≤ PAGE_LIMIT }
    ensures rise { PagesRise list.new.items }
    ensures written { OnOk result (IsRewritten (listed_rights list.old.items) before first end was
        rights (listed_rights list.new.items)) }
{
    let found = index_at(list.as_slice(), first, spot);
    if move_one(list, found, before, first, end, was, rights) {
        return Ok(());
    }
    let spot = write_first(list, found, before, first, rights)?;
    write_end(list, spot, first, end, was, rights)
}

/// Puts a change behind all others. An error where memory ran out, and then the same changes stand
/// there.
#[inline(always)]
fn add_change(list: &mut SmallVec<PageRights, 2>, next: PageRights) -> Result<(), AllocError>
    ensures ok { OnOk result (list.new.items ≡ list.old.items ++ next ∷ []) }
    ensures err { OnErr result (list.new.items ≡ list.old.items) }
{
    make_room(list)?;
    list.push_reserved(next);
    Ok(())
}

/// Gives rights to pages where a list has no changes, and these stand before any. An error where
/// memory ran out.
#[inline(always)]
pub(crate) fn list_begin(
    list: &mut SmallVec<PageRights, 2>,
    before: Rights,
    first: u64,
    end: u64,
    rights: Rights,
) -> Result<(), AllocError>
    requires bare { list.old.items ≡ [] }
    requires some { first < end }
    requires limit { end ≤ PAGE_LIMIT }
    ensures rise { PagesRise list.new.items }
    ensures written { OnOk result (IsRewritten no_change before first end before rights
        (listed_rights list.new.items)) }
{
    let start = PageRights::new(first, rights);
    add_change(list, start)?;
    if end < PAGE_LIMIT {
        let behind = PageRights::new(end, before);
        add_change(list, behind)?;
    }
    Ok(())
}
