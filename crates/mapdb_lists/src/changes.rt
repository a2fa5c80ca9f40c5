//! What records have at pages, kept as the pages from which something else stands.

ghost use Rattle.std.specs.Prelude.{◌≡◌, ◌≤◌, ◌<◌, ◌+◌, ℕ, None, IfOk, [], false, true};
ghost use Rattle.std.specs.Map.{lookup};
ghost use Rattle.mapdb_facts.specs.Names.{same_id};
ghost use Rattle.mapdb_fpage.specs.RightSets.{is_empty};
ghost use Rattle.mapdb_lists.specs.Changes.{IsStretch, at_first, cached_in, change_at};
ghost use Rattle.mapdb_lists.specs.Changes.{past_the_end, seen_in};
ghost use Rattle.mapdb_lists.specs.FewChanges.{with_shift};
ghost use Rattle.mapdb_lists.specs.OwnChanges.{IsLastUpTo, IsNoneUntil};
ghost use Rattle.mapdb_lists.specs.Replacing.{IsReplacedIn, IsReplacedOf};

use crate::own_changes::OwnChanges;
use mapdb_facts::{ByName, RecordId};
use mapdb_fpage::{PAGE_LIMIT, Rights};
use std::alloc::{AllocError, Global};

/// What a record has from a page on, up to its next change.
#[derive(Clone, Copy, Debug)]
pub struct Change {
    /// The rights.
    pub rights: Rights,
    /// How far the frames lie from the pages: the frame of a page is the page and this, less
    /// [`PAGE_LIMIT`]. It says nothing where there are no rights.
    pub shift: u64,
}

impl Change {
    /// What stands where there are no rights.
    pub const NONE: Change = Change {
        rights: Rights::NONE,
        shift: PAGE_LIMIT,
    };

    /// The change to rights whose frames lie this far off. Where there are no rights, it is the one
    /// that stands for none.
    #[inline(always)]
    pub fn with_shift(shift: u64, rights: Rights) -> Change
        ensures { result ≡ with_shift shift rights }
    {
        let shift = if rights.is_none() { PAGE_LIMIT } else { shift };
        Change { rights, shift }
    }

    /// Whether there are no rights.
    pub fn is_none(&self) -> bool
        ensures { result ≡ is_empty self.now.rights }
    {
        self.rights.is_none()
    }

    /// Whether both are the same.
    pub fn is(&self, other: &Change) -> bool
        ensures same { result ≡ true → self.now ≡ other.now }
        ensures itself { self.now ≡ other.now → result ≡ true }
    {
        self.rights == other.rights && self.shift == other.shift
    }

    /// The frame of a page.
    pub fn frame(&self, page: u64) -> u64
        ensures { (frame : ℕ) → frame < PAGE_LIMIT → frame + PAGE_LIMIT ≡ page + self.now.shift
            → result ≡ frame }
    {
        page.saturating_add(self.shift).saturating_sub(PAGE_LIMIT)
    }
}

impl Default for Change {
    fn default() -> Change {
        Change::NONE
    }
}

/// What stands at a page, and how far.
#[derive(Clone, Copy, Debug)]
pub struct Stretch {
    /// What stands there.
    pub change: Change,
    /// The end of the pages over which it stands.
    pub end: u64,
}

impl Stretch {
    /// No rights up to an end.
    pub fn none_until(end: u64) -> Stretch
        ensures { result ≡ (record { change = past_the_end; end = end }) }
    {
        Stretch {
            change: Change::NONE,
            end,
        }
    }
}

/// How far pages of a record go that were to get a change, and whether they got it.
#[derive(Clone, Copy, Debug)]
pub struct Replaced {
    /// One past the last of the pages: one change stood at all of them.
    pub end: u64,
    /// Where they have other rights than before: whether the record had a right at some page. None
    /// where they had these rights already; then nothing has changed.
    pub had_some: Option<bool>,
}

/// The changes of all records, each record's by themselves.
#[derive(Drop)]
pub struct AllChanges {
    /// Those of each record, by its name.
    pub own: ByName<OwnChanges>,
    alloc: Global,
}

impl AllChanges {
    /// No changes. It takes no memory.
    pub fn new(alloc: Global) -> AllChanges
        ensures { result.own.entries ≡ [] }
    {
        AllChanges {
            own: ByName::new(alloc),
            alloc,
        }
    }

    /// Expects so many records: the changes of one with a great number are found as fast then.
    pub fn expect(&mut self, records: usize)
        ensures { self.new ≡ self.old }
    {
        self.own.expect(records);
    }
}

/// The last change of a record up to a page, and where it stands.
fn last_change(changes: &AllChanges, id: RecordId, page: u64) -> Option<(u64, Change)>
    ensures { IsLastUpTo (change_at changes.now.own.entries id) page result }
{
    match changes.own.get(id) {
        Some(own) => own.last(page),
        None => None,
    }
}

/// The page of the next change of a record behind a page: the end of the space where there is none.
fn next_change(changes: &AllChanges, id: RecordId, page: u64) -> u64
    requires { page < PAGE_LIMIT }
    ensures above { page < result }
    ensures limit { result ≤ PAGE_LIMIT }
    ensures none { IsNoneUntil (change_at changes.now.own.entries id) page result }
{
    match changes.own.get(id) {
        Some(own) => own.next(page),
        None => PAGE_LIMIT,
    }
}

/// What a record has before any change: the root has all rights, and each page of it is its own
/// frame.
#[inline(always)]
fn first_change(id: RecordId) -> Change
    ensures { result ≡ at_first id }
{
    let rights = if id.is_root() {
        Rights::ALL
    } else {
        Rights::NONE
    };
    Change {
        rights,
        shift: PAGE_LIMIT,
    }
}

/// What is cached of a record at a page.
pub fn seen_at(changes: &AllChanges, id: RecordId, page: u64) -> Change
    ensures { result ≡ seen_in changes.now.own.entries id page }
{
    if page >= PAGE_LIMIT {
        return Change::NONE;
    }
    match last_change(changes, id, page) {
        Some((_, change)) => change,
        None => first_change(id),
    }
}

/// The cached rights of a record at a page.
pub fn cached_at(changes: &AllChanges, id: RecordId, page: u64) -> Rights
    ensures { result ≡ cached_in changes.now.own.entries id page }
{
    seen_at(changes, id, page).rights
}

/// Whether a record has a right at some page, as it is cached. Its changes are looked up once.
#[inline(always)]
pub fn has_rights(changes: &AllChanges, id: RecordId) -> bool
    ensures some { result ≡ true → (page : ℕ)
        × (is_empty (cached_in changes.now.own.entries id page) ≡ false) }
    ensures none { result ≡ false → (page : ℕ)
        → is_empty (cached_in changes.now.own.entries id page) ≡ true }
{
    let first = first_change(id);
    match changes.own.get(id) {
        Some(own) => own.has_rights(&first),
        None => !first.is_none(),
    }
}

/// What is cached of a record at a page, and how far one change stands. The record's changes are
/// looked up once.
#[inline(always)]
pub fn stretch_at(changes: &AllChanges, id: RecordId, page: u64) -> Stretch
    requires { page < PAGE_LIMIT }
    ensures { IsStretch (change_at changes.now.own.entries id) (at_first id) page result }
{
    let first = first_change(id);
    match changes.own.get(id) {
        Some(own) => own.stretch(&first, page),
        None => Stretch {
            change: first,
            end: PAGE_LIMIT,
        },
    }
}

/// The end of pages from one on over which one change stands.
pub fn unchanged_until(changes: &AllChanges, id: RecordId, page: u64) -> u64
    requires { page < PAGE_LIMIT }
    ensures above { page < result }
    ensures limit { result ≤ PAGE_LIMIT }
    ensures none { (q : ℕ) → page < q → q < result → change_at changes.now.own.entries id q ≡ None }
    ensures same { (q : ℕ) → page ≤ q → q < result
        → seen_in changes.now.own.entries id q ≡ seen_in changes.now.own.entries id page }
{
    next_change(changes, id, page)
}

/// Whether a record has no changes: at each page it has what stands there before any.
#[inline(always)]
pub fn is_bare(changes: &AllChanges, id: RecordId) -> bool
    ensures { result ≡ true → lookup (same_id id) changes.now.own.entries ≡ None }
{
    changes.own.get(id).is_none()
}

/// Gives a change to pages of a record that has none, among all, if it has other rights than stand
/// there before any. An error where memory ran out.
#[inline(always)]
fn begin_among(
    own_changes: &mut ByName<OwnChanges>,
    alloc: Global,
    id: RecordId,
    first: u64,
    limit: u64,
    change: Change,
) -> Result<Replaced, AllocError>
    requires some { first < limit }
    requires limit { limit ≤ PAGE_LIMIT }
    requires bare { lookup (same_id id) own_changes.old.entries ≡ None }
    ensures replaced { IfOk result (IsReplacedOf own_changes.old.entries id first limit change
        own_changes.new.entries) }
    ensures whole { IfOk result (λ replaced. replaced.end ≡ limit) }
{
    let before = first_change(id);
    if before.rights == change.rights {
        return Ok(Replaced {
            end: limit,
            had_some: None,
        });
    }
    let own = OwnChanges::begun(alloc, before, first, limit, change)?;
    own_changes.insert(id, own)?;
    Ok(Replaced {
        end: limit,
        had_some: Some(!before.is_none()),
    })
}

/// Gives a change to the pages of a record that has none, by number, from `first` on up to before
/// `limit`, if it has other rights than stand there before any. An error where memory ran out;
/// nothing is said of the changes then.
#[inline(always)]
pub fn begin(
    changes: &mut AllChanges,
    id: RecordId,
    first: u64,
    limit: u64,
    change: Change,
) -> Result<Replaced, AllocError>
    requires some { first < limit }
    requires limit { limit ≤ PAGE_LIMIT }
    requires bare { lookup (same_id id) changes.old.own.entries ≡ None }
    ensures replaced { IfOk result (IsReplacedIn changes.old.own.entries id first limit change
        changes.new.own.entries) }
    ensures whole { IfOk result (λ replaced. replaced.end ≡ limit) }
{
    begin_among(&mut changes.own, changes.alloc, id, first, limit, change)
}

/// Gives a change to pages of a record among all, as far as one stands there. The record's changes
/// are looked up once. An error where memory ran out.
#[inline(always)]
fn replace_among(
    own_changes: &mut ByName<OwnChanges>,
    alloc: Global,
    id: RecordId,
    first: u64,
    limit: u64,
    change: Change,
) -> Result<Replaced, AllocError>
    requires some { first < limit }
    requires limit { limit ≤ PAGE_LIMIT }
    ensures { IfOk result (IsReplacedOf own_changes.old.entries id first limit change
        own_changes.new.entries) }
{
    if let Some(at) = own_changes.places.get(id) {
        return own_changes.values[at].replace(alloc, first_change(id), first, limit, change);
    }
    begin_among(own_changes, alloc, id, first, limit, change)
}

/// Gives a change to the pages of a record, by number, from `first` on up to before `limit`, as far
/// as one change stands there, if that has other rights. An error where memory ran out; nothing is
/// said of the changes then.
#[inline(always)]
pub fn replace(
    changes: &mut AllChanges,
    id: RecordId,
    first: u64,
    limit: u64,
    change: Change,
) -> Result<Replaced, AllocError>
    requires some { first < limit }
    requires limit { limit ≤ PAGE_LIMIT }
    ensures { IfOk result (IsReplacedIn changes.old.own.entries id first limit change
        changes.new.own.entries) }
{
    replace_among(&mut changes.own, changes.alloc, id, first, limit, change)
}
