//! Runs of pages over which a record has the same rights.

ghost use Rattle.std.specs.Prelude.{◌≡◌, ◌≤◌, ◌<◌, ◌+◌, [], ℕ, false, true, IfNone, IfOk, IfSome};
ghost use Rattle.mapdb_fpage.specs.RightSets.{is_empty};
ghost use Rattle.mapdb_fpage.specs.RightSets.{same_rights};
ghost use Rattle.mapdb_lists.specs.Changes.{cached_in};
ghost use Rattle.mapdb_rights.specs.LivePlaces.{HasSome};
ghost use Rattle.mapdb_rights.specs.RightsRuns.{IsFirstRightsRun, runs_behind};

use mapdb_facts::RecordId;
use mapdb_fpage::{PAGE_LIMIT, Rights};
use mapdb_lists::{AllChanges, cached_at, has_rights, stretch_at, unchanged_until};
use std::alloc::{AllocError, Global};

/// Pages of a record, one behind the other, over which it has the same rights, and not none.
#[derive(Clone, Copy, Debug, PartialEq, Eq)]
pub struct RightsRun {
    /// The first of the pages.
    pub first_page: u64,
    /// How many pages there are.
    pub page_count: u64,
    /// The rights that the record has at each of them.
    pub rights: Rights,
}

/// The first page from one on where the record has some right.
fn run_start(changes: &AllChanges, id: RecordId, page: u64) -> Option<u64>
    ensures none { IfNone result (runs_behind (cached_in changes.now.own.entries id) page ≡ []) }
    ensures limit { IfSome result (λ start. start < PAGE_LIMIT) }
    ensures some { IfSome result (λ start. is_empty (cached_in changes.now.own.entries id start)
        ≡ false) }
    ensures behind { IfSome result (λ start. runs_behind (cached_in changes.now.own.entries id) page
        ≡ runs_behind (cached_in changes.now.own.entries id) start) }
{
    let mut start = page;
    'pages: while start < PAGE_LIMIT {
        let own = stretch_at(changes, id, start);
        if !own.change.is_none() {
            return Some(start);
        }
        start = own.end;
    }
    None
}

/// Whether the record, which has these rights at this page, has a right at some page.
#[inline(always)]
pub(crate) fn has_some(changes: &AllChanges, id: RecordId, near: u64, rights: Rights) -> bool
    requires near { rights ≡ cached_in changes.now.own.entries id near }
    ensures some { result ≡ true → HasSome (cached_in changes.now.own.entries id) }
    ensures none { result ≡ false → (page : ℕ)
        → is_empty (cached_in changes.now.own.entries id page) ≡ true }
{
    !rights.is_none() || has_rights(changes, id)
}

/// The end of the pages from one on where the record has these same rights.
fn run_end(changes: &AllChanges, id: RecordId, start: u64, rights: Rights) -> u64
    requires within { start < PAGE_LIMIT }
    requires here { rights ≡ cached_in changes.now.own.entries id start }
    ensures above { start < result }
    ensures limit { result ≤ PAGE_LIMIT }
    ensures same { (q : ℕ) → start ≤ q → q < result
        → cached_in changes.now.own.entries id q ≡ rights }
    ensures other { result < PAGE_LIMIT
        → same_rights (cached_in changes.now.own.entries id result) rights ≡ false }
{
    let mut end = unchanged_until(changes, id, start);
    'pages: while end < PAGE_LIMIT {
        if cached_at(changes, id, end) != rights {
            return end;
        }
        end = unchanged_until(changes, id, end);
    }
    end
}

/// The first run from a page on.
fn first_run(changes: &AllChanges, id: RecordId, page: u64) -> Option<RightsRun>
    ensures first { IsFirstRightsRun (cached_in changes.now.own.entries id) page result }
    ensures limit { IfSome result (λ run. run.first_page + run.page_count ≤ PAGE_LIMIT) }
{
    let first_page = run_start(changes, id, page)?;
    let rights = cached_at(changes, id, first_page);
    let end = run_end(changes, id, first_page, rights);
    Some(RightsRun {
        first_page,
        page_count: end - first_page,
        rights,
    })
}

/// All runs of a record, in ascending order.
pub(crate) fn runs_of(
    changes: &AllChanges,
    alloc: Global,
    id: RecordId,
) -> Result<Vec<RightsRun>, AllocError>
    ensures { IfOk result (λ runs. runs.items
        ≡ runs_behind (cached_in changes.now.own.entries id) 0) }
{
    let mut runs = Vec::new(alloc);
    let mut page = 0;
    'runs: while let Some(run) = first_run(changes, id, page) {
        page = run.first_page + run.page_count;
        runs.push(run)?;
    }
    Ok(runs)
}
