//! How far what a page of a copy is served from goes on.

ghost use Rattle.std.specs.Prelude.{◌≡◌, Some};
ghost use Rattle.mapdb_replica.specs.Running.{continues};

use crate::replicas::Replica;
use mapdb_facts::Space;
use mapdb_fpage::{Fpage, PAGE_LIMIT, Rights};
use mapdb_rights::{SteadyPages, show_until};
use std::alloc::AllocError;

/// Whether the frame and the rights still go on so far behind the first ones.
fn run_goes_on(first: (u64, Rights), count: u64, later: (u64, Rights)) -> bool
    ensures { result ≡ continues (Some first) count (Some later) }
{
    later.0 >= first.0 && later.0 - first.0 == count && later.1 == first.1
}

/// Whether what a page is served from, a frame with its rights, goes on from what a page so many
/// pages before it is served from: nothing at both, or the frame that lies as far on, with the same
/// rights.
pub fn continues(first: Option<(u64, Rights)>, count: u64, later: Option<(u64, Rights)>) -> bool
    ensures { result ≡ continues first count later }
{
    match (first, later) {
        (Some(first), Some(later)) => run_goes_on(first, count, later),
        (None, None) => true,
        _ => false,
    }
}

impl Replica {
    ghost use Rattle.std.specs.Prelude.{◌≡◌, ◌≤◌, ◌<◌, ℕ, None, true, IfOk, IfSome};
    ghost use Rattle.mapdb_facts.specs.State.{state_of};
    ghost use Rattle.mapdb_facts.specs.WellFormed.{all_formed};
    ghost use Rattle.mapdb_fpage.specs.Bounds.{page_limit};
    ghost use Rattle.mapdb_fpage.specs.Place.{holds};
    ghost use Rattle.mapdb_rights.specs.Live.{ShowUntil};
    ghost use Rattle.mapdb_rights.specs.Served.{IsServed};
    ghost use Rattle.mapdb_rights.specs.ShownSpaces.{CoverPages, IsShownFrom};
    ghost use Rattle.mapdb_replica.specs.Running.{AreSteady, IsRunEnd, IsSteadyPart};
    ghost use Rattle.mapdb_replica.specs.Served.{served};

    /// What a page of a space is served from, and how far all records of the space go on, as the
    /// index tells it. None where the index is absent.
    fn shown_at(&self, space: Space, page: u64) -> Option<SteadyPages>
        requires { page < PAGE_LIMIT }
        ensures page { IfSome result (λ shown. shown.page ≡ page) }
        ensures served { IfSome result (λ shown.
            IsServed (state_of self.now.ops) space page shown.served) }
        ensures above { IfSome result (λ shown. page < shown.end) }
        ensures limit { IfSome result (λ shown. shown.end ≤ PAGE_LIMIT) }
        ensures shown { IfSome result (λ shown.
            ShowUntil (state_of self.now.ops) space page shown.end) }
        ensures formed { all_formed self.now.ops ≡ true }
    {
        self.index.shown_at(&self.facts, space, page)
    }

    /// The end of some pages, from one on, over which all records of the space go on, found by
    /// going over all records.
    fn end_by_all(&self, space: Space, page: u64) -> u64
        requires { page < PAGE_LIMIT }
        ensures above { page < result }
        ensures limit { result ≤ PAGE_LIMIT }
        ensures shown { ShowUntil (state_of self.now.ops) space page result }
        ensures formed { all_formed self.now.ops ≡ true }
    {
        show_until(&self.facts, space, page)
    }

    /// Some pages of the space, from one on, over which what they are served from goes on. They are
    /// found in one step, and it takes no memory.
    pub fn steady_at(&self, space: Space, page: u64) -> SteadyPages
        requires { page < PAGE_LIMIT }
        ensures page { result.page ≡ page }
        ensures steady { AreSteady (served self.now.ops space) result }
    {
        match self.shown_at(space, page) {
            Some(shown) => shown,
            None => SteadyPages {
                page,
                served: self.served_by_all(space, page),
                end: self.end_by_all(space, page),
            },
        }
    }

    /// Whether it is known that no page of a part of a space is served from anything: no record of
    /// the space with a right at some page has a place that shares pages with the part. It is never
    /// known of the first space, nor where there was no memory for the index. It takes no memory.
    pub fn shows_nothing(&self, space: Space, part: &Fpage) -> bool
        ensures { result ≡ true → (page : ℕ) → holds part.now page ≡ true
            → served self.now.ops space page ≡ None }
    {
        self.prove_formed();
        self.index.shows_nothing(&self.facts, space, part)
    }

    /// What all pages of a space are served from, as the index tells it. None where the index is
    /// absent. An error where memory ran out.
    fn all_shown(&self, space: Space) -> Result<Option<Vec<SteadyPages>>, AllocError>
        ensures shown { IfOk result (λ list. IfSome list (λ parts.
            CoverPages (IsShownFrom (state_of self.now.ops) space) 0 page_limit parts.items)) }
        ensures formed { all_formed self.now.ops ≡ true }
    {
        self.index.shown_pages(&self.facts, space)
    }

    /// What all pages of a space are served from, found by one question after the other. An error
    /// where memory ran out.
    fn steady_by_all(&self, space: Space) -> Result<Vec<SteadyPages>, AllocError>
        ensures { IfOk result (λ parts.
            CoverPages (IsSteadyPart (served self.now.ops space)) 0 page_limit parts.items) }
    {
        let mut parts = Vec::new(self.alloc);
        let mut page = 0;
        'pages: while page < PAGE_LIMIT {
            let SteadyPages { served, end, .. } = self.steady_at(space, page);
            parts.push(SteadyPages { page, served, end })?;
            page = end;
        }
        Ok(parts)
    }

    /// What all pages of a space are served from: parts, one behind the other, from page 0 to the
    /// last, over each of which that goes on (it may go on in the next part too). Pages and frames
    /// are numbers: the byte address divided by 4,096. The only error is that memory ran out.
    pub fn steady_pages(&self, space: Space) -> Result<Vec<SteadyPages>, AllocError>
        ensures { IfOk result (λ parts.
            CoverPages (IsSteadyPart (served self.now.ops space)) 0 page_limit parts.items) }
    {
        match self.all_shown(space)? {
            Some(parts) => Ok(parts),
            None => self.steady_by_all(space),
        }
    }

    /// One past the last page up to which what a page of a space is served from goes on from this
    /// page: nothing at any of them, or frames that rise by one with each page, with equal rights.
    /// Pages and frames are numbers: the byte address divided by 4,096. It takes no memory.
    pub fn run_end(&self, space: Space, page: u64) -> u64
        requires { page < PAGE_LIMIT }
        ensures { IsRunEnd (served self.now.ops space) page result }
    {
        let first = self.steady_at(space, page);
        let mut end = first.end;
        'pages: while end < PAGE_LIMIT {
            let next = self.steady_at(space, end);
            if !continues(first.served, end - page, next.served) {
                return end;
            }
            end = next.end;
        }
        end
    }
}
