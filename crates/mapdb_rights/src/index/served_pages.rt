//! The frame that a page of a space is served from, and how far what the space shows goes on.

use super::first_records::{First, first_live};
use super::first_until::first_until;
use super::frame_rights::frame_rights;
use super::rights_index::RightsIndex;
use mapdb_facts::{Facts, Space};
use mapdb_fpage::{Fpage, Rights};
use mapdb_lists::Owner;

/// Pages of a space, from one on, over which what they are served from goes on: nothing at any of
/// them, or frames that rise by one with each page, with equal rights. Pages and frames are
/// numbers: the byte address divided by 4,096.
#[derive(Clone, Copy, Debug, PartialEq, Eq)]
pub struct SteadyPages {
    /// The first of the pages.
    pub page: u64,
    /// The frame that this one is served from, with all rights that the space's records have of it
    /// there; None where no record of the space has a right there.
    pub served: Option<(u64, Rights)>,
    /// One past the last of the pages. It may go on so behind them too.
    pub end: u64,
}

impl RightsIndex {
    ghost use Rattle.std.specs.Prelude.{◌≡◌, ◌<◌, ◌≤◌, ℕ, None, IfSome, IsSome, true, false};
    ghost use Rattle.mapdb_facts.specs.Facts.{state_of_facts};
    ghost use Rattle.mapdb_fpage.specs.Bounds.{page_limit};
    ghost use Rattle.mapdb_fpage.specs.Place.{holds};
    ghost use Rattle.mapdb_rights.specs.First.{IsFirstOfAll};
    ghost use Rattle.mapdb_rights.specs.Index.{KeepsUp};
    ghost use Rattle.mapdb_rights.specs.Live.{ShowUntil};
    ghost use Rattle.mapdb_rights.specs.Served.{IsServed};

    /// The frame that the page of the space is served from, whose first record was found.
    pub(crate) fn served_by(
        &self,
        facts: &Facts,
        space: Space,
        page: u64,
        first: First,
    ) -> Option<(u64, Rights)>
        requires kept { KeepsUp self.now (state_of_facts facts.now) }
        requires there { self.now.absent ≡ false }
        requires first { IsFirstOfAll (state_of_facts facts.now) self.now.changes.own.entries
            space page first }
        ensures { IsServed (state_of_facts facts.now) space page result }
    {
        match first {
            First::Nothing => None,
            First::Alike(_, change) => Some((change.frame(page), change.rights)),
            First::Mixed(_, change) => {
                let (changes, live) = (&self.changes, &self.live);
                let rights = frame_rights(changes, live, facts, space, page, change.shift);
                Some((change.frame(page), rights))
            }
        }
    }

    /// The frame that the page of the space is served from: that of the least record of the space,
    /// in the first space of the root, with any right there, with all rights that the space's
    /// records have of this frame there. The outer None where the index is absent. It takes no
    /// memory.
    pub fn served_at(&self, facts: &Facts, space: Space, page: u64) -> Option<Option<(u64, Rights)>>
        requires { KeepsUp self.now (state_of_facts facts.now) }
        ensures absent { self.now.absent ≡ true → result ≡ None }
        ensures there { self.now.absent ≡ false → IsSome result }
        ensures served { IfSome result (IsServed (state_of_facts facts.now) space page) }
    {
        if self.absent {
            return None;
        }
        let first = first_live(&self.changes, &self.live, facts, space, page);
        Some(self.served_by(facts, space, page, first))
    }

    /// What the page of the space is served from, as [`RightsIndex::served_at`] tells it, and how
    /// far all records of the space go on from there: each has equal rights at the pages before the
    /// end, and where it has some, a frame that rises by one with each page. None where the index
    /// is absent. It takes no memory.
    pub fn shown_at(&self, facts: &Facts, space: Space, page: u64) -> Option<SteadyPages>
        requires page { page < page_limit }
        requires stands { KeepsUp self.now (state_of_facts facts.now) }
        ensures absent { self.now.absent ≡ true → result ≡ None }
        ensures there { self.now.absent ≡ false → IsSome result }
        ensures page { IfSome result (λ shown. shown.page ≡ page) }
        ensures served { IfSome result (λ shown.
            IsServed (state_of_facts facts.now) space page shown.served) }
        ensures above { IfSome result (λ shown. page < shown.end) }
        ensures limit { IfSome result (λ shown. shown.end ≤ page_limit) }
        ensures shown { IfSome result (λ shown.
            ShowUntil (state_of_facts facts.now) space page shown.end) }
    {
        if self.absent {
            return None;
        }
        let found = first_until(&self.changes, &self.live, facts, space, page);
        Some(SteadyPages {
            page,
            served: self.served_by(facts, space, page, found.first),
            end: found.end,
        })
    }

    /// Whether no page of a part of the space is served from anything: no record of the space with
    /// a right at some page has a place that shares pages with the part. Where the index is absent,
    /// and of the first space, it does not tell, and says no. It takes no memory.
    pub fn shows_nothing(&self, facts: &Facts, space: Space, part: &Fpage) -> bool
        requires { KeepsUp self.now (state_of_facts facts.now) }
        ensures { result ≡ true → (page : ℕ) → holds part.now page ≡ true
            → IsServed (state_of_facts facts.now) space page None }
    {
        if self.absent || space.is_first() {
            return false;
        }
        match self.live.own(Owner::Space(space)) {
            Some(own) => !own.any_meets(part.first_page(), part.end()),
            None => true,
        }
    }
}
