//! What the index tells of a page of a space.

use super::live_names::{all_live, live_after};
use super::rights_index::RightsIndex;
use mapdb_facts::{Facts, RecordId, Space};
use mapdb_lists::unchanged_until;
use std::alloc::AllocError;

impl RightsIndex {
    ghost use Rattle.std.specs.Prelude.{◌≡◌, ◌≤◌, ◌<◌, ℕ, Ok, None, false, true, IfOk, IfSome};
    ghost use Rattle.std.specs.Prelude.{IsSome};
    ghost use Rattle.mapdb_facts.specs.Facts.{records_of_facts, state_of_facts};
    ghost use Rattle.mapdb_fpage.specs.Bounds.{page_limit};
    ghost use Rattle.mapdb_rights.specs.Index.{KeepsUp, StandsFor};
    ghost use Rattle.mapdb_rights.specs.Live.{IsLiveFrom, live_names};
    ghost use Rattle.mapdb_rights.specs.Right.{rights_at};
    ghost use Rattle.mapdb_facts.specs.State.{State};

    /// The least record of the space above another name, or of all, that has a right at the page;
    /// in the first space the root is one of them. The outer None where the index is absent. It
    /// takes no memory.
    pub fn live_at(
        &self,
        facts: &Facts,
        space: Space,
        page: u64,
        after: &Option<RecordId>,
    ) -> Option<Option<RecordId>>
        requires { KeepsUp self.now (state_of_facts facts.now) }
        ensures absent { self.now.absent ≡ true → result ≡ None }
        ensures there { self.now.absent ≡ false → IsSome result }
        ensures live { IfSome result (IsLiveFrom (state_of_facts facts.now) space page after.now) }
    {
        if self.absent {
            return None;
        }
        let after = *after;
        Some(live_after(&self.changes, &self.live, facts, space, page, after))
    }

    /// The names of all records of the space that have a right at the page, in ascending order; in
    /// the first space the root is one of them. None where the index is absent. An error where
    /// memory ran out for the list.
    pub fn in_space(
        &self,
        facts: &Facts,
        space: Space,
        page: u64,
    ) -> Result<Option<Vec<RecordId>>, AllocError>
        requires { KeepsUp self.now (state_of_facts facts.now) }
        ensures absent { self.now.absent ≡ true → result ≡ Ok None }
        ensures there { self.now.absent ≡ false → IfOk result (λ names. IsSome names) }
        ensures names { IfOk result (λ names. IfSome names (λ list. list.items
            ≡ live_names (state_of_facts facts.now) (records_of_facts facts.now) space page)) }
    {
        if self.absent {
            return Ok(None);
        }
        let names = all_live(self.alloc, &self.changes, &self.live, facts, space, page)?;
        Ok(Some(names))
    }

    /// The end of pages, from one on, over which a record, or the root, has equal rights; any other
    /// name that is not held has none. None where the index is absent. It takes no memory.
    pub fn unchanged_until(&self, id: RecordId, page: u64) -> Option<u64>
        requires page { page < page_limit }
        ensures absent { self.now.absent ≡ true → result ≡ None }
        ensures there { self.now.absent ≡ false → IsSome result }
        ensures above { IfSome result (λ end. page < end) }
        ensures limit { IfSome result (λ end. end ≤ page_limit) }
        ensures same { (S : State) → StandsFor self.now S
            → IfSome result (λ end. (q : ℕ) → page ≤ q → q < end
            → rights_at S id q ≡ rights_at S id page) }
    {
        if self.absent {
            return None;
        }
        Some(unchanged_until(&self.changes, id, page))
    }
}
