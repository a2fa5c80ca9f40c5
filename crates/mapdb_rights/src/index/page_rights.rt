//! What the records of a space have at a page, each by itself.

use super::page_pairs::page_pairs;
use super::rights_index::RightsIndex;
use mapdb_facts::{Facts, Space};
use mapdb_fpage::Rights;
use std::alloc::AllocError;

impl RightsIndex {
    ghost use Rattle.std.specs.Prelude.{◌≡◌, Ok, None, IfOk, IfSome, IsSome, true, false};
    ghost use Rattle.mapdb_facts.specs.Facts.{state_of_facts};
    ghost use Rattle.mapdb_rights.specs.Index.{KeepsUp};
    ghost use Rattle.mapdb_rights.specs.PagePairs.{ArePagePairs};

    /// What each record of the space, in the first space the root too, has at the page that has any
    /// right there: its frame with its rights. They stand in no order, and two records may have the
    /// same. None where the index is absent. An error where memory ran out for the list.
    pub fn pairs_at(
        &self,
        facts: &Facts,
        space: Space,
        page: u64,
    ) -> Result<Option<Vec<(u64, Rights)>>, AllocError>
        requires { KeepsUp self.now (state_of_facts facts.now) }
        ensures absent { self.now.absent ≡ true → result ≡ Ok None }
        ensures there { self.now.absent ≡ false → IfOk result (λ pairs. IsSome pairs) }
        ensures pairs { IfOk result (λ pairs. IfSome pairs (λ list.
            ArePagePairs (state_of_facts facts.now) space page list.items)) }
    {
        if self.absent {
            return Ok(None);
        }
        let pairs = page_pairs(self.alloc, &self.changes, &self.live, facts, space, page)?;
        Ok(Some(pairs))
    }
}
