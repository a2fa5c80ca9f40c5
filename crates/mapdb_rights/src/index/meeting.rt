//! The records whose places, or whose sources, share pages with a place.

use super::rights_index::RightsIndex;
use super::sharing::{add_names, all_sharing};
use mapdb_facts::{Facts, Record, RecordId, Space};
use mapdb_fpage::Fpage;
use mapdb_lists::Owner;
use smallvec::SmallVec;
use std::alloc::AllocError;

impl RightsIndex {
    ghost use Rattle.std.specs.Prelude.{◌≡◌, Ok, None, All, IfOk, IfSome, IsSome, false, true};
    ghost use Rattle.mapdb_facts.specs.Facts.{records_of_facts, state_of_facts};
    ghost use Rattle.mapdb_facts.specs.WellFormed.{IsFormedRecord};
    ghost use Rattle.mapdb_rights.specs.AllBut.{IsAllBut};
    ghost use Rattle.mapdb_rights.specs.Index.{KeepsUp};
    ghost use Rattle.mapdb_rights.specs.LivePlaces.{IsPowerless};
    ghost use Rattle.mapdb_rights.specs.Meeting.{children_of, holders_of};
    ghost use Rattle.mapdb_rights.specs.Revoked.{IsRevoked, IsRevokedBelow};

    /// The records of a space whose places share pages with this one, in ascending order of name.
    /// Some may be left out that have lost each right at each of their pages, and so have their
    /// children: an Unmap has nothing to revoke there. None where the index is absent. An error
    /// where memory ran out for the list.
    pub fn holders(
        &self,
        facts: &Facts,
        space: Space,
        part: &Fpage,
    ) -> Result<Option<SmallVec<Record, 1>>, AllocError>
        requires { KeepsUp self.now (state_of_facts facts.now) }
        ensures absent { self.now.absent ≡ true → result ≡ Ok None }
        ensures there { self.now.absent ≡ false → IfOk result (λ found. IsSome found) }
        ensures holders { IfOk result (λ found. IfSome found (λ list.
            IsAllBut (IsRevokedBelow (state_of_facts facts.now))
            (holders_of (records_of_facts facts.now) space part.now) list.items)) }
        ensures formed { IfOk result (λ found. IfSome found
            (λ list. All IsFormedRecord list.items)) }
    {
        if self.absent {
            return Ok(None);
        }
        let mut names = SmallVec::new(self.alloc);
        add_names(&mut names, &self.live, Owner::Space(space), part)?;
        add_names(&mut names, &self.listed, Owner::Space(space), part)?;
        let found = all_sharing(self.alloc, &mut names, facts, Owner::Space(space), part)?;
        Ok(Some(found))
    }

    /// The records of a space whose places share pages with this one, in ascending order of name.
    /// Some may be left out that have no right at any page. None where the index is absent. An
    /// error where memory ran out for the list.
    pub fn live_holders(
        &self,
        facts: &Facts,
        space: Space,
        part: &Fpage,
    ) -> Result<Option<SmallVec<Record, 1>>, AllocError>
        requires { KeepsUp self.now (state_of_facts facts.now) }
        ensures absent { self.now.absent ≡ true → result ≡ Ok None }
        ensures there { self.now.absent ≡ false → IfOk result (λ found. IsSome found) }
        ensures holders { IfOk result (λ found. IfSome found (λ list.
            IsAllBut (IsPowerless (state_of_facts facts.now))
            (holders_of (records_of_facts facts.now) space part.now) list.items)) }
        ensures formed { IfOk result (λ found. IfSome found
            (λ list. All IsFormedRecord list.items)) }
    {
        if self.absent {
            return Ok(None);
        }
        let mut found_names = SmallVec::new(self.alloc);
        add_names(&mut found_names, &self.live, Owner::Space(space), part)?;
        let found = all_sharing(
            self.alloc,
            &mut found_names,
            facts,
            Owner::Space(space),
            part,
        )?;
        Ok(Some(found))
    }

    /// The children of a record, or of a name that is not held, whose sources share pages with this
    /// place, in ascending order of name. Some may be left out that have lost each right at each of
    /// their pages. None where the index is absent. An error where memory ran out for the list.
    pub fn children(
        &self,
        facts: &Facts,
        parent: RecordId,
        part: &Fpage,
    ) -> Result<Option<SmallVec<Record, 1>>, AllocError>
        requires { KeepsUp self.now (state_of_facts facts.now) }
        ensures absent { self.now.absent ≡ true → result ≡ Ok None }
        ensures there { self.now.absent ≡ false → IfOk result (λ found. IsSome found) }
        ensures children { IfOk result (λ found. IfSome found (λ list.
            IsAllBut (IsRevoked (state_of_facts facts.now))
            (children_of (records_of_facts facts.now) parent part.now) list.items)) }
        ensures formed { IfOk result (λ found. IfSome found
            (λ list. All IsFormedRecord list.items)) }
    {
        if self.absent {
            return Ok(None);
        }
        let mut names = SmallVec::new(self.alloc);
        add_names(&mut names, &self.listed, Owner::Record(parent), part)?;
        let found = all_sharing(self.alloc, &mut names, facts, Owner::Record(parent), part)?;
        Ok(Some(found))
    }
}
