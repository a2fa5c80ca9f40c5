//! Cached rights beside facts.

use super::building::settle_all;
use super::following::{follow_cut, follow_end, follow_record};
use super::runs::{RightsRun, runs_of};
use mapdb_facts::{Facts, Op, RecordId};
use mapdb_fpage::Rights;
use mapdb_lists::{AllChanges, Places, cached_at, seen_at};
use std::alloc::{AllocError, Global};

/// The rights of records at pages, kept beside the facts that they follow from. Running out of
/// memory makes it absent.
#[derive(Drop)]
pub struct RightsIndex {
    /// The rights of each record from page to page, with frames.
    pub(crate) changes: AllChanges,
    /// The sources of held records, and the places of those without rights, but for what is
    /// revoked.
    pub(crate) listed: Places,
    /// The places of the records with a right at some page.
    pub(crate) live: Places,
    /// Whether memory ran out: nothing is kept then.
    pub(crate) absent: bool,
    pub(crate) alloc: Global,
}

impl RightsIndex {
    ghost use Rattle.std.specs.Prelude.{
      ◌≡◌,
      [],
      Ok,
      None,
      Some,
      IfOk,
      IfSome,
      IsSome,
      OnErr,
      OnOk,
      true,
      false,
    };
    ghost use Rattle.mapdb_facts.specs.Facts.{state_of_facts};
    ghost use Rattle.mapdb_facts.specs.State.{State, nothing};
    ghost use Rattle.mapdb_facts.specs.WellFormed.{is_formed};
    ghost use Rattle.mapdb_lists.specs.Listing.{is_listed};
    ghost use Rattle.mapdb_lists.specs.declared.places.Listed.{Listed};
    ghost use Rattle.mapdb_rights.specs.PageRights.{pair_at};
    ghost use Rattle.mapdb_rights.specs.Right.{rights_at};
    ghost use Rattle.mapdb_rights.specs.RightsRuns.{rights_runs};
    ghost use Rattle.mapdb_rights.specs.Index.{KeptUpBefore, StandsFor, StoodBefore};

    /// The index of no facts. It takes no memory.
    pub fn new(alloc: Global) -> RightsIndex
        ensures { StandsFor result nothing }
    {
        RightsIndex {
            changes: AllChanges::new(alloc),
            listed: Places::new(alloc),
            live: Places::new(alloc),
            absent: false,
            alloc,
        }
    }

    /// The index of facts. An error where memory ran out.
    pub fn build(alloc: Global, facts: &Facts) -> Result<RightsIndex, AllocError>
        ensures { IfOk result (λ index. StandsFor index (state_of_facts facts.now)) }
    {
        let mut changes = AllChanges::new(alloc);
        let mut listed = Places::new(alloc);
        let mut live = Places::new(alloc);
        settle_all(&mut changes, &mut listed, &mut live, alloc, facts)?;
        Ok(RightsIndex {
            changes,
            listed,
            live,
            absent: false,
            alloc,
        })
    }

    /// Whether memory ran out, and nothing is kept.
    pub fn is_absent(&self) -> bool
        ensures { result ≡ self.now.absent }
    {
        self.absent
    }

    /// Expects so many records: what is kept of one with a great number is found as fast then. It
    /// is a matter of speed alone. The places of those with a right are by space.
    pub fn expect(&mut self, records: usize)
        ensures { self.new ≡ self.old }
    {
        self.changes.expect(records);
        self.listed.expect(records);
    }

    /// Follows an operation.
    fn follow(&mut self, facts: &Facts, op: &Op) -> Result<(), AllocError>
        requires formed { is_formed op.now ≡ true }
        requires stood { StoodBefore self.old op.now (state_of_facts facts.now) }
        ensures { OnOk result (StandsFor self.new (state_of_facts facts.now)) }
    {
        match op {
            Op::Born(mapping) => follow_record(
                &mut self.changes,
                &mut self.listed,
                &mut self.live,
                self.alloc,
                facts,
                mapping,
            ),
            Op::Cut(cut) => follow_cut(
                &mut self.changes,
                &mut self.listed,
                &mut self.live,
                self.alloc,
                facts,
                cut,
            ),
            Op::Closed(space) => follow_end(
                &mut self.changes,
                &mut self.listed,
                &mut self.live,
                self.alloc,
                facts,
                *space,
            ),
        }
    }

    /// Lets go of all that is kept: the index is absent then.
    #[cold]
    fn let_go(&mut self)
        ensures absent { self.new.absent ≡ true }
        ensures no_changes { self.new.changes.own.entries ≡ [] }
        ensures none_listed { (e : Listed) → is_listed self.new.listed e ≡ false }
        ensures none_live { (e : Listed) → is_listed self.new.live e ≡ false }
    {
        self.changes = AllChanges::new(self.alloc);
        self.listed = Places::new(self.alloc);
        self.live = Places::new(self.alloc);
        self.absent = true;
    }

    /// Follows an operation that the facts have by now: they say what they said before, and this.
    /// An error where memory ran out: the index is absent then, and keeps nothing. An absent
    /// index stays as it is, without an error.
    pub fn added(&mut self, facts: &Facts, op: &Op) -> Result<(), AllocError>
        requires formed { is_formed op.now ≡ true }
        requires stood { KeptUpBefore self.old op.now (state_of_facts facts.now) }
        ensures ok { OnOk result (self.old.absent ≡ false
            → StandsFor self.new (state_of_facts facts.now)) }
        ensures memory { OnErr result (self.new.absent ≡ true) }
        ensures nothing_kept { OnErr result ((self.new.changes.own.entries ≡ [])
            × ((e : Listed) → is_listed self.new.listed e ≡ false)
            × ((e : Listed) → is_listed self.new.live e ≡ false)) }
        ensures absent { self.old.absent ≡ true → (result ≡ Ok tt) × (self.new ≡ self.old) }
    {
        if self.absent {
            return Ok(());
        }
        match self.follow(facts, op) {
            Ok(()) => Ok(()),
            Err(fault) => {
                self.let_go();
                Err(fault)
            }
        }
    }

    /// The rights of a record at a page: the root's too, and none for any other name that is not
    /// held. None where the index is absent.
    pub fn right_at(&self, id: RecordId, page: u64) -> Option<Rights>
        ensures absent { self.now.absent ≡ true → result ≡ None }
        ensures rights { (S : State) → StandsFor self.now S → result ≡ Some (rights_at S id page) }
    {
        if self.absent {
            None
        } else {
            Some(cached_at(&self.changes, id, page))
        }
    }

    /// What a record, or the root, has at a page, its frame and its rights: no pair where it has no
    /// right there, or is not held. None where the index is absent.
    pub fn pair_at(&self, id: RecordId, page: u64) -> Option<Option<(u64, Rights)>>
        ensures absent { self.now.absent ≡ true → result ≡ None }
        ensures pair { (S : State) → StandsFor self.now S → result ≡ Some (pair_at S id page) }
    {
        if self.absent {
            return None;
        }
        let change = seen_at(&self.changes, id, page);
        if change.is_none() {
            return Some(None);
        }
        Some(Some((change.frame(page), change.rights)))
    }

    /// The maximal runs of pages over which a record has equal rights, and not none, in ascending
    /// order. None where the index is absent. An error where memory ran out for the list.
    pub fn runs(&self, id: RecordId) -> Result<Option<Vec<RightsRun>>, AllocError>
        ensures absent { self.now.absent ≡ true → result ≡ Ok None }
        ensures there { self.now.absent ≡ false → IfOk result (λ runs. IsSome runs) }
        ensures runs { (S : State) → StandsFor self.now S
            → IfOk result (λ runs. IfSome runs (λ list. list.items ≡ rights_runs S id)) }
    {
        if self.absent {
            return Ok(None);
        }
        let runs = runs_of(&self.changes, self.alloc, id)?;
        Ok(Some(runs))
    }
}
