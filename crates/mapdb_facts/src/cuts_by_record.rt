//! What is taken from records, by the record's name.

ghost use Rattle.std.specs.Prelude.{◌≡◌, ◌∷◌, ◌↔◌, [], IfOk, IsTrue, OnErr, OnOk};
ghost use Rattle.std.specs.Map.{lookup};
ghost use Rattle.std.specs.BTreeMap.{is_at};
ghost use Rattle.std.specs.Option.{option_copied};
ghost use Rattle.mapdb_join.specs.Atoms.{HasNone, Includes, IsBetween, IsSame, IsUnion};
ghost use Rattle.mapdb_join.specs.Regions.{starts_of};
ghost use Rattle.mapdb_facts.specs.CutCovers.{CoversUnder};
ghost use Rattle.mapdb_facts.specs.Kept.{has_cut, id_cmp};

use crate::listed_by_name::ListedByName;
use crate::names::RecordId;
use mapdb_join::{Merge, MergeFault, MergePart, Region, Runs};
use std::alloc::{AllocError, Global};
use std::marker::Model;

/// The bits of the rights that are taken, by the name of the record and then in runs of pages.
#[derive(Drop)]
pub struct CutsByRecord {
    by_name: ListedByName<Runs>,
    alloc: Global,
}

impl Model for CutsByRecord {
    ghost use Rattle.mapdb_facts.specs.Kept.{Cuts};

    ghost Value = { Cuts };

    ghost view = { λ a. a.by_name.entries };
}

/// Whether one has what the other takes from the record of a name.
fn covers_under(cuts: &ListedByName<Runs>, other: &ListedByName<Runs>, id: RecordId) -> bool
    ensures { IsTrue result ↔ CoversUnder cuts.now.entries other.now.entries id }
{
    let Some(theirs) = other.get(id) else {
        return true;
    };
    match cuts.get(id) {
        Some(runs) => runs.covers(theirs),
        None => theirs.is_none(),
    }
}

/// Whether one has all that the other takes.
fn covers_all(cuts: &ListedByName<Runs>, other: &ListedByName<Runs>) -> bool
    ensures { IsTrue result ↔ Includes has_cut cuts.now.entries other.now.entries }
{
    for id in other.names.as_slice() {
        if !covers_under(cuts, other, *id) {
            return false;
        }
    }
    true
}

/// Takes what these runs take from the record of a name. An error where memory ran out.
fn merge_under(cuts: &mut ListedByName<Runs>, id: RecordId, theirs: &Runs) -> Result<(), AllocError>
    ensures ok { OnOk result (IsUnion has_cut cuts.old.entries ((id, theirs.now) ∷ [])
        cuts.new.entries) }
    ensures err { OnErr result (IsBetween has_cut cuts.old.entries ((id, theirs.now) ∷ [])
        cuts.new.entries) }
{
    if let Some(at) = cuts.names.place(id) {
        return cuts.values[at].merge(theirs).map_err(MergeFault::refusal);
    }
    let copy = theirs.copy()?;
    cuts.insert(id, copy)
}

/// Takes what the other takes. An error where memory ran out, and then some of it is taken.
fn merge_all(cuts: &mut ListedByName<Runs>, other: &ListedByName<Runs>) -> Result<(), AllocError>
    ensures ok { OnOk result (IsUnion has_cut cuts.old.entries other.now.entries
        cuts.new.entries) }
    ensures err { OnErr result (IsBetween has_cut cuts.old.entries other.now.entries
        cuts.new.entries) }
{
    for id in other.names.as_slice() {
        if let Some(theirs) = other.get(*id) {
            merge_under(cuts, *id, theirs)?;
        }
    }
    Ok(())
}

/// Takes bits of the pages of a region from the record of a name. An error where memory ran out,
/// and then nothing has changed.
fn merge_region(
    cuts: &mut ListedByName<Runs>,
    alloc: Global,
    id: RecordId,
    region: Region,
) -> Result<(), AllocError>
    ensures ok { OnOk result (IsUnion has_cut cuts.old.entries ((id, starts_of region) ∷ [])
        cuts.new.entries) }
    ensures err { OnErr result (cuts.new.entries ≡ cuts.old.entries) }
{
    if let Some(at) = cuts.names.place(id) {
        return cuts.values[at]
            .merge_part(region)
            .map_err(MergeFault::refusal);
    }
    let runs = Runs::of_part(alloc, region)?;
    cuts.insert(id, runs)
}

impl CutsByRecord {
    /// Nothing is taken. It takes no memory.
    pub(crate) fn new(alloc: Global) -> CutsByRecord
        ensures { result ≡ [] }
    {
        CutsByRecord {
            by_name: ListedByName::new(alloc),
            alloc,
        }
    }

    /// What is taken from the record of a name, where something was.
    #[inline(always)]
    pub(crate) fn get(&self, id: RecordId) -> Option<&Runs>
        ensures { option_copied result ≡ lookup (is_at (id_cmp id)) self.now }
    {
        self.by_name.get(id)
    }

    /// Expects so many records, of which few may have something taken: what is taken from one with
    /// a great number is found as fast then.
    pub(crate) fn expect(&mut self, records: usize)
        ensures { self.new ≡ self.old }
    {
        self.by_name.expect(records);
    }

    /// Takes bits of the pages of a region from the record of a name. An error where memory ran
    /// out, and then nothing has changed.
    pub(crate) fn add(&mut self, id: RecordId, region: Region) -> Result<(), AllocError>
        ensures ok { OnOk result (IsUnion has_cut self.old ((id, starts_of region) ∷ [])
            self.new) }
        ensures err { OnErr result (self.new ≡ self.old) }
    {
        merge_region(&mut self.by_name, self.alloc, id, region)
    }

    /// Whether these take all that the other takes.
    pub(crate) fn covers(&self, other: &CutsByRecord) -> bool
        ensures { IsTrue result ↔ Includes has_cut self.now other.now }
    {
        covers_all(&self.by_name, &other.by_name)
    }

    /// Whether nothing is taken: no name's runs have bits.
    pub(crate) fn is_none(&self) -> bool
        ensures { IsTrue result ↔ HasNone has_cut self.now }
    {
        covers_all(&ListedByName::new(self.alloc), &self.by_name)
    }

    /// Takes all that the other takes too. An error where memory ran out, and then some of it is
    /// taken.
    pub(crate) fn merge(&mut self, other: &CutsByRecord) -> Result<(), AllocError>
        ensures ok { OnOk result (IsUnion has_cut self.old other.now self.new) }
        ensures err { OnErr result (IsBetween has_cut self.old other.now self.new) }
    {
        merge_all(&mut self.by_name, &other.by_name)
    }

    /// What takes the same. An error where memory ran out.
    pub(crate) fn copy(&self) -> Result<CutsByRecord, AllocError>
        ensures { IfOk result (λ c. IsSame has_cut self.now c) }
    {
        let mut copy = CutsByRecord::new(self.alloc);
        copy.merge(self)?;
        Ok(copy)
    }
}
