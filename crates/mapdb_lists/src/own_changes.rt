//! The changes of one record: a few in a list, many in a map.

ghost use Rattle.std.specs.Prelude.{◌≡◌, ◌≤◌, ◌<◌, ℕ, None, false, true, IfOk, IsTrue, OnOk};
ghost use Rattle.mapdb_lists.specs.Changes.{IsRewritten, IsStretch, changed, no_change};
ghost use Rattle.mapdb_lists.specs.OwnChanges.{CanKeep, IsLastUpTo, IsNoneUntil, IsSpotIn};
ghost use Rattle.mapdb_lists.specs.OwnChanges.{own_change};
ghost use Rattle.mapdb_lists.specs.Replacing.{HasNoRights, HasRights, IsReplaced};
ghost use Rattle.mapdb_lists.specs.declared.changes.Change.{Change};

use crate::changes::{Change, Replaced, Stretch};
use crate::few_changes::FewChanges;
use crate::limits::FEW_CHANGES;
use crate::many_changes::{many_last, many_next, many_rights, many_stretch, many_write};
use mapdb_fpage::{PAGE_LIMIT, Rights};
use std::alloc::{AllocError, Global};
use std::collections::BTreeMap;

/// All changes of a record.
#[derive(Drop)]
pub enum OwnChanges {
    /// A few, in a list.
    Few(FewChanges),
    /// Many, by page.
    Many(BTreeMap<u64, Change>),
}

impl OwnChanges {
    /// The changes after pages got one where there was none, and this stood before any. An error
    /// where memory ran out.
    #[inline(always)]
    pub(crate) fn begun(
        alloc: Global,
        before: Change,
        first: u64,
        end: u64,
        change: Change,
    ) -> Result<OwnChanges, AllocError>
        requires some { first < end }
        requires limit { end ≤ PAGE_LIMIT }
        ensures { IfOk result (λ own. IsRewritten no_change before first end before change
            (own_change own)) }
    {
        let mut few = FewChanges::new(alloc);
        if few.takes(&before, &change) {
            few.begin(before, first, end, change)?;
            return Ok(OwnChanges::Few(few));
        }
        let mut map = BTreeMap::new(alloc);
        many_write(&mut map, before, first, end, before, change)?;
        Ok(OwnChanges::Many(map))
    }

    /// The last change up to a page, and where it stands.
    pub(crate) fn last(&self, page: u64) -> Option<(u64, Change)>
        ensures { IsLastUpTo (own_change self.now) page result }
    {
        match self {
            OwnChanges::Few(few) => few.last(page),
            OwnChanges::Many(map) => many_last(map, page),
        }
    }

    /// The page of the next change behind a page: the end of the space where there is none.
    pub(crate) fn next(&self, page: u64) -> u64
        requires { page < PAGE_LIMIT }
        ensures above { page < result }
        ensures limit { result ≤ PAGE_LIMIT }
        ensures none { IsNoneUntil (own_change self.now) page result }
    {
        match self {
            OwnChanges::Few(few) => few.next(page),
            OwnChanges::Many(map) => many_next(map, page),
        }
    }

    /// How many changes stand at a page or in front of it, where they are in a list. A map is
    /// searched where it is asked.
    #[inline(always)]
    fn spot(&self, page: u64) -> usize
        ensures { IsSpotIn self.now page result }
    {
        match self {
            OwnChanges::Few(few) => few.spot(page),
            OwnChanges::Many(_) => 0,
        }
    }

    /// What stands at a page, whose spot this is, and how far, where this stands before any change.
    #[inline(always)]
    fn stretch_from(&self, first: &Change, page: u64, spot: usize) -> Stretch
        requires limit { page < PAGE_LIMIT }
        requires spot { IsSpotIn self.now page spot }
        ensures { IsStretch (own_change self.now) first.now page result }
    {
        match self {
            OwnChanges::Few(few) => few.stretch(first, spot),
            OwnChanges::Many(map) => many_stretch(map, first, page),
        }
    }

    /// What stands at a page, and how far, where this stands before any change.
    #[inline(always)]
    pub(crate) fn stretch(&self, first: &Change, page: u64) -> Stretch
        requires { page < PAGE_LIMIT }
        ensures { IsStretch (own_change self.now) first.now page result }
    {
        self.stretch_from(first, page, self.spot(page))
    }

    /// Goes over to a map, which can keep each change. An error where memory ran out.
    fn go_over(&mut self, alloc: Global) -> Result<(), AllocError>
        ensures same { OnOk result ((page : ℕ)
            → own_change self.new page ≡ own_change self.old page) }
        ensures each { OnOk result ((change : Change) → CanKeep self.new change) }
        ensures spot { OnOk result ((page spot : ℕ) → IsSpotIn self.new page spot) }
    {
        let map = match self {
            OwnChanges::Few(few) => few.to_map(alloc)?,
            OwnChanges::Many(_) => return Ok(()),
        };
        *self = OwnChanges::Many(map);
        Ok(())
    }

    /// Goes over to a map where there are too many changes for a list. An error where memory ran
    /// out.
    #[inline(always)]
    fn widen(&mut self, alloc: Global) -> Result<(), AllocError>
        ensures { OnOk result ((page : ℕ) → own_change self.new page ≡ own_change self.old page) }
    {
        match self {
            OwnChanges::Few(few) if few.len() >= FEW_CHANGES => self.go_over(alloc),
            _ => Ok(()),
        }
    }

    /// Whether a change that comes, and what stands before any change, can be kept where the
    /// changes are now.
    #[inline(always)]
    fn takes(&mut self, before: &Change, change: &Change) -> bool
        ensures same { (page : ℕ) → own_change self.new page ≡ own_change self.old page }
        ensures spot { (page spot : ℕ) → IsSpotIn self.old page spot
            → IsSpotIn self.new page spot }
        ensures before { IsTrue result → CanKeep self.new before.now }
        ensures change { IsTrue result → CanKeep self.new change.now }
    {
        match self {
            OwnChanges::Few(few) => few.takes(before, change),
            OwnChanges::Many(_) => true,
        }
    }

    /// Goes over to a map where a list cannot keep a change that comes, and what stands before any
    /// change. An error where memory ran out.
    #[inline(always)]
    fn fit(&mut self, alloc: Global, before: &Change, change: &Change) -> Result<(), AllocError>
        ensures same { OnOk result ((page : ℕ)
            → own_change self.new page ≡ own_change self.old page) }
        ensures spot { OnOk result ((page spot : ℕ) → IsSpotIn self.old page spot
            → IsSpotIn self.new page spot) }
        ensures before { OnOk result (CanKeep self.new before.now) }
        ensures change { OnOk result (CanKeep self.new change.now) }
    {
        if self.takes(before, change) {
            return Ok(());
        }
        self.go_over(alloc)
    }

    /// Gives a change to pages over which another stood, where this stands before any change, and
    /// it and the new one can be kept where the changes are now. An error where memory ran out.
    #[inline(always)]
    fn write_there(
        &mut self,
        spot: usize,
        before: Change,
        first: u64,
        end: u64,
        was: Change,
        change: Change,
    ) -> Result<(), AllocError>
        requires some { first < end }
        requires limit { end ≤ PAGE_LIMIT }
        requires spot { IsSpotIn self.old first spot }
        requires one { IsNoneUntil (own_change self.old) first end }
        requires before { CanKeep self.old before }
        requires was { was ≡ changed (own_change self.old) before first }
        requires change { CanKeep self.old change }
        ensures { OnOk result (IsRewritten (own_change self.old) before first end was change
            (own_change self.new)) }
    {
        match self {
            OwnChanges::Few(few) => few.write(spot, before, first, end, was, change),
            OwnChanges::Many(map) => many_write(map, before, first, end, was, change),
        }
    }

    /// Gives a change to pages over which another stood, where this stands before any change. An
    /// error where memory ran out.
    #[inline(always)]
    fn write(
        &mut self,
        alloc: Global,
        spot: usize,
        before: Change,
        first: u64,
        end: u64,
        was: Change,
        change: Change,
    ) -> Result<(), AllocError>
        requires some { first < end }
        requires limit { end ≤ PAGE_LIMIT }
        requires spot { IsSpotIn self.old first spot }
        requires one { IsNoneUntil (own_change self.old) first end }
        requires was { was ≡ changed (own_change self.old) before first }
        ensures { OnOk result (IsRewritten (own_change self.old) before first end was change
            (own_change self.new)) }
    {
        self.fit(alloc, &before, &change)?;
        self.write_there(spot, before, first, end, was, change)?;
        self.widen(alloc)
    }

    /// Whether there are rights at some page, where this stands before any change.
    #[inline(always)]
    pub(crate) fn has_rights(&self, before: &Change) -> bool
        ensures some { result ≡ true → HasRights (own_change self.now) before.now }
        ensures none { result ≡ false → HasNoRights (own_change self.now) before.now }
    {
        match self {
            OwnChanges::Few(few) => few.has_rights(before),
            OwnChanges::Many(map) => many_rights(map, before),
        }
    }

    /// Whether there are rights at some page, where this stands before any change, and there are
    /// these at that page.
    #[inline(always)]
    fn has_some(&self, before: &Change, near: u64, rights: &Rights) -> bool
        requires limit { near < PAGE_LIMIT }
        requires near { rights.now ≡ (changed (own_change self.now) before.now near).rights }
        ensures some { result ≡ true → HasRights (own_change self.now) before.now }
        ensures none { result ≡ false → HasNoRights (own_change self.now) before.now }
    {
        !rights.is_none() || self.has_rights(before)
    }

    /// Gives a change to pages up to before a limit, as far as one stands there, if that has other
    /// rights, where this stands before any change. An error where memory ran out.
    #[inline(always)]
    pub(crate) fn replace(
        &mut self,
        alloc: Global,
        before: Change,
        first: u64,
        limit: u64,
        change: Change,
    ) -> Result<Replaced, AllocError>
        requires some { first < limit }
        requires limit { limit ≤ PAGE_LIMIT }
        ensures { IfOk result (IsReplaced (own_change self.old) before first limit change
            (own_change self.new)) }
    {
        let spot = self.spot(first);
        let was = self.stretch_from(&before, first, spot);
        let end = was.end.min(limit);
        if was.change.rights == change.rights {
            return Ok(Replaced {
                end,
                had_some: None,
            });
        }
        let had_some = self.has_some(&before, first, &was.change.rights);
        self.write(alloc, spot, before, first, end, was.change, change)?;
        Ok(Replaced {
            end,
            had_some: Some(had_some),
        })
    }
}
