//! A few changes of a record, in ascending order of page, with one shift for all of them.

use crate::change_lists::{any_rights, end_at, last_at, list_last, list_next, map_of, spot_of};
use crate::changes::{Change, Stretch};
use crate::list_writes::{list_begin, list_write};
use mapdb_fpage::{PAGE_LIMIT, RIGHT_SETS, Rights};
use smallvec::SmallVec;
use std::alloc::{AllocError, Global};
use std::collections::BTreeMap;
use std::marker::Model;

/// A page from which other rights stand, and these rights: one word, whose lowest bits are the
/// rights, as in the word of an fpage.
#[derive(Clone, Copy, Debug)]
pub struct PageRights {
    /// [`RIGHT_SETS`] times the page, and the bits of the rights.
    word: u64,
}

impl Model for PageRights {
    ghost use Rattle.mapdb_lists.specs.PageWords.{PageWithRights, change_in, change_word};
    ghost use Rattle.mapdb_lists.specs.PageWords.{change_word_comes_back};

    ghost Value = { PageWithRights };

    ghost view = { λ p. change_in p.word };

    ghost inverse = { λ p. record { word = change_word p.page p.rights } };

    ghost inverse_ok = { λ p _ i. record { word = change_word_comes_back p.word i } };
}

impl PageRights {
    ghost use Rattle.std.specs.Prelude.{◌≡◌, ◌<◌};

    /// These rights from a page on.
    #[inline(always)]
    pub(crate) fn new(page: u64, rights: Rights) -> PageRights
        requires { page < PAGE_LIMIT }
        ensures { result ≡ record { page = page; rights = rights } }
    {
        PageRights {
            word: RIGHT_SETS * page + rights.bits() as u64,
        }
    }

    /// The page.
    #[inline(always)]
    pub(crate) fn page(&self) -> u64
        ensures { result ≡ self.now.page }
    {
        self.word / RIGHT_SETS
    }

    /// The rights from it on.
    #[inline(always)]
    pub(crate) fn rights(&self) -> Rights
        ensures { result ≡ self.now.rights }
    {
        Rights::from_low_bits(self.word % RIGHT_SETS)
    }
}

impl Default for PageRights {
    /// No rights from page 0 on. It fills the room of a short list.
    fn default() -> PageRights {
        PageRights { word: 0 }
    }
}

/// A few changes in ascending order of page, each page once. A record has one parent, so its frames
/// mostly lie equally far off at each page: the shift is kept once.
#[derive(Drop)]
pub struct FewChanges {
    /// The shift of each change that has rights.
    shift: u64,
    /// The rights, by page.
    list: SmallVec<PageRights, 2>,
}

impl Model for FewChanges {
    ghost use Rattle.mapdb_lists.specs.FewChanges.{ListedChanges};
    ghost use Rattle.mapdb_lists.specs.PageOrder.{PagesRise};

    ghost Value = { ListedChanges };

    ghost view = { λ f. record { shift = f.shift; list = f.list.items } };

    ghost invariant = { λ f. PagesRise f.list.items };
}

impl FewChanges {
    ghost use Rattle.std.specs.Prelude.{◌≡◌, ◌≤◌, ◌<◌, ◌↔◌, ℕ, [], false, true, IfOk, IsTrue, OnOk};
    ghost use Rattle.std.specs.Prelude.{length};
    ghost use Rattle.mapdb_lists.specs.Changes.{IsRewritten, IsStretch, changed, no_change};
    ghost use Rattle.mapdb_lists.specs.FewChanges.{ShowsChange, few_change, shift_for};
    ghost use Rattle.mapdb_lists.specs.OwnChanges.{IsLastUpTo, IsNoneUntil, mapped_change};
    ghost use Rattle.mapdb_lists.specs.PageOrder.{IsSpot};
    ghost use Rattle.mapdb_lists.specs.Replacing.{HasNoRights, HasRights};

    /// No changes. It takes no memory.
    pub(crate) fn new(alloc: Global) -> FewChanges
        ensures { result.list ≡ [] }
    {
        FewChanges {
            shift: PAGE_LIMIT,
            list: SmallVec::new(alloc),
        }
    }

    /// How many changes there are.
    pub(crate) fn len(&self) -> usize
        ensures { result ≡ length self.now.list }
    {
        self.list.len()
    }

    /// The last change up to a page, and where it stands.
    pub(crate) fn last(&self, page: u64) -> Option<(u64, Change)>
        ensures { IsLastUpTo (few_change self.now) page result }
    {
        match list_last(self.list.as_slice(), page) {
            Some((at, rights)) => Some((at, Change::with_shift(self.shift, rights))),
            None => None,
        }
    }

    /// The page of the next change behind a page: the end of the space where there is none.
    pub(crate) fn next(&self, page: u64) -> u64
        requires { page < PAGE_LIMIT }
        ensures above { page < result }
        ensures limit { result ≤ PAGE_LIMIT }
        ensures none { IsNoneUntil (few_change self.now) page result }
    {
        list_next(self.list.as_slice(), page)
    }

    /// How many changes stand at a page or in front of it.
    #[inline(always)]
    pub(crate) fn spot(&self, page: u64) -> usize
        ensures { IsSpot self.now.list page result }
    {
        spot_of(self.list.as_slice(), page)
    }

    /// What stands at a page, and how far, where this stands before any change, and so many stand
    /// at the page or in front of it.
    #[inline(always)]
    pub(crate) fn stretch(&self, first: &Change, spot: usize) -> Stretch
        requires { spot ≤ length self.now.list }
        ensures { (page : ℕ) → page < PAGE_LIMIT → IsSpot self.now.list page spot
            → IsStretch (few_change self.now) first.now page result }
    {
        let changes = self.list.as_slice();
        let end = end_at(changes, spot);
        let Some(last) = last_at(changes, spot) else {
            return Stretch {
                change: *first,
                end,
            };
        };
        Stretch {
            change: Change::with_shift(self.shift, last.1),
            end,
        }
    }

    /// Whether there are rights at some page, where this stands before any change.
    #[inline(always)]
    pub(crate) fn has_rights(&self, before: &Change) -> bool
        ensures some { result ≡ true → HasRights (few_change self.now) before.now }
        ensures none { result ≡ false → HasNoRights (few_change self.now) before.now }
    {
        let changes = self.list.as_slice();
        if !before.is_none() && end_at(changes, 0) > 0 {
            return true;
        }
        any_rights(changes)
    }

    /// A list without changes takes over the shift of one with rights that comes.
    #[inline(always)]
    fn take_shift(&mut self, change: &Change)
        ensures shift { self.new.shift ≡ shift_for self.old change.now }
        ensures list { self.new.list ≡ self.old.list }
    {
        if self.list.is_empty() && !change.is_none() {
            self.shift = change.shift;
        }
    }

    /// Whether the list, with its shift, shows a change as it is.
    #[inline(always)]
    fn shows(&self, change: &Change) -> bool
        ensures { IsTrue result ↔ ShowsChange self.now.shift change.now }
    {
        change.is(&Change::with_shift(self.shift, change.rights))
    }

    /// Whether the list shows a change that comes, and what stands before any change, as they are,
    /// with one shift: its own, or that of the one that comes, where it has none yet.
    #[inline(always)]
    pub(crate) fn takes(&mut self, before: &Change, change: &Change) -> bool
        ensures shift { self.new.shift ≡ shift_for self.old change.now }
        ensures list { self.new.list ≡ self.old.list }
        ensures shown { IsTrue result ↔ (ShowsChange self.new.shift before.now
            × ShowsChange self.new.shift change.now) }
    {
        self.take_shift(change);
        self.shows(before) && self.shows(change)
    }

    /// Gives a change to pages where the list has none at all, and this stands before any, and it
    /// shows both as they are. An error where memory ran out.
    #[inline(always)]
    pub(crate) fn begin(
        &mut self,
        before: Change,
        first: u64,
        end: u64,
        change: Change,
    ) -> Result<(), AllocError>
        requires some { first < end }
        requires bare { self.old.list ≡ [] }
        requires limit { end ≤ PAGE_LIMIT }
        requires before { ShowsChange self.old.shift before }
        requires change { ShowsChange self.old.shift change }
        ensures { OnOk result (IsRewritten no_change before first end before change
            (few_change self.new)) }
    {
        list_begin(&mut self.list, before.rights, first, end, change.rights)
    }

    /// Gives a change to pages over which another stood, where this stands before any change, and
    /// the list shows it and the new one as they are; so many stand at the first of the pages or in
    /// front of it. An error where memory ran out.
    #[inline(always)]
    pub(crate) fn write(
        &mut self,
        spot: usize,
        before: Change,
        first: u64,
        end: u64,
        was: Change,
        change: Change,
    ) -> Result<(), AllocError>
        requires some { first < end }
        requires spot { IsSpot self.old.list first spot }
        requires limit { end ≤ PAGE_LIMIT }
        requires one { IsNoneUntil (few_change self.old) first end }
        requires before { ShowsChange self.old.shift before }
        requires was { was ≡ changed (few_change self.old) before first }
        requires change { ShowsChange self.old.shift change }
        ensures { OnOk result (IsRewritten (few_change self.old) before first end was change
            (few_change self.new)) }
    {
        list_write(
            &mut self.list,
            spot,
            before.rights,
            first,
            end,
            was.rights,
            change.rights,
        )
    }

    /// These changes as a map. An error where memory ran out.
    pub(crate) fn to_map(&self, alloc: Global) -> Result<BTreeMap<u64, Change>, AllocError>
        ensures { IfOk result (λ map. (page : ℕ) → mapped_change map page
            ≡ few_change self.now page) }
    {
        map_of(alloc, self.shift, self.list.as_slice())
    }
}
