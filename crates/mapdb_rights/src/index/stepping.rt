//! What a record has at a page by what is cached of its parent, and how far that goes on.

ghost use Rattle.std.specs.Prelude.{◌≡◌, ◌≤◌, ◌<◌, ℕ, Some, false, true};
ghost use Rattle.mapdb_fpage.specs.Place.{holds};
ghost use Rattle.mapdb_facts.specs.Adding.{cut_at};
ghost use Rattle.mapdb_facts.specs.Facts.{state_of_facts};
ghost use Rattle.mapdb_facts.specs.Names.{is_root};
ghost use Rattle.mapdb_facts.specs.WellFormed.{IsFormedRecord};
ghost use Rattle.mapdb_lists.specs.Changes.{PageChanges};
ghost use Rattle.mapdb_rights.specs.Stepping.{IsGiven};

use crate::sources::source_of;
use mapdb_facts::{Facts, Record, RecordId};
use mapdb_fpage::{PAGE_LIMIT, Rights};
use mapdb_lists::{AllChanges, Change, Stretch, stretch_at};

/// The rights that are taken from a record at a page, and the end of the pages from it on at which
/// they are.
#[inline(always)]
fn taken_at(facts: &Facts, id: RecordId, page: u64) -> (Rights, u64)
    requires { page < PAGE_LIMIT }
    ensures above { page < result.1 }
    ensures limit { result.1 ≤ PAGE_LIMIT }
    ensures same { (q : ℕ) → page ≤ q → q < result.1
        → cut_at (state_of_facts facts.now) id q ≡ result.0 }
{
    let Some(run) = facts.cut_run(id, page) else {
        return (Rights::NONE, PAGE_LIMIT);
    };
    if page < run.first_page {
        return (Rights::NONE, run.first_page);
    }
    (run.rights, run.first_page + run.page_count)
}

/// What the root has from a page on.
#[cold]
fn root_given(facts: &Facts, id: RecordId, page: u64) -> Stretch
    requires root { is_root id ≡ true }
    requires in_space { page < PAGE_LIMIT }
    ensures { (changes : PageChanges) → IsGiven (state_of_facts facts.now) changes id page result }
{
    let (taken, end) = taken_at(facts, id, page);
    let change = Change {
        rights: Rights::ALL.without(&taken),
        shift: PAGE_LIMIT,
    };
    Stretch { change, end }
}

/// What a record whose space lives has from a page of its place on, by what is cached of its
/// parent.
#[inline(always)]
fn child_given(changes: &AllChanges, facts: &Facts, mapping: &Record, page: u64) -> Stretch
    requires child { is_root mapping.now.id ≡ false }
    requires held { (state_of_facts facts.now).record_at mapping.now.id ≡ Some mapping.now }
    requires formed { IsFormedRecord mapping.now }
    requires lives { (state_of_facts facts.now).is_ended mapping.now.space ≡ false }
    requires in_place { holds mapping.now.place page ≡ true }
    requires in_space { page < PAGE_LIMIT }
    ensures { IsGiven (state_of_facts facts.now) changes.now.own.entries
        mapping.now.id page result }
{
    let source = source_of(mapping, page);
    let up = stretch_at(changes, mapping.parent, source);
    let (taken, taken_end) = taken_at(facts, mapping.id, page);
    let rights = mapping.rights.meet(&up.change.rights).without(&taken);
    let shift = up.change.shift.saturating_add(source).saturating_sub(page);
    let change = Change::with_shift(shift, rights);
    let place_end = mapping.place.change_after(page);
    let end = place_end.min(taken_end).min(page + (up.end - source));
    Stretch { change, end }
}

/// What follows from a record's parent at a page, and how far that goes on.
#[inline(always)]
pub(crate) fn given_at(changes: &AllChanges, facts: &Facts, id: RecordId, page: u64) -> Stretch
    requires { page < PAGE_LIMIT }
    ensures { IsGiven (state_of_facts facts.now) changes.now.own.entries id page result }
{
    if id.is_root() {
        return root_given(facts, id, page);
    }
    let Some(mapping) = facts.record(id) else {
        return Stretch::none_until(PAGE_LIMIT);
    };
    if !mapping.place.holds(page) {
        return Stretch::none_until(mapping.place.change_after(page));
    }
    if facts.ended(mapping.space) {
        return Stretch::none_until(PAGE_LIMIT);
    }
    child_given(changes, facts, &mapping, page)
}
