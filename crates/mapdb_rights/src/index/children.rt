//! What has its pages from a record, and what stands in a space: their pages join what is stale.

ghost use Rattle.std.specs.Prelude.{◌≡◌, ◌≤◌, ◌<◌, ◌+◌, ◌*◌, ℕ, true, Some, OnOk, length};
ghost use Rattle.mapdb_fpage.specs.Place.{IsPlace, holds};
ghost use Rattle.mapdb_facts.specs.Facts.{state_of_facts};
ghost use Rattle.mapdb_facts.specs.Looking.{Holds};
ghost use Rattle.mapdb_facts.specs.Names.{same_id, same_space};
ghost use Rattle.mapdb_facts.specs.WellFormed.{IsFormedRecord};
ghost use Rattle.mapdb_facts.specs.declared.names.RecordId.{RecordId};
ghost use Rattle.mapdb_facts.specs.declared.operations.Record.{Record};
ghost use Rattle.mapdb_lists.specs.Listing.{AllAligned, is_listed, listed_len, own_place};
ghost use Rattle.mapdb_lists.specs.OwnPlaces.{AreAligned, own_list, stands};
ghost use Rattle.mapdb_rights.specs.HeldPlaces.{place_of, source_of};
ghost use Rattle.mapdb_rights.specs.Pending.{IsPending, share, weight};
ghost use Rattle.mapdb_rights.specs.Right.{source_page};

use super::stale::Stale;
use mapdb_facts::{Facts, Record, RecordId, Space};
use mapdb_fpage::PAGE_LIMIT;
use mapdb_lists::{OwnPlaces, Owner, Places, Sweep, add_item};
use smallvec::SmallVec;
use std::alloc::AllocError;

/// The pages of the child whose source pages are among these join what is stale.
fn push_child(
    stack: &mut SmallVec<Stale, 1>,
    child: &Record,
    first: u64,
    end: u64,
) -> Result<(), AllocError>
    requires { IsFormedRecord child.now }
    ensures kept { OnOk result ((id : RecordId) (page : ℕ)
        → IsPending stack.old.items id page → IsPending stack.new.items id page) }
    ensures stale { OnOk result ((page : ℕ) → holds child.now.place page ≡ true
        → first ≤ source_page child.now page → source_page child.now page < end
        → IsPending stack.new.items child.now.id page) }
    ensures weight { OnOk result ((base : ℕ) → weight base stack.new.items
        ≤ weight base stack.old.items + share base child.now.id.number) }
{
    let low = first.max(child.source);
    let high = end.min(child.source + child.place.page_count());
    if low >= high {
        return Ok(());
    }
    let first_page = child.place.first_page();
    let stale = Stale {
        id: child.id,
        first: first_page + (low - child.source),
        end: first_page + (high - child.source),
    };
    add_item(stack, stale)
}

/// The pages of a child, if it is one of this parent, join what is stale.
#[inline(always)]
fn push_held(
    stack: &mut SmallVec<Stale, 1>,
    facts: &Facts,
    parent: RecordId,
    id: RecordId,
    first: u64,
    end: u64,
) -> Result<(), AllocError>
    ensures kept { OnOk result ((other : RecordId) (page : ℕ)
        → IsPending stack.old.items other page → IsPending stack.new.items other page) }
    ensures stale { OnOk result ((r : Record) → (state_of_facts facts.now).record_at id ≡ Some r
        → same_id r.parent parent ≡ true → (page : ℕ) → holds r.place page ≡ true
        → first ≤ source_page r page → source_page r page < end
        → IsPending stack.new.items id page) }
    ensures weight { OnOk result ((base : ℕ) → 0 < base → weight base stack.new.items
        ≤ weight base stack.old.items + share base (parent.number + 1)) }
{
    match facts.record(id) {
        Some(child) if child.parent.is(parent) => push_child(stack, &child, first, end),
        _ => Ok(()),
    }
}

/// The children of the parent that these many places are the sources of: their pages that come from
/// these pages join what is stale.
fn push_many_sources(
    stack: &mut SmallVec<Stale, 1>,
    own: &OwnPlaces,
    facts: &Facts,
    parent: RecordId,
    first: u64,
    end: u64,
) -> Result<(), AllocError>
    requires { AreAligned (own_list own.now) }
    ensures kept { OnOk result ((id : RecordId) (page : ℕ)
        → IsPending stack.old.items id page → IsPending stack.new.items id page) }
    ensures stale { OnOk result ((r : Record) → Holds (state_of_facts facts.now) r
        → r.parent ≡ parent → stands (own_list own.now) (own_place (source_of r)) ≡ true
        → (page : ℕ) → holds r.place page ≡ true
        → first ≤ source_page r page → source_page r page < end
        → IsPending stack.new.items r.id page) }
    ensures weight { OnOk result ((base : ℕ) → 0 < base → weight base stack.new.items
        ≤ weight base stack.old.items
        + length (own_list own.now) * share base (parent.number + 1)) }
{
    let mut sweep = Sweep::start();
    'children: while let Some(next) = own.next_place(first, end, sweep) {
        push_held(stack, facts, parent, next.place.id(), first, end)?;
        sweep = next.sweep;
    }
    Ok(())
}

/// The children of the parent that these places are the sources of: their pages that come from
/// these pages join what is stale.
#[inline(always)]
fn push_sources(
    stack: &mut SmallVec<Stale, 1>,
    own: &OwnPlaces,
    facts: &Facts,
    parent: RecordId,
    first: u64,
    end: u64,
) -> Result<(), AllocError>
    requires { AreAligned (own_list own.now) }
    ensures kept { OnOk result ((id : RecordId) (page : ℕ)
        → IsPending stack.old.items id page → IsPending stack.new.items id page) }
    ensures stale { OnOk result ((r : Record) → Holds (state_of_facts facts.now) r
        → r.parent ≡ parent → stands (own_list own.now) (own_place (source_of r)) ≡ true
        → (page : ℕ) → holds r.place page ≡ true
        → first ≤ source_page r page → source_page r page < end
        → IsPending stack.new.items r.id page) }
    ensures weight { OnOk result ((base : ℕ) → 0 < base → weight base stack.new.items
        ≤ weight base stack.old.items
        + length (own_list own.now) * share base (parent.number + 1)) }
{
    let Some(places) = own.few() else {
        return push_many_sources(stack, own, facts, parent, first, end);
    };
    for place in places {
        if place.meets(first, end) {
            push_held(stack, facts, parent, place.id(), first, end)?;
        }
    }
    Ok(())
}

/// The children of the parent whose source meets these pages: their pages that come from there join
/// what is stale.
#[inline(always)]
pub(crate) fn push_children(
    stack: &mut SmallVec<Stale, 1>,
    listed: &Places,
    facts: &Facts,
    parent: RecordId,
    first: u64,
    end: u64,
) -> Result<(), AllocError>
    requires { AllAligned listed.now }
    ensures kept { OnOk result ((id : RecordId) (page : ℕ)
        → IsPending stack.old.items id page → IsPending stack.new.items id page) }
    ensures stale { OnOk result ((r : Record) → Holds (state_of_facts facts.now) r
        → IsFormedRecord r → is_listed listed.now (source_of r) ≡ true
        → r.parent ≡ parent → (page : ℕ) → holds r.place page ≡ true
        → first ≤ source_page r page → source_page r page < end
        → IsPending stack.new.items r.id page) }
    ensures weight { OnOk result ((base : ℕ) → 0 < base → weight base stack.new.items
        ≤ weight base stack.old.items
        + listed_len listed.now * share base (parent.number + 1)) }
{
    match listed.own(Owner::Record(parent)) {
        Some(own) => push_sources(stack, own, facts, parent, first, end),
        None => Ok(()),
    }
}

/// The pages of a record's place join what is stale.
fn push_place(stack: &mut SmallVec<Stale, 1>, facts: &Facts, id: RecordId) -> Result<(), AllocError>
    ensures kept { OnOk result ((other : RecordId) (page : ℕ)
        → IsPending stack.old.items other page → IsPending stack.new.items other page) }
    ensures stale { OnOk result ((r : Record) → (state_of_facts facts.now).record_at id ≡ Some r
        → (page : ℕ)
        → holds r.place page ≡ true → IsPending stack.new.items id page) }
{
    if let Some(mapping) = facts.record(id) {
        stack.push(Stale {
            id,
            first: mapping.place.first_page(),
            end: mapping.place.end(),
        })?;
    }
    Ok(())
}

/// The pages of all records that stand at these places join what is stale.
fn push_places(
    stack: &mut SmallVec<Stale, 1>,
    own: &OwnPlaces,
    facts: &Facts,
) -> Result<(), AllocError>
    requires { AreAligned (own_list own.now) }
    ensures { OnOk result ((r : Record) → Holds (state_of_facts facts.now) r → IsPlace r.place
        → stands (own_list own.now) (own_place (place_of r)) ≡ true → (page : ℕ)
        → holds r.place page ≡ true → IsPending stack.new.items r.id page) }
{
    let mut sweep = Sweep::start();
    'places: while let Some(next) = own.next_place(0, PAGE_LIMIT, sweep) {
        push_place(stack, facts, next.place.id())?;
        sweep = next.sweep;
    }
    Ok(())
}

/// The pages of all records into a space that have a right at some page join what is stale.
pub(crate) fn push_space(
    stack: &mut SmallVec<Stale, 1>,
    live: &Places,
    facts: &Facts,
    space: Space,
) -> Result<(), AllocError>
    requires { AllAligned live.now }
    ensures { OnOk result ((r : Record) → Holds (state_of_facts facts.now) r → IsPlace r.place
        → is_listed live.now (place_of r) ≡ true
        → same_space space r.space ≡ true → (page : ℕ) → holds r.place page ≡ true
        → IsPending stack.new.items r.id page) }
{
    match live.own(Owner::Space(space)) {
        Some(own) => push_places(stack, own, facts),
        None => Ok(()),
    }
}
