//! The rights of a record that came, given at once: mostly nothing is known of it yet, no child of
//! it is listed, and one change follows from its parent at all of its pages.

ghost use Rattle.std.specs.Prelude.{◌≡◌, ◌≤◌, ◌<◌, ◌∷◌, [], IfOk, None, OnOk, false, true};
ghost use Rattle.mapdb_fpage.specs.RightSets.{is_empty};
ghost use Rattle.std.specs.Map.{lookup};
ghost use Rattle.mapdb_facts.specs.Facts.{state_of_facts};
ghost use Rattle.mapdb_facts.specs.Names.{same_id};
ghost use Rattle.mapdb_lists.specs.Changes.{cached_in};
ghost use Rattle.mapdb_lists.specs.Listing.{is_listed};
ghost use Rattle.mapdb_lists.specs.declared.places.Listed.{Listed};
ghost use Rattle.mapdb_lists.specs.declared.places.Owner.TheVariants as owners;
ghost use Rattle.mapdb_rights.specs.Following.{Shows, ShowsBut};
ghost use Rattle.mapdb_rights.specs.IdlePlaces.{StayNoted};
ghost use Rattle.mapdb_rights.specs.Stepping.{Follows};

use super::live_places::follow_live;
use super::settling::settle;
use super::stale::Stale;
use super::stepping::given_at;
use mapdb_facts::{Facts, RecordId};
use mapdb_fpage::PAGE_LIMIT;
use mapdb_lists::{AllChanges, Owner, Places, Stretch, add_item, begin, is_bare};
use smallvec::SmallVec;
use std::alloc::{AllocError, Global};

/// Whether no source is listed for a record: it has no child of which something is left to revoke.
/// Where it says no, it may have had some.
#[inline(always)]
fn has_no_sources(listed: &Places, id: RecordId) -> bool
    ensures { result ≡ true → (e : Listed) → e.owner ≡ owners.Record id
        → ¬ (is_listed listed.now e ≡ true) }
{
    listed.own(Owner::Record(id)).is_none()
}

/// Gives pages of a record, which has no changes and for which no source is listed, the change that
/// follows from its parent at all of them. An error where memory ran out.
#[inline(always)]
fn give(
    changes: &mut AllChanges,
    live: &mut Places,
    idle: &mut SmallVec<RecordId, 1>,
    listed: &Places,
    facts: &Facts,
    run: Stale,
    given: Stretch,
) -> Result<(), AllocError>
    requires some { run.first < run.end }
    requires shows_but { ShowsBut changes.old listed.now live.old (state_of_facts facts.now)
        (run ∷ []) }
    requires follows { Follows (state_of_facts facts.now) changes.old.own.entries run.id run.first
        run.end given.change }
    requires bare { lookup (same_id run.id) changes.old.own.entries ≡ None }
    requires childless { (e : Listed) → e.owner ≡ owners.Record run.id
        → ¬ (is_listed listed.now e ≡ true) }
    ensures shows { OnOk result (Shows changes.new live.new (state_of_facts facts.now)) }
    ensures noted { OnOk result (StayNoted (cached_in changes.old.own.entries) idle.old.items
        (cached_in changes.new.own.entries) idle.new.items) }
    ensures given { OnOk result (cached_in changes.new.own.entries run.id run.first
        ≡ given.change.rights) }
{
    let replaced = begin(changes, run.id, run.first, run.end, given.change)?;
    let Some(had_some) = replaced.had_some else {
        return Ok(());
    };
    follow_live(
        live,
        idle,
        changes,
        facts,
        run,
        given.change.rights,
        had_some,
    )
}

/// Settles pages of a record step by step, and what has its pages from there. An error where memory
/// ran out.
fn settle_by_steps(
    changes: &mut AllChanges,
    live: &mut Places,
    idle: &mut SmallVec<RecordId, 1>,
    alloc: Global,
    listed: &Places,
    facts: &Facts,
    run: Stale,
) -> Result<(), AllocError>
    requires { ShowsBut changes.old listed.now live.old (state_of_facts facts.now)
        (run ∷ []) }
    ensures shows { OnOk result (Shows changes.new live.new (state_of_facts facts.now)) }
    ensures noted { OnOk result (StayNoted (cached_in changes.old.own.entries) idle.old.items
        (cached_in changes.new.own.entries) idle.new.items) }
{
    let mut stack = SmallVec::new(alloc);
    add_item(&mut stack, run)?;
    settle(changes, live, idle, &mut stack, listed, facts)
}

/// Settles pages of a record, and what has its pages from there. Where it says so, the record has a
/// right at the first of the pages; where it does not, it may have none. An error where memory ran
/// out.
#[inline(always)]
pub(crate) fn settle_from(
    changes: &mut AllChanges,
    live: &mut Places,
    idle: &mut SmallVec<RecordId, 1>,
    alloc: Global,
    listed: &Places,
    facts: &Facts,
    run: Stale,
) -> Result<bool, AllocError>
    requires { ShowsBut changes.old listed.now live.old (state_of_facts facts.now)
        (run ∷ []) }
    ensures shows { OnOk result (Shows changes.new live.new (state_of_facts facts.now)) }
    ensures noted { OnOk result (StayNoted (cached_in changes.old.own.entries) idle.old.items
        (cached_in changes.new.own.entries) idle.new.items) }
    ensures some { IfOk result (λ some. some ≡ true
        → is_empty (cached_in changes.new.own.entries run.id run.first) ≡ false) }
{
    if run.first < run.end && is_bare(changes, run.id) && has_no_sources(listed, run.id) {
        let given = given_at(changes, facts, run.id, run.first);
        if given.end >= run.end {
            give(changes, live, idle, listed, facts, run, given)?;
            return Ok(!given.change.rights.is_none());
        }
    }
    settle_by_steps(changes, live, idle, alloc, listed, facts, run)?;
    Ok(false)
}
