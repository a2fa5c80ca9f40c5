//! Cached rights follow from the parents' again, from what is stale down to what has its pages from
//! there. Frames come with the rights.

ghost use Rattle.std.specs.Prelude.{◌≡◌, ◌≤◌, ◌<◌, ◌+◌, ◌-◌, ◌*◌, ◌++◌, ◌∷◌, [], ℕ, true};
ghost use Rattle.std.specs.Prelude.{OnOk};
ghost use Rattle.mapdb_facts.specs.Facts.{state_of_facts};
ghost use Rattle.mapdb_facts.specs.declared.names.RecordId.{RecordId};
ghost use Rattle.mapdb_lists.specs.Changes.{covers, cached_in};
ghost use Rattle.mapdb_rights.specs.CachedFrames.{AreFrames};
ghost use Rattle.mapdb_rights.specs.Following.{Shows, ShowsBut};
ghost use Rattle.mapdb_rights.specs.IdlePlaces.{StayNoted};
ghost use Rattle.mapdb_rights.specs.LivePlaces.{ListsLive};
ghost use Rattle.mapdb_rights.specs.Pending.{AreSettledBut, IsPending, base_of, weight, worth};

use super::children::push_children;
use super::live_places::follow_live;
use super::stale::Stale;
use super::stepping::given_at;
use mapdb_facts::{Facts, RecordId};
use mapdb_fpage::PAGE_LIMIT;
use mapdb_lists::{AllChanges, Change, Places, replace};
use smallvec::SmallVec;
use std::alloc::AllocError;

/// Those of the pages that begin at the end of a run stay stale.
#[inline(always)]
fn keep_rest(stack: &mut SmallVec<Stale, 1>, stale: &Stale, end: u64) -> Result<(), AllocError>
    ensures pending { OnOk result ((id : RecordId) (page : ℕ) → IsPending stack.old.items id page
        → IsPending stack.new.items id page) }
    ensures rest { OnOk result ((id : RecordId) (page : ℕ)
        → covers stale.now.id end stale.now.end id page ≡ true
        → IsPending stack.new.items id page) }
    ensures weight { OnOk result ((base : ℕ) → weight base stack.new.items
        ≤ weight base stack.old.items + (1 + (stale.now.end - end) * worth base stale.now.id.number)) }
{
    if end < stale.end {
        stack.push(Stale {
            id: stale.id,
            first: end,
            end: stale.end,
        })?;
    }
    Ok(())
}

/// Settles the first of these pages, as far as all is steady: they get what follows from the
/// parent. The others stay stale. Where the rights are others than before, the record's place comes
/// to those with rights or goes from them, with its name noted, and the pages of children that come
/// from there join what is stale.
#[inline(always)]
fn settle_next(
    changes: &mut AllChanges,
    live: &mut Places,
    idle: &mut SmallVec<RecordId, 1>,
    stack: &mut SmallVec<Stale, 1>,
    listed: &Places,
    facts: &Facts,
    stale: &Stale,
) -> Result<(), AllocError>
    requires { ShowsBut changes.old listed.now live.old (state_of_facts facts.now)
        (stack.old.items ++ stale.now ∷ []) }
    ensures frames { OnOk result (AreFrames (state_of_facts facts.now) changes.new.own.entries) }
    ensures live { OnOk result (ListsLive (state_of_facts facts.now)
        (cached_in changes.new.own.entries) live.new) }
    ensures noted { OnOk result (StayNoted (cached_in changes.old.own.entries) idle.old.items
        (cached_in changes.new.own.entries) idle.new.items) }
    ensures settled { OnOk result (AreSettledBut (state_of_facts facts.now)
        (cached_in changes.new.own.entries) stack.new.items) }
    ensures weight { OnOk result (weight (base_of listed.now) stack.new.items
        < weight (base_of listed.now) (stack.old.items ++ stale.now ∷ [])) }
{
    if stale.first >= stale.end {
        return Ok(());
    }
    let id = stale.id;
    let given = given_at(changes, facts, id, stale.first);
    let limit = stale.end.min(given.end);
    let Change { rights, shift } = given.change;
    let replaced = replace(changes, id, stale.first, limit, Change { rights, shift })?;
    keep_rest(stack, stale, replaced.end)?;
    let Some(had_some) = replaced.had_some else {
        return Ok(());
    };
    let (first, end) = (stale.first, replaced.end);
    let run = Stale { id, first, end };
    follow_live(live, idle, changes, facts, run, rights, had_some)?;
    push_children(stack, listed, facts, id, first, end)
}

/// Settles what is stale, until nothing is. The names of records that lost all their rights are
/// noted.
pub fn settle(
    changes: &mut AllChanges,
    live: &mut Places,
    idle: &mut SmallVec<RecordId, 1>,
    stack: &mut SmallVec<Stale, 1>,
    listed: &Places,
    facts: &Facts,
) -> Result<(), AllocError>
    requires { ShowsBut changes.old listed.now live.old (state_of_facts facts.now)
        stack.old.items }
    ensures shows { OnOk result (Shows changes.new live.new (state_of_facts facts.now)) }
    ensures noted { OnOk result (StayNoted (cached_in changes.old.own.entries) idle.old.items
        (cached_in changes.new.own.entries) idle.new.items) }
{
    'stale: while let Some(stale) = stack.pop() {
        settle_next(changes, live, idle, stack, listed, facts, &stale)?;
    }
    Ok(())
}
