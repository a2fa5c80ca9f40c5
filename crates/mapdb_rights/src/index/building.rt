//! Cached rights of whole facts.

ghost use Rattle.std.specs.Prelude.{◌≡◌, [], false, OnOk};
ghost use Rattle.mapdb_facts.specs.Facts.{state_of_facts};
ghost use Rattle.mapdb_lists.specs.Listing.{AllAligned, is_listed};
ghost use Rattle.mapdb_lists.specs.declared.places.Listed.{Listed};
ghost use Rattle.mapdb_rights.specs.HeldPlaces.{AreOfHeld};
ghost use Rattle.mapdb_rights.specs.Following.{Stands};

use super::children::push_children;
use super::idle_places::{list_idle, note_all_without_rights};
use super::listing::list_sources;
use super::settling::settle;
use super::stale::Stale;
use super::unlisting::unlist_revoked;
use mapdb_facts::{Facts, RecordId};
use mapdb_fpage::PAGE_LIMIT;
use mapdb_lists::{AllChanges, Places};
use smallvec::SmallVec;
use std::alloc::{AllocError, Global};

/// From no changes on all is settled, beginning with the root and what has its pages from there.
pub fn settle_all(
    changes: &mut AllChanges,
    listed: &mut Places,
    live: &mut Places,
    alloc: Global,
    facts: &Facts,
) -> Result<(), AllocError>
    requires changes { changes.old.own.entries ≡ [] }
    requires listed { AllAligned listed.old }
    requires held { AreOfHeld (state_of_facts facts.now) listed.old }
    requires no_place { (e : Listed) → is_listed live.old e ≡ false }
    ensures { OnOk result (Stands changes.new listed.new live.new (state_of_facts facts.now)) }
{
    list_sources(listed, facts)?;
    let mut stack = SmallVec::new(alloc);
    stack.push(Stale {
        id: RecordId::ROOT,
        first: 0,
        end: PAGE_LIMIT,
    })?;
    push_children(&mut stack, listed, facts, RecordId::ROOT, 0, PAGE_LIMIT)?;
    let mut idle = SmallVec::new(alloc);
    settle(changes, live, &mut idle, &mut stack, listed, facts)?;
    note_all_without_rights(&mut idle, changes, facts)?;
    list_idle(listed, facts, idle.as_slice())?;
    unlist_revoked(listed, facts);
    Ok(())
}
