//! What an operation does to cached rights.

ghost use Rattle.std.specs.Prelude.{◌≡◌, true, OnOk};
ghost use Rattle.mapdb_facts.specs.declared.operations.Record.{Record};
ghost use Rattle.mapdb_facts.specs.Facts.{state_of_facts};
ghost use Rattle.mapdb_facts.specs.WellFormed.{is_formed};
ghost use Rattle.mapdb_facts.specs.declared.operations.Op.{Op};
ghost use Rattle.mapdb_rights.specs.Following.{Stood, Stands};

use super::children::push_space;
use super::coming::settle_from;
use super::idle_places::{list_idle, note_unless_known};
use super::listing::list_came;
use super::settling::settle;
use super::stale::Stale;
use super::unlisting::unlist;
use mapdb_facts::{Facts, Record, Revocation, Space};
use mapdb_lists::{AllChanges, Places, add_item};
use smallvec::SmallVec;
use std::alloc::{AllocError, Global};

/// A record came: it takes its rights from its parent, and what waited for it follows.
pub fn follow_record(
    changes: &mut AllChanges,
    listed: &mut Places,
    live: &mut Places,
    alloc: Global,
    facts: &Facts,
    mapping: &Record,
) -> Result<(), AllocError>
    requires formed { is_formed (Op.Born mapping.now) ≡ true }
    requires stood { Stood changes.old listed.old live.old (Op.Born mapping.now)
        (state_of_facts facts.now) }
    ensures { OnOk result (Stands changes.new listed.new live.new (state_of_facts facts.now)) }
{
    list_came(listed, facts, mapping)?;
    let run = Stale {
        id: mapping.id,
        first: mapping.place.first_page(),
        end: mapping.place.end(),
    };
    let mut idle = SmallVec::new(alloc);
    let has_some = settle_from(changes, live, &mut idle, alloc, listed, facts, run)?;
    note_unless_known(&mut idle, changes, mapping, has_some)?;
    list_idle(listed, facts, idle.as_slice())
}

/// Rights were taken from a part of a record: it loses them, and what has its pages from there
/// follows. Where nothing is left to revoke, the record is listed no longer.
pub fn follow_cut(
    changes: &mut AllChanges,
    listed: &mut Places,
    live: &mut Places,
    alloc: Global,
    facts: &Facts,
    cut: &Revocation,
) -> Result<(), AllocError>
    requires formed { is_formed (Op.Cut cut.now) ≡ true }
    requires stood { Stood changes.old listed.old live.old (Op.Cut cut.now)
        (state_of_facts facts.now) }
    ensures { OnOk result (Stands changes.new listed.new live.new (state_of_facts facts.now)) }
{
    let mut stack = SmallVec::new(alloc);
    let stale = Stale {
        id: cut.target,
        first: cut.part.first_page(),
        end: cut.part.end(),
    };
    add_item(&mut stack, stale)?;
    let mut idle = SmallVec::new(alloc);
    settle(changes, live, &mut idle, &mut stack, listed, facts)?;
    list_idle(listed, facts, idle.as_slice())?;
    unlist(listed, facts, cut.target);
    Ok(())
}

/// A space ended: its records lose their rights, and what has its pages from there follows.
#[cold]
pub fn follow_end(
    changes: &mut AllChanges,
    listed: &mut Places,
    live: &mut Places,
    alloc: Global,
    facts: &Facts,
    space: Space,
) -> Result<(), AllocError>
    requires stood { Stood changes.old listed.old live.old (Op.Closed space)
        (state_of_facts facts.now) }
    ensures { OnOk result (Stands changes.new listed.new live.new (state_of_facts facts.now)) }
{
    let mut stack = SmallVec::new(alloc);
    push_space(&mut stack, live, facts, space)?;
    let mut idle = SmallVec::new(alloc);
    settle(changes, live, &mut idle, &mut stack, listed, facts)?;
    list_idle(listed, facts, idle.as_slice())
}
