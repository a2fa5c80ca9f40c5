//! The index of rights, kept beside the facts.

ghost use Rattle.std.specs.Prelude.{◌≡◌, true};
ghost use Rattle.mapdb_facts.specs.Facts.{state_of_facts};
ghost use Rattle.mapdb_facts.specs.WellFormed.{is_formed};
ghost use Rattle.mapdb_rights.specs.Index.{KeepsUp, KeptUpBefore};

use mapdb_facts::{Facts, Op};
use mapdb_rights::RightsIndex;
use std::alloc::Global;

/// Builds an index that is absent whole, if there is memory for it.
#[cold]
fn rebuild(index: &mut RightsIndex, alloc: Global, facts: &Facts)
    requires { index.old.absent ≡ true }
    ensures { KeepsUp index.new (state_of_facts facts.now) }
{
    if let Ok(built) = RightsIndex::build(alloc, facts) {
        *index = built;
    }
}

/// Lets the index follow an operation that the facts have by now. Where there is no memory for that
/// it is absent, and no call fails for it: the next operation that finds memory has it built anew.
pub(crate) fn follow(index: &mut RightsIndex, alloc: Global, facts: &Facts, op: &Op)
    requires formed { is_formed op.now ≡ true }
    requires before { KeptUpBefore index.old op.now (state_of_facts facts.now) }
    ensures { KeepsUp index.new (state_of_facts facts.now) }
{
    if index.is_absent() {
        rebuild(index, alloc, facts);
        return;
    }
    let _followed = index.added(facts, op);
}
