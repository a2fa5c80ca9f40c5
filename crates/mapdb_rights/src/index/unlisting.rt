//! What is listed no longer: a record of which nothing is left to revoke. So what was unmapped from
//! those who received it is looked through no more.

ghost use Rattle.std.specs.Prelude.{◌≡◌, ◌↔◌, IsTrue, true};
ghost use Rattle.mapdb_facts.specs.Facts.{state_of_facts};
ghost use Rattle.mapdb_facts.specs.Looking.{Holds};
ghost use Rattle.mapdb_facts.specs.State.{State};
ghost use Rattle.mapdb_facts.specs.WellFormed.{IsFormedRecord};
ghost use Rattle.mapdb_lists.specs.Changes.{Cached};
ghost use Rattle.mapdb_lists.specs.Listing.{AllAligned, is_listed};
ghost use Rattle.mapdb_lists.specs.declared.places.Listed.{Listed};
ghost use Rattle.mapdb_lists.specs.declared.places.Owner.TheVariants as owners;
ghost use Rattle.mapdb_rights.specs.Following.{AreListed};
ghost use Rattle.mapdb_rights.specs.IdlePlaces.{HasIdle};
ghost use Rattle.mapdb_rights.specs.Revoked.{IsRevoked};

use super::listing::{place_of, source_of};
use mapdb_facts::{Facts, Op, Record, RecordId, Revocation};
use mapdb_fpage::{PAGE_LIMIT, Rights};
use mapdb_lists::{Owner, Places, Sweep};

/// Whether each right is taken from the record at each of its pages.
pub(crate) fn is_revoked(facts: &Facts, mapping: &Record) -> bool
    ensures { IsTrue result ↔ IsRevoked (state_of_facts facts.now) mapping.now }
{
    !facts.is_new(&Op::Cut(Revocation {
        target: mapping.id,
        part: mapping.place,
        rights: Rights::ALL,
    }))
}

/// Whether no child of the record is listed.
fn is_childless(listed: &Places, id: RecordId) -> bool
    requires { AllAligned listed.now }
    ensures { result ≡ true → (e : Listed) → e.owner ≡ owners.Record id
        → ¬ (is_listed listed.now e ≡ true) }
{
    match listed.own(Owner::Record(id)) {
        Some(own) => own.next_place(0, PAGE_LIMIT, Sweep::start()).is_none(),
        None => true,
    }
}

/// Lets go of the source of a revoked record.
fn unlist_source(listed: &mut Places, mapping: &Record)
    requires { IsFormedRecord mapping.now }
    ensures listed { (S : State) → AreListed S listed.old → Holds S mapping.now
        → IsRevoked S mapping.now → AreListed S listed.new }
    ensures idle { (S : State) (cached : Cached) → HasIdle S cached listed.old
        → HasIdle S cached listed.new }
{
    listed.remove(source_of(mapping));
}

/// Lets go of the place of a revoked record, unless a child of it is listed.
fn unlist_place(listed: &mut Places, mapping: &Record)
    requires { AllAligned listed.old }
    ensures listed { (S : State) → AreListed S listed.old → AreListed S listed.new }
    ensures idle { (S : State) (cached : Cached) → AreListed S listed.old → Holds S mapping.now
        → IsRevoked S mapping.now → HasIdle S cached listed.old → HasIdle S cached listed.new }
{
    if is_childless(listed, mapping.id) {
        listed.remove(place_of(mapping));
    }
}

/// Lets go of the place of the record of a name, where it is revoked and has no child listed.
fn unlist_parent(listed: &mut Places, facts: &Facts, id: RecordId)
    requires { AreListed (state_of_facts facts.now) listed.old }
    ensures listed { AreListed (state_of_facts facts.now) listed.new }
    ensures idle { (cached : Cached) → HasIdle (state_of_facts facts.now) cached listed.old
        → HasIdle (state_of_facts facts.now) cached listed.new }
{
    if !is_childless(listed, id) {
        return;
    }
    let Some(mapping) = facts.record(id) else {
        return;
    };
    if is_revoked(facts, &mapping) {
        listed.remove(place_of(&mapping));
    }
}

/// Lets go of the record of a name, as far as nothing is left to revoke there: of its source where
/// it is revoked, and of its place where its children are too; and so of its parent's place.
pub(crate) fn unlist(listed: &mut Places, facts: &Facts, id: RecordId)
    requires { AreListed (state_of_facts facts.now) listed.old }
    ensures listed { AreListed (state_of_facts facts.now) listed.new }
    ensures idle { (cached : Cached) → HasIdle (state_of_facts facts.now) cached listed.old
        → HasIdle (state_of_facts facts.now) cached listed.new }
{
    let Some(mapping) = facts.record(id) else {
        return;
    };
    if !is_revoked(facts, &mapping) {
        return;
    }
    unlist_source(listed, &mapping);
    unlist_place(listed, &mapping);
    unlist_parent(listed, facts, mapping.parent);
}

/// Lets go of each held record, as far as nothing is left to revoke there.
#[cold]
pub(crate) fn unlist_revoked(listed: &mut Places, facts: &Facts)
    requires { AreListed (state_of_facts facts.now) listed.old }
    ensures listed { AreListed (state_of_facts facts.now) listed.new }
    ensures idle { (cached : Cached) → HasIdle (state_of_facts facts.now) cached listed.old
        → HasIdle (state_of_facts facts.now) cached listed.new }
{
    for mapping in facts.records() {
        unlist(listed, facts, mapping.id);
    }
}
