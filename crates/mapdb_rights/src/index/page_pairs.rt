//! What all records of a space have at a page, found in one walk over the places that hold it.

ghost use Rattle.std.specs.Prelude.{◌≡◌, IfOk, OnOk};
ghost use Rattle.mapdb_facts.specs.Facts.{state_of_facts};
ghost use Rattle.mapdb_facts.specs.Names.{root};
ghost use Rattle.mapdb_lists.specs.Listing.{owner_places};
ghost use Rattle.mapdb_lists.specs.OwnPlaces.{own_list};
ghost use Rattle.mapdb_lists.specs.declared.places.Owner.TheVariants as owners;
ghost use Rattle.mapdb_rights.specs.Following.{Shows};
ghost use Rattle.mapdb_rights.specs.Live.{IsLive};
ghost use Rattle.mapdb_rights.specs.PagePairs.{ArePagePairs, AreShown, HasPairAmong, with_shown};
ghost use Rattle.mapdb_rights.specs.PageRights.{pair_at};

use mapdb_facts::{Facts, RecordId, Space};
use mapdb_fpage::Rights;
use mapdb_lists::{AllChanges, OwnPlaces, Owner, Places, Sweep, seen_at};
use std::alloc::{AllocError, Global};

/// What is cached of a record at a page: its frame with its rights, where it has any.
fn pair_of(
    changes: &AllChanges,
    live: &Places,
    facts: &Facts,
    id: RecordId,
    page: u64,
) -> Option<(u64, Rights)>
    requires { Shows changes.now live.now (state_of_facts facts.now) }
    ensures { result ≡ pair_at (state_of_facts facts.now) id page }
{
    let change = seen_at(changes, id, page);
    if change.is_none() {
        return None;
    }
    Some((change.frame(page), change.rights))
}

/// Adds a pair, where there is one. An error where memory ran out.
fn add_shown(pairs: &mut Vec<(u64, Rights)>, shown: Option<(u64, Rights)>) -> Result<(), AllocError>
    ensures { OnOk result (pairs.new.items ≡ with_shown shown pairs.old.items) }
{
    if let Some(pair) = shown {
        pairs.push(pair)?;
    }
    Ok(())
}

/// What the root has at the page, where it is of the space and has any right there.
fn root_pairs(
    alloc: Global,
    changes: &AllChanges,
    live: &Places,
    facts: &Facts,
    space: Space,
    page: u64,
) -> Result<Vec<(u64, Rights)>, AllocError>
    requires { Shows changes.now live.now (state_of_facts facts.now) }
    ensures shown { IfOk result (λ pairs. AreShown (state_of_facts facts.now) space page
        pairs.items) }
    ensures top { IfOk result (λ pairs. IsLive (state_of_facts facts.now) space page root
        → HasPairAmong (state_of_facts facts.now) page pairs.items root) }
{
    let mut pairs = Vec::new(alloc);
    if !space.is_first() {
        return Ok(pairs);
    }
    add_shown(
        &mut pairs,
        pair_of(changes, live, facts, RecordId::ROOT, page),
    )?;
    Ok(pairs)
}

/// What each record of the space, whose places these are, has at the page that has any right there.
fn pairs_among(
    own: &OwnPlaces,
    alloc: Global,
    changes: &AllChanges,
    live: &Places,
    facts: &Facts,
    space: Space,
    page: u64,
) -> Result<Vec<(u64, Rights)>, AllocError>
    requires stands { Shows changes.now live.now (state_of_facts facts.now) }
    requires places { owner_places live.now (owners.Space space) ≡ own_list own.now }
    ensures { IfOk result (λ pairs. ArePagePairs (state_of_facts facts.now) space page
        pairs.items) }
{
    let end = page.saturating_add(1);
    let mut pairs = root_pairs(alloc, changes, live, facts, space, page)?;
    let mut sweep = Sweep::start();
    'places: while let Some(next) = own.next_place(page, end, sweep) {
        add_shown(
            &mut pairs,
            pair_of(changes, live, facts, next.place.id(), page),
        )?;
        sweep = next.sweep;
    }
    Ok(pairs)
}

/// What each record of the space has at the page that has any right there; in the first space the
/// root is one of them. An error where memory ran out.
pub(crate) fn page_pairs(
    alloc: Global,
    changes: &AllChanges,
    live: &Places,
    facts: &Facts,
    space: Space,
    page: u64,
) -> Result<Vec<(u64, Rights)>, AllocError>
    requires { Shows changes.now live.now (state_of_facts facts.now) }
    ensures { IfOk result (λ pairs. ArePagePairs (state_of_facts facts.now) space page
        pairs.items) }
{
    match live.own(Owner::Space(space)) {
        Some(own) => pairs_among(own, alloc, changes, live, facts, space, page),
        None => root_pairs(alloc, changes, live, facts, space, page),
    }
}
