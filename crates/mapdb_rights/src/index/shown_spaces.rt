//! What a space shows at all its pages, found in one walk from its first page to its last.

ghost use Rattle.std.specs.Prelude.{◌≡◌, IfOk};
ghost use Rattle.std.specs.List.Sorted.{IsNonDecreasingBy};
ghost use Rattle.mapdb_lists.specs.Listing.{AllAligned, owner_places};
ghost use Rattle.mapdb_lists.specs.OwnPlaces.{stands};
ghost use Rattle.mapdb_lists.specs.declared.own_place.OwnPlace.{OwnPlace};
ghost use Rattle.mapdb_lists.specs.declared.places.Owner.TheVariants as owners;

use super::first_records::First;
use super::first_until::first_until_held;
use super::frame_rights::held_frame_rights;
use super::ordered_places::places_in_order;
use super::place_walk::PlaceWalk;
use super::rights_index::RightsIndex;
use super::served_pages::SteadyPages;
use mapdb_facts::{Facts, Space};
use mapdb_fpage::{PAGE_LIMIT, Rights};
use mapdb_lists::{OwnPlace, Owner, Places};
use std::alloc::{AllocError, Global};

/// The places of the space's records with rights, ascending by their first pages. An error where
/// memory ran out.
fn space_places(alloc: Global, live: &Places, space: Space) -> Result<Vec<OwnPlace>, AllocError>
    requires { AllAligned live.now }
    ensures ordered { IfOk result (λ places. IsNonDecreasingBy (λ p. p.first) places.items) }
    ensures same { IfOk result (λ places. (p : OwnPlace) → stands places.items p
        ≡ stands (owner_places live.now (owners.Space space)) p) }
{
    match live.own(Owner::Space(space)) {
        Some(own) => places_in_order(alloc, own),
        None => Ok(Vec::new(alloc)),
    }
}

impl RightsIndex {
    ghost use Rattle.std.specs.Prelude.{◌≡◌, ◌+◌, ◌<◌, IfOk, IfSome, IsSome, None, Ok, false, true};
    ghost use Rattle.std.specs.List.Sorted.{IsNonDecreasingBy};
    ghost use Rattle.mapdb_facts.specs.Facts.{state_of_facts};
    ghost use Rattle.mapdb_fpage.specs.Bounds.{page_limit};
    ghost use Rattle.mapdb_lists.specs.Listing.{is_listed, listed_for, owner_places};
    ghost use Rattle.mapdb_lists.specs.OwnPlaces.{own_meets, stands};
    ghost use Rattle.mapdb_lists.specs.declared.own_place.OwnPlace.{OwnPlace};
    ghost use Rattle.mapdb_lists.specs.declared.places.Owner.TheVariants as owners;
    ghost use Rattle.mapdb_rights.specs.First.{IsFirstOfAll};
    ghost use Rattle.mapdb_rights.specs.Index.{KeepsUp};
    ghost use Rattle.mapdb_rights.specs.PlaceWalks.{HasCome};
    ghost use Rattle.mapdb_rights.specs.Served.{IsServed};
    ghost use Rattle.mapdb_rights.specs.ShownSpaces.{CoverPages, IsShownFrom};

    /// The frame that the page of the space is served from, where its first record is known, and
    /// each place of the space that holds the page is one of these.
    fn served_among(
        &self,
        held: &[OwnPlace],
        facts: &Facts,
        space: Space,
        page: u64,
        first: First,
    ) -> Option<(u64, Rights)>
        requires kept { KeepsUp self.now (state_of_facts facts.now) }
        requires there { self.now.absent ≡ false }
        requires listed { (p : OwnPlace) → stands held.now p ≡ true
            → is_listed self.now.live (listed_for (owners.Space space) p) ≡ true }
        requires all { (p : OwnPlace)
            → stands (owner_places self.now.live (owners.Space space)) p ≡ true
            → own_meets p page (page + 1) ≡ true → stands held.now p ≡ true }
        requires first { IsFirstOfAll (state_of_facts facts.now) self.now.changes.own.entries
            space page first }
        ensures { IsServed (state_of_facts facts.now) space page result }
    {
        match first {
            First::Mixed(_, change) => {
                let (changes, live) = (&self.changes, &self.live);
                let shift = change.shift;
                let rights = held_frame_rights(held, changes, live, facts, space, page, shift);
                Some((change.frame(page), rights))
            }
            _ => self.served_by(facts, space, page, first),
        }
    }

    /// What a page of the space shows. The walk over the space's places goes on to it first. An
    /// error where memory ran out.
    fn next_shown(
        &self,
        walk: &mut PlaceWalk,
        places: &[OwnPlace],
        facts: &Facts,
        space: Space,
        page: u64,
    ) -> Result<SteadyPages, AllocError>
        requires in_space { page < page_limit }
        requires stands { KeepsUp self.now (state_of_facts facts.now) }
        requires there { self.now.absent ≡ false }
        requires places { (p : OwnPlace) → stands places.now p
            ≡ stands (owner_places self.now.live (owners.Space space)) p }
        requires ordered { IsNonDecreasingBy (λ p. p.first) places.now }
        requires come { HasCome places.now page walk.old }
        ensures shown { IfOk result (λ shown.
            IsShownFrom (state_of_facts facts.now) space page shown) }
        ensures come { IfOk result (λ shown. HasCome places.now shown.end walk.new) }
    {
        walk.go_to(places, page)?;
        let until = walk.next_first(places, page);
        let (changes, live) = (&self.changes, &self.live);
        let held = walk.held.as_slice();
        let found = first_until_held(held, until, changes, live, facts, space, page);
        Ok(SteadyPages {
            page,
            served: self.served_among(held, facts, space, page, found.first),
            end: found.end,
        })
    }

    /// What the space shows at its pages, from the first one to the last: parts, one behind the
    /// other, with what the first page of each is served from and an end up to which all records of
    /// the space go on from there: each has equal rights at the pages before it, and where it has
    /// some, a frame that rises by one with each page. None where the index is absent. An error
    /// where memory ran out.
    pub fn shown_pages(
        &self,
        facts: &Facts,
        space: Space,
    ) -> Result<Option<Vec<SteadyPages>>, AllocError>
        requires { KeepsUp self.now (state_of_facts facts.now) }
        ensures absent { self.now.absent ≡ true → result ≡ Ok None }
        ensures there { IfOk result (λ list. self.now.absent ≡ false → IsSome list) }
        ensures shown { IfOk result (λ list. IfSome list (λ parts.
            CoverPages (IsShownFrom (state_of_facts facts.now) space) 0 page_limit parts.items)) }
    {
        if self.absent {
            return Ok(None);
        }
        let places = space_places(self.alloc, &self.live, space)?;
        let mut walk = PlaceWalk::start(self.alloc);
        let mut shown = Vec::new(self.alloc);
        let mut page = 0;
        'pages: while page < PAGE_LIMIT {
            let shows = self.next_shown(&mut walk, places.as_slice(), facts, space, page)?;
            let SteadyPages { served, end, .. } = shows;
            shown.push(SteadyPages { page, served, end })?;
            page = end;
        }
        Ok(Some(shown))
    }
}
