//! The places that a walk over the pages of a space has come to, and not gone past.

ghost use Rattle.std.specs.Prelude.{◌≡◌, ◌≤◌, ◌<◌, ℕ, List, OnOk, ◌+◌, drop, nat_lt, true};
ghost use Rattle.std.specs.List.Sorted.{IsNonDecreasingBy};
ghost use Rattle.mapdb_fpage.specs.Bounds.{page_limit};
ghost use Rattle.mapdb_lists.specs.OwnPlaces.{AreAligned, own_pages, stands};
ghost use Rattle.mapdb_lists.specs.declared.own_place.OwnPlace.{OwnPlace};
ghost use Rattle.mapdb_rights.specs.PlaceWalks.{HasCome, BeginBehind};

use mapdb_fpage::{LEAST_ORDER, PAGE_LIMIT};
use mapdb_lists::OwnPlace;
use std::alloc::{AllocError, Global};

/// Whether a page of the place is this one, or lies behind it.
fn reaches(place: &OwnPlace, page: u64) -> bool
    ensures { result ≡ nat_lt page (place.now.first + own_pages place.now) }
{
    let order = u32::from(place.order().saturating_sub(LEAST_ORDER));
    match 1_u64.checked_shl(order) {
        Some(pages) => page.saturating_sub(place.first()) < pages,
        None => true,
    }
}

/// How far a walk over places in the order of their first pages has come.
#[derive(Drop)]
pub struct PlaceWalk {
    /// Those that hold the page that the walk has come to.
    pub held: Vec<OwnPlace>,
    /// How many begin at this page or before it.
    pub begun: usize,
}

impl PlaceWalk {
    /// Before all pages. It takes no memory.
    pub(crate) fn start(alloc: Global) -> PlaceWalk
        ensures { (places : List OwnPlace) (page : ℕ) → HasCome places page result }
    {
        PlaceWalk {
            held: Vec::new(alloc),
            begun: 0,
        }
    }

    /// Lets go of the places that lie before the page.
    fn leave(&mut self, page: u64)
        ensures { (places : List OwnPlace) → HasCome places page self.old
            → HasCome places page self.new }
    {
        self.held.retain(|place| reaches(place, page));
    }

    /// Takes the places that begin at the page or before it. An error where memory ran out.
    fn enter(&mut self, places: &[OwnPlace], page: u64) -> Result<(), AllocError>
        requires come { HasCome places.now page self.old }
        requires ordered { IsNonDecreasingBy (λ p. p.first) places.now }
        ensures come { OnOk result (HasCome places.now page self.new) }
        ensures behind { OnOk result (BeginBehind places.now page self.new) }
    {
        'places: while self.begun < places.len() && places[self.begun].first() <= page {
            self.held.push(places[self.begun])?;
            self.begun += 1;
        }
        Ok(())
    }

    /// Goes on to the page that comes next. An error where memory ran out.
    pub(crate) fn go_to(&mut self, places: &[OwnPlace], page: u64) -> Result<(), AllocError>
        requires come { HasCome places.now page self.old }
        requires ordered { IsNonDecreasingBy (λ p. p.first) places.now }
        ensures come { OnOk result (HasCome places.now page self.new) }
        ensures behind { OnOk result (BeginBehind places.now page self.new) }
    {
        self.leave(page);
        self.enter(places, page)
    }

    /// Where the first place begins that the walk has not come to, or the end of the space.
    pub(crate) fn next_first(&self, places: &[OwnPlace], page: u64) -> u64
        requires in_space { page < page_limit }
        requires behind { BeginBehind places.now page self.now }
        requires ordered { IsNonDecreasingBy (λ p. p.first) places.now }
        requires aligned { AreAligned places.now }
        ensures above { page < result }
        ensures limit { result ≤ page_limit }
        ensures least { (p : OwnPlace) → stands (drop self.now.begun places.now) p ≡ true
            → result ≤ p.first }
        ensures begins { result < page_limit → (p : OwnPlace)
            × (stands (drop self.now.begun places.now) p ≡ true) × (p.first ≡ result) }
    {
        if self.begun < places.len() {
            places[self.begun].first()
        } else {
            PAGE_LIMIT
        }
    }
}
