//! The places of an owner in the order of their first pages.

ghost use Rattle.std.specs.Prelude.{◌≡◌, IfOk};
ghost use Rattle.std.specs.List.Sorted.{IsNonDecreasingBy};
ghost use Rattle.mapdb_lists.specs.OwnPlaces.{AreAligned, own_list, stands};
ghost use Rattle.mapdb_lists.specs.declared.own_place.OwnPlace.{OwnPlace};

use mapdb_fpage::PAGE_LIMIT;
use mapdb_lists::{OwnPlace, OwnPlaces, Sweep};
use std::alloc::{AllocError, Global};

/// All places of the owner, as they come. An error where memory ran out.
fn gathered(alloc: Global, own: &OwnPlaces) -> Result<Vec<OwnPlace>, AllocError>
    requires { AreAligned (own_list own.now) }
    ensures { IfOk result (λ places. (p : OwnPlace)
        → stands places.items p ≡ stands (own_list own.now) p) }
{
    let mut places = Vec::new(alloc);
    let mut sweep = Sweep::start();
    'places: while let Some(next) = own.next_place(0, PAGE_LIMIT, sweep) {
        places.push(next.place)?;
        sweep = next.sweep;
    }
    Ok(places)
}

/// Puts places in the order of their first pages.
fn put_in_order(places: &mut Vec<OwnPlace>)
    ensures ordered { IsNonDecreasingBy (λ p. p.first) places.new.items }
    ensures same { (p : OwnPlace) → stands places.new.items p ≡ stands places.old.items p }
{
    places.sort_unstable_by_key(|place| place.first());
}

/// All places of the owner, ascending by their first pages. An error where memory ran out.
pub(crate) fn places_in_order(alloc: Global, own: &OwnPlaces) -> Result<Vec<OwnPlace>, AllocError>
    requires { AreAligned (own_list own.now) }
    ensures ordered { IfOk result (λ places. IsNonDecreasingBy (λ p. p.first) places.items) }
    ensures same { IfOk result (λ places. (p : OwnPlace)
        → stands places.items p ≡ stands (own_list own.now) p) }
{
    let mut places = gathered(alloc, own)?;
    put_in_order(&mut places);
    Ok(places)
}
