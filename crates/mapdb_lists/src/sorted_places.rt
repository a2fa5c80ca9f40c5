//! Places of an owner in ascending order: some in a list that is halved, more in a tree.

ghost use Rattle.std.specs.Prelude.{◌≡◌, ◌&&◌, ◌||◌, IfOk, IfSome, OnOk, OnErr, not};
ghost use Rattle.std.specs.BTreeMap.{is_at};
ghost use Rattle.mapdb_lists.specs.Ascending.{IsInOrder, kept_places};
ghost use Rattle.mapdb_lists.specs.OwnPlaces.{place_cmp, stands};
ghost use Rattle.mapdb_lists.specs.declared.own_place.OwnPlace.{OwnPlace};

use crate::limits::SOME_PLACES;
use crate::own_place::OwnPlace;
use crate::place_lists::{list_above, list_from, list_put, list_remove};
use crate::place_names::{list_names, tree_names};
use crate::place_sets::{Spot, set_above, set_from};
use mapdb_facts::RecordId;
use smallvec::SmallVec;
use std::alloc::{AllocError, Global};
use std::collections::BTreeSet;
use std::marker::Model;

/// How places in ascending order are kept.
#[derive(Drop)]
pub enum KeptPlaces {
    /// In a list: a place is found by halving it, and put between others by moving these.
    Listed(Vec<OwnPlace>),
    /// In a tree, where moving would cost too much.
    Tree(BTreeSet<OwnPlace>),
}

/// Puts one place more into a tree. An error where memory ran out, and then nothing has changed.
fn tree_put(tree: &mut BTreeSet<OwnPlace>, place: OwnPlace) -> Result<(), AllocError>
    ensures put { OnOk result ((k : OwnPlace) → stands tree.new.keys k
        ≡ (is_at (place_cmp place) k || stands tree.old.keys k)) }
    ensures err { OnErr result (tree.new.keys ≡ tree.old.keys) }
{
    tree.insert(place)?;
    Ok(())
}

/// These places in a tree.
fn tree_of(alloc: Global, places: &[OwnPlace]) -> Result<BTreeSet<OwnPlace>, AllocError>
    ensures { IfOk result (λ tree. (k : OwnPlace) → stands tree.keys k ≡ stands places.now k) }
{
    let mut tree = BTreeSet::new(alloc);
    for place in places {
        tree_put(&mut tree, *place)?;
    }
    Ok(tree)
}

/// The same places in a tree, where they are too many for a list. An error where memory ran out.
fn outgrown(alloc: Global, kept: &KeptPlaces) -> Result<Option<BTreeSet<OwnPlace>>, AllocError>
    ensures { IfOk result (λ grown. IfSome grown (λ tree. (k : OwnPlace)
        → stands tree.keys k ≡ stands (kept_places kept.now) k)) }
{
    match kept {
        KeptPlaces::Listed(list) if list.len() >= SOME_PLACES => {
            let tree = tree_of(alloc, list.as_slice())?;
            Ok(Some(tree))
        }
        _ => Ok(None),
    }
}

/// Goes over to a tree where there are too many places for a list. An error where memory ran out,
/// and then nothing has changed.
fn widen(alloc: Global, kept: &mut KeptPlaces) -> Result<(), AllocError>
    requires { IsInOrder kept.old }
    ensures order { IsInOrder kept.new }
    ensures same { (k : OwnPlace) → stands (kept_places kept.new) k
        ≡ stands (kept_places kept.old) k }
{
    if let Some(tree) = outgrown(alloc, kept)? {
        *kept = KeptPlaces::Tree(tree);
    }
    Ok(())
}

/// Puts one place more where the places are kept now. An error where memory ran out, and then the
/// same places stand there.
fn put(kept: &mut KeptPlaces, place: OwnPlace) -> Result<(), AllocError>
    requires { IsInOrder kept.old }
    ensures order { IsInOrder kept.new }
    ensures put { OnOk result ((k : OwnPlace) → stands (kept_places kept.new) k
        ≡ (is_at (place_cmp place) k || stands (kept_places kept.old) k)) }
    ensures err { OnErr result ((k : OwnPlace) → stands (kept_places kept.new) k
        ≡ stands (kept_places kept.old) k) }
{
    match kept {
        KeptPlaces::Listed(list) => list_put(list, place),
        KeptPlaces::Tree(tree) => tree_put(tree, place),
    }
}

/// Takes a place out of a tree, where it stands there. It takes no memory.
fn tree_remove(tree: &mut BTreeSet<OwnPlace>, place: OwnPlace)
    ensures { (k : OwnPlace) → stands tree.new.keys k
        ≡ (not (is_at (place_cmp place) k) && stands tree.old.keys k) }
{
    tree.remove(&place);
}

/// Takes a place out where the places are kept now. It takes no memory, and a tree stays one.
fn remove(kept: &mut KeptPlaces, place: OwnPlace)
    requires { IsInOrder kept.old }
    ensures order { IsInOrder kept.new }
    ensures removed { (k : OwnPlace) → stands (kept_places kept.new) k
        ≡ (not (is_at (place_cmp place) k) && stands (kept_places kept.old) k) }
{
    match kept {
        KeptPlaces::Listed(list) => list_remove(list, place),
        KeptPlaces::Tree(tree) => tree_remove(tree, place),
    }
}

/// Places in ascending order.
#[derive(Drop)]
pub struct SortedPlaces {
    kept: KeptPlaces,
}

impl Model for SortedPlaces {
    ghost use Rattle.std.specs.Prelude.{List};
    ghost use Rattle.mapdb_lists.specs.Ascending.{IsInOrder, kept_places};
    ghost use Rattle.mapdb_lists.specs.declared.own_place.OwnPlace.{OwnPlace};

    ghost Value = { List OwnPlace };

    ghost view = { λ p. kept_places p.kept };

    ghost invariant = { λ p. IsInOrder p.kept };
}

impl SortedPlaces {
    ghost use Rattle.std.specs.Prelude.{◌≡◌, ◌<◌, ◌&&◌, ◌||◌, IfSome, OnErr, OnOk, [], not};
    ghost use Rattle.std.specs.Prelude.{◌⊎◌, option_map, true};
    ghost use Rattle.mapdb_lists.specs.Ascending.{Ascend};
    ghost use Rattle.std.specs.BTreeMap.{is_at};
    ghost use Rattle.std.specs.BTreeMap.Range.{is_from_start};
    ghost use Rattle.std.specs.declared.ops.Bound.TheVariants.{Excluded, Included};
    ghost use Rattle.mapdb_facts.specs.declared.names.RecordId.{RecordId};
    ghost use Rattle.mapdb_lists.specs.OwnPlaces.{IsBehind, IsFirstPlaceWhere, IsNameFrom};
    ghost use Rattle.mapdb_lists.specs.OwnPlaces.{place_cmp};
    ghost use Rattle.mapdb_lists.specs.OwnPlaces.{spot_place, stands};
    ghost use Rattle.mapdb_lists.specs.Standing.{is_named};
    ghost use Rattle.mapdb_lists.specs.declared.own_place.OwnPlace.{OwnPlace};

    /// No places. It takes no memory.
    pub(crate) fn new(alloc: Global) -> SortedPlaces
        ensures { result ≡ [] }
    {
        SortedPlaces {
            kept: KeptPlaces::Listed(Vec::new(alloc)),
        }
    }

    /// Puts one place more. An error where memory ran out, and then the same places stand there.
    pub(crate) fn insert(&mut self, alloc: Global, place: OwnPlace) -> Result<(), AllocError>
        ensures put { OnOk result ((k : OwnPlace) → stands self.new k
            ≡ (is_at (place_cmp place) k || stands self.old k)) }
        ensures err { OnErr result ((k : OwnPlace) → stands self.new k ≡ stands self.old k) }
    {
        widen(alloc, &mut self.kept)?;
        put(&mut self.kept, place)
    }

    /// Takes a place out, where it stands here. It takes no memory.
    pub(crate) fn remove(&mut self, place: OwnPlace)
        ensures { (k : OwnPlace) → stands self.new k
            ≡ (not (is_at (place_cmp place) k) && stands self.old k) }
    {
        remove(&mut self.kept, place)
    }

    /// These places, where they stand in a list.
    pub(crate) fn listed(&self) -> Option<&[OwnPlace]>
        ensures { IfSome result (λ list. (list.now ≡ self.now) × Ascend list.now) }
    {
        match &self.kept {
            KeptPlaces::Listed(list) => Some(list.as_slice()),
            KeptPlaces::Tree(_) => None,
        }
    }

    /// The least place from one on, and the one behind it.
    pub(crate) fn first_from(&self, from: OwnPlace) -> Option<Spot>
        ensures least { IsFirstPlaceWhere (is_from_start place_cmp (Included from)) self.now
            (option_map spot_place result) }
        ensures behind { IfSome result (IsBehind self.now) }
    {
        match &self.kept {
            KeptPlaces::Listed(list) => list_from(list.as_slice(), from),
            KeptPlaces::Tree(tree) => set_from(tree, from),
        }
    }

    /// The least place above one, and the one behind it.
    pub(crate) fn first_above(&self, after: OwnPlace) -> Option<Spot>
        ensures least { IsFirstPlaceWhere (is_from_start place_cmp (Excluded after)) self.now
            (option_map spot_place result) }
        ensures behind { IfSome result (IsBehind self.now) }
    {
        match &self.kept {
            KeptPlaces::Listed(list) => list_above(list.as_slice(), after),
            KeptPlaces::Tree(tree) => set_above(tree, after),
        }
    }

    /// Adds the names of the places from one on that are of its order and begin before an end. An
    /// error where memory ran out.
    pub(crate) fn add_names(
        &self,
        names: &mut SmallVec<RecordId, 1>,
        from: OwnPlace,
        end: u64,
    ) -> Result<(), AllocError>
        ensures kept { OnOk result ((id : RecordId) → is_named names.old.items id ≡ true
            → is_named names.new.items id ≡ true) }
        ensures named { OnOk result ((p : OwnPlace) → stands self.now p ≡ true
            → is_from_start place_cmp (Included from) p ≡ true → p.order ≡ from.order
            → p.first < end → is_named names.new.items p.id ≡ true) }
        ensures only { OnOk result ((id : RecordId) → is_named names.new.items id ≡ true
            → (is_named names.old.items id ≡ true) ⊎ IsNameFrom self.now from end id) }
    {
        match &self.kept {
            KeptPlaces::Listed(list) => list_names(names, list.as_slice(), from, end),
            KeptPlaces::Tree(tree) => tree_names(names, tree, from, end),
        }
    }
}
