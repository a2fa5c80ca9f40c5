//! The places of one owner: one by itself, a few as they came, many in their order.

ghost use Rattle.std.specs.Prelude.{◌≡◌, ◌≤◌, ◌<◌, ◌-◌, ◌^◌, ◌&&◌, ◌||◌, IfOk, IfSome, OnOk, []};
ghost use Rattle.std.specs.Prelude.{◌⊎◌, false, not, option_map, true};
ghost use Rattle.std.specs.BTreeMap.{is_at};
ghost use Rattle.std.specs.BTreeMap.Range.{is_from_start};
ghost use Rattle.std.specs.Option.{option_copied};
ghost use Rattle.std.specs.declared.ops.Bound.TheVariants.{Excluded, Included};
ghost use Rattle.mapdb_facts.specs.declared.names.RecordId.{RecordId};
ghost use Rattle.mapdb_lists.specs.OwnPlaces.{AreAligned, IsFirstPlaceWhere};
ghost use Rattle.mapdb_lists.specs.OwnPlaces.{IsNameMeeting, IsNextPlace, IsSweptOn, ahead};
ghost use Rattle.mapdb_lists.specs.OwnPlaces.{at_start, few_list, found_place, many_ahead, own_list};
ghost use Rattle.mapdb_lists.specs.OwnPlaces.{own_meets, place_cmp, stands};
ghost use Rattle.mapdb_lists.specs.Standing.{is_named};
ghost use Rattle.mapdb_lists.specs.declared.own_place.OwnPlace.{OwnPlace};

use crate::few_places::{few_meet, few_remove, least_inside, least_meeting, next_of_few};
use crate::limits::FEW_PLACES;
use crate::many_places::ManyPlaces;
use crate::own_place::OwnPlace;
use crate::place_names::few_names;
use mapdb_facts::RecordId;
use smallvec::SmallVec;
use std::alloc::{AllocError, Global};
use std::ops::Bound;
use std::slice::from_ref;

/// A place that was found, and whether it is known to be the last that is looked for.
#[derive(Clone, Copy, Debug)]
pub struct FoundPlace {
    /// The place.
    pub place: OwnPlace,
    /// Where it may stand among all.
    pub at: usize,
    /// Whether none that is looked for comes behind it; where it is not known, it says no.
    pub last: bool,
}

/// How far a sweep over the places of an owner has come.
#[derive(Clone, Copy, Debug)]
pub struct Sweep {
    /// How many of a few places were looked at.
    pub passed: usize,
    /// The last of many places that was found.
    pub after: Option<OwnPlace>,
    /// Where that one may stand: it is looked for there first.
    pub at: usize,
    /// Whether none of many is left behind it.
    pub over: bool,
}

impl Sweep {
    /// Before all places.
    pub fn start() -> Sweep
        ensures { result ≡ at_start }
    {
        Sweep {
            passed: 0,
            after: None,
            at: 0,
            over: false,
        }
    }

    /// Past so many of a few places.
    #[inline(always)]
    pub(crate) fn past(self, passed: usize) -> Sweep
        ensures { result ≡ record self { passed = passed } }
    {
        Sweep { passed, ..self }
    }
}

/// A place that a sweep found, and how far it has come with it.
#[derive(Clone, Copy, Debug)]
pub struct NextPlace {
    /// The place.
    pub place: OwnPlace,
    /// How far the sweep has come.
    pub sweep: Sweep,
}

/// The next of many places, in a sweep over those that meet the pages from `first` on up to before
/// `end`.
fn next_of_many(many: &ManyPlaces, first: u64, end: u64, sweep: Sweep) -> Option<NextPlace>
    requires { AreAligned many.now.places }
    ensures { IsSweptOn many.now.places (many_ahead many.now.places) first end sweep
        result }
{
    if sweep.over {
        return None;
    }
    match many.next_meeting(first, end, sweep.after, sweep.at) {
        Some(found) => Some(NextPlace {
            place: found.place,
            sweep: Sweep {
                passed: sweep.passed,
                after: Some(found.place),
                at: found.at,
                over: found.last,
            },
        }),
        None => None,
    }
}

/// The place that was found, where there is one.
fn place_of(found: Option<FoundPlace>) -> Option<OwnPlace>
    ensures { result ≡ option_map found_place found }
{
    match found {
        Some(found) => Some(found.place),
        None => None,
    }
}

/// All places of an owner. Most owners have one place, so these take no more room than one needs.
#[derive(Drop)]
pub enum OwnPlaces {
    /// One, which takes no memory besides.
    One(OwnPlace),
    /// A few, as they came, or none.
    Few(Vec<OwnPlace>),
    /// Many, in ascending order: apart, so that they make no other owner's places larger.
    Many(Box<ManyPlaces>),
}

/// These places as many.
fn many_of(alloc: Global, places: &[OwnPlace]) -> Result<ManyPlaces, AllocError>
    ensures { IfOk result (λ many. (k : OwnPlace)
        → stands many.places k ≡ stands places.now k) }
{
    let mut many = ManyPlaces::new(alloc);
    for place in places {
        many.insert(alloc, *place)?;
    }
    Ok(many)
}

impl OwnPlaces {
    /// No places. It takes no memory.
    pub(crate) fn new(alloc: Global) -> OwnPlaces
        ensures { own_list result ≡ [] }
    {
        OwnPlaces::Few(Vec::new(alloc))
    }

    /// The least place from one on.
    pub(crate) fn first_from(&self, from: OwnPlace) -> Option<OwnPlace>
        ensures { IsFirstPlaceWhere (is_from_start place_cmp (Included from)) (own_list self.now)
            result }
    {
        match self {
            OwnPlaces::One(place) => least_inside(from_ref(place), &Bound::Included(from)),
            OwnPlaces::Few(list) => least_inside(list.as_slice(), &Bound::Included(from)),
            OwnPlaces::Many(many) => many.first_from(from),
        }
    }

    /// The least place above one.
    pub(crate) fn first_above(&self, after: OwnPlace) -> Option<OwnPlace>
        ensures { IsFirstPlaceWhere (is_from_start place_cmp (Excluded after)) (own_list self.now)
            result }
    {
        match self {
            OwnPlaces::One(place) => least_inside(from_ref(place), &Bound::Excluded(after)),
            OwnPlaces::Few(list) => least_inside(list.as_slice(), &Bound::Excluded(after)),
            OwnPlaces::Many(many) => many.first_above(after),
        }
    }

    /// The least place, above another, that meets the pages from `first` on up to before `end`.
    pub(crate) fn next_meeting(
        &self,
        first: u64,
        end: u64,
        after: Option<OwnPlace>,
    ) -> Option<OwnPlace>
        requires { AreAligned (own_list self.now) }
        ensures { IsNextPlace (own_list self.now) first end after result }
    {
        match self {
            OwnPlaces::One(place) => least_meeting(from_ref(place), first, end, after),
            OwnPlaces::Few(list) => least_meeting(list.as_slice(), first, end, after),
            OwnPlaces::Many(many) => place_of(many.next_meeting(first, end, after, 0)),
        }
    }

    /// These places, where they are a few: a walk over them keeps nothing but its index.
    #[inline(always)]
    pub fn few(&self) -> Option<&[OwnPlace]>
        ensures { option_copied result ≡ few_list self.now }
    {
        match self {
            OwnPlaces::One(place) => Some(from_ref(place)),
            OwnPlaces::Few(list) => Some(list.as_slice()),
            OwnPlaces::Many(_) => None,
        }
    }

    /// The next place of a sweep over those that meet the pages from `first` on up to before `end`.
    #[inline(always)]
    pub fn next_place(&self, first: u64, end: u64, sweep: Sweep) -> Option<NextPlace>
        requires { AreAligned (own_list self.now) }
        ensures { IsSweptOn (own_list self.now) (ahead self.now) first end sweep result }
    {
        match self {
            OwnPlaces::One(place) => next_of_few(from_ref(place), first, end, sweep),
            OwnPlaces::Few(list) => next_of_few(list.as_slice(), first, end, sweep),
            OwnPlaces::Many(many) => next_of_many(many, first, end, sweep),
        }
    }

    /// The same places as many, where they are too many for a list. An error where memory ran
    /// out.
    #[inline(always)]
    fn outgrown(&self, alloc: Global) -> Result<Option<ManyPlaces>, AllocError>
        ensures { IfOk result (λ grown. IfSome grown (λ many. (k : OwnPlace)
            → stands many.places k ≡ stands (own_list self.now) k)) }
    {
        match self {
            OwnPlaces::Few(list) if list.len() >= FEW_PLACES => {
                let many = many_of(alloc, list.as_slice())?;
                Ok(Some(many))
            }
            _ => Ok(None),
        }
    }

    /// Goes over to many where there are too many places for a list. An error where memory ran
    /// out.
    #[inline(always)]
    fn widen(&mut self, alloc: Global) -> Result<(), AllocError>
        ensures { OnOk result ((k : OwnPlace) → stands (own_list self.new) k
            ≡ stands (own_list self.old) k) }
    {
        if let Some(many) = self.outgrown(alloc)? {
            *self = OwnPlaces::Many(Box::new(alloc, many)?);
        }
        Ok(())
    }

    /// Puts one place more where the places are kept now: the first by itself, and a second into a
    /// list with room for both. An error where memory ran out.
    #[inline(always)]
    fn put(&mut self, alloc: Global, place: OwnPlace) -> Result<(), AllocError>
        ensures { OnOk result ((k : OwnPlace) → stands (own_list self.new) k
            ≡ (is_at (place_cmp place) k || stands (own_list self.old) k)) }
    {
        match self {
            OwnPlaces::One(other) => *self = OwnPlaces::Few(vec![in alloc; *other, place]?),
            OwnPlaces::Few(list) if list.is_empty() => *self = OwnPlaces::One(place),
            OwnPlaces::Few(list) => list.push(place)?,
            OwnPlaces::Many(many) => many.insert(alloc, place)?,
        }
        Ok(())
    }

    /// Puts one place more. An error where memory ran out.
    #[inline(always)]
    pub(crate) fn insert(&mut self, alloc: Global, place: OwnPlace) -> Result<(), AllocError>
        ensures { OnOk result ((k : OwnPlace) → stands (own_list self.new) k
            ≡ (is_at (place_cmp place) k || stands (own_list self.old) k)) }
    {
        self.widen(alloc)?;
        self.put(alloc, place)
    }

    /// Takes a place out, where it stands here. It takes no memory, and many places stay many.
    pub(crate) fn remove(&mut self, alloc: Global, place: OwnPlace)
        ensures { (k : OwnPlace) → stands (own_list self.new) k
            ≡ (not (is_at (place_cmp place) k) && stands (own_list self.old) k) }
    {
        match self {
            OwnPlaces::One(only) if *only == place => *self = OwnPlaces::new(alloc),
            OwnPlaces::One(_) => {}
            OwnPlaces::Few(list) => few_remove(list, place),
            OwnPlaces::Many(many) => many.remove(place),
        }
    }

    /// Adds the names of all places that meet the pages from `first` on up to before `end`. An
    /// error where memory ran out.
    pub fn add_names(
        &self,
        names: &mut SmallVec<RecordId, 1>,
        first: u64,
        end: u64,
    ) -> Result<(), AllocError>
        requires { AreAligned (own_list self.now) }
        ensures kept { OnOk result ((id : RecordId) → is_named names.old.items id ≡ true
            → is_named names.new.items id ≡ true) }
        ensures named { OnOk result ((p : OwnPlace) → stands (own_list self.now) p ≡ true
            → own_meets p first end ≡ true → is_named names.new.items p.id ≡ true) }
        ensures only { OnOk result ((id : RecordId) → is_named names.new.items id ≡ true
            → (is_named names.old.items id ≡ true)
            ⊎ IsNameMeeting (own_list self.now) first end id) }
    {
        match self {
            OwnPlaces::One(place) => few_names(names, from_ref(place), first, end),
            OwnPlaces::Few(list) => few_names(names, list.as_slice(), first, end),
            OwnPlaces::Many(many) => many.add_names(names, first, end),
        }
    }

    /// Whether a place meets the pages from `first` on up to before `end`.
    pub fn any_meets(&self, first: u64, end: u64) -> bool
        requires { AreAligned (own_list self.now) }
        ensures some { result ≡ true → (p : OwnPlace) × (stands (own_list self.now) p ≡ true)
            × (own_meets p first end ≡ true) }
        ensures none { result ≡ false → (p : OwnPlace) → stands (own_list self.now) p ≡ true
            → own_meets p first end ≡ false }
    {
        match self {
            OwnPlaces::One(place) => few_meet(from_ref(place), first, end),
            OwnPlaces::Few(list) => few_meet(list.as_slice(), first, end),
            OwnPlaces::Many(many) => many.next_meeting(first, end, None, 0).is_some(),
        }
    }
}
