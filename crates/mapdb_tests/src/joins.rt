//! What no clause says of values that merge: that the calls succeed with ample memory, through the
//! bounds too, and that the examples of the crate's page hold.

use mapdb_join::{BitsOr, Both, Flat, Grow, JoinMap, Merge, MergeFault, MergePart, least_above};
use std::alloc::{AllocError, Global};
use std::test::Fail;

mod examples;
mod runs;

/// A value covers its copy and is covered by it.
fn covers_its_copy<T: Merge>(value: &T) -> Result<bool, AllocError> {
    let copy = value.copy()?;
    Ok(value.covers(&copy) && copy.covers(value) && value.is_none() == copy.is_none())
}

/// A merge that succeeds leaves what covers both, and one that repeats changes nothing.
fn merges_twice<T: Merge>(value: &mut T, other: &T) -> Result<bool, AllocError> {
    let old = value.copy()?;
    if value.clash(other).is_some() || value.merge(other).is_err() {
        return Ok(false);
    }
    let once = value.copy()?;
    if value.merge(other).is_err() {
        return Ok(false);
    }
    Ok(value.covers(&old) && value.covers(other) && once.covers(value))
}

/// Whether two values have a least bound, which covers both.
fn is_bounded<T: Merge>(a: &T, b: &T) -> Result<bool, AllocError> {
    match least_above(a, b)? {
        Some(bound) => Ok(bound.covers(a) && bound.covers(b)),
        None => Ok(false),
    }
}

/// Where a merge clashes, and whether it left the value as it was.
fn refused_at<T: Merge>(value: &mut T, other: &T) -> Result<(Option<T::Spot>, bool), AllocError> {
    let old = value.copy()?;
    let spot = match value.merge(other) {
        Err(MergeFault::Clash(spot)) => Some(spot),
        _ => None,
    };
    Ok((spot, old.covers(value) && value.covers(&old)))
}

/// A value that holds the part alone takes it again.
fn takes_its_part<T: MergePart>(alloc: Global, part: T::Part) -> Result<bool, AllocError> {
    let mut value = T::of_part(alloc, part)?;
    Ok(value.merge_part(part).is_ok() && !value.is_none())
}

/// Nested maps with one value.
fn nested(
    alloc: Global,
    key: u64,
    inner: u8,
    value: u32,
) -> Result<JoinMap<u64, JoinMap<u8, Flat<u32>>>, AllocError> {
    JoinMap::of_part(alloc, (key, (inner, value)))
}

#[test]
fn join_merge_nested(rt: HostRuntime) -> Result<(), Fail> {
    let more = nested(rt.alloc(), 7, 1, 70)?;
    let mut map = nested(rt.alloc(), 5, 2, 20)?;
    assert!(rt; merges_twice(&mut map, &more)?);
    assert!(rt; covers_its_copy(&map)?);
    assert!(rt; map.len() == 2 && map.last() == Some(7));
    Ok(())
}

#[test]
fn nested_maps_clash(rt: HostRuntime) -> Result<(), Fail> {
    let wrong = nested(rt.alloc(), 7, 1, 71)?;
    let mut map = nested(rt.alloc(), 7, 1, 70)?;
    assert!(rt; refused_at(&mut map, &wrong)? == (Some((7, (1, ()))), true));
    Ok(())
}

/// Puts a value under the key 9 of the inner map under 5.
fn put_inner(map: &mut JoinMap<u64, JoinMap<u8, Flat<u32>>>) -> Result<(), AllocError> {
    if let Some(inner) = map.get_mut(&5) {
        if inner.get(&9).is_none() {
            inner.insert(9, Flat::new(90))?;
        }
    }
    Ok(())
}

#[test]
fn values_are_lent(rt: HostRuntime) -> Result<(), Fail> {
    let mut map = nested(rt.alloc(), 5, 2, 20)?;
    put_inner(&mut map)?;
    assert!(rt; map.get(&5).and_then(|inner| inner.last()) == Some(9));
    Ok(())
}

#[test]
fn parts(rt: HostRuntime) -> Result<(), Fail> {
    assert!(rt; takes_its_part::<Flat<u32>>(rt.alloc(), 3)?);
    assert!(rt; takes_its_part::<BitsOr>(rt.alloc(), 3)?);
    assert!(rt; takes_its_part::<JoinMap<bool, Grow<usize>>>(rt.alloc(), (true, 3))?);
    Ok(())
}

#[test]
fn bounds_of_bits_and_maps(rt: HostRuntime) -> Result<(), Fail> {
    let map = nested(rt.alloc(), 5, 2, 20)?;
    let other = nested(rt.alloc(), 5, 2, 21)?;
    assert!(rt; is_bounded(&BitsOr::new(1), &BitsOr::new(2))?);
    assert!(rt; is_bounded(&map, &map)?);
    assert!(rt; !is_bounded(&map, &other)?);
    Ok(())
}

/// A value beside a set without keys.
fn beside(alloc: Global, value: u8) -> Both<Flat<u8>, Grow<u64>> {
    Both {
        first: Flat::new(value),
        second: Grow::new(alloc),
    }
}

#[test]
fn bounds_of_two_values(rt: HostRuntime) -> Result<(), Fail> {
    let pair = beside(rt.alloc(), 1);
    let other = beside(rt.alloc(), 2);
    assert!(rt; is_bounded(&pair, &pair)?);
    assert!(rt; !is_bounded(&pair, &other)?);
    Ok(())
}
