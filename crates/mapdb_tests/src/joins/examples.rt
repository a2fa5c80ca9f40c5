//! The examples of the crate's page.

use mapdb_join::{BitsOr, Both, Flat, Grow, JoinMap, Merge, MergeFault, MergePart, OneOf};
use std::test::Fail;

#[test]
fn one_value(rt: HostRuntime) -> Result<(), Fail> {
    let mut owner = Flat::new(7u32);
    assert!(rt; owner.merge(&Flat::new(7)) == Ok(()));
    assert!(rt; owner.merge(&Flat::new(8)) == Err(MergeFault::Clash(())));
    assert_eq!(rt; owner.get(), 7);
    Ok(())
}

#[test]
fn bits_of_a_byte(rt: HostRuntime) -> Result<(), Fail> {
    let mut rights = BitsOr::new(0b001);
    assert!(rt; rights.merge(&BitsOr::new(0b100)) == Ok(()));
    assert!(rt; !rights.add(0b101));
    assert_eq!(rt; rights.bits(), 0b101);
    Ok(())
}

#[test]
fn set_that_grows(rt: HostRuntime) -> Result<(), Fail> {
    let mut ended = Grow::new(rt.alloc());
    assert!(rt; ended.add(3u16)?);
    assert!(rt; !ended.add(3)?);
    assert!(rt; ended.has(&3) && !ended.has(&4));
    Ok(())
}

#[test]
fn map_of_values(rt: HostRuntime) -> Result<(), Fail> {
    let mut owners = JoinMap::new(rt.alloc());
    owners.insert(2u8, Flat::new(20u32))?;
    assert!(rt; owners.next(None).is_some() && owners.next(Some(2)).is_none());
    assert!(rt; owners.last() == Some(2));
    Ok(())
}

#[test]
fn side_by_side(rt: HostRuntime) -> Result<(), Fail> {
    let mut page = Both {
        first: BitsOr::new(1),
        second: Flat::new(9u64),
    };
    let wrong = Both {
        first: BitsOr::new(2),
        second: Flat::new(8u64),
    };
    assert!(rt; page.merge(&wrong) == Err(MergeFault::Clash(OneOf::Second(()))));
    assert_eq!(rt; page.first.bits(), 1);
    Ok(())
}

#[test]
fn nested_maps(rt: HostRuntime) -> Result<(), Fail> {
    let mut records: JoinMap<u64, JoinMap<u8, Flat<u32>>> = JoinMap::new(rt.alloc());
    assert!(rt; records.merge_part((5, (1, 10))) == Ok(()));
    assert!(rt; records.merge_part((5, (2, 20))) == Ok(()));
    assert!(rt; records.merge_part((5, (1, 11))) == Err(MergeFault::Clash(())));
    Ok(())
}
