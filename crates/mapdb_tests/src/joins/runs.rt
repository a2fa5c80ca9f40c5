//! Bits of pages: that calls succeed with ample memory, and what the least run is.

use super::{covers_its_copy, merges_twice};
use mapdb_join::{JoinMap, MergePart, Region, Runs};
use std::alloc::{AllocError, Global};
use std::test::Fail;

/// Bits that were added, of which some were there.
fn added(alloc: Global) -> Result<Runs, AllocError> {
    let mut runs = Runs::new(alloc);
    runs.add(0x40, 1, 2)?;
    runs.add(0x41, 1, 2)?;
    runs.add(0x40, 2, 4)?;
    Ok(runs)
}

#[test]
fn join_merge_runs(rt: HostRuntime) -> Result<(), Fail> {
    let mut runs = added(rt.alloc())?;
    assert!(rt; runs.at(0x40) == 6 && runs.at(0x42) == 0);
    assert!(rt; runs.run_from(0) == Some((0x40, 2, 6)));
    assert!(rt; covers_its_copy(&runs)?);
    assert!(rt; merges_twice(&mut runs, &Runs::new(rt.alloc()))?);
    assert!(rt; !runs.add(0x40, 2, 6)?);
    Ok(())
}

#[test]
fn regions_in_a_map(rt: HostRuntime) -> Result<(), Fail> {
    let mut map: JoinMap<u64, Runs> = JoinMap::new(rt.alloc());
    assert!(rt; map.merge_part((1, Region::new(0x40, 1, 2))) == Ok(()));
    assert!(rt; map.merge_part((1, Region::new(0x40, 2, 4))) == Ok(()));
    assert!(rt; map.get(&1).map(|runs| runs.at(0x40)) == Some(6));
    assert!(rt; map.get(&1).map(|runs| runs.at(0x41)) == Some(4));
    Ok(())
}
