//! What no contract says of an exchange: that it succeeds, and what the copies hold then.
//!
//! Scripts are made before runs, and assertions stand in functions of their own.

use mapdb_exchange::{Report, RunFault, run};
use mapdb_facts::Space;
use mapdb_fpage::{Fpage, MapItem, Rights};
use mapdb_node::Open;
use mapdb_replica::Command;
use std::alloc::{AllocError, Global};
use std::fmt::Debug;
use std::process::Abort;
use std::sync::Wait;
use std::test::Fail;
use std::thread::Threads;

mod gates;
mod links;

/// Asserts that what was found is what is wanted.
fn expect<T: Copy + Debug + PartialEq>(rt: &impl Abort, found: T, wanted: T) {
    assert_eq!(rt; found, wanted);
}

/// Maps a page of the first space to another space.
fn map(from: u64, rights: Rights, to: u16) -> Command {
    Command::Map {
        sender: Space::FIRST,
        item: MapItem {
            send_base: 0,
            page: Fpage::new(from, 12).ok(),
            rights,
        },
        receiver: Space::first(to),
        window: Fpage::new(0x2_0000, 12).ok(),
    }
}

/// Ends a space.
fn end(number: u16) -> Command {
    Command::End {
        space: Space::first(number),
    }
}

/// The scripts of three processors.
fn three_scripts(alloc: Global) -> Result<Vec<Vec<Command>>, AllocError> {
    let read = Rights::new(true, false, false);
    let write = Rights::new(true, true, false);
    let execute = Rights::new(true, false, true);
    let mut scripts = Vec::new(alloc);
    scripts.push(Vec::from_array(alloc, [map(0x1_0000, write, 1), end(9)])?)?;
    scripts.push(Vec::from_array(alloc, [map(0x3_0000, read, 2)])?)?;
    scripts.push(Vec::from_array(alloc, [map(0x4_0000, execute, 3)])?)?;
    Ok(scripts)
}

/// A script that ends so many spaces, from this one on.
fn ends(alloc: Global, first: u16, count: u16) -> Result<Vec<Command>, AllocError> {
    let mut script = Vec::new(alloc);
    for step in 0..count {
        script.extend_from_slice(&[end(first.saturating_add(step))])?;
    }
    Ok(script)
}

/// Whether each part has so many commands and own operations, and each copy holds what the first
/// one holds.
fn has_counts(report: &Report, counts: &[usize]) -> bool {
    let Some(first) = report.parts.first() else {
        return false;
    };
    report.parts.len() == counts.len()
        && report.parts.iter().zip(counts).all(|(part, count)| {
            part.commands == *count
                && part.history.copy().own_len() as usize == *count
                && part.history.copy().same(first.history.copy())
        })
}

/// Asserts that an exchange of three processors succeeds, and what it leaves.
fn expect_three<R: Abort + Threads + Wait + Sync>(
    rt: &R,
    alloc: Global,
    capacity: usize,
) -> Result<(), Fail> {
    let scripts = three_scripts(alloc)?;
    match run(rt, alloc, scripts, capacity, &Open) {
        Ok(report) => assert!(rt; has_counts(&report, &[2, 1, 1])),
        Err(fault) => panic!(rt; "the run fails: {fault:?}"),
    }
    Ok(())
}

#[test]
fn threaded_exchange(rt: HostRuntime) -> Result<(), Fail> {
    for capacity in &[1, 16, 1_024] {
        expect_three(&rt, rt.alloc(), *capacity)?;
    }
    Ok(())
}

/// Whether there are so many parts, and each copy holds so many operations.
fn holds_all(report: &Report, parts: usize, count: u32) -> bool {
    report.parts.len() == parts
        && report
            .parts
            .iter()
            .all(|part| part.history.copy().log_len() == count)
}

#[test]
fn long_scripts(rt: HostRuntime) -> Result<(), Fail> {
    let mut scripts = Vec::new(rt.alloc());
    scripts.push(ends(rt.alloc(), 1, 1_000)?)?;
    scripts.push(ends(rt.alloc(), 1_001, 1_000)?)?;
    match run(&rt, rt.alloc(), scripts, 1, &Open) {
        Ok(report) => assert!(rt; holds_all(&report, 2, 2_000)),
        Err(fault) => panic!(rt; "the run fails: {fault:?}"),
    }
    Ok(())
}

/// Asserts that an exchange of so many processors, over links of this capacity, is told as a bad
/// count.
fn expect_bad_count<R: Abort + Threads + Wait + Sync>(
    rt: &R,
    alloc: Global,
    count: u16,
    capacity: usize,
) -> Result<(), Fail> {
    let mut scripts = Vec::new(alloc);
    for number in 0..count {
        scripts.push(ends(alloc, number, 1)?)?;
    }
    let fault = run(rt, alloc, scripts, capacity, &Open).err();
    expect(rt, fault, Some(RunFault::BadCount));
    Ok(())
}

/// No script, too many, no capacity and too much.
#[test]
fn bad_counts(rt: HostRuntime) -> Result<(), Fail> {
    for (count, capacity) in &[(0, 1), (5, 1), (1, 0), (1, 1_025)] {
        expect_bad_count(&rt, rt.alloc(), *count, *capacity)?;
    }
    Ok(())
}
