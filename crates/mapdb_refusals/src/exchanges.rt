//! An exchange that gives no report, and gives one at the next call.

use crate::commands::{copy_after, map, one_page_for_many};
use crate::comparing::serve_alike;
use crate::found::{Again, Found, refused, whole_again_if, whole_if};
use mapdb_exchange::{Report, RunFault, run};
use mapdb_node::Open;
use mapdb_replica::{Command, Replica};
use std::alloc::{AllocError, Global};
use std::sync::Wait;
use std::thread::Threads;

/// Links hold so many messages.
const CAPACITY: usize = 4;

/// The one command of processor 1, whose page no other command names.
fn of_the_other() -> Command {
    map((0, 0x3_0000), (9, 0x3_0000), 12)
}

/// The scripts of two processors.
fn scripts_of(alloc: Global) -> Result<Vec<Vec<Command>>, AllocError> {
    let mut scripts = Vec::new(alloc);
    scripts.push(Vec::from_array(alloc, one_page_for_many())?)?;
    scripts.push(Vec::from_array(alloc, [of_the_other()])?)?;
    Ok(scripts)
}

/// Whether a copy holds so many operations and serves as the wanted one. The names of the records
/// follow from which thread came first.
fn is_like(copy: &Replica, wanted: &Replica) -> bool {
    copy.log_len() == wanted.log_len() && serve_alike(copy, wanted)
}

/// Whether there are two parts, and their copies hold the same, which is what is wanted.
fn is_whole(report: &Report, wanted: &Replica) -> bool {
    match report.parts.as_slice() {
        [one, other] => {
            let copy = one.history.copy();
            is_like(copy, wanted) && copy.same(other.history.copy())
        }
        _ => false,
    }
}

/// Runs the scripts, and answers whether the copies are as they are wanted.
fn run_scripts<R: Threads + Wait + Sync>(
    rt: &R,
    alloc: Global,
    scripts: Vec<Vec<Command>>,
    wanted: &Replica,
) -> Result<bool, RunFault> {
    match run(rt, alloc, scripts, CAPACITY, &Open) {
        Ok(report) => Ok(is_whole(&report, wanted)),
        Err(fault) => Err(fault),
    }
}

/// Whether a run ends so because memory ran out: it is told as such, or as a thread that could not
/// be started, or as a link that another worker left.
fn is_refusal(fault: RunFault) -> bool {
    matches!(
        fault,
        RunFault::Memory | RunFault::NoThread | RunFault::Link
    )
}

/// What an exchange that gave no report comes to, made again.
fn run_again<R: Threads + Wait + Sync>(
    rt: &R,
    alloc: Global,
    scripts: Vec<Vec<Command>>,
    wanted: &Replica,
) -> Option<Again> {
    match run_scripts(rt, alloc, scripts, wanted) {
        Ok(is_whole) => whole_again_if(is_whole),
        Err(fault) if is_refusal(fault) => Some(Again::Refused(0)),
        Err(_) => None,
    }
}

/// What is found of an exchange of the first scripts, which are made again as the second.
fn found_of<R: Threads + Wait + Sync>(
    rt: &R,
    alloc: Global,
    first: Vec<Vec<Command>>,
    second: Vec<Vec<Command>>,
    wanted: &Replica,
) -> Found {
    match run_scripts(rt, alloc, first, wanted) {
        Ok(is_whole) => whole_if(is_whole),
        Err(fault) if is_refusal(fault) => refused(0, run_again(rt, alloc, second, wanted)),
        Err(_) => Found::Wrong,
    }
}

/// What is found of an exchange, where there is memory for its scripts.
fn found_of_scripts<R: Threads + Wait + Sync>(rt: &R, alloc: Global, wanted: &Replica) -> Found {
    let Ok(first) = scripts_of(alloc) else {
        return Found::Unmade;
    };
    match scripts_of(alloc) {
        Ok(second) => found_of(rt, alloc, first, second, wanted),
        Err(_) => Found::Unmade,
    }
}

/// An exchange of two processors.
pub fn run_twice<R: Threads + Wait + Sync>(rt: &R, alloc: Global) -> Found {
    match copy_after(alloc, &one_page_for_many(), &[of_the_other()]) {
        Some(wanted) => found_of_scripts(rt, alloc, &wanted),
        None => Found::Unmade,
    }
}
