//! Starts all workers side by side, and waits for all.

ghost use Rattle.std.specs.Prelude.{◌≡◌, ◌⊎◌, ◌++◌, [], None, length, IfErr, IfOk, OnOk, map};
ghost use Rattle.mapdb_exchange.specs.Faults.{IsFirstFault, listed, missing};
ghost use Rattle.mapdb_exchange.specs.Workers.{faults_of};

use crate::faults::{NodeFault, Unstarted, WorkFault, first_fault};
use crate::workers::{Ended, Post, work};
use mapdb_node::{Gate, Seat};
use mapdb_replica::TakeFault;
use std::alloc::{AllocError, Global};
use std::sync::Wait;
use std::thread;
use std::thread::{JoinHandle, Scope, Threads};

/// The workers that were started, and whether the next one was not.
#[derive(Drop)]
struct Started {
    handles: Vec<JoinHandle<Ended>>,
    unstarted: Option<Unstarted>,
}

/// What the workers that were started ended with, in the order of their posts, and whether the next
/// one was not started.
#[derive(Drop)]
pub(crate) struct Ends {
    ended: Vec<Ended>,
    unstarted: Option<Unstarted>,
}

/// Each worker in a thread of its own, all at the same time, until all have ended.
pub(crate) fn run_all<R: Threads + Wait + Sync, G: Gate + Sync>(
    rt: &R,
    alloc: Global,
    gate: &G,
    posts: Vec<Post>,
) -> Result<Ends, AllocError>
    ensures { IfOk result (λ ends. ends.unstarted ≡ None
        → length ends.ended.items ≡ length posts.entry.items) }
{
    thread::scope(thread::scope_env(), rt, move |scope| {
        let Started { handles, unstarted } = start_all(scope, rt, alloc, gate, posts)?;
        let ended = join_all(rt, alloc, handles)?;
        Ok(Ends { ended, unstarted })
    })
}

/// Starts a worker for each post, until one cannot be started.
fn start_all<'s, 'e: 's, R: Wait + Sync, G: Gate + Sync>(
    scope: &Scope<'s, &'e ()>,
    rt: &'e R,
    alloc: Global,
    gate: &'e G,
    posts: Vec<Post<'e>>,
) -> Result<Started, AllocError>
    ensures { IfOk result (λ started. started.unstarted ≡ None
        → length started.handles.items ≡ length posts.entry.items) }
{
    let mut handles = Vec::with_capacity(alloc, posts.len())?;
    for post in posts {
        let Ok(handle) = scope.spawn(move || work(rt, alloc, gate, post)) else {
            let unstarted = Some(Unstarted);
            return Ok(Started { handles, unstarted });
        };
        handles.push_reserved(handle);
    }
    let unstarted = None;
    Ok(Started { handles, unstarted })
}

/// Waits for all workers.
fn join_all<R: Threads>(
    rt: &R,
    alloc: Global,
    handles: Vec<JoinHandle<Ended>>,
) -> Result<Vec<Ended>, AllocError>
    ensures { IfOk result (λ ended. length ended.items ≡ length handles.items) }
{
    let mut ended = Vec::with_capacity(alloc, handles.len())?;
    for handle in handles {
        ended.push_reserved(handle.join(rt));
    }
    Ok(ended)
}

/// The seats of all workers, in the order of the posts, where each was started and none ended
/// early. Of several faults one is told, as [`first_fault`] says: that of a worker which was not
/// started stands before those of the others.
#[tactic(auto, using(crate::proofs::MetFaults::met_more, crate::proofs::MetFaults::seats_more))]
pub(crate) fn seats_of(alloc: Global, ends: Ends) -> Result<Vec<Seat>, WorkFault>
    ensures first { IfErr result (λ fault. (fault ≡ WorkFault.Memory)
        ⊎ IsFirstFault (listed (missing ends.unstarted) ++ faults_of ends.ended.items) fault) }
    ensures none { OnOk result (listed (missing ends.unstarted) ++ faults_of ends.ended.items
        ≡ []) }
    ensures seats { IfOk result (λ seats. seats.items ≡ map (λ e. e.seat) ends.ended.items) }
{
    // The list of faults is lent: this tells the prover which types a fault may hold.
    let _held: (Option<NodeFault>, Option<TakeFault>) = (None, None);
    let Ends { ended, unstarted } = ends;
    let mut seats = Vec::with_capacity(alloc, ended.len())?;
    let mut faults = Vec::new(alloc);
    put_fault(&mut faults, missing(unstarted))?;
    for Ended { seat, fault } in ended {
        seats.push_reserved(seat);
        put_fault(&mut faults, fault)?;
    }
    match first_fault(faults.as_slice()) {
        None => Ok(seats),
        Some(fault) => Err(fault),
    }
}

/// The fault of a run in which not every worker was started.
fn missing(unstarted: Option<Unstarted>) -> Option<WorkFault>
    ensures { result ≡ missing unstarted }
{
    unstarted.map(|_| WorkFault::NoThread)
}

/// Adds a fault, where there is one.
fn put_fault(faults: &mut Vec<WorkFault>, fault: Option<WorkFault>) -> Result<(), AllocError>
    ensures { OnOk result (faults.new.items ≡ faults.old.items ++ listed fault) }
{
    // As above.
    let _held: (Option<NodeFault>, Option<TakeFault>) = (None, None);
    if let Some(fault) = fault {
        faults.push(fault)?;
    }
    Ok(())
}
