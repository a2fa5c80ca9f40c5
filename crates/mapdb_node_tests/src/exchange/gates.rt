//! Exchanges whose calls pass a gate.

use super::{ends, expect};
use mapdb_exchange::{NodeFault, RunFault, run};
use mapdb_node::{Gate, GateFault, Point};
use mapdb_replica::{Command, TakeFault};
use std::alloc::{AllocError, Global};
use std::process::Abort;
use std::sync::Wait;
use std::sync::atomic::{AtomicU64, Ordering};
use std::test::Fail;
use std::thread;
use std::thread::Threads;

/// The most turns that a processor waits for the other.
const MOST_TURNS: u32 = 10_000_000;

/// Holds each of two processors under its lock until the other is held too.
#[derive(Drop)]
struct Meeting {
    held: [AtomicU64; 2],
}

impl Gate for Meeting {
    fn pass(&self, processor: u8, point: Point) -> Result<(), GateFault> {
        if processor > 1 || point != Point::Held {
            return Ok(());
        }
        let own = usize::from(processor);
        self.held[own].store(1, Ordering::SeqCst);
        for _ in 0..MOST_TURNS {
            if self.held[1 - own].load(Ordering::SeqCst) == 1 {
                return Ok(());
            }
            thread::yield_now();
        }
        Err(GateFault)
    }
}

/// Lets nothing pass.
#[derive(Clone, Copy)]
struct Shut;

impl Gate for Shut {
    fn pass(&self, _processor: u8, _point: Point) -> Result<(), GateFault> {
        Err(GateFault)
    }
}

/// Two scripts of one command each.
fn two_scripts(alloc: Global) -> Result<Vec<Vec<Command>>, AllocError> {
    let mut scripts = Vec::new(alloc);
    scripts.push(ends(alloc, 1, 1)?)?;
    scripts.push(ends(alloc, 2, 1)?)?;
    Ok(scripts)
}

/// The fault of an exchange of two processors.
fn fault_at<R: Abort + Threads + Wait + Sync, G: Gate + Sync>(
    rt: &R,
    alloc: Global,
    gate: &G,
) -> Result<Option<RunFault>, Fail> {
    let scripts = two_scripts(alloc)?;
    Ok(run(rt, alloc, scripts, 2, gate).err())
}

/// Where one lock stood round all nodes, or one thread did everything, no two processors would be
/// held at once.
#[test]
fn two_processors_are_held_at_once(rt: HostRuntime) -> Result<(), Fail> {
    // The gate is lent: this tells the prover which types the fault may hold.
    let _held: (Option<NodeFault>, Option<TakeFault>) = (None, None);
    let meeting = Meeting {
        held: [AtomicU64::new(0), AtomicU64::new(0)],
    };
    expect(&rt, fault_at(&rt, rt.alloc(), &meeting)?, None);
    Ok(())
}

#[test]
fn gate_that_refuses(rt: HostRuntime) -> Result<(), Fail> {
    expect(&rt, fault_at(&rt, rt.alloc(), &Shut)?, Some(RunFault::Gate));
    Ok(())
}

/// Lets the points of one command pass, and no more.
#[derive(Drop)]
struct Once {
    passed: AtomicU64,
}

impl Gate for Once {
    fn pass(&self, _processor: u8, _point: Point) -> Result<(), GateFault> {
        if self.passed.fetch_add(1, Ordering::SeqCst) < 3 {
            Ok(())
        } else {
            Err(GateFault)
        }
    }
}

/// Each command of a script passes the gate, and not the first alone.
#[test]
fn gate_that_refuses_the_second_command(rt: HostRuntime) -> Result<(), Fail> {
    let gate = Once {
        passed: AtomicU64::new(0),
    };
    let mut scripts = Vec::new(rt.alloc());
    scripts.push(ends(rt.alloc(), 1, 2)?)?;
    let fault = run(&rt, rt.alloc(), scripts, 1, &gate).err();
    expect(&rt, fault, Some(RunFault::Gate));
    Ok(())
}
