//! Calls that a gate stops.

use super::{Closed, expect, expect_one, map, two_seats};
use mapdb_node::{CallFault, Gate, GateFault, Node, NodeReply, Open, Point, Seat};
use std::alloc::Global;
use std::process::Abort;
use std::sync::Wait;
use std::sync::atomic::{AtomicU64, Ordering};
use std::test::Fail;
use std::thread;
use std::thread::Threads;

/// Stops each call at a point.
#[derive(Drop)]
struct StopsAt(Point);

impl Gate for StopsAt {
    fn pass(&self, _processor: u8, point: Point) -> Result<(), GateFault> {
        if point == self.0 {
            Err(GateFault)
        } else {
            Ok(())
        }
    }
}

/// Asserts that a call is stopped at a point, and how many entries the node closes with.
fn expect_stop<R: Abort + Wait>(
    rt: &R,
    alloc: Global,
    point: Point,
    count: usize,
) -> Result<(), Fail> {
    let node = Node::new(alloc, 0);
    let Ok(mut seat) = node.seat(rt) else {
        return Err(Fail::from("no seat"));
    };
    let stopped = node.call_at(rt, &mut seat, map(7, 1), &StopsAt(point));
    expect(rt, stopped.err(), Some(CallFault::Gate));
    expect_one(rt, alloc, node, seat, Closed::Entries(count))
}

#[test]
fn stopped_before(rt: HostRuntime) -> Result<(), Fail> {
    expect_stop(&rt, rt.alloc(), Point::Before, 0)
}

#[test]
fn stopped_held(rt: HostRuntime) -> Result<(), Fail> {
    expect_stop(&rt, rt.alloc(), Point::Held, 0)
}

#[test]
fn stopped_after(rt: HostRuntime) -> Result<(), Fail> {
    expect_stop(&rt, rt.alloc(), Point::After, 1)
}

#[test]
fn open_gate(rt: HostRuntime) -> Result<(), Fail> {
    let node = Node::new(rt.alloc(), 0);
    let Ok(mut seat) = node.seat(&rt) else {
        return Err(Fail::from("no seat"));
    };
    let reply = node.call_at(&rt, &mut seat, map(7, 1), &Open);
    expect(
        &rt,
        reply.ok(),
        Some(NodeReply::Issued { first: 1, count: 1 }),
    );
    expect(&rt, seat.calls().len(), 1);
    expect_one(&rt, rt.alloc(), node, seat, Closed::Entries(1))
}

/// Lets the three points of one call at the copy of processor 63 pass in their order, and nothing
/// else.
#[derive(Drop)]
struct InOrder {
    passed: AtomicU64,
}

impl Gate for InOrder {
    fn pass(&self, processor: u8, point: Point) -> Result<(), GateFault> {
        let place = match point {
            Point::Before => 0,
            Point::Held => 1,
            Point::After => 2,
        };
        if processor == 63 && self.passed.fetch_add(1, Ordering::SeqCst) == place {
            Ok(())
        } else {
            Err(GateFault)
        }
    }
}

#[test]
fn each_point_once(rt: HostRuntime) -> Result<(), Fail> {
    let gate = InOrder {
        passed: AtomicU64::new(0),
    };
    let node = Node::new(rt.alloc(), 63);
    let Ok(mut seat) = node.seat(&rt) else {
        return Err(Fail::from("no seat"));
    };
    let reply = node.call_at(&rt, &mut seat, map(7, 1), &gate);
    expect(
        &rt,
        reply.ok(),
        Some(NodeReply::Issued { first: 1, count: 1 }),
    );
    expect(&rt, gate.passed.load(Ordering::SeqCst), 3);
    Ok(())
}

/// The most turns that a call waits for another one.
const MOST_TURNS: u32 = 10_000_000;

/// Keeps a call at a point until another call is done, for so many turns.
#[derive(Drop)]
struct Stays {
    point: Point,
    turns: u32,
    came: AtomicU64,
    done: AtomicU64,
}

/// Whether a flag is set within so many turns.
fn is_set_within(flag: &AtomicU64, turns: u32) -> bool {
    for _ in 0..turns {
        if flag.load(Ordering::SeqCst) == 1 {
            return true;
        }
        thread::yield_now();
    }
    false
}

impl Gate for Stays {
    fn pass(&self, _processor: u8, point: Point) -> Result<(), GateFault> {
        if point != self.point {
            return Ok(());
        }
        self.came.store(1, Ordering::SeqCst);
        if is_set_within(&self.done, self.turns) {
            Ok(())
        } else {
            Err(GateFault)
        }
    }
}

/// Makes a call once another one has come to its point.
fn call_meanwhile<R: Wait>(rt: &R, node: &Node, seat: &mut Seat, gate: &Stays) -> bool {
    let came = is_set_within(&gate.came, MOST_TURNS);
    let done = node.call(rt, seat, map(8, 1)).is_ok();
    gate.done.store(1, Ordering::SeqCst);
    came && done
}

/// Whether a call passes a point within so many turns of another call, which comes meanwhile.
fn passes<R: Threads + Wait + Sync>(
    rt: &R,
    node: &Node,
    pair: &mut (Seat, Seat),
    gate: &Stays,
) -> (bool, bool) {
    let (one, other) = pair;
    thread::join(
        rt,
        || node.call_at(rt, one, map(7, 1), gate).is_ok(),
        || call_meanwhile(rt, node, other, gate),
    )
}

/// Asserts whether another call is done while one stays at a point.
fn expect_done<R: Abort + Threads + Wait + Sync>(
    rt: &R,
    alloc: Global,
    point: Point,
    turns: u32,
    is_done: bool,
) -> Result<(), Fail> {
    let gate = Stays {
        point,
        turns,
        came: AtomicU64::new(0),
        done: AtomicU64::new(0),
    };
    let Some((node, one, other)) = two_seats(rt, alloc) else {
        return Err(Fail::from("no seats"));
    };
    let mut pair = (one, other);
    expect(rt, passes(rt, &node, &mut pair, &gate), (is_done, true));
    Ok(())
}

#[test]
fn lock_is_held_at_held(rt: HostRuntime) -> Result<(), Fail> {
    expect_done(&rt, rt.alloc(), Point::Held, 100_000, false)
}

#[test]
fn lock_is_given_back_at_after(rt: HostRuntime) -> Result<(), Fail> {
    expect_done(&rt, rt.alloc(), Point::After, MOST_TURNS, true)
}
