//! Clusters: every order of delivery, things that are missing, and great sizes.

use crate::commands::{end, map, rights, space, unmap};
use crate::orders::ORDERS;
use mapdb_cluster::{Cluster, Event, Refusal, Reply};
use mapdb_fpage::Rights;
use mapdb_replica::Command;
use std::alloc::Global;
use std::process::Abort;
use std::test::Fail;

mod sizes;

/// A command at a processor.
fn issue(at: u8, command: Command) -> Event {
    Event::Issue { at, command }
}

/// A message with operations of processor 0.
fn send(first: u32, end: u32) -> Event {
    Event::Send {
        from: 0,
        first,
        end,
    }
}

/// A message comes to processor 1.
fn deliver(message: u64) -> Event {
    Event::Deliver { message, to: 1 }
}

/// Asserts what a page of a space has at a processor.
fn expect_rights(
    rt: &impl Abort,
    cluster: &Cluster,
    at: u8,
    number: u16,
    page: u64,
    wanted: &[(u64, Rights)],
) -> Result<(), Fail> {
    let copy = cluster.copy(at).ok_or("a processor")?;
    let pairs = copy.rights(space(number), page)?;
    assert!(rt; pairs.as_slice() == wanted);
    Ok(())
}

/// Two processors, of which the first makes two maps, takes one right back, ends a space, and sends
/// each operation.
fn four_messages(rt: &impl Abort, alloc: Global) -> Result<Cluster, Fail> {
    let mut cluster = Cluster::new(alloc, 2)?;
    let events = [
        issue(0, map((0, 0x10000), (1, 0x20000), 12, 6)),
        issue(0, map((1, 0x20000), (2, 0x30000), 12, 6)),
        issue(0, unmap(1, 0x20000, 12, 2)),
        issue(0, end(3)),
        send(0, 1),
        send(1, 2),
        send(2, 3),
        send(3, 4),
    ];
    let replies = cluster.run(&events).ok().ok_or("enough memory")?;
    let wanted = [
        Reply::Issued { first: 1, count: 1 },
        Reply::Issued { first: 2, count: 1 },
        Reply::Revoked(1),
        Reply::Ended,
        Reply::Sent {
            message: 0,
            count: 1,
        },
        Reply::Sent {
            message: 1,
            count: 1,
        },
        Reply::Sent {
            message: 2,
            count: 1,
        },
        Reply::Sent {
            message: 3,
            count: 1,
        },
    ];
    assert_eq!(rt; replies.as_slice(), wanted.as_slice());
    Ok(cluster)
}

/// Asserts that copy 1 looks as copy 0 does once it took the four messages in this order.
fn expect_delivered(rt: &impl Abort, alloc: Global, order: &[u32; 4]) -> Result<(), Fail> {
    let mut cluster = four_messages(rt, alloc)?;
    for message in order {
        assert_eq!(rt; cluster.step(&deliver(*message as u64)), Reply::Taken(1));
    }
    let (copy, other) = (cluster.copy(0), cluster.copy(1));
    assert!(rt; copy.ok_or("copy 0")?.same(other.ok_or("copy 1")?));
    expect_rights(rt, &cluster, 1, 2, 0x30, &[(0x10, rights(4))])
}

#[test]
fn every_delivery_order(rt: HostRuntime) -> Result<(), Fail> {
    for order in &ORDERS {
        expect_delivered(&rt, rt.alloc(), order)?;
    }
    Ok(())
}

#[test]
fn missing_things(rt: HostRuntime) -> Result<(), Fail> {
    let mut cluster = Cluster::new(rt.alloc(), 1)?;
    let nothing = Event::Send {
        from: 0,
        first: 0,
        end: 0,
    };
    assert_eq!(rt;
        cluster.step(&nothing),
        Reply::Sent {
            message: 0,
            count: 0
        }
    );
    assert_eq!(rt; cluster.step(&send(0, 1)), Reply::Refused(Refusal::Mark));
    let absent = Event::Deliver { message: 9, to: 0 };
    assert_eq!(rt; cluster.step(&absent), Reply::Refused(Refusal::NoMessage));
    assert_eq!(rt;
        cluster.step(&issue(7, end(3))),
        Reply::Refused(Refusal::NoProcessor)
    );
    assert!(rt; cluster.copy(1).is_none());
    Ok(())
}
