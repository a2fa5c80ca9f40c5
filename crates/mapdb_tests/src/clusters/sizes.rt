//! Runs of many events, messages of many operations, many messages and many processors. No event
//! runs out of memory there.

use super::{deliver, issue, send};
use crate::commands::end;
use mapdb_cluster::{Cluster, Reply};
use mapdb_facts::PROCESSOR_LIMIT;
use mapdb_replica::Replica;
use std::test::Fail;

#[test]
fn long_runs(rt: HostRuntime) -> Result<(), Fail> {
    let mut events = Vec::new(rt.alloc());
    for number in 1..=u16::MAX {
        events.push(issue(0, end(number)))?;
    }
    let mut cluster = Cluster::new(rt.alloc(), 2)?;
    let replies = cluster.run(events.as_slice()).ok().ok_or("memory")?;
    assert_eq!(rt; replies.len(), events.len());
    assert!(rt; replies.iter().all(|reply| *reply == Reply::Ended));
    let told = cluster.run(&[send(0, 65_535), deliver(0), deliver(0)]);
    let sent = Reply::Sent {
        message: 0,
        count: 65_535,
    };
    let wanted = [sent, Reply::Taken(65_535), Reply::Taken(0)];
    assert_eq!(rt; told.ok().ok_or("memory")?.as_slice(), wanted.as_slice());
    Ok(())
}

/// One run of 100,000 events, each of which sends a message.
#[test]
fn many_messages(rt: HostRuntime) -> Result<(), Fail> {
    let mut events = Vec::new(rt.alloc());
    for _ in 0..100_000 {
        events.push(send(0, 0))?;
    }
    let mut cluster = Cluster::new(rt.alloc(), 1)?;
    let replies = cluster.run(events.as_slice()).ok().ok_or("memory")?;
    let last = Reply::Sent {
        message: 99_999,
        count: 0,
    };
    assert!(rt; replies.as_slice().last() == Some(&last));
    Ok(())
}

#[test]
fn most_processors(rt: HostRuntime) -> Result<(), Fail> {
    let cluster = Cluster::new(rt.alloc(), PROCESSOR_LIMIT)?;
    let last = PROCESSOR_LIMIT - 1;
    assert!(rt; cluster.copy(last).map(Replica::processor) == Some(last));
    assert!(rt; cluster.copy(PROCESSOR_LIMIT).is_none());
    Ok(())
}
