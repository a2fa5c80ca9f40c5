//! What taking a batch at one copy is replied.

ghost use Rattle.std.specs.Prelude.{◌≡◌, ◌≢◌, ◌<◌, length};
ghost use Rattle.mapdb_cluster.specs.Net.{taken_reply};
ghost use Rattle.mapdb_cluster.specs.Steps.{Joins, TakesWith};

use crate::events::{Refusal, Reply};
use mapdb_facts::Op;
use mapdb_replica::{Replica, TakeFault, merge_among};

/// The reply to a batch that a copy took, or did not take.
fn taken_reply(taken: Result<u32, TakeFault>) -> Reply
    ensures { result ≡ taken_reply taken }
{
    match taken {
        Ok(count) => Reply::Taken(count),
        Err(fault) => Reply::Refused(Refusal::Take(fault)),
    }
}

/// Takes a batch at a copy.
pub(crate) fn take(copy: &mut Replica, batch: &[Op]) -> Reply
    ensures { TakesWith batch.now copy.old result copy.new }
{
    taken_reply(copy.take(batch))
}

/// One of the copies takes all that another one holds.
pub(crate) fn join(copies: &mut [Replica], into: usize, from: usize) -> Reply
    requires into { into < length copies.old }
    requires from { from < length copies.old }
    requires apart { into ≢ from }
    ensures { Joins copies.old into from result copies.new }
{
    taken_reply(merge_among(copies, into, from))
}
