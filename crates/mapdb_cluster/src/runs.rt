//! Runs of a cluster.

use crate::clusters::Cluster;
use crate::events::{Event, Refusal, Reply};
use mapdb_replica::{IssueFault, TakeFault};

/// Why a run of a cluster stopped.
#[derive(Clone, Copy, Debug, PartialEq, Eq)]
pub enum RunFault {
    /// Memory ran out. The first `done` events stand, and the next one not at all, or in the
    /// part that its own fault allows.
    Memory { done: usize },
}

impl Reply {
    ghost use Rattle.std.specs.Prelude.{◌≡◌};
    ghost use Rattle.mapdb_replica.specs.Memory.{ends};
    ghost use Rattle.mapdb_cluster.specs.Steps.{memory_told};

    /// Whether memory ran out, so that the event does not stand, or not as a whole.
    pub fn ran_out_of_memory(&self) -> bool
        ensures { result ≡ ends (memory_told self.now) }
    {
        match self {
            Reply::Refused(Refusal::Issue(IssueFault::Memory { .. })) => true,
            Reply::Refused(Refusal::Take(TakeFault::Memory { .. })) => true,
            Reply::Refused(Refusal::Memory) => true,
            _ => false,
        }
    }
}

impl Cluster {
    ghost use Rattle.std.specs.Prelude.{◌≡◌, IfOk, IfErr, OnOk};
    ghost use Rattle.mapdb_cluster.specs.Honest.{AllTrusted};
    ghost use Rattle.mapdb_cluster.specs.Run.{after, all_done, replies};
    ghost use Rattle.mapdb_cluster.specs.Steps.{StopsAt};

    /// Does events, one after the other, and answers their replies in order. It goes on from where
    /// the cluster is, and stops at the first time that memory runs out: then the first `done`
    /// events stand, and their replies are gone.
    pub fn run(&mut self, events: &[Event]) -> Result<Vec<Reply>, RunFault>
        ensures replies { IfOk result (λ answer. answer.items
            ≡ replies self.old (all_done events.now)) }
        ensures trusted { IfOk result (λ answer. AllTrusted answer.items) }
        ensures done { OnOk result (self.new ≡ after self.old (all_done events.now)) }
        ensures err { IfErr result (StopsAt self.old events.now self.new) }
    {
        // The list of replies is lent: this tells the prover which types a reply may hold.
        let _held: (Option<Refusal>, Option<TakeFault>) = (None, None);
        let mut replies = Vec::new(self.alloc);
        for (done, event) in events.iter().enumerate() {
            if replies.reserve(1).is_err() {
                return Err(RunFault::Memory { done });
            }
            let reply = self.step(event);
            if reply.ran_out_of_memory() {
                return Err(RunFault::Memory { done });
            }
            replies.push_reserved(reply);
        }
        Ok(replies)
    }
}
