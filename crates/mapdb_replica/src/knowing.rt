//! What a copy knows already.

use crate::replicas::Replica;
use mapdb_facts::Op;

impl Replica {
    ghost use Rattle.std.specs.Prelude.{◌≡◌};
    ghost use Rattle.mapdb_facts.specs.Adding.{is_new};
    ghost use Rattle.mapdb_facts.specs.State.{IsSound, state_of};
    ghost use Rattle.mapdb_replica.specs.Agreement.{knows_all};

    /// Whether the operation says something that is not held.
    pub(crate) fn is_new(&self, op: &Op) -> bool
        ensures { result ≡ is_new (state_of self.now.ops) op.now }
    {
        self.facts.is_new(op)
    }

    /// Whether no operation of the list says anything that is not held. It takes no memory.
    pub(crate) fn knows_all(&self, ops: &[Op]) -> bool
        ensures known { result ≡ knows_all self.now.ops ops.now }
        ensures sound { IsSound self.now.ops }
    {
        // The proof needs what a copy keeps, which is known where one of its fields is used.
        let _ops = &self.ops;
        for op in ops {
            if self.is_new(op) {
                return false;
            }
        }
        true
    }
}
