//! Versions of spaces that have not ended.

use crate::limits::MOST_OPERATIONS;
use crate::replicas::Replica;
use mapdb_facts::Space;

impl Replica {
    ghost use Rattle.std.specs.Prelude.{◌≡◌, ◌≤◌, true, length};
    ghost use Rattle.mapdb_facts.specs.State.{state_of};
    ghost use Rattle.mapdb_facts.specs.WellFormed.{all_formed};
    ghost use Rattle.mapdb_replica.specs.Versions.{IsFreeVersion, free_version};

    /// The least version of a space of this number whose end is not held. It is 0 for the number of
    /// the first space, which never ends. It takes no memory.
    pub fn free_version(&self, number: u16) -> u32
        ensures free { IsFreeVersion (state_of self.now.ops) number result }
        ensures exact { result ≡ free_version self.now.ops number }
        ensures limit { result ≤ length self.now.ops }
        ensures first { number ≡ 0 → result ≡ 0 }
        ensures most { result ≤ MOST_OPERATIONS }
    {
        let mut version = 0;
        'versions: while self.has_ended(Space { number, version }) {
            version += 1;
        }
        version
    }

    /// Whether the copy holds the end of the space.
    fn has_ended(&self, space: Space) -> bool
        ensures ended { result ≡ (state_of self.now.ops).is_ended space }
        ensures few { length self.now.ops ≤ MOST_OPERATIONS }
        ensures formed { all_formed self.now.ops ≡ true }
    {
        self.facts.ended(space)
    }
}
