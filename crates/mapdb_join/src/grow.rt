//! A set that grows.
ghost use Rattle.std.specs.Prelude.{◌≡◌, ◌∷◌, [], false, not, List, IfOk, IfErr, OnOk, OnErr, refl};
ghost use Rattle.std.specs.BTreeSet.{contains, insert_key};
ghost use Rattle.mapdb_join.specs.Atoms.{Includes, IsUnion, IsBetween, Clashes};
ghost use Rattle.mapdb_join.specs.Faults.{FaultLeaves};
ghost use Rattle.mapdb_join.specs.Grow.{has_key, IsKeySet};
ghost use Rattle.mapdb_join.specs.Lawful.Bits.{no_exclusion};
ghost use Rattle.mapdb_join.specs.Lawful.Exact.{exact_cmp};
ghost use Rattle.mapdb_join.specs.Lawful.Grow.{finite_keys, joined_keys};

use crate::exact::{Exact, Representable};
use crate::merge::{Merge, MergeFault};
use std::alloc::{AllocError, Global};
use std::collections::BTreeSet;
use std::marker::Model;

/// A set of keys, in their order, that only grows. No key excludes another, so no two sets clash.
#[derive(Clone, Debug, Drop)]
pub struct Grow<K: Ord> {
    alloc: Global,
    keys: BTreeSet<K>,
}

impl<K: Ord> Model for Grow<K> {
    ghost use Rattle.std.specs.Prelude.{List};

    ghost Value = { List K };

    ghost view = { λ a. a.keys.keys };
}

impl<K: Ord + Exact> Grow<K> {
    /// The empty set, which takes what memory it will need from the allocator. It takes none
    /// itself.
    pub fn new(alloc: Global) -> Grow<K>
        ensures { result ≡ [] }
    {
        Grow {
            alloc,
            keys: BTreeSet::new(alloc),
        }
    }

    /// Whether the set has the key.
    pub fn has(&self, key: &K) -> bool
        ensures { result ≡ has_key K.cmp self.now key.now }
    {
        self.keys.contains(key)
    }

    /// Adds a key, and answers whether it was new.
    ///
    /// The only error is that memory ran out, and then the key is new and nothing has changed.
    pub fn add(&mut self, key: K) -> Result<bool, AllocError>
        ensures new { IfOk result (λ new. new ≡ not (has_key K.cmp self.old key)) }
        ensures ok { OnOk result (self.new ≡ insert_key K.cmp self.old key) }
        ensures atoms { OnOk result (IsUnion (has_key K.cmp) self.old (key ∷ []) self.new) }
        ensures err { OnErr result (self.new ≡ self.old) }
        ensures absent { OnErr result (has_key K.cmp self.old key ≡ false) }
    {
        Ok(self.keys.insert(key)?)
    }
}

// Adds the keys of the one set to the other.
fn add_all<K: Ord + Exact>(keys: &mut BTreeSet<K>, others: &BTreeSet<K>) -> Result<(), AllocError>
    ensures ok { OnOk result (IsUnion (contains K.cmp) keys.old others.now keys.new) }
    ensures err { OnErr result (IsBetween (contains K.cmp) keys.old others.now keys.new) }
    ensures lacks { OnErr result (¬ (Includes (contains K.cmp) keys.old others.now)) }
{
    for key in others {
        keys.insert(*key)?;
    }
    Ok(())
}

// Shows that the keys are those of a set that a program can have.
fn prove_keys<K: Ord + Exact>(keys: &BTreeSet<K>)
    ensures { IsKeySet K.cmp K.is_value keys.now.keys }
{
    for key in keys {
        key.prove_value();
    }
}

impl<K: Ord + Exact> Representable for Grow<K> {
    ghost is_value = { IsKeySet K.cmp K.is_value };

    fn prove_value(&self) {
        prove_keys(&self.keys);
    }
}

impl<K: Ord + Exact> Merge for Grow<K> {
    type Atom = K;

    type Spot = ();

    ghost has = { has_key K.cmp };

    ghost excludes = { λ _ _. ⊥ };

    ghost is_spot = { λ _ _ _. Unit {0} };

    ghost atoms = { λ a. a };

    fn covers(&self, other: &Grow<K>) -> bool {
        self.keys.is_superset(&other.keys)
    }

    fn clash(&self, _other: &Grow<K>) -> Option<()> {
        None
    }

    /// Wants memory only where a key is new, and has no other fault.
    fn merge(&mut self, other: &Grow<K>) -> Result<(), MergeFault<()>>
        ensures ok { OnOk result (IsUnion (has_key K.cmp) self.old other.now self.new
            × (Clashes (has_key K.cmp) (λ _ _. ⊥) self.old other.now → ⊥)) }
        ensures err { IfErr result (FaultLeaves (has_key K.cmp) (λ _ _. ⊥) (λ _ _ _. Unit {0})
            self.old other.now self.new) }
        ensures lacks { OnErr result (¬ (Includes (has_key K.cmp) self.old other.now)) }
    {
        add_all(&mut self.keys, &other.keys)?;
        Ok(())
    }

    fn is_none(&self) -> bool {
        self.keys.is_empty()
    }

    fn copy(&self) -> Result<Grow<K>, AllocError> {
        let mut keys = BTreeSet::new(self.alloc);
        add_all(&mut keys, &self.keys)?;
        Ok(Grow {
            alloc: self.alloc,
            keys,
        })
    }

    ghost exclusion = { no_exclusion (has_key K.cmp) };

    ghost joined = { joined_keys K.total (exact_cmp K.cmp K.matches_eq K.exact) K.is_value };

    ghost one_spot = { λ _ _ _ _ _ _. refl };

    ghost finite = { finite_keys K.cmp (exact_cmp K.cmp K.matches_eq K.exact) };
}
